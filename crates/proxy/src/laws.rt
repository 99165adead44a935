//! What a forwarder's contracts come to.
ghost use Rattle.std.specs.Prelude.{◌≡◌, ◌⊎◌, ◌≤◌, ◌++◌, ℕ, List, [], length, Some, true, false};
ghost use Rattle.model_h1.specs.Setting.{Setting};
ghost use Rattle.model_h1.specs.Event as on;
ghost use Rattle.model_state.specs.Local.{waits_for_answer, is_answering};
ghost use Rattle.h1_connection.specs.State.{IsAllowed};
ghost use Rattle.model_client.specs.AnswerReading.{Answer};
ghost use Rattle.model_client.specs.ClientEvent as asked;
ghost use Rattle.model_client.specs.ClientKept.{ClientKept};
ghost use Rattle.model_client.specs.ClientStep.{IsClientStep};
ghost use Rattle.model_client.specs.ClientTrace.{Happened, IsClientTrace, taken};
ghost use Rattle.h1_client.specs.State as servers;
ghost use Rattle.model_proxy.specs.Past.{ProxyStep};
ghost use Rattle.model_proxy.specs.Happenings.{Happenings};
ghost use Rattle.model_proxy.specs.Wants.{is_of_old};
ghost use Rattle.proxy.specs.Leaves.{LacksHead, IsAwaited, LacksBytes};
ghost use Rattle.proxy.specs.declared.proxy.Proxy.{Proxy};
ghost use Rattle.proxy.specs.Kept.{client_of, server_of, wants_server, client_takes, Forwards};
ghost use Rattle.proxy.specs.Fresh.{IsReadFrom, WaitsAlone};
ghost use Rattle.proxy.specs.Rests.{may_turn, IsHeldUp, RestsWhereItMay};
ghost use Rattle.proxy.specs.Served.{IsServed, IsRequestUnderWay, IsNewestBy};
ghost use Rattle.proxy.specs.declared.proxy.SentRequest.{SentRequest};
ghost use Rattle.proxy.specs.Replies.{WasAnswered, marks_of, HasReplied, IsCarried};
ghost use Rattle.proxy.specs.Runs.{Ran, IsUsable, IsAForwarder};

/// Of what came from either side, and wasn't passed on yet, no more is held than may be: the hold size of the config. So no peer
/// makes a forwarder hold more unread bytes.
pub fn no_more_is_held()
    ensures client { (p : Proxy) (history : List ProxyStep) (all : Happenings) → Forwards p history all
        → length (client_of p).kept.unread ≤ (client_of p).settings.h1_hold_size }
    ensures server { (p : Proxy) (history : List ProxyStep) (all : Happenings) (s : servers.State) → Forwards p history all → server_of p ≡ Some s
        → length s.kept.unread ≤ (client_of p).settings.h1_hold_size }
{}

/// No client waits in vain. After an event, while turns may be made and the client's connection isn't given up: a request that waits for
/// its answer waits for a server connection that is wanted, or for the answer of one that is there, which isn't to end, has room for more
/// bytes, and whose next answer hasn't come; and an answer that isn't complete has a server connection whose input hasn't ended and from
/// which a further pull would give nothing, neither bytes nor the answer's end, where there is room for a piece. And where the client's
/// connection goes on, turns may be made unless 32768 bytes wait for the client to take them, or, while no request is sent on there, for a
/// server whose connection isn't to end.
pub fn no_client_waits_in_vain()
    ensures answer { (p : Proxy) → IsServed p → RestsWhereItMay p → may_turn p ≡ true → (client_of p).kept.is_over ≡ false
        → waits_for_answer (client_of p).kept ≡ true → (wants_server p ≡ true) ⊎ ((s : servers.State) × (server_of p ≡ Some s) × IsAwaited s) }
    ensures body { (p : Proxy) → IsServed p → RestsWhereItMay p → may_turn p ≡ true → (client_of p).kept.is_over ≡ false
        → is_answering (client_of p).kept ≡ true
        → (s : servers.State) × (server_of p ≡ Some s) × (((bytes : List ℕ) → IsAllowed (client_of p) (on.chunk bytes)) → LacksBytes s) }
    ensures held_up { (p : Proxy) → may_turn p ≡ false → IsHeldUp p }
{}

/// No request is left behind one whose reply is complete. After an event, while turns may be made and the client's connection isn't given up:
/// where no request waits for its answer, no answer is under way, and the next head may be asked for, no whole head of a further request is
/// there, and there is room for more bytes of it.
pub fn no_request_is_left_behind()
    ensures { (p : Proxy) → IsServed p → RestsWhereItMay p → may_turn p ≡ true → (client_of p).kept.is_over ≡ false
        → waits_for_answer (client_of p).kept ≡ false → is_answering (client_of p).kept ≡ false
        → LacksHead (client_of p) }
{}

/// No client waits to be told to go on. After an event a 100 may be sent only where the newest request is of HTTP/1.0, whose client never gets one:
/// any other that is under way has a client that doesn't wait for it, or was told, while its connection goes on; and no other request waits for its
/// answer.
pub fn no_client_waits_to_be_told()
    ensures { (p : Proxy) → IsServed p → client_takes p on.send_continue ≡ true → is_of_old (client_of p).kept ≡ true }
{}

/// A request counts as one of HEAD where its method is HEAD, and nowhere else. What is kept of the one under way, that it is one of HEAD or
/// isn't, is so of the newest head that the client's connection handed out, also once that is over.
pub fn a_request_counts_by_its_method()
    ensures { (p : Proxy) (history : List ProxyStep) (all : Happenings) (sent : SentRequest) → Forwards p history all → IsServed p → IsRequestUnderWay sent p
        → IsNewestBy sent.is_head all.requests }
{}

/// One request at most is under way: while one waits to be sent on, none was sent. So where 32768 bytes wait towards a server, no turn puts more
/// behind them (`SendsBelow`).
pub fn a_request_waits_alone()
    ensures { (p : Proxy) → IsServed p → WaitsAlone p }
{}

/// No answer is read from bytes that came before its request was sent. A request is sent on only where all that came before on its server
/// connection was read (`IsSentUpstream`): and any answer that is handed out after that is read from bytes that were taken after it.
pub fn no_answer_comes_before_its_request()
    ensures { (setting : Setting) (before more : List Happened) (k m next : ClientKept) (a : Answer) → IsClientTrace setting before k
        → k.unread ≡ [] → IsClientTrace setting (more ++ before) m → IsClientStep setting m asked.next (asked.answer a) next
        → (later : List ℕ) × (taken (more ++ before) ≡ taken before ++ later) × IsReadFrom setting later a }
{}

/// The parts of a reply are those of its answer. While a reply is under way whose head was passed on, turns put each piece that the server's
/// connection hands out of that answer's body, in order, and no other part; up to where its end was handed out, and the reply ends, or a fault
/// was, and the reply is cut.
pub fn a_reply_is_its_answer()
    ensures { (old new : Proxy) (sent : SentRequest) (s : servers.State) → HasReplied old new → WasAnswered sent old → server_of old ≡ Some s
        → IsCarried (marks_of sent) s old new }
{}

/// A forwarder, whatever events it was told. Each request that its client's connection handed out was sent on once at most, to one server
/// connection, whole or as far as it came. Its client got one reply to each at most, in order: the server's answer, made anew, or one of the
/// forwarder's own, each for its cause; and a reply is cut only where that answer was bad. This holds behind each event, so nothing comes before
/// its cause. It says nothing of when a reply comes: the clauses `rests` and `serves` do.
pub fn is_a_forwarder()
    ensures { (history : List ProxyStep) (p : Proxy) → Ran history p → IsUsable p → IsAForwarder history p }
{}
