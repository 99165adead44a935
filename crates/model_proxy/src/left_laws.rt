//! What each call of a forwarder's two connections leaves to do.
ghost use Rattle.std.specs.Prelude.{◌≡◌, ◌≤◌, ◌∷◌, Bool, true, false, None, Some, IsTrue, List, length, ◌<◌};
ghost use Rattle.model_h1.specs.Setting.{Setting};
ghost use Rattle.model_h1.specs.Event as on;
ghost use Rattle.model_h1.specs.Request.{Head};
ghost use Rattle.model_h1.specs.Sums.{Step, request};
ghost use Rattle.model_state.specs.Kept.{Kept};
ghost use Rattle.model_h1.specs.Answer.{AnswerHead, BodySize, asked_of, is_at_once};
ghost use Rattle.model_state.specs.Local.{allowed_by, waits_for_answer, is_answering};
ghost use Rattle.model_state.specs.StandsFor.{StandsFor};
ghost use Rattle.model_client.specs.ClientEvent as asked;
ghost use Rattle.model_client.specs.ClientKept.{ClientKept, client_allows, client_closing};
ghost use Rattle.model_client.specs.ClientStep.{IsClientStep};
ghost use Rattle.model_client.specs.ClientTrace.{Happened, IsClientTrace};
ghost use Rattle.model_proxy.specs.Wants.{is_running, IsAskedBy, AsksTheSame, IsTold, WantsNoMore, WantsTheSame, AnswersNothing, WantsAfterNext};
ghost use Rattle.model_proxy.specs.Left.{client_left, AsksNothing, LeavesAfterNext, LeavesAfterPull, server_left, LeavesAll, LeavesAfterAnswer, LeavesAfterPiece, LacksPiece};

/// Of the client's connection: a head that is handed out leaves less, by more than a request has parts to do, and after a fault the
/// connection closes, and where none is there, there is room for more bytes of it; bytes of a body leave as much less, and its
/// trailers leave less; where nothing comes, nothing of the body is there; and no other call of a forwarder leaves more.
pub fn the_client_leaves_less()
    ensures next { (setting : Setting) (k next : Kept) (trace : List Step) (o : on.Outcome) → StandsFor setting k trace
        → StandsFor setting next (record { event = on.next; outcome = o } ∷ trace) → LeavesAfterNext setting o k next }
    ensures pull { (setting : Setting) (k next : Kept) (trace : List Step) (o : on.Outcome) → StandsFor setting k trace
        → StandsFor setting next (record { event = on.pull; outcome = o } ∷ trace) → allowed_by setting k on.drop_body ≡ true → LeavesAfterPull setting o k next }
    ensures others { (setting : Setting) (k next : Kept) (trace : List Step) (event : on.Event) (o : on.Outcome) → AsksNothing event → StandsFor setting k trace
        → StandsFor setting next (record { event = event; outcome = o } ∷ trace) → client_left next ≤ client_left k }
{}

/// The same of a server's connection: of an answer's head, of its body, and of the calls that send a request.
pub fn a_server_leaves_less()
    ensures next { (setting : Setting) (k next : ClientKept) (trace : List Happened) (o : asked.ClientOutcome) → IsClientTrace setting trace k
        → IsClientStep setting k asked.next o next → LeavesAfterAnswer o k next }
    ensures pull { (setting : Setting) (k next : ClientKept) (trace : List Happened) (o : asked.ClientOutcome) → IsClientTrace setting trace k
        → IsTrue (client_allows setting k asked.pull) → IsClientStep setting k asked.pull o next → LeavesAfterPiece o k next }
    ensures others { (setting : Setting) (k next : ClientKept) (event : asked.ClientEvent) (o : asked.ClientOutcome) → LeavesAll event
        → IsClientStep setting k event o next → server_left next ≡ server_left k }
{}

/// Of what came from either side no more is held than may be.
pub fn no_more_is_held()
    ensures client { (setting : Setting) (k : Kept) (trace : List Step) → StandsFor setting k trace → length k.unread ≤ setting.hold_size }
    ensures server { (setting : Setting) (k : ClientKept) (trace : List Happened) → IsClientTrace setting trace k → length k.unread ≤ setting.hold_size }
{}

/// Which answers the client's connection wants, while it goes on: after a head its request waits, and no answer is under way; after the
/// head of an answer no request waits for one, and one is under way unless it ends at once; after the end of an answer, or one that is
/// cut, none is; what any other event leaves wanted is what was. A head that is handed out is then the newest request's, and no other event
/// changes whether that counts as one of HEAD. A client of HTTP/1.1 that waits to be told to go on is told by one event, and no other but the next head
/// makes it wait for that; one of HTTP/1.0 never waits so.
pub fn no_more_answers_are_wanted()
    ensures next { (setting : Setting) (k next : Kept) (trace : List Step) (o : on.Outcome) → allowed_by setting k on.next ≡ true → StandsFor setting k trace
        → StandsFor setting next (record { event = on.next; outcome = o } ∷ trace) → WantsAfterNext setting o k next }
    ensures pull { (setting : Setting) (k next : Kept) (trace : List Step) (o : on.Outcome) → allowed_by setting k on.drop_body ≡ true
        → StandsFor setting k trace → StandsFor setting next (record { event = on.pull; outcome = o } ∷ trace) → WantsTheSame setting k next }
    ensures answer { (setting : Setting) (k next : Kept) (trace : List Step) (head : AnswerHead) (size : BodySize) (o : on.Outcome) → StandsFor setting k trace
        → StandsFor setting next (record { event = on.answer head size; outcome = o } ∷ trace)
        → (waits_for_answer next ≡ false) × (is_at_once size ≡ true → is_answering next ≡ false)
        × (waits_for_answer k ≡ true → is_at_once size ≡ false → is_answering next ≡ true) × AsksTheSame k next
        × (allowed_by setting k (on.answer head size) ≡ true → IsTold setting k → IsTold setting next) }
    ensures end { (setting : Setting) (k next : Kept) (trace : List Step) (o : on.Outcome) → allowed_by setting k on.body_end ≡ true → StandsFor setting k trace
        → StandsFor setting next (record { event = on.body_end; outcome = o } ∷ trace) → WantsNoMore setting k next × (is_answering next ≡ false) }
    ensures cut { (setting : Setting) (k next : Kept) (trace : List Step) (o : on.Outcome) → StandsFor setting k trace
        → StandsFor setting next (record { event = on.body_error; outcome = o } ∷ trace) → (is_running setting next ≡ true → ⊥) × AsksTheSame k next }
    ensures others { (setting : Setting) (k next : Kept) (trace : List Step) (event : on.Event) (o : on.Outcome) → AnswersNothing event
        → allowed_by setting k event ≡ true → StandsFor setting k trace
        → StandsFor setting next (record { event = event; outcome = o } ∷ trace) → WantsTheSame setting k next }
    ensures told { (setting : Setting) (k next : Kept) (trace : List Step) (o : on.Outcome) → StandsFor setting k trace
        → StandsFor setting next (record { event = on.send_continue; outcome = o } ∷ trace) → IsTold setting next }
{}

/// The newest request is that of the last head that was handed out: whether it counts as one of HEAD, by which its answer has no body, is
/// whether its method is HEAD.
pub fn the_newest_request_is_the_last_head()
    ensures { (setting : Setting) (is_head : Bool) (k : Kept) (trace : List Step) → StandsFor setting k trace → IsAskedBy is_head k
        → (h : Head) × (request trace ≡ Some h) × ((asked_of h).is_head ≡ is_head) }
{}

/// Where a server's next answer isn't there yet, its connection isn't to end, there is room for more bytes of it, and what is kept is unchanged;
/// where nothing of an answer's body is there, the server's input hasn't ended, and a further pull gives nothing either.
pub fn a_server_is_waited_for()
    ensures next { (setting : Setting) (k next : ClientKept) (trace : List Happened) → IsClientTrace setting trace k
        → IsClientStep setting k asked.next asked.pending next
        → (next ≡ record k { is_coming = k.is_coming }) × (client_closing k ≡ None) × (length k.unread < setting.hold_size) }
    ensures pull { (setting : Setting) (k next : ClientKept) (trace : List Happened) → IsClientTrace setting trace k
        → IsTrue (client_allows setting k asked.pull) → IsClientStep setting k asked.pull asked.pending next → LacksPiece setting next }
{}
