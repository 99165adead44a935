//! What both ends hand out.

ghost use Rattle.std.specs.Prelude.{◌≡◌, ℕ, ◌<◌, ◌≤◌, false, true, not, List, [], ◌∷◌, ◌++◌, length, map, reverse, IsTrue, Some, None, codes};
ghost use Rattle.std.specs.List.{AllByRecursion, list_any};
ghost use Rattle.model_h1.specs.Request.{Head};
ghost use Rattle.model_h1.specs.LengthTable.{values_of};
ghost use Rattle.model_h1.specs.Answer.{asked_of as needed_of, type_of};
ghost use Rattle.model_h1.specs.Setting.{Setting};
ghost use Rattle.model_h1.specs.Closing.{is_kept};
ghost use Rattle.model_h1.specs.Text.{text};
ghost use Rattle.model_h1.specs.Laws.Exchanges.{AnswerGiven, exchanges};
ghost use Rattle.model_h1.specs.Sums.{Step, taken, has_ended};
ghost use Rattle.model_h1.specs.Handed.{handed_out};
ghost use Rattle.model_h1.specs.Trace.{IsAllowed, IsOutcome, IsTrace};
ghost use Rattle.model_h1.specs.Event as server_on;
ghost use Rattle.model_client.specs.AnswerParse.{is_interim};
ghost use Rattle.model_client.specs.AnswerReading.{Answer};
ghost use Rattle.model_client.specs.ClientEvent as on;
ghost use Rattle.model_client.specs.ClientEvent.{ClientRequest, ClientEnd};
ghost use Rattle.model_client.specs.ClientKept.{Waiting, ClientKept, waiting_of, is_free, client_closing, client_allows};
ghost use Rattle.model_client.specs.ClientStep.{is_ambiguous, is_closed_after, IsClientStep};
ghost use Rattle.model_client.specs.ClientTrace.{Happened, IsClientTrace, text_of, requests_of, answered_of};
ghost use Rattle.model_ends.specs.PlainExchange.{IsSelfFramed};
ghost use Rattle.model_ends.specs.SentAnswer.{SentAnswer, AreSent, AreHeld, sent_text, AreTo, sent_answer, answers_sent};
ghost use Rattle.model_ends.specs.AskedTrace.{requests_asked, IsPlainAsked, AreServedOut, IsAllServed};
ghost use Rattle.model_ends.specs.EndedBodies.{ends_body};
ghost use Rattle.model_ends.specs.Connected.{AreConnected, ArePlain, Agree, AreClear, EndsAsAsked, IsFairEnd};
ghost use Rattle.model_client.specs.ReadOut.{read_out};
ghost use Rattle.model_ends.specs.ReadOut.{bytes_taken, AreReadOut, IsAllHanded, IsPartSent};

/// A server that took the first bytes of what a client sends hands out the client's requests, the first of them, in their
/// order: each head as it was sent, the bytes of its body as far as they came, and its end only behind all of them. Nothing
/// is handed out twice, and no fault, but that a body is incomplete where the input has ended inside it.
pub fn a_server_hands_out_what_was_asked()
    ensures { (client server : Setting) (asked : List Happened) (kept : ClientKept) (served : List Step) (more : List ℕ) → 0 < server.hold_size
        → IsClientTrace client asked kept → IsTrace server served → taken served ++ more ≡ text_of asked
        → AllByRecursion (IsPlainAsked server.hold_size) (requests_asked asked)
        → ((handed_out served).stray ≡ [])
        × AreServedOut (has_ended served) (reverse (handed_out served).messages) (reverse (requests_asked asked)) }
{}

/// A client that took the first bytes of answers hands out these answers, the first of them, in their order, whatever it asked
/// and wherever the bytes were cut: each head as it was sent, the bytes of its body as far as they came and it wasn't dropped,
/// and its end only behind all of them.
pub fn a_client_hands_out_what_was_answered()
    ensures { (setting : Setting) (asked : List Happened) (kept : ClientKept) (ss : List SentAnswer) (more : List ℕ) (further : List Waiting)
        → 0 < setting.hold_size → IsClientTrace setting asked kept → bytes_taken asked ++ more ≡ sent_text ss
        → AreTo is_interim (map (λ w. w.method) (requests_of asked ++ further)) ss → AreSent ss → AreHeld (Some setting.hold_size) ss
        → ((read_out asked).stray ≡ []) × AreReadOut kept.has_ended (reverse (read_out asked).answers) ss }
{}

/// Two ends agree: a client and a server that are driven against each other in any way, each taking in any pieces what the
/// other wrote, hand out what the other sent.
pub fn two_ends_agree()
    ensures { (client server : Setting) (asked : List Happened) (kept : ClientKept) (served : List Step) → AreConnected client server asked kept served
        → ArePlain client server asked served → Agree server asked kept served }
{}

/// A client that took all that its server has to say, and is told that nothing has come yet, has handed out every answer; and
/// where it is told so of a body, all bytes of that body which were sent so far, and its end wasn't sent. A body is told to be
/// incomplete only where its end wasn't sent. A server that took all that its client sends, and waits for more, has handed out
/// every request; and where it is told so of a body, all bytes of that body which were sent so far, and its end wasn't sent.
pub fn nothing_is_left()
    ensures client { (client server : Setting) (asked : List Happened) (kept next : ClientKept) (served : List Step)
        → AreConnected client server asked kept served → ArePlain client server asked served → bytes_taken asked ≡ text server served
        → IsTrue (client_allows client kept on.next) → IsClientStep client kept on.next on.pending next
        → length (read_out asked).answers ≡ length (answers_sent server served) }
    ensures body { (client server : Setting) (asked : List Happened) (kept next : ClientKept) (served : List Step)
        → AreConnected client server asked kept served → ArePlain client server asked served → bytes_taken asked ≡ text server served
        → IsTrue (client_allows client kept on.pull) → IsClientStep client kept on.pull on.pending next
        → IsAllHanded (read_out asked).answers (answers_sent server served) }
    ensures cut { (client server : Setting) (asked : List Happened) (kept next : ClientKept) (served : List Step) (fault : server_on.BodyFault)
        → AreConnected client server asked kept served → ArePlain client server asked served → bytes_taken asked ≡ text server served
        → IsTrue (client_allows client kept on.pull) → IsClientStep client kept on.pull (on.broken_by fault) next
        → IsPartSent (answers_sent server served) }
    ensures server { (client server : Setting) (asked : List Happened) (kept : ClientKept) (served : List Step)
        → AreConnected client server asked kept served → ArePlain client server asked served → taken served ≡ text_of asked
        → IsOutcome server served server_on.next server_on.pending → length (handed_out served).messages ≡ length (requests_asked asked) }
    ensures server_body { (client server : Setting) (asked : List Happened) (kept : ClientKept) (served : List Step)
        → AreConnected client server asked kept served → ArePlain client server asked served → taken served ≡ text_of asked
        → IsAllowed server served server_on.pull → IsOutcome server served server_on.pull server_on.pending
        → IsAllServed (handed_out served).messages (requests_asked asked) }
{}

/// From a moment at which a body may be pulled up to the next answer, the body's end is told, or that it is faulty, or it is
/// dropped. So an answer that isn't the newest has the end of its body, unless that was dropped or is faulty.
pub fn an_older_answer_has_its_end()
    ensures asked { (setting : Setting) (before later : List Happened) (opened kept : ClientKept) → IsClientTrace setting before opened
        → IsTrue (client_allows setting opened on.pull) → IsClientTrace setting (later ++ before) kept → client_closing kept ≡ None
        → IsTrue (client_allows setting kept on.next) → list_any ends_body later ≡ true }
    ensures answered { (setting : Setting) (before later : List Happened) (opened kept next : ClientKept) (a : Answer)
        → IsClientTrace setting before opened → IsTrue (client_allows setting opened on.pull) → IsClientTrace setting (later ++ before) kept
        → IsTrue (client_allows setting kept on.next) → IsClientStep setting kept on.next (on.answer a) next → list_any ends_body later ≡ true }
{}

/// A client closes since a side asked for it, since its own request failed, or since its input has ended, and for no other
/// reason: it refuses no answer, and no byte comes that it didn't ask for.
pub fn a_client_finds_nothing_wrong()
    ensures { (client server : Setting) (asked : List Happened) (kept : ClientKept) (served : List Step) (end : ClientEnd)
        → AreConnected client server asked kept served → ArePlain client server asked served → client_closing kept ≡ Some end
        → IsFairEnd end kept.has_ended }
{}

/// After a final answer the client closes by what that says, and by what the request says that waited for it. After an answer
/// that says where it ends that is exactly where the server closes as it was asked to: where either side asked for it. What the
/// request asks is known to both, and no line of it asks for another protocol. Where the lines of the answer are ambiguous, as
/// a 304's own may be, the client closes by itself.
pub fn both_close_alike()
    ensures client { (client : Setting) (kept next : ClientKept) (a : Answer) → IsClientStep client kept on.next (on.answer a) next
        → is_interim a.status ≡ false → (w : Waiting) × (kept.waiting ≡ w ∷ next.waiting) × (next.closes ≡ is_closed_after w a) }
    ensures both { (server : Setting) (h : Head) (a : AnswerGiven) (r : ClientRequest) → h.minor ≤ 1 → IsSelfFramed server h a → r.head.method ≡ h.method
        → r.connection ≡ h.connection → values_of (codes "upgrade") r.head.headers ≡ [] → is_ambiguous (sent_answer server h a).answer ≡ false
        → is_closed_after (waiting_of r) (sent_answer server h a).answer
        ≡ not (is_kept (type_of server a.answered.drained (needed_of h) a.answered.head a.answered.size)) }
{}

/// Over all that happened: whoever closes since a side asked for it, the other closes after the same exchange, and for the same
/// reason, unless an answer's lines are ambiguous. A client that closes so has handed out as many final answers as the server
/// has handed out requests, and the last of them is the one after which the server closes as it was asked to. Where the server
/// closes so, a client that has handed out as many final answers closes for that reason too, as soon as it has read or dropped
/// the last one's body, unless it found a fault before.
pub fn both_close_after_the_same_exchange()
    ensures client { (client server : Setting) (asked : List Happened) (kept : ClientKept) (served : List Step) → AreConnected client server asked kept served
        → ArePlain client server asked served → AreClear server served → client_closing kept ≡ Some on.asked
        → EndsAsAsked server served × (answered_of asked ≡ length (exchanges served)) }
    ensures server { (client server : Setting) (asked : List Happened) (kept : ClientKept) (served : List Step) → AreConnected client server asked kept served
        → ArePlain client server asked served → AreClear server served → EndsAsAsked server served → answered_of asked ≡ length (exchanges served)
        → is_free kept ≡ true → kept.failed ≡ None → client_closing kept ≡ Some on.asked }
{}
