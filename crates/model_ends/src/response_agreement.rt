//! Answers that a connection sends are read by its client.

ghost use Rattle.std.specs.Prelude.{◌≡◌, ℕ, ◌≤◌, Bool, List, ◌++◌};
ghost use Rattle.model_h1.specs.Request.{Head, raw_body};
ghost use Rattle.model_h1.specs.Answer.{asked_of, type_of};
ghost use Rattle.model_h1.specs.Setting.{Setting};
ghost use Rattle.model_h1.specs.Sums.{Step};
ghost use Rattle.model_h1.specs.Text.{text};
ghost use Rattle.model_h1.specs.Laws.Exchanges.{AnswerGiven};
ghost use Rattle.model_client.specs.AnswerParse.{Received, AnswerMessage, AreAnswersIn};
ghost use Rattle.model_client.specs.RequestText.{RequestGiven};
ghost use Rattle.model_ends.specs.SentRequest.{sent_request};
ghost use Rattle.model_ends.specs.PlainExchange.{IsSelfFramed, IsPlainTrace};
ghost use Rattle.model_ends.specs.SentAnswer.{SentAnswer, IsSent, AreSent, AreHeld, AreTo, sent_answer, sent_text, AreReadAs, AreBegunAs, IsWaiting, methods_asked, answers_sent};

/// An answer that says where it ends is sent so that its head is read back and frames the body that was written, whole or as
/// far as it came.
pub fn plain_answers_are_sent()
    ensures { (setting : Setting) (h : Head) (a : AnswerGiven) → h.minor ≤ 1 → IsSelfFramed setting h a → IsSent (sent_answer setting h a) }
{}

/// What was sent is read as it was sent, answer by answer, and nothing else is: whether the input has ended or not, and with
/// any limit that holds each head.
pub fn what_is_sent_is_read()
    ensures there_are { (waits : ℕ → Bool) (r : Received) (methods : List (List ℕ)) (ss : List SentAnswer) → r.bytes ≡ sent_text ss → AreSent ss
        → AreHeld r.hold_size ss → AreTo waits methods ss → (ms : List AnswerMessage) × AreAnswersIn waits r methods ms × AreReadAs r 0 ms ss }
    ensures no_others { (waits : ℕ → Bool) (r : Received) (methods : List (List ℕ)) (ss : List SentAnswer) (ms : List AnswerMessage) → r.bytes ≡ sent_text ss
        → AreSent ss → AreHeld r.hold_size ss → AreTo waits methods ss → AreAnswersIn waits r methods ms → AreReadAs r 0 ms ss }
{}

/// What becomes of the connection is read as it is done, where the lines frame the body: only an answer that seems to go on to the
/// end of the input is read as one that closes.
pub fn connections_are_agreed()
    ensures answer { (setting : Setting) (h : Head) (a : AnswerGiven) → ¬ ((sent_answer setting h a).answer.body ≡ raw_body)
        → (sent_answer setting h a).answer.connection ≡ type_of setting a.answered.drained (asked_of h) a.answered.head a.answered.size }
    ensures request { (g : RequestGiven) → (sent_request g).says.connection ≡ g.kind }
{}

/// A connection writes its answers one after another and nothing else, each to the first of the requests that wait.
pub fn what_a_connection_sends()
    ensures text { (setting : Setting) (trace : List Step) → IsPlainTrace setting trace → text setting trace ≡ sent_text (answers_sent setting trace) }
    ensures sent { (setting : Setting) (trace : List Step) → IsPlainTrace setting trace → AreSent (answers_sent setting trace) }
    ensures to { (waits : ℕ → Bool) (setting : Setting) (trace : List Step) (further : List (List ℕ)) → IsWaiting waits trace → IsPlainTrace setting trace
        → AreTo waits (methods_asked trace ++ further) (answers_sent setting trace) }
{}

/// Two ends agree: a client that reads all that a connection writes reads its answers, in order, each whole, but for the last
/// one while it is under way. Requests beyond those that the connection took get no answer.
pub fn two_ends()
    ensures there_are { (waits : ℕ → Bool) (setting : Setting) (trace : List Step) (r : Received) (further : List (List ℕ)) → IsWaiting waits trace
        → IsPlainTrace setting trace → r.bytes ≡ text setting trace → AreHeld r.hold_size (answers_sent setting trace)
        → (ms : List AnswerMessage) × AreAnswersIn waits r (methods_asked trace ++ further) ms × AreReadAs r 0 ms (answers_sent setting trace) }
    ensures no_others { (waits : ℕ → Bool) (setting : Setting) (trace : List Step) (r : Received) (further : List (List ℕ)) (ms : List AnswerMessage)
        → IsWaiting waits trace → IsPlainTrace setting trace → r.bytes ≡ text setting trace → AreHeld r.hold_size (answers_sent setting trace)
        → AreAnswersIn waits r (methods_asked trace ++ further) ms → AreReadAs r 0 ms (answers_sent setting trace) }
{}

/// A client that got only the first bytes yet, and asked fewer requests or more, reads the beginning of the answers: each has
/// its head and its place, and its end if all of it came. Any other is never read as whole, even where the input has ended:
/// its body is open, or cut, with a beginning of its bytes.
pub fn two_ends_so_far()
    ensures { (waits : ℕ → Bool) (setting : Setting) (trace : List Step) (r : Received) (more : List ℕ) (asked unasked further : List (List ℕ))
        (ms : List AnswerMessage) → IsWaiting waits trace → IsPlainTrace setting trace → r.bytes ++ more ≡ text setting trace
        → asked ++ unasked ≡ methods_asked trace ++ further → AreHeld r.hold_size (answers_sent setting trace)
        → AreAnswersIn waits r asked ms → AreBegunAs waits r 0 asked ms (answers_sent setting trace) }
{}
