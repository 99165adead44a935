//! What a client hands out is the beginning of the answers in its bytes.

ghost use Rattle.std.specs.Prelude.{◌≡◌, ℕ, ◌≤◌, false, List, ◌++◌, length, IsTrue};
ghost use Rattle.model_h1.specs.Setting.{Setting};
ghost use Rattle.model_client.specs.AnswerParse.{Received, AnswerMessage, is_interim, AreAnswersIn};
ghost use Rattle.model_client.specs.ClientEvent as on;
ghost use Rattle.model_client.specs.ClientKept.{ClientKept, client_allows};
ghost use Rattle.model_client.specs.ClientStep.{IsClientStep};
ghost use Rattle.model_client.specs.ClientTrace.{Happened, IsClientTrace, taken};
ghost use Rattle.model_client.specs.ReadOut.{ReadOut, read_out};
ghost use Rattle.model_client.specs.Parsed.{has_ended, AreAnswersTaken, IsPrefixOf, ReadsPrefix, IsNewestHanded};

/// All that was handed out is the beginning of the answers in all bytes that were taken, each to its own request: heads,
/// bodies, trailers, ends, refusals and faults, in order. Nothing is handed out twice, nor after a refusal or a fault.
pub fn handed_out_is_parsed()
    ensures parsed { (setting : Setting) (trace : List Happened) (k : ClientKept) (parse : List AnswerMessage) → IsClientTrace setting trace k
        → AreAnswersTaken setting trace parse → ReadsPrefix setting trace parse }
    ensures ended { (setting : Setting) (trace : List Happened) (k : ClientKept) → IsClientTrace setting trace k → has_ended trace ≡ k.has_ended }
{}

/// What was handed out stays the beginning of the answers when bytes or requests follow, if no refusal stands after them.
pub fn handed_out_stays()
    ensures { (r s : Received) (more : List ℕ) (methods extra : List (List ℕ)) (size : ℕ) (out : ReadOut) (ms ns : List AnswerMessage)
        → s.bytes ≡ r.bytes ++ more → s.hold_size ≡ r.hold_size → r.ended ≡ false → AreAnswersIn is_interim r methods ms
        → AreAnswersIn is_interim s (methods ++ extra) ns → length out.answers ≤ length ms → IsPrefixOf size r.bytes out ms
        → IsPrefixOf size s.bytes out ns }
{}

/// A client that is told that no further answer has come has handed out all answers in its bytes; and where it is told so of a
/// body, all bytes of it that were taken.
pub fn nothing_is_left()
    ensures answers { (setting : Setting) (trace : List Happened) (k next : ClientKept) (parse : List AnswerMessage) → IsClientTrace setting trace k
        → AreAnswersTaken setting trace parse → IsTrue (client_allows setting k on.next) → IsClientStep setting k on.next on.pending next
        → length (read_out trace).answers ≡ length parse }
    ensures body { (setting : Setting) (trace : List Happened) (k next : ClientKept) (parse : List AnswerMessage) → IsClientTrace setting trace k
        → AreAnswersTaken setting trace parse → IsTrue (client_allows setting k on.pull) → IsClientStep setting k on.pull on.pending next
        → IsNewestHanded (taken trace) (read_out trace).answers parse }
{}
