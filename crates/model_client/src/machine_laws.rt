//! The laws of the step.
ghost use Rattle.std.specs.Prelude.{◌≡◌, ◌∷◌, ◌++◌, ◌⊎◌, ◌≤◌, ℕ, List, length, IsTrue, Some, true, false, drop, slice_range};
ghost use Rattle.model_h1.specs.HeadPiece.{IsHeadPiece};
ghost use Rattle.model_h1.specs.Setting.{Setting};
ghost use Rattle.model_client.specs.AnswerParse.{is_interim};
ghost use Rattle.model_client.specs.AnswerReading.{Answer, answer_is, IsAnswerReadingWithin};
ghost use Rattle.model_client.specs.ClientEvent as on;
ghost use Rattle.model_client.specs.ClientEvent.{ClientEvent, ClientEnd, ClientOutcome};
ghost use Rattle.model_client.specs.ClientKept.{Waiting, ClientKept, client_closing, client_allows};
ghost use Rattle.model_client.specs.ClientStep.{new_body, IsClientStep, KnowsComing};
ghost use Rattle.model_client.specs.ClientTrace.{Happened, IsClientTrace, taken_by, taken, written, text_of, requests_of, answered_of};

/// An event has one outcome and one state after it.
pub fn one_step()
    ensures outcome { (setting : Setting) (k : ClientKept) (event : ClientEvent) (a b : ClientOutcome) (m n : ClientKept)
        → IsClientStep setting k event a m → IsClientStep setting k event b n → a ≡ b }
    ensures state { (setting : Setting) (k : ClientKept) (event : ClientEvent) (a b : ClientOutcome) (m n : ClientKept)
        → IsClientStep setting k event a m → IsClientStep setting k event b n → m ≡ n }
{}

/// After each step it is known whether a head is coming.
pub fn coming_is_known()
    ensures { (setting : Setting) (k next : ClientKept) (event : ClientEvent) (o : ClientOutcome) → IsClientStep setting k event o next
        → KnowsComing next }
{}

/// An answer that is handed out is the reading of the piece that stands first in the bytes, and some request waits for it. An
/// interim one leaves all requests waiting, and reads no body; any other is the answer to the request that has waited
/// longest, whose method tells whether it has a body (RFC 7230, section 3.3.3; RFC 7231, section 6.2).
pub fn an_answer_is_read()
    ensures reading { (setting : Setting) (k next : ClientKept) (a : Answer) → IsClientStep setting k on.next (on.answer a) next
        → (start end : ℕ) × IsHeadPiece k.unread start end
        × IsAnswerReadingWithin (Some setting.hold_size) (slice_range k.unread start end) (answer_is a) × (next.unread ≡ drop end k.unread) }
    ensures asked { (setting : Setting) (k next : ClientKept) (a : Answer) → IsClientStep setting k on.next (on.answer a) next
        → (w : Waiting) × (ws : List Waiting) × (k.waiting ≡ w ∷ ws) }
    ensures interim { (setting : Setting) (k next : ClientKept) (a : Answer) → IsClientStep setting k on.next (on.answer a) next
        → is_interim a.status ≡ true → (next.waiting ≡ k.waiting) × (next.reading ≡ k.reading) }
    ensures first_waits_no_more { (setting : Setting) (k next : ClientKept) (a : Answer) → IsClientStep setting k on.next (on.answer a) next
        → is_interim a.status ≡ false
        → (w : Waiting) × (k.waiting ≡ w ∷ next.waiting) × (next.reading ≡ Some (new_body k.has_ended next.unread w.method a)) }
{}

/// A connection that closes goes on closing, for the same reason, and answers nothing but bytes to write and its end.
pub fn closing_stays()
    ensures reason { (setting : Setting) (k next : ClientKept) (event : ClientEvent) (o : ClientOutcome) (end : ClientEnd) → KnowsComing k
        → client_closing k ≡ Some end → IsTrue (client_allows setting k event) → IsClientStep setting k event o next
        → client_closing next ≡ Some end }
    ensures outcome { (setting : Setting) (k next : ClientKept) (event : ClientEvent) (o : ClientOutcome) (end : ClientEnd)
        → client_closing k ≡ Some end → IsTrue (client_allows setting k event) → IsClientStep setting k event o next
        → (o ≡ on.closed end) ⊎ ((o ≡ on.done) ⊎ ((bytes : List ℕ) × (o ≡ on.gave bytes))) }
{}

/// What was written, and then what is to be written, are the texts of the requests that were asked: their heads, the pieces
/// of their bodies and their ends, in the order in which they came.
pub fn requests_are_written()
    ensures { (setting : Setting) (trace : List Happened) (k : ClientKept) → IsClientTrace setting trace k
        → written trace ++ k.buffered ≡ text_of trace }
{}

/// Requests are answered in the order in which they were asked, each once: those that wait are all but so many of the first
/// as final answers were handed out.
pub fn answers_come_in_order()
    ensures waiting { (setting : Setting) (trace : List Happened) (k : ClientKept) → IsClientTrace setting trace k
        → k.waiting ≡ drop (answered_of trace) (requests_of trace) }
    ensures no_more { (setting : Setting) (trace : List Happened) (k : ClientKept) → IsClientTrace setting trace k
        → answered_of trace ≤ length (requests_of trace) }
{}

/// What is left of the bytes that were taken is their end: an event passes some of those in front, and nothing else becomes of
/// them. So each byte is read once, in its order.
pub fn bytes_are_read_in_order()
    ensures one_event { (setting : Setting) (k next : ClientKept) (event : ClientEvent) (o : ClientOutcome)
        → IsClientStep setting k event o next → (passed : List ℕ) × (k.unread ++ taken_by event o ≡ passed ++ next.unread) }
    ensures all { (setting : Setting) (trace : List Happened) (k : ClientKept) → IsClientTrace setting trace k
        → (passed : List ℕ) × (taken trace ≡ passed ++ k.unread) }
{}
