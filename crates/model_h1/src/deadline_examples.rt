//! Worked examples of the deadline: which time counts, and from which tick.

ghost use Rattle.std.specs.Prelude.{◌≡◌, ◌∷◌, [], List, codes, None, Some};
ghost use Rattle.model_h1.specs.Answer.{size_of};
ghost use Rattle.model_h1.specs.End as ends;
ghost use Rattle.model_h1.specs.Event as on;
ghost use Rattle.model_h1.specs.Past.{ParsedStep};
ghost use Rattle.model_h1.specs.OutcomeTable.{outcome_of};
ghost use Rattle.model_h1.specs.Deadline.{deadline};
ghost use Rattle.model_h1.specs.Laws.ExampleTraces.{usual, Happens, parsed, get_text, get_head, get, chunks_text, chunks_head, open_chunks, rest_of_chunks, whole_chunks, ok, ok_and_close};

/// The head is waited for from the first tick on: before it there is no deadline, nor where the timeout is off, nor once
/// the head has come whole.
pub fn waits_for_a_head()
    ensures { let ticked : List ParsedStep = parsed (on.tick 100) on.done [] ∷ [] in
        let read : List ParsedStep = parsed (on.read get_text) (on.took 27) (get ∷ []) ∷ ticked in
        Happens usual read
        × (deadline usual [] ≡ None)
        × (deadline usual ticked ≡ Some 5100)
        × (deadline usual read ≡ None)
        × Happens (record usual { request_timeout = 0 }) ticked
        × (deadline (record usual { request_timeout = 0 }) ticked ≡ None) }
{}

/// In the last second before the year 10000 five seconds never run out.
pub fn waits_past_the_last_moment()
    ensures { let early : List ParsedStep = parsed (on.tick 253402300794999) on.done [] ∷ [] in
        let late : List ParsedStep = parsed (on.tick 253402300795000) on.done [] ∷ [] in
        Happens usual early
        × (deadline usual early ≡ Some 253402300799999)
        × Happens usual late
        × (deadline usual late ≡ None) }
{}

/// While chunks of an answered request are still to come, the next one isn't waited for. Once they have come, its time
/// counts from the answer: here it ran out before, so the deadline is now, and a tick now tells it.
pub fn ran_out_before()
    ensures { let answered : List ParsedStep = parsed (on.tick 9000) on.done (open_chunks ∷ [])
        ∷ parsed (on.answer ok (size_of 0)) on.done (open_chunks ∷ [])
        ∷ parsed on.drop_body on.done (open_chunks ∷ [])
        ∷ parsed on.next (on.head chunks_head) (open_chunks ∷ [])
        ∷ parsed (on.read chunks_text) (on.took 54) (open_chunks ∷ [])
        ∷ parsed (on.tick 0) on.done [] ∷ [] in
        let rest : List ParsedStep = parsed (on.read rest_of_chunks) (on.took 11) (whole_chunks ∷ []) ∷ answered in
        Happens usual rest
        × (deadline usual answered ≡ None)
        × (deadline usual rest ≡ Some 9000)
        × (outcome_of usual rest (on.tick 9000) ≡ on.expired ends.keep_alive_expired) }
{}

/// A peer is waited for from the last tick before the connection began to close, and for as long as bytes are left. A
/// connection that told its end has no deadline.
pub fn waits_for_the_peer()
    ensures { let closes : List ParsedStep = parsed (on.answer ok_and_close (size_of 0)) on.done (get ∷ [])
        ∷ parsed on.next (on.head get_head) (get ∷ [])
        ∷ parsed (on.read get_text) (on.took 27) (get ∷ [])
        ∷ parsed (on.tick 100) on.done [] ∷ [] in
        let written : List ParsedStep = parsed (on.write 200)
        (on.gave (codes "HTTP/1.1 200 OK\r\ncontent-length: 0\r\nconnection: close\r\ndate: Thu, 01 Jan 1970 00:00:00 GMT\r\n\r\n"))
        (get ∷ []) ∷ closes in
        let over : List ParsedStep = parsed on.next (on.closed ends.asked) (get ∷ []) ∷ closes in
        Happens usual written
        × Happens usual over
        × (deadline usual closes ≡ Some 1100)
        × (deadline usual written ≡ None)
        × (deadline usual over ≡ None) }
{}
