//! Worked examples of ticks: which time runs out, and at which millisecond.

ghost use Rattle.std.specs.Prelude.{◌≡◌, ◌∷◌, [], List, codes};
ghost use Rattle.model_h1.specs.Answer.{size_of};
ghost use Rattle.model_h1.specs.End as ends;
ghost use Rattle.model_h1.specs.Event as on;
ghost use Rattle.model_h1.specs.Setting.{by_system};
ghost use Rattle.model_h1.specs.Past.{ParsedStep};
ghost use Rattle.model_h1.specs.OutcomeTable.{outcome_of};
ghost use Rattle.model_h1.specs.Laws.ExampleTraces.{usual, Happens, parsed, get_text, get_head, get, ok, ok_and_close};

/// A head that isn't whole is waited for as long as the setting says, from the first tick on. A time of 0 never runs out.
pub fn slow_request()
    ensures { let ticked : List ParsedStep = parsed (on.tick 100) on.done [] ∷ [] in
        Happens usual ticked
        × (outcome_of usual ticked (on.tick 5099) ≡ on.done)
        × (outcome_of usual ticked (on.tick 5100) ≡ on.expired ends.slow_request)
        × Happens (record usual { request_timeout = 0 }) ticked
        × (outcome_of (record usual { request_timeout = 0 }) ticked (on.tick 1000000) ≡ on.done) }
{}

/// Behind an answer the next request is waited for, from the last tick before the answer was complete. Where the system
/// decides, the time never runs out.
pub fn kept_too_long()
    ensures { let answered : List ParsedStep = parsed (on.answer ok (size_of 0)) on.done (get ∷ [])
        ∷ parsed (on.tick 3000) on.done (get ∷ [])
        ∷ parsed on.next (on.head get_head) (get ∷ [])
        ∷ parsed (on.read get_text) (on.took 27) (get ∷ [])
        ∷ parsed (on.tick 0) on.done [] ∷ [] in
        Happens usual answered
        × (outcome_of usual answered (on.tick 7999) ≡ on.done)
        × (outcome_of usual answered (on.tick 8000) ≡ on.expired ends.keep_alive_expired)
        × Happens (record usual { keep_alive = by_system }) answered
        × (outcome_of (record usual { keep_alive = by_system }) answered (on.tick 1000000) ≡ on.done) }
{}

/// While a request is open neither time runs out.
pub fn open_request()
    ensures { let asked : List ParsedStep = parsed on.next (on.head get_head) (get ∷ [])
        ∷ parsed (on.read get_text) (on.took 27) (get ∷ [])
        ∷ parsed (on.tick 0) on.done [] ∷ [] in
        Happens usual asked × (outcome_of usual asked (on.tick 1000000) ≡ on.done) }
{}

/// Only the first head can be slow: where the next one has begun behind an answer, no time runs out for it.
pub fn later_head()
    ensures { let begun : List ParsedStep = parsed (on.read (codes "GE")) (on.took 2) (get ∷ [])
        ∷ parsed (on.answer ok (size_of 0)) on.done (get ∷ [])
        ∷ parsed on.next (on.head get_head) (get ∷ [])
        ∷ parsed (on.read get_text) (on.took 27) (get ∷ [])
        ∷ parsed (on.tick 0) on.done [] ∷ [] in
        Happens usual begun × (outcome_of usual begun (on.tick 1000000) ≡ on.done) }
{}

/// A peer that takes no bytes of a connection that closes is waited for from the last tick before it began to close. One that
/// took all bytes isn't abandoned, and a time of 0 never runs out.
pub fn peer_takes_nothing()
    ensures { let closes : List ParsedStep = parsed (on.answer ok_and_close (size_of 0)) on.done (get ∷ [])
        ∷ parsed on.next (on.head get_head) (get ∷ [])
        ∷ parsed (on.read get_text) (on.took 27) (get ∷ [])
        ∷ parsed (on.tick 100) on.done [] ∷ [] in
        let written : List ParsedStep = parsed (on.write 200)
        (on.gave (codes "HTTP/1.1 200 OK\r\ncontent-length: 0\r\nconnection: close\r\ndate: Thu, 01 Jan 1970 00:00:00 GMT\r\n\r\n"))
        (get ∷ []) ∷ closes in
        Happens usual written
        × (outcome_of usual closes (on.tick 1099) ≡ on.done)
        × (outcome_of usual closes (on.tick 1100) ≡ on.abandoned)
        × (outcome_of usual written (on.tick 1100) ≡ on.done)
        × Happens (record usual { disconnect_timeout = 0 }) closes
        × (outcome_of (record usual { disconnect_timeout = 0 }) closes (on.tick 1000000) ≡ on.done) }
{}

/// A connection that began to close before the first tick counts from that one, which so never abandons it.
pub fn closes_before_the_first_tick()
    ensures { let closes : List ParsedStep = parsed (on.answer ok_and_close (size_of 0)) on.done (get ∷ [])
        ∷ parsed on.next (on.head get_head) (get ∷ [])
        ∷ parsed (on.read get_text) (on.took 27) (get ∷ []) ∷ [] in
        let ticked : List ParsedStep = parsed (on.tick 1000000) on.done (get ∷ []) ∷ closes in
        Happens usual ticked
        × (outcome_of usual closes (on.tick 1000000) ≡ on.done)
        × (outcome_of usual ticked (on.tick 1000999) ≡ on.done)
        × (outcome_of usual ticked (on.tick 1001000) ≡ on.abandoned) }
{}
