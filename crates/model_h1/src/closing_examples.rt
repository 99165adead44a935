//! Worked examples of closing: one for each reason, and for what does not close.

ghost use Rattle.std.specs.Prelude.{◌≡◌, ◌∷◌, [], List, None, Some, codes, false};
ghost use Rattle.model_h1.specs.Answer.{size_of, size_stream};
ghost use Rattle.model_h1.specs.Request as read_as;
ghost use Rattle.model_h1.specs.Frame.{unmasked_frame};
ghost use Rattle.model_h1.specs.End as ends;
ghost use Rattle.model_h1.specs.Event as on;
ghost use Rattle.model_h1.specs.Past.{ParsedStep};
ghost use Rattle.model_h1.specs.Closing.{closing};
ghost use Rattle.model_h1.specs.Allowed.{is_allowed};
ghost use Rattle.model_h1.specs.OutcomeTable.{outcome_of};
ghost use Rattle.model_h1.specs.Laws.ExampleTraces.{usual, Happens, parsed, get_text, get_head, get, close_text, close_head, closing_get, post_text, post_head, open_post, chunks_text, chunks_head, open_chunks, broken_text, broken_chunks, socket_text, socket_head, socket, accepted_socket, broken_socket, refused, ok, ok_and_close};

/// A fault that was told closes, and one that waits to be told doesn't.
pub fn fault_was_told()
    ensures malformed { let read : List ParsedStep = parsed (on.read (codes "GET\r\n\r\n")) (on.took 7) (refused ∷ []) ∷ [] in
        let told : List ParsedStep = parsed on.next (on.fault read_as.malformed) (refused ∷ []) ∷ read in
        Happens usual told × (closing usual read ≡ None) × (closing usual told ≡ Some ends.malformed) }
    ensures too_large { let told : List ParsedStep = parsed on.next (on.fault read_as.too_large) []
        ∷ parsed (on.read (codes "GET / HTTP/1.1\r\n\r\n")) (on.took 17) [] ∷ [] in
        Happens (record usual { hold_size = 17 }) told × (closing (record usual { hold_size = 17 }) told ≡ Some ends.too_large) }
{}

/// A time that ran out closes.
pub fn time_ran_out()
    ensures slow { let expired : List ParsedStep = parsed (on.tick 5000) (on.expired ends.slow_request) [] ∷ parsed (on.tick 0) on.done [] ∷ [] in
        Happens usual expired × (closing usual expired ≡ Some ends.slow_request) }
    ensures kept { let expired : List ParsedStep = parsed (on.tick 5000) (on.expired ends.keep_alive_expired) (get ∷ [])
        ∷ parsed (on.answer ok (size_of 0)) on.done (get ∷ [])
        ∷ parsed on.next (on.head get_head) (get ∷ [])
        ∷ parsed (on.read get_text) (on.took 27) (get ∷ [])
        ∷ parsed (on.tick 0) on.done [] ∷ [] in
        Happens usual expired × (closing usual expired ≡ Some ends.keep_alive_expired) }
{}

/// A frame that breaks a rule closes, once it was told.
pub fn frame_broke_a_rule()
    ensures { let read : List ParsedStep = parsed (on.read (0x81 ∷ 0x00 ∷ [])) (on.took 2) (broken_socket ∷ [])
        ∷ parsed (on.accept 100) on.done (accepted_socket ∷ [])
        ∷ parsed on.next (on.head socket_head) (socket ∷ [])
        ∷ parsed (on.read socket_text) (on.took 131) (socket ∷ []) ∷ [] in
        let told : List ParsedStep = parsed on.pull (on.protocol unmasked_frame) (broken_socket ∷ []) ∷ read in
        Happens usual told × (closing usual read ≡ None) × (closing usual told ≡ Some ends.protocol) }
{}

/// An answer whose body failed closes.
pub fn answer_failed()
    ensures { let answered : List ParsedStep = parsed (on.answer ok size_stream) on.done (get ∷ [])
        ∷ parsed on.next (on.head get_head) (get ∷ [])
        ∷ parsed (on.read get_text) (on.took 27) (get ∷ []) ∷ [] in
        let failed : List ParsedStep = parsed on.body_error on.done (get ∷ []) ∷ answered in
        Happens usual failed × (closing usual answered ≡ None) × (closing usual failed ≡ Some ends.body) }
{}

/// An answer that ends with two bytes of three closes, and one with all three doesn't.
pub fn answer_is_short()
    ensures { let answered : List ParsedStep = parsed (on.answer ok (size_of 3)) on.done (get ∷ [])
        ∷ parsed on.next (on.head get_head) (get ∷ [])
        ∷ parsed (on.read get_text) (on.took 27) (get ∷ []) ∷ [] in
        let short : List ParsedStep = parsed on.body_end on.done (get ∷ []) ∷ parsed (on.chunk (codes "ab")) on.done (get ∷ []) ∷ answered in
        let whole : List ParsedStep = parsed on.body_end on.done (get ∷ []) ∷ parsed (on.chunk (codes "abc")) on.done (get ∷ []) ∷ answered in
        Happens usual short × (closing usual short ≡ Some ends.body_short) × Happens usual whole × (closing usual whole ≡ None) }
{}

/// An answer may ask to close. One that doesn't keeps the connection.
pub fn answer_asks()
    ensures { let asked : List ParsedStep = parsed on.next (on.head get_head) (get ∷ [])
        ∷ parsed (on.read get_text) (on.took 27) (get ∷ []) ∷ [] in
        let closes : List ParsedStep = parsed (on.answer ok_and_close (size_of 0)) on.done (get ∷ []) ∷ asked in
        let keeps : List ParsedStep = parsed (on.answer ok (size_of 0)) on.done (get ∷ []) ∷ asked in
        Happens usual closes × (closing usual closes ≡ Some ends.asked) × Happens usual keeps × (closing usual keeps ≡ None) }
{}

/// So may a request: the connection closes once it is answered.
pub fn request_asks()
    ensures { let asked : List ParsedStep = parsed on.next (on.head close_head) (closing_get ∷ [])
        ∷ parsed (on.read close_text) (on.took 37) (closing_get ∷ []) ∷ [] in
        let answered : List ParsedStep = parsed (on.answer ok (size_of 0)) on.done (closing_get ∷ []) ∷ asked in
        Happens usual answered × (closing usual asked ≡ None) × (closing usual answered ≡ Some ends.asked) }
{}

/// Behind an answer to a request whose body is broken the connection closes.
pub fn body_is_broken()
    ensures { let asked : List ParsedStep = parsed on.next (on.head chunks_head) (broken_chunks ∷ [])
        ∷ parsed (on.read broken_text) (on.took 48) (broken_chunks ∷ []) ∷ [] in
        let answered : List ParsedStep = parsed (on.answer ok (size_of 0)) on.done (broken_chunks ∷ []) ∷ asked in
        Happens usual answered × (closing usual asked ≡ None) × (closing usual answered ≡ Some ends.broken_body) }
{}

/// So it does where a body of a stated length has not come whole, though it was dropped.
pub fn body_is_unread()
    ensures { let asked : List ParsedStep = parsed on.next (on.head post_head) (open_post ∷ [])
        ∷ parsed (on.read post_text) (on.took 40) (open_post ∷ []) ∷ [] in
        let dropped : List ParsedStep = parsed on.drop_body on.done (open_post ∷ []) ∷ asked in
        let answered : List ParsedStep = parsed (on.answer ok (size_of 0)) on.done (open_post ∷ []) ∷ dropped in
        Happens usual answered × (closing usual dropped ≡ None) × (closing usual answered ≡ Some ends.unread_body) }
{}

/// A body in chunks that has not come whole is passed over where it was dropped, and closes where it wasn't.
pub fn chunks_were_dropped()
    ensures { let asked : List ParsedStep = parsed on.next (on.head chunks_head) (open_chunks ∷ [])
        ∷ parsed (on.read chunks_text) (on.took 54) (open_chunks ∷ []) ∷ [] in
        let unread : List ParsedStep = parsed (on.answer ok (size_of 0)) on.done (open_chunks ∷ []) ∷ asked in
        let dropped : List ParsedStep = parsed (on.answer ok (size_of 0)) on.done (open_chunks ∷ [])
        ∷ parsed on.drop_body on.done (open_chunks ∷ []) ∷ asked in
        Happens usual unread × (closing usual unread ≡ Some ends.unread_body) × Happens usual dropped × (closing usual dropped ≡ None) }
{}

/// A connection that is to end soon closes at once where no request is open, and else behind the answer, which then asks to
/// close.
pub fn connection_drains()
    ensures at_once { let drained : List ParsedStep = parsed on.drain on.done [] ∷ [] in
        Happens usual drained × (closing usual drained ≡ Some ends.drained) }
    ensures while_open { let drained : List ParsedStep = parsed on.drain on.done (get ∷ [])
        ∷ parsed on.next (on.head get_head) (get ∷ [])
        ∷ parsed (on.read get_text) (on.took 27) (get ∷ []) ∷ [] in
        let answered : List ParsedStep = parsed (on.answer ok (size_of 0)) on.done (get ∷ []) ∷ drained in
        Happens usual answered × (closing usual drained ≡ None) × (closing usual answered ≡ Some ends.asked) }
    ensures behind_an_answer { let drained : List ParsedStep = parsed on.drain on.done (get ∷ [])
        ∷ parsed (on.answer ok (size_of 0)) on.done (get ∷ [])
        ∷ parsed on.next (on.head get_head) (get ∷ [])
        ∷ parsed (on.read get_text) (on.took 27) (get ∷ []) ∷ [] in
        Happens usual drained × (closing usual drained ≡ Some ends.drained) }
{}

/// Where half-closed peers aren't answered, the end of the input closes, though a request waits.
pub fn peer_sends_no_more()
    ensures { let ended : List ParsedStep = parsed on.eof on.done (get ∷ []) ∷ parsed (on.read get_text) (on.took 27) (get ∷ []) ∷ [] in
        Happens (record usual { allows_half_closed = false }) ended
        × (closing (record usual { allows_half_closed = false }) ended ≡ Some ends.half_closed) }
{}

/// Where they are, it closes once no request waits or is open.
pub fn input_has_ended()
    ensures at_once { let ended : List ParsedStep = parsed on.eof on.done [] ∷ [] in
        Happens usual ended × (closing usual ended ≡ Some ends.input_ended) }
    ensures behind_a_request { let ended : List ParsedStep = parsed on.eof on.done (get ∷ [])
        ∷ parsed (on.read get_text) (on.took 27) (get ∷ []) ∷ [] in
        let asked : List ParsedStep = parsed on.next (on.head get_head) (get ∷ []) ∷ ended in
        let answered : List ParsedStep = parsed (on.answer ok (size_of 0)) on.done (get ∷ []) ∷ asked in
        Happens usual answered
        × (closing usual ended ≡ None) × (closing usual asked ≡ None) × (closing usual answered ≡ Some ends.input_ended) }
{}

/// Where the answer asks to close and the body is unread too, the first reason is told.
pub fn first_reason_is_told()
    ensures { let asked : List ParsedStep = parsed on.next (on.head post_head) (open_post ∷ [])
        ∷ parsed (on.read post_text) (on.took 40) (open_post ∷ []) ∷ [] in
        let unread : List ParsedStep = parsed (on.answer ok (size_of 0)) on.done (open_post ∷ []) ∷ asked in
        let both : List ParsedStep = parsed (on.answer ok_and_close (size_of 0)) on.done (open_post ∷ []) ∷ asked in
        Happens usual unread × (closing usual unread ≡ Some ends.unread_body) × Happens usual both × (closing usual both ≡ Some ends.asked) }
{}

/// A connection that closes takes no more bytes. Who asks for the next request is told the reason, and then nothing is allowed.
pub fn reason_is_told()
    ensures { let closes : List ParsedStep = parsed (on.answer ok_and_close (size_of 0)) on.done (get ∷ [])
        ∷ parsed on.next (on.head get_head) (get ∷ [])
        ∷ parsed (on.read get_text) (on.took 27) (get ∷ []) ∷ [] in
        let closed : List ParsedStep = parsed on.next (on.closed ends.asked) (get ∷ []) ∷ closes in
        Happens usual closed
        × (is_allowed usual closes (on.read (codes "a")) ≡ false)
        × (outcome_of usual closes on.next ≡ on.closed ends.asked)
        × (is_allowed usual closed (on.write 200) ≡ false) × (is_allowed usual closed on.next ≡ false) }
{}
