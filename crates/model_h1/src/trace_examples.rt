//! Worked examples of traces: a whole one, what is held along two, and events that are not allowed.

ghost use Rattle.std.specs.Prelude.{◌≡◌, ◌∷◌, [], List, codes, true, false};
ghost use Rattle.model_h1.specs.Answer.{size_of};
ghost use Rattle.model_h1.specs.Event as on;
ghost use Rattle.model_h1.specs.Past.{ParsedStep, passed, held};
ghost use Rattle.model_h1.specs.Allowed.{is_allowed};
ghost use Rattle.model_h1.specs.Trace.{IsTrace};
ghost use Rattle.model_h1.specs.Laws.ExampleTraces.{usual, Happens, step, parsed, get_text, get_head, get, chunks_text, chunks_head, open_chunks, rest_of_chunks, trailer, whole_chunks, socket_text, socket_head, socket, ok};

/// One request from its bytes to those of its answer, at the first moment. The newest step stands first.
pub fn a_whole_trace()
    ensures { IsTrace usual
        (step (on.write 200) (on.gave (codes "HTTP/1.1 200 OK\r\ncontent-length: 0\r\ndate: Thu, 01 Jan 1970 00:00:00 GMT\r\n\r\n"))
        ∷ step (on.answer ok (size_of 0)) on.done
        ∷ step on.next (on.head get_head)
        ∷ step (on.read (codes "GET / HTTP/1.1\r\nhost: a\r\n\r\n")) (on.took 27)
        ∷ step (on.tick 0) on.done ∷ []) }
{}

/// What is read is held until it is passed: here a head, once it is handed out.
pub fn held_along_a_trace()
    ensures { let ticked : List ParsedStep = parsed (on.tick 0) on.done [] ∷ [] in
        let read : List ParsedStep = parsed (on.read get_text) (on.took 27) (get ∷ []) ∷ ticked in
        let asked : List ParsedStep = parsed on.next (on.head get_head) (get ∷ []) ∷ read in
        let answered : List ParsedStep = parsed (on.answer ok (size_of 0)) on.done (get ∷ []) ∷ asked in
        let written : List ParsedStep = parsed (on.write 200)
        (on.gave (codes "HTTP/1.1 200 OK\r\ncontent-length: 0\r\ndate: Thu, 01 Jan 1970 00:00:00 GMT\r\n\r\n")) (get ∷ []) ∷ answered in
        Happens usual written
        × (held ticked ≡ 0) × (passed ticked ≡ 0)
        × (held read ≡ 27) × (passed read ≡ 0)
        × (held asked ≡ 0) × (passed asked ≡ 27)
        × (held answered ≡ 0) × (passed answered ≡ 27)
        × (held written ≡ 0) × (passed written ≡ 27) }
{}

/// A pull passes the bytes that it gives, and where none can be given yet, all that was taken: here the first byte of a
/// size line. The trailers pass the body's end.
pub fn held_along_chunks()
    ensures { let read : List ParsedStep = parsed (on.read chunks_text) (on.took 54) (open_chunks ∷ []) ∷ [] in
        let asked : List ParsedStep = parsed on.next (on.head chunks_head) (open_chunks ∷ []) ∷ read in
        let pulled : List ParsedStep = parsed on.pull (on.bytes (codes "a")) (open_chunks ∷ []) ∷ asked in
        let waits : List ParsedStep = parsed on.pull on.pending (open_chunks ∷ []) ∷ pulled in
        let rest : List ParsedStep = parsed (on.read rest_of_chunks) (on.took 11) (whole_chunks ∷ []) ∷ waits in
        let trailed : List ParsedStep = parsed on.pull (on.trailers (trailer ∷ [])) (whole_chunks ∷ []) ∷ rest in
        let ended : List ParsedStep = parsed on.pull on.body_ended (whole_chunks ∷ []) ∷ trailed in
        Happens usual ended
        × (held read ≡ 54) × (passed read ≡ 0)
        × (held asked ≡ 7) × (passed asked ≡ 47)
        × (held pulled ≡ 3) × (passed pulled ≡ 51)
        × (held waits ≡ 0) × (passed waits ≡ 54)
        × (held rest ≡ 11) × (passed rest ≡ 54)
        × (held trailed ≡ 0) × (passed trailed ≡ 65)
        × (held ended ≡ 0) × (passed ended ≡ 65) }
{}

/// No answer is allowed before a request is handed out, though one has come, nor behind a complete one.
pub fn answer_without_a_request()
    ensures { let read : List ParsedStep = parsed (on.read get_text) (on.took 27) (get ∷ []) ∷ [] in
        let asked : List ParsedStep = parsed on.next (on.head get_head) (get ∷ []) ∷ read in
        let answered : List ParsedStep = parsed (on.answer ok (size_of 0)) on.done (get ∷ []) ∷ asked in
        Happens usual answered
        × (is_allowed usual read (on.answer ok (size_of 0)) ≡ false)
        × (is_allowed usual asked (on.answer ok (size_of 0)) ≡ true)
        × (is_allowed usual answered (on.answer ok (size_of 0)) ≡ false) }
{}

/// The input ends once: no end and no byte is allowed behind it, also where a request still waits.
pub fn second_end()
    ensures { let ended : List ParsedStep = parsed on.eof on.done (get ∷ []) ∷ parsed (on.read get_text) (on.took 27) (get ∷ []) ∷ [] in
        Happens usual ended
        × (is_allowed usual ended on.next ≡ true)
        × (is_allowed usual ended on.eof ≡ false)
        × (is_allowed usual ended (on.read (codes "a")) ≡ false) }
{}

/// A tick never goes back.
pub fn earlier_tick()
    ensures { let ticked : List ParsedStep = parsed (on.tick 1000) on.done [] ∷ [] in
        Happens usual ticked × (is_allowed usual ticked (on.tick 999) ≡ false) × (is_allowed usual ticked (on.tick 1000) ≡ true) }
{}

/// The answer's head has 75 bytes: a piece of its body is not allowed behind it where 75 bytes are enough to wait, and it is
/// where they aren't.
pub fn chunk_behind_a_full_buffer()
    ensures { let answered : List ParsedStep = parsed (on.answer ok (size_of 3)) on.done (get ∷ [])
        ∷ parsed on.next (on.head get_head) (get ∷ [])
        ∷ parsed (on.read get_text) (on.took 27) (get ∷ []) ∷ [] in
        Happens (record usual { write_buffer = 75 }) answered
        × (is_allowed (record usual { write_buffer = 75 }) answered (on.chunk (codes "abc")) ≡ false)
        × Happens (record usual { write_buffer = 76 }) answered
        × (is_allowed (record usual { write_buffer = 76 }) answered (on.chunk (codes "abc")) ≡ true) }
{}

/// A WebSocket is accepted only where the largest frame, its head of 14 bytes and its payload, can be held.
pub fn limit_without_room()
    ensures { let asked : List ParsedStep = parsed on.next (on.head socket_head) (socket ∷ [])
        ∷ parsed (on.read socket_text) (on.took 131) (socket ∷ []) ∷ [] in
        Happens usual asked × (is_allowed usual asked (on.accept 131059) ≡ false) × (is_allowed usual asked (on.accept 131058) ≡ true) }
{}
