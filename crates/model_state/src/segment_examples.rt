//! Worked examples of segments.

ghost use Rattle.std.specs.Prelude.{◌≡◌, ◌∷◌, [], List, codes};
ghost use Rattle.model_h1.specs.Answer.{size_of, size_stream};
ghost use Rattle.model_h1.specs.Event as on;
ghost use Rattle.model_h1.specs.Sums.{Step};
ghost use Rattle.model_h1.specs.Laws.ExampleTraces.{usual, step, get_text, get_head, ok};
ghost use Rattle.model_state.specs.Marks.{front_of};

/// An answer of 2 bytes: its head alone, and once that was given, its body.
pub fn a_body_is_a_segment()
    ensures { let ended : List Step = step on.body_end on.done ∷ step (on.chunk (codes "hi")) on.done ∷ step (on.answer ok (size_of 2)) on.done
        ∷ step on.next (on.head get_head) ∷ step (on.read get_text) (on.took 27) ∷ step (on.tick 0) on.done ∷ [] in
        let head = codes "HTTP/1.1 200 OK\r\ncontent-length: 2\r\ndate: Thu, 01 Jan 1970 00:00:00 GMT\r\n\r\n" in
        (front_of usual ended ≡ head)
        × (front_of usual (step (on.write 75) (on.gave head) ∷ ended) ≡ codes "hi")
        × (front_of usual (step (on.write 76) (on.gave (codes "x")) ∷ ended) ≡ codes "TTP/1.1 200 OK\r\ncontent-length: 2\r\ndate: Thu, 01 Jan 1970 00:00:00 GMT\r\n\r\n") }
{}

/// An answer in two chunks, whose head was given: the first size line, the first piece, and what stands up to the second.
pub fn chunks_are_segments()
    ensures { let ended : List Step = step (on.chunk (codes "!")) on.done ∷ step (on.chunk (codes "hi")) on.done ∷ step (on.answer ok size_stream) on.done
        ∷ step on.next (on.head get_head) ∷ step (on.read get_text) (on.took 27) ∷ step (on.tick 0) on.done ∷ [] in
        let head = codes "HTTP/1.1 200 OK\r\ntransfer-encoding: chunked\r\ndate: Thu, 01 Jan 1970 00:00:00 GMT\r\n\r\n" in
        let given : List Step = step (on.write 84) (on.gave head) ∷ ended in
        let framed : List Step = step (on.write 3) (on.gave (codes "2\r\n")) ∷ given in
        let sent : List Step = step (on.write 2) (on.gave (codes "hi")) ∷ framed in
        (front_of usual given ≡ codes "2\r\n") × (front_of usual framed ≡ codes "hi") × (front_of usual sent ≡ codes "\r\n1\r\n") }
{}
