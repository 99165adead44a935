//! Worked examples, all values written out.

ghost use Rattle.std.specs.Prelude.{◌≡◌, ◌∷◌, [], List, codes, replicate};
ghost use Rattle.model_h1.specs.Answer.{size_of};
ghost use Rattle.model_h1.specs.Event as on;
ghost use Rattle.model_h1.specs.Request.{head_is, malformed, faulty};
ghost use Rattle.model_h1.specs.Parse.{Message, content, no_content, ended_at};
ghost use Rattle.model_h1.specs.Past.{ParsedStep};
ghost use Rattle.model_h1.specs.Laws.ExampleTraces.{parsed, get_text, get_head, ok};
ghost use Rattle.model_state.specs.Ahead.{ahead};

/// Two requests without a body and a head that is refused, in one read: how many are decoded ahead behind each call for
/// the next head.
pub fn two_requests_and_a_fault()
    ensures { let one : Message = record { reading = head_is get_head; body_start = 27; body = content [] (ended_at 27 []) } in
        let two : Message = record { reading = head_is get_head; body_start = 54; body = content [] (ended_at 54 []) } in
        let bad : Message = record { reading = faulty malformed; body_start = 61; body = no_content } in
        let all : List Message = one ∷ two ∷ bad ∷ [] in
        let read : List ParsedStep = parsed (on.read get_text) (on.took 61) all ∷ [] in
        let first : List ParsedStep = parsed on.next (on.head get_head) all ∷ read in
        let second : List ParsedStep = parsed on.next (on.head get_head) all ∷ parsed (on.answer ok (size_of 0)) on.done all ∷ first in
        let third : List ParsedStep = parsed on.next (on.fault malformed) all ∷ parsed (on.answer ok (size_of 0)) on.done all ∷ second in
        (ahead read ≡ 0) × (ahead first ≡ 2) × (ahead second ≡ 1) × (ahead third ≡ 0) }
{}

/// Twenty requests without a body: 16 are decoded ahead behind the first.
pub fn twenty_requests()
    ensures { let one : Message = record { reading = head_is get_head; body_start = 27; body = content [] (ended_at 27 []) } in
        ahead (parsed on.next (on.head get_head) (replicate 20 one) ∷ []) ≡ 16 }
{}
