//! Worked examples of what is generated, all values written out.

ghost use Rattle.std.specs.Prelude.{◌≡◌, ◌∷◌, [], codes};
ghost use Rattle.model_h1.specs.Answer.{size_of};
ghost use Rattle.model_h1.specs.Event as on;
ghost use Rattle.h1_generated.specs.Generated.{next_state, drawn, kind_of, len_of, head, fine, generated};
ghost use Rattle.h1_generated.specs.Summary.{summary_text};

/// What the seed 0 draws first, and its one exchange.
pub fn first_of_seed_0()
    ensures drawn { drawn (next_state 0) ≡ 167951807 }
    ensures kind { kind_of (drawn (next_state 0)) ≡ head }
    ensures len { len_of (drawn (next_state 0)) ≡ 952 }
    ensures events { generated 0 1
        ≡ on.tick 0 ∷ on.read (codes "HEAD /1 HTTP/1.1\r\n\r\n") ∷ on.next ∷ on.answer fine (size_of 952) ∷ on.body_end ∷ on.write 65536 ∷ [] }
{}

/// The text of a summary.
pub fn a_summary()
    ensures { summary_text (record { events = 6; taken = 20; heads = 1; body = 0; text = 77 }) (codes "open")
        ≡ codes "events 6\ntaken 20\nheads 1\nbody 0\ntext 77\nstate open\n" }
{}
