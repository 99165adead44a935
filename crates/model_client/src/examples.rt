//! Worked examples: what is the beginning of the answers, and what isn't.

ghost use Rattle.std.specs.Prelude.{◌≡◌, ℕ, List, [], ◌∷◌, codes};
ghost use Rattle.model_h1.specs.Runs.{Run};
ghost use Rattle.model_h1.specs.Request.{Fault, fixed_body};
ghost use Rattle.model_h1.specs.Parse.{no_content, content, ended_at, still_open};
ghost use Rattle.model_h1.specs.Handed.{item_bytes, item_end};
ghost use Rattle.model_client.specs.AnswerReading.{AnswerReading, answer_is, refused};
ghost use Rattle.model_client.specs.Examples.{ok};
ghost use Rattle.model_client.specs.ReadOut.{ReadAnswer};
ghost use Rattle.model_client.specs.Parsed.{IsReadOf, IsPrefixFrom};

/// A body of two bytes is handed out in two pieces and with its end.
pub fn a_body_in_pieces()
    ensures { IsReadOf (codes "hi") (record { reading = answer_is (ok (fixed_body 2)); items = item_bytes (codes "h") ∷ item_bytes (codes "i") ∷ item_end ∷ [] })
        (record { reading = answer_is (ok (fixed_body 2)); body_start = 0; body = content (record { start = 0; end = 2 } ∷ []) (ended_at 2 []) }) }
{}

/// Nothing is handed out after a refusal.
pub fn nothing_follows_a_refusal()
    ensures { (size place start : ℕ) (bytes : List ℕ) (fault : Fault) (h next : ReadAnswer)
        → ¬ (IsPrefixFrom size bytes place (h ∷ next ∷ []) (record { reading = refused fault; body_start = start; body = no_content } ∷ [])) }
{}

/// No answer is handed out after one whose body is still open.
pub fn nothing_follows_an_open_body()
    ensures { (size place start : ℕ) (bytes : List ℕ) (reading : AnswerReading) (runs : List Run) (h next : ReadAnswer)
        → ¬ (IsPrefixFrom size bytes place (h ∷ next ∷ []) (record { reading = reading; body_start = start; body = content runs still_open } ∷ [])) }
{}
