//! The laws of the answers in all bytes that were received.

ghost use Rattle.std.specs.Prelude.{◌≡◌, ℕ, ◌≤◌, Bool, false, List, ◌++◌, length, drop, map};
ghost use Rattle.model_client.specs.AnswerParse.{Received, AnswerMessage, AreAnswersFrom, AreAnswersIn};
ghost use Rattle.model_client.specs.Laws.Growth.{AnswersGrow};
ghost use Rattle.model_client.specs.Laws.Moved.{moved_answer};

/// Answers are read in one way.
pub fn answers_are_unique()
    ensures { (waits : ℕ → Bool) (r : Received) (methods : List (List ℕ)) (a b : List AnswerMessage) → AreAnswersIn waits r methods a
        → AreAnswersIn waits r methods b → a ≡ b }
{}

/// When bytes or requests follow, each answer that was read stays where it was, with what there was of its body.
pub fn answers_stay()
    ensures { (waits : ℕ → Bool) (r s : Received) (more : List ℕ) (methods extra : List (List ℕ)) (ms ns : List AnswerMessage)
        → s.bytes ≡ r.bytes ++ more → s.hold_size ≡ r.hold_size → r.ended ≡ false → AreAnswersIn waits r methods ms
        → AreAnswersIn waits s (methods ++ extra) ns → AnswersGrow r.bytes s.bytes ms ns }
{}

/// All bytes have answers to requests of any methods.
pub fn answers_exist()
    ensures { (waits : ℕ → Bool) (r : Received) (methods : List (List ℕ)) → (ms : List AnswerMessage) × AreAnswersIn waits r methods ms }
{}

/// The answers from a place on are those of the bytes from there on, their places counted from the front.
pub fn answers_are_local()
    ensures read { (waits : ℕ → Bool) (r : Received) (place : ℕ) (methods : List (List ℕ)) (ms : List AnswerMessage) → place ≤ length r.bytes
        → AreAnswersIn waits (record r { bytes = drop place r.bytes }) methods ms → AreAnswersFrom waits r place methods (map (moved_answer place) ms) }
    ensures no_others { (waits : ℕ → Bool) (r : Received) (place : ℕ) (methods : List (List ℕ)) (ms : List AnswerMessage) → place ≤ length r.bytes
        → AreAnswersFrom waits r place methods ms
        → (rest : List AnswerMessage) × AreAnswersIn waits (record r { bytes = drop place r.bytes }) methods rest × (ms ≡ map (moved_answer place) rest) }
{}
