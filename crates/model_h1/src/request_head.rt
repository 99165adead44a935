//! The laws of the reading of a whole head.

ghost use Rattle.std.specs.Prelude.{◌≡◌, ℕ, List};
ghost use Rattle.model_h1.specs.Request.{Reading};
ghost use Rattle.model_h1.specs.RequestHead.{IsReading, IsReadingWithin};

/// One piece has one reading.
pub fn reading_is_unique()
    ensures of_a_piece { (piece : List ℕ) (a b : Reading) → IsReading piece a → IsReading piece b → a ≡ b }
    ensures within_a_size { (hold_size : ℕ) (piece : List ℕ) (a b : Reading) → IsReadingWithin hold_size piece a → IsReadingWithin hold_size piece b
        → a ≡ b }
{}

/// Each piece has a reading.
pub fn every_piece_is_read()
    ensures of_a_piece { (piece : List ℕ) → (r : Reading) × IsReading piece r }
    ensures within_a_size { (hold_size : ℕ) (piece : List ℕ) → (r : Reading) × IsReadingWithin hold_size piece r }
{}
