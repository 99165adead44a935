//! The laws of the head on the stream.

ghost use Rattle.std.specs.Prelude.{◌≡◌, ℕ, List, ◌++◌, ◌⊎◌};
ghost use Rattle.model_h1.specs.HeadPiece.{IsHeadPiece, HasNoHeadPiece};

/// One text has one head: where it begins and where it ends are fixed.
pub fn head_piece_is_unique()
    ensures { (bytes : List ℕ) (s e s' e' : ℕ) → IsHeadPiece bytes s e → IsHeadPiece bytes s' e' → (s ≡ s') × (e ≡ e') }
{}

/// A head stays the head whatever bytes follow.
pub fn head_piece_stays()
    ensures { (bytes more : List ℕ) (s e : ℕ) → IsHeadPiece bytes s e → IsHeadPiece (bytes ++ more) s e }
{}

/// Every text has a head or has none.
pub fn head_piece_is_decided()
    ensures { (bytes : List ℕ) → HasNoHeadPiece bytes ⊎ ((s : ℕ) × (e : ℕ) × IsHeadPiece bytes s e) }
{}
