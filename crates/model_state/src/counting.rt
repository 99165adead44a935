//! The laws of the heads that follow one.

ghost use Rattle.std.specs.Prelude.{◌≡◌, ℕ, ◌≤◌, Bool, true, List, ◌++◌, length, map, take, drop};
ghost use Rattle.model_h1.specs.Request.{Reading};
ghost use Rattle.model_h1.specs.Parse.{Input, Message, AreMessages};
ghost use Rattle.model_state.specs.Ahead.{MayFollow, following, StandAhead, AreAhead};

/// It is a number that may be, up to the limit, and none that may be is greater.
pub fn following_is_greatest()
    ensures may { (limit : ℕ) (bodiless : Bool) (behind : List Message) → MayFollow bodiless behind (following limit bodiless behind) }
    ensures within { (limit : ℕ) (bodiless : Bool) (behind : List Message) → following limit bodiless behind ≤ limit }
    ensures greatest { (limit n : ℕ) (bodiless : Bool) (behind : List Message) → n ≤ limit → MayFollow bodiless behind n
        → n ≤ following limit bodiless behind }
{}

/// What is decoded of the bytes behind a head is what the messages behind it are read as, and as many.
pub fn heads_are_messages()
    ensures readings { (i : Input) (limit place : ℕ) (bodiless : Bool) (ms : List Message) (readings : List Reading) → (bodiless ≡ true → AreMessages i place ms)
        → AreAhead i.hold_size limit bodiless (drop place i.bytes) readings → readings ≡ map (λ m. m.reading) (take (following limit bodiless ms) ms) }
    ensures count { (i : Input) (limit place : ℕ) (bodiless : Bool) (ms : List Message) (readings : List Reading) → (bodiless ≡ true → AreMessages i place ms)
        → AreAhead i.hold_size limit bodiless (drop place i.bytes) readings → length readings ≡ following limit bodiless ms }
{}

/// They stand one after another, and stay so whatever bytes follow.
pub fn heads_stay()
    ensures stand { (hold_size limit : ℕ) (bodiless : Bool) (bytes : List ℕ) (readings : List Reading) → AreAhead hold_size limit bodiless bytes readings
        → StandAhead hold_size bytes readings }
    ensures stay { (hold_size : ℕ) (bytes more : List ℕ) (readings : List Reading) → StandAhead hold_size bytes readings
        → StandAhead hold_size (bytes ++ more) readings }
{}
