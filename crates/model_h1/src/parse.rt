//! The laws of the parse of all bytes taken.

ghost use Rattle.std.specs.Prelude.{◌≡◌, ℕ, ◌≤◌, false, List, ◌∷◌, ◌++◌, length, drop, map, Option, Some, None};
ghost use Rattle.model_h1.specs.Parse.{Input, Message, next_start, AreMessages, IsParse};
ghost use Rattle.model_h1.specs.Laws.Growth.{GrowTo};
ghost use Rattle.model_h1.specs.Laws.Moved.{moved};
ghost use Rattle.model_h1.specs.Laws.Upgrade.{StayUpgraded};

/// The bytes are parsed in one way.
pub fn parse_is_unique()
    ensures { (i : Input) (a b : List Message) → IsParse i a → IsParse i b → a ≡ b }
{}

/// When bytes follow, each message that was parsed stays where it was, with what there was of its body.
pub fn parse_stays()
    ensures { (i j : Input) (more : List ℕ) (ms ns : List Message) → j.bytes ≡ i.bytes ++ more → j.upgraded ≡ i.upgraded
        → j.hold_size ≡ i.hold_size → i.ended ≡ false → IsParse i ms → IsParse j ns → GrowTo i.bytes j.bytes ms ns }
{}

/// Accepting a WebSocket leaves every message as it was but for a raw body, which is the last one's.
pub fn accepting_leaves_the_messages()
    ensures { (i : Input) (limit : ℕ) (ms ns : List Message) → i.upgraded ≡ None → IsParse i ms
        → IsParse (record i { upgraded = Some limit }) ns → StayUpgraded ms ns }
{}

/// The messages behind a body that has ended are those from its end on.
pub fn parse_goes_on()
    ensures { (i : Input) (place next : ℕ) (m : Message) (ms : List Message) → AreMessages i place (m ∷ ms)
        → next_start m.body ≡ Some next → AreMessages i next ms }
{}

/// All bytes have a parse.
pub fn parse_exists()
    ensures { (i : Input) → (ms : List Message) × IsParse i ms }
{}

/// The messages from a place on are those of the bytes from there on, their places counted from the front.
pub fn parse_is_local()
    ensures parsed { (i : Input) (place : ℕ) (ms : List Message) → place ≤ length i.bytes
        → IsParse (record i { bytes = drop place i.bytes }) ms → AreMessages i place (map (moved place) ms) }
    ensures no_others { (i : Input) (place : ℕ) (ms : List Message) → place ≤ length i.bytes → AreMessages i place ms
        → (rest : List Message) × IsParse (record i { bytes = drop place i.bytes }) rest × (ms ≡ map (moved place) rest) }
{}
