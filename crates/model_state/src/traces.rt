//! The laws of the number over whole traces.

ghost use Rattle.std.specs.Prelude.{◌≡◌, ◌≢◌, ℕ, suc, ◌+◌, ◌≤◌, List, [], ◌∷◌, length, Some};
ghost use Rattle.model_h1.specs.Request.{Head, Fault, Reading, head_is};
ghost use Rattle.model_h1.specs.Parse.{Message};
ghost use Rattle.model_h1.specs.Setting.{Setting};
ghost use Rattle.model_h1.specs.Event.{Event, Outcome};
ghost use Rattle.model_h1.specs.Event as on;
ghost use Rattle.model_h1.specs.Sums.{Step};
ghost use Rattle.model_h1.specs.Past.{ParsedStep, parse_of, head_count, upcoming};
ghost use Rattle.model_h1.specs.Trace.{IsPastOf, IsTrace};
ghost use Rattle.model_state.specs.Kept.{Kept};
ghost use Rattle.model_state.specs.StandsFor.{StandsFor};
ghost use Rattle.model_state.specs.Ahead.{MAX_AHEAD, is_bodiless, AreAhead, ahead, IsAhead};

/// A trace has one such number.
pub fn the_number_is_one()
    ensures { (setting : Setting) (trace : List Step) (m n : ℕ) → IsAhead setting trace m → IsAhead setting trace n → m ≡ n }
{}

/// It is at most 16.
pub fn the_number_is_bounded()
    ensures { (setting : Setting) (trace : List Step) (n : ℕ) → IsAhead setting trace n → n ≤ MAX_AHEAD }
{}

/// What is counted are messages that were parsed and not handed out, so that a call for the next head finds one.
pub fn what_is_counted_is_to_come()
    ensures there { (setting : Setting) (trace : List Step) (past : List ParsedStep) → IsTrace setting trace → IsPastOf setting trace past
        → head_count trace + ahead past ≤ length (parse_of past) }
    ensures next { (setting : Setting) (trace : List Step) (past : List ParsedStep) (n : ℕ) → IsTrace setting trace → IsPastOf setting trace past
        → ahead past ≡ suc n → (m : Message) × (upcoming past ≡ Some m) }
{}

/// How it goes on. Nothing is decoded ahead at first. A call for the next head that finds none decoded leaves as many as
/// are decoded of the bytes behind the head; one that hands out what was decoded leaves one fewer; one that finds nothing,
/// or closes, and every other event leave the number.
pub fn the_number_goes_on()
    ensures empty { (setting : Setting) → IsAhead setting [] 0 }
    ensures decodes { (setting : Setting) (k : Kept) (trace : List Step) (h : Head) (readings : List Reading) → IsAhead setting trace 0
        → StandsFor setting k (record { event = on.next; outcome = on.head h } ∷ trace)
        → AreAhead setting.hold_size MAX_AHEAD (is_bodiless (head_is h)) k.unread readings
        → IsAhead setting (record { event = on.next; outcome = on.head h } ∷ trace) (length readings) }
    ensures hands_out { (setting : Setting) (trace : List Step) (h : Head) (n : ℕ) → IsAhead setting trace (suc n)
        → IsAhead setting (record { event = on.next; outcome = on.head h } ∷ trace) n }
    ensures fails { (setting : Setting) (trace : List Step) (f : Fault) (n : ℕ) → IsAhead setting trace (suc n)
        → IsAhead setting (record { event = on.next; outcome = on.fault f } ∷ trace) n }
    ensures fails_at_once { (setting : Setting) (trace : List Step) (f : Fault) → IsAhead setting trace 0
        → IsAhead setting (record { event = on.next; outcome = on.fault f } ∷ trace) 0 }
    ensures finds_nothing { (setting : Setting) (trace : List Step) (o : Outcome) (n : ℕ) → ((h : Head) → o ≢ on.head h) → ((f : Fault) → o ≢ on.fault f)
        → IsAhead setting trace n → IsAhead setting (record { event = on.next; outcome = o } ∷ trace) n }
    ensures stays { (setting : Setting) (s : Step) (trace : List Step) (n : ℕ) → s.event ≢ on.next → IsAhead setting trace n
        → IsAhead setting (s ∷ trace) n }
{}
