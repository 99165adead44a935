//! The laws that tie the machine to the tables over whole traces.

ghost use Rattle.std.specs.Prelude.{◌≡◌, ℕ, ◌≤◌, List, [], ◌∷◌, length, IsTrue, IsFalse, Some, ◌↔◌};
ghost use Rattle.model_h1.specs.ChunkedText.{MAX_TRAILER_BYTES};
ghost use Rattle.model_h1.specs.Place.{Place};
ghost use Rattle.model_h1.specs.Setting.{Setting};
ghost use Rattle.model_h1.specs.Event.{Event, Outcome};
ghost use Rattle.model_h1.specs.Sums.{Step};
ghost use Rattle.model_h1.specs.Past.{ParsedStep};
ghost use Rattle.model_h1.specs.Closing.{closing};
ghost use Rattle.model_h1.specs.Allowed.{is_allowed};
ghost use Rattle.model_h1.specs.Trace.{IsPastOf, IsAllowed, IsMisplaced, IsOutcome, IsTrace};
ghost use Rattle.model_state.specs.Kept.{chunks_rest, Exchange, Kept, fresh};
ghost use Rattle.model_state.specs.Local.{closing_by, allowed_by};
ghost use Rattle.model_state.specs.Change.{IsStep};
ghost use Rattle.model_state.specs.KeptOf.{kept_of};
ghost use Rattle.model_state.specs.StandsFor.{StandsFor};

/// A connection to which nothing has happened stands for the empty trace.
pub fn fresh_stands()
    ensures { (setting : Setting) → StandsFor setting fresh [] }
{}

/// What a connection keeps tells why it closes.
pub fn closing_stands()
    ensures of_a_past { (setting : Setting) (past : List ParsedStep) (trace : List Step) → IsTrace setting trace → IsPastOf setting trace past
        → closing_by setting (kept_of setting past) ≡ closing setting past }
    ensures of_a_trace { (setting : Setting) (k : Kept) (trace : List Step) (past : List ParsedStep) → StandsFor setting k trace
        → IsPastOf setting trace past → closing_by setting k ≡ closing setting past }
{}

/// What a connection keeps tells what is allowed.
pub fn allowed_stands()
    ensures of_a_past { (setting : Setting) (past : List ParsedStep) (trace : List Step) (event : Event) → IsTrace setting trace
        → IsPastOf setting trace past → allowed_by setting (kept_of setting past) event ≡ is_allowed setting past event }
    ensures allowed { (setting : Setting) (k : Kept) (trace : List Step) (event : Event) → StandsFor setting k trace
        → IsTrue (allowed_by setting k event) ↔ IsAllowed setting trace event }
    ensures misplaced { (setting : Setting) (k : Kept) (trace : List Step) (event : Event) → StandsFor setting k trace
        → IsFalse (allowed_by setting k event) ↔ IsMisplaced setting trace event }
{}

/// What is kept is bounded, but for what is to be written: no more bytes than may be held, and no more of a trailer
/// section than may come.
pub fn kept_is_bounded()
    ensures unread { (setting : Setting) (k : Kept) (trace : List Step) → StandsFor setting k trace → length k.unread ≤ setting.hold_size }
    ensures section { (setting : Setting) (k : Kept) (trace : List Step) (x : Exchange) (place : Place) (section : List ℕ)
        → StandsFor setting k trace → k.exchange ≡ Some x → x.rest ≡ chunks_rest place section → length section ≤ MAX_TRAILER_BYTES }
{}

/// An event has one outcome and one state behind it.
pub fn one_step()
    ensures outcome { (setting : Setting) (k : Kept) (event : Event) (a b : Outcome) (m n : Kept) → IsStep setting k event a m
        → IsStep setting k event b n → a ≡ b }
    ensures state { (setting : Setting) (k : Kept) (event : Event) (a b : Outcome) (m n : Kept) → IsStep setting k event a m
        → IsStep setting k event b n → m ≡ n }
{}

/// An allowed event with the table's outcome is a step of what the past gives.
pub fn table_steps()
    ensures { (setting : Setting) (s : Step) (before : List Step) (p q : List ParsedStep) → IsTrace setting (s ∷ before) → IsPastOf setting before p
        → IsPastOf setting (s ∷ before) q → IsStep setting (kept_of setting p) s.event s.outcome (kept_of setting q) }
{}

/// A step of a state that stands for a trace has the table's outcome, and the state behind it stands for the longer
/// trace.
pub fn step_stands()
    ensures outcome { (setting : Setting) (k next : Kept) (trace : List Step) (event : Event) (o : Outcome) → StandsFor setting k trace
        → IsTrue (allowed_by setting k event) → IsStep setting k event o next → IsOutcome setting trace event o }
    ensures state { (setting : Setting) (k next : Kept) (trace : List Step) (event : Event) (o : Outcome) → StandsFor setting k trace
        → IsTrue (allowed_by setting k event) → IsStep setting k event o next
        → StandsFor setting next (record { event = event; outcome = o } ∷ trace) }
{}

/// Each allowed event has a step.
pub fn a_step_is_there()
    ensures { (setting : Setting) (k : Kept) (trace : List Step) (event : Event) → StandsFor setting k trace → IsTrue (allowed_by setting k event)
        → (outcome : Outcome) × (next : Kept) × IsStep setting k event outcome next }
{}
