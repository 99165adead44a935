//! Laws of traces: one past, one outcome for each event, and a bound on what a connection holds.

ghost use Rattle.std.specs.Prelude.{◌≡◌, ◌≤◌, ◌⊎◌, List, [], ◌∷◌, ◌++◌, length, map, Some, IsTrue};
ghost use Rattle.model_h1.specs.Setting.{Setting};
ghost use Rattle.model_h1.specs.End.{End};
ghost use Rattle.model_h1.specs.Event.{Event, Outcome};
ghost use Rattle.model_h1.specs.Sums.{Step, taken, written};
ghost use Rattle.model_h1.specs.Past.{ParsedStep, passed, held};
ghost use Rattle.model_h1.specs.Text.{text, buffered};
ghost use Rattle.model_h1.specs.Closing.{closing};
ghost use Rattle.model_h1.specs.Allowed.{is_allowed};
ghost use Rattle.model_h1.specs.Trace.{IsPastOf, IsAllowed, IsMisplaced, IsOutcome, IsTrace};

/// Each trace has a past: the bytes taken are parsed behind each of its steps.
pub fn trace_has_a_past()
    ensures { (setting : Setting) (trace : List Step) → (past : List ParsedStep) × IsPastOf setting trace past }
{}

/// A trace has one past: the parse beside each step is fixed.
pub fn past_is_unique()
    ensures { (setting : Setting) (trace : List Step) (p q : List ParsedStep) → IsPastOf setting trace p → IsPastOf setting trace q → p ≡ q }
{}

/// An event has one outcome behind a trace.
pub fn outcome_is_unique()
    ensures { (setting : Setting) (trace : List Step) (event : Event) (a b : Outcome) → IsOutcome setting trace event a
        → IsOutcome setting trace event b → a ≡ b }
{}

/// Behind a trace each event is allowed or misplaced, and never both.
pub fn allowed_or_misplaced()
    ensures one { (setting : Setting) (trace : List Step) (event : Event) → IsAllowed setting trace event ⊎ IsMisplaced setting trace event }
    ensures not_both { (setting : Setting) (trace : List Step) (event : Event) → IsAllowed setting trace event → ¬ (IsMisplaced setting trace event) }
{}

/// Whether an event is allowed behind a trace does not depend on the past that shows it.
pub fn what_is_allowed_is_one()
    ensures { (setting : Setting) (trace : List Step) (event : Event) (past : List ParsedStep) → IsAllowed setting trace event
        → IsPastOf setting trace past → IsTrue (is_allowed setting past event) }
{}

/// The events fix the trace: a connection that is driven by the same events answers the same.
pub fn events_fix_the_trace()
    ensures { (setting : Setting) (a b : List Step) → IsTrace setting a → IsTrace setting b → map (λ s. s.event) a ≡ map (λ s. s.event) b → a ≡ b }
{}

/// No more is passed than was taken, and what is held stays within the hold size.
pub fn held_is_bounded()
    ensures passed { (setting : Setting) (trace : List Step) (past : List ParsedStep) → IsTrace setting trace → IsPastOf setting trace past
        → passed past ≤ length (taken trace) }
    ensures held { (setting : Setting) (trace : List Step) (past : List ParsedStep) → IsTrace setting trace → IsPastOf setting trace past
        → held past ≤ setting.hold_size }
{}

/// A connection that closes keeps its reason, whatever comes.
pub fn closing_keeps_its_reason()
    ensures { (setting : Setting) (s : Step) (before : List Step) (p q : List ParsedStep) (end : End) → IsTrace setting (s ∷ before)
        → IsPastOf setting before p → IsPastOf setting (s ∷ before) q → closing setting p ≡ Some end → closing setting q ≡ Some end }
{}

/// What was handed out for writing, and what is still to be, is the whole text.
pub fn written_and_buffered_are_text()
    ensures { (setting : Setting) (trace : List Step) → IsTrace setting trace → written trace ++ buffered setting trace ≡ text setting trace }
{}
