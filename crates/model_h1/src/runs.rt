//! Laws of whole runs: what becomes of a list of events.

ghost use Rattle.std.specs.Prelude.{◌≡◌, ℕ, ◌⊎◌, List};
ghost use Rattle.model_h1.specs.Setting.{Setting};
ghost use Rattle.model_h1.specs.Event.{Event};
ghost use Rattle.model_h1.specs.Sums.{Step};
ghost use Rattle.model_h1.specs.Laws.Runs.{IsWhole, StopsAt};

/// Events that come one after another have a trace: of all of them where each is allowed, and else of those before the
/// first that isn't.
pub fn events_have_a_trace()
    ensures { (setting : Setting) (events : List Event)
        → ((trace : List Step) × IsWhole setting events trace) ⊎ ((index : ℕ) × (trace : List Step) × StopsAt setting events index trace) }
{}

/// They have no other one: which event is the first that isn't allowed, if there is one, and each outcome before it are
/// fixed by the setting and the events.
pub fn events_have_one_trace()
    ensures whole { (setting : Setting) (events : List Event) (a b : List Step) → IsWhole setting events a → IsWhole setting events b → a ≡ b }
    ensures stopped { (setting : Setting) (events : List Event) (i j : ℕ) (a b : List Step) → StopsAt setting events i a
        → StopsAt setting events j b → (i ≡ j) × (a ≡ b) }
    ensures not_both { (setting : Setting) (events : List Event) (i : ℕ) (a b : List Step) → IsWhole setting events a
        → ¬ (StopsAt setting events i b) }
{}
