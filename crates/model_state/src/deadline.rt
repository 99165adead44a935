//! The laws that tie the deadline of what a connection keeps to its ticks, and to the tables.

ghost use Rattle.std.specs.Prelude.{◌≡◌, ℕ, List, IsTrue, Some};
ghost use Rattle.model_h1.specs.Setting.{Setting};
ghost use Rattle.model_h1.specs.Event as on;
ghost use Rattle.model_h1.specs.Sums.{Step};
ghost use Rattle.model_h1.specs.Past.{ParsedStep};
ghost use Rattle.model_h1.specs.Trace.{IsPastOf, IsTrace};
ghost use Rattle.model_h1.specs.Deadline.{tells_time_out, is_due, deadline, IsDeadline};
ghost use Rattle.model_state.specs.Kept.{Kept};
ghost use Rattle.model_state.specs.Local.{closing_by, allowed_by};
ghost use Rattle.model_state.specs.Clock.{ticking};
ghost use Rattle.model_state.specs.Deadline.{deadline_by};
ghost use Rattle.model_state.specs.KeptOf.{kept_of};
ghost use Rattle.model_state.specs.StandsFor.{StandsFor};

/// What a connection keeps tells its deadline.
pub fn deadline_stands()
    ensures of_a_past { (setting : Setting) (past : List ParsedStep) (trace : List Step) → IsTrace setting trace → IsPastOf setting trace past
        → deadline_by setting (kept_of setting past) ≡ deadline setting past }
    ensures of_a_trace { (setting : Setting) (k : Kept) (trace : List Step) → StandsFor setting k trace
        → IsDeadline setting trace (deadline_by setting k) }
{}

/// A tick that is allowed expires or abandons the connection exactly where there is a deadline and the tick isn't before
/// it, whatever is kept.
pub fn deadline_is_told()
    ensures { (setting : Setting) (k : Kept) (ms : ℕ) → IsTrue (allowed_by setting k (on.tick ms))
        → tells_time_out (ticking setting k (closing_by setting k) ms).outcome ≡ is_due (deadline_by setting k) ms }
{}

/// A tick at the deadline is allowed, whatever is kept.
pub fn tick_at_the_deadline_is_allowed()
    ensures { (setting : Setting) (k : Kept) (ms : ℕ) → deadline_by setting k ≡ Some ms → IsTrue (allowed_by setting k (on.tick ms)) }
{}
