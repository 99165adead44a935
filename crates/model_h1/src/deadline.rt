//! Laws of the deadline: what a connection that sleeps may rely on.

ghost use Rattle.std.specs.Prelude.{◌≡◌, ℕ, List, Option, Some};
ghost use Rattle.model_h1.specs.Setting.{Setting};
ghost use Rattle.model_h1.specs.Event.{Outcome};
ghost use Rattle.model_h1.specs.Event as on;
ghost use Rattle.model_h1.specs.Sums.{Step};
ghost use Rattle.model_h1.specs.Trace.{IsAllowed, IsOutcome};
ghost use Rattle.model_h1.specs.Deadline.{tells_time_out, is_due, IsDeadline};

/// Each trace has one deadline, or it has none.
pub fn deadline_is_decided()
    ensures there { (setting : Setting) (trace : List Step) → (deadline : Option ℕ) × IsDeadline setting trace deadline }
    ensures one { (setting : Setting) (trace : List Step) (a b : Option ℕ) → IsDeadline setting trace a → IsDeadline setting trace b → a ≡ b }
{}

/// A tick that is allowed expires or abandons the connection exactly where there is a deadline and the tick isn't before it.
pub fn deadline_is_told()
    ensures { (setting : Setting) (trace : List Step) (deadline : Option ℕ) (ms : ℕ) (o : Outcome) → IsDeadline setting trace deadline
        → IsAllowed setting trace (on.tick ms) → IsOutcome setting trace (on.tick ms) o → tells_time_out o ≡ is_due deadline ms }
{}

/// A tick at the deadline is allowed, so the deadline isn't before the last tick, and it is before the year 10000. With
/// [`deadline_is_told`], it is the least moment at which a tick that is allowed expires or abandons the connection.
pub fn tick_at_the_deadline_is_allowed()
    ensures { (setting : Setting) (trace : List Step) (ms : ℕ) → IsDeadline setting trace (Some ms) → IsAllowed setting trace (on.tick ms) }
{}
