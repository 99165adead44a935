//! The laws of what is generated.

ghost use Rattle.std.specs.Prelude.{◌≡◌, ℕ, ◌*◌, ◌<◌, ◌≤◌, ◌^◌, false, List, [], length, sum_by, None};
ghost use Rattle.model_h1.specs.Sums.{Step, taken, written};
ghost use Rattle.model_h1.specs.Past.{ParsedStep, head_count, step_bytes};
ghost use Rattle.model_h1.specs.Text.{buffered};
ghost use Rattle.model_h1.specs.Closing.{closing};
ghost use Rattle.model_h1.specs.Allowed.{is_over};
ghost use Rattle.model_h1.specs.Trace.{IsPastOf};
ghost use Rattle.model_h1.specs.Laws.Runs.{IsWhole};
ghost use Rattle.h1_generated.specs.Generated.{setting, generated};

/// A connection takes all that is generated: each event is allowed where it comes.
pub fn generated_is_allowed()
    ensures { (seed count : ℕ) → count < 2 ^ 64 → (trace : List Step) × IsWhole setting (generated seed count) trace }
{}

/// Behind them as many heads were handed out as there are exchanges, nothing waits to be written, and the connection neither
/// closes nor is over.
pub fn generated_is_served()
    ensures heads { (seed count : ℕ) (trace : List Step) → count < 2 ^ 64 → IsWhole setting (generated seed count) trace → head_count trace ≡ count }
    ensures written { (seed count : ℕ) (trace : List Step) → count < 2 ^ 64 → IsWhole setting (generated seed count) trace → buffered setting trace ≡ [] }
    ensures stays { (seed count : ℕ) (trace : List Step) (past : List ParsedStep) → count < 2 ^ 64 → IsWhole setting (generated seed count) trace
        → IsPastOf setting trace past → closing setting past ≡ None }
    ensures goes_on { (seed count : ℕ) (trace : List Step) → count < 2 ^ 64 → IsWhole setting (generated seed count) trace → is_over trace ≡ false }
{}

/// What a run sums up is bounded: bytes taken, bytes of bodies and bytes written, by 2000 for each exchange.
pub fn generated_is_bounded()
    ensures taken { (seed count : ℕ) (trace : List Step) → count < 2 ^ 64 → IsWhole setting (generated seed count) trace → length (taken trace) ≤ 2000 * count }
    ensures body { (seed count : ℕ) (trace : List Step) → count < 2 ^ 64 → IsWhole setting (generated seed count) trace
        → sum_by (λ s. step_bytes s.outcome) trace ≤ 2000 * count }
    ensures written { (seed count : ℕ) (trace : List Step) → count < 2 ^ 64 → IsWhole setting (generated seed count) trace → length (written trace) ≤ 2000 * count }
{}
