//! Where bytes go.
ghost use Rattle.std.specs.Prelude.{◌≡◌, ◌<◌, Option, None, List, ℕ, length, IfOk};
ghost use Rattle.std.specs.Io.{WritesAtMost};
ghost use Rattle.std.specs.Io.KnownBytes.{WriteAppends};
ghost use Rattle.http_config.specs.Causes.{HasCause, faults_after, IsAsked};

use crate::Failed;

/// A sink of bytes: a file, a stream, or memory.
pub trait Sink {
    /// The bytes that the sink was given so far, where it tells them.
    ghost given: { Self → Option (List ℕ) };

    /// How many faults the sink has passed on: the writes that it answered by `Failed`.
    ghost faults: { Self → ℕ };

    /// How often the sink was asked, where it tells that.
    ghost calls: { Self → Option ℕ } = { λ _. None };

    /// Takes bytes from the front of `bytes`, and answers how many. Of a piece that isn't empty it
    /// takes at least one: a sink that takes nothing has failed. After `Failed` it has taken nothing. `Failed`
    /// counts one fault, and a write that didn't fail counts none.
    fn write(&mut self, bytes: &[u8]) -> Result<usize, Failed>
        ensures bound { WritesAtMost result bytes.now }
        ensures progress { IfOk result (λ count. 0 < length bytes.now → 0 < count) }
        ensures bytes { WriteAppends (given self.old) (given self.new) result bytes.now }
        ensures cause { HasCause (faults self.old) (faults self.new) result }
        ensures fault { faults self.new ≡ faults_after (faults self.old) result }
        ensures asked { IsAsked (calls self.old) (calls self.new) };
}
