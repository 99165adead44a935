//! What is polled.
ghost use Rattle.std.specs.Prelude.{◌≡◌, ℕ, Option};
ghost use Rattle.futures.specs.Poll.{OnPending};
ghost use Rattle.futures.specs.Task.{Covers, Keeps};
ghost use Rattle.serve_async.specs.JobRuns.{Polling, Draining};
ghost use Rattle.http_transport.specs.Opening.{IsFresh};

use futures::task::{Context, Poll};
use http_transport::Transport;

/// What is polled until it ends.
pub trait Job: Drop {
    /// Why it ended.
    type Output: Drop;

    /// It is new, over a fresh connection.
    ghost begun: { Self → Type 0 };

    /// It may be polled.
    ghost can_poll: { Self → Type 0 };

    /// A poll at this moment, which left its task so, may answer this, and leaves it so.
    ghost polled: { Polling Self Self.Output };

    /// That it was asked to end leaves it so.
    ghost drained: { Draining Self };

    /// When it is to be polled, if it isn't before.
    ghost due: { Self → Option ℕ };

    /// The sources that it names of those that it waits for. Where it names none, a pending poll has only registered at
    /// some source, or asked for another one.
    ghost needs: { Self → ℕ → Type 0 } = { λ _ _. ⊥ };

    /// Goes on, at this moment, in milliseconds after the start of 1970, which is none before that of the last poll.
    fn poll(&mut self, moment: u64, cx: &mut Context<'_>) -> Poll<Self::Output>
        requires open { can_poll self.old }
        ensures says { polled self.old moment cx.new result self.new }
        ensures open { can_poll self.new }
        ensures registered { OnPending result (Covers cx.new (needs self.new)) }
        ensures kept { Keeps cx.old cx.new };

    /// When it is to be polled, if it isn't before, in milliseconds after the start of 1970.
    fn deadline(&self) -> Option<u64>
        ensures { result ≡ due self.now };

    /// Has it end soon.
    fn drain(&mut self)
        requires open { can_poll self.old }
        ensures says { drained self.old self.new }
        ensures open { can_poll self.new };
}

/// Makes a job of each connection.
pub trait Makes<C: Transport, J: Job>: Drop {
    /// A job of a fresh connection.
    fn job(&self, connection: C) -> J
        requires { IsFresh (C.wiring connection) }
        ensures begun { J.begun result }
        ensures open { J.can_poll result };
}
