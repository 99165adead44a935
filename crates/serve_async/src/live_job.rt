//! A job, and all that was done to it.
ghost use Rattle.std.specs.Prelude.{◌≡◌};
ghost use Rattle.futures.specs.Poll.{OnPending};
ghost use Rattle.futures.specs.Task.{Covers, Keeps};

use crate::job::Job;
use futures::task::{Context, Poll};
use std::marker::Model;

/// A job. It always holds of it that it `Lives`: it was made for a fresh connection, and nothing was done to it but polls,
/// and that it was asked to end.
#[derive(Drop)]
pub struct LiveJob<J: Job> {
    job: J,
}

impl<J: Job> Model for LiveJob<J> {
    ghost use Rattle.serve_async.specs.JobRuns.{Living, Lives};

    ghost Value = { Living J };

    ghost view = { λ l. record { job = l.job } };

    ghost invariant = { λ l. Lives J.polled J.drained J.begun J.can_poll l.job };
}

impl<J: Job> LiveJob<J> {
    /// A new job.
    #[tactic(auto, using(crate::proofs::Lives::lives_new))]
    pub fn new(job: J) -> LiveJob<J>
        requires begun { J.begun job }
        requires open { J.can_poll job }
        ensures { result.job ≡ job }
    {
        LiveJob { job }
    }

    /// Polls it.
    pub fn poll(&mut self, moment: u64, cx: &mut Context<'_>) -> Poll<J::Output>
        ensures says { J.polled self.old.job moment cx.new result self.new.job }
        ensures registered { OnPending result (Covers cx.new (J.needs self.new.job)) }
        ensures kept { Keeps cx.old cx.new }
    {
        self.job.poll(moment, cx)
    }

    /// When it is to be polled, if it isn't before, in milliseconds after the start of 1970.
    pub fn deadline(&self) -> Option<u64>
        ensures { result ≡ J.due self.now.job }
    {
        self.job.deadline()
    }

    /// Has it end soon.
    pub fn drain(&mut self)
        ensures { J.drained self.old.job self.new.job }
    {
        self.job.drain();
    }
}
