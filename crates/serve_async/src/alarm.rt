//! A timer that is moved only where it has to be.
ghost use Rattle.std.specs.Prelude.{◌≡◌, ◌≤◌, true};
ghost use Rattle.futures.specs.Poll.{OnPending};
ghost use Rattle.futures.specs.Task.{Covers, Keeps};
ghost use Rattle.serve_async.specs.Sources.{alarm_source};

use futures::task::{Context, Poll};
use std::io;
use std::time::{self, Duration, Instant};
use tokio::time::{Handle, Sleep};

/// A timer, and the moment for which it is set.
///
/// It is moved where it is to fire earlier, and where it has fired: so a deadline that is put off at each request costs
/// nothing until it was to come.
#[derive(Drop)]
pub struct Alarm {
    sleep: Sleep,
    at: u64,
}

impl Alarm {
    /// A timer that isn't set.
    pub fn new<R: time::Clock>(rt: &R, timers: &Handle) -> io::Result<Alarm> {
        Ok(Alarm {
            sleep: timers.sleep(rt, Duration::ZERO)?,
            at: u64::MAX,
        })
    }

    /// Waits until a moment, which is so many milliseconds off, or until an earlier one for which it was set before. It is
    /// ready where the time can't be told, and where it is up at once.
    pub fn poll<R: time::Clock>(
        &mut self,
        rt: &R,
        at: u64,
        rest: u64,
        cx: &mut Context<'_>,
    ) -> Poll<()>
        ensures registered { OnPending result (Covers cx.new (λ s. s ≡ alarm_source self.new)) }
        ensures stands { OnPending result (self.new.at ≤ at) }
        ensures source { alarm_source self.new ≡ alarm_source self.old }
        ensures kept { Keeps cx.old cx.new }
    {
        if !self.is_set_by(rt, at, rest) {
            return Poll::Ready(());
        }
        if self.sleep.poll_elapsed(cx).is_pending() {
            return Poll::Pending;
        }
        if !self.set(rt, at, rest) {
            return Poll::Ready(());
        }
        if self.sleep.poll_elapsed(cx).is_pending() {
            return Poll::Pending;
        }
        Poll::Ready(())
    }

    // Sets it, unless it is set for that moment or an earlier one. There is false where the time can't be told.
    fn is_set_by<R: time::Clock>(&mut self, rt: &R, at: u64, rest: u64) -> bool
        ensures stands { result ≡ true → self.new.at ≤ at }
        ensures source { alarm_source self.new ≡ alarm_source self.old }
    {
        if self.at <= at {
            return true;
        }
        self.set(rt, at, rest)
    }

    // Sets it. There is false where the time can't be told.
    fn set<R: time::Clock>(&mut self, rt: &R, at: u64, rest: u64) -> bool
        ensures set { result ≡ true → self.new.at ≡ at }
        ensures source { alarm_source self.new ≡ alarm_source self.old }
    {
        let Ok(now) = Instant::now(rt) else {
            return false;
        };
        let Some(deadline) = now.checked_add(Duration::from_millis(rest)) else {
            return false;
        };
        self.sleep.reset(deadline);
        self.at = at;
        true
    }
}
