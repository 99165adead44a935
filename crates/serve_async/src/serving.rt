//! A job over a connection, as a future.
ghost use Rattle.std.specs.Prelude.{◌≡◌, ◌≤◌, ◌+◌, ◌⊎◌, true, None, IfSome, IfNone, max};
ghost use Rattle.futures.specs.Poll.{IfReady, OnPending};
ghost use Rattle.futures.specs.Task.{Covers, Keeps};
ghost use Rattle.net_sockets.specs.Moments.{last_moment};
ghost use Rattle.serve_async.specs.Ends.{IsGivenUp, JobEnds, TaskEnds};
ghost use Rattle.serve_async.specs.JobRuns.{Leads};
ghost use Rattle.serve_async.specs.Sources.{alarm_source, StandsBy};

use crate::alarm::Alarm;
use crate::gauge::Gauge;
use crate::job::Job;
use crate::limits::Limits;
use crate::live_job::LiveJob;
use crate::pace::Pace;
use crate::stop::Hearing;
use futures::Future;
use futures::task::{Context, Poll};
use http_transport::Clock;
use net_sockets::SystemClock;
use std::time;
use tokio::sync::OwnedSemaphorePermit;

/// What a task is given beside its job.
#[derive(Drop)]
pub struct Place {
    /// What the job's transport tells.
    pub gauge: Gauge,

    /// The timer of the task.
    pub alarm: Alarm,

    /// What it hears of the server's end.
    pub stop: Hearing,

    /// What makes it one of the connections that there may be at once.
    pub permit: OwnedSemaphorePermit,
}

/// A job over a connection, as a future: a task of an event loop.
///
/// It is polled once something happens on its transport, at its deadline, or where it asked for it. It is given up where
/// bytes move too slowly while it has no deadline, and asked to end once the server is.
#[derive(Drop)]
pub struct Serving<J: Job, R> {
    live: LiveJob<J>,
    place: Place,
    clock: SystemClock<R>,
    rt: R,
    // While the job has no deadline.
    pace: Option<Pace>,
    limits: Limits,
}

impl<J: Job, R: time::Clock + Copy> Serving<J, R> {
    /// A task of a new job.
    pub fn new(rt: R, job: J, place: Place, limits: Limits) -> Serving<J, R>
        requires begun { J.begun job }
        requires open { J.can_poll job }
        ensures { result.live.job ≡ job }
    {
        Serving {
            live: LiveJob::new(job),
            place,
            clock: SystemClock::new(rt),
            rt,
            pace: None,
            limits,
        }
    }
}

impl<J: Job, R: time::Clock> Serving<J, R> {
    // Asks the job to end, where the server was told to.
    fn hear(&mut self, cx: &mut Context<'_>)
        ensures leads { Leads J.polled J.drained self.old.live.job self.new.live.job }
        ensures same { self.new ≡ record self.old { live = self.new.live; place = self.new.place } }
        ensures kept { Keeps cx.old cx.new }
    {
        if let Poll::Ready(()) = self.place.stop.poll(cx) {
            self.live.drain();
        }
    }

    // Polls the job, and once more where a write was put off.
    fn poll_job(&mut self, moment: u64, cx: &mut Context<'_>) -> Poll<()>
        ensures registered { OnPending result (Covers cx.new (J.needs self.new.live.job)) }
        ensures ended { IfReady result (λ _. JobEnds J.polled J.drained self.old.live.job moment self.new.live.job) }
        ensures same { self.new ≡ record self.old { live = self.new.live } }
        ensures kept { Keeps cx.old cx.new }
    {
        if let Poll::Ready(_) = self.live.poll(moment, cx) {
            return Poll::Ready(());
        }
        if !self.place.gauge.take_put_off() {
            return Poll::Pending;
        }
        if let Poll::Ready(_) = self.live.poll(moment, cx) {
            return Poll::Ready(());
        }
        if self.place.gauge.take_put_off() {
            return cx.yield_now();
        }
        Poll::Pending
    }

    // When the job is to be polled at the latest, after this moment; none where it is to be given up.
    fn next(&mut self, moment: u64) -> Option<u64>
        ensures due { IfSome result (λ at. IfSome (J.due self.old.live.job) (λ due. at ≤ max due (moment + 1))) }
        ensures given_up { IfNone result (IsGivenUp (J.due self.old.live.job) self.old.limits self.old.pace moment) }
        ensures same { self.new ≡ record self.old { pace = self.new.pace } }
    {
        let later = moment.saturating_add(1);
        match self.live.deadline() {
            Some(due) => {
                self.pace = None;
                Some(due.max(later))
            }
            None => match self.look(moment) {
                Some(at) => Some(at.max(later)),
                None => None,
            },
        }
    }

    // When it is to be looked again at how fast bytes move; none where they move too slowly.
    fn look(&mut self, moment: u64) -> Option<u64>
        ensures given_up { IfNone result (IsGivenUp None self.old.limits self.old.pace moment) }
        ensures same { self.new ≡ record self.old { pace = self.new.pace } }
    {
        let moved = self.place.gauge.moved();
        let mut pace = match self.pace {
            Some(pace) => pace,
            None => Pace::new(moment, moved),
        };
        if pace.note(moment, moved, &self.limits) {
            return None;
        }
        self.pace = Some(pace);
        Some(pace.next(&self.limits))
    }

    // Waits until the job is to be polled. It is ready where the job is to be given up.
    #[tactic(auto, using(crate::proofs::Waiting::stands_by))]
    fn wait(&mut self, moment: u64, cx: &mut Context<'_>) -> Poll<()>
        ensures registered { OnPending result (Covers cx.new (λ s. s ≡ alarm_source self.new.place.alarm)) }
        ensures stands { OnPending result ((cx.new.is_woken ≡ true) ⊎ StandsBy (J.due self.new.live.job) moment self.new.place.alarm) }
        ensures given_up { IfReady result (λ _. IsGivenUp (J.due self.new.live.job) self.old.limits self.old.pace moment) }
        ensures same { self.new ≡ record self.old { place = self.new.place; pace = self.new.pace } }
        ensures kept { Keeps cx.old cx.new }
    {
        let Some(at) = self.next(moment) else {
            return Poll::Ready(());
        };
        let rest = at.saturating_sub(moment);
        match self.place.alarm.poll(&self.rt, at, rest, cx) {
            Poll::Pending => Poll::Pending,
            Poll::Ready(()) => cx.yield_now(),
        }
    }
}

impl<J: Job, R: time::Clock + Drop> Future for Serving<J, R> {
    type Output = ();

    ghost needs = { λ s source. J.needs s.live.job source ⊎ (source ≡ alarm_source s.place.alarm) };

    fn poll(&mut self, cx: &mut Context<'_>) -> Poll<()>
        ensures registered { OnPending result (Covers cx.new (λ s. J.needs self.new.live.job s ⊎ (s ≡ alarm_source self.new.place.alarm))) }
        ensures stands { OnPending result ((cx.new.is_woken ≡ true) ⊎ StandsBy (J.due self.new.live.job) (last_moment self.new.clock) self.new.place.alarm) }
        ensures ended { IfReady result (λ _. TaskEnds J.polled J.drained J.due self.old.limits self.old.pace self.old.live.job (last_moment self.new.clock) self.new.live.job) }
        ensures kept { Keeps cx.old cx.new }
    {
        self.hear(cx);
        let moment = self.clock.now_ms();
        if let Poll::Ready(()) = self.poll_job(moment, cx) {
            return Poll::Ready(());
        }
        self.wait(moment, cx)
    }
}
