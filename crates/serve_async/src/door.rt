//! New connections, as tasks.
ghost use Rattle.std.specs.Prelude.{◌≡◌, IfOk};
ghost use Rattle.futures.specs.Poll.{OnPending};
ghost use Rattle.futures.specs.Task.{Covers, Keeps};
ghost use Rattle.tokio.specs.Locks.{CanAcquire};
ghost use Rattle.serve_async.specs.Sources.{DoorNeeds, MayGoOn};

use crate::alarm::Alarm;
use crate::gauge::Gauge;
use crate::job::{Job, Makes};
use crate::limits::Limits;
use crate::serving::{Place, Serving};
use crate::stop::{Hearing, Stop};
use crate::tokio_transport::TokioTransport;
use futures::task::{Context, Poll};
use futures::{Future, Stream};
use std::alloc::AllocGlobal;
use std::io::{self, ErrorKind};
use std::marker::PhantomData;
use std::mem;
use std::net::SocketAddr;
use std::sync::Arc;
use std::time::{self, Duration, Instant};
use tokio::net::{TcpListener, TcpStream};
use tokio::sync::{AcquireOwned, OwnedSemaphorePermit, Semaphore};
use tokio::time::{Handle, Sleep};

/// How long the listener isn't asked after it has failed, in milliseconds.
const PAUSE: u64 = 1000;

/// What a door does next.
#[derive(Drop)]
enum Step {
    /// It asks for a permit.
    Asking,

    /// It waits for one.
    Waiting(AcquireOwned),

    /// It has one, and waits until the listener may be asked again.
    Pausing(OwnedSemaphorePermit),

    /// It has one, and asks the listener for a connection.
    Open(OwnedSemaphorePermit),
}

/// New connections, each as a task that serves it.
///
/// A connection is accepted once there is a permit for it: so no more are served at once than may be, and further ones wait
/// in the listener's queue. Where the listener fails, as it does at each call while no descriptor is left, it isn't asked
/// again for a second. A connection for whose task there is no memory is lost. The stream ends once the server is to.
#[derive(Drop)]
pub struct Door<'a, M, J, R> {
    rt: R,
    listener: TcpListener,
    timers: Handle,
    maker: &'a M,
    jobs: PhantomData<J>,
    limits: Limits,
    stop: &'a Stop,
    hearing: Hearing,
    permits: Arc<Semaphore>,
    step: Step,
    pause: Sleep,
}

impl<'a, M, J, R> Door<'a, M, J, R>
where
    M: Makes<TokioTransport<R>, J>,
    J: Job,
    R: time::Clock + AllocGlobal + Copy + Drop,
{
    /// The connections of this listener, until `stop` is told. The maker makes their jobs, and their timers are from this
    /// handle, which is that of the runtime that polls them.
    pub fn new(
        rt: R,
        listener: TcpListener,
        timers: Handle,
        maker: &'a M,
        limits: Limits,
        stop: &'a Stop,
    ) -> io::Result<Door<'a, M, J, R>>
        ensures { IfOk result (λ door. MayGoOn door.step) }
    {
        let most = limits.connections.min(Semaphore::MAX_PERMITS);
        let permits = Arc::new(rt.alloc(), Semaphore::new(rt.alloc(), most)?)?;
        let hearing = stop.hearing()?;
        let pause = timers.sleep(&rt, Duration::ZERO)?;
        Ok(Door {
            rt,
            listener,
            timers,
            maker,
            jobs: PhantomData,
            limits,
            stop,
            hearing,
            permits,
            step: Step::Asking,
            pause,
        })
    }

    // Asks for a permit.
    fn ask(&mut self, cx: &mut Context<'_>) -> Poll<Option<Serving<J, R>>>
        requires open { MayGoOn self.old.step }
        ensures registered { OnPending result (Covers cx.new (DoorNeeds self.new.step self.new.pause self.new.listener)) }
        ensures open { MayGoOn self.new.step }
        ensures kept { Keeps cx.old cx.new }
    {
        let Ok(permits) = Arc::try_clone(&self.permits) else {
            return cx.yield_now();
        };
        self.wait(Semaphore::acquire_owned(permits), cx)
    }

    // Waits for a permit.
    fn wait(&mut self, mut waits: AcquireOwned, cx: &mut Context<'_>) -> Poll<Option<Serving<J, R>>>
        requires acquires { CanAcquire waits }
        requires open { MayGoOn self.old.step }
        ensures registered { OnPending result (Covers cx.new (DoorNeeds self.new.step self.new.pause self.new.listener)) }
        ensures open { MayGoOn self.new.step }
        ensures kept { Keeps cx.old cx.new }
    {
        match waits.poll(cx) {
            Poll::Pending => {
                self.step = Step::Waiting(waits);
                Poll::Pending
            }
            Poll::Ready(Ok(permit)) => self.accept(permit, cx),
            Poll::Ready(Err(_)) => cx.yield_now(),
        }
    }

    // Waits until the listener may be asked again.
    fn pause(
        &mut self,
        permit: OwnedSemaphorePermit,
        cx: &mut Context<'_>,
    ) -> Poll<Option<Serving<J, R>>>
        requires open { MayGoOn self.old.step }
        ensures registered { OnPending result (Covers cx.new (DoorNeeds self.new.step self.new.pause self.new.listener)) }
        ensures open { MayGoOn self.new.step }
        ensures kept { Keeps cx.old cx.new }
    {
        match self.pause.poll_elapsed(cx) {
            Poll::Pending => {
                self.step = Step::Pausing(permit);
                Poll::Pending
            }
            Poll::Ready(_) => self.accept(permit, cx),
        }
    }

    // Asks the listener for a connection.
    fn accept(
        &mut self,
        permit: OwnedSemaphorePermit,
        cx: &mut Context<'_>,
    ) -> Poll<Option<Serving<J, R>>>
        requires open { MayGoOn self.old.step }
        ensures registered { OnPending result (Covers cx.new (DoorNeeds self.new.step self.new.pause self.new.listener)) }
        ensures open { MayGoOn self.new.step }
        ensures kept { Keeps cx.old cx.new }
    {
        match self.listener.poll_accept(cx) {
            Poll::Pending => {
                self.step = Step::Open(permit);
                Poll::Pending
            }
            Poll::Ready(Ok((stream, peer))) => self.admit(stream, peer, permit, cx),
            Poll::Ready(Err(error)) => {
                let kind = error.kind();
                self.step = self.after(kind, permit);
                cx.yield_now()
            }
        }
    }

    // Hands out a task for a new connection, and asks for another poll where there is no memory for it.
    fn admit(
        &mut self,
        stream: TcpStream,
        peer: SocketAddr,
        permit: OwnedSemaphorePermit,
        cx: &mut Context<'_>,
    ) -> Poll<Option<Serving<J, R>>>
        ensures registered { OnPending result (Covers cx.new (DoorNeeds self.new.step self.new.pause self.new.listener)) }
        ensures same { self.new ≡ self.old }
        ensures kept { Keeps cx.old cx.new }
    {
        match self.enter(stream, peer, permit) {
            Ok(task) => Poll::Ready(Some(task)),
            Err(_) => cx.yield_now(),
        }
    }

    // What comes after an error of the listener: a peer that has gone meanwhile is no reason to pause.
    fn after(&mut self, kind: ErrorKind, permit: OwnedSemaphorePermit) -> Step
        ensures { MayGoOn result }
    {
        match kind {
            ErrorKind::ConnectionAborted | ErrorKind::ConnectionReset | ErrorKind::Interrupted =>
                Step::Open(permit),
            _ => {
                set_pause(&self.rt, &mut self.pause);
                Step::Pausing(permit)
            }
        }
    }

    // A task for a new connection, where there is memory for it.
    fn enter(
        &self,
        stream: TcpStream,
        peer: SocketAddr,
        permit: OwnedSemaphorePermit,
    ) -> io::Result<Serving<J, R>> {
        // A socket that refuses to be set is lost, and its first read says so.
        let _ = stream.set_nodelay(true);
        let gauge = Gauge::new(self.rt.alloc())?;
        let told = gauge.share()?;
        let timers = self.timers.clone()?;
        let place = Place {
            gauge,
            alarm: Alarm::new(&self.rt, &self.timers)?,
            stop: self.stop.hearing()?,
            permit,
        };
        let linger = self.limits.linger;
        let peer = Some(peer);
        let transport = TokioTransport::new(self.rt, stream, peer, timers, told, linger);
        let job = self.maker.job(transport);
        Ok(Serving::new(self.rt, job, place, self.limits))
    }
}

// Has a pause end a while from now. Where the time can't be told, it has ended.
fn set_pause<R: time::Clock>(rt: &R, pause: &mut Sleep) {
    if let Ok(now) = Instant::now(rt)
        && let Some(until) = now.checked_add(Duration::from_millis(PAUSE))
    {
        pause.reset(until);
    }
}

impl<'a, M, J, R> Stream for Door<'a, M, J, R>
where
    M: Makes<TokioTransport<R>, J>,
    J: Job,
    R: time::Clock + AllocGlobal + Copy + Drop,
{
    type Item = Serving<J, R>;

    ghost can_poll = { λ door. MayGoOn door.step };

    ghost needs = { λ door. DoorNeeds door.step door.pause door.listener };

    fn poll_next(&mut self, cx: &mut Context<'_>) -> Poll<Option<Serving<J, R>>> {
        if let Poll::Ready(()) = self.hearing.poll(cx) {
            return Poll::Ready(None);
        }
        match mem::replace(&mut self.step, Step::Asking) {
            Step::Asking => self.ask(cx),
            Step::Waiting(waits) => self.wait(waits, cx),
            Step::Pausing(permit) => self.pause(permit, cx),
            Step::Open(permit) => self.accept(permit, cx),
        }
    }
}
