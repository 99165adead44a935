// The input is read.
ghost use Rattle.std.specs.Prelude.{◌≡◌, ◌<◌, ◌≤◌, ◌⊎◌, ℕ, List, None, true, length};
ghost use Rattle.futures.specs.Task.{IsArmed, Keeps};
ghost use Rattle.model_h1.specs.Event as on;
ghost use Rattle.h1_dispatcher.specs.View.{view_of, MayBePolled, HasNoOutput, allows, room};
ghost use Rattle.h1_dispatcher.specs.Polls.{OnIdle, ReadingSays};
ghost use Rattle.h1_dispatcher.specs.declared.dispatcher.DispatcherTurn.TheVariants.{Idle};

use crate::dispatcher::{Dispatcher, DispatcherTurn, Ending};
use futures::task::{Context, Poll};
use h1_connection::READ_SIZE;
use h1_traced::Recorder;
use http_bodies::MessageBody;
use http_config::Failed;
use http_services::Service;
use http_services::h1::Payload;
use http_transport::Transport;
use http_types::{DispatchError, Request, Response};

// How much room a read is lent until one fills it: a browser's head mostly has no more bytes.
const FEW_BYTES: usize = 1024;

impl<T, S, L, B> Dispatcher<T, S, S::Call, L, B>
where
    T: Transport,
    S: Service<Request<(), ()>, Response = Response<B>, Error = Response<B>, Lent = Payload>,
    B: MessageBody,
    L: Recorder,
{
    /// Reads, where nothing else was pending.
    pub(super) fn read_alone(&mut self, cx: &mut Context<'_>) -> DispatcherTurn
        requires open { MayBePolled S.calling self.old }
        requires running { self.old.ending ≡ None }
        ensures says { ReadingSays (view_of T.wiring S.served S.calling B.gives L.noted L.is_listening self.old) (view_of T.wiring S.served S.calling B.gives L.noted L.is_listening self.new) result }
        ensures open { MayBePolled S.calling self.new }
        ensures registered { OnIdle result (IsArmed cx.new) }
        ensures kept { Keeps cx.old cx.new }
    {
        let room = self.traced.connection().read_room();
        if room == 0 {
            return wake(cx);
        }
        if !self.traced.connection().can_read() {
            return wake(cx);
        }
        self.read_up_to(room, cx)
    }

    /// Reads, where something else was pending.
    pub(super) fn read_on(&mut self, cx: &mut Context<'_>) -> DispatcherTurn
        requires open { MayBePolled S.calling self.old }
        requires running { self.old.ending ≡ None }
        requires armed { IsArmed cx.old }
        ensures says { ReadingSays (view_of T.wiring S.served S.calling B.gives L.noted L.is_listening self.old) (view_of T.wiring S.served S.calling B.gives L.noted L.is_listening self.new) result }
        ensures open { MayBePolled S.calling self.new }
        ensures registered { OnIdle result (IsArmed cx.new) }
        ensures kept { Keeps cx.old cx.new }
    {
        let room = self.traced.connection().read_room();
        if room == 0 {
            return DispatcherTurn::Idle;
        }
        if !self.traced.connection().can_read() {
            return DispatcherTurn::Idle;
        }
        self.read_up_to(room, cx)
    }

    /// Reads, where what waits to be written has to go out before anything else: it was tried, unless nothing waits that may
    /// be written.
    pub(super) fn read_beside(&mut self, cx: &mut Context<'_>) -> DispatcherTurn
        requires open { MayBePolled S.calling self.old }
        requires running { self.old.ending ≡ None }
        requires armed { HasNoOutput (view_of T.wiring S.served S.calling B.gives L.noted L.is_listening self.old) ⊎ IsArmed cx.old }
        ensures says { ReadingSays (view_of T.wiring S.served S.calling B.gives L.noted L.is_listening self.old) (view_of T.wiring S.served S.calling B.gives L.noted L.is_listening self.new) result }
        ensures open { MayBePolled S.calling self.new }
        ensures registered { OnIdle result (IsArmed cx.new) }
        ensures kept { Keeps cx.old cx.new }
    {
        if self.traced.connection().buffered() == 0 {
            return self.read_alone(cx);
        }
        if !self.traced.connection().can_write() {
            return self.read_alone(cx);
        }
        self.read_on(cx)
    }

    /// Reads at most so many bytes. Room for few of them serves until a read fills it: all the room that is lent is cleared
    /// before, and mostly few bytes come.
    fn read_up_to(&mut self, limit: usize, cx: &mut Context<'_>) -> DispatcherTurn
        requires open { MayBePolled S.calling self.old }
        requires running { self.old.ending ≡ None }
        requires some { 0 < limit }
        requires fits { limit ≤ room (view_of T.wiring S.served S.calling B.gives L.noted L.is_listening self.old) }
        requires read { (bytes : List ℕ) → allows (view_of T.wiring S.served S.calling B.gives L.noted L.is_listening self.old) (on.read bytes) ≡ true }
        requires eof { allows (view_of T.wiring S.served S.calling B.gives L.noted L.is_listening self.old) on.eof ≡ true }
        ensures says { ReadingSays (view_of T.wiring S.served S.calling B.gives L.noted L.is_listening self.old) (view_of T.wiring S.served S.calling B.gives L.noted L.is_listening self.new) result }
        ensures open { MayBePolled S.calling self.new }
        ensures registered { OnIdle result (IsArmed cx.new) }
        ensures kept { Keeps cx.old cx.new }
    {
        if self.has_filled_read {
            return self.read_many(limit, cx);
        }
        let mut buf = [0; FEW_BYTES];
        self.read(&mut buf[..FEW_BYTES.min(limit)], cx)
    }

    /// Reads at most so many bytes, with room for `READ_SIZE`.
    fn read_many(&mut self, limit: usize, cx: &mut Context<'_>) -> DispatcherTurn
        requires open { MayBePolled S.calling self.old }
        requires running { self.old.ending ≡ None }
        requires some { 0 < limit }
        requires fits { limit ≤ room (view_of T.wiring S.served S.calling B.gives L.noted L.is_listening self.old) }
        requires read { (bytes : List ℕ) → allows (view_of T.wiring S.served S.calling B.gives L.noted L.is_listening self.old) (on.read bytes) ≡ true }
        requires eof { allows (view_of T.wiring S.served S.calling B.gives L.noted L.is_listening self.old) on.eof ≡ true }
        ensures says { ReadingSays (view_of T.wiring S.served S.calling B.gives L.noted L.is_listening self.old) (view_of T.wiring S.served S.calling B.gives L.noted L.is_listening self.new) result }
        ensures open { MayBePolled S.calling self.new }
        ensures registered { OnIdle result (IsArmed cx.new) }
        ensures kept { Keeps cx.old cx.new }
    {
        let mut buf = [0; READ_SIZE];
        self.read(&mut buf[..READ_SIZE.min(limit)], cx)
    }

    /// Reads as many bytes as there are, at most what fits.
    fn read(&mut self, buf: &mut [u8], cx: &mut Context<'_>) -> DispatcherTurn
        requires open { MayBePolled S.calling self.old }
        requires running { self.old.ending ≡ None }
        requires some { 0 < length buf.old }
        requires fits { length buf.old ≤ room (view_of T.wiring S.served S.calling B.gives L.noted L.is_listening self.old) }
        requires read { (bytes : List ℕ) → allows (view_of T.wiring S.served S.calling B.gives L.noted L.is_listening self.old) (on.read bytes) ≡ true }
        requires eof { allows (view_of T.wiring S.served S.calling B.gives L.noted L.is_listening self.old) on.eof ≡ true }
        ensures says { ReadingSays (view_of T.wiring S.served S.calling B.gives L.noted L.is_listening self.old) (view_of T.wiring S.served S.calling B.gives L.noted L.is_listening self.new) result }
        ensures open { MayBePolled S.calling self.new }
        ensures registered { OnIdle result (IsArmed cx.new) }
        ensures kept { Keeps cx.old cx.new }
    {
        match self.transport.poll_read(buf, cx) {
            Poll::Pending => DispatcherTurn::Idle,
            Poll::Ready(Err(Failed)) => DispatcherTurn::Over(Err(DispatchError::Io)),
            Poll::Ready(Ok(0)) => match self.traced.eof() {
                Ok(()) => DispatcherTurn::Counted,
                Err(_) => {
                    self.ending = Some(Ending::Broken);
                    DispatcherTurn::Over(Err(DispatchError::NoMemory))
                }
            },
            Poll::Ready(Ok(count)) => {
                self.has_filled_read = count == buf.len();
                match self.traced.read(&buf[..count]) {
                    Ok(_) => DispatcherTurn::Counted,
                    Err(_) => {
                        self.ending = Some(Ending::Broken);
                        DispatcherTurn::Over(Err(DispatchError::NoMemory))
                    }
                }
            }
        }
    }
}

/// Asks for another poll.
pub(super) fn wake(cx: &mut Context<'_>) -> DispatcherTurn
    ensures idle { result ≡ Idle }
    ensures armed { IsArmed cx.new }
    ensures kept { Keeps cx.old cx.new }
{
    let _: Poll<()> = cx.yield_now();
    DispatcherTurn::Idle
}
