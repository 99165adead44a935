// The body of a request.
ghost use Rattle.std.specs.Prelude.{◌≡◌, ◌<◌, ◌+◌, ◌⊎◌, None, true, false};
ghost use Rattle.futures.specs.Task.{IsArmed, Keeps};
ghost use Rattle.http_services.specs.Queue.{waiting};
ghost use Rattle.http_services.specs.Status.{status_of, Asked};
ghost use Rattle.h1_dispatcher.specs.View.{view_of, stage_of, is_awaiting, MayBePolled, HasNoOutput, allows_answer, is_held};
ghost use Rattle.h1_dispatcher.specs.Steps.{Wants, error_of};
ghost use Rattle.h1_dispatcher.specs.Polls.{OnIdle, FeedingSays};

use crate::dispatcher::read::wake;
use crate::dispatcher::{Dispatcher, DispatcherTurn, Ending};
use futures::task::Context;
use h1_connection::{BodyFault, Pulled};
use h1_traced::Recorder;
use http_bodies::MessageBody;
use http_services::h1::Payload;
use http_services::{PayloadStatus, Service};
use http_transport::Transport;
use http_types::{DispatchError, PayloadError, Request, Response};

impl<T, S, L, B> Dispatcher<T, S, S::Call, L, B>
where
    T: Transport,
    S: Service<Request<(), ()>, Response = Response<B>, Error = Response<B>, Lent = Payload>,
    B: MessageBody,
    L: Recorder,
{
    /// Feeds the queue of the open request's body, where it wants more, or else reads.
    pub(super) fn feed(&mut self, cx: &mut Context<'_>) -> DispatcherTurn
        requires open { MayBePolled S.calling self.old }
        requires running { self.old.ending ≡ None }
        requires allowed { allows_answer (view_of T.wiring S.served S.calling B.gives L.noted L.is_listening self.old) ≡ true }
        requires awaits { is_awaiting (stage_of S.calling B.gives self.old.work) ≡ true }
        requires unheld { is_held (view_of T.wiring S.served S.calling B.gives L.noted L.is_listening self.old) ≡ false }
        requires armed { IsArmed cx.old }
        ensures says { FeedingSays (view_of T.wiring S.served S.calling B.gives L.noted L.is_listening self.old) (view_of T.wiring S.served S.calling B.gives L.noted L.is_listening self.new) result }
        ensures open { MayBePolled S.calling self.new }
        ensures registered { OnIdle result (IsArmed cx.new) }
        ensures kept { Keeps cx.old cx.new }
    {
        if !self.traced.connection().can_pull() {
            return self.read_on(cx);
        }
        match self.wish(cx) {
            PayloadStatus::Read => self.pull(cx),
            PayloadStatus::Pause => self.read_on(cx),
            PayloadStatus::Dropped => self.read_on(cx),
        }
    }

    /// Feeds the queue, or else reads, where what waits to be written has to go out before anything else: it was tried, unless
    /// nothing waits that may be written.
    pub(super) fn feed_beside(&mut self, cx: &mut Context<'_>) -> DispatcherTurn
        requires open { MayBePolled S.calling self.old }
        requires running { self.old.ending ≡ None }
        requires allowed { allows_answer (view_of T.wiring S.served S.calling B.gives L.noted L.is_listening self.old) ≡ true }
        requires awaits { is_awaiting (stage_of S.calling B.gives self.old.work) ≡ true }
        requires unheld { is_held (view_of T.wiring S.served S.calling B.gives L.noted L.is_listening self.old) ≡ false }
        requires armed { HasNoOutput (view_of T.wiring S.served S.calling B.gives L.noted L.is_listening self.old) ⊎ IsArmed cx.old }
        ensures says { FeedingSays (view_of T.wiring S.served S.calling B.gives L.noted L.is_listening self.old) (view_of T.wiring S.served S.calling B.gives L.noted L.is_listening self.new) result }
        ensures open { MayBePolled S.calling self.new }
        ensures registered { OnIdle result (IsArmed cx.new) }
        ensures kept { Keeps cx.old cx.new }
    {
        if self.traced.connection().buffered() == 0 {
            return self.feed_woken(cx);
        }
        if !self.traced.connection().can_write() {
            return self.feed_woken(cx);
        }
        self.feed(cx)
    }

    /// Asks for another poll, and feeds the queue, or else reads.
    fn feed_woken(&mut self, cx: &mut Context<'_>) -> DispatcherTurn
        requires open { MayBePolled S.calling self.old }
        requires running { self.old.ending ≡ None }
        requires allowed { allows_answer (view_of T.wiring S.served S.calling B.gives L.noted L.is_listening self.old) ≡ true }
        requires awaits { is_awaiting (stage_of S.calling B.gives self.old.work) ≡ true }
        requires unheld { is_held (view_of T.wiring S.served S.calling B.gives L.noted L.is_listening self.old) ≡ false }
        ensures says { FeedingSays (view_of T.wiring S.served S.calling B.gives L.noted L.is_listening self.old) (view_of T.wiring S.served S.calling B.gives L.noted L.is_listening self.new) result }
        ensures open { MayBePolled S.calling self.new }
        ensures registered { OnIdle result (IsArmed cx.new) }
        ensures kept { Keeps cx.old cx.new }
    {
        let _: DispatcherTurn = wake(cx);
        self.feed(cx)
    }

    /// What the queue wants. If it wants nothing for now, the task is woken once it does.
    fn wish(&mut self, cx: &mut Context<'_>) -> PayloadStatus
        ensures same { self.new ≡ record self.old { queue = self.new.queue } }
        ensures status { result ≡ status_of self.old.queue }
        ensures asked { Asked self.old.queue self.new.queue result }
        ensures low { result ≡ PayloadStatus.Read → waiting self.old.queue.chunks < 32768 + self.old.queue.put_back }
        ensures registered { result ≡ PayloadStatus.Pause → IsArmed cx.new }
        ensures kept { Keeps cx.old cx.new }
    {
        self.queue.sender().need_read(cx)
    }

    /// Asks for more of the body, and feeds the queue with what comes; where nothing does it reads.
    fn pull(&mut self, cx: &mut Context<'_>) -> DispatcherTurn
        requires open { MayBePolled S.calling self.old }
        requires wants { Wants (view_of T.wiring S.served S.calling B.gives L.noted L.is_listening self.old) }
        requires armed { IsArmed cx.old }
        ensures says { FeedingSays (view_of T.wiring S.served S.calling B.gives L.noted L.is_listening self.old) (view_of T.wiring S.served S.calling B.gives L.noted L.is_listening self.new) result }
        ensures open { MayBePolled S.calling self.new }
        ensures registered { OnIdle result (IsArmed cx.new) }
        ensures kept { Keeps cx.old cx.new }
    {
        match self.traced.pull() {
            Ok(Pulled::Pending) => self.read_on(cx),
            Ok(Pulled::Bytes(bytes)) => match self.queue.sender().feed_data(bytes) {
                Ok(()) => DispatcherTurn::Counted,
                Err(_) => {
                    self.ending = Some(Ending::Broken);
                    DispatcherTurn::Over(Err(DispatchError::NoMemory))
                }
            },
            Ok(Pulled::Trailers(trailers)) => {
                self.queue.sender().set_trailers(trailers);
                DispatcherTurn::Counted
            }
            Ok(Pulled::End) => {
                self.queue.sender().feed_eof();
                DispatcherTurn::Counted
            }
            Ok(Pulled::Broken(fault)) => {
                self.queue.sender().set_error(error_of(fault));
                DispatcherTurn::Counted
            }
            Err(_) => {
                self.ending = Some(Ending::Broken);
                DispatcherTurn::Over(Err(DispatchError::NoMemory))
            }
        }
    }
}

/// What is wrong with a body, as its queue tells it.
fn error_of(fault: BodyFault) -> PayloadError
    ensures { result ≡ error_of fault }
{
    match fault {
        BodyFault::Corrupted => PayloadError::EncodingCorrupted,
        BodyFault::Incomplete => PayloadError::Incomplete,
    }
}
