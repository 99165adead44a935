// The call in progress, and its answer.
ghost use Rattle.std.specs.Prelude.{◌≡◌, List, None, true, false};
ghost use Rattle.futures.specs.Task.{IsArmed, Keeps};
ghost use Rattle.model_h1.specs.Event as on;
ghost use Rattle.model_h1.specs.Sums as sums;
ghost use Rattle.h1_traced.specs.Traced.{TracedStands};
ghost use Rattle.h1_dispatcher.specs.View.{view_of, stage_of, is_calling, is_replying, MayBePolled, allows, allows_answer};
ghost use Rattle.h1_dispatcher.specs.Polls.{OnIdle, ServeSays, EndSays, StepSays, Handed};

use crate::dispatcher::{Dispatcher, DispatcherTurn, Ending, Work};
use futures::task::{Context, Poll};
use h1_traced::Recorder;
use http_bodies::MessageBody;
use http_services::Service;
use http_services::h1::Payload;
use http_transport::Transport;
use http_types::{DispatchError, Request, Response};
use std::mem;

impl<T, S, L, B> Dispatcher<T, S, S::Call, L, B>
where
    T: Transport,
    S: Service<Request<(), ()>, Response = Response<B>, Error = Response<B>, Lent = Payload>,
    B: MessageBody,
    L: Recorder,
{
    /// Polls the call in progress, and hands its answer on; or else feeds the queue of its body, or reads.
    pub(super) fn answer(&mut self, cx: &mut Context<'_>) -> DispatcherTurn
        requires open { MayBePolled S.calling self.old }
        requires running { self.old.ending ≡ None }
        requires allowed { allows_answer (view_of T.wiring S.served S.calling B.gives L.noted L.is_listening self.old) ≡ true }
        requires calls { is_calling (stage_of S.calling B.gives self.old.work) ≡ true }
        ensures says { ServeSays 3 (view_of T.wiring S.served S.calling B.gives L.noted L.is_listening self.old) (view_of T.wiring S.served S.calling B.gives L.noted L.is_listening self.new) result }
        ensures open { MayBePolled S.calling self.new }
        ensures registered { OnIdle result (IsArmed cx.new) }
        ensures kept { Keeps cx.old cx.new }
    {
        let Work::Calling(call) = &mut self.work else {
            unreachable!()
        };
        match self.service.poll_call(call, &mut self.queue, cx) {
            Poll::Pending => self.feed(cx),
            Poll::Ready(Ok(response)) => {
                self.work = Work::Replying(response);
                self.hand_on()
            }
            Poll::Ready(Err(response)) => {
                self.work = Work::Replying(response);
                self.hand_on()
            }
        }
    }

    /// Drops what is left of the request's body, and hands the answer on.
    pub(super) fn hand_on(&mut self) -> DispatcherTurn
        requires open { MayBePolled S.calling self.old }
        requires running { self.old.ending ≡ None }
        requires allowed { allows_answer (view_of T.wiring S.served S.calling B.gives L.noted L.is_listening self.old) ≡ true }
        requires answered { is_replying (stage_of S.calling B.gives self.old.work) ≡ true }
        ensures says { EndSays 2 (view_of T.wiring S.served S.calling B.gives L.noted L.is_listening self.old) (view_of T.wiring S.served S.calling B.gives L.noted L.is_listening self.new) result }
        ensures handed { (trace : List sums.Step) → TracedStands (view_of T.wiring S.served S.calling B.gives L.noted L.is_listening self.old).traced trace → Handed (view_of T.wiring S.served S.calling B.gives L.noted L.is_listening self.new) result }
        ensures open { MayBePolled S.calling self.new }
    {
        if !self.traced.connection().can_pull() {
            return self.put_reply();
        }
        match self.traced.drop_body() {
            Ok(()) => self.put_reply_if_allowed(),
            Err(_) => {
                self.ending = Some(Ending::Broken);
                DispatcherTurn::Over(Err(DispatchError::NoMemory))
            }
        }
    }

    /// After the drop nothing more may be dropped, and the answer is allowed still, as the next turn would see.
    fn put_reply_if_allowed(&mut self) -> DispatcherTurn
        requires open { MayBePolled S.calling self.old }
        requires running { self.old.ending ≡ None }
        requires answered { is_replying (stage_of S.calling B.gives self.old.work) ≡ true }
        ensures says { StepSays (view_of T.wiring S.served S.calling B.gives L.noted L.is_listening self.old) (view_of T.wiring S.served S.calling B.gives L.noted L.is_listening self.new) result }
        ensures handed { allows (view_of T.wiring S.served S.calling B.gives L.noted L.is_listening self.old) on.drop_body ≡ false → allows_answer (view_of T.wiring S.served S.calling B.gives L.noted L.is_listening self.old) ≡ true → Handed (view_of T.wiring S.served S.calling B.gives L.noted L.is_listening self.new) result }
        ensures open { MayBePolled S.calling self.new }
    {
        if self.traced.connection().can_pull() {
            return DispatcherTurn::Counted;
        }
        if !self.traced.connection().can_answer() {
            return DispatcherTurn::Counted;
        }
        self.put_reply()
    }

    /// Hands the answer on to the connection; its body goes out from then on, unless it has none. Nothing is left of the
    /// request's body that may be dropped, and what waits of it is let go.
    fn put_reply(&mut self) -> DispatcherTurn
        requires open { MayBePolled S.calling self.old }
        requires running { self.old.ending ≡ None }
        requires allowed { allows_answer (view_of T.wiring S.served S.calling B.gives L.noted L.is_listening self.old) ≡ true }
        requires dropped { allows (view_of T.wiring S.served S.calling B.gives L.noted L.is_listening self.old) on.drop_body ≡ false }
        requires answered { is_replying (stage_of S.calling B.gives self.old.work) ≡ true }
        ensures says { EndSays 1 (view_of T.wiring S.served S.calling B.gives L.noted L.is_listening self.old) (view_of T.wiring S.served S.calling B.gives L.noted L.is_listening self.new) result }
        ensures handed { Handed (view_of T.wiring S.served S.calling B.gives L.noted L.is_listening self.new) result }
        ensures open { MayBePolled S.calling self.new }
    {
        let Work::Replying(response) = &self.work else {
            unreachable!()
        };
        let size = response.body().size();
        match self.traced.answer(response.head(), size) {
            Ok(()) => {
                self.queue = Payload::create(self.alloc, true);
                if size.is_eof() {
                    self.work = Work::Free;
                    return DispatcherTurn::Counted;
                }
                let Work::Replying(response) = mem::replace(&mut self.work, Work::Free) else {
                    unreachable!()
                };
                self.work = Work::Sending(response.into_body());
                DispatcherTurn::Counted
            }
            Err(_) => {
                self.ending = Some(Ending::Broken);
                DispatcherTurn::Over(Err(DispatchError::NoMemory))
            }
        }
    }
}
