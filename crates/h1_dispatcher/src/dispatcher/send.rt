// The body of an answer.
ghost use Rattle.std.specs.Prelude.{◌≡◌, ◌⊎◌, None, Some, true, OnOk, OnErr};
ghost use Rattle.futures.specs.Task.{IsArmed, Keeps};
ghost use Rattle.h1_dispatcher.specs.View.{view_of, stage_of, is_sending, MayBePolled, HasNoOutput, allows_chunk};
ghost use Rattle.futures.specs.declared.task.Poll.TheVariants.{Ready};
ghost use Rattle.h1_dispatcher.specs.Steps.{Sent, Lacked};
ghost use Rattle.h1_dispatcher.specs.Polls.{OnIdle, ServeSays};

use crate::dispatcher::{Dispatcher, DispatcherTurn, Ending, Work};
use bytes::Bytes;
use futures::task::{Context, Poll};
use h1_connection::NoMemory;
use h1_traced::Recorder;
use http_bodies::{BodyFault, MessageBody};
use http_services::Service;
use http_services::h1::Payload;
use http_transport::Transport;
use http_types::{DispatchError, Request, Response};
use std::alloc::AllocError;
use std::mem;

impl<T, S, L, B> Dispatcher<T, S, S::Call, L, B>
where
    T: Transport,
    S: Service<Request<(), ()>, Response = Response<B>, Error = Response<B>, Lent = Payload>,
    B: MessageBody,
    L: Recorder,
{
    /// Goes on with the body that goes out, where there is room for a piece of it, or else with the input.
    pub(super) fn send(&mut self, cx: &mut Context<'_>) -> DispatcherTurn
        requires open { MayBePolled S.calling self.old }
        requires running { self.old.ending ≡ None }
        requires sends { is_sending (stage_of S.calling B.gives self.old.work) ≡ true }
        requires armed { HasNoOutput (view_of T.wiring S.served S.calling B.gives L.noted L.is_listening self.old) ⊎ IsArmed cx.old }
        ensures says { ServeSays 4 (view_of T.wiring S.served S.calling B.gives L.noted L.is_listening self.old) (view_of T.wiring S.served S.calling B.gives L.noted L.is_listening self.new) result }
        ensures open { MayBePolled S.calling self.new }
        ensures registered { OnIdle result (IsArmed cx.new) }
        ensures kept { Keeps cx.old cx.new }
    {
        if self.traced.connection().can_chunk() {
            return self.poll_body(cx);
        }
        self.read_beside(cx)
    }

    /// Polls the body, and hands on what comes.
    fn poll_body(&mut self, cx: &mut Context<'_>) -> DispatcherTurn
        requires open { MayBePolled S.calling self.old }
        requires running { self.old.ending ≡ None }
        requires sends { is_sending (stage_of S.calling B.gives self.old.work) ≡ true }
        requires allowed { allows_chunk (view_of T.wiring S.served S.calling B.gives L.noted L.is_listening self.old) ≡ true }
        ensures says { ServeSays 4 (view_of T.wiring S.served S.calling B.gives L.noted L.is_listening self.old) (view_of T.wiring S.served S.calling B.gives L.noted L.is_listening self.new) result }
        ensures open { MayBePolled S.calling self.new }
        ensures registered { OnIdle result (IsArmed cx.new) }
        ensures kept { Keeps cx.old cx.new }
    {
        let Work::Sending(mut body) = mem::replace(&mut self.work, Work::Free) else {
            unreachable!()
        };
        match body.poll_next(self.alloc, cx) {
            Poll::Pending => {
                self.work = Work::Sending(body);
                self.read_on(cx)
            }
            Poll::Ready(None) => match self.traced.end_answer() {
                Ok(()) => DispatcherTurn::Counted,
                Err(_) => {
                    self.work = Work::Sending(body);
                    self.ending = Some(Ending::Broken);
                    DispatcherTurn::Over(Err(DispatchError::NoMemory))
                }
            },
            Poll::Ready(Some(piece)) => {
                self.work = Work::Sending(body);
                match self.put_piece(piece) {
                    Ok(()) => DispatcherTurn::Counted,
                    Err(_) => {
                        self.ending = Some(Ending::Broken);
                        DispatcherTurn::Over(Err(DispatchError::NoMemory))
                    }
                }
            }
        }
    }

    /// Hands on what came of the body: a chunk, or that it failed, and then the connection closes.
    fn put_piece(&mut self, piece: Result<Bytes, BodyFault>) -> Result<(), NoMemory>
        requires allowed { allows_chunk (view_of T.wiring S.served S.calling B.gives L.noted L.is_listening self.old) ≡ true }
        ensures ok { OnOk result (Sent (view_of T.wiring S.served S.calling B.gives L.noted L.is_listening self.old).traced (view_of T.wiring S.served S.calling B.gives L.noted L.is_listening self.new).traced (Ready (Some piece))) }
        ensures err { OnErr result (Lacked (view_of T.wiring S.served S.calling B.gives L.noted L.is_listening self.old).traced (view_of T.wiring S.served S.calling B.gives L.noted L.is_listening self.new).traced (Ready (Some piece))) }
        ensures stays { self.new ≡ record self.old { traced = self.new.traced } }
    {
        match piece {
            Ok(bytes) => self.traced.chunk(bytes),
            Err(BodyFault::Body(_)) => self.traced.fail_answer(),
            Err(BodyFault::NoMemory) => Err(AllocError),
        }
    }
}
