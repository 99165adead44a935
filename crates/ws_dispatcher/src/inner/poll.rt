//! A poll of a dispatcher.
ghost use Rattle.std.specs.Prelude.{◌≡◌};
ghost use Rattle.futures.specs.Poll.{OnPending};
ghost use Rattle.futures.specs.Task.{IsArmed, Keeps};
ghost use Rattle.ws_dispatcher.specs.View.{view_of};
ghost use Rattle.ws_dispatcher.specs.Steps.{Unwritten};
ghost use Rattle.ws_dispatcher.specs.Polls.{MayBePolled, PollSays};

use super::dispatcher::{Dispatcher, Turn};
use crate::error::DispatcherError;
use futures::future::Future;
use futures::task::{Context, Poll};
use http_framing::{Decoder, Encoder};
use http_services::Service;
use http_transport::Transport;
use ws_frames::ProtocolError;

impl<S, T, U, I> Dispatcher<S, S::Call, T, U, U::Item, I, S::Error>
where
    T: Transport,
    U: Decoder<Error = ProtocolError> + Encoder<I, Error = ProtocolError>,
    S: Service<U::Item, Response = I, Lent = ()>,
    I: Drop,
{
    /// Goes on, by at most 64 turns: writes what is queued, sends what is buffered, and then polls the call in progress,
    /// asks the service for one, or reads.
    ///
    /// It is pending where each of these that is needed is pending, or where its turns are spent: then the task is woken.
    /// After an error it may be polled again.
    pub fn poll(&mut self, cx: &mut Context<'_>) -> Poll<Result<(), DispatcherError<S::Error>>>
        requires open { MayBePolled S.calling self.old }
        ensures says { PollSays U.reads U.given U.nothing U.breaks U.Decoder.lacks U.seen U.Decoder.leaves U.writes (Unwritten U.refuses U.Encoder.lacks U.Encoder.leaves) (view_of T.wiring S.served self.old) (view_of T.wiring S.served self.new) cx.new result }
        ensures open { MayBePolled S.calling self.new }
        ensures registered { OnPending result (IsArmed cx.new) }
        ensures kept { Keeps cx.old cx.new }
    {
        for turn in 0..64_u32 {
            match self.turn(cx) {
                Turn::Counted => {}
                Turn::Idle => return Poll::Pending,
                Turn::Over(result) => return Poll::Ready(result),
            }
        }
        cx.yield_now()
    }
}

impl<S, T, U, I> Future for Dispatcher<S, S::Call, T, U, U::Item, I, S::Error>
where
    T: Transport,
    U: Decoder<Error = ProtocolError> + Encoder<I, Error = ProtocolError> + Drop,
    S: Service<U::Item, Response = I, Lent = ()>,
    I: Drop,
{
    type Output = Result<(), DispatcherError<S::Error>>;

    ghost can_poll = { MayBePolled S.calling };

    fn poll(&mut self, cx: &mut Context<'_>) -> Poll<Self::Output> {
        Dispatcher::poll(self, cx)
    }
}
