//! One turn of a dispatcher.
ghost use Rattle.std.specs.Prelude.{IsTrue, IsFalse};
ghost use Rattle.futures.specs.Task.{IsArmed, Keeps};
ghost use Rattle.ws_dispatcher.specs.View.{view_of, IsSent};
ghost use Rattle.ws_dispatcher.specs.Steps.{IsOpen, Unwritten};
ghost use Rattle.ws_dispatcher.specs.Polls.{MayBePolled, IsEnding, OnIdle, EndSays, TurnSays};

use super::dispatcher::{Dispatcher, End, Turn};
use crate::error::DispatcherError;
use futures::task::{Context, Poll};
use http_config::Failed;
use http_framing::{Decoder, Encoder};
use http_services::Service;
use http_transport::Transport;
use std::mem;
use ws_frames::ProtocolError;

impl<S, T, U, I> Dispatcher<S, S::Call, T, U, U::Item, I, S::Error>
where
    T: Transport,
    U: Decoder<Error = ProtocolError> + Encoder<I, Error = ProtocolError>,
    S: Service<U::Item, Response = I, Lent = ()>,
    I: Drop,
{
    /// One turn.
    pub(crate) fn turn(&mut self, cx: &mut Context<'_>) -> Turn<S::Error>
        requires open { MayBePolled S.calling self.old }
        ensures says { TurnSays U.reads U.given U.nothing U.breaks U.Decoder.lacks U.seen U.Decoder.leaves U.writes (Unwritten U.refuses U.Encoder.lacks U.Encoder.leaves) (view_of T.wiring S.served self.old) (view_of T.wiring S.served self.new) cx.new result }
        ensures open { MayBePolled S.calling self.new }
        ensures registered { OnIdle result (IsArmed cx.new) }
        ensures kept { Keeps cx.old cx.new }
    {
        if self.is_open() {
            self.take(cx)
        } else {
            self.finish(cx)
        }
    }

    /// Whether it goes on.
    fn is_open(&self) -> bool
        ensures open { IsTrue result → IsOpen (view_of T.wiring S.served self.now) }
        ensures ending { IsFalse result → IsEnding (view_of T.wiring S.served self.now) }
    {
        matches!(self.end, End::Open)
    }

    /// Sends what is buffered, and then ends.
    fn finish(&mut self, cx: &mut Context<'_>) -> Turn<S::Error>
        requires open { MayBePolled S.calling self.old }
        requires ending { IsEnding (view_of T.wiring S.served self.old) }
        ensures says { TurnSays U.reads U.given U.nothing U.breaks U.Decoder.lacks U.seen U.Decoder.leaves U.writes (Unwritten U.refuses U.Encoder.lacks U.Encoder.leaves) (view_of T.wiring S.served self.old) (view_of T.wiring S.served self.new) cx.new result }
        ensures open { MayBePolled S.calling self.new }
        ensures registered { OnIdle result (IsArmed cx.new) }
        ensures kept { Keeps cx.old cx.new }
    {
        if self.is_sent() {
            return Turn::Over(self.tell());
        }
        self.flushing = true;
        match self.framed.flush(cx) {
            Poll::Pending => Turn::Idle,
            Poll::Ready(Ok(())) => {
                self.flushing = false;
                Turn::Counted
            }
            Poll::Ready(Err(Failed)) => match mem::replace(&mut self.end, End::Open) {
                End::Failed(error) => Turn::Over(Err(DispatcherError::Service(error))),
                End::Closed => {
                    self.end = End::Closed;
                    Turn::Over(Err(DispatcherError::Encoder(ProtocolError::Io)))
                }
                End::Open => unreachable!(),
            },
        }
    }

    /// All is sent: it ends.
    fn tell(&mut self) -> Result<(), DispatcherError<S::Error>>
        requires open { MayBePolled S.calling self.old }
        requires ending { IsEnding (view_of T.wiring S.served self.old) }
        requires sent { IsSent (view_of T.wiring S.served self.old) }
        ensures says { EndSays U.reads U.given U.nothing U.breaks U.Decoder.lacks U.seen U.Decoder.leaves U.writes (Unwritten U.refuses U.Encoder.lacks U.Encoder.leaves) (view_of T.wiring S.served self.old) (view_of T.wiring S.served self.new) result }
        ensures open { MayBePolled S.calling self.new }
    {
        match mem::replace(&mut self.end, End::Open) {
            End::Failed(error) => Err(DispatcherError::Service(error)),
            End::Closed => {
                self.end = End::Closed;
                Ok(())
            }
            End::Open => unreachable!(),
        }
    }
}
