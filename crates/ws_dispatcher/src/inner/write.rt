//! What is queued is written and sent.
ghost use Rattle.std.specs.Prelude.{IsTrue, ◌↔◌};
ghost use Rattle.futures.specs.Task.{IsArmed, Keeps};
ghost use Rattle.ws_dispatcher.specs.View.{view_of, IsSent, IsSettled};
ghost use Rattle.ws_dispatcher.specs.Steps.{IsOpen, Unwritten};
ghost use Rattle.ws_dispatcher.specs.Polls.{MayBePolled, OnIdle, TurnSays};

use super::dispatcher::{Dispatcher, End, Turn};
use super::queue::Message;
use crate::error::DispatcherError;
use futures::task::{Context, Poll};
use http_config::Failed;
use http_framing::{Decoder, Encoder};
use http_services::Service;
use http_transport::Transport;
use ws_frames::ProtocolError;

impl<S, T, U, I> Dispatcher<S, S::Call, T, U, U::Item, I, S::Error>
where
    T: Transport,
    U: Decoder<Error = ProtocolError> + Encoder<I, Error = ProtocolError>,
    S: Service<U::Item, Response = I, Lent = ()>,
    I: Drop,
{
    /// Takes what is queued, as long as the buffer isn't full.
    pub(super) fn take(&mut self, cx: &mut Context<'_>) -> Turn<S::Error>
        requires open { MayBePolled S.calling self.old }
        requires is_open { IsOpen (view_of T.wiring S.served self.old) }
        ensures says { TurnSays U.reads U.given U.nothing U.breaks U.Decoder.lacks U.seen U.Decoder.leaves U.writes (Unwritten U.refuses U.Encoder.lacks U.Encoder.leaves) (view_of T.wiring S.served self.old) (view_of T.wiring S.served self.new) cx.new result }
        ensures open { MayBePolled S.calling self.new }
        ensures registered { OnIdle result (IsArmed cx.new) }
        ensures kept { Keeps cx.old cx.new }
    {
        if self.framed.is_write_buf_full() {
            return self.send_on(cx);
        }
        match self.queue.pop() {
            None => self.send_on(cx),
            Some(Err(error)) => {
                self.end = End::Failed(error);
                Turn::Counted
            }
            Some(Ok(Message::Close)) => {
                self.end = End::Closed;
                Turn::Counted
            }
            Some(Ok(Message::Item(message))) => match self.framed.write(message) {
                Ok(()) => Turn::Counted,
                Err(error) => Turn::Over(Err(DispatcherError::Encoder(error))),
            },
        }
    }

    /// Sends what is buffered, and goes on with the service where all is sent or the transport isn't ready.
    fn send_on(&mut self, cx: &mut Context<'_>) -> Turn<S::Error>
        requires open { MayBePolled S.calling self.old }
        requires is_open { IsOpen (view_of T.wiring S.served self.old) }
        requires settled { IsSettled (view_of T.wiring S.served self.old) }
        ensures says { TurnSays U.reads U.given U.nothing U.breaks U.Decoder.lacks U.seen U.Decoder.leaves U.writes (Unwritten U.refuses U.Encoder.lacks U.Encoder.leaves) (view_of T.wiring S.served self.old) (view_of T.wiring S.served self.new) cx.new result }
        ensures open { MayBePolled S.calling self.new }
        ensures registered { OnIdle result (IsArmed cx.new) }
        ensures kept { Keeps cx.old cx.new }
    {
        if self.is_sent() {
            return self.serve(cx);
        }
        self.flushing = true;
        match self.framed.flush(cx) {
            Poll::Ready(Ok(())) => {
                self.flushing = false;
                Turn::Counted
            }
            Poll::Ready(Err(Failed)) => {
                Turn::Over(Err(DispatcherError::Encoder(ProtocolError::Io)))
            }
            Poll::Pending => {
                if self.is_settled() {
                    self.serve(cx)
                } else {
                    Turn::Counted
                }
            }
        }
    }

    /// Whether nothing is buffered and no flush is to be done.
    pub(super) fn is_sent(&self) -> bool
        ensures { IsTrue result ↔ IsSent (view_of T.wiring S.served self.now) }
    {
        self.framed.is_write_buf_empty() && !self.flushing
    }

    /// Whether nothing more can be buffered.
    fn is_settled(&self) -> bool
        ensures { IsTrue result ↔ IsSettled (view_of T.wiring S.served self.now) }
    {
        self.queue.is_empty() || self.framed.is_write_buf_full()
    }
}
