//! The service is asked, and its input is read.
ghost use Rattle.std.specs.Prelude.{◌≡◌, ◌⊎◌, true, false, is_some};
ghost use Rattle.futures.specs.Task.{IsArmed, Keeps};
ghost use Rattle.ws_dispatcher.specs.View.{view_of, IsSent, IsSettled};
ghost use Rattle.ws_dispatcher.specs.Steps.{IsOpen, Unwritten};
ghost use Rattle.ws_dispatcher.specs.Polls.{MayBePolled, OnIdle, ServeSays, read_error};

use super::dispatcher::{Dispatcher, End, Turn};
use super::queue::Message;
use crate::error::DispatcherError;
use futures::task::{Context, Poll};
use http_framing::{Decoder, Encoder};
use http_services::Service;
use http_transport::{FramedError, Transport};
use ws_frames::ProtocolError;

impl<S, T, U, I> Dispatcher<S, S::Call, T, U, U::Item, I, S::Error>
where
    T: Transport,
    U: Decoder<Error = ProtocolError> + Encoder<I, Error = ProtocolError>,
    S: Service<U::Item, Response = I, Lent = ()>,
    I: Drop,
{
    /// Goes on with the call in progress, the item that waits, or the input.
    pub(super) fn serve(&mut self, cx: &mut Context<'_>) -> Turn<S::Error>
        requires open { MayBePolled S.calling self.old }
        requires is_open { IsOpen (view_of T.wiring S.served self.old) }
        requires settled { IsSettled (view_of T.wiring S.served self.old) }
        requires armed { IsSent (view_of T.wiring S.served self.old) ⊎ IsArmed cx.old }
        ensures says { ServeSays U.reads U.given U.nothing U.breaks U.Decoder.lacks U.seen U.Decoder.leaves U.writes (Unwritten U.refuses U.Encoder.lacks U.Encoder.leaves) (view_of T.wiring S.served self.old) (view_of T.wiring S.served self.new) cx.new result }
        ensures open { MayBePolled S.calling self.new }
        ensures registered { OnIdle result (IsArmed cx.new) }
        ensures kept { Keeps cx.old cx.new }
    {
        if self.call.is_some() {
            return self.answer(cx);
        }
        if self.waiting.is_some() {
            return self.ask(cx);
        }
        if !self.ended {
            return self.read(cx);
        }
        if self.is_sent() {
            return Turn::Over(Ok(()));
        }
        Turn::Idle
    }

    /// Polls the call in progress, once there is room for its answer.
    fn answer(&mut self, cx: &mut Context<'_>) -> Turn<S::Error>
        requires open { MayBePolled S.calling self.old }
        requires is_open { IsOpen (view_of T.wiring S.served self.old) }
        requires calling { is_some self.old.call ≡ true }
        requires settled { IsSettled (view_of T.wiring S.served self.old) }
        ensures says { ServeSays U.reads U.given U.nothing U.breaks U.Decoder.lacks U.seen U.Decoder.leaves U.writes (Unwritten U.refuses U.Encoder.lacks U.Encoder.leaves) (view_of T.wiring S.served self.old) (view_of T.wiring S.served self.new) cx.new result }
        ensures open { MayBePolled S.calling self.new }
        ensures registered { OnIdle result (IsArmed cx.new) }
        ensures kept { Keeps cx.old cx.new }
    {
        if self.queue.make_room().is_err() {
            return Turn::Over(Err(DispatcherError::Encoder(ProtocolError::NoMemory)));
        }
        let Some(mut call) = self.call.take() else {
            unreachable!()
        };
        match self.service.poll_call(&mut call, &mut self.lent, cx) {
            Poll::Pending => {
                self.call = Some(call);
                Turn::Idle
            }
            Poll::Ready(Err(error)) => {
                self.end = End::Failed(error);
                Turn::Counted
            }
            Poll::Ready(Ok(message)) => match self.queue.send(Ok(Message::Item(message))) {
                Ok(()) => Turn::Counted,
                Err(_) => unreachable!(),
            },
        }
    }

    /// Asks the service for a call with the item that waits, once it takes one.
    fn ask(&mut self, cx: &mut Context<'_>) -> Turn<S::Error>
        requires open { MayBePolled S.calling self.old }
        requires is_open { IsOpen (view_of T.wiring S.served self.old) }
        requires calling { is_some self.old.call ≡ false }
        requires waiting { is_some self.old.waiting ≡ true }
        requires settled { IsSettled (view_of T.wiring S.served self.old) }
        ensures says { ServeSays U.reads U.given U.nothing U.breaks U.Decoder.lacks U.seen U.Decoder.leaves U.writes (Unwritten U.refuses U.Encoder.lacks U.Encoder.leaves) (view_of T.wiring S.served self.old) (view_of T.wiring S.served self.new) cx.new result }
        ensures open { MayBePolled S.calling self.new }
        ensures registered { OnIdle result (IsArmed cx.new) }
        ensures kept { Keeps cx.old cx.new }
    {
        match self.service.poll_ready(cx) {
            Poll::Pending => Turn::Idle, // The service wakes the task.
            Poll::Ready(Err(error)) => {
                self.end = End::Failed(error);
                Turn::Counted
            }
            Poll::Ready(Ok(())) => {
                let Some(item) = self.waiting.take() else {
                    unreachable!()
                };
                self.call = Some(self.service.call(item));
                Turn::Counted
            }
        }
    }

    /// Reads an item.
    fn read(&mut self, cx: &mut Context<'_>) -> Turn<S::Error>
        requires open { MayBePolled S.calling self.old }
        requires is_open { IsOpen (view_of T.wiring S.served self.old) }
        requires calling { is_some self.old.call ≡ false }
        requires waiting { is_some self.old.waiting ≡ false }
        requires goes_on { self.old.ended ≡ false }
        requires settled { IsSettled (view_of T.wiring S.served self.old) }
        ensures says { ServeSays U.reads U.given U.nothing U.breaks U.Decoder.lacks U.seen U.Decoder.leaves U.writes (Unwritten U.refuses U.Encoder.lacks U.Encoder.leaves) (view_of T.wiring S.served self.old) (view_of T.wiring S.served self.new) cx.new result }
        ensures open { MayBePolled S.calling self.new }
        ensures registered { OnIdle result (IsArmed cx.new) }
        ensures kept { Keeps cx.old cx.new }
    {
        match self.framed.next_item(cx) {
            Poll::Pending => Turn::Idle,
            Poll::Ready(None) => {
                self.ended = true;
                Turn::Counted
            }
            Poll::Ready(Some(Ok(item))) => {
                self.waiting = Some(item);
                Turn::Counted
            }
            Poll::Ready(Some(Err(error))) => {
                Turn::Over(Err(DispatcherError::Decoder(protocol_error(error))))
            }
        }
    }
}

/// The error of a read.
fn protocol_error(error: FramedError<ProtocolError>) -> ProtocolError
    ensures { result ≡ read_error error }
{
    match error {
        FramedError::Codec(error) => error,
        FramedError::Io => ProtocolError::Io,
        FramedError::NoMemory => ProtocolError::NoMemory,
    }
}
