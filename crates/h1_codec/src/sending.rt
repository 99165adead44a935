//! What is left to send of a message.
ghost use Rattle.std.specs.Prelude.{◌≡◌, ◌<◌, None, IfErr, OnOk, false, length};
ghost use Rattle.futures.specs.Task.{IsArmed, Keeps};
ghost use Rattle.h1_codec.specs.View.{view_of};
ghost use Rattle.h1_codec.specs.Sends.{IsLost};
ghost use Rattle.h1_codec.specs.Turns.{MAX_TURNS, SendsFew, FedSays, OnWaits};

use crate::{Message, SendError};
use bytes::Bytes;
use futures::task::{Context, Poll};
use http_bodies::{BodyFault, MessageBody};
use http_framing::{BodySize, Encoder};
use http_transport::{Framed, Transport};
use std::alloc::Global;

/// A message that is being sent: the head, until it is written; the body; and whether its end was written.
#[derive(Drop)]
pub(crate) struct Sending<T, U, H, B> {
    pub(crate) alloc: Global,
    pub(crate) framed: Framed<T, U>,
    pub(crate) head: Option<(H, BodySize)>,
    pub(crate) body: B,
    pub(crate) is_ended: bool,
}

/// What the next of a body came to.
#[derive(Drop)]
pub(crate) enum Fed<E> {
    /// It was written.
    Moved,

    /// The body is pending.
    Waits,

    /// It failed, or could not be written.
    Failed(SendError<E>),
}

impl<T, U, H, B> Sending<T, U, H, B>
where
    T: Transport,
    U: Encoder<Message<(H, BodySize)>>,
    H: Drop,
    B: MessageBody,
{
    /// Writes the head, where it isn't written yet.
    pub(crate) fn begin(&mut self) -> Result<(), U::Error>
        ensures ok { OnOk result (SendsFew U.writes 0 (view_of T.wiring B.gives self.old) (view_of T.wiring B.gives self.new)) }
        ensures err { IfErr result (λ e. IsLost U.writes U.refuses U.lacks U.leaves MAX_TURNS e (view_of T.wiring B.gives self.old) (view_of T.wiring B.gives self.new)) }
    {
        match self.head.take() {
            None => Ok(()),
            Some(head) => self.framed.write(Message::Item(head)),
        }
    }

    /// Writes the next chunk of the body, or its end. An empty chunk is passed over.
    pub(crate) fn feed(&mut self, cx: &mut Context<'_>) -> Fed<U::Error>
        requires unended { self.old.is_ended ≡ false }
        requires begun { self.old.head ≡ None }
        requires room { length self.old.framed.unsent < 8192 }
        ensures says { FedSays U.writes U.refuses U.lacks U.leaves (view_of T.wiring B.gives self.old) (view_of T.wiring B.gives self.new) result }
        ensures registered { OnWaits result (IsArmed cx.new) }
        ensures kept { Keeps cx.old cx.new }
    {
        match self.body.poll_next(self.alloc, cx) {
            Poll::Pending => Fed::Waits,
            Poll::Ready(Some(Err(BodyFault::Body(number)))) => {
                Fed::Failed(SendError::Body(number))
            }
            Poll::Ready(Some(Err(BodyFault::NoMemory))) => Fed::Failed(SendError::NoMemory),
            Poll::Ready(Some(Ok(bytes))) => {
                if bytes.is_empty() {
                    return Fed::Moved;
                }
                match self.framed.write(Message::Chunk(Some(bytes))) {
                    Ok(()) => Fed::Moved,
                    Err(error) => Fed::Failed(SendError::Codec(error)),
                }
            }
            Poll::Ready(None) => match self.framed.write(Message::Chunk(None)) {
                Ok(()) => {
                    self.is_ended = true;
                    Fed::Moved
                }
                Err(error) => Fed::Failed(SendError::Codec(error)),
            },
        }
    }
}
