//! A message that is sent over a framed transport.
ghost use Rattle.std.specs.Prelude.{◌≡◌, true, false, Some};
ghost use Rattle.futures.specs.Task.{IsArmed, Keeps};
ghost use Rattle.futures.specs.Poll.{IfReady, OnPending};
ghost use Rattle.h1_codec.specs.SentMessages.{is_open, message_view, view_begun, transport_left, PollSays};

use crate::sending::Sending;
use crate::{Message, SendError};
use futures::task::{Context, Poll};
use http_bodies::MessageBody;
use http_framing::{BodySize, Encoder};
use http_transport::{Framed, Transport};
use std::alloc::Global;

/// A head and a body that are sent over a framed transport, in as many polls as they need. The parameters are the transport, the
/// codec, the head and the body.
#[derive(Drop)]
pub struct SendMessage<T, U, H, B> {
    pub(crate) sending: Option<Sending<T, U, H, B>>,
    pub(crate) has_failed: bool,
}

impl<T, U, H, B> SendMessage<T, U, H, B>
where
    T: Transport,
    U: Encoder<Message<(H, BodySize)>>,
    H: Drop,
    B: MessageBody,
{
    /// This head and this body, over this transport. Nothing is written yet, and no memory is taken.
    pub fn new(alloc: Global, framed: Framed<T, U>, head: H, body: B) -> SendMessage<T, U, H, B>
        ensures view { message_view T.wiring B.gives result ≡ Some (view_begun T.wiring B.gives framed head body) }
        ensures open { is_open result ≡ true }
    {
        let size = body.size();
        SendMessage {
            sending: Some(Sending {
                alloc,
                framed,
                head: Some((head, size)),
                body,
                is_ended: false,
            }),
            has_failed: false,
        }
    }

    /// Whether it may be polled: not after it gave the transport back, nor after an error.
    pub fn is_open(&self) -> bool
        ensures { result ≡ is_open self.now }
    {
        self.sending.is_some() && !self.has_failed
    }

    /// Goes on, by at most 64 turns: writes the head, then the chunks of the body as long as the buffer isn't full, and
    /// then its end, and gives the transport what is buffered. Once the transport has taken all, the framed transport is given back.
    ///
    /// It is pending where the transport is and the body has ended, waits, or has no room in the buffer; where the body is and
    /// nothing is left to give the transport; or where its turns are spent, at least 64 chunks and bytes moved, and the transport was
    /// given what is buffered: then the task is woken.
    pub fn poll(&mut self, cx: &mut Context<'_>) -> Poll<Result<Framed<T, U>, SendError<U::Error>>>
        requires open { is_open self.old ≡ true }
        ensures says { PollSays U.writes U.refuses U.lacks U.leaves T.wiring (message_view T.wiring B.gives self.old) (message_view T.wiring B.gives self.new) cx.new.is_woken result }
        ensures open { OnPending result (is_open self.new ≡ true) }
        ensures closed { IfReady result (λ r. is_open self.new ≡ false) }
        ensures registered { OnPending result (IsArmed cx.new) }
        ensures kept { Keeps cx.old cx.new }
    {
        match &mut self.sending {
            None => unreachable!(),
            Some(sending) => match sending.send(cx) {
                Poll::Pending => Poll::Pending,
                Poll::Ready(Err(error)) => {
                    self.has_failed = true;
                    Poll::Ready(Err(error))
                }
                Poll::Ready(Ok(())) => match self.sending.take() {
                    Some(sent) => Poll::Ready(Ok(sent.framed)),
                    None => unreachable!(),
                },
            },
        }
    }

    /// The framed transport as it stands, where it wasn't given back. What is left of the message is dropped.
    pub fn into_framed(self) -> Option<Framed<T, U>>
        ensures { result ≡ transport_left self }
    {
        match self.sending {
            Some(sending) => Some(sending.framed),
            None => None,
        }
    }
}
