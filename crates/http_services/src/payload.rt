//! The payload of a request.
ghost use Rattle.std.specs.Prelude.{◌≡◌, true, IfOk};
ghost use Rattle.futures.specs.Task.{IsArmed, Keeps};
ghost use Rattle.futures.specs.Poll.{OnPending};
ghost use Rattle.http_services.specs.declared.payload.Payload.TheVariants as kind;

use crate::h1;
use crate::source::{BoxedPayloadStream, PayloadSource};
use bytes::Bytes;
use futures::task::{Context, Poll};
use http_types::{NoMemory, PayloadError};
use std::alloc::Global;

/// The payload of a request: none, a connection's queue, or a stream.
#[derive(Drop)]
pub enum Payload<S = BoxedPayloadStream> {
    /// There is none.
    None,
    /// The queue that a connection fills.
    H1 {
        /// The queue.
        payload: h1::Payload,
    },
    /// A stream of another kind.
    Stream {
        /// The stream.
        payload: S,
    },
}

impl<S> Payload<S> {
    /// The payload, of which nothing is left here.
    pub fn take(&mut self) -> Payload<S>
        ensures taken { result ≡ self.old }
        ensures rest { self.new ≡ kind.None }
    {
        std::mem::replace(self, Payload::None)
    }
}

impl<S: PayloadSource> Payload<S> {
    ghost use Rattle.http_services.specs.Payloads.{Gives};

    /// The next chunk, or nothing at the end: what the queue or the stream gives.
    pub fn poll_next(&mut self, cx: &mut Context<'_>) -> Poll<Option<Result<Bytes, PayloadError>>>
        ensures gives { Gives S.feeds self.old self.new result }
        ensures registered { OnPending result (IsArmed cx.new) }
        ensures kept { Keeps cx.old cx.new }
    {
        match self {
            Payload::None => Poll::Ready(None),
            Payload::H1 { payload } => payload.poll_next(cx),
            Payload::Stream { payload } => payload.poll_next(cx),
        }
    }
}

/// A payload of these bytes: one chunk, and the end.
pub fn payload_of_bytes<S>(alloc: Global, bytes: Bytes) -> Result<Payload<S>, NoMemory>
    ensures { IfOk result (λ payload. payload ≡ kind.H1 (fed_data bytes (new_queue true))) }
{
    let mut payload = h1::Payload::create(alloc, true);
    payload.sender().feed_data(bytes)?;
    Ok(Payload::H1 { payload })
}

ghost use Rattle.http_services.specs.Queue.{fed_data, new_queue};

impl<S> From<h1::Payload> for Payload<S> {
    ghost from_gives = { λ queue payload. payload ≡ kind.H1 queue };

    fn from(payload: h1::Payload) -> Payload<S> {
        Payload::H1 { payload }
    }
}

impl From<BoxedPayloadStream> for Payload<BoxedPayloadStream> {
    ghost from_gives = { λ stream payload. payload ≡ kind.Stream stream };

    fn from(payload: BoxedPayloadStream) -> Payload<BoxedPayloadStream> {
        Payload::Stream { payload }
    }
}
