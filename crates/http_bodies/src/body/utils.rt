//! All bytes of a body.
ghost use Rattle.std.specs.Prelude.{◌≡◌, [], Some, None};
ghost use Rattle.futures.specs.Task.{IsArmed, Keeps};
ghost use Rattle.futures.specs.Poll.{OnPending};
ghost use Rattle.http_bodies.specs.Gather.{GatherSays, known, unlimited};

use crate::body::gatherer::Gatherer;
use crate::body::unlimited::ToBytes;
use crate::{BodyFault, BodyLimitExceeded, MessageBody};
use bytes::Bytes;
use futures::task::{Context, Poll};
use std::alloc::Global;
use std::marker::Model;

/// All bytes of `body`.
pub fn to_bytes<B: MessageBody>(alloc: Global, body: B) -> ToBytes<B>
    ensures { result ≡ record { size = (B.gives body).size; limit = None; got = []; body = body } }
{
    ToBytes {
        gatherer: Gatherer::new(alloc, body, Option::None),
    }
}

impl<B: MessageBody> ToBytes<B> {
    /// The bytes, once the body has ended, or the body's fault. A body whose size is none or 0 isn't polled. Out of
    /// memory, nothing is lost, and it may be polled again.
    pub fn poll(&mut self, cx: &mut Context<'_>) -> Poll<Result<Bytes, BodyFault>>
        ensures says { GatherSays (known B.gives self.old) (known B.gives self.new) cx.new.is_woken (unlimited result) }
        ensures registered { OnPending result (IsArmed cx.new) }
        ensures kept { Keeps cx.old cx.new }
    {
        match self.gatherer.poll(cx) {
            Poll::Ready(Ok(answer)) => Poll::Ready(answer),
            Poll::Ready(Err(_)) => unreachable!(),
            Poll::Pending => Poll::Pending,
        }
    }
}

/// Gathers the bytes of a body, up to a limit.
#[derive(Drop)]
pub struct ToBytesLimited<B> {
    gatherer: Gatherer<B>,
}

impl<B> Model for ToBytesLimited<B> {
    ghost use Rattle.http_bodies.specs.Gather.{Gathering, gathering_of};

    ghost Value = { Gathering B };

    ghost view = { λ t. gathering_of t.gatherer };
}

/// All bytes of `body`, of which there may be `limit`.
pub fn to_bytes_limited<B: MessageBody>(alloc: Global, body: B, limit: usize) -> ToBytesLimited<B>
    ensures { result ≡ record { size = (B.gives body).size; limit = Some limit; got = []; body = body } }
{
    ToBytesLimited {
        gatherer: Gatherer::new(alloc, body, Option::Some(limit)),
    }
}

impl<B: MessageBody> ToBytesLimited<B> {
    /// The bytes, once the body has ended, or the body's fault. A body whose size is none or 0 isn't polled, nor one
    /// whose size is above the limit. Out of memory, nothing is lost, and it may be polled again.
    pub fn poll(
        &mut self,
        cx: &mut Context<'_>,
    ) -> Poll<Result<Result<Bytes, BodyFault>, BodyLimitExceeded>>
        ensures says { GatherSays (known B.gives self.old) (known B.gives self.new) cx.new.is_woken result }
        ensures registered { OnPending result (IsArmed cx.new) }
        ensures kept { Keeps cx.old cx.new }
    {
        self.gatherer.poll(cx)
    }
}
