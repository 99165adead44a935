//! Counts for streams that keep none.
ghost use Rattle.std.specs.Prelude.{◌≡◌};
ghost use Rattle.futures.specs.Task.{IsArmed, Keeps};
ghost use Rattle.futures.specs.Poll.{OnPending};
ghost use Rattle.http_bodies.specs.Giving.{StreamSays, unknown_stream};

use crate::{BodyFault, ByteStream};
use bytes::Bytes;
use futures::task::{Context, Poll};

/// A stream of pieces that keeps no counts, and of which nothing is known beforehand: a file, or a socket.
/// [`Counted`] makes a [`ByteStream`] of it.
pub trait PlainStream: Drop {
    ghost use Rattle.std.specs.Prelude.{⊤};
    ghost use Rattle.http_bodies.specs.Giving.{Piece};

    /// What a poll does: the stream before it, its answer, and the stream after it. It says nothing, unless the stream
    /// says more.
    ghost polled: { Self → Piece → Self → Type 0 } = { λ _ _ _. ⊤ };

    /// The next piece, which may be empty, or nothing at the end. A pending stream wakes the task once it is to be
    /// polled again.
    fn poll_next(&mut self, cx: &mut Context<'_>) -> Poll<Option<Result<Bytes, BodyFault>>>
        ensures polled { polled self.old result self.new }
        ensures registered { OnPending result (IsArmed cx.new) }
        ensures kept { Keeps cx.old cx.new };
}

/// Counts the faults and the Pending answers of what it holds, as the traits ask.
#[derive(Debug, Drop)]
pub struct Counted<T> {
    /// What is polled.
    pub inner: T,
    /// How often it failed, up to 2^64 - 1.
    pub faults: u64,
    /// How often it was pending, up to 2^64 - 1.
    pub waits: u64,
}

impl<T> Counted<T> {
    /// Counts from 0.
    pub fn new(inner: T) -> Counted<T>
        ensures { result ≡ record { inner = inner; faults = 0; waits = 0 } }
    {
        Counted {
            inner,
            faults: 0,
            waits: 0,
        }
    }
}

impl<T: PlainStream> ByteStream for Counted<T> {
    ghost streams = { λ s. unknown_stream s.faults s.waits };

    // One poll of what it holds, whose answer it hands on.
    fn poll_next(&mut self, cx: &mut Context<'_>) -> Poll<Option<Result<Bytes, BodyFault>>>
        ensures says { StreamSays (unknown_stream self.old.faults self.old.waits) (unknown_stream self.new.faults self.new.waits) result }
        ensures handed_on { T.polled self.old.inner result self.new.inner }
        ensures registered { OnPending result (IsArmed cx.new) }
        ensures kept { Keeps cx.old cx.new }
    {
        match self.inner.poll_next(cx) {
            Poll::Pending => {
                self.waits = self.waits.saturating_add(1);
                Poll::Pending
            }
            Poll::Ready(Some(Err(fault))) => {
                self.faults = self.faults.saturating_add(1);
                Poll::Ready(Some(Err(fault)))
            }
            Poll::Ready(given) => Poll::Ready(given),
        }
    }
}
