//! Sources of payloads.
ghost use Rattle.std.specs.Prelude.{◌≡◌};
ghost use Rattle.futures.specs.Task.{IsArmed, Keeps};
ghost use Rattle.futures.specs.Poll.{OnPending};
ghost use Rattle.http_services.specs.Feeding.{Feeding, FeedSays, unknown_source};

use bytes::Bytes;
use futures::task::{Context, Poll};
use http_bodies::Counted;
use http_types::PayloadError;

/// What gives the chunks of a payload.
pub trait PayloadSource: Drop {
    /// What is still to come, if that is known, whether the source may be out of memory, and how often it failed and was
    /// pending.
    ghost feeds: { Self → Feeding };

    /// The next chunk, or nothing at the end. A pending source wakes the task once it is to be polled again.
    fn poll_next(&mut self, cx: &mut Context<'_>) -> Poll<Option<Result<Bytes, PayloadError>>>
        ensures says { FeedSays (feeds self.old) (feeds self.new) result }
        ensures registered { OnPending result (IsArmed cx.new) }
        ensures kept { Keeps cx.old cx.new };
}

/// A source of a payload, in a box.
pub type BoxedPayloadStream = Box<dyn PayloadSource>;

/// The same.
pub type PayloadStream = BoxedPayloadStream;

impl PayloadSource for Box<dyn PayloadSource> {
    ghost feeds = { λ source. (PayloadSource-box source).feeds source.value };

    fn poll_next(&mut self, cx: &mut Context<'_>) -> Poll<Option<Result<Bytes, PayloadError>>> {
        (**self).poll_next(cx)
    }
}

/// A source of a payload that keeps no counts, and of which nothing is known beforehand. [`Counted`] makes a
/// [`PayloadSource`] of it.
pub trait PlainSource: Drop {
    ghost use Rattle.std.specs.Prelude.{⊤};
    ghost use Rattle.http_services.specs.Queue.{Pull};

    /// What a poll does: the source before it, its answer, and the source after it. It says nothing, unless the source
    /// says more.
    ghost pulled: { Self → Pull → Self → Type 0 } = { λ _ _ _. ⊤ };

    /// The next chunk, or nothing at the end. A pending source wakes the task once it is to be polled again.
    fn poll_next(&mut self, cx: &mut Context<'_>) -> Poll<Option<Result<Bytes, PayloadError>>>
        ensures pulled { pulled self.old result self.new }
        ensures registered { OnPending result (IsArmed cx.new) }
        ensures kept { Keeps cx.old cx.new };
}

impl<T: PlainSource> PayloadSource for Counted<T> {
    ghost feeds = { λ s. unknown_source s.faults s.waits };

    // One poll of what it holds, whose answer it hands on.
    fn poll_next(&mut self, cx: &mut Context<'_>) -> Poll<Option<Result<Bytes, PayloadError>>>
        ensures says { FeedSays (unknown_source self.old.faults self.old.waits) (unknown_source self.new.faults self.new.waits) result }
        ensures handed_on { T.pulled self.old.inner result self.new.inner }
        ensures registered { OnPending result (IsArmed cx.new) }
        ensures kept { Keeps cx.old cx.new }
    {
        match self.inner.poll_next(cx) {
            Poll::Pending => {
                self.waits = self.waits.saturating_add(1);
                Poll::Pending
            }
            Poll::Ready(Some(Err(error))) => {
                self.faults = self.faults.saturating_add(1);
                Poll::Ready(Some(Err(error)))
            }
            Poll::Ready(given) => Poll::Ready(given),
        }
    }
}
