//! The receiver's side of the queue.
ghost use Rattle.std.specs.Prelude.{◌≡◌, ◌<◌, ℕ, ◌⊎◌, true, false, OnOk, OnErr, length, is_some, option_copied};
ghost use Rattle.futures.specs.Task.{IsArmed, Keeps};
ghost use Rattle.futures.specs.Poll.{OnPending};
ghost use Rattle.http_services.specs.Lent.{PullsLent, lent_of};
ghost use Rattle.http_services.specs.Queue.{new_queue, put_in_front, PullSays, abandoned};

use crate::h1::queue::Payload;
use bytes::Bytes;
use futures::task::{Context, Poll, Source};
use http_types::{HeaderMap, NoMemory, PayloadError};
use std::alloc::{AllocError, Global};
use std::collections::VecDeque;

/// From so many waiting bytes on the queue wants no more.
pub(super) const HIGH: u64 = 32_768;

impl Payload {
    /// An empty queue, whose end was fed if `eof`.
    pub fn create(alloc: Global, eof: bool) -> Payload
        ensures { result ≡ new_queue eof }
    {
        Payload {
            chunks: VecDeque::new(alloc),
            bytes: 0,
            error: None,
            ended: eof,
            trailers: None,
            failed: false,
            dropped: false,
            wish: true,
            put_back: 0,
            received: Source::new(),
            receiver: None,
            fed: Source::new(),
            feeder: None,
        }
    }

    /// Puts bytes in front of those that wait. Out of memory, the queue is as it was.
    pub fn unread_data(&mut self, bytes: Bytes) -> Result<(), NoMemory>
        ensures ok { OnOk result (self.new ≡ put_in_front bytes self.old) }
        ensures err { OnErr result (self.new ≡ self.old) }
    {
        let len = bytes.len() as u64;
        let Some(all) = self.bytes.checked_add(len) else {
            return Err(AllocError);
        };
        if self.chunks.push_front(bytes).is_err() {
            return Err(AllocError);
        }
        self.bytes = all;
        self.put_back = self.put_back.saturating_add(len);
        Ok(())
    }

    /// How many bytes were put back, up to 2^64 - 1.
    pub fn put_back(&self) -> u64
        ensures { result ≡ self.now.put_back }
    {
        self.put_back
    }

    /// The trailers, if the body had some. They are there before the end is.
    pub fn trailers(&self) -> Option<&HeaderMap>
        ensures { option_copied result ≡ self.now.trailers }
    {
        self.trailers.as_ref()
    }

    /// Nothing is received any more, and what is fed is thrown away. A feeder that waits is woken.
    pub fn drop_receiver(&mut self)
        ensures { self.new ≡ abandoned self.old }
    {
        self.dropped = true;
        self.wake_feeder();
    }

    /// The next chunk, then the error, once, then the end. The task is woken once there is more: also behind a chunk,
    /// if the queue wants more and its end wasn't fed.
    pub fn poll_next(&mut self, cx: &mut Context<'_>) -> Poll<Option<Result<Bytes, PayloadError>>>
        ensures says { PullSays self.old self.new result }
        ensures lent { PullsLent (lent_of self.old) (lent_of self.new) result }
        ensures registered { OnPending result (IsArmed cx.new) }
        ensures waits { OnPending result ((cx.new.lacks_waker ≡ true) ⊎ (self.new.receiver ≡ true)) }
        ensures again { 0 < length self.old.chunks → self.new.wish ≡ true → self.old.ended ≡ false → IsArmed cx.new }
        ensures waits_again { 0 < length self.old.chunks → self.new.wish ≡ true → self.old.ended ≡ false → (cx.new.lacks_waker ≡ true) ⊎ (self.new.receiver ≡ true) }
        ensures kept { Keeps cx.old cx.new }
    {
        if let Some(chunk) = self.chunks.pop_front() {
            self.bytes -= chunk.len() as u64;
            self.wish = self.bytes < HIGH;
            if self.wish && !self.ended {
                self.await_more(cx);
            }
            self.wake_feeder();
            return Poll::Ready(Some(Ok(chunk)));
        }
        if let Some(error) = self.error.take() {
            return Poll::Ready(Some(Err(error)));
        }
        if self.ended {
            return Poll::Ready(None);
        }
        self.wish = true;
        self.wake_feeder();
        self.await_more(cx);
        Poll::Pending
    }

    // The task is to be woken once more was fed.
    fn await_more(&mut self, cx: &mut Context<'_>)
        ensures waits { self.new ≡ record self.old { receiver = self.new.receiver } }
        ensures noted { (cx.new.lacks_waker ≡ true) ⊎ (self.new.receiver ≡ true) }
        ensures armed { IsArmed cx.new }
        ensures kept { Keeps cx.old cx.new }
    {
        let _pending: Poll<()> = cx.register(&self.received, &mut self.receiver);
    }

    // A waker wakes its task when it is dropped.
    fn wake_feeder(&mut self)
        ensures { self.new ≡ record self.old { feeder = false } }
    {
        self.feeder = None;
    }

    pub(super) fn wake_receiver(&mut self)
        ensures { self.new ≡ record self.old { receiver = false } }
    {
        self.receiver = None;
    }
}
