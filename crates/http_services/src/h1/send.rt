//! The feeder's side of the queue.
ghost use Rattle.std.specs.Prelude.{◌≡◌, ◌<◌, ◌+◌, ◌⊎◌, true, IsOk, OnOk, OnErr};
ghost use Rattle.futures.specs.Task.{IsArmed, Keeps};
ghost use Rattle.http_services.specs.Queue.{waiting, fed_data, fed_error, fed_end, fed_trailers, closed};
ghost use Rattle.http_services.specs.Status.{status_of, Asked};

use crate::h1::queue::Payload;
use crate::h1::receive::HIGH;
use bytes::Bytes;
use futures::task::{Context, Poll};
use http_types::{HeaderMap, NoMemory, PayloadError};
use std::alloc::AllocError;

/// What the queue wants of its feeder.
#[derive(Clone, Copy, Debug, PartialEq, Eq)]
pub enum PayloadStatus {
    /// More bytes.
    Read,
    /// Nothing for now. The task is woken once this changes.
    Pause,
    /// Nothing any more: the receiver was dropped.
    Dropped,
}

/// The feeder's side of a queue, for as long as it has the queue. What it feeds after the receiver was dropped is
/// thrown away.
#[derive(Drop)]
pub struct PayloadSender<'a> {
    queue: &'a mut Payload,
}

impl Payload {
    /// The feeder's side.
    pub fn sender(&mut self) -> PayloadSender<'_>
        ensures now { result.queue.now ≡ self.old }
        ensures same_reference { result.queue.ghost_name ≡ self.entry.ghost_name }
    {
        PayloadSender { queue: self }
    }

    #[tactic(auto, using(crate::proofs::Waiting::waiting_append))]
    fn feed(&mut self, bytes: Bytes) -> Result<(), NoMemory>
        ensures ok { OnOk result (self.new ≡ fed_data bytes self.old) }
        ensures err { OnErr result (self.new ≡ self.old) }
        ensures dropped { self.old.dropped ≡ true → IsOk result }
    {
        if self.dropped {
            return Ok(());
        }
        let Some(all) = self.bytes.checked_add(bytes.len() as u64) else {
            return Err(AllocError);
        };
        if self.chunks.push_back(bytes).is_err() {
            return Err(AllocError);
        }
        self.bytes = all;
        self.wish = all < HIGH;
        self.wake_receiver();
        Ok(())
    }

    fn fail(&mut self, error: PayloadError)
        ensures { self.new ≡ fed_error error self.old }
    {
        if self.dropped {
            return;
        }
        self.error = Some(error);
        self.failed = true;
        self.wake_receiver();
    }

    fn end(&mut self)
        ensures { self.new ≡ fed_end self.old }
    {
        if self.dropped {
            return;
        }
        self.ended = true;
        self.wake_receiver();
    }

    fn note_trailers(&mut self, trailers: HeaderMap)
        ensures { self.new ≡ fed_trailers trailers self.old }
    {
        if self.dropped {
            return;
        }
        self.trailers = Some(trailers);
    }

    fn close(&mut self)
        ensures { self.new ≡ closed self.old }
    {
        if !self.ended && !self.failed {
            self.fail(PayloadError::Incomplete);
        }
    }

    fn is_dropped(&self) -> bool
        ensures { result ≡ self.now.dropped }
    {
        self.dropped
    }

    fn status(&mut self, cx: &mut Context<'_>) -> PayloadStatus
        ensures status { result ≡ status_of self.old }
        ensures asked { Asked self.old self.new result }
        ensures registered { result ≡ PayloadStatus.Pause → IsArmed cx.new }
        ensures low { result ≡ PayloadStatus.Read → waiting self.old.chunks < 32768 + self.old.put_back }
        ensures waits { result ≡ PayloadStatus.Pause → (cx.new.lacks_waker ≡ true) ⊎ (self.new.feeder ≡ true) }
        ensures kept { Keeps cx.old cx.new }
    {
        if self.dropped {
            return PayloadStatus::Dropped;
        }
        if self.wish {
            return PayloadStatus::Read;
        }
        let _pending: Poll<()> = cx.register(&self.fed, &mut self.feeder);
        PayloadStatus::Pause
    }
}

impl PayloadSender<'_> {
    /// Feeds bytes, which wait behind the others. Out of memory, the queue is as it was. One whose receiver was dropped
    /// takes no memory.
    pub fn feed_data(&mut self, bytes: Bytes) -> Result<(), NoMemory>
        ensures same_reference { self.new.queue.ghost_name ≡ self.old.queue.ghost_name }
        ensures ok { OnOk result (self.new.queue.now ≡ fed_data bytes self.old.queue.now) }
        ensures err { OnErr result (self.new.queue.now ≡ self.old.queue.now) }
        ensures dropped { self.old.queue.now.dropped ≡ true → IsOk result }
    {
        self.queue.feed(bytes)
    }

    /// Feeds an error, in place of one that waits. It comes behind all chunks.
    pub fn set_error(&mut self, error: PayloadError)
        ensures same_reference { self.new.queue.ghost_name ≡ self.old.queue.ghost_name }
        ensures fed { self.new.queue.now ≡ fed_error error self.old.queue.now }
    {
        self.queue.fail(error)
    }

    /// Feeds the end.
    pub fn feed_eof(&mut self)
        ensures same_reference { self.new.queue.ghost_name ≡ self.old.queue.ghost_name }
        ensures fed { self.new.queue.now ≡ fed_end self.old.queue.now }
    {
        self.queue.end()
    }

    /// Sets the trailers of the body (RFC 7230, section 4.1.2), in place of those that were set. They come before the
    /// end, and wake nobody.
    pub fn set_trailers(&mut self, trailers: HeaderMap)
        ensures same_reference { self.new.queue.ghost_name ≡ self.old.queue.ghost_name }
        ensures fed { self.new.queue.now ≡ fed_trailers trailers self.old.queue.now }
    {
        self.queue.note_trailers(trailers)
    }

    /// Feeds `PayloadError::Incomplete`, unless the end or an error was fed.
    pub fn close_sender(&mut self)
        ensures same_reference { self.new.queue.ghost_name ≡ self.old.queue.ghost_name }
        ensures closed { self.new.queue.now ≡ closed self.old.queue.now }
    {
        self.queue.close()
    }

    /// What the queue wants. If it wants nothing for now, the task is woken once it does. Where it wants more, fewer than
    /// 32768 bytes wait beyond those that were put back.
    pub fn need_read(&mut self, cx: &mut Context<'_>) -> PayloadStatus
        ensures same_reference { self.new.queue.ghost_name ≡ self.old.queue.ghost_name }
        ensures status { result ≡ status_of self.old.queue.now }
        ensures asked { Asked self.old.queue.now self.new.queue.now result }
        ensures registered { result ≡ PayloadStatus.Pause → IsArmed cx.new }
        ensures low { result ≡ PayloadStatus.Read → waiting self.old.queue.now.chunks < 32768 + self.old.queue.now.put_back }
        ensures waits { result ≡ PayloadStatus.Pause → (cx.new.lacks_waker ≡ true) ⊎ (self.new.queue.now.feeder ≡ true) }
        ensures kept { Keeps cx.old cx.new }
    {
        self.queue.status(cx)
    }

    /// Whether the receiver was dropped.
    pub fn is_dropped(&self) -> bool
        ensures { result ≡ self.now.queue.now.dropped }
    {
        self.queue.is_dropped()
    }
}
