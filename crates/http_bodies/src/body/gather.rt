//! The bytes of a body, gathered over many polls.
ghost use Rattle.std.specs.Prelude.{◌≡◌, ◌++◌, ◌+◌, [], IfOk, IfErr, OnErr, false, length};
ghost use Rattle.std.specs.Bool.{OnTrue};
ghost use Rattle.futures.specs.Task.{IsArmed, Keeps};
ghost use Rattle.futures.specs.Poll.{OnPending};
ghost use Rattle.http_bodies.specs.Gather.{GatherSays, Gathers, NeedsLimit, is_over, known, gathering_of};
ghost use Rattle.http_bodies.specs.Limit.{passes};

use crate::body::gatherer::Gatherer;
use crate::{BodyFault, BodyLimitExceeded, MessageBody};
use bytes::{Bytes, BytesMut};
use futures::task::{Context, Poll};
use http_framing::BodySize;
use std::alloc::Global;

impl<B: MessageBody> Gatherer<B> {
    pub(super) fn new(alloc: Global, body: B, limit: Option<usize>) -> Gatherer<B>
        ensures { gathering_of result ≡ record { size = (B.gives body).size; limit = limit; got = []; body = body } }
    {
        let size = body.size();
        Gatherer {
            alloc,
            body,
            size,
            limit,
            got: BytesMut::new(alloc),
            held: Bytes::new(),
        }
    }

    // The bytes, once the body has ended.
    pub(super) fn poll(
        &mut self,
        cx: &mut Context<'_>,
    ) -> Poll<Result<Result<Bytes, BodyFault>, BodyLimitExceeded>>
        ensures says { GatherSays (known B.gives (gathering_of self.old)) (known B.gives (gathering_of self.new)) cx.new.is_woken result }
        ensures limited { NeedsLimit self.old.limit result }
        ensures limit { self.new.limit ≡ self.old.limit }
        ensures registered { OnPending result (IsArmed cx.new) }
        ensures kept { Keeps cx.old cx.new }
    {
        if self.size.is_eof() {
            return Poll::Ready(Ok(Ok(Bytes::new())));
        }
        if self.is_over() {
            return Poll::Ready(Err(BodyLimitExceeded));
        }
        self.gather(cx)
    }

    // Whether the size that the body stated is above the limit.
    fn is_over(&self) -> bool
        ensures { result ≡ is_over (gathering_of self.now) }
    {
        match (self.size, self.limit) {
            (BodySize::Sized(size), Some(limit)) => size > limit as u64,
            _ => false,
        }
    }

    // Whether so many bytes are too many.
    fn passes(&self, count: usize) -> bool
        ensures { result ≡ passes count self.now.limit }
    {
        match self.limit {
            Some(limit) => count > limit,
            None => false,
        }
    }

    fn gather(
        &mut self,
        cx: &mut Context<'_>,
    ) -> Poll<Result<Result<Bytes, BodyFault>, BodyLimitExceeded>>
        ensures says { Gathers (known B.gives (gathering_of self.old)) (known B.gives (gathering_of self.new)) cx.new.is_woken result }
        ensures limited { NeedsLimit self.old.limit result }
        ensures limit { self.new.limit ≡ self.old.limit }
        ensures registered { OnPending result (IsArmed cx.new) }
        ensures kept { Keeps cx.old cx.new }
    {
        if !self.settle() {
            return Poll::Ready(Ok(Err(BodyFault::NoMemory)));
        }
        for _ in 0..64_u32 {
            match self.body.poll_next(self.alloc, cx) {
                Poll::Pending => return Poll::Pending,
                Poll::Ready(None) => return Poll::Ready(Ok(self.take())),
                Poll::Ready(Some(Err(fault))) => return Poll::Ready(Ok(Err(fault))),
                Poll::Ready(Some(Ok(piece))) => {
                    if self.passes(self.got.len() + piece.len()) {
                        return Poll::Ready(Err(BodyLimitExceeded));
                    }
                    if !self.keep(piece) {
                        return Poll::Ready(Ok(Err(BodyFault::NoMemory)));
                    }
                }
            }
        }
        cx.yield_now()
    }

    // Puts the piece after those that came, if there is memory. Else it is held.
    fn keep(&mut self, piece: Bytes) -> bool
        requires holds_none { self.old.held ≡ [] }
        requires fits { passes (length self.old.got.items + length piece) self.old.limit ≡ false }
        ensures all { self.new.got.items ++ self.new.held ≡ (self.old.got.items ++ self.old.held) ++ piece }
        ensures settled { OnTrue result (self.new.held ≡ []) }
        ensures others { (self.new.body ≡ self.old.body) × (self.new.size ≡ self.old.size) × (self.new.limit ≡ self.old.limit) }
    {
        self.held = piece;
        self.settle()
    }

    // Puts the piece that is held after those that came, if there is memory.
    fn settle(&mut self) -> bool
        ensures all { self.new.got.items ++ self.new.held ≡ self.old.got.items ++ self.old.held }
        ensures settled { OnTrue result (self.new.held ≡ []) }
        ensures others { (self.new.body ≡ self.old.body) × (self.new.size ≡ self.old.size) × (self.new.limit ≡ self.old.limit) }
    {
        if self.got.extend_from_slice(self.held.as_slice()).is_err() {
            return false;
        }
        self.held = Bytes::new();
        true
    }

    // What came, where none is held.
    fn take(&mut self) -> Result<Bytes, BodyFault>
        requires holds_none { self.old.held ≡ [] }
        ensures all { IfOk result (λ bytes. bytes ≡ self.old.got.items ++ self.old.held) }
        ensures lacks { IfErr result (λ fault. fault ≡ BodyFault.NoMemory) }
        ensures kept { OnErr result (self.new ≡ self.old) }
        ensures body { self.new.body ≡ self.old.body }
        ensures limit { self.new.limit ≡ self.old.limit }
    {
        match self.got.freeze_to(self.got.len()) {
            Ok(bytes) => Ok(bytes),
            Err(_) => Err(BodyFault::NoMemory),
        }
    }
}
