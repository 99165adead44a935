//! Bytes that are handed on without a copy, and without memory.
ghost use Rattle.std.specs.Prelude.{◌≡◌, [], Ok, IfOk, IfErr};
ghost use Rattle.futures.specs.Task.{Keeps};
ghost use Rattle.http_bodies.specs.Values.{holds, at_once};

use crate::{BodyFault, MessageBody};
use bytes::Bytes;
use futures::task::{Context, Poll};
use http_framing::BodySize;
use std::alloc::Global;

impl MessageBody for () {
    ghost use Rattle.std.specs.Prelude.{Some};

    ghost gives = { λ _. holds [] };

    ghost at_hand = { λ _. Some [] };

    fn size(&self) -> BodySize {
        BodySize::ZERO
    }

    fn poll_next(
        &mut self,
        _alloc: Global,
        _cx: &mut Context<'_>,
    ) -> Poll<Option<Result<Bytes, BodyFault>>>
        ensures ends { result ≡ at_once [] }
        ensures kept { Keeps _cx.old _cx.new }
    {
        Poll::Ready(None)
    }

    fn try_into_bytes(self, _alloc: Global) -> Result<Bytes, ()>
        ensures all { result ≡ Ok [] }
    {
        Ok(Bytes::new())
    }
}

impl MessageBody for Bytes {
    ghost use Rattle.std.specs.Prelude.{Some};

    ghost gives = { λ bytes. holds bytes };

    ghost at_hand = { λ bytes. Some bytes };

    fn size(&self) -> BodySize {
        BodySize::Sized(self.len() as u64)
    }

    fn poll_next(
        &mut self,
        _alloc: Global,
        _cx: &mut Context<'_>,
    ) -> Poll<Option<Result<Bytes, BodyFault>>>
        ensures at_once { result ≡ at_once self.old }
        ensures rest { self.new ≡ [] }
        ensures kept { Keeps _cx.old _cx.new }
    {
        if self.is_empty() {
            return Poll::Ready(None);
        }
        Poll::Ready(Some(Ok(std::mem::take(self))))
    }

    fn try_into_bytes(self, _alloc: Global) -> Result<Bytes, Bytes>
        ensures all { result ≡ Ok self }
    {
        Ok(self)
    }
}

impl MessageBody for &'static [u8] {
    ghost use Rattle.std.specs.Prelude.{Some};

    ghost gives = { λ bytes. holds bytes.now };

    ghost at_hand = { λ bytes. Some bytes.now };

    fn size(&self) -> BodySize {
        BodySize::Sized(self.len() as u64)
    }

    fn poll_next(
        &mut self,
        _alloc: Global,
        _cx: &mut Context<'_>,
    ) -> Poll<Option<Result<Bytes, BodyFault>>>
        ensures at_once { result ≡ at_once self.old.now }
        ensures rest { self.new.now ≡ [] }
        ensures kept { Keeps _cx.old _cx.new }
    {
        if self.is_empty() {
            return Poll::Ready(None);
        }
        let bytes = Bytes::from_static(*self);
        *self = &[];
        Poll::Ready(Some(Ok(bytes)))
    }

    fn try_into_bytes(self, _alloc: Global) -> Result<Bytes, &'static [u8]>
        ensures all { result ≡ Ok self.now }
    {
        Ok(Bytes::from_static(self))
    }
}

impl MessageBody for &'static str {
    ghost use Rattle.std.specs.Prelude.{Some};

    ghost gives = { λ text. holds text.now };

    ghost at_hand = { λ text. Some text.now };

    fn size(&self) -> BodySize {
        BodySize::Sized(self.len() as u64)
    }

    fn poll_next(
        &mut self,
        _alloc: Global,
        _cx: &mut Context<'_>,
    ) -> Poll<Option<Result<Bytes, BodyFault>>>
        ensures at_once { result ≡ at_once self.old.now }
        ensures rest { self.new.now ≡ [] }
        ensures kept { Keeps _cx.old _cx.new }
    {
        if self.is_empty() {
            return Poll::Ready(None);
        }
        let bytes = Bytes::from_static(self.as_bytes());
        *self = "";
        Poll::Ready(Some(Ok(bytes)))
    }

    fn try_into_bytes(self, _alloc: Global) -> Result<Bytes, &'static str>
        ensures all { result ≡ Ok self.now }
    {
        Ok(Bytes::from_static(self.as_bytes()))
    }
}
