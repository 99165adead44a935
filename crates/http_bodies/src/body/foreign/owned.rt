//! Bytes and texts that have an allocation of their own, which is shared and not copied.
ghost use Rattle.std.specs.Prelude.{◌≡◌, IfOk, IfErr};
ghost use Rattle.std.specs.Cow.{cow_slice_items, cow_str_bytes};
ghost use Rattle.std.specs.String.{string_bytes};
ghost use Rattle.futures.specs.Task.{IsArmed, Keeps};
ghost use Rattle.futures.specs.Poll.{OnPending};
ghost use Rattle.http_bodies.specs.Giving.{PieceSays};
ghost use Rattle.http_bodies.specs.Values.{holds_owned, EndsAtNone};

use crate::{BodyFault, MessageBody};
use bytes::{Bytes, BytesMut};
use futures::task::{Context, Poll};
use http_framing::BodySize;
use std::alloc::Global;
use std::borrow::{CowSlice, CowStr};

// The bytes of a vector, shared; or the vector, if there is no memory to share it.
fn share_vec(vec: Vec<u8>) -> Result<Bytes, Vec<u8>>
    ensures all { IfOk result (λ bytes. bytes ≡ vec.items) }
    ensures same { IfErr result (λ left. left.items ≡ vec.items) }
{
    match Bytes::from_vec(vec) {
        Ok(bytes) => Ok(bytes),
        Err(failed) => Err(failed.value),
    }
}

// The bytes of a text, shared; or the text.
fn share_text(text: String) -> Result<Bytes, String>
    ensures all { IfOk result (λ bytes. bytes ≡ string_bytes text) }
    ensures same { IfErr result (λ left. string_bytes left ≡ string_bytes text) }
{
    match Bytes::from_vec(text.into_bytes()) {
        Ok(bytes) => Ok(bytes),
        Err(failed) => match String::from_utf8(failed.value) {
            Ok(text) => Err(text),
            Err(_) => unreachable!(),
        },
    }
}

impl MessageBody for BytesMut {
    ghost use Rattle.std.specs.Prelude.{Some};

    ghost gives = { λ bytes. holds_owned bytes.items };

    ghost at_hand = { λ bytes. Some bytes.items };

    fn size(&self) -> BodySize {
        BodySize::Sized(self.len() as u64)
    }

    fn poll_next(
        &mut self,
        alloc: Global,
        _cx: &mut Context<'_>,
    ) -> Poll<Option<Result<Bytes, BodyFault>>>
        ensures says { PieceSays (holds_owned self.old.items) (holds_owned self.new.items) result }
        ensures ends { EndsAtNone self.old.items result }
        ensures registered { OnPending result (IsArmed _cx.new) }
        ensures kept { Keeps _cx.old _cx.new }
    {
        if self.is_empty() {
            return Poll::Ready(None);
        }
        match std::mem::replace(self, BytesMut::new(alloc)).freeze() {
            Ok(bytes) => Poll::Ready(Some(Ok(bytes))),
            Err(failed) => {
                *self = failed.value;
                Poll::Ready(Some(Err(BodyFault::NoMemory)))
            }
        }
    }

    fn try_into_bytes(self, _alloc: Global) -> Result<Bytes, BytesMut> {
        match self.freeze() {
            Ok(bytes) => Ok(bytes),
            Err(failed) => Err(failed.value),
        }
    }
}

impl MessageBody for Vec<u8> {
    ghost use Rattle.std.specs.Prelude.{Some};

    ghost gives = { λ bytes. holds_owned bytes.items };

    ghost at_hand = { λ bytes. Some bytes.items };

    fn size(&self) -> BodySize {
        BodySize::Sized(self.len() as u64)
    }

    fn poll_next(
        &mut self,
        alloc: Global,
        _cx: &mut Context<'_>,
    ) -> Poll<Option<Result<Bytes, BodyFault>>>
        ensures says { PieceSays (holds_owned self.old.items) (holds_owned self.new.items) result }
        ensures ends { EndsAtNone self.old.items result }
        ensures registered { OnPending result (IsArmed _cx.new) }
        ensures kept { Keeps _cx.old _cx.new }
    {
        if self.is_empty() {
            return Poll::Ready(None);
        }
        match share_vec(std::mem::replace(self, Vec::new(alloc))) {
            Ok(bytes) => Poll::Ready(Some(Ok(bytes))),
            Err(same) => {
                *self = same;
                Poll::Ready(Some(Err(BodyFault::NoMemory)))
            }
        }
    }

    fn try_into_bytes(self, _alloc: Global) -> Result<Bytes, Vec<u8>> {
        share_vec(self)
    }
}

impl MessageBody for String {
    ghost use Rattle.std.specs.Prelude.{Some};

    ghost gives = { λ text. holds_owned (string_bytes text) };

    ghost at_hand = { λ text. Some (string_bytes text) };

    fn size(&self) -> BodySize {
        BodySize::Sized(self.len() as u64)
    }

    fn poll_next(
        &mut self,
        alloc: Global,
        _cx: &mut Context<'_>,
    ) -> Poll<Option<Result<Bytes, BodyFault>>>
        ensures says { PieceSays (holds_owned (string_bytes self.old)) (holds_owned (string_bytes self.new)) result }
        ensures ends { EndsAtNone (string_bytes self.old) result }
        ensures registered { OnPending result (IsArmed _cx.new) }
        ensures kept { Keeps _cx.old _cx.new }
    {
        if self.is_empty() {
            return Poll::Ready(None);
        }
        match share_text(std::mem::replace(self, String::new(alloc))) {
            Ok(bytes) => Poll::Ready(Some(Ok(bytes))),
            Err(same) => {
                *self = same;
                Poll::Ready(Some(Err(BodyFault::NoMemory)))
            }
        }
    }

    fn try_into_bytes(self, _alloc: Global) -> Result<Bytes, String> {
        share_text(self)
    }
}

impl MessageBody for CowSlice<'static, u8> {
    ghost use Rattle.std.specs.Prelude.{◌⊎◌, [], true, Some, None, OnErr};
    ghost use Rattle.std.specs.Cow.{IsOwnedSlice};
    ghost use Rattle.http_bodies.specs.Whole.{AreAll, whole};

    ghost gives = { λ bytes. holds_owned (cow_slice_items bytes) };

    ghost at_hand = { λ bytes. Some (cow_slice_items bytes) };

    fn size(&self) -> BodySize {
        BodySize::Sized(self.len() as u64)
    }

    fn poll_next(
        &mut self,
        alloc: Global,
        _cx: &mut Context<'_>,
    ) -> Poll<Option<Result<Bytes, BodyFault>>>
        ensures says { PieceSays (holds_owned (cow_slice_items self.old)) (holds_owned (cow_slice_items self.new)) result }
        ensures ends { EndsAtNone (cow_slice_items self.old) result }
        ensures registered { OnPending result (IsArmed _cx.new) }
        ensures kept { Keeps _cx.old _cx.new }
    {
        if self.len() == 0 {
            return Poll::Ready(None);
        }
        match std::mem::replace(self, CowSlice::Borrowed(&[])).try_into_bytes(alloc) {
            Ok(bytes) => Poll::Ready(Some(Ok(bytes))),
            Err(same) => {
                *self = same;
                Poll::Ready(Some(Err(BodyFault::NoMemory)))
            }
        }
    }

    fn try_into_bytes(self, _alloc: Global) -> Result<Bytes, CowSlice<'static, u8>>
        ensures given { IfOk result (λ bytes. Some (cow_slice_items self.entry) ≡ Some bytes) }
        ensures all { IfOk result (λ bytes. AreAll (whole [] (holds_owned (cow_slice_items self.entry)).coming) bytes) }
        ensures same { IfErr result (λ body. holds_owned (cow_slice_items body) ≡ holds_owned (cow_slice_items self.entry)) }
        ensures same_hand { IfErr result (λ body. Some (cow_slice_items body) ≡ Some (cow_slice_items self.entry)) }
        ensures owned { OnErr result (IsOwnedSlice self.entry) }
        ensures cause { OnErr result ((Some (cow_slice_items self.entry) ≡ None) ⊎ ((holds_owned (cow_slice_items self.entry)).takes_memory ≡ true)) }
    {
        match self {
            CowSlice::Borrowed(bytes) => Ok(Bytes::from_static(bytes)),
            CowSlice::Owned(vec) => match share_vec(vec) {
                Ok(bytes) => Ok(bytes),
                Err(same) => Err(CowSlice::Owned(same)),
            },
        }
    }
}

impl MessageBody for CowStr<'static> {
    ghost use Rattle.std.specs.Prelude.{◌⊎◌, [], true, Some, None, OnErr};
    ghost use Rattle.std.specs.Cow.{IsOwnedStr};
    ghost use Rattle.http_bodies.specs.Whole.{AreAll, whole};

    ghost gives = { λ text. holds_owned (cow_str_bytes text) };

    ghost at_hand = { λ text. Some (cow_str_bytes text) };

    fn size(&self) -> BodySize {
        BodySize::Sized(self.len() as u64)
    }

    fn poll_next(
        &mut self,
        alloc: Global,
        _cx: &mut Context<'_>,
    ) -> Poll<Option<Result<Bytes, BodyFault>>>
        ensures says { PieceSays (holds_owned (cow_str_bytes self.old)) (holds_owned (cow_str_bytes self.new)) result }
        ensures ends { EndsAtNone (cow_str_bytes self.old) result }
        ensures registered { OnPending result (IsArmed _cx.new) }
        ensures kept { Keeps _cx.old _cx.new }
    {
        if self.len() == 0 {
            return Poll::Ready(None);
        }
        match std::mem::replace(self, CowStr::Borrowed("")).try_into_bytes(alloc) {
            Ok(bytes) => Poll::Ready(Some(Ok(bytes))),
            Err(same) => {
                *self = same;
                Poll::Ready(Some(Err(BodyFault::NoMemory)))
            }
        }
    }

    fn try_into_bytes(self, _alloc: Global) -> Result<Bytes, CowStr<'static>>
        ensures given { IfOk result (λ bytes. Some (cow_str_bytes self.entry) ≡ Some bytes) }
        ensures all { IfOk result (λ bytes. AreAll (whole [] (holds_owned (cow_str_bytes self.entry)).coming) bytes) }
        ensures same { IfErr result (λ body. holds_owned (cow_str_bytes body) ≡ holds_owned (cow_str_bytes self.entry)) }
        ensures same_hand { IfErr result (λ body. Some (cow_str_bytes body) ≡ Some (cow_str_bytes self.entry)) }
        ensures owned { OnErr result (IsOwnedStr self.entry) }
        ensures cause { OnErr result ((Some (cow_str_bytes self.entry) ≡ None) ⊎ ((holds_owned (cow_str_bytes self.entry)).takes_memory ≡ true)) }
    {
        match self {
            CowStr::Borrowed(text) => Ok(Bytes::from_static(text.as_bytes())),
            CowStr::Owned(text) => match share_text(text) {
                Ok(bytes) => Ok(bytes),
                Err(same) => Err(CowStr::Owned(same)),
            },
        }
    }
}
