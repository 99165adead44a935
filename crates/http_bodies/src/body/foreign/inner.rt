//! Bodies that another value holds.
ghost use Rattle.std.specs.Prelude.{◌≡◌};
ghost use Rattle.futures.specs.Task.{IsArmed, Keeps};
ghost use Rattle.futures.specs.Poll.{OnPending};
ghost use Rattle.http_bodies.specs.Giving.{PieceSays};

use crate::{BodyFault, MessageBody};
use bytes::Bytes;
use futures::task::{Context, Poll};
use http_framing::BodySize;
use std::alloc::Global;

impl<B: MessageBody> MessageBody for &mut B {
    ghost use Rattle.std.specs.Prelude.{◌⊎◌, [], true, Some, None, IsErr, IfErr, IfOk, OnErr};
    ghost use Rattle.http_bodies.specs.Whole.{AreAll, whole, none_at_hand};

    ghost gives = { λ body. B.gives body.now };

    fn size(&self) -> BodySize {
        (**self).size()
    }

    fn poll_next(
        &mut self,
        alloc: Global,
        cx: &mut Context<'_>,
    ) -> Poll<Option<Result<Bytes, BodyFault>>>
        ensures says { PieceSays (B.gives self.old.now) (B.gives self.new.now) result }
        ensures same_reference { self.new.ghost_name ≡ self.old.ghost_name }
        ensures registered { OnPending result (IsArmed cx.new) }
        ensures kept { Keeps cx.old cx.new }
    {
        (**self).poll_next(alloc, cx)
    }

    fn try_into_bytes(self, _alloc: Global) -> Result<Bytes, Self>
        ensures still { IsErr result }
        ensures given { IfOk result (λ bytes. none_at_hand self.old ≡ Some bytes) }
        ensures all { IfOk result (λ bytes. AreAll (whole [] (B.gives self.old).coming) bytes) }
        ensures same { IfErr result (λ body. B.gives body.now ≡ B.gives self.old) }
        ensures same_hand { IfErr result (λ body. none_at_hand body.now ≡ none_at_hand self.old) }
        ensures cause { OnErr result ((none_at_hand self.old ≡ None) ⊎ ((B.gives self.old).takes_memory ≡ true)) }
        ensures same_reference { IfErr result (λ body. body.ghost_name ≡ self.entry.ghost_name) }
    {
        Err(self)
    }
}

impl<B: MessageBody> MessageBody for Box<B> {
    ghost use Rattle.std.specs.Prelude.{Err};

    ghost gives = { λ body. B.gives body.value };

    fn size(&self) -> BodySize {
        (**self).size()
    }

    fn poll_next(
        &mut self,
        alloc: Global,
        cx: &mut Context<'_>,
    ) -> Poll<Option<Result<Bytes, BodyFault>>> {
        (**self).poll_next(alloc, cx)
    }

    fn try_into_bytes(self, _alloc: Global) -> Result<Bytes, Self>
        ensures still { result ≡ Err self }
    {
        Err(self)
    }
}
