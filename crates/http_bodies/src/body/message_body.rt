//! What a message carries.
ghost use Rattle.std.specs.Prelude.{◌≡◌, ◌⊎◌, ℕ, Option, List, [], true, IfOk, IfErr, OnErr};
ghost use Rattle.futures.specs.Task.{IsArmed, Keeps};
ghost use Rattle.futures.specs.Poll.{OnPending};
ghost use Rattle.http_bodies.specs.Giving.{Giving, PieceSays};
ghost use Rattle.http_bodies.specs.Whole.{AreAll, whole};

use crate::BodyFault;
use bytes::Bytes;
use futures::task::{Context, Poll};
use http_framing::BodySize;
use std::alloc::Global;

/// The body of a message: chunks, and then the end or a fault.
pub trait MessageBody: Drop {
    ghost use Rattle.std.specs.Prelude.{None};

    /// Its size, what is still to come, if that is known, whether it may be out of memory, and how often it failed and
    /// was pending. A body that keeps no count has the constant 0 if it never fails, or is never pending.
    ghost gives: { Self → Giving };

    /// All its bytes, if it has them at hand, so that it needn't be polled for them.
    ghost at_hand: { Self → Option (List ℕ) } = { λ _. None };

    /// How large the body is, in bytes.
    fn size(&self) -> BodySize
        ensures { result ≡ (gives self.now).size };

    /// The next chunk, or nothing at the end. After `BodyFault::NoMemory` the same chunks are still to come. A pending
    /// body wakes the task once it is to be polled again.
    fn poll_next(
        &mut self,
        alloc: Global,
        cx: &mut Context<'_>,
    ) -> Poll<Option<Result<Bytes, BodyFault>>>
        ensures says { PieceSays (gives self.old) (gives self.new) result }
        ensures registered { OnPending result (IsArmed cx.new) }
        ensures kept { Keeps cx.old cx.new };

    /// All bytes at once, if the body has them at hand: what polling would give. Else the body, which still gives the same. A
    /// body that has them at hand is given back only if it may be out of memory.
    fn try_into_bytes(self, alloc: Global) -> Result<Bytes, Self>
        ensures given { IfOk result (λ bytes. at_hand self ≡ Some bytes) }
        ensures all { IfOk result (λ bytes. AreAll (whole [] (gives self).coming) bytes) }
        ensures same { IfErr result (λ body. gives body ≡ gives self) }
        ensures same_hand { IfErr result (λ body. at_hand body ≡ at_hand self) }
        ensures cause { OnErr result ((at_hand self ≡ None) ⊎ ((gives self).takes_memory ≡ true)) };
}
