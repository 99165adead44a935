//! No body.
ghost use Rattle.std.specs.Prelude.{◌≡◌};
ghost use Rattle.http_bodies.specs.Values.{holds_none};

use crate::{BodyFault, MessageBody};
use bytes::Bytes;
use futures::task::{Context, Poll};
use http_framing::BodySize;
use std::alloc::Global;

/// No body, of which no length is stated: not even 0.
#[derive(Clone, Copy, Debug)]
pub struct None;

impl None {
    /// No body.
    pub fn new() -> None {
        None
    }
}

impl Default for None {
    fn default() -> None {
        None
    }
}

impl MessageBody for None {
    ghost use Rattle.std.specs.Prelude.{Ok, Some, []};
    ghost use Rattle.std.specs.Prelude as std;
    ghost use Rattle.futures.specs.Task.{Keeps};
    ghost use Rattle.futures.specs.declared.task.Poll.TheVariants.{Ready};

    ghost gives = { λ _. holds_none };

    ghost at_hand = { λ _. Some [] };

    fn size(&self) -> BodySize {
        BodySize::None
    }

    fn poll_next(
        &mut self,
        _alloc: Global,
        _cx: &mut Context<'_>,
    ) -> Poll<Option<Result<Bytes, BodyFault>>>
        ensures ends { result ≡ Ready std.None }
        ensures kept { Keeps _cx.old _cx.new }
    {
        Poll::Ready(Option::None)
    }

    fn try_into_bytes(self, _alloc: Global) -> Result<Bytes, None>
        ensures all { result ≡ Ok [] }
    {
        Ok(Bytes::new())
    }
}
