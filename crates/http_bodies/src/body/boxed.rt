//! A body of any kind.
ghost use Rattle.std.specs.Prelude.{◌≡◌, ◌⊎◌, [], true, Ok, Err, IfOk, IfErr, OnErr};
ghost use Rattle.http_bodies.specs.declared.body.boxed.AnyBody.TheVariants as any;

use crate::{BodyFault, ErasedBody, MessageBody};
use bytes::Bytes;
use futures::task::{Context, Poll};
use http_framing::BodySize;
use std::alloc::Global;
use std::fmt;

/// No body, bytes, or a body of another kind.
#[derive(Drop)]
pub enum AnyBody<E> {
    /// No body.
    None,
    /// Bytes, which are one chunk.
    Bytes(Bytes),
    /// A body of the other kind.
    Other(E),
}

/// A body of any kind.
pub type BoxBody = AnyBody<Box<dyn ErasedBody>>;

impl<E> AnyBody<E> {
    /// No body.
    pub fn none() -> AnyBody<E>
        ensures { result ≡ any.None }
    {
        AnyBody::None
    }

    /// A body of these bytes.
    pub fn new(bytes: Bytes) -> AnyBody<E>
        ensures { result ≡ any.Bytes bytes }
    {
        AnyBody::Bytes(bytes)
    }

    /// A body of the other kind. For a `BoxBody` this is any body, in a box.
    pub fn from_stream(body: E) -> AnyBody<E>
        ensures { result ≡ any.Other body }
    {
        AnyBody::Other(body)
    }
}

impl<E> fmt::Debug for AnyBody<E> {
    fn fmt<W: fmt::Write>(&self, f: &mut fmt::Formatter<W>) -> fmt::Result {
        match self {
            AnyBody::None => f.write_str("None"),
            AnyBody::Bytes(bytes) => f.debug_tuple("Bytes").field(bytes).finish(),
            AnyBody::Other(_) => f.write_str("Other(..)"),
        }
    }
}

impl<E: ErasedBody> MessageBody for AnyBody<E> {
    ghost use Rattle.http_bodies.specs.Boxed.{any_gives, any_hand, tried};
    ghost use Rattle.http_bodies.specs.Whole.{AreAll, whole};

    ghost gives = { any_gives E.erased };

    ghost at_hand = { any_hand };

    fn size(&self) -> BodySize {
        match self {
            AnyBody::None => BodySize::None,
            AnyBody::Bytes(bytes) => MessageBody::size(bytes),
            AnyBody::Other(body) => body.size(),
        }
    }

    fn poll_next(
        &mut self,
        alloc: Global,
        cx: &mut Context<'_>,
    ) -> Poll<Option<Result<Bytes, BodyFault>>> {
        match self {
            AnyBody::None => Poll::Ready(None),
            AnyBody::Bytes(bytes) => MessageBody::poll_next(bytes, alloc, cx),
            AnyBody::Other(body) => body.poll_next(alloc, cx),
        }
    }

    fn try_into_bytes(self, _alloc: Global) -> Result<Bytes, Self>
        ensures tried { result ≡ tried self }
        ensures given { IfOk result (λ bytes. any_hand self ≡ Some bytes) }
        ensures all { IfOk result (λ bytes. AreAll (whole [] (any_gives E.erased self).coming) bytes) }
        ensures same { IfErr result (λ body. any_gives E.erased body ≡ any_gives E.erased self) }
        ensures same_hand { IfErr result (λ body. any_hand body ≡ any_hand self) }
        ensures cause { OnErr result ((any_hand self ≡ None) ⊎ ((any_gives E.erased self).takes_memory ≡ true)) }
    {
        match self {
            AnyBody::None => Ok(Bytes::new()),
            AnyBody::Bytes(bytes) => Ok(bytes),
            AnyBody::Other(body) => Err(AnyBody::Other(body)),
        }
    }
}
