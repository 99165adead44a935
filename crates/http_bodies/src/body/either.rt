//! One of two bodies.
ghost use Rattle.std.specs.Prelude.{◌≡◌, ◌⊎◌, [], true, IfOk, IfErr, OnErr};
ghost use Rattle.http_bodies.specs.declared.body.either.EitherBody.TheVariants.{Left, Right};

use crate::{BodyFault, BoxBody, MessageBody};
use bytes::Bytes;
use futures::task::{Context, Poll};
use http_framing::BodySize;
use std::alloc::Global;

/// One of two bodies: it does what its side does.
#[derive(Debug, Drop)]
pub enum EitherBody<L, R = BoxBody> {
    /// The body of a service, for example.
    Left {
        /// The body.
        body: L,
    },
    /// The body of an error's answer, for example.
    Right {
        /// The body.
        body: R,
    },
}

impl<L, R> EitherBody<L, R> {
    /// The left one: `left` by another name.
    pub fn new(body: L) -> EitherBody<L, R>
        ensures { result ≡ Left body }
    {
        EitherBody::Left { body }
    }

    /// The left one.
    pub fn left(body: L) -> EitherBody<L, R>
        ensures { result ≡ Left body }
    {
        EitherBody::Left { body }
    }

    /// The right one.
    pub fn right(body: R) -> EitherBody<L, R>
        ensures { result ≡ Right body }
    {
        EitherBody::Right { body }
    }
}

impl<L: MessageBody, R: MessageBody> MessageBody for EitherBody<L, R> {
    ghost use Rattle.http_bodies.specs.Sides.{either, either_hand, IsOfSide};
    ghost use Rattle.http_bodies.specs.Whole.{AreAll, whole};

    ghost gives = { either L.gives R.gives };

    ghost at_hand = { either_hand L.at_hand R.at_hand };

    fn size(&self) -> BodySize {
        match self {
            EitherBody::Left { body } => body.size(),
            EitherBody::Right { body } => body.size(),
        }
    }

    fn poll_next(
        &mut self,
        alloc: Global,
        cx: &mut Context<'_>,
    ) -> Poll<Option<Result<Bytes, BodyFault>>> {
        match self {
            EitherBody::Left { body } => body.poll_next(alloc, cx),
            EitherBody::Right { body } => body.poll_next(alloc, cx),
        }
    }

    fn try_into_bytes(self, alloc: Global) -> Result<Bytes, Self>
        ensures given { IfOk result (λ bytes. either_hand L.at_hand R.at_hand self ≡ Some bytes) }
        ensures all { IfOk result (λ bytes. AreAll (whole [] (either L.gives R.gives self).coming) bytes) }
        ensures same { IfErr result (λ body. either L.gives R.gives body ≡ either L.gives R.gives self) }
        ensures same_hand { IfErr result (λ body. either_hand L.at_hand R.at_hand body ≡ either_hand L.at_hand R.at_hand self) }
        ensures side { IfErr result (λ body. IsOfSide self body) }
        ensures cause { OnErr result ((either_hand L.at_hand R.at_hand self ≡ None) ⊎ ((either L.gives R.gives self).takes_memory ≡ true)) }
    {
        match self {
            EitherBody::Left { body } => match body.try_into_bytes(alloc) {
                Ok(bytes) => Ok(bytes),
                Err(body) => Err(EitherBody::Left { body }),
            },
            EitherBody::Right { body } => match body.try_into_bytes(alloc) {
                Ok(bytes) => Ok(bytes),
                Err(body) => Err(EitherBody::Right { body }),
            },
        }
    }
}
