//! What gathers the bytes of a body: its parts.
ghost use Rattle.std.specs.Prelude.{◌≡◌, ◌++◌, false, length};
ghost use Rattle.http_bodies.specs.Limit.{passes};

use bytes::{Bytes, BytesMut};
use http_framing::BodySize;
use std::alloc::Global;

/// Gathers the bytes of a body. What came is within the limit.
#[derive(Drop)]
pub(crate) struct Gatherer<B> {
    pub(crate) alloc: Global,
    pub(crate) body: B,
    pub(crate) size: BodySize,
    pub(crate) limit: Option<usize>,
    pub(crate) got: BytesMut,
    // A chunk that came after those, and found no memory.
    pub(crate) held: Bytes,
    ghost within: { passes (length (got.items ++ held)) limit ≡ false },
}
