//! Bodies of messages: the traits of what gives chunks, the values that are bodies, bodies over streams, boxed bodies,
//! and what gathers a body's bytes. It re-exports `http_framing`.
//!
//! # Example
//!
//! ```ignore
//! let body = BodyStream::new(Counted::new(pieces));
//! let mut all = to_bytes_limited(alloc, body, 1024);
//! match all.poll(cx) {
//!     Poll::Ready(Ok(Ok(bytes))) => Some(bytes),
//!     Poll::Ready(Ok(Err(BodyFault::Body(number)))) => None,
//!     Poll::Ready(Err(BodyLimitExceeded)) => None,
//!     ..
//! }
//! ```
//!
//! # Contract
//!
//! A body is a record: its size, what is still to come, if that is known, whether it takes memory, and counts of its
//! faults and of its Pending answers. Each poll says by equations how that record changes. A loop over a stream or a body
//! takes at most 64 turns in a poll; then it wakes its own task.
#![tactic(auto)]

mod body;

pub use body::{
    AnyBody, BodyFault, BodyLimitExceeded, BodyStream, BoxBody, ByteStream, Counted, EitherBody,
    ErasedBody, MessageBody, None, PlainStream, SizedStream, ToBytes, ToBytesLimited, to_bytes,
    to_bytes_limited,
};
pub use http_framing::{BodyKind, BodySize, Decoder, Encoder, pieces_make_a_whole};
