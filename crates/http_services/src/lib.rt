//! The queue of a request's body, payloads, services, and the answer to an error. It re-exports `http_bodies`.
//!
//! # Example
//!
//! ```ignore
//! let mut queue = h1::Payload::create(alloc, false);
//! queue.sender().feed_data(Bytes::from_static(b"a"))?;
//! queue.unread_data(Bytes::from_static(b"b"))?;
//! queue.sender().feed_eof();
//! assert!(rt; matches!(queue.poll_next(cx), Poll::Ready(Some(Ok(chunk))) if chunk == b"b"));
//! ```
//!
//! # Contract
//!
//! The queue is a record: chunks, an error, the end, trailers, whether the receiver was dropped, whether more is wanted,
//! how many bytes were put back, and who waits. Each call says what record it leaves. A service may state its calls, its
//! answers and what a call took of the queue; each keeps one law on the bytes that wait.
#![tactic(auto)]

mod error_response;
pub mod h1;
mod lending;
mod payload;
mod service;
mod services;
mod source;

pub use error_response::response_of_error;
pub use h1::{PayloadSender, PayloadStatus};
pub use http_bodies::{
    AnyBody, BodyFault, BodyKind, BodyLimitExceeded, BodySize, BodyStream, BoxBody, ByteStream,
    Counted, Decoder, EitherBody, Encoder, ErasedBody, MessageBody, None, PlainStream, SizedStream,
    ToBytes, ToBytesLimited, pieces_make_a_whole, to_bytes, to_bytes_limited,
};
pub use lending::Lending;
pub use payload::{Payload, payload_of_bytes};
pub use service::Service;
pub use services::{
    CountedService, ExpectHandler, FnService, Handler, PlainService, UpgradeHandler,
};
pub use source::{BoxedPayloadStream, PayloadSource, PayloadStream, PlainSource};
