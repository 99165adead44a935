//! Bodies of requests (RFC 7230, section 3.3.3), read in whatever pieces they come: of a length, in chunks (section
//! 4.1), or all that follows.
//!
//! [`Rest`] is what a connection keeps of a body: what is left of it. It pulls the body's bytes from the front of the
//! connection's buffer, or passes over them. [`PayloadDecoder`] reads a body that stands alone, and is a `Decoder`.
//!
//! # Example
//!
//! ```ignore
//! let mut src = BytesMut::copy_from_slice(alloc, b"4\r\nda")?;
//! let mut decoder = PayloadDecoder::chunked();
//! decoder.decode(&mut src)?;                             // Some(Chunk("da"))
//! src.extend_from_slice(b"ta\r\n0\r\nx-sum: 9\r\n\r\nGET")?;
//! decoder.decode(&mut src)?;                             // Some(Chunk("ta"))
//! decoder.decode(&mut src)?;                             // Some(Trailers): x-sum is 9
//! decoder.decode(&mut src)?;                             // Some(Eof), and "GET" is left
//! ```
//!
//! # Contract
//!
//! A pull is exact by `IsPull` of the machine, a body in chunks by `take_next` of its grammar. The answers of a decoder
//! go on from what the bytes say, whatever follows, so that no cut changes the body, its trailers and its end: the laws
//! stand in [`laws`].
//!
//! # Cost
//!
//! No byte of a chunk or of another body is looked at or copied: what is handed out shares the buffer's memory. Each
//! byte between the chunks is passed once, however it is cut. Trailer lines are kept until their section has ended,
//! at most 8192 bytes, and then copied once.
#![tactic(auto)]

mod chunked_state;
mod chunks;
mod decoder;
mod item;
pub mod laws;
mod pass;
mod place;
mod pulled;
mod rest;
mod scan;
mod section;
mod size_line;
mod trailers;

pub use chunked_state::ChunkedState;
pub use decoder::PayloadDecoder;
pub use http_framing::BodyKind;
pub use item::{DecodeError, PayloadItem};
pub use pulled::{BodyFault, Pulled};
pub use rest::{Rest, RestKind};
