//! How a message is framed: the size of a body, the traits of decoders and encoders, and the parts of a header line (RFC 7230,
//! sections 3.2 and 3.3). For every crate that reads or writes messages.
//!
//! - [`BodySize`] is how large a body is, [`BodyKind`] how it is framed.
//! - [`Decoder`] and [`Encoder`] read and write items. Each answer of a decoder goes on from what the bytes say, so that
//!   pieces make no difference: [`pieces_make_a_whole`] is that law.
//! - [`share`] and [`known_value`] cut a part, or a header's value, out of the text in which it stands. The part shares the
//!   memory of the text: nothing is copied.
//!
//! # Example
//!
//! ```ignore
//! assert!(rt; BodySize::ZERO.is_eof() && !BodySize::Stream.is_eof());
//! let text = Bytes::copy_from_slice(alloc, b"host: a\r\n")?;
//! let value = known_value(&text, Span { start: 6, end: 7 })?;
//! assert!(rt; value.as_bytes() == b"a".as_slice());
//! ```
#![tactic(auto)]

mod body;
mod framing;
mod parts;

pub use body::{BodyKind, BodySize};
pub use framing::{Decoder, Encoder, pieces_make_a_whole};
pub use parts::{known_value, share};
