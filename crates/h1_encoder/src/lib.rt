//! The texts that HTTP/1 writes (RFC 7230, sections 3 and 4.1), each put behind what a buffer holds: heads of answers and of
//! requests, pieces and ends of bodies, interim lines and refusals. For `h1_connection`, `h1_client` and `h1_codec`, and for a
//! program that writes messages itself.
//!
//! - Answers: [`put_answer_head`], [`put_piece`], [`put_end`], [`put_interim`], [`put_accept`] and the refusals.
//! - Requests: [`put_request_head`].
//! - [`MessageEncoder`] and [`TransferEncoding`] encode whole messages, under the names that actix-http has for them.
//!
//! # Example
//!
//! ```ignore
//! let asked = Asked::new(Version::HTTP_11, false, false, ConnectionType::KeepAlive);
//! let head = ResponseHead::new(alloc, StatusCode::OK);
//! let size = BodySize::Sized(2);
//! let (mut out, mut date) = (BytesMut::new(alloc), DateLine::new());
//! let connection = type_of(true, false, asked, &head, size);
//! put_answer_head(&mut out, asked, &head, size, connection, &mut date, 0)?;
//! put_piece(&mut out, asked, shape_of(asked, &head, size), 2, b"hi")?;
//! // out holds: HTTP/1.1 200 OK, content-length: 2, date: Thu, 01 Jan 1970 00:00:00 GMT, an empty line, and hi.
//! ```
//!
//! # Contract
//!
//! Each text is that of the definitions of `model_h1` and `model_client`. Where memory runs out, the buffer holds what it
//! held. What is written of a body in chunks is read again as its bytes ([`laws`]).
#![tactic(auto)]

mod accept;
mod asked;
mod body;
mod camel;
mod chunk;
mod connection_type;
mod date;
mod encoder;
mod error;
mod fixed;
mod head;
mod headers;
pub mod laws;
mod request_camel;
mod request_framing;
mod request_head;
mod request_headers;
mod request_line;
mod shape;

pub use accept::put_accept;
pub use asked::Asked;
pub use body::{first_bytes, put_end, put_piece};
pub use chunk::SizeLine;
pub use connection_type::type_of;
pub use date::{DateLine, write_date_header};
pub use encoder::{EncodeHead, MessageEncoder, TransferEncoding};
pub use error::EncodeError;
pub use fixed::{put_bad_request, put_interim, put_timeout, put_too_large};
pub use head::{put_answer_head, write_content_length};
pub use request_head::{has_text, put_request_head};
pub use shape::{Shape, shape_of};
