//! The client's side of one HTTP/1 connection without input or output (RFC 7230): requests are asked, and answers come in the
//! order of their requests. For a program that owns the socket and the clock.
//!
//! - [`ClientConnection`] is the connection, with [`NextAnswer`] and [`ClientEnd`].
//! - [`read_answer`], [`body_to`], [`closes_after`] and [`is_interim`] read one head of an answer, and say what it means to
//!   the request that it answers.
//!
//! # Example
//!
//! ```ignore
//! let mut connection = ClientConnection::new(alloc, ServiceConfig::default());
//! let head = RequestHead::new(alloc);
//! if connection.can_ask(&head, BodySize::None) {
//!     connection.ask(&head, BodySize::None)?;
//! }
//! // write `front()`, and say by `advance` how many bytes were written; `read` what comes
//! if connection.can_next() {
//!     connection.next()?; // the next answer's head; then `pull` the body while `can_pull()`
//! }
//! ```
//!
//! # Contract
//!
//! Each call is the step of its event by `model_client`, and names by its `requires` the question that says whether it may be
//! made. Out of memory is the only error, and changes nothing.
#![tactic(auto)]

mod after;
mod connection;
mod event;
mod heads;

pub use after::{body_to, closes_after, is_interim};
pub use connection::ClientConnection;
pub use event::{ClientEnd, NextAnswer};
pub use h1_decoder::ResponseItem;
pub use h1_payload::{BodyFault, Pulled};
pub use heads::{AnswerFault, fault_by, read_answer};
pub use http_framing::BodyKind;
