//! A server for HTTP/1 over blocking sockets, with a thread for each connection. A program says what is answered; when
//! bytes are read and written, what time it is and how a connection ends is this crate's.
//!
//! # Example
//!
//! ```ignore
//! struct Hello { alloc: Global }
//!
//! impl Handler for Hello {
//!     ghost handled = { λ _. None };
//!
//!     fn handle<S: TimedSource, K: TimedSink>(
//!         &mut self, request: &Incoming<'_>, body: &mut Body<S, K>, answer: Answer,
//!     ) -> Result<(), HandleError> {
//!         let head = ResponseHead::new(self.alloc, StatusCode::OK);
//!         answer.whole(body, head, b"hello\n")
//!     }
//! }
//! ```
//!
//! `host` accepts connections and runs `host_stream` for each, and `host_connection` serves one over any source and sink.
//!
//! # Contract
//!
//! `host_connection` hands each request to its handler once and in order, and says why the connection has ended only once
//! all answers are written. The README has the table of what is proved, what is tested and what isn't either.
#![tactic(auto)]

mod answer;
mod body;
mod body_io;
mod clock;
mod connection;
mod error;
mod events;
mod handler;
mod limits;
mod pace;
mod request;
mod thread_per_connection;

pub use answer::{Answer, Writer};
pub use body::{Body, Piece};
pub use connection::{host_connection, host_stream};
pub use error::HandleError;
pub use handler::{Handler, Handlers};
pub use limits::Limits;
pub use request::Incoming;
pub use thread_per_connection::{host, wake};
