//! Services over framed transports: what is read goes to a service, and its answers are written.
//!
//! # Example
//!
//! ```ignore
//! let mut dispatcher = ws::over_transport(alloc, transport, service);
//! dispatcher.send(Ok(inner::Message::Item(Message::Ping(payload))))?;
//! match dispatcher.poll(cx) {
//!     Poll::Ready(Ok(())) => {}           // closed, or the input has ended and all is answered and sent
//!     Poll::Ready(Err(error)) => {}       // the service's error, or that of reading or writing
//!     Poll::Pending => {}                 // the task is woken once it is worth another poll
//! }
//! ```
//!
//! # Contract
//!
//! A poll is a run of steps: an item read, a call begun, an answer, a message written, bytes sent. Over every run the
//! service is asked the items that were read, in order and once each, and what is written are its answers and the queued
//! messages, in the order in which they were put.
#![tactic(auto)]

mod error;
pub mod inner;
mod laws;
pub mod ws;

pub use error::DispatcherError;
pub use laws::{items_are_those_of_the_bytes, runs_keep_order};
