//! A connection whose steps are noted.
//!
//! # Example
//!
//! ```ignore
//! let mut traced = Traced::new(alloc, config, VecRecorder::new(alloc));
//! if traced.connection().can_read() {
//!     traced.read(b"GET / HTTP/1.1\r\nhost: a\r\n\r\n")?;
//! }
//! if traced.connection().can_next()
//!     && let NextHead::Head(item) = traced.next()?
//! {
//!     traced.answer(&head, BodySize::ZERO)?;
//! }
//! let (_connection, recorder) = traced.into_parts();
//! let steps = recorder.steps();
//! ```
//!
//! # Contract
//!
//! A traced connection has the calls of its connection, each under the same condition. Where the traced connection stands for a trace, a call
//! answers what the connection answers, notes that step, and the traced connection then stands for the longer trace. Where memory runs
//! out, nothing is noted: the connection is as before, or has taken the event in, and the traced connection is done with.
//!
//! # Cost
//!
//! A recorder that doesn't listen costs nothing: no event is made as a value and no byte is copied.
#![tactic(auto)]

mod notes;
mod outcomes;
mod recorder;
mod traced;

pub use recorder::{NoRecord, Note, Recorder, VecRecorder};
pub use traced::Traced;
