//! Generated exchanges: a run of many requests that anybody can repeat, named by a seed and a count. For `h1_replay`, and for
//! tests.
//!
//! - [`generate`] makes the events, which `h1_connection::drive` brings to a new connection; [`summary_of`] does both and
//!   sums up what came of them.
//! - `generated`, in `specs/Generated.antt`, says which events: a tick at 0, then each exchange, drawn by a state of 64 bits. A
//!   GET, a HEAD or a POST comes whole in one read, its body is pulled, it is answered with 200, and what waits is written.
//! - `counts_of` and `summary_text`, in `specs/Summary.antt`, sum up a run.
//!
//! # Example
//!
//! ```ignore
//! let events = h1_generated::generate(alloc, 7, 20000)?;
//! let trace = h1_connection::drive(alloc, &ServiceConfig::default(), &events)?;
//! ```
//!
//! # Contract
//!
//! The events are exactly those of the definition. Each is allowed where it comes; after the last as many heads were handed
//! out as there are exchanges, nothing waits to be written, and the connection is open ([`generated`], [`laws`]). A summary
//! is that of their one trace. [`examples`] has what the seed 0 makes first.
#![tactic(auto)]

mod draw;
mod events;
pub mod examples;
pub mod generated;
pub mod laws;
mod request;
mod summary;

pub use events::generate;
pub use summary::{MAX_COUNT, summary_of};
