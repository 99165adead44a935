//! A second look at a head that was read, by RFC 9110 and RFC 9112, where the engine is laxer: it takes over the rules of
//! actix-http, which follow RFC 7230.
//!
//! # Example
//!
//! ```ignore
//! match check_head(&item) {
//!     Ok(()) => serve(&item),
//!     Err(doubt) => match doubt.status() {
//!         Some(status) => refuse(status), // 400, and the connection closes
//!         None => serve_and_close(&item),
//!     },
//! }
//! ```
//!
//! # Contract
//!
//! The answer is the first doubt of `specs/Judgement`, in the order of `HeadDoubt`. No memory is taken.
#![tactic(auto)]

mod check;
mod doubt;
mod host;
mod options;

pub use check::check_head;
pub use doubt::HeadDoubt;
pub use host::is_host;
