//! The heads that a forwarder (a reverse proxy) passes on (RFC 9110, section 7; RFC 9112, section 3): of a request's head the
//! one by which a server is asked, and of an answer's head the one that the client gets.
//!
//! # Example
//!
//! ```ignore
//! let edge = Edge::new(alloc, client, server)?;
//! if is_refused(&edge, &item) {
//!     return answer(Refusal::BadHead.head(alloc), BodySize::Sized(0));
//! }
//! if !is_forwardable(&edge, &item) {
//!     return answer(Refusal::NotForwardable.head(alloc), BodySize::Sized(0));
//! }
//! let size = forwarded_size(&item);
//! let head = forwarded_head(alloc, &edge, item)?;
//! put_request_head(&mut out, &head, size, head.connection_type(), now)?;
//! ```
//!
//! # Contract
//!
//! Which heads are refused, which requests are sent on, which answers are passed on, and the heads and sizes of both are
//! those of `model_proxy`. No line that frames a body goes on as it came, and no line that is for one connection alone goes
//! on. Out of memory is the only error of `forwarded_head` and `reply_head`, and the others have none.
#![tactic(auto)]

mod edge;
mod forwarded_request;
mod hops;
mod judged;
mod own_lines;
mod refusal;
mod replies;
mod targets;
mod words;

pub use edge::Edge;
pub use forwarded_request::{forwarded_head, forwarded_size, is_forwardable};
pub use judged::is_refused;
pub use refusal::Refusal;
pub use replies::{AnswerUse, answer_use, reply_head, reply_size, says_close};
