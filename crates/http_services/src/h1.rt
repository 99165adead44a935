//! The queue of a request's body.
mod queue;
mod receive;
mod send;

pub use queue::Payload;
pub use send::{PayloadSender, PayloadStatus};
