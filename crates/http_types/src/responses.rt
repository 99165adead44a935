//! Responses.
mod builder;
mod head;
mod response;

pub use builder::{BuildError, ResponseBuilder};
pub use head::{BadReason, ResponseHead};
pub use response::Response;
