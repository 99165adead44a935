//! Requests.
mod head;
mod head_type;
mod request;

pub use head::RequestHead;
pub use head_type::RequestHeadType;
pub use request::Request;
