//! A body with too many bytes.
use thiserror::Error;

/// The body has more bytes than the limit.
#[derive(Clone, Copy, Debug, PartialEq, Eq, Error)]
#[error("the body is larger than its limit")]
pub struct BodyLimitExceeded;
