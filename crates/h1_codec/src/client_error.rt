//! Why a client's codec gives no item.
use http_types::ParseError;
use thiserror::Error;

/// Why a client's codec gives no item.
#[derive(Clone, Copy, Debug, PartialEq, Eq, Error)]
pub enum ClientError {
    /// The bytes are refused, or there was no memory.
    #[error("{0}")]
    Parse(ParseError),

    /// The other codec reads what comes next: a `ClientPayloadCodec` while a body is open, and else a `ClientCodec`.
    #[error("the other codec reads what comes next")]
    Misplaced,
}
