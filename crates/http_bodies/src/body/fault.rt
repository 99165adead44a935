//! Why a body gives no chunk.
use thiserror::Error;

/// Why a body, or a stream of pieces, gives no chunk.
#[derive(Clone, Copy, Debug, PartialEq, Eq, Error)]
pub enum BodyFault {
    /// The body failed, with a number of its own.
    #[error("the body failed with {0}")]
    Body(u32),
    /// There was no memory. Nothing was lost: the same chunks are still to come, and it may be polled again.
    #[error("no memory is left")]
    NoMemory,
}
