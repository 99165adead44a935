//! Why a message could not be sent.
use thiserror::Error;

/// Why a message could not be sent.
#[derive(Clone, Copy, Debug, PartialEq, Eq, Error)]
pub enum SendError<E> {
    /// The body failed, with a number of its own.
    #[error("the body failed with {0}")]
    Body(u32),

    /// The body had no memory for its next chunk.
    #[error("the body has no memory")]
    NoMemory,

    /// The transport failed.
    #[error("the transport failed")]
    Transport,

    /// The codec refuses the head, a chunk or the end, or had no memory.
    #[error("the message could not be written")]
    Codec(E),
}
