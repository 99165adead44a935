//! Why no item came.
use thiserror::Error;

/// Why no item came.
#[derive(Clone, Copy, Debug, PartialEq, Eq, Error)]
pub enum FramedError<E> {
    /// The codec refuses the bytes, or had no memory.
    #[error("the bytes are refused")]
    Codec(E),

    /// The transport failed.
    #[error("the transport failed")]
    Io,

    /// There was no memory to read on. Nothing is lost.
    #[error("no memory is left")]
    NoMemory,
}
