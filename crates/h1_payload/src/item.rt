//! What a payload decoder answers.
ghost use Rattle.std.specs.Prelude.{◌≡◌, IfOk};

use bytes::Bytes;
use http_map::{HeaderMap, NoMemory};
use thiserror::Error;

/// A piece of a body.
#[derive(Debug, Drop)]
pub enum PayloadItem {
    /// Bytes of the body, of which there is one at least. They share the memory of the buffer.
    Chunk(Bytes),

    /// The trailers of a body in chunks, of which there is one at least: its end follows (RFC 7230, section 4.1.2).
    Trailers(HeaderMap),

    /// The body has ended.
    Eof,
}

impl PayloadItem {
    /// An equal piece, as `clone` gives it too. A chunk's bytes are shared.
    pub fn copy(&self) -> Result<PayloadItem, NoMemory>
        ensures { IfOk result (λ copy. copy ≡ self.now) }
    {
        match self {
            PayloadItem::Chunk(bytes) => Ok(PayloadItem::Chunk(bytes.clone()?)),
            PayloadItem::Trailers(trailers) => Ok(PayloadItem::Trailers(trailers.copy()?)),
            PayloadItem::Eof => Ok(PayloadItem::Eof),
        }
    }
}

impl Clone for PayloadItem {
    ghost is_clone = { λ item copy. copy ≡ item };

    fn clone(&self) -> Result<PayloadItem, NoMemory> {
        self.copy()
    }
}

/// Why bytes give no piece of a body.
#[derive(Clone, Copy, Debug, PartialEq, Eq, Error)]
pub enum DecodeError {
    /// The bytes break the grammar of chunks (RFC 7230, section 4.1).
    #[error("the chunks of the body are malformed")]
    Invalid,

    /// There was no memory.
    #[error("no memory is left")]
    NoMemory,
}
