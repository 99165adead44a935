//! What a pull answers.
ghost use Rattle.std.specs.Prelude.{◌≡◌};
ghost use Rattle.h1_payload.specs.Answers.{is_last, is_fault};

use bytes::Bytes;
use http_map::HeaderMap;

/// What is wrong with a body.
#[derive(Clone, Copy, Debug, PartialEq, Eq)]
pub enum BodyFault {
    /// It breaks the grammar of chunks (RFC 7230, section 4.1).
    Corrupted,

    /// The input ended inside it.
    Incomplete,
}

/// What comes next of a body.
#[derive(Debug, Drop)]
pub enum Pulled {
    /// These bytes, of which there is one at least. They share the memory of the buffer.
    Bytes(Bytes),

    /// The trailers, of which there is one at least: after them the body has ended (RFC 7230, section 4.1.2).
    Trailers(HeaderMap),

    /// The body has ended.
    End,

    /// The body is broken.
    Broken(BodyFault),

    /// Nothing before more bytes are read.
    Pending,
}

impl Pulled {
    /// Whether nothing of the body follows.
    pub(crate) fn is_last(&self) -> bool
        ensures { result ≡ is_last self.now }
    {
        match self {
            Pulled::Trailers(_) => true,
            Pulled::End => true,
            _ => false,
        }
    }

    /// Whether the body is broken.
    pub(crate) fn is_fault(&self) -> bool
        ensures { result ≡ is_fault self.now }
    {
        match self {
            Pulled::Broken(_) => true,
            _ => false,
        }
    }
}
