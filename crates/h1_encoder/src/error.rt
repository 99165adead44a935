//! Why something was not encoded.
ghost use Rattle.std.specs.Prelude.{◌≡◌};
ghost use Rattle.h1_encoder.specs.declared.error.EncodeError.TheVariants as errors;

use http_types::NoMemory;
use thiserror::Error;

/// Why a message was not encoded.
#[derive(Clone, Copy, Debug, PartialEq, Eq, Error)]
pub enum EncodeError {
    /// The body ended, and so many bytes of its stated length are missing.
    #[error("{0} bytes of the body are missing")]
    Short(u64),

    /// A request is written in HTTP/1.0 and HTTP/1.1 alone.
    #[error("a request of this version is not written")]
    Version,

    /// There was no memory.
    #[error("no memory is left")]
    NoMemory,
}

impl From<NoMemory> for EncodeError {
    ghost from_gives = { λ _ error. error ≡ errors.NoMemory };

    fn from(_error: NoMemory) -> EncodeError {
        EncodeError::NoMemory
    }
}
