//! Why a target has no path.
ghost use Rattle.std.specs.Prelude.{◌≡◌};
ghost use Rattle.http_files.specs.declared.error.PathError.TheVariants as path_error;

use std::alloc::AllocError;
use thiserror::Error;

/// Why a target has no path.
#[derive(Clone, Copy, Debug, PartialEq, Eq, Error)]
pub enum PathError {
    /// It is no text, or has a NUL byte.
    #[error("the path is malformed")]
    Malformed,

    /// It would leave the folder.
    #[error("the path leaves the folder")]
    Outside,

    /// Memory ran out.
    #[error("out of memory")]
    NoMemory,
}

impl From<AllocError> for PathError {
    ghost from_gives = { λ _ error. error ≡ path_error.NoMemory };

    fn from(_error: AllocError) -> PathError {
        PathError::NoMemory
    }
}
