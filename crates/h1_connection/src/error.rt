//! Why a run of events stopped, and why nothing was read from a source.
ghost use Rattle.h1_connection.specs.declared.error.DriveError.TheVariants as drive_error;
ghost use Rattle.h1_connection.specs.declared.error.ReadFromError.TheVariants as read_from_error;
ghost use Rattle.std.specs.Prelude.{◌≡◌};

use crate::Trace;
use http_types::NoMemory;
use thiserror::Error;

/// Why a run of events was not a whole one.
#[derive(Debug, Drop, Error)]
pub enum DriveError<'a> {
    /// The event at this place, from 0, was not allowed after the trace of those before it.
    #[error("event {0} is misplaced")]
    Misplaced(usize, Trace<'a>),

    /// There was no memory.
    #[error("no memory is left")]
    NoMemory,
}

impl<'a> From<NoMemory> for DriveError<'a> {
    ghost from_gives = { λ _ error. error ≡ drive_error.NoMemory };

    fn from(_error: NoMemory) -> DriveError<'a> {
        DriveError::NoMemory
    }
}

/// Why a connection read nothing from a source.
#[derive(Clone, Copy, Debug, PartialEq, Eq, Error)]
pub enum ReadFromError {
    /// As many bytes are held as may be. The source wasn't asked.
    #[error("there is no room for more bytes")]
    Full,

    /// The source failed. The same bytes are left in it.
    #[error("the source failed")]
    Failed,

    /// There was no memory. The source wasn't asked.
    #[error("no memory is left")]
    NoMemory,
}

impl From<NoMemory> for ReadFromError {
    ghost from_gives = { λ _ error. error ≡ read_from_error.NoMemory };

    fn from(_error: NoMemory) -> ReadFromError {
        ReadFromError::NoMemory
    }
}
