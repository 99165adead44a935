//! What lies at a path.
use http_files::FilePath;
use http_types::StatusCode;
use std::fs;
use std::fs::Metadata;
use std::io::{Error, ErrorKind};
use std::time::UNIX_EPOCH;

/// Why a file or a folder can't be read.
#[derive(Clone, Copy)]
pub enum Unread {
    /// There is none.
    Missing,

    /// It may not be read.
    Forbidden,

    /// The system can't read it.
    Broken,

    /// Memory ran out.
    NoMemory,
}

impl Unread {
    /// What an error of the system says.
    pub fn of(error: &Error) -> Unread {
        match error.kind() {
            ErrorKind::PermissionDenied => Unread::Forbidden,
            ErrorKind::NotFound
            | ErrorKind::NotADirectory
            | ErrorKind::InvalidFilename
            | ErrorKind::FilesystemLoop => Unread::Missing,
            _ => Unread::Broken,
        }
    }

    /// The status of the answer that says so.
    pub fn status(self) -> StatusCode {
        match self {
            Unread::Missing => StatusCode::NOT_FOUND,
            Unread::Forbidden => StatusCode::FORBIDDEN,
            Unread::Broken | Unread::NoMemory => StatusCode::INTERNAL_SERVER_ERROR,
        }
    }
}

/// What is known of what lies at a path.
pub fn look(rt: &HostRuntime, path: &FilePath) -> Result<Metadata, Unread> {
    fs::metadata(rt, path.as_str()).map_err(|error| Unread::of(&error))
}

/// Whether a file lies at a path.
pub fn is_file(rt: &HostRuntime, path: &FilePath) -> bool {
    match look(rt, path) {
        Ok(metadata) => metadata.is_file(),
        Err(_) => false,
    }
}

/// When it was changed, in seconds after the start of 1970 and nanoseconds, where that is known.
pub fn stamp(metadata: &Metadata) -> Option<(u64, u32)> {
    let changed = metadata.modified().ok()?;
    let since = changed.duration_since(UNIX_EPOCH).ok()?;
    Some((since.as_secs(), since.subsec_nanos()))
}
