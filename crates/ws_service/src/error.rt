//! Why an upgraded connection breaks off.
use http_types::Error;
use thiserror::Error as ThisError;

/// Why an upgraded connection breaks off.
#[derive(Clone, Copy, Debug, PartialEq, Eq, ThisError)]
pub enum UpgradeError {
    /// The service failed with this error.
    #[error("the upgrade failed")]
    Upgrade(Error),

    /// A read, a write or a shutdown failed.
    #[error("a read or a write failed")]
    Io,

    /// The peer took too long to take what was left.
    #[error("the end of the connection took too long")]
    DisconnectTimeout,

    /// The connection doesn't speak WebSocket, or had ended before it was handed over.
    #[error("the connection was not upgraded")]
    NotUpgraded,

    /// There was no memory.
    #[error("no memory is left")]
    NoMemory,
}
