//! Why a connection is served no longer.
use http_types::DispatchError;
use thiserror::Error;

/// Why a connection is served no longer.
#[derive(Clone, Copy, Debug, PartialEq, Eq, Error)]
pub enum ServeError {
    /// Its dispatcher answered this.
    #[error("the connection broke off: {0}")]
    Dispatch(DispatchError),

    /// It was polled as often as it may be, and each poll was pending.
    #[error("the connection was polled as often as it may be")]
    Budget,

    /// There was no memory.
    #[error("no memory is left")]
    NoMemory,
}
