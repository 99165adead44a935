//! Why there is no listener, and why no connection was accepted.
use thiserror::Error;

/// Why an address isn't listened on.
#[derive(Clone, Copy, Debug, PartialEq, Eq, Error)]
pub enum BindError {
    /// Another program listens there.
    #[error("the port is taken")]
    Taken,

    /// This machine has no such address, or the text is none.
    #[error("this machine has no such address")]
    NoSuchAddress,

    /// The port is one that this program may not take, as those below 1024 often are.
    #[error("this port may not be taken by this program")]
    Forbidden,

    /// There are no descriptors left.
    #[error("there are too many open files")]
    NoDescriptors,

    /// The system says no, for another reason.
    #[error("the system refuses to listen there")]
    Refused,
}

/// Why no connection was accepted. The listener goes on.
#[derive(Clone, Copy, Debug, PartialEq, Eq, Error)]
pub enum AcceptError {
    /// The peer took its connection back before it was accepted.
    #[error("the peer went away before it was accepted")]
    Gone,

    /// There are no descriptors left, or no memory for the socket. Some may be freed by and by.
    #[error("there are too many open files")]
    NoDescriptors,

    /// Another failure.
    #[error("no connection can be accepted")]
    Failed,
}
