//! A socket that listens.
use crate::error::{AcceptError, BindError};
use std::io::{Error, ErrorKind};
use std::net::{Net, SocketAddr, TcpListener, TcpStream, ToSocketAddrs};

// The system's numbers of errors that say that something has run out: descriptors of the system, of the program, memory
// for sockets, memory.
const ENFILE: i32 = 23;

const EMFILE: i32 = 24;

const ENOBUFS: i32 = 105;

const ENOMEM: i32 = 12;

/// A socket that listens.
#[derive(Drop)]
pub struct Listener {
    listener: TcpListener,
}

/// A connection that was accepted, and who made it.
#[derive(Drop)]
pub struct Accepted {
    pub stream: TcpStream,
    pub peer: SocketAddr,
}

impl Listener {
    /// Listens on an address, of IPv4 or IPv6. A host's name is looked up, and the first of its addresses that can be
    /// listened on is taken; port 0 is one that the system chooses.
    pub fn bind<R: Net<Stream = TcpStream, Listener = TcpListener>, A: ToSocketAddrs>(
        rt: &R,
        address: A,
    ) -> Result<Listener, BindError> {
        match TcpListener::bind(rt, address) {
            Ok(listener) => Ok(Listener { listener }),
            Err(error) => Err(refusal_of(&error)),
        }
    }

    /// The address that is listened on, with its port, where the system tells it.
    pub fn address(&self) -> Option<SocketAddr> {
        self.listener.local_addr().ok()
    }

    /// Waits for the next connection. After an error the next call may accept one.
    pub fn accept(&self) -> Result<Accepted, AcceptError> {
        match self.listener.accept() {
            Ok((stream, peer)) => Ok(Accepted { stream, peer }),
            Err(error) => Err(failure_of(&error)),
        }
    }
}

fn refusal_of(error: &Error) -> BindError {
    if has_run_out(error) {
        return BindError::NoDescriptors;
    }
    match error.kind() {
        ErrorKind::AddrInUse => BindError::Taken,
        ErrorKind::AddrNotAvailable | ErrorKind::NotFound | ErrorKind::InvalidInput => {
            BindError::NoSuchAddress
        }
        ErrorKind::PermissionDenied => BindError::Forbidden,
        _ => BindError::Refused,
    }
}

fn failure_of(error: &Error) -> AcceptError {
    if has_run_out(error) {
        return AcceptError::NoDescriptors;
    }
    match error.kind() {
        ErrorKind::ConnectionAborted | ErrorKind::ConnectionReset | ErrorKind::Interrupted => {
            AcceptError::Gone
        }
        _ => AcceptError::Failed,
    }
}

fn has_run_out(error: &Error) -> bool {
    let code = error.raw_os_error().unwrap_or(0);
    matches!(code, ENFILE | EMFILE | ENOBUFS | ENOMEM)
}
