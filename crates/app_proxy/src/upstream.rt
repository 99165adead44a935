//! Connections to the server: new ones, and those that wait to be used again.
use crate::limits::Limits;
use crate::pool::{Idle, Pool};
use http_types::NoMemory;
use mio::net::TcpStream;
use mio::{Interest, Poll, Token};
use std::alloc::Global;
use std::net::SocketAddr;

/// How one is begun.
#[derive(Drop)]
pub enum Begun {
    /// One that was used before, and is there at once.
    Open(TcpStream),

    /// A new one, which is there once the socket may be written.
    Connecting(TcpStream),

    /// None is to be had.
    None,
}

/// Where the server is, and what waits to be used again.
#[derive(Drop)]
pub struct Upstream {
    rt: HostRuntime,
    address: SocketAddr,
    pool: Pool,
}

impl Upstream {
    /// The server at this address.
    pub fn new(rt: HostRuntime, alloc: Global, address: SocketAddr) -> Upstream {
        Upstream {
            rt,
            address,
            pool: Pool::new(alloc),
        }
    }

    /// A connection whose readiness is told under this token. The moment is of uptime.
    pub fn begin(&mut self, poll: &Poll, token: usize, limits: &Limits, uptime: u64) -> Begun {
        if let Some(idle) = self.pool.take(limits.reuse, uptime) {
            let mut stream = idle.into_stream();
            if register(poll, &mut stream, token) {
                return Begun::Open(stream);
            }
        }
        self.connect(poll, token)
    }

    // A new one.
    fn connect(&self, poll: &Poll, token: usize) -> Begun {
        let Ok(mut stream) = TcpStream::connect(&self.rt, self.address) else {
            return Begun::None;
        };
        // Small pieces go out at once.
        let _ = stream.set_nodelay(true);
        if register(poll, &mut stream, token) {
            return Begun::Connecting(stream);
        }
        Begun::None
    }

    /// Keeps a connection on which nothing is under way, where there is a place. It was last in use at this moment.
    pub fn keep(
        &mut self,
        poll: &Poll,
        mut stream: TcpStream,
        limits: &Limits,
        since: u64,
    ) -> Result<(), NoMemory> {
        if poll.registry().deregister(&mut stream).is_err() {
            return Ok(());
        }
        self.pool.keep(Idle::new(stream, since), limits.kept)
    }

    /// Closes those of the connections that wait on which something came, which the server has closed, or which have been idle
    /// for too long.
    pub fn sweep(&mut self, limits: &Limits, uptime: u64) {
        self.pool.sweep(limits.reuse, uptime);
    }
}

/// Has it told when the socket is ready. One that can't be is dropped.
pub fn register(poll: &Poll, stream: &mut TcpStream, token: usize) -> bool {
    let interests = Interest::READABLE | Interest::WRITABLE;
    poll.registry()
        .register(stream, Token(token), interests)
        .is_ok()
}
