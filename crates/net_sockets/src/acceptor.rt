//! A listener as an acceptor.
ghost use Rattle.std.specs.Prelude.{◌≡◌};
ghost use Rattle.net_sockets.specs.Acceptor.{acceptor_opening, unused};

use crate::close::Linger;
use crate::error::AcceptError;
use crate::listener::{Accepted, Listener};
use crate::transport::TcpTransport;
use http_config::Failed;
use http_transport::Acceptor;
use std::net::{Ipv4Addr, Net, SocketAddr, TcpListener, TcpStream};
use std::time;

/// Connections to a port of this machine, at 127.0.0.1. It never answers that none follows.
#[derive(Drop)]
pub struct TcpAcceptor<R> {
    rt: R,
    listener: Option<Listener>,
    wait: u64,
    linger: Linger,
    faults: u64,
    given: u64,
}

impl<R> TcpAcceptor<R> {
    /// An acceptor that isn't open yet. A read or a write of its connections waits at most so many milliseconds, 0 is not at
    /// all, and their shutdown has these bounds.
    pub fn new(rt: R, wait: u64, linger: Linger) -> TcpAcceptor<R>
        ensures fresh { acceptor_opening result ≡ unused }
    {
        TcpAcceptor {
            rt,
            listener: None,
            wait,
            linger,
            faults: 0,
            given: 0,
        }
    }

    /// The address that is listened on, once it is open, with the port that the system chose where that was to be 0.
    pub fn address(&self) -> Option<SocketAddr> {
        self.listener.as_ref()?.address()
    }
}

impl<R> Acceptor for TcpAcceptor<R>
where
    R: Net<Stream = TcpStream, Listener = TcpListener> + time::Clock + Copy + Send + Drop,
{
    type Conn = TcpTransport<R>;

    ghost opening = { acceptor_opening };

    fn open(&mut self, port: u16) -> Result<(), Failed> {
        match Listener::bind(&self.rt, (Ipv4Addr::LOCALHOST, port)) {
            Ok(listener) => {
                self.listener = Some(listener);
                Ok(())
            }
            Err(_) => {
                self.faults = self.faults.saturating_add(1);
                Err(Failed)
            }
        }
    }

    fn accept(&mut self) -> Result<Option<TcpTransport<R>>, Failed> {
        match next_stream(&self.listener) {
            Some(Accepted { stream, peer }) => {
                self.given = self.given.saturating_add(1);
                let transport = TcpTransport::new(self.rt, stream, Some(peer), self.linger);
                // A socket that refuses to be set is lost, and its first read says so.
                let _ = transport.set_wait(self.wait);
                Ok(Some(transport))
            }
            None => {
                self.faults = self.faults.saturating_add(1);
                Err(Failed)
            }
        }
    }
}

/// The next connection of those whose peer didn't take it back.
fn next_stream(listener: &Option<Listener>) -> Option<Accepted> {
    let listener = listener.as_ref()?;
    for _ in 0..u32::MAX {
        match listener.accept() {
            Ok(accepted) => return Some(accepted),
            Err(AcceptError::Gone) => {}
            Err(_) => return None,
        }
    }
    None
}
