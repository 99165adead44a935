//! A connection to a server.
ghost use Rattle.std.specs.Prelude.{◌≡◌, true, IsTrue, IfOk};
ghost use Rattle.std.specs.Io.KnownBytes.{Keeps};
ghost use Rattle.http_config.specs.Causes.{Rose};
ghost use Rattle.model_client.specs.ClientKept.{is_reusable};
ghost use Rattle.app_get.specs.Places.{is_place_of, IsAt};

use crate::error::GetError;
use crate::target::Target;
use h1_client::ClientConnection;
use http_types::{ServiceConfig, Source};
use net_sockets::{SocketSource, TimedSource, prepare};
use std::alloc::Global;
use std::io;
use std::io::ErrorKind;
use std::net::{Net, SocketAddr, TcpListener, TcpStream, ToSocketAddrs};
use std::time::{Clock, Duration};

/// A connection to a server, and who that is.
#[derive(Drop)]
pub struct Link {
    pub stream: TcpStream,
    pub connection: ClientConnection,
    pub place: Place,
}

/// Where a server is.
#[derive(Drop)]
pub struct Place {
    // As its URL names it: an address of IPv6 in brackets.
    host: String,
    port: u16,
}

impl Link {
    /// A new connection. Each address of the host is tried for so many milliseconds.
    pub fn open<R: Net<Stream = TcpStream, Listener = TcpListener>>(
        rt: &R,
        alloc: Global,
        target: &Target,
        wait: u64,
    ) -> Result<Link, GetError>
        ensures { IfOk result (λ link. IsAt link.place target.now) }
    {
        let host = String::from_str(alloc, target.named_host())?;
        let stream = connect(rt, target, wait)?;
        // Small pieces go out at once.
        if prepare(&stream, wait).is_err() {
            return Err(GetError::Unreachable);
        }
        Ok(Link {
            stream,
            connection: ClientConnection::new(alloc, ServiceConfig::default()),
            place: Place {
                host,
                port: target.port,
            },
        })
    }

    /// Whether a request for this target may be asked over it: it leads there, all that was asked over it is answered, and
    /// since then the server has neither closed it nor sent a byte, which nobody would have asked for.
    pub fn serves<R: Clock>(&self, rt: &R, target: &Target) -> bool
        ensures free { IsTrue result → is_reusable self.now.connection.kept ≡ true }
        ensures place { IsTrue result → is_place_of self.now.place target.now ≡ true }
    {
        let mut source = SocketSource::new(rt, &self.stream);
        self.may_be_used(target, &mut source)
    }

    // The same, where this is what comes over it.
    fn may_be_used<S: TimedSource>(&self, target: &Target, source: &mut S) -> bool
        ensures free { IsTrue result → is_reusable self.now.connection.kept ≡ true }
        ensures place { IsTrue result → is_place_of self.now.place target.now ≡ true }
        ensures quiet { IsTrue result → Rose (S.faults source.old) (S.faults source.new) × Keeps (S.left source.old) (S.left source.new) }
    {
        self.place.is_of(target) && self.connection.is_reusable() && is_quiet(source)
    }
}

impl Place {
    fn is_of(&self, target: &Target) -> bool
        ensures { result ≡ is_place_of self.now target.now }
    {
        self.port == target.port && self.host.as_str() == target.named_host()
    }
}

// Whether neither a byte nor the end has come. A byte that has is taken.
fn is_quiet<S: TimedSource>(source: &mut S) -> bool
    ensures { IsTrue result → Rose (S.faults source.old) (S.faults source.new) × Keeps (S.left source.old) (S.left source.new) }
{
    source.wait_at_most(0);
    let mut byte = [0_u8; 1];
    match source.read(&mut byte) {
        Ok(_) => false,
        Err(_) => source.is_not_now(),
    }
}

fn connect<R: Net<Stream = TcpStream, Listener = TcpListener>>(
    rt: &R,
    target: &Target,
    wait: u64,
) -> Result<TcpStream, GetError> {
    let Ok(addresses) = (target.host(), target.port).to_socket_addrs(rt) else {
        return Err(GetError::Host);
    };
    let mut last = GetError::Host;
    for address in addresses {
        match connect_to(rt, &address, wait) {
            Ok(stream) => return Ok(stream),
            Err(error) => last = error,
        }
    }
    Err(last)
}

fn connect_to<R: Net<Stream = TcpStream, Listener = TcpListener>>(
    rt: &R,
    address: &SocketAddr,
    wait: u64,
) -> Result<TcpStream, GetError> {
    match TcpStream::connect_timeout(rt, address, Duration::from_millis(wait)) {
        Ok(stream) => Ok(stream),
        Err(error) => Err(failure(&error)),
    }
}

fn failure(error: &io::Error) -> GetError {
    match error.kind() {
        ErrorKind::ConnectionRefused => GetError::Refused,
        ErrorKind::TimedOut => GetError::Late,
        ErrorKind::OutOfMemory => GetError::NoMemory,
        _ => GetError::Unreachable,
    }
}
