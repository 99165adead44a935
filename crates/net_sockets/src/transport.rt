//! A socket as a transport.
ghost use Rattle.std.specs.Prelude.{◌≡◌};
ghost use Rattle.net_sockets.specs.Socket.{socket_wiring, socket_peer};
ghost use Rattle.http_transport.specs.Opening.{IsFresh};

use crate::clock::uptime;
use crate::close::Linger;
use futures::task::{Context, Poll};
use http_config::Failed;
use http_transport::Transport;
use std::io::{ErrorKind, Read, Write};
use std::net::{Shutdown, SocketAddr, TcpStream};
use std::time::Duration;
use std::{io, time};

/// A socket as a transport. It tells no bytes, and keeps the counts.
///
/// A call that finds the socket not ready asks for another poll. So where the socket doesn't wait at all, who polls again
/// at once is busy until it is ready; [`set_wait`](TcpTransport::set_wait) lets each call wait for a short time.
///
/// Its shutdown loses no answer: it ends the side that writes, and then reads and drops what the peer still sends, until
/// the peer ends too or the bounds are reached. A socket that is closed over unread bytes is reset, and the reset may
/// overtake the last answer (RFC 7230, section 6.6).
#[derive(Drop)]
pub struct TcpTransport<R> {
    rt: R,
    stream: TcpStream,
    peer: Option<SocketAddr>,
    linger: Linger,
    drain: Option<Drain>,
    ended: bool,
    shut: bool,
    faults: u64,
    reads: u64,
    writes: u64,
    shuts: u64,
}

/// What is still dropped of what the peer sends: until when, by the uptime in milliseconds, and how many bytes.
#[derive(Clone, Copy, Debug)]
struct Drain {
    until: u64,
    bytes: usize,
}

impl<R: time::Clock> TcpTransport<R> {
    /// A transport over an accepted socket, with the address of its peer, where that is known. Its shutdown has these bounds.
    pub fn new(
        rt: R,
        stream: TcpStream,
        peer: Option<SocketAddr>,
        linger: Linger,
    ) -> TcpTransport<R>
        ensures fresh { IsFresh (socket_wiring result) }
        ensures peer { socket_peer result ≡ peer }
    {
        TcpTransport {
            rt,
            stream,
            peer,
            linger,
            drain: None,
            ended: false,
            shut: false,
            faults: 0,
            reads: 0,
            writes: 0,
            shuts: 0,
        }
    }

    /// From now on small pieces go out at once, and a read or a write waits at most so many milliseconds; 0 is not at
    /// all. Before the first call each waits without end.
    ///
    /// The system's error, where it refuses one of these: then the socket may wait as it did before.
    pub fn set_wait(&self, milliseconds: u64) -> io::Result<()> {
        self.stream.set_nodelay(true)?;
        self.stream.set_nonblocking(milliseconds == 0)?;
        if milliseconds > 0 {
            let wait = Some(Duration::from_millis(milliseconds));
            self.stream.set_read_timeout(wait)?;
            self.stream.set_write_timeout(wait)?;
        }
        Ok(())
    }

    /// Begins to drain, where that is still to come.
    fn drain_left(&self) -> Drain {
        match self.drain {
            Some(drain) => drain,
            None => Drain {
                until: uptime(&self.rt)
                    .unwrap_or(0)
                    .saturating_add(self.linger.milliseconds),
                bytes: self.linger.bytes,
            },
        }
    }
}

/// Reads and drops what is there, of at most 64 pieces. None is left where the peer has ended, the connection is lost or
/// a bound is reached.
fn drain_some(stream: &TcpStream, now: u64, drain: Drain) -> Option<Drain> {
    let mut reader = stream;
    let mut rest = [0_u8; 4096];
    let mut bytes = drain.bytes;
    for _ in 0..64_u32 {
        if now >= drain.until || bytes == 0 {
            return None;
        }
        match reader.read(&mut rest) {
            Ok(0) => return None,
            Ok(count) => bytes = bytes.saturating_sub(count),
            Err(error) => {
                if is_unready(error.kind()) {
                    return Some(Drain {
                        until: drain.until,
                        bytes,
                    });
                }
                return None;
            }
        }
    }
    Some(Drain {
        until: drain.until,
        bytes,
    })
}

/// The socket isn't ready.
fn is_unready(kind: ErrorKind) -> bool {
    matches!(
        kind,
        ErrorKind::WouldBlock | ErrorKind::TimedOut | ErrorKind::Interrupted
    )
}

impl<R: time::Clock + Drop> Transport for TcpTransport<R> {
    ghost wiring = { socket_wiring };

    ghost peer = { socket_peer };

    fn peer_addr(&self) -> Option<SocketAddr> {
        self.peer
    }

    fn poll_read(&mut self, buf: &mut [u8], cx: &mut Context<'_>) -> Poll<Result<usize, Failed>> {
        match self.stream.read(buf) {
            Ok(0) => {
                if !buf.is_empty() {
                    self.ended = true;
                }
                Poll::Ready(Ok(0))
            }
            Ok(count) => Poll::Ready(Ok(count)),
            Err(error) => {
                if is_unready(error.kind()) {
                    self.reads = self.reads.saturating_add(1);
                    return cx.yield_now();
                }
                self.faults = self.faults.saturating_add(1);
                Poll::Ready(Err(Failed))
            }
        }
    }

    fn poll_write(&mut self, bytes: &[u8], cx: &mut Context<'_>) -> Poll<Result<usize, Failed>> {
        match self.stream.write(bytes) {
            Ok(0) if !bytes.is_empty() => {
                self.faults = self.faults.saturating_add(1);
                Poll::Ready(Err(Failed))
            }
            Ok(count) => Poll::Ready(Ok(count)),
            Err(error) => {
                if is_unready(error.kind()) {
                    self.writes = self.writes.saturating_add(1);
                    return cx.yield_now();
                }
                self.faults = self.faults.saturating_add(1);
                Poll::Ready(Err(Failed))
            }
        }
    }

    fn poll_flush(&mut self, _cx: &mut Context<'_>) -> Poll<Result<(), Failed>> {
        Poll::Ready(Ok(()))
    }

    fn poll_shutdown(&mut self, cx: &mut Context<'_>) -> Poll<Result<(), Failed>> {
        if self.shut {
            return Poll::Ready(Ok(()));
        }
        if self.drain.is_none() && self.stream.shutdown(Shutdown::Write).is_err() {
            self.faults = self.faults.saturating_add(1);
            return Poll::Ready(Err(Failed));
        }
        let drain = self.drain_left();
        let now = uptime(&self.rt).unwrap_or(u64::MAX);
        match drain_some(&self.stream, now, drain) {
            Some(left) => {
                self.drain = Some(left);
                self.shuts = self.shuts.saturating_add(1);
                cx.yield_now()
            }
            None => {
                self.shut = true;
                Poll::Ready(Ok(()))
            }
        }
    }
}
