//! Both directions of a socket, each of which tells 'not now' from a failure.
ghost use Rattle.std.specs.Prelude.{None};

use crate::clock;
use crate::timed::{TimedSink, TimedSource};
use http_types::{Failed, Sink, Source};
use std::io;
use std::io::{ErrorKind, Read, Write};
use std::net::TcpStream;
use std::time::{Clock, Duration};

/// Why no byte went through a socket.
#[derive(Clone, Copy, Debug, PartialEq, Eq)]
pub enum Stall {
    /// None came, or none was taken, in the time that was given.
    NotNow,

    /// The connection is lost.
    Lost,
}

/// Sets an accepted socket: small pieces go out at once, and a write waits at most so many milliseconds, of which there
/// is at least one.
pub fn prepare(stream: &TcpStream, write_wait: u64) -> io::Result<()> {
    stream.set_nodelay(true)?;
    stream.set_write_timeout(Some(Duration::from_millis(write_wait.max(1))))
}

/// A socket that is read from. It tells no bytes ahead.
#[derive(Drop)]
pub struct SocketSource<'a, R> {
    rt: &'a R,
    stream: &'a TcpStream,
    faults: u64,
    stall: Option<Stall>,
}

impl<'a, R: Clock> SocketSource<'a, R> {
    /// A source of what the socket gives.
    pub fn new(rt: &'a R, stream: &'a TcpStream) -> SocketSource<'a, R> {
        SocketSource {
            rt,
            stream,
            faults: 0,
            stall: None,
        }
    }

    /// Why the last read gave nothing, where it failed.
    pub fn stall(&self) -> Option<Stall> {
        self.stall
    }
}

impl<'a, R: Clock> Source for SocketSource<'a, R> {
    ghost left = { λ _. None };

    ghost faults = { λ s. s.faults };

    fn read(&mut self, buf: &mut [u8]) -> Result<usize, Failed> {
        let mut stream = self.stream;
        match stream.read(buf) {
            Ok(count) => {
                self.stall = None;
                Ok(count)
            }
            Err(error) => {
                self.stall = Some(stall_of(error.kind()));
                self.faults = self.faults.saturating_add(1);
                Err(Failed)
            }
        }
    }
}

impl<'a, R: Clock> TimedSource for SocketSource<'a, R> {
    fn is_not_now(&self) -> bool {
        matches!(self.stall, Some(Stall::NotNow))
    }

    fn wait_at_most(&self, milliseconds: u64) {
        // A socket that refuses to be set is lost, and the next read says so.
        let _ = self.stream.set_nonblocking(milliseconds == 0);
        if milliseconds > 0 {
            let wait = Duration::from_millis(milliseconds);
            let _ = self.stream.set_read_timeout(Some(wait));
        }
    }

    fn moment(&self) -> Option<u64> {
        clock::moment(self.rt)
    }

    fn uptime(&self) -> Option<u64> {
        clock::uptime(self.rt)
    }
}

/// A socket that is written to. It keeps no copy of what it was given.
#[derive(Drop)]
pub struct SocketSink<'a> {
    stream: &'a TcpStream,
    faults: u64,
    stall: Option<Stall>,
}

impl<'a> SocketSink<'a> {
    /// A sink into the socket.
    pub fn new(stream: &'a TcpStream) -> SocketSink<'a> {
        SocketSink {
            stream,
            faults: 0,
            stall: None,
        }
    }

    /// Why the last write took nothing, where it failed.
    pub fn stall(&self) -> Option<Stall> {
        self.stall
    }
}

impl<'a> Sink for SocketSink<'a> {
    ghost given = { λ _. None };

    ghost faults = { λ s. s.faults };

    fn write(&mut self, bytes: &[u8]) -> Result<usize, Failed> {
        let mut stream = self.stream;
        let stall = match stream.write(bytes) {
            Ok(0) if !bytes.is_empty() => Stall::Lost,
            Ok(count) => {
                self.stall = None;
                return Ok(count);
            }
            Err(error) => stall_of(error.kind()),
        };
        self.stall = Some(stall);
        self.faults = self.faults.saturating_add(1);
        Err(Failed)
    }
}

impl<'a> TimedSink for SocketSink<'a> {
    fn is_not_now(&self) -> bool {
        matches!(self.stall, Some(Stall::NotNow))
    }
}

fn stall_of(kind: ErrorKind) -> Stall {
    match kind {
        ErrorKind::WouldBlock | ErrorKind::TimedOut | ErrorKind::Interrupted => Stall::NotNow,
        _ => Stall::Lost,
    }
}
