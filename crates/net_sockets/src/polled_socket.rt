//! Both directions of a socket that doesn't wait, as a source and as a sink.
ghost use Rattle.std.specs.Prelude.{◌≡◌, None};

use crate::Stall;
use http_types::{Failed, Sink, Source};
use mio::net::TcpStream;
use std::io::{ErrorKind, Read, Write};

/// A source or a sink that may have nothing to give or to take just now.
pub trait Polled {
    /// Whether the last call failed only because it would have had to wait.
    fn is_not_now(&self) -> bool;
}

/// A socket that is read from. It tells no bytes ahead.
#[derive(Drop)]
pub struct Incoming<'a> {
    stream: &'a TcpStream,
    faults: u64,
    stall: Option<Stall>,
}

impl<'a> Incoming<'a> {
    /// A source of what the socket gives. No call of it has failed.
    pub fn new(stream: &'a TcpStream) -> Incoming<'a>
        ensures fresh { result.faults ≡ 0 }
    {
        Incoming {
            stream,
            faults: 0,
            stall: None,
        }
    }
}

impl<'a> Polled for Incoming<'a> {
    fn is_not_now(&self) -> bool {
        matches!(self.stall, Some(Stall::NotNow))
    }
}

impl<'a> Source for Incoming<'a> {
    ghost left = { λ _. None };

    ghost faults = { λ s. s.faults };

    fn read(&mut self, buf: &mut [u8]) -> Result<usize, Failed> {
        let mut stream = self.stream;
        match stream.read(buf) {
            Ok(count) => {
                self.stall = None;
                Ok(count)
            }
            Err(error) => {
                self.stall = Some(stall_of(error.kind()));
                self.faults = self.faults.saturating_add(1);
                Err(Failed)
            }
        }
    }
}

/// A socket that is written to. It keeps no copy of what it was given.
#[derive(Drop)]
pub struct Outgoing<'a> {
    stream: &'a TcpStream,
    faults: u64,
    stall: Option<Stall>,
}

impl<'a> Outgoing<'a> {
    /// A sink into the socket. No call of it has failed.
    pub fn new(stream: &'a TcpStream) -> Outgoing<'a>
        ensures fresh { result.faults ≡ 0 }
    {
        Outgoing {
            stream,
            faults: 0,
            stall: None,
        }
    }
}

impl<'a> Polled for Outgoing<'a> {
    fn is_not_now(&self) -> bool {
        matches!(self.stall, Some(Stall::NotNow))
    }
}

impl<'a> Sink for Outgoing<'a> {
    ghost given = { λ _. None };

    ghost faults = { λ s. s.faults };

    fn write(&mut self, bytes: &[u8]) -> Result<usize, Failed> {
        let mut stream = self.stream;
        let stall = match stream.write(bytes) {
            Ok(0) if !bytes.is_empty() => Stall::Lost,
            Ok(count) => {
                self.stall = None;
                return Ok(count);
            }
            Err(error) => stall_of(error.kind()),
        };
        self.stall = Some(stall);
        self.faults = self.faults.saturating_add(1);
        Err(Failed)
    }
}

fn stall_of(kind: ErrorKind) -> Stall {
    match kind {
        ErrorKind::WouldBlock | ErrorKind::TimedOut | ErrorKind::Interrupted => Stall::NotNow,
        _ => Stall::Lost,
    }
}
