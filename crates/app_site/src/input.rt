//! The standard input, as what ends the server.
use mio::unix::SourceFd;
use mio::{Events, Interest, Poll, Token};
use std::alloc::{AllocGlobal, Global};
use std::io;
use std::net::Net;

/// The descriptor of the standard input.
const STANDARD_INPUT: i32 = 0;

/// Tells when the standard input ends or has a line.
#[derive(Drop)]
pub struct InputWatch {
    poll: Poll,
    events: Events<Global>,
}

impl InputWatch {
    /// There is none where the input can't be watched, as a file.
    pub fn new<R: Net + AllocGlobal>(rt: &R) -> io::Result<Option<InputWatch>> {
        let poll = Poll::new(rt)?;
        let events = Events::with_capacity(rt.alloc(), 1)?;
        let mut source = SourceFd(&STANDARD_INPUT);
        let watched = poll
            .registry()
            .register(&mut source, Token(0), Interest::READABLE);
        match watched {
            Ok(()) => Ok(Some(InputWatch { poll, events })),
            Err(_) => Ok(None),
        }
    }

    /// Waits until it has ended, or has a line.
    pub fn wait(mut self) {
        for _ in 0..u64::MAX {
            if self.poll.poll(&mut self.events, None).is_err() || !self.events.is_empty() {
                return;
            }
        }
    }
}
