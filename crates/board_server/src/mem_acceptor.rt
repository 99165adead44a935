//! An acceptor in memory.
ghost use Rattle.std.specs.Prelude.{◌≡◌};
ghost use Rattle.board_server.specs.MemAcceptors.{acceptor_opening, unused};

use bytes::Bytes;
use http_config::Failed;
use http_transport::{Acceptor, MemTransport};
use std::alloc::Global;
use std::collections::VecDeque;

/// What comes over a connection in memory: a `MemTransport` gives these pieces, takes as many bytes at each write as `room`
/// says, and fails the calls with the numbers in `fail`.
#[derive(Debug, Drop)]
pub struct MemPeer {
    /// The pieces.
    pub pieces: Vec<Bytes>,

    /// How many bytes each write takes at most.
    pub room: Vec<usize>,

    /// The calls that fail.
    pub fail: Vec<usize>,
}

/// An acceptor in memory: it gives a connection for each of these peers, one after another, and then answers that none follows.
/// Its calls are counted from 0, the one that opens it among them, and those listed fail.
#[derive(Drop)]
pub struct MemAcceptor {
    alloc: Global,
    peers: VecDeque<MemPeer>,
    fail: Vec<usize>,
    calls: usize,
    faults: u64,
    given: u64,
    ended: bool,
}

impl MemAcceptor {
    /// An acceptor that gives a connection for each of these peers, and fails the calls with the numbers in `fail`.
    pub fn new(alloc: Global, peers: Vec<MemPeer>, fail: Vec<usize>) -> MemAcceptor
        ensures fresh { acceptor_opening result ≡ unused }
    {
        MemAcceptor {
            alloc,
            peers: VecDeque::from_vec(peers),
            fail,
            calls: 0,
            faults: 0,
            given: 0,
            ended: false,
        }
    }

    /// Whether this call fails. It is counted.
    fn fails(&mut self) -> bool
        ensures { acceptor_opening self.new ≡ acceptor_opening self.old }
    {
        let call = self.calls;
        self.calls = self.calls.saturating_add(1);
        self.fail.as_slice().contains(&call)
    }
}

impl Acceptor for MemAcceptor {
    type Conn = MemTransport;

    ghost opening = { acceptor_opening };

    fn open(&mut self, _port: u16) -> Result<(), Failed> {
        if self.fails() {
            self.faults = self.faults.saturating_add(1);
            return Err(Failed);
        }
        Ok(())
    }

    fn accept(&mut self) -> Result<Option<MemTransport>, Failed> {
        if self.fails() {
            self.faults = self.faults.saturating_add(1);
            return Err(Failed);
        }
        match self.peers.pop_front() {
            Some(peer) => {
                self.given = self.given.saturating_add(1);
                let MemPeer { pieces, room, fail } = peer;
                Ok(Some(MemTransport::new(self.alloc, pieces, room, fail)))
            }
            None => {
                self.ended = true;
                Ok(None)
            }
        }
    }
}
