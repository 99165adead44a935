//! A transport in memory.
ghost use Rattle.std.specs.Prelude.{◌≡◌, ◌≤◌, ◌<◌, ◌⊎◌, true, ◌↔◌, OnOk, length};
ghost use Rattle.futures.specs.Task.{IsArmed, Keeps};
ghost use Rattle.futures.specs.Poll.{OnPending};
ghost use Rattle.http_config.specs.Causes.{counted};
ghost use Rattle.http_transport.specs.MemTransports.{fresh, fails_next, IsFailed, UsesRoom, ReadsLeft, WritesBy};
ghost use Rattle.http_transport.specs.MemTold.{known};
ghost use Rattle.http_transport.specs.Wiring.{ReadSays, WriteSays, FlushSays, ShutSays};

mod calls;
mod pieces;

use crate::Transport;
use bytes::{Bytes, BytesMut};
use calls::Calls;
use futures::task::{Context, Poll};
use http_config::Failed;
use pieces::{Front, Pieces};
use std::alloc::{AllocError, Global};
use std::collections::VecDeque;
use std::marker::Model;
use std::net::SocketAddr;

/// A transport in memory: it gives pieces of bytes, and keeps what it received and what was sent.
///
/// A read gives bytes of one piece. An empty piece makes one read pending, and after the last piece the input ends.
/// Each write takes as many bytes as its room says, and after the last room all. A room of 0 makes one write pending.
/// The calls are counted from 0, and those listed fail. A read or a write for which there is no memory fails too: none is
/// needed where `reserve` made room for its bytes. Nobody's address is known.
///
/// A clause sees it as the record of what it keeps.
#[derive(Drop)]
pub struct MemTransport {
    left: Pieces,
    room: VecDeque<usize>,
    calls: Calls,
    received: BytesMut,
    sent: BytesMut,
    ended: bool,
    shut: bool,
    reads: u64,
    writes: u64,
}

impl Model for MemTransport {
    ghost use Rattle.http_transport.specs.MemTransports.{MemWiring};

    ghost Value = { MemWiring };

    ghost view = { λ w. record {
      left = w.left;
      room = w.room.items;
      fail = w.calls.fail.items;
      calls = w.calls.next;
      received = w.received.items;
      sent = w.sent.items;
      ended = w.ended;
      shut = w.shut;
      faults = w.calls.faults;
      reads = w.reads;
      writes = w.writes;
      read_room = w.received.spare;
      write_room = w.sent.spare;
    } };
}

impl MemTransport {
    /// A transport that gives these pieces, takes as much at each write as `room` says, in bytes, and fails the calls with
    /// the numbers in `fail`. It takes no memory.
    pub fn new(
        alloc: Global,
        pieces: Vec<Bytes>,
        room: Vec<usize>,
        fail: Vec<usize>,
    ) -> MemTransport
        ensures { result ≡ fresh pieces.items room.items fail.items }
    {
        MemTransport {
            left: Pieces::new(pieces),
            room: VecDeque::from_vec(room),
            calls: Calls {
                fail,
                next: 0,
                faults: 0,
            },
            received: BytesMut::new(alloc),
            sent: BytesMut::new(alloc),
            ended: false,
            shut: false,
            reads: 0,
            writes: 0,
        }
    }

    /// Makes room for so many more bytes that are received, and so many that are sent. Out of memory, nothing else
    /// changes.
    pub fn reserve(&mut self, received: usize, sent: usize) -> Result<(), AllocError>
        ensures ok { OnOk result ((received ≤ self.new.read_room) × (sent ≤ self.new.write_room)) }
        ensures more { (self.old.read_room ≤ self.new.read_room) × (self.old.write_room ≤ self.new.write_room) }
        ensures others { self.new ≡ record self.old { read_room = self.new.read_room; write_room = self.new.write_room } }
    {
        self.received.reserve(received)?;
        self.sent.reserve(sent)
    }

    /// What was sent.
    pub fn sent(&self) -> &[u8]
        ensures { result.now ≡ self.now.sent }
    {
        self.sent.as_slice()
    }

    /// What was received.
    pub fn received(&self) -> &[u8]
        ensures { result.now ≡ self.now.received }
    {
        self.received.as_slice()
    }
}

impl Transport for MemTransport {
    ghost use Rattle.std.specs.Prelude.{None};

    ghost wiring = { known };

    ghost peer = { λ _. None };

    fn peer_addr(&self) -> Option<SocketAddr> {
        None
    }

    fn poll_read(&mut self, buf: &mut [u8], cx: &mut Context<'_>) -> Poll<Result<usize, Failed>>
        ensures says { ReadSays (known self.old) (known self.new) result buf.new }
        ensures listed { fails_next self.old ≡ true → IsFailed result }
        ensures failed { IsFailed result → (fails_next self.old ≡ true) ⊎ (self.old.read_room < length buf.old) }
        ensures room { UsesRoom self.old.read_room self.new.read_room result }
        ensures reads { ReadsLeft self.old.left self.new.left buf.new result }
        ensures counted { self.new.calls ≡ counted self.old.calls }
        ensures others { (self.new.fail ≡ self.old.fail) × (self.new.room ≡ self.old.room) × (self.new.write_room ≡ self.old.write_room) }
        ensures registered { OnPending result (IsArmed cx.new) }
        ensures kept { Keeps cx.old cx.new }
    {
        if self.calls.fails() {
            return Poll::Ready(Err(Failed));
        }
        if self.received.reserve(buf.len()).is_err() {
            self.calls.fault();
            return Poll::Ready(Err(Failed));
        }
        match self.left.give(buf) {
            Front::None => {
                if !buf.is_empty() {
                    self.ended = true;
                }
                Poll::Ready(Ok(0))
            }
            Front::Empty => {
                self.reads = self.reads.saturating_add(1);
                cx.yield_now()
            }
            Front::Moved(count) => {
                self.received.extend_reserved(&buf[..count]);
                Poll::Ready(Ok(count))
            }
        }
    }

    fn poll_write(&mut self, bytes: &[u8], cx: &mut Context<'_>) -> Poll<Result<usize, Failed>>
        ensures says { WriteSays (known self.old) (known self.new) result bytes.now }
        ensures listed { fails_next self.old ≡ true → IsFailed result }
        ensures failed { IsFailed result → (fails_next self.old ≡ true) ⊎ (self.old.write_room < length bytes.now) }
        ensures room { UsesRoom self.old.write_room self.new.write_room result }
        ensures writes { WritesBy self.old.room self.new.room bytes.now result }
        ensures counted { self.new.calls ≡ counted self.old.calls }
        ensures others { (self.new.fail ≡ self.old.fail) × (self.new.left ≡ self.old.left) × (self.new.read_room ≡ self.old.read_room) }
        ensures registered { OnPending result (IsArmed cx.new) }
        ensures kept { Keeps cx.old cx.new }
    {
        if self.calls.fails() {
            return Poll::Ready(Err(Failed));
        }
        if self.sent.reserve(bytes.len()).is_err() {
            self.calls.fault();
            return Poll::Ready(Err(Failed));
        }
        match self.room.pop_front() {
            None => {
                self.sent.extend_reserved(bytes);
                Poll::Ready(Ok(bytes.len()))
            }
            Some(0) => {
                self.writes = self.writes.saturating_add(1);
                cx.yield_now()
            }
            Some(room) => {
                let count = bytes.len().min(room);
                self.sent.extend_reserved(&bytes[..count]);
                Poll::Ready(Ok(count))
            }
        }
    }

    fn poll_flush(&mut self, _cx: &mut Context<'_>) -> Poll<Result<(), Failed>>
        ensures says { FlushSays (known self.old) (known self.new) result }
        ensures fails { IsFailed result ↔ (fails_next self.old ≡ true) }
        ensures counted { self.new.calls ≡ counted self.old.calls }
        ensures others { (self.new.fail ≡ self.old.fail) × (self.new.left ≡ self.old.left) × (self.new.room ≡ self.old.room) }
        ensures rooms { (self.new.read_room ≡ self.old.read_room) × (self.new.write_room ≡ self.old.write_room) }
        ensures registered { OnPending result (IsArmed _cx.new) }
        ensures kept { Keeps _cx.old _cx.new }
    {
        if self.calls.fails() {
            return Poll::Ready(Err(Failed));
        }
        Poll::Ready(Ok(()))
    }

    fn poll_shutdown(&mut self, _cx: &mut Context<'_>) -> Poll<Result<(), Failed>>
        ensures says { ShutSays (known self.old) (known self.new) result }
        ensures fails { IsFailed result ↔ (fails_next self.old ≡ true) }
        ensures counted { self.new.calls ≡ counted self.old.calls }
        ensures others { (self.new.fail ≡ self.old.fail) × (self.new.left ≡ self.old.left) × (self.new.room ≡ self.old.room) }
        ensures rooms { (self.new.read_room ≡ self.old.read_room) × (self.new.write_room ≡ self.old.write_room) }
        ensures registered { OnPending result (IsArmed _cx.new) }
        ensures kept { Keeps _cx.old _cx.new }
    {
        if self.calls.fails() {
            return Poll::Ready(Err(Failed));
        }
        self.shut = true;
        Poll::Ready(Ok(()))
    }
}
