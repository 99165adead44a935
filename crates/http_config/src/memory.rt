//! A source and a sink in memory, for tests: the calls that a list names fail.
ghost use Rattle.std.specs.Prelude.{◌≡◌, ◌<◌, ◌≤◌, ◌↔◌, ◌++◌, [], Some, min, take, length, Contains, IfOk, IsErr, if◌then◌else◌};
ghost use Rattle.std.specs.Result.{is_err};
ghost use Rattle.std.specs.Io.{ReadsAtMost, WritesAtMost};
ghost use Rattle.std.specs.Io.KnownBytes.{ReadConsumes, WriteAppends};
ghost use Rattle.http_config.specs.Causes.{HasCause, counted, faults_after, IsAsked};

use crate::{Failed, Sink, Source};
use bytes::Bytes;
use std::alloc::Global;
use std::marker::Model;

/// A source over bytes in memory. Its calls are counted from 0, and those listed fail.
#[derive(Debug, Drop)]
pub struct MemSource {
    left: Bytes,
    fail: Vec<usize>,
    calls: usize,
    faults: u64,
}

impl Model for MemSource {
    ghost use Rattle.http_config.specs.Memory.{SourceState};

    ghost Value = { SourceState };

    ghost view = { λ s. record { left = s.left; fail = s.fail.items; calls = s.calls; faults = s.faults } };
}

impl MemSource {
    /// A source that gives `bytes`, and fails at the calls in `fail`.
    pub fn new(bytes: Bytes, fail: Vec<usize>) -> Self
        ensures { result ≡ record { left = bytes; fail = fail.items; calls = 0; faults = 0 } }
    {
        MemSource {
            left: bytes,
            fail,
            calls: 0,
            faults: 0,
        }
    }
}

impl Source for MemSource {
    ghost left = { λ s. Some s.left };

    ghost faults = { λ s. s.faults };

    ghost calls = { λ s. Some s.calls };

    fn read(&mut self, buf: &mut [u8]) -> Result<usize, Failed>
        ensures bound { ReadsAtMost result buf.new }
        ensures bytes { ReadConsumes (Some self.old.left) (Some self.new.left) result buf.new }
        ensures cause { HasCause self.old.faults self.new.faults result }
        ensures fault { self.new.faults ≡ faults_after self.old.faults result }
        ensures asked { IsAsked (Some self.old.calls) (Some self.new.calls) }

        // Exactly the listed calls fail, and each other one fills as much of `buf` as it can.
        ensures listed { IsErr result ↔ Contains self.old.fail self.old.calls }
        ensures count { IfOk result (λ n. n ≡ min (length buf.old) (length self.old.left)) }
        ensures counts { self.new ≡ record self.old {
          left = self.new.left;
          calls = counted self.old.calls;
          faults = if is_err result then counted self.old.faults else self.old.faults;
        } }
    {
        let call = self.calls;
        self.calls = call.saturating_add(1);
        if self.fail.contains(&call) {
            self.faults = self.faults.saturating_add(1);
            return Err(Failed);
        }
        Ok(move_front(&mut self.left, buf))
    }
}

/// A sink into memory. Its calls are counted from 0, and those listed fail.
#[derive(Debug, Drop)]
pub struct MemSink {
    given: Vec<u8>,
    fail: Vec<usize>,
    calls: usize,
    faults: u64,
}

impl Model for MemSink {
    ghost use Rattle.http_config.specs.Memory.{SinkState};

    ghost Value = { SinkState };

    ghost view = { λ s. record { given = s.given.items; fail = s.fail.items; calls = s.calls; faults = s.faults } };
}

impl MemSink {
    /// An empty sink that fails at the calls in `fail`.
    pub fn new(alloc: Global, fail: Vec<usize>) -> Self
        ensures { result ≡ record { given = []; fail = fail.items; calls = 0; faults = 0 } }
    {
        MemSink {
            given: Vec::new(alloc),
            fail,
            calls: 0,
            faults: 0,
        }
    }

    /// What was given so far.
    pub fn given(&self) -> &[u8]
        ensures { result.now ≡ self.now.given }
    {
        &self.given
    }
}

impl Sink for MemSink {
    ghost given = { λ s. Some s.given };

    ghost faults = { λ s. s.faults };

    ghost calls = { λ s. Some s.calls };

    fn write(&mut self, bytes: &[u8]) -> Result<usize, Failed>
        ensures bound { WritesAtMost result bytes.now }
        ensures progress { IfOk result (λ count. 0 < length bytes.now → 0 < count) }
        ensures bytes { WriteAppends (Some self.old.given) (Some self.new.given) result bytes.now }
        ensures cause { HasCause self.old.faults self.new.faults result }
        ensures fault { self.new.faults ≡ faults_after self.old.faults result }
        ensures asked { IsAsked (Some self.old.calls) (Some self.new.calls) }

        // The listed calls fail, and no other one unless memory ran out. Else the piece is taken whole.
        ensures listed { Contains self.old.fail self.old.calls → IsErr result }
        ensures whole { IfOk result (λ n. n ≡ length bytes.now) }
        ensures counts { self.new ≡ record self.old {
          given = self.new.given;
          calls = counted self.old.calls;
          faults = if is_err result then counted self.old.faults else self.old.faults;
        } }
    {
        let call = self.calls;
        self.calls = call.saturating_add(1);
        // A sink that has no memory for the piece has failed, too.
        if self.fail.contains(&call) || self.given.extend_from_slice(bytes).is_err() {
            self.faults = self.faults.saturating_add(1);
            return Err(Failed);
        }
        Ok(bytes.len())
    }
}

// Moves as many bytes as fit from the front of `left` to the front of `buf`.
pub(crate) fn move_front(left: &mut Bytes, buf: &mut [u8]) -> usize
    ensures count { result ≡ min (length buf.old) (length left.old) }
    ensures bound { result ≤ length buf.new }
    ensures moved { left.old ≡ take result buf.new ++ left.new }
    ensures end { result ≡ 0 → 0 < length buf.new → left.new ≡ [] }
{
    let count = buf.len().min(left.len());
    buf[..count].copy_from_slice(&left.as_slice()[..count]);
    left.advance(count);
    count
}
