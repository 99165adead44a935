//! Any reader as a source, and any writer as a sink.
ghost use Rattle.std.specs.Prelude.{◌≡◌, ◌<◌, None, length, IfOk};
ghost use Rattle.std.specs.Io.{ReadsAtMost, WritesAtMost};
ghost use Rattle.std.specs.Io.KnownBytes.{ReadConsumes, WriteAppends};
ghost use Rattle.http_config.specs.Causes.{HasCause, faults_after, IsAsked};

use crate::{Failed, Sink, Source};
use std::fmt;
use std::io::{ErrorKind, Read, Write};
use std::marker::Model;

/// A source over a reader: a file, a stream, standard input. A read that a signal cut short is tried
/// again, and each other one that the reader refuses is counted.
#[derive(Drop)]
pub struct ReadSource<R: Read> {
    reader: R,
    faults: u64,
}

impl<R: Read> Model for ReadSource<R> {
    ghost use Rattle.http_config.specs.Adapter.{ReaderState};

    ghost Value = { ReaderState };

    ghost view = { λ s. record { left = R.remaining s.reader; faults = s.faults } };
}

impl<R: Read> ReadSource<R> {
    /// A source of what the reader gives.
    pub fn new(reader: R) -> Self
        ensures { result ≡ record { left = R.remaining reader; faults = 0 } }
    {
        ReadSource { reader, faults: 0 }
    }
}

impl<R: Read> fmt::Debug for ReadSource<R> {
    fn fmt<W: fmt::Write>(&self, f: &mut fmt::Formatter<W>) -> fmt::Result {
        f.debug_struct("ReadSource")
            .field("faults", &self.faults)
            .finish_non_exhaustive()
    }
}

impl<R: Read> Source for ReadSource<R> {
    ghost left = { λ s. s.left };

    ghost faults = { λ s. s.faults };

    fn read(&mut self, buf: &mut [u8]) -> Result<usize, Failed>
        ensures bound { ReadsAtMost result buf.new }
        ensures bytes { ReadConsumes self.old.left self.new.left result buf.new }
        ensures cause { HasCause self.old.faults self.new.faults result }
        ensures fault { self.new.faults ≡ faults_after self.old.faults result }
        ensures asked { IsAsked None None }
    {
        let result = read_uninterrupted(&mut self.reader, buf);
        if result.is_err() {
            self.faults = self.faults.saturating_add(1);
        }
        result
    }
}

/// A sink over a writer: a file, a stream, standard output. A write that a signal cut short is tried
/// again. Each other one that the writer refuses, or of which it takes nothing, is counted.
#[derive(Drop)]
pub struct WriteSink<W: Write> {
    writer: W,
    faults: u64,
}

impl<W: Write> Model for WriteSink<W> {
    ghost use Rattle.http_config.specs.Adapter.{WriterState};

    ghost Value = { WriterState };

    ghost view = { λ s. record { given = W.contents s.writer; faults = s.faults } };
}

impl<W: Write> WriteSink<W> {
    /// A sink into the writer.
    pub fn new(writer: W) -> Self
        ensures { result ≡ record { given = W.contents writer; faults = 0 } }
    {
        WriteSink { writer, faults: 0 }
    }
}

impl<W: Write> fmt::Debug for WriteSink<W> {
    fn fmt<F: fmt::Write>(&self, f: &mut fmt::Formatter<F>) -> fmt::Result {
        f.debug_struct("WriteSink")
            .field("faults", &self.faults)
            .finish_non_exhaustive()
    }
}

impl<W: Write> Sink for WriteSink<W> {
    ghost given = { λ s. s.given };

    ghost faults = { λ s. s.faults };

    fn write(&mut self, bytes: &[u8]) -> Result<usize, Failed>
        ensures bound { WritesAtMost result bytes.now }
        ensures progress { IfOk result (λ count. 0 < length bytes.now → 0 < count) }
        ensures bytes { WriteAppends self.old.given self.new.given result bytes.now }
        ensures cause { HasCause self.old.faults self.new.faults result }
        ensures fault { self.new.faults ≡ faults_after self.old.faults result }
        ensures asked { IsAsked None None }
    {
        let result = write_uninterrupted(&mut self.writer, bytes);
        if result.is_err() {
            self.faults = self.faults.saturating_add(1);
        }
        result
    }
}

// One read, tried again where a signal cut it short.
#[tactic(auto, using(crate::proofs::Retried::keeps_same, crate::proofs::Retried::keeps_on, crate::proofs::Retried::consumes_then))]
fn read_uninterrupted<R: Read>(reader: &mut R, buf: &mut [u8]) -> Result<usize, Failed>
    ensures bound { ReadsAtMost result buf.new }
    ensures bytes { ReadConsumes (R.remaining reader.old) (R.remaining reader.new) result buf.new }
{
    for _ in 0..u64::MAX {
        match reader.read(buf) {
            Ok(count) => return Ok(count),
            Err(error) if error.kind() == ErrorKind::Interrupted => {}
            Err(_) => return Err(Failed),
        }
    }
    Err(Failed)
}

// One write, tried again where a signal cut it short. A write that takes nothing of a piece has failed.
#[tactic(auto, using(crate::proofs::Retried::keeps_same, crate::proofs::Retried::keeps_on, crate::proofs::Retried::appends_then, crate::proofs::Retried::appends_none))]
fn write_uninterrupted<W: Write>(writer: &mut W, bytes: &[u8]) -> Result<usize, Failed>
    ensures bound { WritesAtMost result bytes.now }
    ensures progress { IfOk result (λ count. 0 < length bytes.now → 0 < count) }
    ensures bytes { WriteAppends (W.contents writer.old) (W.contents writer.new) result bytes.now }
{
    for _ in 0..u64::MAX {
        match writer.write(bytes) {
            Ok(0) if !bytes.is_empty() => return Err(Failed),
            Ok(count) => return Ok(count),
            Err(error) if error.kind() == ErrorKind::Interrupted => {}
            Err(_) => return Err(Failed),
        }
    }
    Err(Failed)
}
