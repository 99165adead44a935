//! A source and a sink in memory that never fail.
ghost use Rattle.std.specs.Prelude.{◌≡◌, ◌<◌, ◌⊎◌, ◌++◌, [], Some, None, IfOk, length, min};
ghost use Rattle.std.specs.Io.{ReadsAtMost, WritesAtMost};
ghost use Rattle.std.specs.Io.KnownBytes.{ReadConsumes, WriteAppends};
ghost use Rattle.http_config.specs.Causes.{HasCause, faults_after, IsAsked};

use crate::memory::move_front;
use crate::{Failed, Sink, Source};
use bytes::Bytes;
use std::alloc::Global;
use std::marker::Model;

/// A source over bytes in memory that never fails.
#[derive(Debug, Drop)]
pub struct SureSource {
    left: Bytes,
}

impl Model for SureSource {
    ghost use Rattle.std.specs.Prelude.{ℕ, List};

    ghost Value = { List ℕ };

    ghost view = { λ s. s.left };
}

impl SureSource {
    /// A source that gives `bytes`.
    pub fn new(bytes: Bytes) -> Self
        ensures { result ≡ bytes }
    {
        SureSource { left: bytes }
    }
}

impl Source for SureSource {
    ghost left = { λ s. Some s };

    ghost faults = { λ _. 0 };

    fn read(&mut self, buf: &mut [u8]) -> Result<usize, Failed>
        ensures bound { ReadsAtMost result buf.new }
        ensures bytes { ReadConsumes (Some self.old) (Some self.new) result buf.new }
        ensures cause { HasCause 0 0 result }
        ensures fault { 0 ≡ faults_after 0 result }
        ensures asked { IsAsked None None }
        ensures count { result ≡ Ok (min (length buf.old) (length self.old)) }
    {
        Ok(move_front(&mut self.left, buf))
    }
}

/// A sink that takes every piece whole and never fails. It keeps each piece that memory has room
/// for. So it can't promise to hold what it was given, and doesn't tell it.
#[derive(Debug, Drop)]
pub struct SureSink {
    kept: Vec<u8>,
}

impl Model for SureSink {
    ghost use Rattle.std.specs.Prelude.{ℕ, List};

    ghost Value = { List ℕ };

    ghost view = { λ s. s.kept.items };
}

impl SureSink {
    /// A sink that has kept nothing.
    pub fn new(alloc: Global) -> Self
        ensures { result ≡ [] }
    {
        SureSink {
            kept: Vec::new(alloc),
        }
    }

    /// The pieces that were kept: all that were given, unless memory ran out.
    pub fn given(&self) -> &[u8]
        ensures { result.now ≡ self.now }
    {
        &self.kept
    }
}

impl Sink for SureSink {
    ghost given = { λ _. None };

    ghost faults = { λ _. 0 };

    fn write(&mut self, bytes: &[u8]) -> Result<usize, Failed>
        ensures bound { WritesAtMost result bytes.now }
        ensures progress { IfOk result (λ count. 0 < length bytes.now → 0 < count) }
        ensures bytes { WriteAppends None None result bytes.now }
        ensures cause { HasCause 0 0 result }
        ensures fault { 0 ≡ faults_after 0 result }
        ensures asked { IsAsked None None }
        ensures whole { result ≡ Ok (length bytes.now) }
        ensures kept { (self.new ≡ self.old ++ bytes.now) ⊎ (self.new ≡ self.old) }
    {
        // Without memory the piece is lost, and that is no fault of the write.
        let _ = self.kept.extend_from_slice(bytes);
        Ok(bytes.len())
    }
}
