//! The frames of bytes that come in pieces, without a connection.
ghost use Rattle.std.specs.Prelude.{◌≡◌, ℕ, ◌⊎◌, not, false, List, [], ◌∷◌, ◌++◌, length, Err, IfOk, IfErr, OnOk, OnErr};
ghost use Rattle.model_h1.specs.Frame.{Frame as ModelFrame, ProtocolError as Rule};
ghost use Rattle.ws_frames.specs.declared.error.ProtocolError.TheVariants.{NoMemory as OutOfMemory};
ghost use Rattle.ws_frames.specs.Codec.{IsNamedIfThere};
ghost use Rattle.ws_frames.specs.Fronts.{is_partial};
ghost use Rattle.ws_frames.specs.Refusal.{refusal};
ghost use Rattle.ws_session.specs.Session.{front_of, with_unread, HasGiven, HasFailed, NextSays, FramesSays};

use crate::NoMemory;
use bytes::BytesMut;
use std::alloc::Global;
use std::marker::Model;
use ws_frames::{Frame, ProtocolError, take_front, waits_for_frame};

/// Reads the frames of bytes that are pushed in any pieces (RFC 6455, sections 5.2 to 5.5), as a server or as a client. A
/// contract sees who reads, the limit of a payload in bytes, whether a message in fragments is under way, and the bytes
/// that aren't read yet.
#[derive(Debug, Drop)]
pub struct Session {
    bytes: BytesMut,
    server: bool,
    limit: usize,
    under_way: bool,
}

impl Model for Session {
    ghost use Rattle.ws_session.specs.Session.{SessionParts};

    ghost Value = { SessionParts };

    ghost view = { λ s. record {
      server = s.server;
      limit = s.limit;
      under_way = s.under_way;
      unread = s.bytes.items;
    } };
}

impl Session {
    /// A session with no bytes yet, which takes payloads of at most `max` bytes. A server wants a mask on each frame, and a
    /// client none.
    pub fn new(alloc: Global, server: bool, max: usize) -> Session
        ensures parts { result ≡ record { server = server; limit = max; under_way = false; unread = [] } }
        ensures given { HasGiven result [] [] }
    {
        Session {
            bytes: BytesMut::new(alloc),
            server,
            limit: max,
            under_way: false,
        }
    }

    /// Adds bytes after those that were pushed before. Where memory ran out, nothing changes.
    pub fn push(&mut self, bytes: &[u8]) -> Result<(), NoMemory>
        ensures ok { OnOk result (self.new ≡ with_unread (self.old.unread ++ bytes.now) self.old) }
        ensures err { OnErr result (self.new ≡ self.old) }
        ensures given { OnOk result ((pushed : List ℕ) (given : List ModelFrame)
            → HasGiven self.old pushed given → HasGiven self.new (pushed ++ bytes.now) given) }
        ensures failed { (rule : Rule) → HasFailed self.old rule → HasFailed self.new rule }
    {
        self.extend(bytes)
    }

    /// Adds bytes after those that aren't read.
    fn extend(&mut self, bytes: &[u8]) -> Result<(), NoMemory>
        ensures ok { OnOk result (self.new ≡ with_unread (self.old.unread ++ bytes.now) self.old) }
        ensures err { OnErr result (self.new ≡ self.old) }
    {
        self.bytes.extend_from_slice(bytes)
    }

    /// The next frame, once it is whole: the frames that are given are those of all bytes that were pushed, in order. Its
    /// payload shares the memory of these bytes, its mask taken off where it lies. An error for a broken rule comes again at
    /// each later call, whatever is pushed; `Overflow` comes as soon as a length above the limit is there. Where memory ran
    /// out, nothing changes, and the call may be made again.
    pub fn next(&mut self) -> Result<Option<Frame>, ProtocolError>
        ensures front { NextSays self.old result self.new }
        ensures named { IfOk result IsNamedIfThere }
        ensures frames { (pushed : List ℕ) (given : List ModelFrame) → HasGiven self.old pushed given → FramesSays self.old pushed given result self.new }
        ensures repeated { (rule : Rule) → HasFailed self.old rule → result ≡ Err (refusal rule) }
        ensures failed { IfErr result (λ e. (e ≡ OutOfMemory) ⊎ ((rule : Rule) × (e ≡ refusal rule) × HasFailed self.new rule)) }
    {
        self.take()
    }

    /// Takes the frame at the front.
    fn take(&mut self) -> Result<Option<Frame>, ProtocolError>
        ensures front { NextSays self.old result self.new }
        ensures named { IfOk result IsNamedIfThere }
    {
        let alloc = *self.bytes.allocator();
        match take_front(
            alloc,
            &mut self.bytes,
            self.server,
            self.limit,
            self.under_way,
        ) {
            Ok(Some((frame, under_way))) => {
                self.under_way = under_way;
                Ok(Some(frame))
            }
            Ok(None) => Ok(None),
            Err(error) => Err(error),
        }
    }

    /// How many bytes were pushed and aren't read yet.
    pub fn held(&self) -> usize
        ensures { result ≡ length self.now.unread }
    {
        self.bytes.len()
    }

    /// Whether `next` has a frame or a broken rule to answer.
    pub fn ready(&self) -> bool
        ensures { result ≡ not (is_partial (front_of self.now)) }
    {
        !waits_for_frame(self.bytes.as_slice(), self.server, self.limit)
    }
}
