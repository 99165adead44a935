//! Messages, encoded one after another, after the module `h1::encoder` of actix-http.
ghost use Rattle.std.specs.Prelude.{◌≡◌, ◌<◌, ◌++◌, ◌↔◌, [], ℕ, false, OnOk, OnErr, IfOk, IsOk, Err};

use crate::body::first_bytes;
use crate::chunk::{put_chunk, put_last_chunk};
use crate::{EncodeError, Shape};
use bytes::BytesMut;
use http_types::NoMemory;
use std::marker::Model;

mod message;

pub use message::{EncodeHead, MessageEncoder};

/// How far the body of a message is that is encoded piece by piece (RFC 7230, section 3.3.3).
#[derive(Debug, Drop)]
pub struct TransferEncoding {
    kind: Kind,
}

#[derive(Clone, Copy, Debug, PartialEq, Eq)]
enum Kind {
    // In chunks, and whether the last one was written.
    Chunked(bool),
    // So many bytes are missing.
    Length(u64),
    // Up to the end of the connection.
    Eof,
}

impl Model for TransferEncoding {
    ghost use Rattle.h1_encoder.specs.Encoding.{Encoding, encoding_of};

    ghost Value = { Encoding };

    ghost view = { λ t. encoding_of t.kind };
}

impl TransferEncoding {
    ghost use Rattle.model_h1.specs.Answer as answers;
    ghost use Rattle.h1_encoder.specs.Meaning.{model_shape};
    ghost use Rattle.h1_encoder.specs.Encoding.{as_it_is, in_chunks, of_length, first_encoding, encoded, behind, is_complete, end_of, ended, missing_of};

    /// A body of no bytes.
    pub fn empty() -> TransferEncoding
        ensures { result ≡ of_length 0 }
    {
        TransferEncoding::length(0)
    }

    /// A body that goes out as it is, up to the end of the connection.
    pub fn eof() -> TransferEncoding
        ensures { result ≡ as_it_is }
    {
        TransferEncoding { kind: Kind::Eof }
    }

    /// A body in chunks.
    pub fn chunked() -> TransferEncoding
        ensures { result ≡ in_chunks false }
    {
        TransferEncoding {
            kind: Kind::Chunked(false),
        }
    }

    /// A body of so many bytes.
    pub fn length(len: u64) -> TransferEncoding
        ensures { result ≡ of_length len }
    {
        TransferEncoding {
            kind: Kind::Length(len),
        }
    }

    /// A body of this shape.
    pub(crate) fn of_shape(shape: Shape) -> TransferEncoding
        ensures { result ≡ first_encoding (model_shape shape) }
    {
        match shape {
            Shape::None => TransferEncoding::empty(),
            Shape::Length(length) => TransferEncoding::length(length),
            Shape::Chunked => TransferEncoding::chunked(),
            Shape::Raw => TransferEncoding::eof(),
        }
    }

    /// Puts a piece of the body behind what `buf` holds, and tells whether the body is complete: where no byte of
    /// a stated length is missing, where the last chunk is written, or where a raw body got an empty piece. An
    /// empty piece ends a body in chunks; behind its end nothing is written. What is beyond a stated length is
    /// cut. Where memory is wanting `buf` holds what it held, and the body is as far as it was.
    pub fn encode(&mut self, msg: &[u8], buf: &mut BytesMut) -> Result<bool, NoMemory>
        ensures text { OnOk result (buf.new.items ≡ buf.old.items ++ encoded self.old msg.now) }
        ensures after { OnOk result (self.new ≡ behind self.old msg.now) }
        ensures complete { IfOk result (λ complete. complete ≡ is_complete (behind self.old msg.now) msg.now) }
        ensures err { OnErr result ((buf.new.items ≡ buf.old.items) × (self.new ≡ self.old)) }
        ensures no_memory_needed { encoded self.old msg.now ≡ [] → IsOk result }
    {
        match self.kind {
            Kind::Eof => {
                buf.extend_from_slice(msg)?;
                Ok(msg.is_empty())
            }
            Kind::Chunked(true) => Ok(true),
            Kind::Chunked(false) => self.encode_chunk(msg, buf),
            Kind::Length(missing) => {
                let piece = first_bytes(msg, missing);
                buf.extend_from_slice(piece)?;
                let left = missing - piece.len() as u64;
                self.kind = Kind::Length(left);
                Ok(left == 0)
            }
        }
    }

    // A chunk, or the last one.
    fn encode_chunk(&mut self, msg: &[u8], buf: &mut BytesMut) -> Result<bool, NoMemory>
        requires { self.old ≡ in_chunks false }
        ensures text { OnOk result (buf.new.items ≡ buf.old.items ++ encoded self.old msg.now) }
        ensures after { OnOk result (self.new ≡ behind self.old msg.now) }
        ensures complete { IfOk result (λ complete. complete ≡ is_complete (behind self.old msg.now) msg.now) }
        ensures err { OnErr result ((buf.new.items ≡ buf.old.items) × (self.new ≡ self.old)) }
    {
        if msg.is_empty() {
            put_last_chunk(buf)?;
            self.kind = Kind::Chunked(true);
            return Ok(true);
        }
        put_chunk(buf, msg)?;
        Ok(false)
    }

    /// Ends the body: puts the last chunk of a body in chunks, unless it was written. `Short(n)` exactly where n
    /// bytes of a stated length are missing. After an error `buf` holds what it held, and the body is as far as
    /// it was.
    pub fn encode_eof(&mut self, buf: &mut BytesMut) -> Result<(), EncodeError>
        ensures text { OnOk result (buf.new.items ≡ buf.old.items ++ end_of self.old) }
        ensures after { OnOk result (self.new ≡ ended self.old) }
        ensures short { (n : ℕ) → (result ≡ Err (EncodeError.Short n)) ↔ ((missing_of self.old ≡ n) × (0 < n)) }
        ensures no_version { ¬ (result ≡ Err EncodeError.Version) }
        ensures err { OnErr result ((buf.new.items ≡ buf.old.items) × (self.new ≡ self.old)) }
        ensures no_memory_needed { end_of self.old ≡ [] → ¬ (result ≡ Err EncodeError.NoMemory) }
    {
        match self.kind {
            Kind::Length(0) | Kind::Eof | Kind::Chunked(true) => Ok(()),
            Kind::Length(missing) => Err(EncodeError::Short(missing)),
            Kind::Chunked(false) => {
                put_last_chunk(buf)?;
                self.kind = Kind::Chunked(true);
                Ok(())
            }
        }
    }
}
