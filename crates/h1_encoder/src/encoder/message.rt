//! A message's head and body, encoded one after the other.
ghost use Rattle.std.specs.Prelude.{◌≡◌, ◌<◌, ◌++◌, ◌↔◌, ℕ, List, Bool, true, false, [], OnOk, OnErr, IfOk, IsOk, Err, if◌then◌else◌};
ghost use Rattle.http.specs.declared.version.Version.{Version as SomeVersion};
ghost use Rattle.http_framing.specs.declared.body.size.BodySize.{BodySize as Size};
ghost use Rattle.http_types.specs.declared.message.ConnectionType.{ConnectionType as Kind};
ghost use Rattle.model_h1.specs.Limits.{MAX_MOMENT};
ghost use Rattle.model_h1.specs.Answer as answers;
ghost use Rattle.h1_encoder.specs.Encoding.{of_length, first_encoding, encoded, behind, is_complete, end_of, ended, missing_of};
ghost use Rattle.h1_encoder.specs.Meaning.{model_shape};
ghost use Rattle.h1_encoder.specs.Written.{asked_by, answer_shape, answer_text};

use super::TransferEncoding;
use crate::{Asked, DateLine, EncodeError, Shape, put_answer_head, shape_of};
use bytes::BytesMut;
use http_framing::BodySize;
use http_types::{ConnectionType, NoMemory, ResponseHead, Version};
use std::marker::{Model, PhantomData};

/// A head that a `MessageEncoder` writes.
pub trait EncodeHead {
    // How the body goes out, where the request was raw or not, in a version, and for a size.
    ghost shape: { Self → Bool → SomeVersion → Size → answers.Shape };

    // The head's text, for the same, with what becomes of the connection and the moment in milliseconds.
    ghost text: { Self → Bool → SomeVersion → Size → Kind → ℕ → List ℕ };

    // Heads of its version are written.
    ghost has_text: { Self → Bool };

    /// How the body goes out.
    fn body_shape(&self, stream: bool, version: Version, length: BodySize) -> Shape
        ensures { model_shape result ≡ shape self.now stream version length };

    /// Puts the head behind what `dst` holds.
    fn put_head(
        &self,
        dst: &mut BytesMut,
        stream: bool,
        version: Version,
        length: BodySize,
        conn_type: ConnectionType,
        date: &mut DateLine,
        now: u64,
    ) -> Result<(), EncodeError>
        requires { now < MAX_MOMENT }
        ensures ok { OnOk result (dst.new.items ≡ dst.old.items ++ text self.now stream version length conn_type now) }
        ensures version { (result ≡ Err EncodeError.Version) ↔ (has_text self.now ≡ false) }
        ensures no_short { (n : ℕ) → ¬ (result ≡ Err (EncodeError.Short n)) }
        ensures err { OnErr result (dst.new.items ≡ dst.old.items) };
}

impl EncodeHead for ResponseHead {
    ghost shape = { answer_shape };

    ghost text = { answer_text };

    ghost has_text = { λ _. true };

    fn body_shape(&self, stream: bool, version: Version, length: BodySize) -> Shape {
        shape_of(asked(stream, version), self, length)
    }

    fn put_head(
        &self,
        dst: &mut BytesMut,
        stream: bool,
        version: Version,
        length: BodySize,
        conn_type: ConnectionType,
        date: &mut DateLine,
        now: u64,
    ) -> Result<(), EncodeError> {
        put_answer_head(
            dst,
            asked(stream, version),
            self,
            length,
            conn_type,
            date,
            now,
        )?;
        Ok(())
    }
}

// What the head of an answer needs of its request.
fn asked(stream: bool, version: Version) -> Asked
    ensures { result ≡ asked_by stream version }
{
    Asked::new(version, false, stream, ConnectionType::KeepAlive)
}

/// Writes heads of one kind, each with its body. A contract sees how far the body is.
#[derive(Debug, Drop)]
pub struct MessageEncoder<T: EncodeHead> {
    te: TransferEncoding,
    date: DateLine,
    marker: PhantomData<T>,
}

impl<T: EncodeHead> Model for MessageEncoder<T> {
    ghost use Rattle.h1_encoder.specs.Encoding.{Encoding};

    ghost Value = { Encoding };

    ghost view = { λ m. m.te };
}

impl<T: EncodeHead> MessageEncoder<T> {
    /// An encoder that has written nothing.
    pub fn new() -> MessageEncoder<T>
        ensures { result ≡ of_length 0 }
    {
        MessageEncoder {
            te: TransferEncoding::empty(),
            date: DateLine::new(),
            marker: PhantomData,
        }
    }

    /// Puts a piece of the body, as `TransferEncoding::encode` does.
    pub fn encode_chunk(&mut self, msg: &[u8], buf: &mut BytesMut) -> Result<bool, NoMemory>
        ensures text { OnOk result (buf.new.items ≡ buf.old.items ++ encoded self.old msg.now) }
        ensures after { OnOk result (self.new ≡ behind self.old msg.now) }
        ensures complete { IfOk result (λ complete. complete ≡ is_complete (behind self.old msg.now) msg.now) }
        ensures err { OnErr result ((buf.new.items ≡ buf.old.items) × (self.new ≡ self.old)) }
        ensures no_memory_needed { encoded self.old msg.now ≡ [] → IsOk result }
    {
        self.te.encode(msg, buf)
    }

    /// Ends the body, as `TransferEncoding::encode_eof` does.
    pub fn encode_eof(&mut self, buf: &mut BytesMut) -> Result<(), EncodeError>
        ensures text { OnOk result (buf.new.items ≡ buf.old.items ++ end_of self.old) }
        ensures after { OnOk result (self.new ≡ ended self.old) }
        ensures short { (n : ℕ) → (result ≡ Err (EncodeError.Short n)) ↔ ((missing_of self.old ≡ n) × (0 < n)) }
        ensures no_version { ¬ (result ≡ Err EncodeError.Version) }
        ensures err { OnErr result ((buf.new.items ≡ buf.old.items) × (self.new ≡ self.old)) }
        ensures no_memory_needed { end_of self.old ≡ [] → ¬ (result ≡ Err EncodeError.NoMemory) }
    {
        self.te.encode_eof(buf)
    }

    /// Puts a head behind what `dst` holds, and begins its body. `head` says that the request was HEAD, so that no
    /// byte of the body follows; `stream` that its body was raw; `version` is the request's. `now` is in
    /// milliseconds since the start of 1970, before the year 10000. `Version` comes exactly for a request that is
    /// neither of HTTP/1.0 nor of HTTP/1.1. After an error `dst` holds what it held, and the body that was begun
    /// before is as far as it was.
    pub fn encode(
        &mut self,
        dst: &mut BytesMut,
        message: &T,
        head: bool,
        stream: bool,
        version: Version,
        length: BodySize,
        conn_type: ConnectionType,
        now: u64,
    ) -> Result<(), EncodeError>
        requires { now < MAX_MOMENT }
        ensures text { OnOk result (dst.new.items ≡ dst.old.items ++ T.text message.now stream version length conn_type now) }
        ensures begins { OnOk result (self.new ≡ (if head then of_length 0 else first_encoding (T.shape message.now stream version length))) }
        ensures version { (result ≡ Err EncodeError.Version) ↔ (T.has_text message.now ≡ false) }
        ensures no_short { (n : ℕ) → ¬ (result ≡ Err (EncodeError.Short n)) }
        ensures err { OnErr result ((dst.new.items ≡ dst.old.items) × (self.new ≡ self.old)) }
    {
        message.put_head(dst, stream, version, length, conn_type, &mut self.date, now)?;
        self.te = if head {
            TransferEncoding::empty()
        } else {
            TransferEncoding::of_shape(message.body_shape(stream, version, length))
        };
        Ok(())
    }
}
