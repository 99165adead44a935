//! Messages into bytes.
ghost use Rattle.std.specs.Prelude.{◌≡◌, ◌++◌, None, Some, option_map, true, false, if◌then◌else◌, OnOk, OnErr, IsOk, IfOk, IfErr};
ghost use Rattle.model_h1.specs.Frame.{frame, continuation_started, continuation_not_started};
ghost use Rattle.model_h1.specs.FrameText.{close_payload, send_error};
ghost use Rattle.ws_frames.specs.Close.{reason_says};
ghost use Rattle.ws_frames.specs.Codec.{item_says};
ghost use Rattle.ws_frames.specs.CodecState.{codec_server, codec_sending, codec_words};
ghost use Rattle.ws_frames.specs.Protocol.{opcode_written};
ghost use Rattle.ws_frames.specs.Refusal.{error_for};
ghost use Rattle.ws_frames.specs.Sent.{message_says, message_written, frame_written, mask_drawn, sending_after, words_left, words_after, with_sending};
ghost use Rattle.ws_frames.specs.Written.{written};

use crate::NoMemory;
use crate::codec::Codec;
use crate::error::ProtocolError;
use crate::message::{Item, Message};
use crate::proto::{CloseReason, OpCode};
use bytes::BytesMut;
use rand_core::Rng;
use std::alloc::Global;

impl<R: Rng> Codec<R> {
    /// Writes a message. A first fragment inside a message that is sent is refused, and any other fragment outside one;
    /// a whole message may stand between fragments. After an error codec and bytes are as before. To refuse a message, or
    /// to send nothing, takes no memory.
    pub fn encode(
        &mut self,
        alloc: Global,
        item: Message,
        dst: &mut BytesMut,
    ) -> Result<(), ProtocolError>
        ensures text { OnOk result (dst.new.items
            ≡ dst.old.items ++ message_written (mask_drawn (codec_server self.old) (R.stream (codec_words self.old))) (message_says item)) }
        ensures allowed { OnOk result (send_error (codec_sending self.old) (message_says item) ≡ None) }
        ensures sending { OnOk result (codec_sending self.new ≡ sending_after (codec_sending self.old) (message_says item)) }
        ensures words { OnOk result (R.stream (codec_words self.new) ≡ words_after (codec_server self.old) (message_says item) (R.stream (codec_words self.old))) }
        ensures others { OnOk result (self.new ≡ with_sending (codec_words self.new) (codec_sending self.new) self.old) }
        ensures err { OnErr result ((dst.new.items ≡ dst.old.items) × (self.new ≡ self.old)) }
        ensures cause { IfErr result (λ e. e ≡ error_for (send_error (codec_sending self.old) (message_says item))) }
        ensures nothing { item ≡ Message.Nop → IsOk result }
    {
        match item {
            Message::Text(text) => self.send(dst, text.as_bytes(), OpCode::Text, true),
            Message::Binary(payload) => self.send(dst, payload.as_slice(), OpCode::Binary, true),
            Message::Continuation(item) => self.send_item(dst, item),
            Message::Ping(payload) => self.send(dst, payload.as_slice(), OpCode::Ping, true),
            Message::Pong(payload) => self.send(dst, payload.as_slice(), OpCode::Pong, true),
            Message::Close(reason) => match close_bytes(alloc, reason) {
                Ok(payload) => self.send(dst, payload.as_slice(), OpCode::Close, true),
                Err(_) => Err(ProtocolError::NoMemory),
            },
            Message::Nop => Ok(()),
        }
    }

    /// Writes a fragment.
    fn send_item(&mut self, dst: &mut BytesMut, item: Item) -> Result<(), ProtocolError>
        ensures text { OnOk result (dst.new.items
            ≡ dst.old.items ++ frame_written (mask_drawn (codec_server self.old) (R.stream (codec_words self.old))) (item_says item)) }
        ensures allowed { OnOk result (send_error (codec_sending self.old) (frame (item_says item)) ≡ None) }
        ensures sending { OnOk result (codec_sending self.new ≡ sending_after (codec_sending self.old) (frame (item_says item))) }
        ensures words { OnOk result (R.stream (codec_words self.new) ≡ words_left (codec_server self.old) (R.stream (codec_words self.old))) }
        ensures others { OnOk result (self.new ≡ with_sending (codec_words self.new) (codec_sending self.new) self.old) }
        ensures err { OnErr result ((dst.new.items ≡ dst.old.items) × (self.new ≡ self.old)) }
        ensures cause { IfErr result (λ e. e ≡ error_for (send_error (codec_sending self.old) (frame (item_says item)))) }
    {
        match item {
            Item::FirstText(payload) => self.send_first(dst, payload.as_slice(), OpCode::Text),
            Item::FirstBinary(payload) => self.send_first(dst, payload.as_slice(), OpCode::Binary),
            Item::Continue(payload) => self.send_next(dst, payload.as_slice(), false),
            Item::Last(payload) => self.send_next(dst, payload.as_slice(), true),
        }
    }

    /// Writes the first fragment of a message.
    fn send_first(
        &mut self,
        dst: &mut BytesMut,
        payload: &[u8],
        op: OpCode,
    ) -> Result<(), ProtocolError>
        ensures text { OnOk result (dst.new.items
            ≡ dst.old.items ++ written (mask_drawn (codec_server self.old) (R.stream (codec_words self.old))) false (opcode_written op) payload.now) }
        ensures words { OnOk result (R.stream (codec_words self.new) ≡ words_left (codec_server self.old) (R.stream (codec_words self.old))) }
        ensures before { OnOk result (codec_sending self.old ≡ false) }
        ensures after { OnOk result (codec_sending self.new ≡ true) }
        ensures others { OnOk result (self.new ≡ with_sending (codec_words self.new) (codec_sending self.new) self.old) }
        ensures err { OnErr result ((dst.new.items ≡ dst.old.items) × (self.new ≡ self.old)) }
        ensures cause { IfErr result (λ e. e ≡ error_for (if codec_sending self.old then Some continuation_started else None)) }
    {
        if self.is_sending() {
            return Err(ProtocolError::ContinuationStarted);
        }
        match self.send(dst, payload, op, false) {
            Ok(()) => {
                self.set_sending(true);
                Ok(())
            }
            Err(error) => Err(error),
        }
    }

    /// Writes a fragment that goes on with a message, or ends it.
    fn send_next(
        &mut self,
        dst: &mut BytesMut,
        payload: &[u8],
        is_last: bool,
    ) -> Result<(), ProtocolError>
        ensures text { OnOk result (dst.new.items
            ≡ dst.old.items ++ written (mask_drawn (codec_server self.old) (R.stream (codec_words self.old))) is_last (opcode_written OpCode.Continue) payload.now) }
        ensures words { OnOk result (R.stream (codec_words self.new) ≡ words_left (codec_server self.old) (R.stream (codec_words self.old))) }
        ensures before { OnOk result (codec_sending self.old ≡ true) }
        ensures after { OnOk result (codec_sending self.new ≡ (if is_last then false else true)) }
        ensures others { OnOk result (self.new ≡ with_sending (codec_words self.new) (codec_sending self.new) self.old) }
        ensures err { OnErr result ((dst.new.items ≡ dst.old.items) × (self.new ≡ self.old)) }
        ensures cause { IfErr result (λ e. e ≡ error_for (if codec_sending self.old then None else Some continuation_not_started)) }
    {
        if !self.is_sending() {
            return Err(ProtocolError::ContinuationNotStarted);
        }
        match self.send(dst, payload, OpCode::Continue, is_last) {
            Ok(()) => {
                self.set_sending(!is_last);
                Ok(())
            }
            Err(error) => Err(error),
        }
    }
}

/// The payload of a Close: a code and a text, or nothing.
pub(crate) fn close_bytes(alloc: Global, reason: Option<CloseReason>) -> Result<BytesMut, NoMemory>
    ensures { IfOk result (λ payload. payload.items ≡ close_payload (option_map reason_says reason)) }
{
    match reason {
        None => Ok(BytesMut::new(alloc)),
        Some(reason) => reason_bytes(alloc, reason),
    }
}

/// A code in two bytes, and the text behind it.
fn reason_bytes(alloc: Global, reason: CloseReason) -> Result<BytesMut, NoMemory>
    ensures { IfOk result (λ payload. payload.items ≡ close_payload (Some (reason_says reason))) }
{
    let mut payload = BytesMut::new(alloc);
    payload.extend_from_slice(&u16::from(reason.code).to_be_bytes())?;
    match reason.description {
        Some(text) => {
            payload.extend_from_slice(text.as_bytes())?;
            Ok(payload)
        }
        None => Ok(payload),
    }
}
