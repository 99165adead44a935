// The bytes of the messages that a server sends: no mask is put on them (RFC 6455, section 5.1).
ghost use Rattle.std.specs.Prelude.{◌≡◌, ◌++◌, true, Some, IfOk, OnErr, OnOk, IsOk, option_map};
ghost use Rattle.model_h1.specs.Frame.{nop};
ghost use Rattle.model_h1.specs.FrameText.{close_payload, print_frame, frame_text};
ghost use Rattle.model_h1.specs.Text.{message_text};
ghost use Rattle.ws_frames.specs.Close.{reason_says};
ghost use Rattle.ws_frames.specs.Codec.{item_says};
ghost use Rattle.ws_frames.specs.Protocol.{opcode_written};
ghost use Rattle.ws_frames.specs.Sent.{message_says};

use bytes::BytesMut;
use http_types::NoMemory;
use std::alloc::Global;
use ws_frames::{CloseReason, Item, Message, OpCode, Parser};

/// Puts a message behind the bytes. To put nothing takes no memory.
#[tactic(auto, unfolding(model_h1::specs::FrameText::frame_text))]
pub fn put_message(out: &mut BytesMut, message: &Message) -> Result<(), NoMemory>
    ensures ok { OnOk result (out.new.items ≡ out.old.items ++ message_text (message_says message.now)) }
    ensures err { OnErr result (out.new.items ≡ out.old.items) }
    ensures nothing { message_says message.now ≡ nop → IsOk result }
{
    match message {
        Message::Text(text) => put_frame(out, text.as_bytes(), OpCode::Text),
        Message::Binary(payload) => put_frame(out, payload.as_slice(), OpCode::Binary),
        Message::Continuation(item) => put_fragment(out, item),
        Message::Ping(payload) => put_frame(out, payload.as_slice(), OpCode::Ping),
        Message::Pong(payload) => put_frame(out, payload.as_slice(), OpCode::Pong),
        Message::Close(reason) => {
            let payload = close_bytes(*out.allocator(), reason)?;
            put_frame(out, payload.as_slice(), OpCode::Close)
        }
        Message::Nop => Ok(()),
    }
}

// A frame that is all of its message.
fn put_frame(out: &mut BytesMut, payload: &[u8], op: OpCode) -> Result<(), NoMemory>
    ensures ok { OnOk result (out.new.items ≡ out.old.items ++ print_frame true (opcode_written op) payload.now) }
    ensures err { OnErr result (out.new.items ≡ out.old.items) }
{
    Parser::write_message(out, payload, op, true, None)
}

// A frame that is a part of a message (RFC 6455, section 5.4).
#[tactic(auto, unfolding(model_h1::specs::FrameText::frame_text))]
fn put_fragment(out: &mut BytesMut, item: &Item) -> Result<(), NoMemory>
    ensures ok { OnOk result (out.new.items ≡ out.old.items ++ frame_text (item_says item.now)) }
    ensures err { OnErr result (out.new.items ≡ out.old.items) }
{
    match item {
        Item::FirstText(payload) => {
            Parser::write_message(out, payload.as_slice(), OpCode::Text, false, None)
        }
        Item::FirstBinary(payload) => {
            Parser::write_message(out, payload.as_slice(), OpCode::Binary, false, None)
        }
        Item::Continue(payload) => {
            Parser::write_message(out, payload.as_slice(), OpCode::Continue, false, None)
        }
        Item::Last(payload) => {
            Parser::write_message(out, payload.as_slice(), OpCode::Continue, true, None)
        }
    }
}

// The payload of a Close: nothing, or a code in two bytes and a text (RFC 6455, section 5.5.1).
fn close_bytes(alloc: Global, reason: &Option<CloseReason>) -> Result<BytesMut, NoMemory>
    ensures { IfOk result (λ payload. payload.items ≡ close_payload (option_map reason_says reason.now)) }
{
    match reason {
        Some(reason) => reason_bytes(alloc, reason),
        None => Ok(BytesMut::new(alloc)),
    }
}

fn reason_bytes(alloc: Global, reason: &CloseReason) -> Result<BytesMut, NoMemory>
    ensures { IfOk result (λ payload. payload.items ≡ close_payload (Some (reason_says reason.now))) }
{
    let mut payload = BytesMut::new(alloc);
    payload.extend_from_slice(&u16::from(reason.code).to_be_bytes())?;
    if let Some(text) = &reason.description {
        payload.extend_from_slice(text.as_bytes())?;
    }
    Ok(payload)
}
