//! Frames and messages that are written, and masks.
use crate::frames::numbers::{number_of, opcode_of};
use crate::frames::shown::put_error;
use bytes::{Bytes, BytesMut};
use http_types::NoMemory;
use std::alloc::Global;
use vectors::{Case, Report};
use ws_frames::{CloseCode, CloseReason, Codec, Item, Message, NoWords, Parser, apply_mask_fast32};

// The mask of four bytes that the argument is, or none where it is `-`; nothing where it is neither.
fn mask_of(case: &Case<'_>, index: usize) -> Option<Option<[u8; 4]>> {
    match case.argument(index) {
        b"-" => Some(None),
        [a, b, c, d] => Some(Some([*a, *b, *c, *d])),
        _ => None,
    }
}

/// `mask MASK PAYLOAD`: the payload under a mask of four bytes.
pub fn mask(alloc: Global, case: &Case<'_>, found: &mut Report) -> Result<bool, NoMemory> {
    let Some(Some(mask)) = mask_of(case, 0) else {
        return Ok(false);
    };
    let mut payload = BytesMut::copy_from_slice(alloc, case.argument(1))?;
    apply_mask_fast32(payload.as_mut_slice(), mask);
    found.put_quoted(payload.as_slice());
    Ok(true)
}

/// `write OPCODE last MASK PAYLOAD`, or `more` in the place of `last`: the text of a frame with the opcode of this number,
/// under a mask of four bytes, or `-`.
pub fn write(alloc: Global, case: &Case<'_>, found: &mut Report) -> Result<bool, NoMemory> {
    let Some(op) = opcode_of(case, 0) else {
        return Ok(false);
    };
    let Some(mask) = mask_of(case, 2) else {
        return Ok(false);
    };
    let finished = case.argument(1) == b"last".as_slice();
    let mut text = BytesMut::new(alloc);
    match Parser::write_message(&mut text, case.argument(3), op, finished, mask) {
        Ok(()) => found.put_quoted(text.as_slice()),
        Err(_) => found.lose(),
    }
    Ok(true)
}

/// `put-close MASK`, `put-close MASK CODE`, `put-close MASK CODE TEXT`: the text of a Close.
pub fn put_close(alloc: Global, case: &Case<'_>, found: &mut Report) -> Result<bool, NoMemory> {
    let Some(mask) = mask_of(case, 0) else {
        return Ok(false);
    };
    let reason = reason_of(alloc, case)?;
    let mut text = BytesMut::new(alloc);
    match Parser::write_close(alloc, &mut text, reason, mask) {
        Ok(()) => found.put_quoted(text.as_slice()),
        Err(_) => found.lose(),
    }
    Ok(true)
}

// The reason that the case names, if it names one.
fn reason_of(alloc: Global, case: &Case<'_>) -> Result<Option<CloseReason>, NoMemory> {
    let Some(number) = number_of(case, 1) else {
        return Ok(None);
    };
    let code = CloseCode::from(number);
    match case.text(2) {
        Some(text) => Ok(Some(described(alloc, code, text)?)),
        None => Ok(Some(CloseReason::from(code))),
    }
}

fn described(alloc: Global, code: CloseCode, text: &str) -> Result<CloseReason, NoMemory> {
    let text = String::from_str(alloc, text)?;
    Ok(CloseReason::from((code, text)))
}

/// `send KIND PAYLOAD KIND PAYLOAD ..`: what a server's codec writes for these messages, one after another: the bytes, or
/// why the message isn't sent, and then the bytes that were written all the same. The payload of a Close is its code.
pub fn send(alloc: Global, case: &Case<'_>, found: &mut Report) -> Result<bool, NoMemory> {
    let mut codec = Codec::new();
    let mut is_first = true;
    for pair in case.arguments.chunks_exact(2) {
        let Some(message) = message_of(alloc, pair[0].as_slice(), pair[1].as_slice())? else {
            return Ok(false);
        };
        if !is_first {
            found.put_text(" ");
        }
        is_first = false;
        send_one(alloc, &mut codec, message, found);
    }
    Ok(true)
}

fn send_one(alloc: Global, codec: &mut Codec<NoWords>, message: Message, found: &mut Report) {
    let mut text = BytesMut::new(alloc);
    if let Err(error) = codec.encode(alloc, message, &mut text) {
        put_error(alloc, error, found);
        if text.is_empty() {
            return;
        }
    }
    found.put_quoted(text.as_slice());
}

// The message of this kind; none where there is no such kind, or the payload isn't that kind's.
fn message_of(alloc: Global, kind: &[u8], payload: &[u8]) -> Result<Option<Message>, NoMemory> {
    match kind {
        b"text" => text_of(alloc, payload),
        b"close" => Ok(close_of(payload)),
        b"nop" => Ok(Some(Message::Nop)),
        _ => {
            let payload = Bytes::copy_from_slice(alloc, payload)?;
            Ok(bytes_of(kind, payload))
        }
    }
}

fn text_of(alloc: Global, payload: &[u8]) -> Result<Option<Message>, NoMemory> {
    match str::from_utf8(payload) {
        Ok(text) => Ok(Some(Message::Text(String::from_str(alloc, text)?))),
        Err(_) => Ok(None),
    }
}

// A Close with the code whose four digits these are.
fn close_of(digits: &[u8]) -> Option<Message> {
    let text = str::from_utf8(digits).ok()?;
    let number: u16 = text.parse().ok()?;
    let reason = CloseReason::from(CloseCode::from(number));
    Some(Message::Close(Some(reason)))
}

fn bytes_of(kind: &[u8], payload: Bytes) -> Option<Message> {
    match kind {
        b"binary" => Some(Message::Binary(payload)),
        b"ping" => Some(Message::Ping(payload)),
        b"pong" => Some(Message::Pong(payload)),
        b"first-text" => Some(Message::Continuation(Item::FirstText(payload))),
        b"first-binary" => Some(Message::Continuation(Item::FirstBinary(payload))),
        b"continue" => Some(Message::Continuation(Item::Continue(payload))),
        b"last" => Some(Message::Continuation(Item::Last(payload))),
        _ => None,
    }
}
