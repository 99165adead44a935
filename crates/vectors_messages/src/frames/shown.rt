//! How frames, closes and errors are written.
use crate::frames::numbers::put_opcode;
use std::alloc::Global;
use vectors::Report;
use ws_frames::{CloseCode, CloseReason, Frame, Item, ProtocolError};

/// The word of a close code.
pub fn code_word(code: CloseCode) -> &'static str {
    match code {
        CloseCode::Normal => "normal",
        CloseCode::Away => "away",
        CloseCode::Protocol => "protocol",
        CloseCode::Unsupported => "unsupported",
        CloseCode::Abnormal => "abnormal",
        CloseCode::Invalid => "invalid",
        CloseCode::Policy => "policy",
        CloseCode::Size => "size",
        CloseCode::Extension => "extension",
        CloseCode::Error => "error",
        CloseCode::Restart => "restart",
        CloseCode::Again => "again",
        CloseCode::Tls => "tls",
        CloseCode::Other(_) => "other",
    }
}

/// A reason: its code's number, and its text where it has one; `none` where there is no reason.
pub fn put_reason(reason: &Option<CloseReason>, found: &mut Report) {
    let Some(reason) = reason else {
        return found.put_text("none");
    };
    found.put_decimal(u64::from(u16::from(reason.code)));
    match &reason.description {
        Some(text) => {
            found.put_text(" ");
            found.put_quoted(text.as_bytes());
        }
        None => {}
    }
}

/// A frame: its kind and its payload; of a Close, its reason.
pub fn put_frame(frame: &Frame, found: &mut Report) {
    match frame {
        Frame::Text(payload) => put_payload("text ", payload.as_slice(), found),
        Frame::Binary(payload) => put_payload("binary ", payload.as_slice(), found),
        Frame::Continuation(item) => put_item(item, found),
        Frame::Ping(payload) => put_payload("ping ", payload.as_slice(), found),
        Frame::Pong(payload) => put_payload("pong ", payload.as_slice(), found),
        Frame::Close(reason) => {
            found.put_text("close ");
            put_reason(reason, found)
        }
    }
}

fn put_item(item: &Item, found: &mut Report) {
    match item {
        Item::FirstText(payload) => put_payload("first-text ", payload.as_slice(), found),
        Item::FirstBinary(payload) => put_payload("first-binary ", payload.as_slice(), found),
        Item::Continue(payload) => put_payload("continue ", payload.as_slice(), found),
        Item::Last(payload) => put_payload("last ", payload.as_slice(), found),
    }
}

fn put_payload(kind: &str, payload: &[u8], found: &mut Report) {
    found.put_text(kind);
    found.put_quoted(payload);
}

/// An error: its word, and the number or the opcode that it has.
pub fn put_error(alloc: Global, error: ProtocolError, found: &mut Report) {
    found.put_text(error_word(error));
    match error {
        ProtocolError::InvalidOpcode(number) => found.put_decimal(u64::from(number)),
        ProtocolError::InvalidLength(length) => found.put_decimal(length as u64),
        ProtocolError::ContinuationFragment(op) => put_opcode(alloc, op, found),
        ProtocolError::NoMemory => found.lose(),
        _ => {}
    }
}

fn error_word(error: ProtocolError) -> &'static str {
    match error {
        ProtocolError::UnmaskedFrame => "unmasked",
        ProtocolError::MaskedFrame => "masked",
        ProtocolError::InvalidOpcode(_) => "opcode ",
        ProtocolError::InvalidReservedBits => "reserved-bits",
        ProtocolError::InvalidLength(_) => "length ",
        ProtocolError::BadOpCode => "reason",
        ProtocolError::Overflow => "overflow",
        ProtocolError::ContinuationNotStarted => "not-started",
        ProtocolError::ContinuationStarted => "started",
        ProtocolError::ContinuationFragment(_) => "fragment ",
        ProtocolError::Io | ProtocolError::NoMemory => "another",
    }
}
