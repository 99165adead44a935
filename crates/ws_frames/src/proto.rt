//! Opcodes, close codes, and the answer to a key.
ghost use Rattle.std.specs.Prelude.{◌≡◌, Some, None, IfOk, option_map, string_bytes};
ghost use Rattle.model_h1.specs.FrameText.{opcode_of, opcode_number};
ghost use Rattle.model_h1.specs.Handshake.{accept_key, base64};
ghost use Rattle.ws_frames.specs.Copies.{IsReasonCopy};
ghost use Rattle.ws_frames.specs.Protocol.{code_of, opcode_written, opcode_text, close_number, close_code};

use crate::NoMemory;
use base64::engine::general_purpose::STANDARD;
use sha1::Sha1;
use std::fmt;
use std::fmt::{Display, Formatter, Write};

/// What a frame is (RFC 6455, section 5.2).
#[derive(Clone, Copy, Debug, PartialEq, Eq)]
pub enum OpCode {
    /// It goes on with a message.
    Continue,
    /// It is a message of text, or its first fragment.
    Text,
    /// It is a message of bytes, or its first fragment.
    Binary,
    /// It ends the connection.
    Close,
    /// It asks for a Pong.
    Ping,
    /// It answers a Ping.
    Pong,
    /// No opcode has its number.
    Bad,
}

impl From<u8> for OpCode {
    ghost from_gives = { λ number op. op ≡ code_of (opcode_of number) };

    fn from(number: u8) -> OpCode {
        match number {
            0 => OpCode::Continue,
            1 => OpCode::Text,
            2 => OpCode::Binary,
            8 => OpCode::Close,
            9 => OpCode::Ping,
            10 => OpCode::Pong,
            _ => OpCode::Bad,
        }
    }
}

impl From<OpCode> for u8 {
    ghost from_gives = { λ op number. number ≡ opcode_number (opcode_written op) };

    fn from(op: OpCode) -> u8 {
        match op {
            OpCode::Continue => 0,
            OpCode::Text => 1,
            OpCode::Binary => 2,
            OpCode::Close | OpCode::Bad => 8,
            OpCode::Ping => 9,
            OpCode::Pong => 10,
        }
    }
}

impl Display for OpCode {
    ghost output = { λ op. Some (opcode_text op) };

    fn fmt<W: Write>(&self, f: &mut Formatter<W>) -> fmt::Result {
        f.write_str(match self {
            OpCode::Continue => "CONTINUE",
            OpCode::Text => "TEXT",
            OpCode::Binary => "BINARY",
            OpCode::Close => "CLOSE",
            OpCode::Ping => "PING",
            OpCode::Pong => "PONG",
            OpCode::Bad => "BAD",
        })
    }
}

/// Why a connection closes (RFC 6455, section 7.4).
#[derive(Clone, Copy, Debug, PartialEq, Eq)]
pub enum CloseCode {
    /// 1000: its purpose is fulfilled.
    Normal,
    /// 1001: the peer goes away.
    Away,
    /// 1002: a rule of the protocol was broken.
    Protocol,
    /// 1003: messages of this kind are not taken.
    Unsupported,
    /// 1006: it ended without a Close. This is never sent.
    Abnormal,
    /// 1007: a message was not what its kind says, as text that is not UTF-8.
    Invalid,
    /// 1008: a message breaks a policy of the peer.
    Policy,
    /// 1009: a message is too large.
    Size,
    /// 1010: a client wanted an extension.
    Extension,
    /// 1011: a server met with an error of its own.
    Error,
    /// 1012: the server starts anew.
    Restart,
    /// 1013: the server asks to try again later.
    Again,
    /// 1015: the secure connection failed. This is never sent.
    Tls,
    /// Another number.
    Other(u16),
}

impl From<u16> for CloseCode {
    ghost from_gives = { λ number code. code ≡ close_code number };

    fn from(number: u16) -> CloseCode {
        match number {
            1000 => CloseCode::Normal,
            1001 => CloseCode::Away,
            1002 => CloseCode::Protocol,
            1003 => CloseCode::Unsupported,
            1006 => CloseCode::Abnormal,
            1007 => CloseCode::Invalid,
            1008 => CloseCode::Policy,
            1009 => CloseCode::Size,
            1010 => CloseCode::Extension,
            1011 => CloseCode::Error,
            1012 => CloseCode::Restart,
            1013 => CloseCode::Again,
            1015 => CloseCode::Tls,
            other => CloseCode::Other(other),
        }
    }
}

impl From<CloseCode> for u16 {
    ghost from_gives = { λ code number. number ≡ close_number code };

    fn from(code: CloseCode) -> u16 {
        match code {
            CloseCode::Normal => 1000,
            CloseCode::Away => 1001,
            CloseCode::Protocol => 1002,
            CloseCode::Unsupported => 1003,
            CloseCode::Abnormal => 1006,
            CloseCode::Invalid => 1007,
            CloseCode::Policy => 1008,
            CloseCode::Size => 1009,
            CloseCode::Extension => 1010,
            CloseCode::Error => 1011,
            CloseCode::Restart => 1012,
            CloseCode::Again => 1013,
            CloseCode::Tls => 1015,
            CloseCode::Other(other) => other,
        }
    }
}

/// Why a connection closes, and perhaps a text on it (RFC 6455, section 5.5.1).
#[derive(Debug, PartialEq, Eq, Drop)]
pub struct CloseReason {
    /// The code.
    pub code: CloseCode,

    /// A text for the logs of the peer.
    pub description: Option<String>,
}

impl CloseReason {
    /// An equal reason, as `clone` gives it too.
    pub fn copy(&self) -> Result<CloseReason, NoMemory>
        ensures { IfOk result (λ copy. IsReasonCopy (Some copy) (Some self.now)) }
    {
        Ok(CloseReason {
            code: self.code,
            description: copy_text(&self.description)?,
        })
    }
}

impl Clone for CloseReason {
    ghost is_clone = { λ reason copy. IsReasonCopy (Some copy) (Some reason) };

    fn clone(&self) -> Result<CloseReason, NoMemory> {
        self.copy()
    }
}

/// An equal reason, if there is one.
pub(crate) fn copy_reason(reason: &Option<CloseReason>) -> Result<Option<CloseReason>, NoMemory>
    ensures { IfOk result (λ copy. IsReasonCopy copy reason.now) }
{
    match reason {
        Some(reason) => Ok(Some(reason.copy()?)),
        None => Ok(None),
    }
}

/// The same text, if there is one.
fn copy_text(text: &Option<String>) -> Result<Option<String>, NoMemory>
    ensures { IfOk result (λ copy. option_map string_bytes copy ≡ option_map string_bytes text.now) }
{
    match text {
        Some(text) => Ok(Some(text.clone()?)),
        None => Ok(None),
    }
}

impl From<CloseCode> for CloseReason {
    ghost from_gives = { λ code reason. reason ≡ record { code = code; description = None } };

    fn from(code: CloseCode) -> CloseReason {
        CloseReason {
            code,
            description: None,
        }
    }
}

impl From<(CloseCode, String)> for CloseReason {
    ghost from_gives = { λ pair reason. reason ≡ record { code = pair.0; description = Some pair.1 } };

    fn from((code, description): (CloseCode, String)) -> CloseReason {
        CloseReason {
            code,
            description: Some(description),
        }
    }
}

/// The text that a key is hashed with (RFC 6455, section 1.3).
const KEY_SUFFIX: &[u8; 36] = b"258EAFA5-E914-47DA-95CA-C5AB0DC85B11";

/// The answer to a client's key: base64 of the SHA-1 digest of the key and a fixed text (RFC 6455, section 4.2.2).
pub fn hash_key(key: &[u8]) -> [u8; 28]
    ensures { result ≡ accept_key key.now }
{
    let mut hasher = Sha1::new();
    hasher.update(key);
    hasher.update(KEY_SUFFIX);
    base64_of(&hasher.finalize())
}

/// A digest in base64.
fn base64_of(digest: &[u8; 20]) -> [u8; 28]
    ensures { result ≡ base64 digest.now }
{
    let mut text = [0; 28];
    let _written = STANDARD.encode_slice(digest, &mut text);
    text
}
