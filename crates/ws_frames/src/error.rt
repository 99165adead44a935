//! Why bytes are no frames, or a message may not be sent.
use crate::proto::OpCode;
use http_types::{Cause, Kind};
use thiserror::Error;

/// The rule that a frame breaks (RFC 6455, sections 5 and 7.4).
#[derive(Clone, Copy, Debug, PartialEq, Eq, Error)]
pub enum ProtocolError {
    /// A server was sent a frame without a mask.
    #[error("a frame without a mask")]
    UnmaskedFrame,
    /// A client was sent a frame with a mask.
    #[error("a frame with a mask")]
    MaskedFrame,
    /// No opcode has this number.
    #[error("an unknown opcode: {0}")]
    InvalidOpcode(u8),
    /// A reserved bit is set.
    #[error("a reserved bit is set")]
    InvalidReservedBits,
    /// A control frame may not have a payload of this many bytes.
    #[error("a payload of {0} bytes in a control frame")]
    InvalidLength(usize),
    /// The payload of a Close has a code that may not be sent, or a text that is not UTF-8.
    #[error("a malformed close reason")]
    BadOpCode,
    /// The payload is longer than the reader takes.
    #[error("a payload above the limit")]
    Overflow,
    /// A fragment goes on with a message that has not begun.
    #[error("a fragment of no message")]
    ContinuationNotStarted,
    /// A message begins inside another one.
    #[error("a message inside another one")]
    ContinuationStarted,
    /// A frame of this opcode is always in one piece.
    #[error("a fragment with the opcode {0}")]
    ContinuationFragment(OpCode),
    /// Reading or writing failed. No call of this crate answers it.
    #[error("reading or writing failed")]
    Io,
    /// There was no memory for the frame.
    #[error("no memory is left")]
    NoMemory,
}

impl From<ProtocolError> for http_types::Error {
    ghost use Rattle.std.specs.Prelude.{◌≡◌};
    ghost use Rattle.ws_frames.specs.Causes.{of_protocol};

    ghost from_gives = { λ cause error. error ≡ of_protocol };

    fn from(_cause: ProtocolError) -> http_types::Error {
        http_types::Error {
            kind: Kind::Ws,
            cause: Some(Cause::Protocol),
        }
    }
}
