//! Frames read and written one by one, with no state.
ghost use Rattle.std.specs.Prelude.{◌≡◌, ◌<◌, ℕ, ◌++◌, length, true, Err, IfOk, OnOk, OnErr, option_map};
ghost use Rattle.model_h1.specs.FrameText.{close_frame, close_opcode, close_payload};
ghost use Rattle.ws_frames.specs.Close.{reason_says, CloseSays, HasName, lossy_reason};
ghost use Rattle.ws_frames.specs.Header.{declared};
ghost use Rattle.ws_frames.specs.ParserState.{ParseSays, IsPlain};
ghost use Rattle.ws_frames.specs.Parsed.{late_reader, head_front, parsed};
ghost use Rattle.ws_frames.specs.Protocol.{opcode_written};
ghost use Rattle.ws_frames.specs.Written.{written};

use crate::NoMemory;
use crate::error::ProtocolError;
use crate::frame::close::{read_any_close, read_close};
use crate::frame::header::{Found, declared_len, find_frame};
use crate::frame::text::write_frame;
use crate::proto::{CloseReason, OpCode};
use crate::send::close_bytes;
use crate::take::take_data;
use bytes::BytesMut;
use std::alloc::Global;

/// Reads and writes frames one by one. Which frame may stand where in a message is left to the caller.
#[derive(Clone, Copy, Debug, PartialEq, Eq)]
pub struct Parser;

impl Parser {
    /// The frame at the front, once it is whole: whether it is the last of its message, its opcode, which is never `Bad`,
    /// and its payload, if that isn't empty. A frame above the limit is refused once it is whole, and dropped. A Close with more than 125
    /// bytes is one without payload. Memory is taken for a whole frame alone; where it ran out, the buffer is as it was.
    pub fn parse(
        src: &mut BytesMut,
        server: bool,
        max_size: usize,
    ) -> Result<Option<(bool, OpCode, Option<BytesMut>)>, ProtocolError>
        ensures says { ParseSays result src.old.items src.new.items (parsed server max_size src.old.items) }
        ensures plain { IfOk result IsPlain }
    {
        match find_frame(src.as_slice(), server, max_size) {
            Found::Waits => Ok(None),
            Found::Refuses(error, dropped) => {
                src.advance(dropped);
                Err(error)
            }
            Found::Takes(finished, op, header_len, payload_len) => {
                match take_data(src, server, header_len, payload_len) {
                    Ok(payload) => Ok(Some((finished, op, payload))),
                    Err(_) => Err(ProtocolError::NoMemory),
                }
            }
        }
    }

    /// The length that the frame at the front declares, once it is there. The errors are those of its first two bytes.
    pub fn declared_len(src: &[u8], server: bool) -> Result<Option<u64>, ProtocolError>
        ensures { (max : ℕ) → result ≡ declared (head_front (late_reader server max) src.now) }
    {
        declared_len(src, server)
    }

    /// The reason that the payload of a Close gives, if it isn't empty: a code that may be sent, and a text of UTF-8. Memory
    /// is taken for a text alone.
    pub fn try_parse_close_payload(
        alloc: Global,
        payload: &[u8],
    ) -> Result<Option<CloseReason>, ProtocolError>
        ensures says { CloseSays result (close_frame payload.now) }
        ensures named { IfOk result HasName }
        ensures memory { result ≡ Err ProtocolError.NoMemory → 2 < length payload.now }
    {
        read_close(alloc, payload)
    }

    /// The reason that a payload gives, whatever its code; U+FFFD stands for what is no UTF-8. There is none below two bytes.
    /// Memory is taken for a text alone.
    pub fn parse_close_payload(
        alloc: Global,
        payload: &[u8],
    ) -> Result<Option<CloseReason>, NoMemory>
        ensures reason { IfOk result (λ reason. option_map reason_says reason ≡ lossy_reason payload.now) }
        ensures named { IfOk result HasName }
        ensures memory { OnErr result (2 < length payload.now) }
    {
        read_any_close(alloc, payload)
    }

    /// Writes a frame, under a mask if there is one. Where memory ran out, nothing is written.
    pub fn write_message(
        dst: &mut BytesMut,
        payload: &[u8],
        op: OpCode,
        finished: bool,
        mask: Option<[u8; 4]>,
    ) -> Result<(), NoMemory>
        ensures ok { OnOk result (dst.new.items ≡ dst.old.items ++ written mask finished (opcode_written op) payload.now) }
        ensures err { OnErr result (dst.new.items ≡ dst.old.items) }
    {
        write_frame(dst, payload, op, finished, mask)
    }

    /// Writes a Close with this reason, under a mask if there is one. Where memory ran out, nothing is written.
    pub fn write_close(
        alloc: Global,
        dst: &mut BytesMut,
        reason: Option<CloseReason>,
        mask: Option<[u8; 4]>,
    ) -> Result<(), NoMemory>
        ensures ok { OnOk result (dst.new.items ≡ dst.old.items ++ written mask true close_opcode (close_payload (option_map reason_says reason))) }
        ensures err { OnErr result (dst.new.items ≡ dst.old.items) }
    {
        match close_bytes(alloc, reason) {
            Ok(payload) => write_frame(dst, payload.as_slice(), OpCode::Close, true, mask),
            Err(error) => Err(error),
        }
    }
}
