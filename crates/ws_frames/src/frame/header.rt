//! What stands in front of a payload (RFC 6455, section 5.2).
ghost use Rattle.std.specs.Prelude.{◌≡◌, ℕ, ◌+◌, ◌%◌, ◌^◌, ◌<◌, ◌≤◌, Bool, length, IfSome};
ghost use Rattle.model_h1.specs.FrameText.{opcode_of, opcode_error, frame_start, start_error};
ghost use Rattle.ws_frames.specs.Fronts.{early, EarlySays};
ghost use Rattle.ws_frames.specs.Header.{start_read, length_there, head_read, declared, FoundSays, HeaderSays, spelled_at};
ghost use Rattle.ws_frames.specs.Parsed.{late_reader, head_front, parsed};

use crate::error::ProtocolError;
use crate::proto::OpCode;

/// The most bytes of a control frame's payload.
const MAX_CONTROL_PAYLOAD: usize = 125;

/// The parts of a header that are kept.
#[derive(Clone, Copy, Debug, PartialEq, Eq)]
pub(crate) struct Header {
    pub(crate) finished: bool,
    pub(crate) op: OpCode,
    pub(crate) header_len: usize,
    pub(crate) payload_len: u64,
}

/// What was found at the front of bytes.
#[derive(Clone, Copy, Debug, PartialEq, Eq)]
pub(crate) enum Found {
    /// No whole frame yet.
    Waits,
    /// A broken rule, and how many bytes it costs.
    Refuses(ProtocolError, usize),
    /// A frame: whether it is the last of its message, its opcode, the bytes in front of its payload, and those of the payload.
    Takes(bool, OpCode, usize, usize),
}

/// The length that the frame at the front declares, once it is there. The errors are those of the first two bytes.
pub(crate) fn declared_len(src: &[u8], server: bool) -> Result<Option<u64>, ProtocolError>
    ensures { (max : ℕ) → result ≡ declared (head_front (late_reader server max) src.now) }
{
    match read_header(src, server) {
        Ok(Some(header)) => Ok(Some(header.payload_len)),
        Ok(None) => Ok(None),
        Err(error) => Err(error),
    }
}

/// What is taken from the front of the bytes.
pub(crate) fn find_frame(src: &[u8], server: bool, max_size: usize) -> Found
    ensures { FoundSays server src.now result (parsed server max_size src.now) }
{
    match read_header(src, server) {
        Ok(Some(header)) => find_payload(src, max_size, header),
        Ok(None) => Found::Waits,
        Err(error) => Found::Refuses(error, 0),
    }
}

/// What is taken from the front of the bytes, where a payload above the limit is refused as soon as its length is there.
pub(crate) fn find_front(src: &[u8], server: bool, limit: usize) -> Found
    ensures { FoundSays server src.now result (early server limit src.now) }
{
    match read_header(src, server) {
        Ok(Some(header)) => find_within(src, limit, header),
        Ok(None) => Found::Waits,
        Err(error) => Found::Refuses(error, 0),
    }
}

/// The same of a frame with this header. One that is longer than all bytes isn't there yet, however long it is.
fn find_within(src: &[u8], limit: usize, header: Header) -> Found
    ensures { (server : Bool) → EarlySays server limit src.now header result }
{
    if header.payload_len > limit as u64 {
        return Found::Refuses(ProtocolError::Overflow, 0);
    }
    if header.payload_len > src.len() as u64 {
        return Found::Waits;
    }
    find_payload(src, limit, header)
}

/// What is taken of a frame with this header.
fn find_payload(src: &[u8], max_size: usize, header: Header) -> Found
    ensures { (server : Bool) → HeaderSays server max_size src.now header result }
{
    let Some(frame_len) = header.payload_len.checked_add(header.header_len as u64) else {
        return Found::Refuses(ProtocolError::Overflow, 0);
    };
    if (src.len() as u64) < frame_len {
        return Found::Waits;
    }
    let (frame_len, payload_len) = (frame_len as usize, header.payload_len as usize);
    if payload_len > max_size {
        return Found::Refuses(ProtocolError::Overflow, frame_len);
    }
    if payload_len > MAX_CONTROL_PAYLOAD {
        match header.op {
            OpCode::Close => return Found::Takes(true, OpCode::Close, frame_len, 0),
            OpCode::Ping | OpCode::Pong => {
                return Found::Refuses(ProtocolError::InvalidLength(payload_len), frame_len);
            }
            _ => {}
        }
    }
    Found::Takes(header.finished, header.op, header.header_len, payload_len)
}

/// The header at the front, once it is there.
fn read_header(src: &[u8], server: bool) -> Result<Option<Header>, ProtocolError>
    ensures { (max : ℕ) → result ≡ head_read (head_front (late_reader server max) src.now) }
{
    if src.len() < 2 {
        return Ok(None);
    }
    let (first, second) = (src[0], src[1]);
    let op = match read_start(first, second, server) {
        Ok(op) => op,
        Err(error) => return Err(error),
    };
    let Some((length_bytes, payload_len)) = read_length(second, &src[2..]) else {
        return Ok(None);
    };
    let mask_bytes = if second >= 128 { 4 } else { 0 };
    Ok(Some(Header {
        finished: first >= 128,
        op,
        header_len: 2 + length_bytes + mask_bytes,
        payload_len,
    }))
}

/// The opcode, where the first two bytes break no rule: no reserved bit is set, a server wants a mask
/// and a client none, and the opcode has a meaning.
fn read_start(first: u8, second: u8, server: bool) -> Result<OpCode, ProtocolError>
    ensures { (max : ℕ) → result ≡ start_read (start_error (late_reader server max) (frame_start first second)) (opcode_of (first % 16)) }
{
    if first / 16 % 8 != 0 {
        return Err(ProtocolError::InvalidReservedBits);
    }
    match (server, second >= 128) {
        (true, false) => Err(ProtocolError::UnmaskedFrame),
        (false, true) => Err(ProtocolError::MaskedFrame),
        _ => read_opcode(first % 16),
    }
}

/// The opcode of this number.
fn read_opcode(number: u8) -> Result<OpCode, ProtocolError>
    ensures { result ≡ start_read (opcode_error (opcode_of number)) (opcode_of number) }
{
    match OpCode::from(number) {
        OpCode::Bad => Err(ProtocolError::InvalidOpcode(number)),
        op => Ok(op),
    }
}

/// How many bytes behind the first two hold the length, and the length, once they are there.
fn read_length(second: u8, rest: &[u8]) -> Option<(usize, u64)>
    ensures value { (first : ℕ) → result ≡ length_there (frame_start first second) rest.now }
    ensures bound { IfSome result (λ found. found.0 ≤ 8) }
{
    match second % 128 {
        126 => {
            if rest.len() < 2 {
                return None;
            }
            Some((2, rest[0] as u64 * 256 + rest[1] as u64))
        }
        127 => {
            if rest.len() < 8 {
                return None;
            }
            Some((8, read_u32(rest, 0) * 4294967296 + read_u32(rest, 4)))
        }
        short => Some((0, short as u64)),
    }
}

/// Four bytes in network order.
fn read_u32(bytes: &[u8], at: usize) -> u64
    requires { at + 4 ≤ length bytes.now }
    ensures value { result ≡ spelled_at bytes.now at }
    ensures bound { result < 2 ^ 32 }
{
    ((bytes[at] as u64 * 256 + bytes[at + 1] as u64) * 256 + bytes[at + 2] as u64) * 256
        + bytes[at + 3] as u64
}
