//! The texts of frames (RFC 6455, sections 5.2 and 5.3).
ghost use Rattle.std.specs.Prelude.{◌≡◌, ◌+◌, ◌^◌, ◌<◌, ◌≤◌, [], ◌∷◌, ◌++◌, length, take, drop, None, Some, true, OnOk, OnErr};
ghost use Rattle.model_h1.specs.FrameText.{first_byte, length_field, unmask};
ghost use Rattle.ws_frames.specs.Protocol.{opcode_written};
ghost use Rattle.ws_frames.specs.Written.{masked_field, written};

use crate::NoMemory;
use crate::mask::apply_mask;
use crate::proto::OpCode;
use bytes::BytesMut;

/// The most bytes in front of a payload, those of the mask with them.
const MAX_HEADER: usize = 14;

/// Writes a frame: its first byte, its length in the shortest form, the mask, and the payload under it.
pub(crate) fn write_frame(
    dst: &mut BytesMut,
    payload: &[u8],
    op: OpCode,
    finished: bool,
    mask: Option<[u8; 4]>,
) -> Result<(), NoMemory>
    ensures ok { OnOk result (dst.new.items ≡ dst.old.items ++ written mask finished (opcode_written op) payload.now) }
    ensures err { OnErr result (dst.new.items ≡ dst.old.items) }
{
    dst.reserve(MAX_HEADER + payload.len())?;
    put_frame(dst, payload, op, finished, mask);
    Ok(())
}

/// Makes room for a frame with this payload, and says whether there was memory for it.
pub(crate) fn reserve_frame(dst: &mut BytesMut, payload: &[u8]) -> bool
    ensures items { dst.new.items ≡ dst.old.items }
    ensures room { result ≡ true → MAX_HEADER + length payload.now ≤ dst.new.spare }
{
    dst.reserve(MAX_HEADER + payload.len()).is_ok()
}

/// Writes a frame for which there is room.
pub(crate) fn put_frame(
    dst: &mut BytesMut,
    payload: &[u8],
    op: OpCode,
    finished: bool,
    mask: Option<[u8; 4]>,
)
    requires { MAX_HEADER + length payload.now ≤ dst.old.spare }
    ensures { dst.new.items ≡ dst.old.items ++ written mask finished (opcode_written op) payload.now }
{
    put_byte(dst, first_byte(op, finished));
    match mask {
        None => {
            put_length(dst, payload.len());
            dst.extend_reserved(payload);
        }
        Some(mask) => {
            put_masked_length(dst, payload.len());
            dst.extend_reserved(&mask);
            put_masked(dst, payload, mask);
        }
    }
}

/// The first byte of a frame.
fn first_byte(op: OpCode, finished: bool) -> u8
    ensures { result ≡ first_byte finished (opcode_written op) }
{
    let number = u8::from(op);
    if finished { 128 + number } else { number }
}

/// One byte more, for which there is room.
fn put_byte(dst: &mut BytesMut, byte: u8)
    requires { 1 ≤ dst.old.spare }
    ensures items { dst.new.items ≡ dst.old.items ++ byte ∷ [] }
    ensures spare { dst.new.spare + 1 ≡ dst.old.spare }
{
    dst.extend_reserved(&[byte]);
}

/// A length in its shortest form, for which there is room.
fn put_length(dst: &mut BytesMut, len: usize)
    requires { 9 ≤ dst.old.spare }
    ensures items { dst.new.items ≡ dst.old.items ++ length_field len }
    ensures spare { dst.old.spare ≤ dst.new.spare + 9 }
{
    if len < 126 {
        put_byte(dst, len as u8);
    } else if len < 65536 {
        put_byte(dst, 126);
        dst.extend_reserved(&(len as u16).to_be_bytes());
    } else {
        put_byte(dst, 127);
        dst.extend_reserved(&(len as u64).to_be_bytes());
    }
}

/// A length in its shortest form, with the bit of the mask.
fn put_masked_length(dst: &mut BytesMut, len: usize)
    requires { 9 ≤ dst.old.spare }
    ensures items { dst.new.items ≡ dst.old.items ++ masked_field (length_field len) }
    ensures spare { dst.old.spare ≤ dst.new.spare + 9 }
{
    if len < 126 {
        put_byte(dst, 128 + len as u8);
    } else if len < 65536 {
        put_byte(dst, 254);
        dst.extend_reserved(&(len as u16).to_be_bytes());
    } else {
        put_byte(dst, 255);
        dst.extend_reserved(&(len as u64).to_be_bytes());
    }
}

/// A payload under its mask, for which there is room.
fn put_masked(dst: &mut BytesMut, payload: &[u8], mask: [u8; 4])
    requires { length payload.now ≤ dst.old.spare }
    ensures { dst.new.items ≡ dst.old.items ++ unmask mask 0 payload.now }
{
    let from = dst.len();
    dst.extend_reserved(payload);
    mask_part(dst, from, payload.len(), mask);
}

/// Puts the mask on a part of the bytes, or takes it off.
pub(crate) fn mask_part(bytes: &mut BytesMut, from: usize, len: usize, mask: [u8; 4])
    requires { from + len ≤ length bytes.old.items }
    ensures items { bytes.new.items
        ≡ take from bytes.old.items ++ (unmask mask 0 (take len (drop from bytes.old.items)) ++ drop (from + len) bytes.old.items) }
    ensures spare { bytes.new.spare ≡ bytes.old.spare }
{
    apply_mask(&mut bytes.as_mut_slice()[from..from + len], mask);
}
