//! Frames are taken from the front of a buffer; their payloads stay where they lie.
ghost use Rattle.std.specs.Prelude.{◌≡◌, ◌+◌, ◌-◌, ◌≤◌, true, length, take, drop, IfOk, OnOk, OnErr};
ghost use Rattle.model_h1.specs.FrameText.{close_frame};
ghost use Rattle.ws_frames.specs.Codec.{kind_frame, with_payload, TakenFrame, IsNamed};
ghost use Rattle.ws_frames.specs.CodecState.{JudgedTaken};
ghost use Rattle.ws_frames.specs.Header.{payload_at};
ghost use Rattle.ws_frames.specs.Judged.{judged_taken};
ghost use Rattle.ws_frames.specs.ParserState.{data_of, HasBytes};
ghost use Rattle.ws_frames.specs.Protocol.{opcode_written};

use crate::NoMemory;
use crate::error::ProtocolError;
use crate::frame::close::read_close;
use crate::frame::text::mask_part;
use crate::kind::{Kind, frame_of, goes_on, kind_of};
use crate::message::Frame;
use crate::proto::OpCode;
use bytes::{Bytes, BytesMut};
use std::alloc::Global;

/// The frame of this kind at the front, behind a header of so many bytes. After an error the buffer is as it was.
pub(crate) fn take_frame(
    alloc: Global,
    src: &mut BytesMut,
    server: bool,
    kind: Kind,
    header_len: usize,
    payload_len: usize,
) -> Result<Frame, ProtocolError>
    requires within { header_len + payload_len ≤ length src.old.items }
    requires masked { server ≡ true → 4 ≤ header_len }
    ensures taken { TakenFrame result (kind_frame kind (payload_at server header_len payload_len src.old.items)) (header_len + payload_len) src.old.items src.new.items }
    ensures named { IfOk result IsNamed }
{
    if kind == Kind::Close {
        return take_close(alloc, src, server, header_len, payload_len);
    }
    match take_payload(src, server, header_len, payload_len) {
        Ok(payload) => Ok(frame_of(kind, payload)),
        Err(_) => Err(ProtocolError::NoMemory),
    }
}

/// The Close at the front. After an error its mask is on again.
fn take_close(
    alloc: Global,
    src: &mut BytesMut,
    server: bool,
    header_len: usize,
    payload_len: usize,
) -> Result<Frame, ProtocolError>
    requires within { header_len + payload_len ≤ length src.old.items }
    requires masked { server ≡ true → 4 ≤ header_len }
    ensures taken { TakenFrame result (close_frame (payload_at server header_len payload_len src.old.items)) (header_len + payload_len) src.old.items src.new.items }
    ensures named { IfOk result IsNamed }
{
    let frame_len = frame_len(src, header_len, payload_len);
    toggle_mask(src, server, header_len, payload_len);
    match read_close(alloc, &src.as_slice()[header_len..frame_len]) {
        Ok(reason) => {
            src.advance(frame_len);
            Ok(Frame::Close(reason))
        }
        Err(error) => {
            toggle_mask(src, server, header_len, payload_len);
            Err(error)
        }
    }
}

/// The payload at the front, behind a header of so many bytes. It shares the memory of the buffer.
fn take_payload(
    src: &mut BytesMut,
    server: bool,
    header_len: usize,
    payload_len: usize,
) -> Result<Bytes, NoMemory>
    requires within { header_len + payload_len ≤ length src.old.items }
    requires masked { server ≡ true → 4 ≤ header_len }
    ensures payload { IfOk result (λ payload. payload ≡ payload_at server header_len payload_len src.old.items) }
    ensures rest { OnOk result (src.new.items ≡ drop (header_len + payload_len) src.old.items) }
    ensures err { OnErr result (src.new.items ≡ src.old.items) }
{
    let frame_len = frame_len(src, header_len, payload_len);
    toggle_mask(src, server, header_len, payload_len);
    match src.freeze_to(frame_len) {
        Ok(mut frame) => {
            frame.advance(header_len);
            Ok(frame)
        }
        Err(error) => {
            toggle_mask(src, server, header_len, payload_len);
            Err(error)
        }
    }
}

/// Takes the mask off a payload, where there is one, or puts it on again.
fn toggle_mask(src: &mut BytesMut, server: bool, header_len: usize, payload_len: usize)
    requires within { header_len + payload_len ≤ length src.old.items }
    requires masked { server ≡ true → 4 ≤ header_len }
    ensures items { src.new.items ≡ with_payload header_len (payload_at server header_len payload_len src.old.items) payload_len src.old.items }
    ensures len { length src.new.items ≡ length src.old.items }
{
    if server {
        let mask = read_mask(src.as_slice(), header_len - 4);
        mask_part(src, header_len, payload_len, mask);
    }
}

/// The four bytes from here on.
fn read_mask(bytes: &[u8], at: usize) -> [u8; 4]
    requires { at + 4 ≤ length bytes.now }
    ensures { result ≡ take 4 (drop at bytes.now) }
{
    [bytes[at], bytes[at + 1], bytes[at + 2], bytes[at + 3]]
}

/// How long a frame is that is there.
fn frame_len(src: &BytesMut, header_len: usize, payload_len: usize) -> usize
    requires { header_len + payload_len ≤ length src.now.items }
    ensures { result ≡ header_len + payload_len }
{
    let _len = src.len();
    header_len + payload_len
}

/// Drops the frame at the front.
pub(crate) fn drop_frame(src: &mut BytesMut, header_len: usize, payload_len: usize)
    requires { header_len + payload_len ≤ length src.old.items }
    ensures { src.new.items ≡ drop (header_len + payload_len) src.old.items }
{
    src.advance(frame_len(src, header_len, payload_len));
}

/// The frame at the front, judged by its place among fragments, and whether a message is under way behind it. After an
/// error the buffer is as it was.
pub(crate) fn take_judged(
    alloc: Global,
    src: &mut BytesMut,
    server: bool,
    under_way: bool,
    found: (bool, OpCode),
    header_len: usize,
    payload_len: usize,
) -> Result<(Frame, bool), ProtocolError>
    requires within { header_len + payload_len ≤ length src.old.items }
    requires masked { server ≡ true → 4 ≤ header_len }
    ensures taken { JudgedTaken under_way (judged_taken under_way found.0 (opcode_written found.1) (payload_at server header_len payload_len src.old.items))
        (header_len + payload_len) src.old.items result src.new.items }
    ensures named { IfOk result (λ taken. IsNamed taken.0) }
{
    match kind_of(under_way, found.0, found.1) {
        Ok(kind) => match take_frame(alloc, src, server, kind, header_len, payload_len) {
            Ok(frame) => Ok((frame, goes_on(under_way, kind))),
            Err(error) => Err(error),
        },
        Err(error) => Err(error),
    }
}

/// The payload at the front, if it isn't empty, in a buffer of its own that shares the memory of this one.
pub(crate) fn take_data(
    src: &mut BytesMut,
    server: bool,
    header_len: usize,
    payload_len: usize,
) -> Result<Option<BytesMut>, NoMemory>
    requires within { header_len + payload_len ≤ length src.old.items }
    requires masked { server ≡ true → 4 ≤ header_len }
    ensures payload { IfOk result (λ payload. data_of payload ≡ payload_at server header_len payload_len src.old.items) }
    ensures bytes { IfOk result HasBytes }
    ensures rest { OnOk result (src.new.items ≡ drop (header_len + payload_len) src.old.items) }
    ensures err { OnErr result (src.new.items ≡ src.old.items) }
{
    let frame_len = frame_len(src, header_len, payload_len);
    toggle_mask(src, server, header_len, payload_len);
    match src.split_to(frame_len) {
        Ok(mut frame) => {
            frame.advance(header_len);
            Ok(unless_empty(frame))
        }
        Err(error) => {
            toggle_mask(src, server, header_len, payload_len);
            Err(error)
        }
    }
}

/// The bytes, if there are some.
fn unless_empty(bytes: BytesMut) -> Option<BytesMut>
    ensures same { data_of result ≡ bytes.items }
    ensures bytes { HasBytes result }
{
    if bytes.is_empty() { None } else { Some(bytes) }
}
