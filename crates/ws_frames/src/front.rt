//! A frame at the front of bytes that may still grow, taken by whoever keeps them: a session or a connection.
ghost use Rattle.std.specs.Prelude.{◌≡◌, Bool, IfOk};
ghost use Rattle.model_h1.specs.FrameText.{front_frame};
ghost use Rattle.ws_frames.specs.Codec.{IsTakenNamed};
ghost use Rattle.ws_frames.specs.Fronts.{early_reader, is_partial, FrontTaken};

use crate::error::ProtocolError;
use crate::frame::header::{Found, find_front};
use crate::message::Frame;
use crate::take::take_judged;
use bytes::BytesMut;
use std::alloc::Global;

/// Whether more bytes are needed: no frame is whole yet, and no rule is broken (RFC 6455, section 5.2). A payload of more
/// than `limit` bytes breaks one as soon as its length is there. Takes no memory.
pub fn waits_for_frame(src: &[u8], server: bool, limit: usize) -> bool
    ensures { (under_way : Bool) → result ≡ is_partial (front_frame (early_reader server limit) under_way src.now) }
{
    match find_front(src, server, limit) {
        Found::Waits => true,
        Found::Refuses(_, _) => false,
        Found::Takes(_, _, _, _) => false,
    }
}

/// The frame at the front, once it is whole, and whether a message is under way behind it, if one is before it or not. A
/// payload of more than `limit` bytes is refused as soon as its length is there, before memory is taken for it. After an
/// error the bytes are as they were, so that the same rule is broken again. The payload shares the memory of the bytes.
pub fn take_front(
    alloc: Global,
    src: &mut BytesMut,
    server: bool,
    limit: usize,
    under_way: bool,
) -> Result<Option<(Frame, bool)>, ProtocolError>
    ensures taken { FrontTaken server limit under_way src.old.items result src.new.items }
    ensures named { IfOk result IsTakenNamed }
{
    match find_front(src.as_slice(), server, limit) {
        Found::Waits => Ok(None),
        Found::Refuses(error, _) => Err(error),
        Found::Takes(finished, op, header_len, payload_len) => {
            match take_judged(
                alloc,
                src,
                server,
                under_way,
                (finished, op),
                header_len,
                payload_len,
            ) {
                Ok(taken) => Ok(Some(taken)),
                Err(error) => Err(error),
            }
        }
    }
}
