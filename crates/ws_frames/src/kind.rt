//! What a frame is among the fragments of messages (RFC 6455, section 5.4).
ghost use Rattle.std.specs.Prelude.{◌≡◌, ◌≢◌, if◌then◌else◌, true, false, Ok, Err};
ghost use Rattle.ws_frames.specs.Codec.{kind_judged, kind_frame, kind_goes_on, frame_says};
ghost use Rattle.ws_frames.specs.Protocol.{opcode_written};

use crate::error::ProtocolError;
use crate::message::{Frame, Item};
use crate::proto::OpCode;
use bytes::Bytes;

/// What a frame is, without its payload.
#[derive(Clone, Copy, Debug, PartialEq, Eq)]
pub(crate) enum Kind {
    Text,
    Binary,
    FirstText,
    FirstBinary,
    Continue,
    Last,
    Ping,
    Pong,
    Close,
}

/// What a frame is where a message is under way or not, the last one of its message or not.
pub(crate) fn kind_of(under_way: bool, finished: bool, op: OpCode) -> Result<Kind, ProtocolError>
    ensures { result ≡ kind_judged under_way finished (opcode_written op) }
{
    if finished {
        finished_kind(under_way, op)
    } else {
        unfinished_kind(under_way, op)
    }
}

/// What the last frame of a message is.
fn finished_kind(under_way: bool, op: OpCode) -> Result<Kind, ProtocolError>
    ensures { result ≡ kind_judged under_way true (opcode_written op) }
{
    match op {
        OpCode::Continue => going_on(under_way, Kind::Last),
        OpCode::Text => starting(under_way, Kind::Text),
        OpCode::Binary => starting(under_way, Kind::Binary),
        OpCode::Ping => Ok(Kind::Ping),
        OpCode::Pong => Ok(Kind::Pong),
        OpCode::Close | OpCode::Bad => Ok(Kind::Close),
    }
}

/// What any other frame of it is.
fn unfinished_kind(under_way: bool, op: OpCode) -> Result<Kind, ProtocolError>
    ensures { result ≡ kind_judged under_way false (opcode_written op) }
{
    match op {
        OpCode::Continue => going_on(under_way, Kind::Continue),
        OpCode::Text => starting(under_way, Kind::FirstText),
        OpCode::Binary => starting(under_way, Kind::FirstBinary),
        OpCode::Ping => Err(ProtocolError::ContinuationFragment(OpCode::Ping)),
        OpCode::Pong => Err(ProtocolError::ContinuationFragment(OpCode::Pong)),
        OpCode::Close | OpCode::Bad => Err(ProtocolError::ContinuationFragment(OpCode::Close)),
    }
}

/// A frame that starts a message may not stand inside one.
fn starting(under_way: bool, kind: Kind) -> Result<Kind, ProtocolError>
    ensures { result ≡ (if under_way then Err ProtocolError.ContinuationStarted else Ok kind) }
{
    if under_way {
        return Err(ProtocolError::ContinuationStarted);
    }
    Ok(kind)
}

/// One that goes on with a message must.
fn going_on(under_way: bool, kind: Kind) -> Result<Kind, ProtocolError>
    ensures { result ≡ (if under_way then Ok kind else Err ProtocolError.ContinuationNotStarted) }
{
    if under_way {
        return Ok(kind);
    }
    Err(ProtocolError::ContinuationNotStarted)
}

/// A message is under way behind a frame of this kind.
pub(crate) fn goes_on(under_way: bool, kind: Kind) -> bool
    ensures { result ≡ kind_goes_on under_way kind }
{
    match kind {
        Kind::FirstText | Kind::FirstBinary => true,
        Kind::Last => false,
        _ => under_way,
    }
}

/// The frame of a kind other than Close, with its payload.
pub(crate) fn frame_of(kind: Kind, payload: Bytes) -> Frame
    requires { kind ≢ Kind.Close }
    ensures { kind_frame kind payload ≡ Ok (frame_says result) }
{
    match kind {
        Kind::Text => Frame::Text(payload),
        Kind::Binary => Frame::Binary(payload),
        Kind::FirstText => Frame::Continuation(Item::FirstText(payload)),
        Kind::FirstBinary => Frame::Continuation(Item::FirstBinary(payload)),
        Kind::Continue => Frame::Continuation(Item::Continue(payload)),
        Kind::Last => Frame::Continuation(Item::Last(payload)),
        Kind::Ping => Frame::Ping(payload),
        Kind::Pong => Frame::Pong(payload),
        Kind::Close => unreachable!(),
    }
}
