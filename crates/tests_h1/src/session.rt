//! A session, and the answer to a request for an upgrade.
use bytes::Bytes;
use h1_decoder::request_head;
use http_types::{RequestHead, ResponseHead};
use std::alloc::Global;
use std::test::Fail;
use ws_frames::{Frame, ProtocolError};
use ws_session::{Session, handshake};

// The masked frame of RFC 6455, section 5.7, in two pieces.
const FIRST: &[u8] = b"\x81\x85\x37\xfa\x21\x3d\x7f\x9f";

const SECOND: &[u8] = b"\x4d\x51\x58";

fn is_hello(frame: &Option<Frame>) -> bool {
    match frame {
        Some(Frame::Text(text)) => text.as_slice() == b"Hello".as_slice(),
        _ => false,
    }
}

// Whether the next frame is the text `Hello`.
fn gives_hello(session: &mut Session) -> Result<bool, ProtocolError> {
    let frame = session.next()?;
    Ok(is_hello(&frame))
}

// Whether no next frame has come whole.
fn gives_none(session: &mut Session) -> Result<bool, ProtocolError> {
    let frame = session.next()?;
    Ok(frame.is_none())
}

#[test]
fn a_session_gives_a_frame_once_it_is_whole(rt: HostRuntime) -> Result<(), Fail> {
    let mut session = Session::new(rt.alloc(), true, 65536);
    session.push(FIRST)?;
    assert!(rt; !session.ready() && session.held() == 8);
    assert!(rt; gives_none(&mut session)?);
    session.push(SECOND)?;
    assert!(rt; session.ready());
    assert!(rt; gives_hello(&mut session)? && session.held() == 0 && !session.ready());
    Ok(())
}

// The example of RFC 6455, section 1.2.
const ASKED: &[u8] = b"GET /chat HTTP/1.1\r\n\
    Host: server.example.com\r\n\
    Upgrade: websocket\r\n\
    Connection: Upgrade\r\n\
    Sec-WebSocket-Key: dGhlIHNhbXBsZSBub25jZQ==\r\n\
    Sec-WebSocket-Version: 13\r\n\r\n";

fn has(head: &ResponseHead, name: &'static str, want: &str) -> bool {
    match head.headers().get(name) {
        Some(value) => value.as_bytes() == want.as_bytes(),
        None => false,
    }
}

fn is_upgrade(head: &ResponseHead) -> bool {
    head.status.as_u16() == 101
        && head.upgrade()
        && head.headers().len() == 2
        && has(head, "upgrade", "websocket")
        && has(head, "sec-websocket-accept", "s3pPLMBiTxaQ9kYGzzhZRbK+xOo=")
}

// Whether the request is answered as the example has to be.
fn is_answered(alloc: Global, head: &RequestHead) -> Result<bool, Fail> {
    let response = handshake(alloc, head)?.finish()?;
    Ok(is_upgrade(response.head()))
}

#[test]
fn requests_are_answered(rt: HostRuntime) -> Result<(), Fail> {
    let item = request_head(rt.alloc(), Bytes::from_static(ASKED))?;
    assert!(rt; is_answered(rt.alloc(), &item.head)?);
    Ok(())
}
