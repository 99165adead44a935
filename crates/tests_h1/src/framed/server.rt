//! The codec of a server, by itself.
use bytes::{Bytes, BytesMut};
use h1_codec::{Codec, Message};
use http_framing::BodySize;
use http_types::{Response, ServiceConfig};
use std::alloc::Global;

// Frames an answer with a body of two bytes, of which this piece comes, and its end: whether all is written.
fn is_framed(codec: &mut Codec, alloc: Global, piece: &'static [u8], out: &mut BytesMut) -> bool {
    let head = Message::Item((Response::ok(alloc), BodySize::Sized(2)));
    let is_begun = codec.encode(head, out).is_ok();
    let body = Message::Chunk(Some(Bytes::from_static(piece)));
    let is_filled = codec.encode(body, out).is_ok();
    let is_ended = codec.encode(Message::Chunk(None), out).is_ok();
    is_begun && is_filled && is_ended
}

#[test]
fn an_answer_is_framed_for_its_request(rt: HostRuntime) {
    let mut codec = Codec::new(ServiceConfig::default());
    let mut out = BytesMut::new(rt.alloc());
    assert!(rt; is_framed(&mut codec, rt.alloc(), b"hi there", &mut out));
    assert!(rt; codec.encode(Message::Chunk(None), &mut out).is_ok());
    assert!(rt;
        out.as_slice()
            == b"HTTP/1.1 200 OK\r\ncontent-length: 2\r\nconnection: close\r\ndate: Thu, 01 Jan 1970 00:00:00 GMT\r\n\r\nhi".as_slice()
    );
}
