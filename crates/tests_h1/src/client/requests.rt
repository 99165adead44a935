//! The text of a request.
use bytes::BytesMut;
use h1_encoder::{has_text, put_request_head};
use http_framing::BodySize;
use http_types::header::{CONTENT_TYPE, HOST, HeaderValue};
use http_types::{ConnectionType, NoMemory, RequestHead};
use std::alloc::Global;
use std::test::Fail;

// A GET of `/` with two headers, as it is written.
fn text(
    alloc: Global,
    size: BodySize,
    connection: ConnectionType,
    camel: bool,
) -> Result<BytesMut, NoMemory> {
    let mut head = RequestHead::new(alloc);
    head.set_camel_case_headers(camel);
    head.headers
        .append(HOST, HeaderValue::from_static("example.org"))?;
    head.headers
        .append(CONTENT_TYPE, HeaderValue::from_static("text/plain"))?;
    let mut out = BytesMut::new(alloc);
    if has_text(head.version) {
        put_request_head(&mut out, &head, size, connection, 0)?;
    }
    Ok(out)
}

#[test]
fn a_request_in_chunks_and_camel_case(rt: HostRuntime) -> Result<(), Fail> {
    let text = text(rt.alloc(), BodySize::Stream, ConnectionType::Upgrade, true)?;
    assert!(rt;
        text.as_slice()
            == b"GET / HTTP/1.1\r\nTransfer-Encoding: chunked\r\nConnection: Upgrade\r\nHost: example.org\r\nContent-Type: text/plain\r\nDate: Thu, 01 Jan 1970 00:00:00 GMT\r\n\r\n".as_slice()
    );
    Ok(())
}
