//! An answer, as a client gets it.
use bytes::Bytes;
use h1_decoder::{ResponseItem, response_head};
use http_framing::BodySize;
use http_types::ResponseHead;
use proxy_heads::{reply_head, reply_size};
use std::alloc::Global;
use std::test::Fail;

fn read(alloc: Global, text: &[u8]) -> Result<ResponseItem, Fail> {
    Ok(response_head(alloc, Bytes::copy_from_slice(alloc, text)?)?)
}

// The reply's head to this one.
fn reply(alloc: Global, text: &[u8]) -> Result<ResponseHead, Fail> {
    let item = read(alloc, text)?;
    Ok(reply_head(alloc, item)?)
}

fn size_of(alloc: Global, is_head: bool, text: &[u8]) -> Result<BodySize, Fail> {
    let item = read(alloc, text)?;
    Ok(reply_size(is_head, &item))
}

#[test]
fn a_304_keeps_its_length(rt: HostRuntime) -> Result<(), Fail> {
    let text = b"HTTP/1.1 304 \xff\r\ncontent-length: 5\r\n\r\n";
    let head = reply(rt.alloc(), text)?;
    assert!(rt; head.headers.contains_key("content-length"));
    assert!(rt; head.has_own_reason() && head.reason().is_empty());
    assert!(rt; size_of(rt.alloc(), false, text)? == BodySize::None);
    Ok(())
}
