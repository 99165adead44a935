//! A request, as a server gets it.
use bytes::{Bytes, BytesMut};
use h1_decoder::{HeadItem, request_head};
use h1_encoder::{has_text, put_request_head};
use http_types::ConnectionType;
use proxy_heads::{Edge, forwarded_head, forwarded_size, is_forwardable, is_refused};
use std::alloc::Global;
use std::net::{IpAddr, Ipv4Addr, SocketAddr};
use std::test::Fail;

// That of a client at port 4711 of 192.0.2.1, whose server is at port 81 of 127.0.0.1.
fn edge(alloc: Global, trusts_client: bool) -> Result<Edge, Fail> {
    let client = SocketAddr::new(IpAddr::V4(Ipv4Addr::new(192, 0, 2, 1)), 4711);
    let server = SocketAddr::new(IpAddr::V4(Ipv4Addr::new(127, 0, 0, 1)), 81);
    let mut edge = Edge::new(alloc, client, server)?;
    edge.trusts_client = trusts_client;
    Ok(edge)
}

fn read(alloc: Global, text: &[u8]) -> Result<HeadItem, Fail> {
    Ok(request_head(alloc, Bytes::copy_from_slice(alloc, text)?)?)
}

#[derive(Clone, Copy, PartialEq, Eq)]
enum Use {
    Refused,
    SentOn,
    NotSent,
}

fn use_of(alloc: Global, edge: &Edge, text: &[u8]) -> Result<Use, Fail> {
    let item = read(alloc, text)?;
    Ok(
        match (is_refused(edge, &item), is_forwardable(edge, &item)) {
            (true, _) => Use::Refused,
            (false, true) => Use::SentOn,
            (false, false) => Use::NotSent,
        },
    )
}

// What is sent on for this head at the first moment: nothing where it can't be.
fn sent_on(alloc: Global, edge: &Edge, text: &[u8]) -> Result<BytesMut, Fail> {
    let item = read(alloc, text)?;
    let mut out = BytesMut::new(alloc);
    if !is_forwardable(edge, &item) {
        return Ok(out);
    }
    let size = forwarded_size(&item);
    let head = forwarded_head(alloc, edge, item)?;
    if has_text(head.version) {
        put_request_head(&mut out, &head, size, ConnectionType::KeepAlive, 0)?;
    }
    Ok(out)
}

fn is_sent_as(
    alloc: Global,
    trusts_client: bool,
    text: &[u8],
    expected: &[u8],
) -> Result<bool, Fail> {
    let out = sent_on(alloc, &edge(alloc, trusts_client)?, text)?;
    Ok(out.as_slice() == expected)
}

#[test]
fn options_of_a_whole_server_goes_on_as_an_asterisk(rt: HostRuntime) -> Result<(), Fail> {
    let is_same = is_sent_as(
        rt.alloc(),
        false,
        b"OPTIONS http://c:8 HTTP/1.1\r\nhost: a\r\n\r\n",
        b"OPTIONS * HTTP/1.1\r\nhost: c:8\r\nvia: 1.1 raspcream\r\nx-forwarded-for: 192.0.2.1\r\nforwarded: for=\"192.0.2.1:4711\";proto=http\r\nx-forwarded-proto: http\r\nx-forwarded-host: c:8\r\ndate: Thu, 01 Jan 1970 00:00:00 GMT\r\n\r\n",
    )?;
    assert!(rt; is_same);
    Ok(())
}

#[test]
fn lines_for_one_connection_stay_behind(rt: HostRuntime) -> Result<(), Fail> {
    let is_same = is_sent_as(
        rt.alloc(),
        false,
        b"GET /a?b HTTP/1.0\r\nX-One: 1\r\nConnection: close ,X-ONE, host\r\nkeep-alive: 5\r\nProxy-Connection: a\r\nte: trailers\r\ntrailer: b\r\nupgrade: c\r\nx-two: 2\r\nexpect: 100-continue\r\nhost: a\r\nx-two: 3\r\n\r\n",
        b"GET /a?b HTTP/1.1\r\nx-two: 2\r\nx-two: 3\r\nhost: a\r\nvia: 1.0 raspcream\r\nx-forwarded-for: 192.0.2.1\r\nforwarded: for=\"192.0.2.1:4711\";proto=http\r\nx-forwarded-proto: http\r\nx-forwarded-host: a\r\ndate: Thu, 01 Jan 1970 00:00:00 GMT\r\n\r\n",
    )?;
    assert!(rt; is_same);
    Ok(())
}

#[test]
fn a_whole_uri_names_its_host(rt: HostRuntime) -> Result<(), Fail> {
    let is_same = is_sent_as(
        rt.alloc(),
        true,
        b"GET HTTP://c:8?d HTTP/1.1\r\nhost: a\r\nx-forwarded-for: 10.0.0.1\r\nx-forwarded-proto: https\r\nvia: 1.1 b\r\n\r\n",
        b"GET /?d HTTP/1.1\r\nx-forwarded-for: 10.0.0.1\r\nx-forwarded-for: 192.0.2.1\r\nx-forwarded-proto: https\r\nvia: 1.1 b\r\nvia: 1.1 raspcream\r\nhost: c:8\r\nforwarded: for=\"192.0.2.1:4711\";proto=http\r\nx-forwarded-host: c:8\r\ndate: Thu, 01 Jan 1970 00:00:00 GMT\r\n\r\n",
    )?;
    assert!(rt; is_same);
    Ok(())
}

#[test]
fn heads_are_judged(rt: HostRuntime) -> Result<(), Fail> {
    let edge = edge(rt.alloc(), false)?;
    let none = use_of(rt.alloc(), &edge, b"GET / HTTP/1.1\r\n\r\n")?;
    let old = use_of(rt.alloc(), &edge, b"GET / HTTP/1.0\r\n\r\n")?;
    let user = use_of(
        rt.alloc(),
        &edge,
        b"GET http://u@a/ HTTP/1.1\r\nhost: a\r\n\r\n",
    )?;
    let star = use_of(rt.alloc(), &edge, b"OPTIONS * HTTP/1.1\r\nhost: a\r\n\r\n")?;
    let other = use_of(
        rt.alloc(),
        &edge,
        b"GET ftp://a/ HTTP/1.1\r\nhost: a\r\n\r\n",
    )?;
    assert!(rt; none == Use::Refused && user == Use::Refused);
    assert!(rt; old == Use::SentOn && star == Use::SentOn && other == Use::NotSent);
    Ok(())
}
