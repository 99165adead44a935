//! What is answered to a request that doesn't join a room.
use crate::text::{HTML, SCRIPT, STYLE};
use http_types::header::names::{ALLOW, RETRY_AFTER};
use http_types::header::{CONTENT_TYPE, HeaderName, HeaderValue, SEC_WEBSOCKET_VERSION, UPGRADE};
use http_types::{Method, NoMemory, RequestHead, ResponseHead, StatusCode};
use std::alloc::Global;

/// An answer, with its body.
#[derive(Drop)]
pub struct Reply {
    pub head: ResponseHead,
    pub body: &'static str,
}

/// The answer to a request for the page, its style or its script. Where there is room for no further member, any other path is
/// answered by 503.
pub fn page_for(alloc: Global, asked: &RequestHead, is_full: bool) -> Result<Reply, NoMemory> {
    if asked.method != Method::GET && asked.method != Method::HEAD {
        let mut head = ResponseHead::new(alloc, StatusCode::METHOD_NOT_ALLOWED);
        head.headers
            .append(ALLOW, HeaderValue::from_static("GET, HEAD"))?;
        return Ok(Reply { head, body: "" });
    }
    match asked.uri.path() {
        "/" | "/index.html" => found(
            alloc,
            HeaderValue::from_static("text/html; charset=utf-8"),
            HTML,
        ),
        "/chat.css" => found(
            alloc,
            HeaderValue::from_static("text/css; charset=utf-8"),
            STYLE,
        ),
        "/chat.js" => found(
            alloc,
            HeaderValue::from_static("text/javascript; charset=utf-8"),
            SCRIPT,
        ),
        _ if is_full => full(alloc),
        _ => plain(alloc, StatusCode::NOT_FOUND, "there is no such page\n"),
    }
}

/// There is room for no further member.
pub fn full(alloc: Global) -> Result<Reply, NoMemory> {
    let mut reply = plain(
        alloc,
        StatusCode::SERVICE_UNAVAILABLE,
        "the rooms are full\n",
    )?;
    reply
        .head
        .headers
        .append(RETRY_AFTER, HeaderValue::from_static("10"))?;
    Ok(reply)
}

/// Pages of that site may not join.
pub fn forbidden(alloc: Global) -> Result<Reply, NoMemory> {
    plain(
        alloc,
        StatusCode::FORBIDDEN,
        "pages of this site may not join the rooms\n",
    )
}

/// WebSocket 13 over HTTP/1.1 is wanted (RFC 6455, section 4.4).
pub fn outdated(alloc: Global) -> Result<Reply, NoMemory> {
    let mut reply = plain(
        alloc,
        StatusCode::UPGRADE_REQUIRED,
        "WebSocket 13 over HTTP/1.1 is wanted\n",
    )?;
    let headers = &mut reply.head.headers;
    headers.append(UPGRADE, HeaderValue::from_static("websocket"))?;
    headers.append(SEC_WEBSOCKET_VERSION, HeaderValue::from_static("13"))?;
    Ok(reply)
}

/// The handshake lacks something else.
pub fn malformed(alloc: Global) -> Result<Reply, NoMemory> {
    plain(
        alloc,
        StatusCode::BAD_REQUEST,
        "this is no handshake of WebSocket\n",
    )
}

// A text.
fn plain(alloc: Global, status: StatusCode, body: &'static str) -> Result<Reply, NoMemory> {
    let mut head = ResponseHead::new(alloc, status);
    let kind = HeaderValue::from_static("text/plain; charset=utf-8");
    head.headers.append(CONTENT_TYPE, kind)?;
    Ok(Reply { head, body })
}

// What is there, of this type.
fn found(alloc: Global, kind: HeaderValue, body: &'static str) -> Result<Reply, NoMemory> {
    let mut head = ResponseHead::new(alloc, StatusCode::OK);
    head.headers.append(CONTENT_TYPE, kind)?;
    head.headers.append(
        HeaderName::from_static("x-content-type-options"),
        HeaderValue::from_static("nosniff"),
    )?;
    head.headers.append(
        HeaderName::from_static("content-security-policy"),
        HeaderValue::from_static(
            "default-src 'none'; style-src 'self'; script-src 'self'; connect-src 'self' ws: wss:; base-uri 'none'; form-action 'none'; frame-ancestors 'none'",
        ),
    )?;
    Ok(Reply { head, body })
}
