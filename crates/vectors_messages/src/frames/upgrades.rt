//! Requests that ask for an upgrade to WebSocket.
use bytes::Bytes;
use h1_decoder::{HeadItem, request_head};
use http_types::{NoMemory, ParseError, ResponseHead};
use std::alloc::{AllocError, Global};
use vectors::{Case, Report};
use ws_session::{HandshakeError, accept_key_of, error_response, verify_handshake};

// The head that the case's first argument is; none where it isn't read.
fn read(alloc: Global, case: &Case<'_>) -> Result<Option<HeadItem>, NoMemory> {
    let piece = Bytes::copy_from_slice(alloc, case.argument(0))?;
    match request_head(alloc, piece) {
        Ok(item) => Ok(Some(item)),
        Err(ParseError::NoMemory) => Err(AllocError),
        Err(_) => Ok(None),
    }
}

/// `upgrade HEAD`: `asked`, or the first check that the request fails.
pub fn upgrade(alloc: Global, case: &Case<'_>, found: &mut Report) -> Result<bool, NoMemory> {
    match read(alloc, case)? {
        Some(item) => found.put_text(verdict(&item)),
        None => found.put_text("unread"),
    }
    Ok(true)
}

fn verdict(item: &HeadItem) -> &'static str {
    match verify_handshake(&item.head) {
        Ok(()) => "asked",
        Err(HandshakeError::GetMethodRequired) => "method",
        Err(HandshakeError::NoWebsocketUpgrade) => "no-websocket",
        Err(HandshakeError::NoConnectionUpgrade) => "no-connection",
        Err(HandshakeError::NoVersionHeader) => "no-version",
        Err(HandshakeError::UnsupportedVersion) => "version",
        Err(HandshakeError::BadWebsocketKey) => "no-key",
    }
}

/// `accept HEAD`: the answer to the request's key.
pub fn accept(alloc: Global, case: &Case<'_>, found: &mut Report) -> Result<bool, NoMemory> {
    match read(alloc, case)? {
        Some(item) => found.put_quoted(&accept_key_of(&item.head)),
        None => found.put_text("unread"),
    }
    Ok(true)
}

/// `refusal CHECK`: the status, the reason and the methods that are allowed, if there are any, of the answer to a request
/// that fails this check.
pub fn refusal(alloc: Global, case: &Case<'_>, found: &mut Report) -> Result<bool, NoMemory> {
    let Some(error) = error_of(case.argument(0)) else {
        return Ok(false);
    };
    let response = error_response(alloc, error)?;
    put_answer(response.head(), found);
    Ok(true)
}

fn error_of(word: &[u8]) -> Option<HandshakeError> {
    match word {
        b"method" => Some(HandshakeError::GetMethodRequired),
        b"no-websocket" => Some(HandshakeError::NoWebsocketUpgrade),
        b"no-connection" => Some(HandshakeError::NoConnectionUpgrade),
        b"no-version" => Some(HandshakeError::NoVersionHeader),
        b"version" => Some(HandshakeError::UnsupportedVersion),
        b"no-key" => Some(HandshakeError::BadWebsocketKey),
        _ => None,
    }
}

fn put_answer(head: &ResponseHead, found: &mut Report) {
    found.put_decimal(u64::from(head.status.as_u16()));
    found.put_text(" ");
    found.put_quoted(head.reason().as_bytes());
    match head.headers().get("allow") {
        Some(methods) => {
            found.put_text(" ");
            found.put_quoted(methods.as_bytes());
        }
        None => {}
    }
}
