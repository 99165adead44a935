//! The answers to a request for an upgrade.
ghost use Rattle.std.specs.Prelude.{◌≡◌, Some, IfOk, OnOk, codes};
ghost use Rattle.http_header.specs.FieldValue.{plain_value};
ghost use Rattle.http_map.specs.HeaderMap.{insert};
ghost use Rattle.http_types.specs.Flags.{with_type};
ghost use Rattle.model_h1.specs.Request.{Head};
ghost use Rattle.model_h1.specs.Handshake.{handshake_error, accept_key_of};
ghost use Rattle.ws_session.specs.Answers.{HandshakeSays, accepting_builder, method_refused, refused_because, refusing_parts};
ghost use Rattle.ws_session.specs.Upgrade.{SaysUpgrade, head_said};

use crate::NoMemory;
use crate::verify::{HandshakeError, HandshakeFault, accept_key_of, verify_handshake};
use http_types::header::names::{ALLOW, SEC_WEBSOCKET_ACCEPT, UPGRADE};
use http_types::{
    ConnectionType, HeaderValue, RequestHead, Response, ResponseBuilder, ResponseHead, StatusCode,
};
use std::alloc::{AllocError, Global};

/// The answer to a request that asks for an upgrade to WebSocket as it has to, or the first check that fails, as
/// [`verify_handshake`] makes them. Memory is taken for a request alone that passes them all.
pub fn handshake(alloc: Global, req: &RequestHead) -> Result<ResponseBuilder, HandshakeFault>
    ensures read { (h : Head) → SaysUpgrade req.now h → HandshakeSays (handshake_error h) (accept_key_of h) result }
    ensures own { HandshakeSays (handshake_error (head_said req.now)) (accept_key_of (head_said req.now)) result }
{
    match verify_handshake(req) {
        Ok(()) => match handshake_response(alloc, req) {
            Ok(builder) => Ok(builder),
            Err(_) => Err(HandshakeFault::NoMemory),
        },
        Err(error) => Err(HandshakeFault::Refused(error)),
    }
}

/// The answer that upgrades a connection to WebSocket, with no check made: 101, of the connection type Upgrade, with
/// `upgrade: websocket` and the answer to the request's key (RFC 6455, section 4.2.2). Without a key it is that to an
/// empty one.
pub fn handshake_response(alloc: Global, req: &RequestHead) -> Result<ResponseBuilder, NoMemory>
    ensures read { (h : Head) → SaysUpgrade req.now h → IfOk result (λ builder. builder ≡ accepting_builder (accept_key_of h)) }
    ensures own { IfOk result (λ builder. builder ≡ accepting_builder (accept_key_of (head_said req.now))) }
{
    accepting(alloc, &accept_key_of(req))
}

/// The answer with this answer to the key.
fn accepting(alloc: Global, key: &[u8; 28]) -> Result<ResponseBuilder, NoMemory>
    ensures { IfOk result (λ builder. builder ≡ accepting_builder key.now) }
{
    let mut response = Response::new(alloc, StatusCode::SWITCHING_PROTOCOLS);
    put_accepting(alloc, response.head_mut(), key)?;
    Ok(ResponseBuilder::from_response(alloc, response))
}

/// Makes a head one that upgrades.
fn put_accepting(alloc: Global, head: &mut ResponseHead, key: &[u8; 28]) -> Result<(), NoMemory>
    ensures { OnOk result (head.new ≡ record head.old {
      headers = insert (insert head.old.headers (codes "upgrade") (plain_value (codes "websocket"))) (codes "sec-websocket-accept") (plain_value key.now);
      flags = with_type head.old.flags ConnectionType.Upgrade;
    }) }
{
    let Ok(value) = HeaderValue::from_bytes(alloc, key) else {
        return Err(AllocError);
    };
    head.headers
        .insert(UPGRADE, HeaderValue::from_static("websocket"))?;
    head.headers.insert(SEC_WEBSOCKET_ACCEPT, value)?;
    head.set_connection_type(ConnectionType::Upgrade);
    Ok(())
}

/// The answer to a request that fails a check: 405 with `allow: GET` where its method isn't GET (RFC 7231, section 6.5.5),
/// else 400 with a reason that names the check (section 6.5.1).
pub fn error_response(alloc: Global, err: HandshakeError) -> Result<Response<()>, NoMemory>
    ensures { IfOk result (λ response. response ≡ record { head = refusing_parts err; body = tt }) }
{
    match err {
        HandshakeError::GetMethodRequired => refuse_method(alloc),
        HandshakeError::NoWebsocketUpgrade => { refuse(alloc, "No WebSocket Upgrade header found") }
        HandshakeError::NoConnectionUpgrade => refuse(alloc, "No Connection upgrade"),
        HandshakeError::NoVersionHeader => refuse(alloc, "WebSocket version header is required"),
        HandshakeError::UnsupportedVersion => refuse(alloc, "Unsupported WebSocket version"),
        HandshakeError::BadWebsocketKey => refuse(alloc, "Handshake error"),
    }
}

/// The answer to another method.
fn refuse_method(alloc: Global) -> Result<Response<()>, NoMemory>
    ensures { IfOk result (λ response. response ≡ record { head = method_refused; body = tt }) }
{
    let mut response = Response::new(alloc, StatusCode::METHOD_NOT_ALLOWED);
    allow_get(response.head_mut())?;
    Ok(response)
}

/// Says that GET is allowed.
fn allow_get(head: &mut ResponseHead) -> Result<(), NoMemory>
    ensures { OnOk result (head.new ≡ record head.old { headers = insert head.old.headers (codes "allow") (plain_value (codes "GET")) }) }
{
    head.headers.insert(ALLOW, HeaderValue::from_static("GET"))?;
    Ok(())
}

/// The answer to a check that fails.
fn refuse(alloc: Global, reason: &str) -> Result<Response<()>, NoMemory>
    ensures { IfOk result (λ response. response ≡ record { head = refused_because reason.now; body = tt }) }
{
    let mut response = Response::bad_request(alloc);
    give_reason(alloc, response.head_mut(), reason)?;
    Ok(response)
}

/// Gives a head this reason, which is one line.
fn give_reason(alloc: Global, head: &mut ResponseHead, reason: &str) -> Result<(), NoMemory>
    ensures { OnOk result (head.new ≡ record head.old { reason = Some reason.now }) }
{
    match head.set_reason(String::from_str(alloc, reason)?) {
        Ok(()) => Ok(()),
        Err(_) => Err(AllocError),
    }
}
