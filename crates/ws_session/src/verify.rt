//! The checks of a request for an upgrade, and the answer to its key.
ghost use Rattle.std.specs.Prelude.{◌≡◌, codes};
ghost use Rattle.http_header.specs.Token.{lowercase};
ghost use Rattle.model_h1.specs.Request.{Head};
ghost use Rattle.model_h1.specs.LengthTable.{values_of};
ghost use Rattle.model_h1.specs.Handshake.{handshake_error, first_has_word, version_error, accept_key_of};
ghost use Rattle.ws_session.specs.declared.verify.HandshakeFault.TheVariants as faults;
ghost use Rattle.ws_session.specs.Upgrade.{SaysUpgrade, head_said, IsFirst, IsFoundAlike, Verified, is_spoken};

use crate::NoMemory;
use http_types::{Cause, HeaderValue, Kind, RequestHead, has_word};
use thiserror::Error;
use ws_frames::hash_key;

/// Why a request is not upgraded (RFC 6455, section 4.2.1).
#[derive(Clone, Copy, Debug, PartialEq, Eq, Error)]
pub enum HandshakeError {
    /// Its method isn't GET.
    #[error("the method is not GET")]
    GetMethodRequired,
    /// Its first `Upgrade` line doesn't say `websocket`.
    #[error("no upgrade to websocket is asked for")]
    NoWebsocketUpgrade,
    /// Its first `Connection` line doesn't say `upgrade`.
    #[error("the connection is not to be upgraded")]
    NoConnectionUpgrade,
    /// It has no `Sec-WebSocket-Version` line.
    #[error("no version of websocket is named")]
    NoVersionHeader,
    /// The first such line names none of the versions 13, 8 and 7.
    #[error("the version of websocket is not spoken")]
    UnsupportedVersion,
    /// It has no `Sec-WebSocket-Key` line.
    #[error("there is no key to answer")]
    BadWebsocketKey,
}

/// Why a handshake was not answered.
#[derive(Clone, Copy, Debug, PartialEq, Eq, Error)]
pub enum HandshakeFault {
    /// The request fails a check.
    #[error("the request is not upgraded: {0}")]
    Refused(HandshakeError),
    /// There was no memory for the answer.
    #[error("no memory is left")]
    NoMemory,
}

impl From<HandshakeError> for HandshakeFault {
    ghost from_gives = { λ error fault. fault ≡ faults.Refused error };

    fn from(error: HandshakeError) -> HandshakeFault {
        HandshakeFault::Refused(error)
    }
}

impl From<NoMemory> for HandshakeFault {
    ghost from_gives = { λ error fault. fault ≡ faults.NoMemory };

    fn from(_error: NoMemory) -> HandshakeFault {
        HandshakeFault::NoMemory
    }
}

impl From<HandshakeError> for http_types::Error {
    ghost use Rattle.std.specs.Prelude.{◌≡◌};
    ghost use Rattle.ws_session.specs.Causes.{of_handshake};

    ghost from_gives = { λ cause error. error ≡ of_handshake };

    fn from(_cause: HandshakeError) -> http_types::Error {
        http_types::Error {
            kind: Kind::Ws,
            cause: Some(Cause::Handshake),
        }
    }
}

/// Whether a request asks for an upgrade to WebSocket as it has to, or the first check that fails: the method is GET; the
/// first `Upgrade` value is readable and has `websocket` in it; the first `Connection` value is readable and has `upgrade`
/// in it; there is a `Sec-WebSocket-Version` value, and the first is 13, 8 or 7; and there is a `Sec-WebSocket-Key` value
/// (RFC 6455, section 4.2.1). That holds of a request that was read, by its head, and of one made by hand, by its own
/// method and headers. Takes no memory.
pub fn verify_handshake(req: &RequestHead) -> Result<(), HandshakeError>
    ensures read { (h : Head) → SaysUpgrade req.now h → Verified result (handshake_error h) }
    ensures own { Verified result (handshake_error (head_said req.now)) }
{
    let _valid = req.headers.len();
    check_all(req)
}

/// The checks, in order.
fn check_all(req: &RequestHead) -> Result<(), HandshakeError>
    ensures { (h : Head) → SaysUpgrade req.now h → Verified result (handshake_error h) }
{
    if req.method.as_str() != "GET" {
        return Err(HandshakeError::GetMethodRequired);
    }
    if !first_has_word(req, "upgrade", b"websocket") {
        return Err(HandshakeError::NoWebsocketUpgrade);
    }
    if !first_has_word(req, "connection", b"upgrade") {
        return Err(HandshakeError::NoConnectionUpgrade);
    }
    match verify_version(req) {
        Ok(()) => {}
        Err(error) => return Err(error),
    }
    match first_value(req, "sec-websocket-key") {
        Some(_) => Ok(()),
        None => Err(HandshakeError::BadWebsocketKey),
    }
}

/// The answer to the key of a request: of several keys the first counts, and without one the answer is that to an empty
/// key (RFC 6455, section 4.2.2). Takes no memory.
pub fn accept_key_of(req: &RequestHead) -> [u8; 28]
    ensures read { (h : Head) → SaysUpgrade req.now h → result ≡ accept_key_of h }
    ensures own { result ≡ accept_key_of (head_said req.now) }
{
    let _valid = req.headers.len();
    answer_key(req)
}

/// The answer to the first key.
fn answer_key(req: &RequestHead) -> [u8; 28]
    ensures { (h : Head) → SaysUpgrade req.now h → result ≡ accept_key_of h }
{
    match first_value(req, "sec-websocket-key") {
        Some(key) => hash_key(key.as_bytes()),
        None => hash_key(b""),
    }
}

/// The first value of this name.
fn first_value<'a>(req: &'a RequestHead, name: &'static str) -> Option<&'a HeaderValue>
    requires { lowercase name.now ≡ name.now }
    ensures { (h : Head) → SaysUpgrade req.now h → IsFirst result (values_of name.now h.headers) }
{
    req.headers.get(name)
}

/// The first value of this name is readable and has the word.
fn first_has_word(req: &RequestHead, name: &'static str, word: &[u8]) -> bool
    requires lowered { lowercase name.now ≡ name.now }
    requires found { IsFoundAlike word.now }
    ensures { (h : Head) → SaysUpgrade req.now h → result ≡ first_has_word word.now (values_of name.now h.headers) }
{
    let Some(value) = first_value(req, name) else {
        return false;
    };
    match value.to_str() {
        Ok(text) => has_word(text.as_bytes(), word),
        Err(_) => false,
    }
}

/// The first version that is named is one that is spoken.
fn verify_version(req: &RequestHead) -> Result<(), HandshakeError>
    ensures { (h : Head) → SaysUpgrade req.now h → Verified result (version_error (values_of (codes "sec-websocket-version") h.headers)) }
{
    let Some(value) = first_value(req, "sec-websocket-version") else {
        return Err(HandshakeError::NoVersionHeader);
    };
    if is_spoken(value.as_bytes()) {
        return Ok(());
    }
    Err(HandshakeError::UnsupportedVersion)
}

/// The versions that are spoken.
fn is_spoken(version: &[u8]) -> bool
    ensures { result ≡ is_spoken version.now }
{
    version == b"13".as_slice() || version == b"8".as_slice() || version == b"7".as_slice()
}
