//! What becomes of the connection behind an answer.
ghost use Rattle.std.specs.Prelude.{◌≡◌, ◌==◌, ◌&&◌, not, option_map, codes};
ghost use Rattle.model_h1.specs.Setting.{Setting, keeps};
ghost use Rattle.model_h1.specs.Answer as answers;
ghost use Rattle.h1_encoder.specs.Meaning.{answer_of, headers_of, size_of, model_type, model_shape};

use crate::Asked;
use crate::shape::{Shape, shape_of};
use http_framing::BodySize;
use http_types::header::CONTENT_LENGTH;
use http_types::{ConnectionType, HeaderMap, ResponseHead, StatusCode};

/// What becomes of the connection behind an answer to this request: what the request asked for, unless the
/// setting keeps no connection, the answer asks to close or to upgrade, its body ends with the connection, or
/// the connection is to end soon (RFC 7230, section 6.3).
pub fn type_of(
    keeps_alive: bool,
    is_draining: bool,
    asked: Asked,
    head: &ResponseHead,
    size: BodySize,
) -> ConnectionType
    ensures { (setting : Setting) → keeps setting.keep_alive ≡ keeps_alive
        → model_type result ≡ answers.type_of setting is_draining asked (answer_of head.now) (size_of size) }
{
    let allowed = allowed_type(keeps_alive, asked.connection());
    let wanted = overridden_type(allowed, head.conn_type());
    let shape = shape_of(asked, head, size);
    drained_type(is_draining, raw_type(head, shape, wanted))
}

fn allowed_type(keeps_alive: bool, connection: ConnectionType) -> ConnectionType
    ensures { (setting : Setting) → keeps setting.keep_alive ≡ keeps_alive
        → model_type result ≡ answers.allowed_type setting (model_type connection) }
{
    match connection {
        ConnectionType::KeepAlive if !keeps_alive => ConnectionType::Close,
        other => other,
    }
}

// An answer may ask to close or to upgrade; that it would keep alive changes nothing.
fn overridden_type(connection: ConnectionType, own: Option<ConnectionType>) -> ConnectionType
    ensures { model_type result ≡ answers.overridden_type (model_type connection) (option_map model_type own) }
{
    match own {
        Some(ConnectionType::Close) => ConnectionType::Close,
        Some(ConnectionType::Upgrade) => ConnectionType::Upgrade,
        Some(ConnectionType::KeepAlive) | None => connection,
    }
}

fn raw_type(head: &ResponseHead, shape: Shape, connection: ConnectionType) -> ConnectionType
    ensures { model_type result ≡ answers.raw_type (answer_of head.now) (model_shape shape) (model_type connection) }
{
    if ends_with_connection(head, shape) {
        ConnectionType::Close
    } else {
        connection
    }
}

// A raw body ends with the connection, unless its length is stated or it is another protocol's.
fn ends_with_connection(head: &ResponseHead, shape: Shape) -> bool
    ensures { result ≡ (answers.is_raw (model_shape shape) && not (head.now.status == 101)
        && not (answers.has_header (codes "content-length") (answer_of head.now).headers)) }
{
    is_raw(shape) && head.status != StatusCode::SWITCHING_PROTOCOLS && !states_length(&head.headers)
}

/// Whether a body goes out as it is.
pub(crate) fn is_raw(shape: Shape) -> bool
    ensures { result ≡ answers.is_raw (model_shape shape) }
{
    shape == Shape::Raw
}

// Whether one of the headers states a length.
fn states_length(headers: &HeaderMap) -> bool
    ensures { result ≡ answers.has_header (codes "content-length") (headers_of headers.now) }
{
    headers.len() != 0 && headers.contains_key(CONTENT_LENGTH)
}

fn drained_type(is_draining: bool, connection: ConnectionType) -> ConnectionType
    ensures { model_type result ≡ answers.drained_type is_draining (model_type connection) }
{
    match connection {
        ConnectionType::KeepAlive if is_draining => ConnectionType::Close,
        other => other,
    }
}
