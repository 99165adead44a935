//! What a codec notes of a request that it writes.
ghost use Rattle.std.specs.Prelude.{◌≡◌, bytes_eq, codes};
ghost use Rattle.model_client.specs.RequestText.{asked_shape};
ghost use Rattle.h1_encoder.specs.Encoding.{first_encoding};
ghost use Rattle.h1_encoder.specs.Meaning.{size_of};
ghost use Rattle.h1_codec.specs.ServerState.{is_enabled, allowed};
ghost use Rattle.h1_codec.specs.Writing.{is_head_request};

use h1_encoder::TransferEncoding;
use http_config::KeepAlive;
use http_framing::BodySize;
use http_types::{ConnectionType, RequestHead};

/// Whether connections may be kept alive.
pub(crate) fn is_enabled(keep_alive: KeepAlive) -> bool
    ensures { result ≡ is_enabled keep_alive }
{
    match keep_alive {
        KeepAlive::Timeout(_) | KeepAlive::Os => true,
        KeepAlive::Disabled => false,
    }
}

/// No connection is kept alive where that is off.
pub(crate) fn allowed(keeps: bool, kind: ConnectionType) -> ConnectionType
    ensures { result ≡ allowed keeps kind }
{
    match kind {
        ConnectionType::KeepAlive if !keeps => ConnectionType::Close,
        kind => kind,
    }
}

/// Whether the method is HEAD, whose answer has no body (RFC 7231, section 4.3.2).
pub(crate) fn is_head(head: &RequestHead) -> bool
    ensures { result ≡ is_head_request head.now }
{
    let method = head.method.as_str().as_bytes();
    method == b"HEAD".as_slice()
}

/// How a body of this size goes out: in chunks where the size isn't known.
pub(crate) fn encoding_of(size: BodySize) -> TransferEncoding
    ensures { result ≡ first_encoding (asked_shape (size_of size)) }
{
    match size {
        BodySize::None => TransferEncoding::empty(),
        BodySize::Sized(length) => TransferEncoding::length(length),
        BodySize::Stream => TransferEncoding::chunked(),
    }
}
