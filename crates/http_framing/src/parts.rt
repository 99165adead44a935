//! The parts of a header line, out of the text in which it stands.
ghost use Rattle.std.specs.Prelude.{◌≡◌, length, IfOk};
ghost use Rattle.http_header.specs.FieldValue.{IsFieldValue, plain_value};
ghost use Rattle.httparse.specs.Spans.{IsWithin, span_bytes};

use bytes::Bytes;
use http_map::{HeaderValue, NoMemory};
use httparse::spans::Span;

/// The bytes that the span covers. They share the memory of the text.
///
/// # Errors
///
/// Out of memory alone.
pub fn share(text: &Bytes, span: Span) -> Result<Bytes, NoMemory>
    requires within { IsWithin (length text.now) span }
    ensures { IfOk result (λ bytes. bytes ≡ span_bytes text.now span) }
{
    text.slice(span.start..span.end)
}

/// The bytes that the span covers as a value of a header, which they are known to be (RFC 7230, section 3.2): they are
/// not checked again. They share the memory of the text.
///
/// # Errors
///
/// Out of memory alone.
pub fn known_value(text: &Bytes, span: Span) -> Result<HeaderValue, NoMemory>
    requires within { IsWithin (length text.now) span }
    requires valid { IsFieldValue (span_bytes text.now span) }
    ensures { IfOk result (λ value. value ≡ plain_value (span_bytes text.now span)) }
{
    let bytes = share(text, span)?;
    Ok(HeaderValue::from_known_valid(bytes))
}
