//! The header lines of a request.
ghost use Rattle.std.specs.Prelude.{◌≡◌, ◌++◌, not, ◌&&◌, ◌||◌, bytes_eq, codes, false, IfOk, OnOk, OnErr};
ghost use Rattle.http_map.specs.HeaderMap.{pairs};
ghost use Rattle.model_h1.specs.AnswerText.{name_text};
ghost use Rattle.h1_encoder.specs.WrittenLines.{Grows, goes_out, pairs_text, has_date, is_framing};

use crate::request_camel::put_camel_case;
use bytes::BytesMut;
use http_types::NoMemory;
use http_types::header::{HeaderMap, HeaderName, HeaderValue};

/// Puts the headers that go out, name by name, and tells whether one was a date. None frames a body, and none speaks of the
/// connection: lines of their own do.
pub(crate) fn put_headers(
    out: &mut BytesMut,
    headers: &HeaderMap,
    camel: bool,
) -> Result<bool, NoMemory>
    ensures text { OnOk result (out.new.items ≡ out.old.items ++ pairs_text camel false (pairs headers.now)) }
    ensures date { IfOk result (λ found. found ≡ has_date (pairs headers.now)) }
    ensures err { OnErr result (Grows out.old.items out.new.items) }
{
    let mut has_date = false;
    for (name, value) in headers.iter() {
        let bytes = name.as_bytes();
        if is_name(bytes, b"date") {
            has_date = true;
        }
        if goes_out(bytes) {
            put_line(out, camel, name, value)?;
        }
    }
    Ok(has_date)
}

fn is_name(name: &[u8], other: &[u8]) -> bool
    ensures { result ≡ bytes_eq name.now other.now }
{
    name == other
}

fn goes_out(name: &[u8]) -> bool
    ensures { result ≡ goes_out false name.now }
{
    !is_name(name, b"connection") && !frames_a_body(name)
}

fn frames_a_body(name: &[u8]) -> bool
    ensures { result ≡ is_framing name.now }
{
    is_name(name, b"content-length") || is_name(name, b"transfer-encoding")
}

// A header line (RFC 7230, section 3.2).
fn put_line(
    out: &mut BytesMut,
    camel: bool,
    name: &HeaderName,
    value: &HeaderValue,
) -> Result<(), NoMemory>
    ensures ok { OnOk result (out.new.items ≡ out.old.items ++ (name_text camel name.now
        ++ (codes ": " ++ (value.now.bytes ++ codes "\r\n")))) }
    ensures err { OnErr result (out.new.items ≡ out.old.items) }
{
    let name = name.as_bytes();
    let value = value.as_bytes();
    out.reserve(name.len() + value.len() + 4)?;
    if camel {
        put_camel_case(out, name);
    } else {
        out.extend_reserved(name);
    }
    out.extend_reserved(b": ");
    out.extend_reserved(value);
    out.extend_reserved(b"\r\n");
    Ok(())
}
