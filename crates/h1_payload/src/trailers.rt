//! The header map of a trailer section (RFC 7230, section 4.1.2).
ghost use Rattle.std.specs.Prelude.{◌≡◌, ◌≤◌, ◌/◌, length, map, All, IfOk, IfSome};
ghost use Rattle.http_header.specs.FieldName.{IsFieldName};
ghost use Rattle.http_header.specs.FieldValue.{plain_value};
ghost use Rattle.http_header.specs.Token.{lowercase};
ghost use Rattle.httparse.specs.Spans.{IsHeaderWithin, header_bytes, span_bytes};
ghost use Rattle.http_framing.specs.HeaderLines.{header_map, IsLine, line_header};
ghost use Rattle.h1_payload.specs.HeaderMaps.{IsMapOf, IsLinesAt, FindsLines};

use bytes::Bytes;
use http_framing::known_value;
use http_map::{HeaderMap, HeaderName, HeaderValue, NoMemory};
use httparse::Status;
use httparse::spans::{EMPTY_HEADER_SPAN, HeaderSpan, parse_headers};
use std::alloc::{AllocError, Global};

/// The shortest trailer line: a byte of a name, a colon and a line end.
const MIN_LINE_BYTES: usize = 4;

/// The map of the lines of a section, of which this is the text with the empty line after it. A text that is no
/// such section gives an empty map.
pub(crate) fn read_trailers(alloc: Global, text: &Bytes) -> Result<HeaderMap, NoMemory>
    requires { length text.now ≤ 8194 }
    ensures { IfOk result (IsMapOf text.now) }
{
    let mut fields = vec![in alloc; EMPTY_HEADER_SPAN; text.len() / MIN_LINE_BYTES]?;
    match find_lines(text.as_slice(), &mut fields) {
        Some(count) => read_lines(alloc, text, &fields[..count]),
        None => Ok(HeaderMap::new(alloc)),
    }
}

/// Where the lines are, and how many, if the text is a section. There is room for as many lines as it can have.
fn find_lines(text: &[u8], fields: &mut [HeaderSpan]) -> Option<usize>
    requires short { length text.now ≤ 8194 }
    requires room { length fields.old ≡ length text.now / 4 }
    ensures within { IfSome result (λ count. IsLinesAt text.now fields.new count) }
    ensures found { FindsLines text.now fields.new result }
{
    match parse_headers(text, fields) {
        Ok(Status::Complete((_, count))) => Some(count),
        Ok(Status::Partial) => None,
        Err(_) => None,
    }
}

/// The map of the lines that the spans cover, of which each is known to be one.
fn read_lines(alloc: Global, text: &Bytes, fields: &[HeaderSpan]) -> Result<HeaderMap, NoMemory>
    requires within { All (IsHeaderWithin (length text.now)) fields.now }
    requires lines { All IsLine (map (header_bytes text.now) fields.now) }
    ensures { IfOk result (λ headers. headers ≡ header_map (map line_header (map (header_bytes text.now) fields.now))) }
{
    let mut headers = HeaderMap::with_capacity(alloc, fields.len())?;
    for field in fields {
        let (name, value) = read_line(alloc, text, *field)?;
        headers.append(name, value)?;
    }
    Ok(headers)
}

/// The name and the value that the spans cover, which are known to be such.
fn read_line(
    alloc: Global,
    text: &Bytes,
    field: HeaderSpan,
) -> Result<(HeaderName, HeaderValue), NoMemory>
    requires within { IsHeaderWithin (length text.now) field }
    requires line { IsLine (header_bytes text.now field) }
    ensures name { IfOk result (λ line. line.0 ≡ lowercase (span_bytes text.now field.name)) }
    ensures value { IfOk result (λ line. line.1 ≡ plain_value (span_bytes text.now field.value)) }
{
    let name = read_name(alloc, field.name.of(text.as_slice()))?;
    let value = known_value(text, field.value)?;
    Ok((name, value))
}

/// The bytes as a name, which they are, so that nothing but memory can be wanting.
fn read_name(alloc: Global, src: &[u8]) -> Result<HeaderName, NoMemory>
    requires { IsFieldName src.now }
    ensures { IfOk result (λ name. name ≡ lowercase src.now) }
{
    match HeaderName::from_bytes(alloc, src) {
        Ok(name) => Ok(name),
        Err(_) => Err(AllocError),
    }
}
