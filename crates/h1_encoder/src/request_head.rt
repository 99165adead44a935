//! The head of a request.
ghost use Rattle.std.specs.Prelude.{◌≡◌, ◌<◌, ◌++◌, OnOk, OnErr, IsTrue, if◌then◌else◌, []};
ghost use Rattle.httparse.specs.Ascii.{crlf_bytes};
ghost use Rattle.model_h1.specs.Limits.{MAX_MOMENT};
ghost use Rattle.model_h1.specs.AnswerText.{date_line};
ghost use Rattle.model_client.specs.RequestText.{request_text, asked_shape};
ghost use Rattle.h1_encoder.specs.WrittenLines.{Grows};
ghost use Rattle.h1_encoder.specs.Meaning.{size_of, model_type};
ghost use Rattle.h1_encoder.specs.RequestMeaning.{asked_head, has_text};

use crate::request_framing::{put_connection, put_framing};
use crate::request_headers::put_headers;
use crate::request_line::{minor_of, put_request_words};
use crate::write_date_header;
use bytes::BytesMut;
use http_framing::BodySize;
use http_types::{ConnectionType, NoMemory, RequestHead, Version};

// What a head has beside its own headers, but for a long method or target.
const USUAL_LEN: usize = 160;

// What a header line has in the mean.
const USUAL_LINE_LEN: usize = 40;

/// Whether a request of this version has a text: one of HTTP/1.0 or HTTP/1.1 (RFC 7230, section 2.6).
pub fn has_text(version: Version) -> bool
    ensures { result ≡ has_text version }
{
    minor_of(version) <= 1
}

/// Puts the head of a request after what `out` holds: the request line with the target's path and query, and a slash where
/// it has no path, the line that frames a body of this size, the connection line, the headers name by name, the date unless
/// a header is one, and the empty line (RFC 7230, section 3). Headers that frame a body or speak of the connection are left
/// out. A body whose size isn't known goes out in chunks. `now` is in milliseconds since the start of 1970, before the year
/// 10000. Where memory is wanting, the only error, `out` holds what it held.
pub fn put_request_head(
    out: &mut BytesMut,
    head: &RequestHead,
    size: BodySize,
    connection: ConnectionType,
    now: u64,
) -> Result<(), NoMemory>
    requires moment { now < MAX_MOMENT }
    requires version { IsTrue (has_text head.now.version) }
    ensures ok { OnOk result (out.new.items ≡ out.old.items
        ++ request_text (asked_head head.now) (asked_shape (size_of size)) (size_of size) (model_type connection) now) }
    ensures err { OnErr result (out.new.items ≡ out.old.items) }
{
    let before = out.len();
    match put_all(out, head, size, connection, now) {
        Ok(()) => Ok(()),
        Err(error) => {
            out.truncate(before);
            Err(error)
        }
    }
}

fn put_all(
    out: &mut BytesMut,
    head: &RequestHead,
    size: BodySize,
    connection: ConnectionType,
    now: u64,
) -> Result<(), NoMemory>
    requires moment { now < MAX_MOMENT }
    requires version { IsTrue (has_text head.now.version) }
    ensures ok { OnOk result (out.new.items ≡ out.old.items
        ++ request_text (asked_head head.now) (asked_shape (size_of size)) (size_of size) (model_type connection) now) }
    ensures err { OnErr result (Grows out.old.items out.new.items) }
{
    let camel = head.camel_case_headers();
    let lines = head.headers.len().saturating_mul(USUAL_LINE_LEN);
    out.reserve(lines.saturating_add(USUAL_LEN))?;
    put_request_words(out, head)?;
    put_framing(out, camel, size)?;
    put_connection(out, head.version, camel, connection)?;
    let has_date = put_headers(out, &head.headers, camel)?;
    put_end_of_head(out, camel, has_date, now)
}

// The date line, unless there is one, and the empty line.
fn put_end_of_head(
    out: &mut BytesMut,
    camel: bool,
    has_date: bool,
    now: u64,
) -> Result<(), NoMemory>
    requires { now < MAX_MOMENT }
    ensures ok { OnOk result (out.new.items ≡ out.old.items ++ ((if has_date then [] else date_line camel now) ++ crlf_bytes)) }
    ensures err { OnErr result (Grows out.old.items out.new.items) }
{
    put_date(out, camel, has_date, now)?;
    out.extend_from_slice(b"\r\n")
}

fn put_date(out: &mut BytesMut, camel: bool, has_date: bool, now: u64) -> Result<(), NoMemory>
    requires { now < MAX_MOMENT }
    ensures ok { OnOk result (out.new.items ≡ out.old.items ++ (if has_date then [] else date_line camel now)) }
    ensures err { OnErr result (out.new.items ≡ out.old.items) }
{
    if has_date {
        return Ok(());
    }
    write_date_header(now, out, camel)
}
