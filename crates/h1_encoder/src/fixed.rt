//! Texts that hang on nothing but a moment.
ghost use Rattle.std.specs.Prelude.{◌≡◌, ◌++◌, ◌/◌, ◌<◌, List, ℕ, OnOk, OnErr, codes, false};
ghost use Rattle.model_h1.specs.Limits.{MAX_MOMENT};
ghost use Rattle.model_h1.specs.AnswerText.{interim_text, bad_request_text, too_large_text, timeout_text, date_line};

use crate::DateLine;
use bytes::BytesMut;
use http_types::NoMemory;

/// Puts the line that tells a client to go on (RFC 7231, section 6.2.1). Where memory is wanting `out` holds
/// what it held.
pub fn put_interim(out: &mut BytesMut) -> Result<(), NoMemory>
    ensures ok { OnOk result (out.new.items ≡ out.old.items ++ interim_text) }
    ensures err { OnErr result (out.new.items ≡ out.old.items) }
{
    out.extend_from_slice(b"HTTP/1.1 100 Continue\r\n\r\n")
}

/// Puts the answer to a head that is malformed (RFC 7231, section 6.5.1); `now` is in milliseconds since the
/// start of 1970. Where memory is wanting `out` holds what it held.
pub fn put_bad_request(out: &mut BytesMut, date: &mut DateLine, now: u64) -> Result<(), NoMemory>
    requires { now < MAX_MOMENT }
    ensures ok { OnOk result (out.new.items ≡ out.old.items ++ bad_request_text now) }
    ensures err { OnErr result (out.new.items ≡ out.old.items) }
{
    put_refusal(
        out,
        b"HTTP/1.1 400 Bad Request\r\ncontent-length: 0\r\nconnection: close\r\n",
        date,
        now,
    )
}

/// Puts the answer to a head that is too large (RFC 6585, section 5); `now` is in milliseconds since the start
/// of 1970. Where memory is wanting `out` holds what it held.
pub fn put_too_large(out: &mut BytesMut, date: &mut DateLine, now: u64) -> Result<(), NoMemory>
    requires { now < MAX_MOMENT }
    ensures ok { OnOk result (out.new.items ≡ out.old.items ++ too_large_text now) }
    ensures err { OnErr result (out.new.items ≡ out.old.items) }
{
    put_refusal(
        out,
        b"HTTP/1.1 431 Request Header Fields Too Large\r\ncontent-length: 0\r\nconnection: close\r\n",
        date,
        now,
    )
}

/// Puts the answer to a request that is too slow (RFC 7231, section 6.5.7); `now` is in milliseconds since the
/// start of 1970. Where memory is wanting `out` holds what it held.
pub fn put_timeout(out: &mut BytesMut, date: &mut DateLine, now: u64) -> Result<(), NoMemory>
    requires { now < MAX_MOMENT }
    ensures ok { OnOk result (out.new.items ≡ out.old.items ++ timeout_text now) }
    ensures err { OnErr result (out.new.items ≡ out.old.items) }
{
    put_refusal(
        out,
        b"HTTP/1.1 408 Request Timeout\r\ncontent-length: 0\r\nconnection: close\r\n",
        date,
        now,
    )
}

// The lines, the date of the moment, and the empty line.
fn put_refusal(
    out: &mut BytesMut,
    lines: &[u8],
    date: &mut DateLine,
    now: u64,
) -> Result<(), NoMemory>
    requires { now < MAX_MOMENT }
    ensures ok { OnOk result (out.new.items ≡ out.old.items ++ (lines.now ++ (date_line false now ++ codes "\r\n"))) }
    ensures err { OnErr result (out.new.items ≡ out.old.items) }
{
    date.set(now);
    let end = date.as_bytes();
    out.reserve(lines.len() + end.len())?;
    out.extend_reserved(lines);
    out.extend_reserved(end);
    Ok(())
}
