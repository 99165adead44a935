//! A chunk of a body (RFC 7230, section 4.1).
ghost use Rattle.std.specs.Prelude.{◌≡◌, ◌++◌, ◌-◌, ◌<◌, ◌≤◌, ◌^◌, [], drop, length, IsOk, OnOk, OnErr, true};
ghost use Rattle.std.specs.Fmt.{digits, digit_glyph};
ghost use Rattle.httparse.specs.Ascii.{crlf_bytes};
ghost use Rattle.model_h1.specs.AnswerText.{chunk_text, last_chunk};

use bytes::BytesMut;
use http_types::NoMemory;
use std::marker::Model;

// Sixteen digits, which say any size, and a line end.
const SIZE_LINE_LEN: usize = 18;

/// The line in front of a chunk's bytes: how many there are, in upper-case hexadecimal digits, and a line end (RFC 7230,
/// section 4.1). A clause sees its bytes.
#[derive(Drop)]
pub struct SizeLine {
    line: [u8; SIZE_LINE_LEN],
    start: usize,
}

impl Model for SizeLine {
    ghost use Rattle.std.specs.Prelude.{ℕ, ◌≤◌, List, drop};

    ghost Value = { List ℕ };

    ghost view = { λ s. drop s.start s.line };

    ghost invariant = { λ s. s.start ≤ 18 };
}

impl SizeLine {
    /// That of a chunk of so many bytes.
    pub fn of(size: u64) -> SizeLine
        ensures { result ≡ digits 16 true size ++ crlf_bytes }
    {
        let mut line = *b"0000000000000000\r\n";
        let start = put_digits(size, &mut line);
        SizeLine { line, start }
    }

    /// Its bytes.
    pub fn as_slice(&self) -> &[u8]
        ensures { result.now ≡ self.now }
    {
        &self.line[self.start..]
    }
}

/// Puts a chunk: its length in upper-case hexadecimal digits, and its bytes. No bytes are no chunk, and take
/// no memory.
pub(crate) fn put_chunk(out: &mut BytesMut, bytes: &[u8]) -> Result<(), NoMemory>
    ensures ok { OnOk result (out.new.items ≡ out.old.items ++ chunk_text bytes.now) }
    ensures err { OnErr result (out.new.items ≡ out.old.items) }
    ensures no_memory_needed { bytes.now ≡ [] → IsOk result }
{
    if bytes.is_empty() {
        return Ok(());
    }
    let line = SizeLine::of(bytes.len() as u64);
    out.reserve(bytes.len() + SIZE_LINE_LEN + 2)?;
    out.extend_reserved(line.as_slice());
    out.extend_reserved(bytes);
    out.extend_reserved(b"\r\n");
    Ok(())
}

/// Puts the chunk of size 0 that ends a body, and no trailer.
pub(crate) fn put_last_chunk(out: &mut BytesMut) -> Result<(), NoMemory>
    ensures ok { OnOk result (out.new.items ≡ out.old.items ++ last_chunk) }
    ensures err { OnErr result (out.new.items ≡ out.old.items) }
{
    out.extend_from_slice(b"0\r\n\r\n")
}

// The digits of a size, in front of the line end. It tells where they begin.
fn put_digits(size: u64, line: &mut [u8; SIZE_LINE_LEN]) -> usize
    requires { drop 16 line.old ≡ crlf_bytes }
    ensures within { result ≤ 18 }
    ensures written { drop result line.new ≡ digits 16 true size ++ crlf_bytes }
{
    let mut left = size;
    let mut at = 16;
    while left >= 16 {
        at -= 1;
        line[at] = digit(left % 16);
        left /= 16;
    }
    at -= 1;
    line[at] = digit(left);
    at
}

// A hexadecimal digit.
fn digit(value: u64) -> u8
    requires { value < 16 }
    ensures { result ≡ digit_glyph true value }
{
    if value < 10 {
        b'0' + value as u8
    } else {
        b'A' + (value - 10) as u8
    }
}
