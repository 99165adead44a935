//! The date line of an answer.
ghost use Rattle.std.specs.Prelude.{◌≡◌, ◌/◌, ◌*◌, ◌<◌, ◌++◌, length, codes, OnOk, OnErr};
ghost use Rattle.httpdate.specs.Date.{unix_secs};
ghost use Rattle.model_h1.specs.Limits.{MAX_MOMENT};
ghost use Rattle.model_h1.specs.AnswerText.{date_line, name_text};
ghost use Rattle.h1_encoder.specs.DateText.{date_and_end};

use bytes::BytesMut;
use http_types::NoMemory;
use httpdate::HttpDate;
use std::marker::Model;

// `date: `, the date, and two line ends.
const LINE_LEN: usize = 39;

/// The date line of an answer (RFC 7231, section 7.1.1.2), kept for its second: heads of the same second
/// share it. A contract sees the second, counted from the start of 1970.
#[derive(Debug, Drop)]
pub struct DateLine {
    second: u64,
    line: [u8; LINE_LEN],
}

impl Model for DateLine {
    ghost use Rattle.std.specs.Prelude.{◌≡◌, ℕ, ◌<◌};

    ghost Value = { ℕ };

    ghost use Rattle.h1_encoder.specs.DateText.{date_and_end};

    ghost view = { λ d. d.second };

    ghost invariant = { λ d. d.line ≡ date_and_end d.second };
}

impl DateLine {
    /// The line of the first second of 1970.
    pub fn new() -> DateLine
        ensures { result ≡ 0 }
    {
        DateLine {
            second: 0,
            line: first_line(),
        }
    }

    /// Makes it the line of a moment, in milliseconds since the start of 1970. Within a second it stays.
    pub fn set(&mut self, now: u64)
        requires { now < MAX_MOMENT }
        ensures { self.new ≡ now / 1000 }
    {
        let second = now / 1000;
        if second != self.second {
            self.line = line_of(second);
            self.second = second;
        }
    }

    /// The line, and the empty line that ends a head.
    pub(crate) fn as_bytes(&self) -> &[u8]
        ensures value { result.now ≡ date_and_end self.now }
        ensures len { length result.now ≡ 39 }
    {
        &self.line
    }
}

fn first_line() -> [u8; LINE_LEN]
    ensures { result ≡ date_and_end 0 }
{
    *b"date: Thu, 01 Jan 1970 00:00:00 GMT\r\n\r\n"
}

fn line_of(second: u64) -> [u8; LINE_LEN]
    requires { second * 1000 < MAX_MOMENT }
    ensures { result ≡ date_and_end second }
{
    let date = date_at(second);
    let mut line = *b"date: Thu, 01 Jan 1970 00:00:00 GMT\r\n\r\n";
    line[6..35].copy_from_slice(&date.to_bytes());
    line
}

fn date_at(second: u64) -> HttpDate
    requires { second * 1000 < MAX_MOMENT }
    ensures { unix_secs result ≡ second }
{
    match HttpDate::from_unix_secs(second) {
        Ok(date) => date,
        Err(_) => unreachable!(),
    }
}

/// Puts the date line of a moment, in milliseconds since the start of 1970 and before the year 10000 (RFC 7231,
/// section 7.1.1.2). Where memory is wanting `dst` holds what it held.
pub fn write_date_header(now: u64, dst: &mut BytesMut, camel_case: bool) -> Result<(), NoMemory>
    requires { now < MAX_MOMENT }
    ensures ok { OnOk result (dst.new.items ≡ dst.old.items ++ date_line camel_case now) }
    ensures err { OnErr result (dst.new.items ≡ dst.old.items) }
{
    let date = date_at(now / 1000).to_bytes();
    dst.reserve(LINE_LEN)?;
    dst.extend_reserved(date_name(camel_case));
    dst.extend_reserved(&date);
    dst.extend_reserved(b"\r\n");
    Ok(())
}

fn date_name(camel: bool) -> &'static [u8; 6]
    ensures { result.now ≡ name_text camel (codes "date") ++ codes ": " }
{
    if camel { b"Date: " } else { b"date: " }
}
