//! Texts that stand in a line of a log.
ghost use Rattle.std.specs.Prelude.{◌≡◌, ◌<◌, ◌++◌, ◌∷◌, [], false, IfOk, OnOk};
ghost use Rattle.std.specs.Fmt.{digit_glyph};
ghost use Rattle.std.specs.String.{string_bytes};
ghost use Rattle.http_files.specs.LogText.{is_shown, shown, line_text, shown_in_json, json_text};

use httpdate::HttpDate;
use std::alloc::{AllocError, Global};
use std::str;

const MONTHS: [&str; 12] = [
    "Jan", "Feb", "Mar", "Apr", "May", "Jun", "Jul", "Aug", "Sep", "Oct", "Nov", "Dec",
];

/// Bytes as they stand in a line of a log: visible ones of ASCII as they are, but the backslash, and each other one as a
/// backslash, `x` and two digits of base 16. So a target can neither end the line nor write to a terminal.
pub fn line_text(alloc: Global, bytes: &[u8]) -> Result<String, AllocError>
    ensures { IfOk result (λ text. string_bytes text ≡ line_text bytes.now) }
{
    let mut text = String::new(alloc);
    for byte in bytes {
        push_byte(&mut text, *byte)?;
    }
    Ok(text)
}

/// Bytes as they stand in a text of JSON (RFC 8259, section 7): visible ones of ASCII as they are, but the backslash and the
/// quote, and each other one as `\u00` and two digits of base 16.
pub fn json_text(alloc: Global, bytes: &[u8]) -> Result<String, AllocError>
    ensures { IfOk result (λ text. string_bytes text ≡ json_text bytes.now) }
{
    let mut text = String::new(alloc);
    for byte in bytes {
        push_in_json(&mut text, *byte)?;
    }
    Ok(text)
}

/// A moment in milliseconds after the start of 1970 as RFC 3339 has it: `1994-11-06T08:49:37.000Z`. One after the year 9999 is
/// the number.
pub fn log_time(alloc: Global, moment: u64) -> Result<String, AllocError> {
    let Ok(date) = HttpDate::from_unix_secs(moment / 1000) else {
        return format!(in alloc; "{moment}");
    };
    let text = date.to_bytes();
    let (year, month, day) = (
        part(&text[12..16]),
        month_of(&text[8..11]),
        part(&text[5..7]),
    );
    let (time, rest) = (part(&text[17..25]), moment % 1000);
    format!(in alloc; "{year}-{month:02}-{day}T{time}.{rest:03}Z")
}

// The number of a month by its name's first three letters.
fn month_of(name: &[u8]) -> usize {
    let found = MONTHS.iter().position(|month| month.as_bytes() == name);
    found.map_or(0, |place| place.saturating_add(1))
}

// A part of a date.
fn part(bytes: &[u8]) -> &str {
    str::from_utf8(bytes).unwrap_or("")
}

// Appends one byte to a text of JSON.
fn push_in_json(text: &mut String, byte: u8) -> Result<(), AllocError>
    ensures { OnOk result (string_bytes text.new ≡ string_bytes text.old ++ shown_in_json byte) }
{
    if is_shown(byte) && byte != b'"' {
        return push_ascii(text, byte);
    }
    text.push_str("\\u00")?;
    push_ascii(text, digit(byte / 16))?;
    push_ascii(text, digit(byte % 16))
}

// Appends one byte.
fn push_byte(text: &mut String, byte: u8) -> Result<(), AllocError>
    ensures { OnOk result (string_bytes text.new ≡ string_bytes text.old ++ shown byte) }
{
    if is_shown(byte) {
        return push_ascii(text, byte);
    }
    text.push_str("\\x")?;
    push_ascii(text, digit(byte / 16))?;
    push_ascii(text, digit(byte % 16))
}

// Appends one byte of ASCII.
fn push_ascii(text: &mut String, byte: u8) -> Result<(), AllocError>
    requires { byte < 128 }
    ensures { OnOk result (string_bytes text.new ≡ string_bytes text.old ++ byte ∷ []) }
{
    text.push(byte as char)
}

// Whether a byte stands for itself.
fn is_shown(byte: u8) -> bool
    ensures { result ≡ is_shown byte }
{
    32 < byte && byte < 127 && byte != b'\\'
}

// A digit of base 16.
fn digit(value: u8) -> u8
    requires { value < 16 }
    ensures value { result ≡ digit_glyph false value }
    ensures ascii { result < 128 }
{
    if value < 10 { 48 + value } else { 87 + value }
}
