//! The usual bytes between two chunks: the line end after the first, and a size line of digits alone. A digit costs
//! little here, where no place is kept between two of them.
ghost use Rattle.std.specs.Prelude.{◌≤◌, length};
ghost use Rattle.std.specs.Bool.{OnTrue};
ghost use Rattle.model_h1.specs.Place.{in_size};
ghost use Rattle.h1_payload.specs.Places.{place_of};
ghost use Rattle.h1_payload.specs.QuietWays.{LeadsQuietly, HasLineEnd};

use crate::place::{Place, after_line};
use httparse::parse_hex_digit;

/// Passes these bytes, from an index on, as far as they are the usual ones, and says up to where, and the place after
/// them. Of other bytes it may pass none.
#[inline(always)]
pub(crate) fn pass_usual(start: Place, bytes: &[u8], from: usize) -> (usize, Place)
    requires { from ≤ length bytes.now }
    ensures { LeadsQuietly (place_of start) bytes.now from result.0 (place_of result.1) }
{
    match start {
        Place::Size(size) => pass_line(size, bytes, from),
        Place::BytesEnd if has_line_end(bytes, from) => pass_line(0, bytes, from + 2),
        _ => (from, start),
    }
}

/// Passes a size line of digits alone, where its size so far is this: of another line, its digits.
#[inline(always)]
fn pass_line(size: u64, bytes: &[u8], from: usize) -> (usize, Place)
    requires { from ≤ length bytes.now }
    ensures { LeadsQuietly (in_size size) bytes.now from result.0 (place_of result.1) }
{
    let (at, size) = pass_digits(size, bytes, from);
    if has_line_end(bytes, at) {
        (at + 2, after_line(size))
    } else {
        (at, Place::Size(size))
    }
}

/// Passes the digits of a size, while a further one still fits.
#[inline(always)]
fn pass_digits(start: u64, bytes: &[u8], from: usize) -> (usize, u64)
    requires { from ≤ length bytes.now }
    ensures { LeadsQuietly (in_size start) bytes.now from result.0 (in_size result.1) }
{
    let mut at = from;
    let mut size = start;
    while at < bytes.len() && size < 1 << 60 {
        match parse_hex_digit(bytes[at]) {
            Some(digit) => size = size * 16 + digit,
            None => return (at, size),
        }
        at += 1;
    }
    (at, size)
}

/// Whether CR LF stands at an index.
#[inline(always)]
fn has_line_end(bytes: &[u8], at: usize) -> bool
    requires { at ≤ length bytes.now }
    ensures { OnTrue result (HasLineEnd bytes.now at) }
{
    at + 1 < bytes.len() && bytes[at] == b'\r' && bytes[at + 1] == b'\n'
}
