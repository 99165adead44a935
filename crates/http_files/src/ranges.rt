//! Which bytes of a file are asked for.
ghost use Rattle.std.specs.Prelude.{◌≡◌};
ghost use Rattle.http_files.specs.Ranges.{asked_of, from_first, last_bytes, place_in, is_number, asked_by, asked_in, range_of};

/// Which bytes of a file are asked for.
#[derive(Clone, Copy, Debug, PartialEq, Eq)]
pub enum Asked {
    /// All of them.
    Whole,

    /// From the first one to the last one, counted from 0.
    Part(u64, u64),

    /// Bytes that aren't there: the answer is 416 (RFC 7233, section 4.4).
    Unsatisfiable,
}

/// Which bytes of a file of this length a `Range` asks for. Of several ranges, of another unit, and of a text that is
/// none, also of one with white space in it, the whole file is given (RFC 7233, section 3.1); so it is where the last
/// bytes of an empty file are asked for. A place of more than 64 bits is the greatest of 64.
pub fn asked_range(value: &str, length: u64) -> Asked
    ensures { result ≡ range_of value.now length }
{
    match value.strip_prefix("bytes=") {
        Some(spec) => asked_in(spec, length),
        None => Asked::Whole,
    }
}

// Which bytes two places with a dash between them ask for.
fn asked_in(spec: &str, length: u64) -> Asked
    ensures { result ≡ asked_in spec.now length }
{
    match spec.split_once('-') {
        Some((first, last)) => asked_by(first, last, length),
        None => Asked::Whole,
    }
}

// Which bytes two places ask for, each of which may be left out.
fn asked_by(first: &str, last: &str, length: u64) -> Asked
    ensures { result ≡ asked_by first.now last.now length }
{
    if (first.is_empty() || is_number(first)) && (last.is_empty() || is_number(last)) {
        asked_between(place_in(first), place_in(last), length)
    } else {
        Asked::Whole
    }
}

// A number of digits alone. One that is too large is the greatest.
fn place_in(text: &str) -> Option<u64>
    ensures { result ≡ place_in text.now }
{
    if is_number(text) {
        Some(text.parse().unwrap_or(u64::MAX))
    } else {
        None
    }
}

// Whether it is a number of digits alone.
fn is_number(text: &str) -> bool
    ensures { result ≡ is_number text.now }
{
    !text.is_empty() && text.as_bytes().iter().all(|b| b.is_ascii_digit())
}

// The bytes between two places; without the first, so many of the last ones.
fn asked_between(first: Option<u64>, last: Option<u64>, length: u64) -> Asked
    ensures { result ≡ asked_of first last length }
{
    match (first, last) {
        (Some(first), last) => asked_from(first, last, length),
        (None, Some(count)) => asked_last(count, length),
        (None, None) => Asked::Whole,
    }
}

fn asked_from(first: u64, last: Option<u64>, length: u64) -> Asked
    ensures { result ≡ from_first first last length }
{
    match last {
        Some(last) if last < first => Asked::Whole,
        Some(last) if first < length => Asked::Part(first, last.min(length - 1)),
        None if first < length => Asked::Part(first, length - 1),
        _ => Asked::Unsatisfiable,
    }
}

fn asked_last(count: u64, length: u64) -> Asked
    ensures { result ≡ last_bytes count length }
{
    if count == 0 {
        Asked::Unsatisfiable
    } else if length == 0 {
        Asked::Whole
    } else {
        Asked::Part(length - count.min(length), length - 1)
    }
}
