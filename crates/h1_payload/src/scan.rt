//! What comes next in the bytes of a body in chunks.
ghost use Rattle.std.specs.Prelude.{◌≡◌, ◌≤◌, true, length, drop};
ghost use Rattle.model_h1.specs.TakeNext.{nothing_noted, take_next};
ghost use Rattle.h1_payload.specs.Places.{line_of, place_of, is_section};
ghost use Rattle.model_h1.specs.Place.{in_bytes, in_section, end_cr};
ghost use Rattle.h1_payload.specs.Scans.{IsPassed, IsLinesPassed, EndsLines, told, next_of, IsFoundWithin, IsNoChunk, IsWithin};

use crate::place::{Line, Place};
use crate::size_line::pass_usual;

/// What comes next, by where it stands in the bytes.
#[derive(Clone, Copy, Debug, PartialEq, Eq)]
pub(crate) enum Found {
    /// Bytes of a chunk, from the first index up to the second; and the place after them.
    Chunk(usize, usize, Place),

    /// Nothing yet: all bytes lead to this place.
    Waits(Place),

    /// The body's end, which is at this index.
    Ends(usize),

    /// Bytes that no body has there.
    Breaks,
}

/// What comes next, and the bytes of trailer lines in front of it, from an index up to another.
#[derive(Clone, Copy, Debug, PartialEq, Eq)]
pub(crate) struct Scan {
    pub(crate) from: usize,
    pub(crate) to: usize,
    pub(crate) found: Found,
}

/// What comes next in the bytes, from a place on. No byte of a chunk is looked at, and each other is passed once.
pub(crate) fn find_next(start: Place, bytes: &[u8]) -> Scan
    ensures value { take_next (place_of start) bytes.now ≡ told bytes.now result }
    ensures within { IsWithin (length bytes.now) result }
{
    let (at, place) = pass_quiet(start, bytes);
    match place {
        Place::Bytes(more) => plain(at, find_chunk(more, bytes, at)),
        Place::Section(line, lines, room) => scan_section(line, lines, room, bytes, at),
        Place::Done => plain(at, Found::Ends(at)),
        Place::Broken => plain(at, Found::Breaks),
        place => plain(at, Found::Waits(place)),
    }
}

/// No byte of a trailer line.
fn plain(at: usize, found: Found) -> Scan
    ensures { result ≡ record { from = at; to = at; found = found } }
{
    Scan {
        from: at,
        to: at,
        found,
    }
}

/// Passes what is none of a chunk or of a trailer line, and says how many bytes, and the place after them.
fn pass_quiet(start: Place, bytes: &[u8]) -> (usize, Place)
    ensures { IsPassed start bytes.now result.0 result.1 }
{
    let (mut at, mut place) = pass_usual(start, bytes, 0);

    // Mostly a chunk follows. The loop says so too, but later.
    if let Place::Bytes(_) = place {
        return (at, place);
    }
    while at < bytes.len() && place.is_quiet() {
        place = place.step(bytes[at]);
        at += 1;
    }
    (at, place)
}

/// The bytes of a chunk that are there, from an index on, where `more` follow the first.
fn find_chunk(more: u64, bytes: &[u8], at: usize) -> Found
    requires { at ≤ length bytes.now }
    ensures value { take_next (in_bytes more) (drop at bytes.now) ≡ nothing_noted (next_of bytes.now result) }
    ensures within { IsFoundWithin (length bytes.now) result }
{
    let len = bytes.len();
    if at == len {
        return Found::Waits(Place::Bytes(more));
    }
    let count = (len - at) as u64;
    if more < count {
        Found::Chunk(at, at + more as usize + 1, Place::BytesEnd)
    } else {
        Found::Chunk(at, len, Place::Bytes(more - count))
    }
}

/// What comes next in a trailer section, from an index on.
fn scan_section(line: Line, lines: usize, room: usize, bytes: &[u8], at: usize) -> Scan
    requires { at ≤ length bytes.now }
    ensures value { take_next (in_section (line_of line) lines room) (drop at bytes.now) ≡ told bytes.now result }
    ensures within { IsWithin (length bytes.now) result }
{
    let (count, place) = pass_lines(line, lines, room, &bytes[at..]);
    let to = at + count;
    Scan {
        from: at,
        to,
        found: find_end(place, bytes, to),
    }
}

/// Passes the bytes of trailer lines, and says how many, and the place in the section after them.
fn pass_lines(line: Line, lines: usize, room: usize, bytes: &[u8]) -> (usize, Place)
    ensures { IsLinesPassed (in_section (line_of line) lines room) bytes.now result.0 result.1 }
{
    let mut place = Place::Section(line, lines, room);
    for (at, byte) in bytes.iter().enumerate() {
        let next = place.step(*byte);
        if !next.is_section() {
            return (at, place);
        }
        place = next;
    }
    (bytes.len(), place)
}

/// What comes next after trailer lines: where there is a byte, it ends the section.
fn find_end(place: Place, bytes: &[u8], at: usize) -> Found
    requires within { at ≤ length bytes.now }
    requires lines { is_section (place_of place) ≡ true }
    requires ends { EndsLines (place_of place) (drop at bytes.now) }
    ensures value { take_next (place_of place) (drop at bytes.now) ≡ nothing_noted (next_of bytes.now result) }
    ensures within { IsFoundWithin (length bytes.now) result }
    ensures no_chunk { IsNoChunk result }
{
    if at == bytes.len() {
        return Found::Waits(place);
    }
    match place.step(bytes[at]) {
        Place::EndCr => find_line_feed(bytes, at + 1),
        _ => Found::Breaks,
    }
}

/// What comes next after the CR of the empty line.
fn find_line_feed(bytes: &[u8], at: usize) -> Found
    requires { at ≤ length bytes.now }
    ensures value { take_next end_cr (drop at bytes.now) ≡ nothing_noted (next_of bytes.now result) }
    ensures within { IsFoundWithin (length bytes.now) result }
    ensures no_chunk { IsNoChunk result }
{
    if at == bytes.len() {
        return Found::Waits(Place::EndCr);
    }
    if bytes[at] == b'\n' {
        Found::Ends(at + 1)
    } else {
        Found::Breaks
    }
}
