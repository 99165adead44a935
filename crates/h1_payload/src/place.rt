//! Where a reader stands in a body in chunks (RFC 7230, section 4.1), and where one more byte leads.
ghost use Rattle.std.specs.Prelude.{◌≡◌};
ghost use Rattle.model_h1.specs.Place.{line_start, in_name, in_value, line_cr, expect, after_digits, size_step, extension_step, after_line, bytes_step, needs, with_room, section_step, step};
ghost use Rattle.h1_payload.specs.Places.{line_of, place_of, is_quiet, is_section};
ghost use Rattle.h1_payload.specs.Sameness.{section_numbers, place_numbers};

use httparse::{is_header_name_token, is_header_value_token, is_space_or_tab};

/// The most lines of a trailer section.
const MAX_TRAILER_LINES: usize = 64;

/// The most bytes that these have together, each with its line end.
const MAX_TRAILER_BYTES: usize = 8192;

/// Where in a line of a trailer section.
#[derive(Clone, Copy, Debug, PartialEq, Eq)]
pub(crate) enum Line {
    /// In front of it.
    Start,

    /// In its name.
    Name,

    /// In its value.
    Value,

    /// After its CR.
    Cr,
}

/// A place in a body in chunks. It holds no text.
#[derive(Clone, Copy, Debug, PartialEq, Eq)]
pub(crate) enum Place {
    /// In a line that says a size, which is this so far.
    Size(u64),

    /// In the blanks after the digits of this size.
    Blanks(u64),

    /// In the extension after this size.
    Extension(u64),

    /// After the CR of the line of this size.
    SizeCr(u64),

    /// In front of a byte of a chunk, which this many follow.
    Bytes(u64),

    /// After the bytes of a chunk.
    BytesEnd,

    /// After the CR that follows these.
    BytesCr,

    /// In a trailer section, with the number of lines, and that of bytes, which it may still have.
    Section(Line, usize, usize),

    /// After the CR of the empty line.
    EndCr,

    /// After the body.
    Done,

    /// Nowhere in a body.
    Broken,
}

impl Line {
    /// The numbers of a section that is here, with this number of lines and that of bytes to come.
    fn numbers(self, lines: usize, room: usize) -> [u64; 3]
        ensures { result ≡ section_numbers (line_of self) lines room }
    {
        let line = match self {
            Line::Start => 7,
            Line::Name => 8,
            Line::Value => 9,
            Line::Cr => 10,
        };
        [line, lines as u64, room as u64]
    }
}

impl Place {
    /// Which place it is, and what it counts, as numbers.
    pub(crate) fn numbers(self) -> [u64; 3]
        ensures { result ≡ place_numbers (place_of self) }
    {
        match self {
            Place::Size(size) => [0, size, 0],
            Place::Blanks(size) => [1, size, 0],
            Place::Extension(size) => [2, size, 0],
            Place::SizeCr(size) => [3, size, 0],
            Place::Bytes(more) => [4, more, 0],
            Place::BytesEnd => [5, 0, 0],
            Place::BytesCr => [6, 0, 0],
            Place::Section(line, lines, room) => line.numbers(lines, room),
            Place::EndCr => [11, 0, 0],
            Place::Done => [12, 0, 0],
            Place::Broken => [13, 0, 0],
        }
    }

    /// In front of a body.
    pub(crate) const START: Place = Place::Size(0);

    /// In front of a trailer section.
    pub(crate) const SECTION_START: Place = Place::Section(
        Line::Start,
        MAX_TRAILER_LINES,
        MAX_TRAILER_BYTES,
    );

    /// The place after one more byte.
    #[inline(always)]
    pub(crate) fn step(self, byte: u8) -> Place
        ensures { place_of result ≡ step (place_of self) byte }
    {
        match self {
            Place::Size(size) => size_step(size, byte),
            Place::Blanks(size) => after_digits(size, byte),
            Place::Extension(size) => extension_step(size, byte),
            Place::SizeCr(size) => expect(b'\n', byte, after_line(size)),
            Place::Bytes(more) => bytes_step(more),
            Place::BytesEnd => expect(b'\r', byte, Place::BytesCr),
            Place::BytesCr => expect(b'\n', byte, Place::Size(0)),
            Place::Section(at, lines, room) => section_step(at, lines, room, byte),
            Place::EndCr => expect(b'\n', byte, Place::Done),
            Place::Done => Place::Broken,
            Place::Broken => Place::Broken,
        }
    }

    /// Whether a byte here is none of a chunk or of a trailer line, and the body neither broken nor done.
    #[inline(always)]
    pub(crate) fn is_quiet(self) -> bool
        ensures { result ≡ is_quiet (place_of self) }
    {
        match self {
            Place::Bytes(_) => false,
            Place::Section(_, _, _) => false,
            Place::Done => false,
            Place::Broken => false,
            _ => true,
        }
    }

    /// Whether it is in a trailer section.
    #[inline(always)]
    pub(crate) fn is_section(self) -> bool
        ensures { result ≡ is_section (place_of self) }
    {
        match self {
            Place::Section(_, _, _) => true,
            _ => false,
        }
    }
}

/// Only the wanted byte leads on.
#[inline(always)]
fn expect(wanted: u8, byte: u8, next: Place) -> Place
    ensures { place_of result ≡ expect wanted byte (place_of next) }
{
    if byte == wanted { next } else { Place::Broken }
}

/// After the digits of a size.
fn after_digits(size: u64, byte: u8) -> Place
    ensures { place_of result ≡ after_digits size byte }
{
    if is_space_or_tab(byte) {
        return Place::Blanks(size);
    }
    if byte == b';' {
        return Place::Extension(size);
    }
    expect(b'\r', byte, Place::SizeCr(size))
}

/// A further digit, while the size stays below 2^64, or what follows the digits.
fn size_step(size: u64, byte: u8) -> Place
    ensures { place_of result ≡ size_step size byte }
{
    match char::from(byte).to_digit(16) {
        Some(digit) => {
            if size < 1 << 60 {
                Place::Size(size * 16 + u64::from(digit))
            } else {
                Place::Broken
            }
        }
        None => after_digits(size, byte),
    }
}

/// A byte of an extension, or its end.
fn extension_step(size: u64, byte: u8) -> Place
    ensures { place_of result ≡ extension_step size byte }
{
    if byte == b'\r' {
        return Place::SizeCr(size);
    }
    if is_header_value_token(byte) {
        Place::Extension(size)
    } else {
        Place::Broken
    }
}

/// After a size line.
#[inline(always)]
pub(crate) fn after_line(size: u64) -> Place
    ensures { place_of result ≡ after_line size }
{
    if size == 0 {
        Place::SECTION_START
    } else {
        Place::Bytes(size - 1)
    }
}

/// After a byte of a chunk.
#[inline(always)]
fn bytes_step(more: u64) -> Place
    ensures { place_of result ≡ bytes_step more }
{
    if more == 0 {
        Place::BytesEnd
    } else {
        Place::Bytes(more - 1)
    }
}

/// How many bytes a trailer line has at least, from here to its end.
fn needs(at: Line) -> usize
    ensures { result ≡ needs (line_of at) }
{
    match at {
        Line::Start => 0,
        Line::Name => 3,
        Line::Value => 2,
        Line::Cr => 1,
    }
}

/// After a byte of the section, where the rest of its line has room.
fn with_room(to: Line, lines: usize, room: usize) -> Place
    ensures { place_of result ≡ with_room (line_of to) lines room }
{
    if needs(to) < room {
        Place::Section(to, lines, room - 1)
    } else {
        Place::Broken
    }
}

/// After one more byte of a trailer section.
fn section_step(at: Line, lines: usize, room: usize, byte: u8) -> Place
    ensures { place_of result ≡ section_step (line_of at) lines room byte }
{
    match at {
        Line::Start => start_step(lines, room, byte),
        Line::Name => name_step(lines, room, byte),
        Line::Value => value_step(lines, room, byte),
        Line::Cr => line_end_step(lines, room, byte),
    }
}

/// The first byte of a line, or the CR of the empty one.
fn start_step(lines: usize, room: usize, byte: u8) -> Place
    ensures { place_of result ≡ section_step line_start lines room byte }
{
    if byte == b'\r' {
        return Place::EndCr;
    }
    if lines > 0 && is_header_name_token(byte) {
        with_room(Line::Name, lines, room)
    } else {
        Place::Broken
    }
}

/// A byte of a name, or the colon after it.
fn name_step(lines: usize, room: usize, byte: u8) -> Place
    ensures { place_of result ≡ section_step in_name lines room byte }
{
    if byte == b':' {
        return with_room(Line::Value, lines, room);
    }
    if is_header_name_token(byte) {
        with_room(Line::Name, lines, room)
    } else {
        Place::Broken
    }
}

/// A byte of a value, or the CR after it.
fn value_step(lines: usize, room: usize, byte: u8) -> Place
    ensures { place_of result ≡ section_step in_value lines room byte }
{
    if byte == b'\r' {
        return with_room(Line::Cr, lines, room);
    }
    if is_header_value_token(byte) {
        with_room(Line::Value, lines, room)
    } else {
        Place::Broken
    }
}

/// The LF of a line.
fn line_end_step(lines: usize, room: usize, byte: u8) -> Place
    ensures { place_of result ≡ section_step line_cr lines room byte }
{
    if byte == b'\n' {
        with_room(Line::Start, lines.saturating_sub(1), room)
    } else {
        Place::Broken
    }
}
