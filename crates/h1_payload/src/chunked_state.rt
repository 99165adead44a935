//! Bodies in chunks, a byte at a time.
ghost use Rattle.std.specs.Prelude.{◌≡◌};
ghost use Rattle.h1_payload.specs.Places.{place_of};
ghost use Rattle.h1_payload.specs.States.{place_at, state_at, size_at, behind_bytes, IsStepped, IsByteStepped, IsEndStepped, IsBodyStepped};

use crate::item::DecodeError;
use crate::place::Place;
use bytes::{Bytes, BytesMut};
use futures::task::Poll;

/// Where in a body in chunks (RFC 7230, section 4.1) a step begins. The size of the chunk stands beside it: what was read
/// of it, or how many bytes of the chunk are still to come.
#[derive(Clone, Copy, Debug, PartialEq, Eq)]
pub enum ChunkedState {
    /// In the digits of a size.
    Size,

    /// In the blanks after them.
    SizeLws,

    /// In an extension.
    Extension,

    /// In front of the LF of a size line.
    SizeLf,

    /// In the bytes of a chunk.
    Body,

    /// In front of the CR after them.
    BodyCr,

    /// In front of the LF there.
    BodyLf,

    /// In front of the CR that ends the body, or of a trailer section.
    EndCr,

    /// In front of a trailer section, of which a step reads nothing.
    Trailer,

    /// In front of the LF that ends the body.
    EndLf,

    /// After the body.
    End,
}

impl ChunkedState {
    /// Takes a byte, or all bytes of a chunk that are there: these go into `buf`, and `size` says how many are missing.
    /// `Trailer` and `End` take nothing and give themselves, and `EndCr` in front of another byte than CR takes nothing
    /// and gives `Trailer`.
    ///
    /// `Pending` comes exactly where a byte is wanted and none is there, and `Invalid` exactly where the next byte breaks
    /// the grammar of chunks. After these, and where memory ran out, all is as before.
    pub fn step(
        &self,
        body: &mut BytesMut,
        size: &mut u64,
        buf: &mut Option<Bytes>,
    ) -> Poll<Result<ChunkedState, DecodeError>>
        ensures { IsStepped self.now size.old body.old.items buf.old result size.new body.new.items buf.new }
    {
        match *self {
            ChunkedState::End => Poll::Ready(Ok(ChunkedState::End)),
            ChunkedState::Trailer => Poll::Ready(Ok(ChunkedState::Trailer)),
            ChunkedState::Body => step_body(body, size, buf),
            ChunkedState::EndCr => step_end(body),
            state => step_byte(state.place(*size), body, size),
        }
    }

    /// The place that it is in the reading of chunks.
    fn place(self, size: u64) -> Place
        ensures { place_of result ≡ place_at self size }
    {
        match self {
            ChunkedState::Size => Place::Size(size),
            ChunkedState::SizeLws => Place::Blanks(size),
            ChunkedState::Extension => Place::Extension(size),
            ChunkedState::SizeLf => Place::SizeCr(size),
            ChunkedState::Body => Place::Bytes(size.saturating_sub(1)),
            ChunkedState::BodyCr => Place::BytesEnd,
            ChunkedState::BodyLf => Place::BytesCr,
            ChunkedState::EndCr => Place::SECTION_START,
            ChunkedState::Trailer => Place::SECTION_START,
            ChunkedState::EndLf => Place::EndCr,
            ChunkedState::End => Place::Done,
        }
    }
}

/// The state at a place after a byte.
fn state_at(place: Place) -> ChunkedState
    ensures { result ≡ state_at (place_of place) }
{
    match place {
        Place::Size(_) => ChunkedState::Size,
        Place::Blanks(_) => ChunkedState::SizeLws,
        Place::Extension(_) => ChunkedState::Extension,
        Place::SizeCr(_) => ChunkedState::SizeLf,
        Place::Bytes(_) => ChunkedState::Body,
        Place::BytesEnd => ChunkedState::BodyCr,
        Place::BytesCr => ChunkedState::BodyLf,
        Place::Section(_, _, _) => ChunkedState::EndCr,
        Place::EndCr => ChunkedState::EndLf,
        Place::Done => ChunkedState::End,
        Place::Broken => ChunkedState::End,
    }
}

/// The size there: only digits change it.
fn size_at(size: u64, place: Place) -> u64
    ensures { result ≡ size_at size (place_of place) }
{
    match place {
        Place::Size(size) => size,
        _ => size,
    }
}

/// Takes a byte.
fn step_byte(
    place: Place,
    body: &mut BytesMut,
    size: &mut u64,
) -> Poll<Result<ChunkedState, DecodeError>>
    ensures { IsByteStepped (place_of place) size.old body.old.items result size.new body.new.items }
{
    if body.len() == 0 {
        return Poll::Pending;
    }
    match place.step(body.as_slice()[0]) {
        Place::Broken => Poll::Ready(Err(DecodeError::Invalid)),
        next => {
            body.advance(1);
            *size = size_at(*size, next);
            Poll::Ready(Ok(state_at(next)))
        }
    }
}

/// Takes the CR that ends a body, if it is the next byte.
fn step_end(body: &mut BytesMut) -> Poll<Result<ChunkedState, DecodeError>>
    ensures { IsEndStepped body.old.items result body.new.items }
{
    if body.len() == 0 {
        return Poll::Pending;
    }
    if body.as_slice()[0] != b'\r' {
        return Poll::Ready(Ok(ChunkedState::Trailer));
    }
    body.advance(1);
    Poll::Ready(Ok(ChunkedState::EndLf))
}

/// Takes the bytes of a chunk that are there.
fn step_body(
    body: &mut BytesMut,
    size: &mut u64,
    buf: &mut Option<Bytes>,
) -> Poll<Result<ChunkedState, DecodeError>>
    ensures { IsBodyStepped size.old body.old.items buf.old result size.new body.new.items buf.new }
{
    if *size == 0 {
        return Poll::Ready(Ok(ChunkedState::BodyCr));
    }
    let there = body.len();
    if there == 0 {
        return Poll::Pending;
    }
    let count = if *size <= there as u64 {
        *size as usize
    } else {
        there
    };
    match body.freeze_to(count) {
        Ok(bytes) => {
            *size -= count as u64;
            *buf = Some(bytes);
            Poll::Ready(Ok(behind_bytes(*size)))
        }
        Err(_) => Poll::Ready(Err(DecodeError::NoMemory)),
    }
}

/// The state after bytes of a chunk, of which `size` are missing.
fn behind_bytes(size: u64) -> ChunkedState
    ensures { result ≡ behind_bytes size }
{
    if size == 0 {
        ChunkedState::BodyCr
    } else {
        ChunkedState::Body
    }
}
