//! A reader of bodies in chunks.
ghost use Rattle.std.specs.Prelude.{◌≡◌, ◌≤◌, ◌++◌, [], length, drop, slice_range, IfOk, IsOk, OnOk, OnErr};
ghost use Rattle.std.specs.Bool.{OnTrue, OnFalse};
ghost use Rattle.model_h1.specs.Place.{start};
ghost use Rattle.model_h1.specs.TakeNext.{take_next};
ghost use Rattle.h1_payload.specs.Kinds.{is_broken_place};
ghost use Rattle.h1_payload.specs.Places.{place_of};
ghost use Rattle.h1_payload.specs.Readers.{HasRoom, IsTaken, NeedsNoMemory, IsEndTaken, IsPassedBy, IsNotPassedBy};
ghost use Rattle.h1_payload.specs.Sameness.{place_numbers};
ghost use Rattle.h1_payload.specs.Scans.{IsWithin};

use crate::pass::pass_body;
use crate::place::Place;
use crate::pulled::{BodyFault, Pulled};
use crate::scan::{Found, Scan, find_next};
use crate::section::{Section, whole_text};
use crate::trailers::read_trailers;
use bytes::{Bytes, BytesMut};
use http_map::NoMemory;
use std::marker::Model;

/// Reads a body in chunks. It keeps its place, and of the bytes nothing but the text of a trailer section that
/// hasn't ended, of at most 8192 bytes.
///
/// A clause sees it as the place in the reading of chunks, and that text.
#[derive(Debug, Drop)]
pub(crate) struct ChunkReader {
    place: Place,
    section: Section,
}

impl Model for ChunkReader {
    ghost use Rattle.h1_payload.specs.Places.{place_of};
    ghost use Rattle.h1_payload.specs.Readers.{Reader, HasRoom};

    ghost Value = { Reader };

    ghost view = { λ r. record { place = place_of r.place; section = r.section } };

    ghost invariant = { λ r. HasRoom (place_of r.place) r.section };
}

impl ChunkReader {
    /// In front of a body.
    pub(crate) fn new() -> ChunkReader
        ensures { result ≡ record { place = start; section = [] } }
    {
        ChunkReader {
            place: Place::START,
            section: Section::new(),
        }
    }

    /// A reader at the same place.
    pub(crate) fn copy(&self) -> Result<ChunkReader, NoMemory>
        ensures { IfOk result (λ copy. copy ≡ self.now) }
    {
        Ok(ChunkReader {
            place: self.place,
            section: self.section.copy()?,
        })
    }

    /// Which place it is at, and what it counts, as numbers.
    pub(crate) fn numbers(&self) -> [u64; 3]
        ensures { result ≡ place_numbers self.now.place }
    {
        self.place.numbers()
    }

    /// The text of the trailer section so far.
    pub(crate) fn section(&self) -> &[u8]
        ensures { result.now ≡ self.now.section }
    {
        self.section.as_slice()
    }

    /// Whether a rule is broken.
    pub(crate) fn is_broken(&self) -> bool
        ensures { result ≡ is_broken_place self.now.place }
    {
        matches!(self.place, Place::Broken)
    }

    /// Takes what comes next: all bytes of the current chunk that are there, and else the trailers, the end or a fault.
    /// It passes what it read, but for a fault, which leaves all as it was, and so does a call that finds no memory.
    pub(crate) fn take(
        &mut self,
        unread: &mut BytesMut,
        has_ended: bool,
    ) -> Result<Pulled, NoMemory>
        ensures taken { IfOk result (λ answer. IsTaken has_ended self.old unread.old.items answer self.new unread.new.items) }
        ensures no_memory_needed { NeedsNoMemory has_ended self.old unread.old.items → IsOk result }
        ensures err { OnErr result ((self.new ≡ self.old) × (unread.new ≡ unread.old)) }
    {
        let scan = find_next(self.place, unread.as_slice());
        match scan.found {
            Found::Chunk(at, end, place) => {
                let bytes = self.hand_out(unread, at, end, place)?;
                Ok(Pulled::Bytes(bytes))
            }
            Found::Waits(place) => {
                if has_ended {
                    return Ok(Pulled::Broken(BodyFault::Incomplete));
                }
                self.wait(unread, scan, place)?;
                Ok(Pulled::Pending)
            }
            Found::Ends(at) => {
                let answer = self.finish(unread, scan, at)?;
                Ok(answer)
            }
            Found::Breaks => Ok(Pulled::Broken(BodyFault::Corrupted)),
        }
    }

    /// Passes as much of the body as is there, and says whether its end was. The text of a trailer section is dropped.
    pub(crate) fn pass(&mut self, unread: &mut BytesMut) -> bool
        ensures passed { OnTrue result (IsPassedBy self.old unread.old.items unread.new.items) }
        ensures goes_on { OnFalse result (IsNotPassedBy self.old unread.old.items self.new unread.new.items) }
    {
        let (at, place) = pass_body(self.place, unread.as_slice());
        match place {
            Place::Done => {
                unread.advance(at);
                true
            }
            place => {
                self.place = place;
                self.section = Section::new();
                unread.clear();
                false
            }
        }
    }
}

impl ChunkReader {
    /// Hands out these bytes of a chunk, without those in front of them.
    fn hand_out(
        &mut self,
        unread: &mut BytesMut,
        at: usize,
        end: usize,
        place: Place,
    ) -> Result<Bytes, NoMemory>
        requires within { (at ≤ end) × (end ≤ length unread.old.items) }
        requires room { HasRoom (place_of place) self.old.section }
        ensures bytes { IfOk result (λ bytes. bytes ≡ slice_range unread.old.items at end) }
        ensures reader { OnOk result (self.new ≡ record { place = place_of place; section = self.old.section }) }
        ensures rest { OnOk result (unread.new.items ≡ drop end unread.old.items) }
        ensures err { OnErr result ((self.new ≡ self.old) × (unread.new ≡ unread.old)) }
    {
        let mut bytes = unread.freeze_to(end)?;
        bytes.advance(at);
        self.place = place;
        Ok(bytes)
    }

    /// Passes all bytes, and keeps those of trailer lines. It is out of the way of pulls that give bytes.
    #[inline(never)]
    fn wait(&mut self, unread: &mut BytesMut, scan: Scan, place: Place) -> Result<(), NoMemory>
        requires within { IsWithin (length unread.old.items) scan }
        requires room { HasRoom (place_of place) (self.old.section ++ slice_range unread.old.items scan.from scan.to) }
        ensures reader { OnOk result (self.new ≡ record { place = place_of place; section = self.old.section ++ slice_range unread.old.items scan.from scan.to }) }
        ensures rest { OnOk result (unread.new.items ≡ []) }
        ensures no_memory_needed { slice_range unread.old.items scan.from scan.to ≡ [] → IsOk result }
        ensures err { OnErr result ((self.new ≡ self.old) × (unread.new ≡ unread.old)) }
    {
        let alloc = *unread.allocator();
        let lines = &unread.as_slice()[scan.from..scan.to];
        self.section.append(alloc, lines)?;
        self.place = place;
        unread.clear();
        Ok(())
    }

    /// Passes the body's end, which is at an index, and gives the trailers, if there are some. It is out of the way too.
    #[inline(never)]
    fn finish(&self, unread: &mut BytesMut, scan: Scan, at: usize) -> Result<Pulled, NoMemory>
        requires within { IsWithin (length unread.old.items) scan }
        requires end { at ≤ length unread.old.items }
        requires short { length (self.now.section ++ slice_range unread.old.items scan.from scan.to) ≤ 8192 }
        ensures ended { IfOk result (λ answer. IsEndTaken (self.now.section ++ slice_range unread.old.items scan.from scan.to) answer) }
        ensures rest { OnOk result (unread.new.items ≡ drop at unread.old.items) }
        ensures no_memory_needed { self.now.section ++ slice_range unread.old.items scan.from scan.to ≡ [] → IsOk result }
        ensures err { OnErr result (unread.new ≡ unread.old) }
    {
        let alloc = *unread.allocator();
        let kept = self.section.as_slice();
        let more = &unread.as_slice()[scan.from..scan.to];
        if kept.is_empty() && more.is_empty() {
            unread.advance(at);
            return Ok(Pulled::End);
        }
        let text = whole_text(alloc, kept, more)?;
        let trailers = read_trailers(alloc, &text)?;
        unread.advance(at);
        Ok(Pulled::Trailers(trailers))
    }
}
