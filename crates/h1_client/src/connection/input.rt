// What a client connection holds of its input: the bytes that were read and not passed, and the search for a head among
// them.
ghost use Rattle.std.specs.Prelude.{◌≡◌, ◌≤◌, ◌-◌, ◌++◌, [], Some, None, length, take, drop, min, is_some, slice_range, true, IfOk, IfErr, IsOk, OnOk, OnErr, ℕ};
ghost use Rattle.model_client.specs.AnswerReading.{Answer, answer_is, refused, IsAnswerReadingWithin};
ghost use Rattle.h1_decoder.specs.HeadPosition.{HasScanned};
ghost use Rattle.h1_decoder.specs.Refusal.{UnlessNoMemory, fault_of};
ghost use Rattle.h1_decoder.specs.ResponseItem.{SaysAnswer};
ghost use Rattle.model_state.specs.Kept.{rest_in};
ghost use Rattle.model_state.specs.Body.{pass_rest};
ghost use Rattle.model_state.specs.Pull.{IsPull};
ghost use Rattle.model_state.specs.Pull as pulls;
ghost use Rattle.h1_payload.specs.Rests.{IsPulled, IsLight};
ghost use Rattle.h1_client.specs.Incoming.{is_coming_in, IsFound, place_in, CanGoOn, IsSearched};

use crate::read_answer;
use bytes::BytesMut;
use h1_decoder::{HeadScan, HeadScanner, ResponseItem};
use h1_payload::{Pulled, Rest};
use http_types::{NoMemory, ParseError};
use std::alloc::Global;
use std::marker::Model;

// Memory for what is read is taken in blocks of so many bytes.
const BLOCK_SIZE: usize = 8192;

/// How far a search has come, and what it has found.
#[derive(Clone, Copy)]
struct Scan {
    scanner: HeadScanner,
    piece: HeadScan,
}

/// The bytes of the input that were taken and not passed yet.
///
/// A head is searched for only where one may come next, so that no byte of a body is. What was found is kept, and so is
/// how far the search has come: a head that comes byte by byte costs what it costs in one piece.
#[derive(Drop)]
pub struct Input {
    bytes: BytesMut,
    search: Option<Scan>,
}

impl Model for Input {
    ghost use Rattle.h1_client.specs.Incoming.{Incoming, incoming, IsSearched};

    ghost Value = { Incoming };

    ghost view = { λ input. incoming input.bytes.items input.search };

    ghost invariant = { λ input. IsSearched input.bytes.items input.search };
}

impl Input {
    /// No bytes, and no memory taken. A head is searched for.
    pub fn new(alloc: Global) -> Input
        ensures value { result ≡ record { unread = []; piece = Some HeadScan.Open } }
        ensures scanned { IsFound result }
    {
        Input {
            bytes: BytesMut::new(alloc),
            search: Some(Scan {
                scanner: HeadScanner::new(),
                piece: HeadScan::Open,
            }),
        }
    }

    /// How many bytes are held.
    pub fn len(&self) -> usize
        ensures { result ≡ length self.now.unread }
    {
        self.bytes.len()
    }

    /// The bytes that are held.
    pub fn as_slice(&self) -> &[u8]
        ensures { result.now ≡ self.now.unread }
    {
        self.bytes.as_slice()
    }

    /// The places where the next head begins and ends, where a whole one is there.
    pub fn piece(&self) -> Option<(usize, usize)>
        ensures { result ≡ place_in self.now.piece }
    {
        match self.search {
            Some(scan) => place_of(scan.piece),
            None => None,
        }
    }

    /// Whether a whole head is there.
    pub fn is_coming(&self) -> bool
        ensures { result ≡ is_coming_in self.now.piece }
    {
        match self.search {
            Some(scan) => is_whole(scan.piece),
            None => false,
        }
    }

    /// Takes the bytes that there is room for up to the limit, and says how many.
    pub fn take(&mut self, bytes: &[u8], limit: usize) -> Result<usize, NoMemory>
        ensures count { IfOk result (λ count. count ≡ min (length bytes.now) (limit - length self.old.unread)) }
        ensures ok { IfOk result (λ count. self.new.unread ≡ self.old.unread ++ take count bytes.now) }
        ensures scanned { OnOk result (IsFound self.new) }
        ensures searched { OnOk result (is_some self.new.piece ≡ is_some self.old.piece) }
        ensures err { OnErr result (self.new ≡ self.old) }
    {
        let count = bytes.len().min(limit.saturating_sub(self.bytes.len()));
        make_room(&mut self.bytes, count)?;
        self.bytes.extend_reserved(&bytes[..count]);
        self.search = continued(self.search, self.bytes.as_slice());
        Ok(count)
    }

    /// Searches for the next head, if that isn't done yet.
    pub fn search(&mut self)
        ensures unread { self.new.unread ≡ self.old.unread }
        ensures scanned { IsFound self.new }
        ensures searched { is_some self.new.piece ≡ true }
    {
        if self.search.is_none() {
            self.search = Some(searched(HeadScanner::new(), self.bytes.as_slice()));
        }
    }

    /// Reads the head at these places, where one was found. The bytes stay.
    pub fn read_head(
        &self,
        alloc: Global,
        start: usize,
        end: usize,
        hold_size: usize,
    ) -> Result<ResponseItem, ParseError>
        requires { place_in self.now.piece ≡ Some (start, end) }
        ensures head { IfOk result (λ item. (a : Answer) × IsAnswerReadingWithin (Some hold_size) (slice_range self.now.unread start end) (answer_is a) × SaysAnswer item a) }
        ensures fault { IfErr result (λ e. UnlessNoMemory e (IsAnswerReadingWithin (Some hold_size) (slice_range self.now.unread start end) (refused (fault_of e)))) }
    {
        let _ = &self.search;
        read_answer(alloc, self.bytes.as_slice(), start, end, hold_size)
    }

    /// Passes the head that ends there. No other is searched for.
    pub fn pass_head(&mut self, start: usize, end: usize)
        requires { place_in self.old.piece ≡ Some (start, end) }
        ensures { self.new ≡ record { unread = drop end self.old.unread; piece = None } }
    {
        self.search = None;
        self.bytes.advance(end);
        if self.bytes.is_empty() {
            self.bytes.clear();
        }
    }

    /// Takes what comes next of a body.
    pub fn pull(&mut self, rest: &mut Rest, has_ended: bool) -> Result<Pulled, NoMemory>
        requires { self.old.piece ≡ None }
        ensures pulled { IfOk result (λ answer. (p : pulls.Pulled) → IsPull has_ended rest.old self.old.unread p
            → IsPulled p answer rest.new self.new.unread) }
        ensures piece { self.new.piece ≡ None }
        ensures no_memory_needed { (p : pulls.Pulled) → IsPull has_ended rest.old self.old.unread p → IsLight rest.old p.outcome p.rest → IsOk result }
        ensures err { OnErr result ((self.new ≡ self.old) × (rest.new ≡ rest.old)) }
    {
        let _ = &self.search;
        rest.pull(&mut self.bytes, has_ended)
    }

    /// Passes over what is left of a body.
    pub fn pass(&mut self, rest: &mut Rest, has_ended: bool)
        requires { self.old.piece ≡ None }
        ensures rest { rest.new ≡ (pass_rest has_ended rest.old self.old.unread).rest }
        ensures input { self.new ≡ record { unread = (pass_rest has_ended rest.old self.old.unread).unread; piece = None } }
    {
        let _ = &self.search;
        rest.pass(&mut self.bytes, has_ended);
    }

    /// With the input a raw body ends of which no byte is left.
    pub fn end(&self, rest: &mut Rest)
        ensures { rest.new ≡ rest_in true self.now.unread rest.old }
    {
        let _ = &self.search;
        rest.end_input(&self.bytes);
    }
}

// The places of what was found.
fn place_of(piece: HeadScan) -> Option<(usize, usize)>
    ensures { result ≡ place_in (Some piece) }
{
    match piece {
        HeadScan::Piece(start, end) => Some((start, end)),
        HeadScan::Open => None,
    }
}

// Whether a whole head was found.
fn is_whole(piece: HeadScan) -> bool
    ensures { result ≡ is_coming_in (Some piece) }
{
    match piece {
        HeadScan::Piece(_, _) => true,
        HeadScan::Open => false,
    }
}

// Makes room for so many more bytes.
fn make_room(bytes: &mut BytesMut, size: usize) -> Result<(), NoMemory>
    ensures items { bytes.new.items ≡ bytes.old.items }
    ensures room { OnOk result (size ≤ bytes.new.spare) }
{
    if size <= bytes.capacity() - bytes.len() {
        return Ok(());
    }
    bytes.reserve(size.max(BLOCK_SIZE))
}

// The search after more bytes. A head that was found stays the next.
fn continued(search: Option<Scan>, bytes: &[u8]) -> Option<Scan>
    requires { CanGoOn search bytes.now }
    ensures searched { IsSearched bytes.now result }
    ensures same { is_some result ≡ is_some search }
{
    match search {
        Some(scan) if scan.piece == HeadScan::Open => Some(searched(scan.scanner, bytes)),
        _ => search,
    }
}

// The search that has seen all the bytes.
fn searched(scanner: HeadScanner, bytes: &[u8]) -> Scan
    requires { HasScanned scanner bytes.now }
    ensures { IsSearched bytes.now (Some result) }
{
    let mut scanner = scanner;
    let piece = scanner.scan(bytes);
    Scan { scanner, piece }
}
