// What a connection holds of its input: the bytes that were read and not passed, and the search for a head among them.
ghost use Rattle.std.specs.Prelude.{◌≡◌, ◌≢◌, ◌<◌, ◌≤◌, ◌-◌, ◌^◌, ◌++◌, ◌↔◌, ℕ, Bool, List, [], Some, None, length, take, drop, min, true, false, is_some, IfOk, IfErr, IsOk, OnOk, OnErr, IsErrOf};
ghost use Rattle.std.specs.Io.KnownBytes.{Consumes, Keeps, IsAtEnd};
ghost use Rattle.http_config.specs.Causes.{Rose, counted, IsAsked};
ghost use Rattle.h1_decoder.specs.HeadItem.{without_headers};
ghost use Rattle.h1_decoder.specs.Refusal.{UnlessNoMemory, fault_of};
ghost use Rattle.model_h1.specs.FrameText.{front_frame};
ghost use Rattle.model_h1.specs.Parse.{connection_reader};
ghost use Rattle.model_state.specs.Kept.{rest_in, is_nothing};
ghost use Rattle.model_state.specs.Local.{is_partial};
ghost use Rattle.ws_frames.specs.Codec.{IsTakenNamed};
ghost use Rattle.ws_frames.specs.Fronts.{FrontTaken};
ghost use Rattle.model_state.specs.Body.{pass_rest};
ghost use Rattle.model_state.specs.Pull.{IsPull};
ghost use Rattle.model_state.specs.Pull as pulls;
ghost use Rattle.h1_payload.specs.Rests.{IsPulled, IsLight};
ghost use Rattle.h1_connection.specs.Ahead.{heads_in};
ghost use Rattle.h1_connection.specs.Incoming.{is_coming_in, IsFound, IsWhole, IsHeadOf, IsNextHead, IsNextFault, IsPassedHead};

use crate::ReadFromError;
use crate::connection::READ_SIZE;
use crate::connection::ahead::heads_in;
use crate::connection::filling::{make_room, read_behind};
use crate::connection::front_head::{pass, read_due, read_found};
use crate::connection::head_search::{Scan, Search, caught_up, continued, has_head};
use crate::connection::reading::Frames;
use bytes::{Bytes, BytesMut};
use h1_decoder::{HeadItem, HeadRoom, HeadScan, HeadScanner};
use h1_payload::{Pulled, Rest};
use http_types::{NoMemory, ParseError, Source};
use std::alloc::Global;
use std::marker::Model;
use ws_frames::{Frame, ProtocolError, take_front, waits_for_frame};

/// The bytes of the input that were taken and not passed yet.
///
/// A head is searched for only where one may come next, so that no byte of a body is. What was found is kept, and
/// so is how far the search has come: a head that comes byte by byte costs what it costs in one piece. Behind the first
/// head the search waits until the next one is asked for.
#[derive(Drop)]
pub struct Input {
    /// The head that was asked for, with the empty lines before it, where it couldn't be handed out.
    head_bytes: Bytes,
    bytes: BytesMut,
    search: Search,
}

impl Model for Input {
    ghost use Rattle.h1_connection.specs.Incoming.{Incoming, incoming, IsSearched};

    ghost Value = { Incoming };

    ghost view = { λ input. incoming input.head_bytes input.bytes.items input.search };

    ghost invariant = { λ input. IsSearched input.head_bytes input.bytes.items input.search };
}

impl Input {
    /// No bytes, and no memory taken. A head is searched for.
    pub fn new(alloc: Global) -> Input
        ensures value { result ≡ record { unread = []; piece = Some HeadScan.Open } }
        ensures scanned { IsFound result }
    {
        Input {
            head_bytes: Bytes::new(),
            bytes: BytesMut::new(alloc),
            search: Search::Done(Scan {
                scanner: HeadScanner::new(),
                piece: HeadScan::Open,
            }),
        }
    }

    /// How many bytes are held.
    pub fn len(&self) -> usize
        ensures value { result ≡ length self.now.unread }
        ensures fits { length self.now.unread < 2 ^ 64 }
    {
        self.head_bytes.len() + self.bytes.len()
    }

    /// The bytes that are held, from place `start` on, as many as lie together.
    pub fn bytes_from(&self, start: usize) -> &[u8]
        ensures first { (rest : List ℕ) × (result.now ++ rest ≡ drop start self.now.unread) }
        ensures some { start < length self.now.unread → 0 < length result.now }
        ensures whole { self.now.piece ≡ None → result.now ≡ drop start self.now.unread }
    {
        let _ = &self.search;
        let cut = self.head_bytes.len();
        if start < cut {
            return &self.head_bytes.as_slice()[start..];
        }
        behind(self.bytes.as_slice(), start - cut)
    }

    /// Whether a whole head is there.
    pub fn is_coming(&self) -> bool
        ensures { result ≡ is_coming_in self.now.piece }
    {
        match &self.search {
            Search::Off => false,
            Search::Due => has_head(self.bytes.as_slice()),
            Search::Done(scan) => scan.piece != HeadScan::Open,
        }
    }

    /// Whether it is known, with no scan of bytes, that no whole head is there.
    pub fn has_none(&self) -> bool
        ensures { result ≡ true → IsHeadOf self.now None }
    {
        let is_scanned = match &self.search {
            Search::Due => self.bytes.is_empty(),
            _ => true,
        };
        is_scanned && !self.is_coming()
    }

    /// Takes the bytes that there is room for up to the limit, and says how many.
    pub fn take(&mut self, bytes: &[u8], limit: usize) -> Result<usize, NoMemory>
        ensures count { IfOk result (λ count. count ≡ min (length bytes.now) (limit - length self.old.unread)) }
        ensures ok { IfOk result (λ count. self.new.unread ≡ self.old.unread ++ take count bytes.now) }
        ensures scanned { OnOk result (IsFound self.new) }
        ensures searched { OnOk result (is_some self.new.piece ≡ is_some self.old.piece) }
        ensures err { OnErr result (self.new ≡ self.old) }
    {
        let held = self.head_bytes.len() + self.bytes.len();
        let count = bytes.len().min(limit.saturating_sub(held));
        make_room(&mut self.bytes, count)?;
        self.bytes.extend_reserved(&bytes[..count]);
        self.search = continued(self.search, self.bytes.as_slice());
        Ok(count)
    }

    /// Reads bytes from the source, at most as many as there is room for up to the limit, and at most `READ_SIZE`.
    /// Where none is left there, all stays as it is.
    pub fn read_from<S: Source>(
        &mut self,
        source: &mut S,
        limit: usize,
    ) -> Result<usize, ReadFromError>
        ensures read { IfOk result (λ count. (bytes : List ℕ) × (length bytes ≡ count) × (self.new.unread ≡ self.old.unread ++ bytes)
            × Consumes (S.left source.old) (S.left source.new) bytes) }
        ensures room { IfOk result (λ count. count ≤ limit - length self.old.unread) }
        ensures bound { IfOk result (λ count. count ≤ READ_SIZE) }
        ensures end { IfOk result (λ count. count ≡ 0 → (self.new ≡ self.old) × IsAtEnd (S.left source.new)) }
        ensures scanned { OnOk result (IsFound self.new) }
        ensures searched { OnOk result (is_some self.new.piece ≡ is_some self.old.piece) }
        ensures full { IsErrOf result ReadFromError.Full ↔ limit ≤ length self.old.unread }
        ensures failed { IsErrOf result ReadFromError.Failed → Rose (S.faults source.old) (S.faults source.new) }
        ensures left { IsErrOf result ReadFromError.Failed → Keeps (S.left source.old) (S.left source.new) }
        ensures unasked { IfErr result (λ e. e ≢ ReadFromError.Failed → source.new ≡ source.old) }
        ensures faults { S.faults source.old ≤ S.faults source.new }
        ensures quiet { OnOk result (S.faults source.new ≡ S.faults source.old) }
        ensures fault { IsErrOf result ReadFromError.Failed → S.faults source.new ≡ counted (S.faults source.old) }
        ensures asked { OnOk result (IsAsked (S.calls source.old) (S.calls source.new)) }
        ensures failed_asked { IsErrOf result ReadFromError.Failed → IsAsked (S.calls source.old) (S.calls source.new) }
        ensures err { OnErr result (self.new ≡ self.old) }
    {
        let room = limit.saturating_sub(self.head_bytes.len() + self.bytes.len());
        if room == 0 {
            return Err(ReadFromError::Full);
        }
        let count = read_behind(&mut self.bytes, source, room.min(READ_SIZE))?;
        if count == 0 {
            return Ok(0);
        }
        self.search = continued(self.search, self.bytes.as_slice());
        Ok(count)
    }

    /// Lets the next head be searched for when it is asked for.
    pub fn await_head(&mut self)
        ensures same { is_some self.old.piece ≡ true → self.new ≡ self.old }
        ensures unread { self.new.unread ≡ self.old.unread }
        ensures scanned { IsFound self.new }
        ensures searched { is_some self.new.piece ≡ true }
    {
        if let Search::Off = self.search {
            self.search = Search::Due;
        }
    }

    /// Gives back the memory that is taken, where no byte is held in it.
    pub fn give_back(&mut self)
        ensures { self.new ≡ self.old }
    {
        if self.bytes.is_empty() {
            self.bytes = BytesMut::new(*self.bytes.allocator());
        }
    }

    /// Searches for the next head, if it isn't done yet.
    pub fn search(&mut self)
        ensures unread { self.new.unread ≡ self.old.unread }
        ensures scanned { IsFound self.new }
        ensures searched { is_some self.new.piece ≡ true }
    {
        self.await_head();
        self.search = caught_up(self.search, self.bytes.as_slice());
    }

    /// Whether a head is searched for, or will be when it is asked for.
    pub fn is_searched(&self) -> bool
        ensures value { result ≡ is_some self.now.piece }
        ensures found { IsFound self.now }
    {
        match &self.search {
            Search::Off => false,
            _ => true,
        }
    }

    /// How many heads stand one after another in front of the first `mark` bytes, at most so many. All but the last have no
    /// body.
    pub fn heads_in(&self, alloc: Global, mark: usize, limit: usize) -> Result<usize, NoMemory>
        requires { mark ≤ length self.now.unread }
        ensures value { IfOk result (λ count. count ≡ heads_in limit (take mark self.now.unread)) }
        ensures most { IfOk result (λ count. count ≤ limit) }
        ensures no_memory_needed { heads_in limit (take mark self.now.unread) ≡ 0 → IsOk result }
    {
        let _ = &self.search;
        let cut = self.head_bytes.len();
        if cut == 0 {
            return heads_in(alloc, &self.bytes.as_slice()[..mark], limit);
        }
        if mark < cut {
            return Ok(0);
        }
        if limit == 0 {
            return Ok(0);
        }
        let all = joined(
            alloc,
            &self.head_bytes,
            &self.bytes.as_slice()[..mark - cut],
        )?;
        heads_in(alloc, all.as_slice(), limit)
    }

    /// Reads the next head over another one, and says whether it is there. It shares the memory of its bytes, which stay.
    /// Where none is there the other one stays; after an error it is as it was, but without headers.
    pub fn read_head(
        &mut self,
        alloc: Global,
        item: &mut HeadItem,
        room: &mut HeadRoom,
    ) -> Result<bool, ParseError>
        ensures same { self.new ≡ self.old }
        ensures found { IsFound self.old }
        ensures head { IfOk result (λ is_there. is_there ≡ true → IsNextHead self.old item.new) }
        ensures none { IfOk result (λ is_there. is_there ≡ false → IsHeadOf self.old None × (item.new ≡ item.old)) }
        ensures fault { IfErr result (λ e. UnlessNoMemory e (IsNextFault self.old (fault_of e))) }
        ensures whole { OnErr result (IsWhole self.old) }
        ensures err { OnErr result (item.new ≡ without_headers item.old) }
    {
        if let Search::Due = self.search {
            return read_due(
                alloc,
                item,
                room,
                &mut self.head_bytes,
                &mut self.bytes,
                &mut self.search,
            );
        }
        read_found(
            alloc,
            item,
            room,
            &mut self.head_bytes,
            &mut self.bytes,
            &self.search,
        )
    }

    /// Passes the head that is there, which a search has found or is still to find. No other is searched for.
    pub fn pass_head(&mut self)
        requires { IsWhole self.old }
        ensures { IsPassedHead self.old self.new }
    {
        let Search::Done(scan) = caught_up(self.search, self.bytes.as_slice()) else {
            return;
        };
        let HeadScan::Piece(_, end) = scan.piece else {
            return;
        };
        self.search = Search::Off;
        pass(&mut self.head_bytes, &mut self.bytes, end);
    }

    /// Takes what comes next of a body.
    pub fn pull(&mut self, rest: &mut Rest, has_ended: bool) -> Result<Pulled, NoMemory>
        requires { self.old.piece ≡ None }
        ensures pulled { IfOk result (λ answer. (p : pulls.Pulled) → IsPull has_ended rest.old self.old.unread p
            → IsPulled p answer rest.new self.new.unread) }
        ensures piece { self.new.piece ≡ None }
        ensures nothing { is_nothing rest.old ≡ true → is_nothing rest.new ≡ true }
        ensures no_memory_needed { (p : pulls.Pulled) → IsPull has_ended rest.old self.old.unread p → IsLight rest.old p.outcome p.rest → IsOk result }
        ensures err { OnErr result ((self.new ≡ self.old) × (rest.new ≡ rest.old)) }
    {
        let _ = &self.search;
        rest.pull(&mut self.bytes, has_ended)
    }

    /// Passes over what is left of a body.
    pub fn pass(&mut self, rest: &mut Rest, has_ended: bool)
        requires { self.old.piece ≡ None }
        ensures rest { rest.new ≡ (pass_rest has_ended rest.old self.old.unread).rest }
        ensures unread { self.new ≡ record { unread = (pass_rest has_ended rest.old self.old.unread).unread; piece = None } }
    {
        let _ = &self.search;
        rest.pass(&mut self.bytes, has_ended);
    }

    /// Whether neither a whole frame nor a broken rule stands in front, in payloads of at most so many bytes.
    pub fn waits_for_frame(&self, limit: usize) -> bool
        requires { self.now.piece ≡ None }
        ensures { (under_way : Bool) → result ≡ is_partial (front_frame (connection_reader limit) under_way self.now.unread) }
    {
        let _ = &self.search;
        waits_for_frame(self.bytes.as_slice(), true, limit)
    }

    /// Takes the frame in front, once it is whole, and says whether a message is under way behind it.
    pub fn take_frame(&mut self, frames: Frames) -> Result<Option<(Frame, bool)>, ProtocolError>
        requires { self.old.piece ≡ None }
        ensures taken { FrontTaken true frames.limit frames.under_way self.old.unread result self.new.unread }
        ensures named { IfOk result IsTakenNamed }
        ensures piece { self.new.piece ≡ None }
    {
        let _ = &self.search;
        let alloc = *self.bytes.allocator();
        take_front(alloc, &mut self.bytes, true, frames.limit, frames.under_way)
    }

    /// With the input a raw body ends of which no byte is left.
    pub fn end(&self, rest: &mut Rest)
        ensures { rest.new ≡ rest_in true self.now.unread rest.old }
    {
        if self.head_bytes.is_empty() {
            rest.end_input(&self.bytes);
        }
    }
}

// The bytes behind the first `start`: none where there are no more.
fn behind(bytes: &[u8], start: usize) -> &[u8]
    ensures { result.now ≡ drop start bytes.now }
{
    if start < bytes.len() {
        &bytes[start..]
    } else {
        &[]
    }
}

// A copy of the bytes in front and of those behind them.
#[cold]
fn joined(alloc: Global, front: &Bytes, behind: &[u8]) -> Result<BytesMut, NoMemory>
    ensures { IfOk result (λ all. all.items ≡ front.now ++ behind.now) }
{
    let mut all = BytesMut::copy_from_slice(alloc, front.as_slice())?;
    all.extend_from_slice(behind)?;
    Ok(all)
}
