// A queue of segments.
ghost use Rattle.std.specs.Prelude.{◌≡◌, ℕ, ◌<◌, ◌≤◌, ◌==◌, ◌++◌, List, [], length, take, drop, min, IfOk, IfSome, IsOk, OnOk, OnErr};
ghost use Rattle.std.specs.Fn.{FnOnceReturnsAtMut};
ghost use Rattle.model_state.specs.Runs.{IsFirstSegment};
ghost use Rattle.h1_output.specs.Queued.{nothing, with_text, with_piece, behind, front_of, IsStretch};

use crate::copies::{copy_first, copy_into, copy_rest};
use crate::piece::{Body, Piece, left_of, put_last, room_for};
use bytes::{Bytes, BytesMut};
use std::alloc::{AllocError, Global};
use std::collections::VecDeque;
use std::marker::Model;

/// A piece of fewer bytes is copied, and one of as many or more is shared. Sharing costs a write of its own where a socket
/// takes one block of bytes at a time.
pub const LEAST_SHARED: usize = 16384;

// The same memory may be shared many times over, so the sum of shared pieces has a bound of its own.
const MAX_SHARED: usize = 0x7fff_ffff_ffff_ffff;

/// Bytes that wait to be written: texts, and pieces of bodies. A clause sees all of them as one list, with the places of
/// the bytes of each piece.
#[derive(Drop)]
pub struct Segments {
    // Texts, and pieces that are copied.
    own: BytesMut,
    // The pieces, in order. The first has a place of its own, so that one piece at a time takes no further memory.
    first: Option<Piece>,
    rest: VecDeque<Piece>,
    // How far the pieces reach in the buffer.
    marked: usize,
    // How many bytes aren't in it.
    shared: usize,
}

impl Model for Segments {
    ghost use Rattle.std.specs.Prelude.{◌<◌, ◌^◌};
    ghost use Rattle.h1_output.specs.Queued.{Queued};
    ghost use Rattle.h1_output.specs.OutputPieces.{queued, IsLaid, in_row, IsInRow};

    ghost Value = { Queued };

    ghost view = { λ o. queued (in_row o.first o.rest.items) o.own.items };

    ghost invariant = { λ o. IsLaid (in_row o.first o.rest.items) o.own.items o.marked o.shared × (o.shared < 2 ^ 63) × IsInRow o.first o.rest.items };
}

impl Segments {
    /// No bytes, and no memory taken.
    pub fn new(alloc: Global) -> Segments
        ensures { result ≡ nothing }
    {
        Segments {
            own: BytesMut::new(alloc),
            first: None,
            rest: VecDeque::new(alloc),
            marked: 0,
            shared: 0,
        }
    }

    /// Whether there is no byte.
    pub fn is_empty(&self) -> bool
        ensures { result ≡ (length self.now.bytes == 0) }
    {
        self.own.is_empty() && self.shared == 0
    }

    /// How many bytes there are.
    pub fn len(&self) -> usize
        ensures { result ≡ length self.now.bytes }
    {
        self.own.len() + self.shared
    }

    /// Puts a text behind the others. Where memory is wanting nothing is changed.
    pub fn put_text(&mut self, text: &[u8]) -> Result<(), AllocError>
        ensures ok { OnOk result (self.new ≡ with_text text.now self.old) }
        ensures err { OnErr result (self.new ≡ self.old) }
        ensures no_memory_needed { length text.now ≡ 0 → IsOk result }
    {
        if text.is_empty() {
            return Ok(());
        }
        self.own.extend_from_slice(text)?;
        Ok(())
    }

    /// Puts a copy of a piece behind the others. Where memory is wanting nothing is changed.
    pub fn put_piece(&mut self, bytes: &[u8]) -> Result<(), AllocError>
        ensures ok { OnOk result (self.new ≡ with_piece bytes.now self.old) }
        ensures err { OnErr result (self.new ≡ self.old) }
        ensures no_memory_needed { length bytes.now ≡ 0 → IsOk result }
    {
        if bytes.is_empty() {
            return Ok(());
        }
        let before = self.own.len() - self.marked;
        self.rest.reserve(room_for(&self.first))?;
        self.own.extend_from_slice(bytes)?;
        put_last(
            &mut self.first,
            &mut self.rest,
            Piece {
                before,
                body: Body::Own(bytes.len()),
            },
        );
        self.marked = self.own.len();
        Ok(())
    }

    /// Puts a piece behind the others, without a copy where it has [`LEAST_SHARED`] bytes. Where memory is wanting nothing
    /// is changed.
    pub fn put_shared(&mut self, bytes: Bytes) -> Result<(), AllocError>
        ensures ok { OnOk result (self.new ≡ with_piece bytes self.old) }
        ensures err { OnErr result (self.new ≡ self.old) }
        ensures no_memory_needed { length bytes ≡ 0 → IsOk result }
    {
        if bytes.len() < LEAST_SHARED {
            return self.put_piece(bytes.as_slice());
        }
        let shared = self.shared + bytes.len();
        if shared > MAX_SHARED {
            return Err(AllocError);
        }
        self.rest.reserve(room_for(&self.first))?;
        put_last(
            &mut self.first,
            &mut self.rest,
            Piece {
                before: self.own.len() - self.marked,
                body: Body::Shared(bytes),
            },
        );
        self.marked = self.own.len();
        self.shared = shared;
        Ok(())
    }

    /// Puts a piece behind the others, between two texts, as a chunk stands between its size line and a line end. A piece
    /// of [`LEAST_SHARED`] bytes is shared. Where memory is wanting nothing is changed.
    pub fn put_framed(
        &mut self,
        before: &[u8],
        bytes: Bytes,
        after: &[u8],
    ) -> Result<(), AllocError>
        requires is_empty { 0 < length bytes }
        ensures ok { OnOk result (self.new ≡ with_text after.now (with_piece bytes (with_text before.now self.old))) }
        ensures err { OnErr result (self.new ≡ self.old) }
    {
        if bytes.len() < LEAST_SHARED {
            return self.put_framed_copy(before, bytes.as_slice(), after);
        }
        let shared = self.shared + bytes.len();
        if shared > MAX_SHARED {
            return Err(AllocError);
        }
        self.rest.reserve(room_for(&self.first))?;
        self.own.reserve(before.len() + after.len())?;
        self.own.extend_reserved(before);
        put_last(
            &mut self.first,
            &mut self.rest,
            Piece {
                before: self.own.len() - self.marked,
                body: Body::Shared(bytes),
            },
        );
        self.marked = self.own.len();
        self.shared = shared;
        self.own.extend_reserved(after);
        Ok(())
    }

    /// Puts a copy of a piece behind the others, between two texts. Where memory is wanting nothing is changed.
    pub fn put_framed_copy(
        &mut self,
        before: &[u8],
        bytes: &[u8],
        after: &[u8],
    ) -> Result<(), AllocError>
        requires is_empty { 0 < length bytes.now }
        ensures ok { OnOk result (self.new ≡ with_text after.now (with_piece bytes.now (with_text before.now self.old))) }
        ensures err { OnErr result (self.new ≡ self.old) }
    {
        let Some(room) = (before.len() + after.len()).checked_add(bytes.len()) else {
            return Err(AllocError);
        };
        self.rest.reserve(room_for(&self.first))?;
        self.own.reserve(room)?;
        self.own.extend_reserved(before);
        let framed = self.own.len() - self.marked;
        self.own.extend_reserved(bytes);
        put_last(
            &mut self.first,
            &mut self.rest,
            Piece {
                before: framed,
                body: Body::Own(bytes.len()),
            },
        );
        self.marked = self.own.len();
        self.own.extend_reserved(after);
        Ok(())
    }

    /// Puts a text behind the others by a call that puts it behind what a buffer holds. Such a call leaves the buffer as it
    /// was, where it answers an error.
    pub fn put_with<F: FnOnce(&mut BytesMut) -> Result<(), AllocError>>(
        &mut self,
        write: F,
    ) -> Result<(), AllocError>
        requires callable { F.IsAlwaysCallable write }
        requires appends { (old : _) (r : _) (new : _) → FnOnceReturnsAtMut F.FnOnce write old r new
            → (text : List ℕ) × (new.items ≡ old.items ++ text) × OnErr r (text ≡ []) }
        ensures { (text : List ℕ) × (self.new ≡ with_text text self.old) × OnErr result (text ≡ [])
            × (old : _) × (new : _) × FnOnceReturnsAtMut F.FnOnce write old result new × (new.items ≡ old.items ++ text) }
    {
        write(&mut self.own)
    }

    /// The first segment: all that is left of a piece where one stands first, and else what stands before the first piece.
    pub fn front(&self) -> &[u8]
        ensures value { result.now ≡ front_of self.now }
        ensures first { IsFirstSegment self.now.marks self.now.bytes result.now }
        ensures stretch { IsStretch self.now.bytes result.now }
    {
        let Some(piece) = &self.first else {
            return self.own.as_slice();
        };
        if piece.before > 0 {
            return &self.own.as_slice()[..piece.before];
        }
        match &piece.body {
            Body::Own(len) => &self.own.as_slice()[..*len],
            Body::Shared(bytes) => bytes.as_slice(),
        }
    }

    /// The first bytes that lie together, for one write: all of them where no piece is shared, and else the first segment.
    pub fn stretch(&self) -> &[u8]
        ensures stretch { IsStretch self.now.bytes result.now }
        ensures segment { length (front_of self.now) ≤ length result.now }
    {
        if self.shared == 0 {
            return self.own.as_slice();
        }
        self.front()
    }

    /// Copies the first bytes, as many as there is room for, and says how many. They stay.
    pub fn peek_into(&self, buf: &mut [u8]) -> usize
        ensures count { result ≡ min (length buf.old) (length self.now.bytes) }
        ensures bytes { take result buf.new ≡ take result self.now.bytes }
        ensures rest { drop result buf.new ≡ drop result buf.old }
    {
        let own = self.own.as_slice();
        let place = copy_first(buf, own, &self.first);
        let place = copy_rest(buf, own, place, &self.rest);
        place.at + copy_into(buf, place.at, &own[place.from..])
    }

    // Lets at most so many of the first bytes go, as many as are of one kind, and says how many.
    fn advance_first(&mut self, most: usize) -> usize
        requires { (0 < most) × (most ≤ length self.old.bytes) }
        ensures count { (0 < result) × (result ≤ most) }
        ensures rest { self.new ≡ behind result self.old }
    {
        let Some(piece) = self.first.take() else {
            pass(&mut self.own, most);
            return most;
        };
        let Piece { before, body } = piece;
        if before > 0 {
            let taken = most.min(before);
            pass(&mut self.own, taken);
            self.first = Some(Piece {
                before: before - taken,
                body,
            });
            self.marked -= taken;
            return taken;
        }
        match body {
            Body::Own(len) => {
                let taken = most.min(len);
                pass(&mut self.own, taken);
                self.first = left_of(&mut self.rest, Body::Own(len - taken));
                self.marked -= taken;
                taken
            }
            Body::Shared(bytes) => {
                let mut bytes = bytes;
                let taken = most.min(bytes.len());
                bytes.advance(taken);
                self.first = left_of(&mut self.rest, Body::Shared(bytes));
                self.shared -= taken;
                taken
            }
        }
    }

    /// Lets the first bytes go.
    pub fn advance(&mut self, count: usize)
        requires { count ≤ length self.old.bytes }
        ensures { self.new ≡ behind count self.old }
    {
        if self.marked == 0 && self.shared == 0 {
            pass(&mut self.own, count);
            return;
        }
        if self.shared == 0 && count == self.own.len() {
            self.own.clear();
            self.first = None;
            self.rest.clear();
            self.marked = 0;
            return;
        }
        let mut left = count;
        while left > 0 {
            left -= self.advance_first(left);
        }
    }

    /// Gives the first bytes away, at most so many. They are copied only where some of them are shared and they aren't of
    /// one piece, or some but not all stand with pieces in the buffer. Where memory is wanting nothing is changed.
    pub fn give(&mut self, limit: usize) -> Result<Bytes, AllocError>
        ensures ok { IfOk result (λ bytes. bytes ≡ take limit self.old.bytes) }
        ensures rest { OnOk result (self.new ≡ behind (min limit (length self.old.bytes)) self.old) }
        ensures no_memory_needed { length (take limit self.old.bytes) ≡ 0 → IsOk result }
        ensures err { OnErr result (self.new ≡ self.old) }
    {
        let count = limit.min(self.len());
        if self.marked == 0 && self.shared == 0 {
            return give_own(&mut self.own, count);
        }
        if self.shared == 0 && count == self.own.len() {
            let given = give_own(&mut self.own, count)?;
            self.first = None;
            self.rest.clear();
            self.marked = 0;
            return Ok(given);
        }
        let given = self.copy_of(count)?;
        self.advance(count);
        Ok(given)
    }

    // The first bytes, without a copy where a shared piece has them all.
    fn copy_of(&self, count: usize) -> Result<Bytes, AllocError>
        requires { count ≤ length self.now.bytes }
        ensures ok { IfOk result (λ bytes. bytes ≡ take count self.now.bytes) }
        ensures no_memory_needed { count ≡ 0 → IsOk result }
    {
        if count == 0 {
            return Ok(Bytes::new());
        }
        if let Some(bytes) = self.shared_front(count) {
            return bytes.slice(..count);
        }
        let mut copy = BytesMut::zeroed(*self.own.allocator(), count)?;
        self.peek_into(copy.as_mut_slice());
        copy.freeze_to(count)
    }

    // The shared piece that stands first and has so many bytes, if there is one.
    fn shared_front(&self, count: usize) -> Option<&Bytes>
        ensures { IfSome result (λ b. (count ≤ length b.now) × (take count b.now ≡ take count self.now.bytes)) }
    {
        let Some(piece) = &self.first else {
            return None;
        };
        if piece.before > 0 {
            return None;
        }
        match &piece.body {
            Body::Own(_) => None,
            Body::Shared(bytes) => if_long(bytes, count),
        }
    }

    /// Moves the first bytes to the front of the room, as many as fit, and says how many. It takes no memory.
    pub fn give_into(&mut self, room: &mut [u8]) -> usize
        ensures count { result ≡ min (length room.old) (length self.old.bytes) }
        ensures given { take result room.new ≡ take result self.old.bytes }
        ensures rest { drop result room.new ≡ drop result room.old }
        ensures left { self.new ≡ behind result self.old }
    {
        let count = self.peek_into(room);
        self.advance(count);
        count
    }

    /// Gives back the memory that is taken, where there is no byte in it.
    pub fn give_back(&mut self)
        ensures { self.new ≡ self.old }
    {
        if self.is_empty() {
            *self = Segments::new(*self.own.allocator());
        }
    }
}

// The bytes, if there are so many.
fn if_long(bytes: &Bytes, count: usize) -> Option<&Bytes>
    ensures { IfSome result (λ b. (count ≤ length b.now) × (b.now ≡ bytes.now)) }
{
    if bytes.len() < count {
        None
    } else {
        Some(bytes)
    }
}

// Gives the first bytes of the buffer away, which stay in their memory.
fn give_own(own: &mut BytesMut, count: usize) -> Result<Bytes, AllocError>
    requires { count ≤ length own.old.items }
    ensures ok { IfOk result (λ bytes. bytes ≡ take count own.old.items) }
    ensures rest { OnOk result (own.new.items ≡ drop count own.old.items) }
    ensures none { count ≡ 0 → IsOk result }
    ensures err { OnErr result (own.new.items ≡ own.old.items) }
{
    let given = own.freeze_to(count)?;
    if own.is_empty() {
        own.clear();
    }
    Ok(given)
}

// Lets the first bytes of the buffer go. Where none is left its memory is used from the start again.
fn pass(own: &mut BytesMut, count: usize)
    requires { count ≤ length own.old.items }
    ensures { own.new.items ≡ drop count own.old.items }
{
    own.advance(count);
    if own.is_empty() {
        own.clear();
    }
}
