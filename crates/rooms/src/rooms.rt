//! The table of all members.
ghost use Rattle.std.specs.Prelude.{◌≡◌, ◌<◌, ◌^◌, ◌-◌, ◌++◌, ◌∷◌, [], ℕ, Some, true, length, drop, min, slice_get, OnOk, OnErr, IsOk};
ghost use Rattle.std.specs.Option.{option_copied};
ghost use Rattle.model_h1.specs.Event as on;
ghost use Rattle.ws_frames.specs.Codec.{frame_says};
ghost use Rattle.model_rooms.specs.Member.{newcomer, says, nothing, effect_in, heard, with_end, member_at, rows_from, byte_count};
ghost use Rattle.rooms.specs.Rows.{only, others_hear, spoken};

use crate::queued_frame::QueuedFrame;
use crate::row::Row;
use bytes::Bytes;
use std::alloc::Global;
use std::marker::Model;
use ws_frames::{Frame, NoMemory};

/// The rows of all connections, by their numbers from 0 on. A clause sees it as the list of the model's rows.
///
/// Once memory ran out, a table is of no use: a message may have come to some members and not to others.
#[derive(Drop)]
pub struct Rooms {
    alloc: Global,
    rows: Vec<Row>,
}

impl Model for Rooms {
    ghost use Rattle.std.specs.Prelude.{List};
    ghost use Rattle.model_rooms.specs.Member.{Member};

    ghost Value = { List Member };

    ghost view = { λ r. r.rows.items };
}

impl Rooms {
    /// A table without a row.
    pub fn new(alloc: Global) -> Rooms
        ensures { result ≡ [] }
    {
        Rooms {
            alloc,
            rows: Vec::new(alloc),
        }
    }

    /// How many rows there are.
    pub fn len(&self) -> usize
        ensures { result ≡ length self.now }
    {
        self.rows.len()
    }

    /// Adds a row that has joined no room. Where memory ran out, there is none more.
    pub fn open(&mut self) -> Result<(), NoMemory>
        ensures ok { OnOk result (self.new ≡ self.old ++ newcomer ∷ []) }
        ensures err { OnErr result (self.new ≡ self.old) }
    {
        self.rows.push(Row::new(self.alloc))?;
        Ok(())
    }

    /// The connection with this number joins a room.
    pub fn join(&mut self, number: usize, room: Bytes)
        requires known { number < length self.old }
        ensures { self.new ≡ rows_from 0 (only number (λ m. record m { room = Some room })) self.old }
    {
        let row = &mut self.rows[number];
        row.join(room);
    }

    /// It leaves, as its connection closes.
    pub fn leave(&mut self, number: usize)
        requires known { number < length self.old }
        ensures { self.new ≡ rows_from 0 (only number (with_end true)) self.old }
    {
        let row = &mut self.rows[number];
        row.leave();
    }

    /// The first frame that waits to be sent to it.
    pub fn front(&self, number: usize) -> Option<&QueuedFrame>
        requires known { number < length self.now }
        ensures { option_copied result ≡ slice_get (member_at number self.now).waiting 0 }
    {
        self.rows[number].front()
    }

    /// How many frames wait to be sent to it.
    pub fn waiting(&self, number: usize) -> usize
        requires known { number < length self.now }
        ensures { result ≡ length (member_at number self.now).waiting }
    {
        self.rows[number].waiting()
    }

    /// How many bytes of payload wait to be sent to it, and `usize::MAX` where they are more. It looks at each frame that
    /// waits.
    pub fn waiting_bytes(&self, number: usize) -> usize
        requires known { number < length self.now }
        ensures { result ≡ min (byte_count (member_at number self.now).waiting) (2 ^ 64 - 1) }
    {
        self.rows[number].waiting_bytes()
    }

    /// The first frame that waits was sent to it.
    pub fn sent(&mut self, number: usize)
        requires known { number < length self.old }
        ensures { self.new ≡ rows_from 0 (only number (λ m. record m { waiting = drop 1 m.waiting })) self.old }
    {
        let row = &mut self.rows[number];
        row.sent();
    }

    /// A frame of it has its effect: on its own row, and, where it completes a message, on those of the others in its room.
    /// A frame without an effect takes no memory: a Pong, and any frame of one that is in no room. Where memory ran out,
    /// there are as many rows as before.
    pub fn speak(&mut self, number: usize, frame: Frame) -> Result<(), NoMemory>
        requires known { number < length self.old }
        ensures spoken { OnOk result (self.new ≡ rows_from 0 (spoken number (member_at number self.old) (frame_says frame)) self.old) }
        ensures no_memory_needed { effect_in (member_at number self.old) (on.frame (frame_says frame)) ≡ nothing → IsOk result }
        ensures count { length self.new ≡ length self.old }
    {
        let row = &mut self.rows[number];
        let Some(lines) = row.take(frame)? else {
            return Ok(());
        };
        let room = row.share_room()?;
        tell(&mut self.rows, number, &room, lines.as_slice())
    }
}

// All but the one with this number hear what is said in a room.
fn tell(
    rows: &mut Vec<Row>,
    number: usize,
    room: &Option<Bytes>,
    lines: &[QueuedFrame],
) -> Result<(), NoMemory>
    ensures told { OnOk result (rows.new.items ≡ rows_from 0 (others_hear number room.now lines.now) rows.old.items) }
    ensures count { length rows.new.items ≡ length rows.old.items }
{
    for index in 0..rows.len() {
        if index != number {
            hear(&mut rows[index], room, lines)?;
        }
    }
    Ok(())
}

// A member hears what is said in a room.
fn hear(row: &mut Row, room: &Option<Bytes>, lines: &[QueuedFrame]) -> Result<(), NoMemory>
    ensures { OnOk result (row.new ≡ heard (says lines.now) room.now row.old) }
{
    if row.is_in_room(room) {
        row.put(lines)?;
    }
    Ok(())
}
