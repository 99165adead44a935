// The row of one member.
ghost use Rattle.std.specs.Prelude.{◌≡◌, ℕ, ◌^◌, ◌-◌, List, [], ◌∷◌, ◌++◌, not, ◌&&◌, Some, true, length, min, drop, slice_get, option_map, IfOk, IsOk, OnOk};
ghost use Rattle.std.specs.List.{flat_map};
ghost use Rattle.std.specs.Option.{option_copied};
ghost use Rattle.std.specs.Str.{is_utf8};
ghost use Rattle.model_h1.specs.Frame as frames;
ghost use Rattle.model_h1.specs.Event as on;
ghost use Rattle.ws_frames.specs.Codec.{item_says, frame_says};
ghost use Rattle.model_rooms.specs.Member.{nothing, newcomer, is_in, is_same_room, payload, byte_count, is_text, kept, said, effect_of, effect_in, leaving, put, with_effect, with_end};
ghost use Rattle.rooms.specs.QueuedFrames.{said_of};

use crate::queued_frame::QueuedFrame;
use bytes::Bytes;
use std::alloc::Global;
use std::collections::VecDeque;
use std::marker::Model;
use std::mem;
use ws_frames::{CloseCode, Frame, Item, NoMemory};

// The most frames that messages and pongs bring a waiting list to.
const MAX_WAITING: usize = 1024;

// The most bytes and frames of a message whose last frame hasn't come.
const MAX_PART_BYTES: usize = 1_048_576;

const MAX_PARTS: usize = 1023;

// A member, or a connection that has joined no room. A clause sees it as the model's.
#[derive(Drop)]
pub struct Row {
    alloc: Global,
    room: Option<Bytes>,
    has_left: bool,
    parts: Vec<QueuedFrame>,
    part_bytes: usize,
    waiting: VecDeque<QueuedFrame>,
}

impl Model for Row {
    ghost use Rattle.model_rooms.specs.Member.{Member};
    ghost use Rattle.rooms.specs.Rows.{CountsParts};

    ghost Value = { Member };

    ghost view = { λ r. record { room = r.room; has_left = r.has_left; parts = r.parts.items; waiting = r.waiting.items } };

    ghost invariant = { λ r. CountsParts r.part_bytes r.parts.items };
}

impl Row {
    // One that has joined no room.
    pub fn new(alloc: Global) -> Row
        ensures { result ≡ newcomer }
    {
        Row {
            alloc,
            room: None,
            has_left: false,
            parts: Vec::new(alloc),
            part_bytes: 0,
            waiting: VecDeque::new(alloc),
        }
    }

    // Whether it is in a room.
    pub fn is_in(&self) -> bool
        ensures { result ≡ is_in self.now }
    {
        !self.has_left && self.room.is_some()
    }

    // Whether it is in this room.
    pub fn is_in_room(&self, room: &Option<Bytes>) -> bool
        ensures { result ≡ (is_in self.now && is_same_room room.now self.now.room) }
    {
        match (room, &self.room) {
            (Some(room), Some(own)) => !self.has_left && room.as_slice() == own.as_slice(),
            _ => false,
        }
    }

    // Its room.
    pub fn share_room(&self) -> Result<Option<Bytes>, NoMemory>
        ensures { IfOk result (λ room. room ≡ self.now.room) }
    {
        match &self.room {
            Some(room) => Ok(Some(room.clone()?)),
            None => Ok(None),
        }
    }

    // It joins a room.
    pub fn join(&mut self, room: Bytes)
        ensures { self.new ≡ record self.old { room = Some room } }
    {
        self.room = Some(room);
    }

    // It leaves: its connection closes.
    pub fn leave(&mut self)
        ensures { self.new ≡ with_end true self.old }
    {
        self.has_left = true;
        self.parts.clear();
        self.part_bytes = 0;
    }

    // It leaves, with this frame as the last to it.
    fn leave_with(&mut self, line: QueuedFrame) -> Result<(), NoMemory>
        ensures { OnOk result (self.new ≡ leaving line self.old) }
    {
        self.has_left = true;
        self.parts.clear();
        self.part_bytes = 0;
        self.waiting.push_back(line)?;
        Ok(())
    }

    // These frames wait for it. Where there is no room for all of them, none is added, and it leaves.
    pub fn put(&mut self, lines: &[QueuedFrame]) -> Result<(), NoMemory>
        ensures { OnOk result (self.new ≡ put lines.now self.old) }
    {
        if lines.len() <= MAX_WAITING && self.waiting.len() <= MAX_WAITING - lines.len() {
            return add(&mut self.waiting, lines);
        }
        let close = QueuedFrame::close_for(self.alloc, CloseCode::Policy)?;
        self.leave_with(close)
    }

    // The first frame that waits.
    pub fn front(&self) -> Option<&QueuedFrame>
        ensures { option_copied result ≡ slice_get self.now.waiting 0 }
    {
        self.waiting.front()
    }

    // How many frames wait.
    pub fn waiting(&self) -> usize
        ensures { result ≡ length self.now.waiting }
    {
        self.waiting.len()
    }

    // How many bytes of payload wait, and `usize::MAX` where they are more.
    pub fn waiting_bytes(&self) -> usize
        ensures { result ≡ min (byte_count self.now.waiting) (2 ^ 64 - 1) }
    {
        let mut count: usize = 0;
        for index in 0..self.waiting.len() {
            count = count.saturating_add(self.waiting[index].payload().len());
        }
        count
    }

    // The first frame that waits was sent.
    pub fn sent(&mut self)
        ensures { self.new ≡ record self.old { waiting = drop 1 self.old.waiting } }
    {
        self.waiting.pop_front();
    }

    // A frame that it sends has its effect on itself. What it says with it is handed out.
    pub fn take(&mut self, frame: Frame) -> Result<Option<Vec<QueuedFrame>>, NoMemory>
        ensures after { OnOk result (self.new ≡ with_effect (effect_in self.old (on.frame (frame_says frame))) self.old) }
        ensures said { IfOk result (λ said. option_map (λ v. v.items) said ≡ said_of (effect_in self.old (on.frame (frame_says frame)))) }
        ensures no_memory_needed { effect_in self.old (on.frame (frame_says frame)) ≡ nothing → IsOk result }
    {
        if self.is_in() {
            self.take_frame(frame)
        } else {
            Ok(None)
        }
    }

    // The same of a member that is in a room.
    fn take_frame(&mut self, frame: Frame) -> Result<Option<Vec<QueuedFrame>>, NoMemory>
        ensures after { OnOk result (self.new ≡ with_effect (effect_of self.old.parts (frame_says frame)) self.old) }
        ensures said { IfOk result (λ said. option_map (λ v. v.items) said ≡ said_of (effect_of self.old.parts (frame_says frame))) }
        ensures no_memory_needed { effect_of self.old.parts (frame_says frame) ≡ nothing → IsOk result }
    {
        match frame {
            Frame::Text(payload) => self.take_text(payload.as_slice()),
            Frame::Binary(payload) => {
                let line = QueuedFrame::binary(self.alloc, payload)?;
                let lines = one(self.alloc, line)?;
                self.forget_parts();
                Ok(Some(lines))
            }
            Frame::Continuation(item) => self.take_item(item),
            Frame::Ping(payload) => {
                let line = QueuedFrame::pong(self.alloc, payload)?;
                let lines = one(self.alloc, line)?;
                self.put(lines.as_slice())?;
                Ok(None)
            }
            Frame::Pong(_) => Ok(None),
            Frame::Close(reason) => {
                let line = QueuedFrame::close(self.alloc, reason)?;
                self.leave_with(line)?;
                Ok(None)
            }
        }
    }

    // A whole text.
    fn take_text(&mut self, payload: &[u8]) -> Result<Option<Vec<QueuedFrame>>, NoMemory>
        ensures after { OnOk result (self.new ≡ with_effect (effect_of self.old.parts (frames.text payload.now)) self.old) }
        ensures said { IfOk result (λ said. option_map (λ v. v.items) said ≡ said_of (effect_of self.old.parts (frames.text payload.now))) }
    {
        let Some(line) = QueuedFrame::text(self.alloc, payload)? else {
            let close = QueuedFrame::close_for(self.alloc, CloseCode::Invalid)?;
            self.leave_with(close)?;
            return Ok(None);
        };
        let lines = one(self.alloc, line)?;
        self.forget_parts();
        Ok(Some(lines))
    }

    // A part of a message.
    fn take_item(&mut self, item: Item) -> Result<Option<Vec<QueuedFrame>>, NoMemory>
        ensures after { OnOk result (self.new ≡ with_effect (effect_of self.old.parts (item_says item)) self.old) }
        ensures said { IfOk result (λ said. option_map (λ v. v.items) said ≡ said_of (effect_of self.old.parts (item_says item))) }
        ensures no_memory_needed { effect_of self.old.parts (item_says item) ≡ nothing → IsOk result }
    {
        match item {
            Item::FirstText(payload) => self.begin(Item::FirstText(payload)),
            Item::FirstBinary(payload) => self.begin(Item::FirstBinary(payload)),
            Item::Continue(payload) => {
                if self.parts.is_empty() {
                    return Ok(None);
                }
                let line = QueuedFrame::item(self.alloc, Item::Continue(payload))?;
                self.keep(line)?;
                Ok(None)
            }
            Item::Last(payload) => {
                if self.parts.is_empty() {
                    return Ok(None);
                }
                let line = QueuedFrame::item(self.alloc, Item::Last(payload))?;
                self.end(line)
            }
        }
    }

    // The first part of a message.
    fn begin(&mut self, item: Item) -> Result<Option<Vec<QueuedFrame>>, NoMemory>
        ensures after { OnOk result (self.new ≡ with_effect (kept (item_says item ∷ [])) self.old) }
        ensures said { IfOk result (λ said. option_map (λ v. v.items) said ≡ said_of (kept (item_says item ∷ []))) }
    {
        let line = QueuedFrame::item(self.alloc, item)?;
        self.forget_parts();
        self.keep(line)?;
        Ok(None)
    }

    // A part that isn't the last is kept after the others, unless they are too many or too long.
    fn keep(&mut self, line: QueuedFrame) -> Result<(), NoMemory>
        ensures { OnOk result (self.new ≡ with_effect (kept (self.old.parts ++ line ∷ [])) self.old) }
    {
        let len = line.payload().len();
        if self.parts.len() >= MAX_PARTS || len > MAX_PART_BYTES - self.part_bytes {
            let close = QueuedFrame::close_for(self.alloc, CloseCode::Size)?;
            return self.leave_with(close);
        }
        self.parts.push(line)?;
        self.part_bytes += len;
        Ok(())
    }

    // The last part: the message is said, unless it is text and isn't UTF-8.
    fn end(&mut self, line: QueuedFrame) -> Result<Option<Vec<QueuedFrame>>, NoMemory>
        ensures after { OnOk result (self.new ≡ with_effect (said (self.old.parts ++ line ∷ [])) self.old) }
        ensures said { IfOk result (λ lines. option_map (λ v. v.items) lines ≡ said_of (said (self.old.parts ++ line ∷ []))) }
    {
        let mut lines = mem::replace(&mut self.parts, Vec::new(self.alloc));
        self.part_bytes = 0;
        lines.push(line)?;
        if is_bad_text(self.alloc, lines.as_slice())? {
            let close = QueuedFrame::close_for(self.alloc, CloseCode::Invalid)?;
            self.leave_with(close)?;
            return Ok(None);
        }
        Ok(Some(lines))
    }

    // No message is under way.
    fn forget_parts(&mut self)
        ensures { self.new ≡ record self.old { parts = [] } }
    {
        self.parts.clear();
        self.part_bytes = 0;
    }
}

// The lines after those that wait.
fn add(waiting: &mut VecDeque<QueuedFrame>, lines: &[QueuedFrame]) -> Result<(), NoMemory>
    ensures { OnOk result (waiting.new.items ≡ waiting.old.items ++ lines.now) }
{
    for line in lines {
        let line = line.share()?;
        waiting.push_back(line)?;
    }
    Ok(())
}

// A message of one frame.
fn one(alloc: Global, line: QueuedFrame) -> Result<Vec<QueuedFrame>, NoMemory>
    ensures { IfOk result (λ lines. lines.items ≡ line ∷ []) }
{
    let mut lines = Vec::new(alloc);
    lines.push(line)?;
    Ok(lines)
}

// Whether it is text and isn't UTF-8. A fragment may end inside a character, so all payloads are judged together.
fn is_bad_text(alloc: Global, lines: &[QueuedFrame]) -> Result<bool, NoMemory>
    ensures { IfOk result (λ bad. bad ≡ (is_text lines.now && not (is_utf8 (flat_map payload lines.now)))) }
{
    let Some(first) = lines.first() else {
        return Ok(false);
    };
    if !first.begins_text() {
        return Ok(false);
    }
    let bytes = joined(alloc, lines)?;
    Ok(!is_utf8_text(bytes.as_slice()))
}

// Whether the bytes are UTF-8.
fn is_utf8_text(bytes: &[u8]) -> bool
    ensures { result ≡ is_utf8 bytes.now }
{
    match str::from_utf8(bytes) {
        Ok(_) => true,
        Err(_) => false,
    }
}

// The payloads, one after another.
fn joined(alloc: Global, lines: &[QueuedFrame]) -> Result<Vec<u8>, NoMemory>
    ensures { IfOk result (λ bytes. bytes.items ≡ flat_map payload lines.now) }
{
    let mut bytes = Vec::new(alloc);
    for line in lines {
        bytes.extend_from_slice(line.payload())?;
    }
    Ok(bytes)
}
