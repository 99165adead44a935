// What is to be written to the peer.
ghost use Rattle.std.specs.Prelude.{◌≡◌, ◌<◌, ◌≤◌, ◌==◌, ◌++◌, [], length, take, drop, min, IfOk, OnOk, OnErr, IsOk};
ghost use Rattle.h1_encoder.specs.Meaning.{answer_of, size_of, model_type, model_shape};
ghost use Rattle.model_h1.specs.Limits.{MAX_MOMENT};
ghost use Rattle.model_h1.specs.Answer as answers;
ghost use Rattle.model_h1.specs.AnswerText.{head_text, sent_end, interim_text, timeout_text};
ghost use Rattle.model_h1.specs.Frame.{nop};
ghost use Rattle.model_h1.specs.Text.{fault_answer, message_text};
ghost use Rattle.ws_frames.specs.Sent.{message_says};
ghost use Rattle.model_state.specs.Reply.{piece_sent};
ghost use Rattle.model_state.specs.Runs.{IsFirstSegment};
ghost use Rattle.h1_output.specs.Queued.{nothing, with_text, behind, front_of, IsStretch};
ghost use Rattle.h1_connection.specs.EventMeaning.{fault_of};
ghost use Rattle.h1_connection.specs.Sent.{with_sent, with_chunk, accepting_text};

use crate::HeadFault;
use crate::connection::messages::put_message;
use bytes::{Bytes, BytesMut};
use h1_encoder::{
    Asked, DateLine, Shape, SizeLine, first_bytes, put_accept, put_answer_head, put_bad_request,
    put_end, put_interim, put_timeout, put_too_large,
};
use h1_output::Segments;
use http_framing::BodySize;
use http_types::{ConnectionType, NoMemory, ResponseHead};
use std::alloc::Global;
use std::marker::Model;
use ws_frames::Message;

/// A queue of bytes, which a clause sees as the list of them and the places of the bytes of each piece of a body. It grows
/// at its end by texts and pieces, and is given away from its front. What is put goes after the others whole, or nothing
/// is changed.
#[derive(Drop)]
pub struct Output {
    queue: Segments,
    date: DateLine,
}

impl Model for Output {
    ghost use Rattle.h1_output.specs.Queued.{Queued};

    ghost Value = { Queued };

    ghost view = { λ output. output.queue };
}

impl Output {
    /// No bytes, and no memory taken.
    pub fn new(alloc: Global) -> Output
        ensures { result ≡ nothing }
    {
        Output {
            queue: Segments::new(alloc),
            date: DateLine::new(),
        }
    }

    /// How many bytes there are.
    pub fn len(&self) -> usize
        ensures { result ≡ length self.now.bytes }
    {
        self.queue.len()
    }

    /// Whether there is none.
    pub fn is_empty(&self) -> bool
        ensures { result ≡ (length self.now.bytes == 0) }
    {
        self.queue.is_empty()
    }

    /// The first segment.
    pub fn front(&self) -> &[u8]
        ensures value { result.now ≡ front_of self.now }
        ensures first { IsFirstSegment self.now.marks self.now.bytes result.now }
        ensures stretch { IsStretch self.now.bytes result.now }
    {
        self.queue.front()
    }

    /// The first bytes that lie together: the first segment at least.
    pub fn stretch(&self) -> &[u8]
        ensures stretch { IsStretch self.now.bytes result.now }
        ensures segment { length (front_of self.now) ≤ length result.now }
    {
        self.queue.stretch()
    }

    /// Copies the first bytes, as many as there is room for, and says how many. They stay.
    pub fn peek_into(&self, room: &mut [u8]) -> usize
        ensures count { result ≡ min (length room.old) (length self.now.bytes) }
        ensures bytes { take result room.new ≡ take result self.now.bytes }
        ensures rest { drop result room.new ≡ drop result room.old }
    {
        self.queue.peek_into(room)
    }

    /// Gives the first bytes away, at most so many.
    pub fn give(&mut self, limit: usize) -> Result<Bytes, NoMemory>
        ensures ok { IfOk result (λ bytes. bytes ≡ take limit self.old.bytes) }
        ensures rest { OnOk result (self.new ≡ behind (min limit (length self.old.bytes)) self.old) }
        ensures none { length (take limit self.old.bytes) ≡ 0 → IsOk result }
        ensures err { OnErr result (self.new ≡ self.old) }
    {
        self.queue.give(limit)
    }

    /// Moves the first bytes to the front of the room, as many as fit, and says how many.
    pub fn give_into(&mut self, room: &mut [u8]) -> usize
        ensures count { result ≡ min (length room.old) (length self.old.bytes) }
        ensures given { take result room.new ≡ take result self.old.bytes }
        ensures rest { drop result room.new ≡ drop result room.old }
        ensures left { self.new ≡ behind result self.old }
    {
        self.queue.give_into(room)
    }

    /// Lets the first bytes go.
    pub fn advance(&mut self, count: usize)
        requires { count ≤ length self.old.bytes }
        ensures { self.new ≡ behind count self.old }
    {
        self.queue.advance(count);
    }

    /// Gives back the memory that is taken, where there is no byte in it.
    pub fn give_back(&mut self)
        ensures { self.new ≡ self.old }
    {
        self.queue.give_back();
    }

    /// The head of an answer.
    pub fn put_head(
        &mut self,
        asked: Asked,
        head: &ResponseHead,
        size: BodySize,
        connection: ConnectionType,
        moment: u64,
    ) -> Result<(), NoMemory>
        requires { moment < MAX_MOMENT }
        ensures ok { OnOk result (self.new ≡ with_text (head_text asked.minor (answer_of head.now)
            (answers.shape_of asked (answer_of head.now) (size_of size)) (size_of size) (model_type connection) moment) self.old) }
        ensures err { OnErr result (self.new ≡ self.old) }
    {
        let date = &mut self.date;
        self.queue.put_with(|out| put_answer_head(out, asked, head, size, connection, date, moment))
    }

    /// What of a piece of an answer's body goes out, copied. Where nothing does, it takes no memory.
    pub fn put_piece(
        &mut self,
        asked: Asked,
        shape: Shape,
        missing: u64,
        bytes: &[u8],
    ) -> Result<(), NoMemory>
        ensures ok { OnOk result (self.new ≡ with_sent asked (model_shape shape) missing bytes.now self.old) }
        ensures err { OnErr result (self.new ≡ self.old) }
        ensures no_memory_needed { piece_sent asked (model_shape shape) missing bytes.now ≡ [] → IsOk result }
    {
        if asked.is_head() {
            return Ok(());
        }
        match shape {
            Shape::None => Ok(()),
            Shape::Length(_) => self.queue.put_piece(first_bytes(bytes, missing)),
            Shape::Chunked => self.put_chunk(bytes),
            Shape::Raw => self.queue.put_piece(bytes),
        }
    }

    // A chunk with a copy of the bytes; none where there are none.
    fn put_chunk(&mut self, bytes: &[u8]) -> Result<(), NoMemory>
        ensures ok { OnOk result (self.new ≡ with_chunk bytes.now self.old) }
        ensures err { OnErr result (self.new ≡ self.old) }
        ensures no_memory_needed { bytes.now ≡ [] → IsOk result }
    {
        if bytes.is_empty() {
            return Ok(());
        }
        let line = SizeLine::of(bytes.len() as u64);
        self.queue.put_framed_copy(line.as_slice(), bytes, b"\r\n")
    }

    /// What of a piece of an answer's body goes out, without a copy where it is large. Where nothing does, it takes no
    /// memory.
    pub fn put_shared(
        &mut self,
        asked: Asked,
        shape: Shape,
        missing: u64,
        bytes: Bytes,
    ) -> Result<(), NoMemory>
        ensures ok { OnOk result (self.new ≡ with_sent asked (model_shape shape) missing bytes self.old) }
        ensures err { OnErr result (self.new ≡ self.old) }
        ensures no_memory_needed { piece_sent asked (model_shape shape) missing bytes ≡ [] → IsOk result }
    {
        if asked.is_head() {
            return Ok(());
        }
        match shape {
            Shape::None => Ok(()),
            Shape::Length(_) => self.queue.put_shared(at_most(bytes, missing)),
            Shape::Chunked => self.put_shared_chunk(bytes),
            Shape::Raw => self.queue.put_shared(bytes),
        }
    }

    // A chunk, without a copy where it is large; none where there are no bytes.
    fn put_shared_chunk(&mut self, bytes: Bytes) -> Result<(), NoMemory>
        ensures ok { OnOk result (self.new ≡ with_chunk bytes self.old) }
        ensures err { OnErr result (self.new ≡ self.old) }
        ensures no_memory_needed { bytes ≡ [] → IsOk result }
    {
        if bytes.is_empty() {
            return Ok(());
        }
        let line = SizeLine::of(bytes.len() as u64);
        self.queue.put_framed(line.as_slice(), bytes, b"\r\n")
    }

    /// What ends an answer's body. Where nothing does, it takes no memory.
    pub fn put_end(&mut self, asked: Asked, shape: Shape) -> Result<(), NoMemory>
        ensures ok { OnOk result (self.new ≡ with_text (sent_end asked (model_shape shape)) self.old) }
        ensures err { OnErr result (self.new ≡ self.old) }
        ensures no_memory_needed { sent_end asked (model_shape shape) ≡ [] → IsOk result }
    {
        self.queue.put_with(|out| put_end(out, asked, shape))
    }

    /// The line that tells a client to go on.
    pub fn put_interim(&mut self) -> Result<(), NoMemory>
        ensures ok { OnOk result (self.new ≡ with_text interim_text self.old) }
        ensures err { OnErr result (self.new ≡ self.old) }
    {
        self.queue.put_with(|out| put_interim(out))
    }

    /// The head that upgrades the connection to WebSocket, by the answer to the request's key.
    pub fn put_accept(&mut self, asked: Asked, key: &[u8; 28], moment: u64) -> Result<(), NoMemory>
        requires { moment < MAX_MOMENT }
        ensures ok { OnOk result (self.new ≡ with_text (accepting_text asked key.now moment) self.old) }
        ensures err { OnErr result (self.new ≡ self.old) }
    {
        let date = &mut self.date;
        self.queue
            .put_with(|out| put_upgrade(out, asked, key, date, moment))
    }

    /// A message of a WebSocket. To put nothing takes no memory.
    pub fn put_message(&mut self, message: &Message) -> Result<(), NoMemory>
        ensures ok { OnOk result (self.new ≡ with_text (message_text (message_says message.now)) self.old) }
        ensures err { OnErr result (self.new ≡ self.old) }
        ensures nothing { message_says message.now ≡ nop → IsOk result }
    {
        self.queue.put_with(|out| put_message(out, message))
    }

    /// The answer to a head that is none.
    pub fn put_fault(&mut self, fault: HeadFault, moment: u64) -> Result<(), NoMemory>
        requires { moment < MAX_MOMENT }
        ensures ok { OnOk result (self.new ≡ with_text (fault_answer (fault_of fault) moment) self.old) }
        ensures err { OnErr result (self.new ≡ self.old) }
    {
        let date = &mut self.date;
        match fault {
            HeadFault::Malformed => self
                .queue
                .put_with(|out| put_bad_request(out, date, moment)),
            HeadFault::TooLarge => self.queue.put_with(|out| put_too_large(out, date, moment)),
        }
    }

    /// The answer to a head that doesn't come.
    pub fn put_timeout(&mut self, moment: u64) -> Result<(), NoMemory>
        requires { moment < MAX_MOMENT }
        ensures ok { OnOk result (self.new ≡ with_text (timeout_text moment) self.old) }
        ensures err { OnErr result (self.new ≡ self.old) }
    {
        let date = &mut self.date;
        self.queue.put_with(|out| put_timeout(out, date, moment))
    }
}

// The head of an upgrade, with the text that it has whatever the settings are.
fn put_upgrade(
    out: &mut BytesMut,
    asked: Asked,
    key: &[u8; 28],
    date: &mut DateLine,
    moment: u64,
) -> Result<(), NoMemory>
    requires { moment < MAX_MOMENT }
    ensures ok { OnOk result (out.new.items ≡ out.old.items ++ accepting_text asked key.now moment) }
    ensures err { OnErr result (out.new.items ≡ out.old.items) }
{
    put_accept(out, asked, key, date, moment)
}

// At most so many bytes, from the first on.
fn at_most(bytes: Bytes, most: u64) -> Bytes
    ensures { result ≡ take most bytes }
{
    let mut bytes = bytes;
    if most < bytes.len() as u64 {
        bytes.truncate(most as usize);
    }
    bytes
}
