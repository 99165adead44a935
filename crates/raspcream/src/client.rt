//! A client's side.
ghost use Rattle.std.specs.Prelude.{◌≡◌, ◌≤◌, [], IfErr, OnOk, OnErr};
ghost use Rattle.model_client.specs.ClientEvent as on;
ghost use Rattle.model_client.specs.ClientKept.{client_closing};
ghost use Rattle.h1_client.specs.ClientMeaning.{end_of};
ghost use Rattle.h1_client.specs.HeadMeaning.{fault_of};
ghost use Rattle.h1_client.specs.State.{fresh_state, Stands};
ghost use Rattle.raspcream.specs.Bits.{requests_said};
ghost use Rattle.raspcream.specs.Numbers.{answer_kind, head_fault_said, client_end_said, client_reason_said};
ghost use Rattle.raspcream.specs.Refused.{MayDecline};
ghost use Rattle.raspcream.specs.Asked.{HasRead, HasNext, HasRequested, HasMade, HasWritten, HasPulled, HasGiven, HasHeld, HasStated, AreNumbersOf};
ghost use Rattle.raspcream.specs.Shown.{ShowsAnswer, ShowsNextAnswer};
ghost use Rattle.raspcream.specs.declared.op.Op.TheVariants as asks;
ghost use Rattle.raspcream.specs.declared.reply.TheConstants.{MAX_FIELDS};

use crate::handed::Handed;
use crate::pointers::span_of;
use crate::reply::{
    CLOSED, DONE, FAULT, Failure, GIVES, HEAD, HOLDS, Numbers, PENDING, Reply, STATE, TOOK, bit,
    size_of_number, tell, tell_body, tell_bytes, tell_fields, tell_number,
};
use crate::request::request_head_of;
use crate::told::minor_number;
use h1_client::{AnswerFault, ClientConnection, ClientEnd, NextAnswer, ResponseItem};
use http_types::ServiceConfig;
use std::alloc::Global;
use std::marker::Model;

/// A connection, and what it handed out last: C's spans lie in there. A clause sees the connection alone.
#[derive(Drop)]
pub struct Client {
    pub alloc: Global,
    pub connection: ClientConnection,
    pub answer: Option<ResponseItem>,
    pub handed: Handed,
}

impl Model for Client {
    ghost use Rattle.h1_client.specs.State.{State};

    ghost Value = { State };

    ghost view = { λ it. it.connection };
}

/// Why it ends, as a number from 1 on.
fn end_number(end: ClientEnd) -> u32
    ensures { result ≡ client_end_said (end_of end) }
{
    match end {
        ClientEnd::BadAnswer => 1,
        ClientEnd::LargeAnswer => 2,
        ClientEnd::BrokenAnswer => 9,
        ClientEnd::FailedRequest => 6,
        ClientEnd::Asked => 8,
        ClientEnd::Unasked => 14,
        ClientEnd::InputEnded => 13,
    }
}

/// What is wrong with a head, as a number.
fn fault_number(fault: AnswerFault) -> u32
    ensures { result ≡ head_fault_said (fault_of fault) }
{
    match fault {
        AnswerFault::Malformed => 1,
        AnswerFault::TooLarge => 2,
    }
}

/// What a head says.
fn tell_answer(item: &ResponseItem, out: &mut Reply)
    ensures kind { out.new.kind ≡ out.old.kind }
    ensures shown { ShowsAnswer item.now out.new }
    ensures few { out.new.count ≤ MAX_FIELDS }
{
    out.reason = u32::from(item.head.status.as_u16());
    out.method = span_of(item.reason.as_slice());
    out.minor = minor_number(item.head.version);
    tell_body(item.body, out);
    tell_fields(&item.head.headers, out);
}

// Spans are taken once the head lies where it stays: short texts lie inside it.
fn keep_answer(place: &mut Option<ResponseItem>, item: ResponseItem, out: &mut Reply)
    ensures kind { out.new.kind ≡ 2 }
    ensures few { out.old.count ≤ MAX_FIELDS → out.new.count ≤ MAX_FIELDS }
    ensures shown { ShowsAnswer item out.new }
{
    let item = place.insert(item);
    out.kind = HEAD;
    tell_answer(item, out);
}

// Keeps what came, and tells it.
fn keep_next(place: &mut Option<ResponseItem>, next: NextAnswer, out: &mut Reply)
    ensures kind { out.new.kind ≡ answer_kind next }
    ensures few { out.old.count ≤ MAX_FIELDS → out.new.count ≤ MAX_FIELDS }
    ensures shown { ShowsNextAnswer next out.new }
{
    match next {
        NextAnswer::Answer(item) => keep_answer(place, item, out),
        NextAnswer::Fault(fault) => tell(out, FAULT, fault_number(fault)),
        NextAnswer::Pending => tell(out, PENDING, 0),
        NextAnswer::Closed(end) => tell(out, CLOSED, end_number(end)),
    }
}

impl Client {
    /// A fresh one.
    pub fn new(alloc: Global, config: ServiceConfig) -> Client
        ensures value { result ≡ fresh_state config }
        ensures stands { Stands result [] }
    {
        Client {
            alloc,
            connection: ClientConnection::new(alloc, config),
            answer: None,
            handed: Handed::new(),
        }
    }

    /// A request's head.
    pub fn ask(&mut self, arg: u32, size: u64, text: &[u8], out: &mut Reply) -> Result<(), Failure>
        ensures stands { OnOk result (HasRequested arg size text.now out.new self.old self.new) }
        ensures kept { OnErr result (self.new ≡ self.old) }
        ensures refused { IfErr result (MayDecline asks.Head arg size text.now self.old) }
        ensures quiet { OnErr result (out.new ≡ out.old) }
        ensures few { out.old.count ≤ MAX_FIELDS → out.new.count ≤ MAX_FIELDS }
    {
        let head = request_head_of(self.alloc, arg, text)?;
        let size = size_of_number(size);
        if !self.connection.can_ask(&head, size) {
            return Err(Failure::Misplaced);
        }
        let Ok(()) = self.connection.ask(&head, size) else {
            return Err(Failure::NoMemory);
        };
        tell(out, DONE, 0);
        Ok(())
    }

    /// A piece of the request's body.
    pub fn chunk(&mut self, input: &[u8], out: &mut Reply) -> Result<(), Failure>
        ensures stands { OnOk result (HasMade (on.chunk input.now) out.new self.old self.new) }
        ensures kept { OnErr result (self.new ≡ self.old) }
        ensures refused { IfErr result (MayDecline asks.Chunk 0 0 input.now self.old) }
        ensures quiet { OnErr result (out.new ≡ out.old) }
        ensures few { out.old.count ≤ MAX_FIELDS → out.new.count ≤ MAX_FIELDS }
    {
        if !self.connection.can_chunk() {
            return Err(Failure::Misplaced);
        }
        let Ok(()) = self.connection.chunk(input) else {
            return Err(Failure::NoMemory);
        };
        tell(out, DONE, 0);
        Ok(())
    }

    /// The request's body is whole.
    pub fn end(&mut self, out: &mut Reply) -> Result<(), Failure>
        ensures stands { OnOk result (HasMade on.body_end out.new self.old self.new) }
        ensures kept { OnErr result (self.new ≡ self.old) }
        ensures refused { IfErr result (MayDecline asks.End 0 0 [] self.old) }
        ensures quiet { OnErr result (out.new ≡ out.old) }
        ensures few { out.old.count ≤ MAX_FIELDS → out.new.count ≤ MAX_FIELDS }
    {
        if !self.connection.can_end_body() {
            return Err(Failure::Misplaced);
        }
        let Ok(()) = self.connection.end_body() else {
            return Err(Failure::NoMemory);
        };
        tell(out, DONE, 0);
        Ok(())
    }

    /// The request's body failed.
    pub fn fail(&mut self, out: &mut Reply) -> Result<(), Failure>
        ensures stands { OnOk result (HasMade on.body_error out.new self.old self.new) }
        ensures kept { OnErr result (self.new ≡ self.old) }
        ensures refused { IfErr result (MayDecline asks.Fail 0 0 [] self.old) }
        ensures quiet { OnErr result (out.new ≡ out.old) }
        ensures few { out.old.count ≤ MAX_FIELDS → out.new.count ≤ MAX_FIELDS }
    {
        if !self.connection.can_end_body() {
            return Err(Failure::Misplaced);
        }
        self.connection.fail_body();
        tell(out, DONE, 0);
        Ok(())
    }

    /// Bytes that were read.
    pub fn read(&mut self, input: &[u8], out: &mut Reply) -> Result<(), Failure>
        ensures stands { OnOk result (HasRead input.now out.new self.old self.new) }
        ensures kept { OnErr result (self.new ≡ self.old) }
        ensures refused { IfErr result (MayDecline asks.Read 0 0 input.now self.old) }
        ensures quiet { OnErr result (out.new ≡ out.old) }
        ensures few { out.old.count ≤ MAX_FIELDS → out.new.count ≤ MAX_FIELDS }
    {
        if !self.connection.can_read() {
            return Err(Failure::Misplaced);
        }
        let Ok(count) = self.connection.read(input) else {
            return Err(Failure::NoMemory);
        };
        tell_number(out, TOOK, count);
        Ok(())
    }

    /// The input's end.
    pub fn eof(&mut self, out: &mut Reply) -> Result<(), Failure>
        ensures stands { OnOk result (HasMade on.eof out.new self.old self.new) }
        ensures kept { OnErr result (self.new ≡ self.old) }
        ensures refused { IfErr result (MayDecline asks.Eof 0 0 [] self.old) }
        ensures quiet { OnErr result (out.new ≡ out.old) }
        ensures few { out.old.count ≤ MAX_FIELDS → out.new.count ≤ MAX_FIELDS }
    {
        if !self.connection.can_read() {
            return Err(Failure::Misplaced);
        }
        self.connection.eof();
        tell(out, DONE, 0);
        Ok(())
    }

    /// The next answer's head.
    pub fn next(&mut self, out: &mut Reply) -> Result<(), Failure>
        ensures stands { OnOk result (HasNext out.new self.old self.new) }
        ensures kept { OnErr result (self.new ≡ self.old) }
        ensures refused { IfErr result (MayDecline asks.Next 0 0 [] self.old) }
        ensures quiet { OnErr result (out.new ≡ out.old) }
        ensures few { out.old.count ≤ MAX_FIELDS → out.new.count ≤ MAX_FIELDS }
    {
        if !self.connection.can_next() {
            return Err(Failure::Misplaced);
        }
        let Ok(next) = self.connection.next() else {
            return Err(Failure::NoMemory);
        };
        keep_next(&mut self.answer, next, out);
        Ok(())
    }

    /// More of the body.
    pub fn pull(&mut self, out: &mut Reply) -> Result<(), Failure>
        ensures stands { OnOk result (HasPulled out.new self.old self.new) }
        ensures kept { OnErr result (self.new ≡ self.old) }
        ensures refused { IfErr result (MayDecline asks.Pull 0 0 [] self.old) }
        ensures quiet { OnErr result (out.new ≡ out.old) }
        ensures few { out.old.count ≤ MAX_FIELDS → out.new.count ≤ MAX_FIELDS }
    {
        if !self.connection.can_pull() {
            return Err(Failure::Misplaced);
        }
        let Ok(pulled) = self.connection.pull() else {
            return Err(Failure::NoMemory);
        };
        self.handed.keep(pulled, out);
        Ok(())
    }

    /// The rest of the body isn't wanted.
    pub fn drop_body(&mut self, out: &mut Reply) -> Result<(), Failure>
        ensures stands { OnOk result (HasMade on.drop_body out.new self.old self.new) }
        ensures kept { OnErr result (self.new ≡ self.old) }
        ensures refused { IfErr result (MayDecline asks.DropBody 0 0 [] self.old) }
        ensures quiet { OnErr result (out.new ≡ out.old) }
        ensures few { out.old.count ≤ MAX_FIELDS → out.new.count ≤ MAX_FIELDS }
    {
        if !self.connection.can_drop_body() {
            return Err(Failure::Misplaced);
        }
        self.connection.drop_body();
        tell(out, DONE, 0);
        Ok(())
    }

    /// What is to be written next, where it lies.
    pub fn front(&self, out: &mut Reply) -> Result<(), Failure>
        ensures stands { OnOk result (HasGiven out.new self.now self.now) }
        ensures refused { IfErr result (MayDecline asks.Front 0 0 [] self.now) }
        ensures quiet { OnErr result (out.new ≡ out.old) }
        ensures few { out.old.count ≤ MAX_FIELDS → out.new.count ≤ MAX_FIELDS }
    {
        tell_bytes(out, GIVES, self.connection.front());
        Ok(())
    }

    /// So many of these bytes were written.
    pub fn advance(&mut self, count: u64, out: &mut Reply) -> Result<(), Failure>
        ensures stands { OnOk result (HasWritten count out.new self.old self.new) }
        ensures kept { OnErr result (self.new ≡ self.old) }
        ensures refused { IfErr result (MayDecline asks.Advance 0 count [] self.old) }
        ensures quiet { OnErr result (out.new ≡ out.old) }
        ensures few { out.old.count ≤ MAX_FIELDS → out.new.count ≤ MAX_FIELDS }
    {
        let Ok(length) = usize::try_from(count) else {
            return Err(Failure::Invalid);
        };
        if length > self.connection.front().len() {
            return Err(Failure::Invalid);
        }
        if !self.connection.can_write() {
            return Err(Failure::Misplaced);
        }
        self.connection.advance(length);
        tell(out, DONE, 0);
        Ok(())
    }

    /// The time.
    pub fn tick(&mut self, moment: u64, out: &mut Reply) -> Result<(), Failure>
        ensures stands { OnOk result (HasMade (on.tick moment) out.new self.old self.new) }
        ensures kept { OnErr result (self.new ≡ self.old) }
        ensures refused { IfErr result (MayDecline asks.Tick 0 moment [] self.old) }
        ensures quiet { OnErr result (out.new ≡ out.old) }
        ensures few { out.old.count ≤ MAX_FIELDS → out.new.count ≤ MAX_FIELDS }
    {
        if !self.connection.can_tick(moment) {
            return Err(Failure::Misplaced);
        }
        self.connection.tick(moment);
        tell(out, DONE, 0);
        Ok(())
    }

    /// The bytes that are held, from place `start` on.
    pub fn held(&self, start: u64, out: &mut Reply) -> Result<(), Failure>
        ensures stands { OnOk result (HasHeld start out.new self.now self.now) }
        ensures refused { IfErr result (MayDecline asks.Held 0 start [] self.now) }
        ensures quiet { OnErr result (out.new ≡ out.old) }
        ensures few { out.old.count ≤ MAX_FIELDS → out.new.count ≤ MAX_FIELDS }
    {
        let Ok(start) = usize::try_from(start) else {
            return Err(Failure::Invalid);
        };
        let held = self.connection.held_bytes();
        tell_bytes(out, HOLDS, &held[start.min(held.len())..]);
        Ok(())
    }

    /// What may come next, why it ends, and its numbers.
    pub fn state(&self, out: &mut Reply) -> Result<(), Failure>
        ensures stands { OnOk result (HasStated out.new self.now self.now) }
        ensures refused { IfErr result (MayDecline asks.State 0 0 [] self.now) }
        ensures quiet { OnErr result (out.new ≡ out.old) }
        ensures few { out.old.count ≤ MAX_FIELDS → out.new.count ≤ MAX_FIELDS }
    {
        out.kind = STATE;
        out.reason = reason_of(&self.connection);
        out.state = numbers_of(&self.connection);
        Ok(())
    }
}

// Why it is to end, as a number; 0 where it isn't.
fn reason_of(it: &ClientConnection) -> u32
    ensures { result ≡ client_reason_said (client_closing it.now.kept) }
{
    match it.closing() {
        Some(end) => end_number(end),
        None => 0,
    }
}

// Its numbers.
fn numbers_of(it: &ClientConnection) -> Numbers
    ensures { AreNumbersOf it.now result }
{
    Numbers {
        can: calls_of(it),
        waiting: it.waiting().min(u32::MAX as usize) as u32,
        buffered: it.front().len() as u64,
        write_room: it.write_room() as u64,
        held: it.held_bytes().len() as u64,
        read_room: it.read_room() as u64,
        deadline: u64::MAX,
    }
}

// What may come next, a bit for each call: a request is asked for by `ask` itself.
fn calls_of(it: &ClientConnection) -> u32
    ensures { result ≡ requests_said it.now }
{
    bit(it.can_read(), 1)
        | bit(it.can_next(), 2)
        | bit(it.can_pull(), 4)
        | bit(it.can_drop_body(), 8)
        | bit(it.can_chunk(), 64)
        | bit(it.can_end_body(), 128)
        | bit(it.can_write(), 256)
        | bit(it.is_reusable(), 8192)
}
