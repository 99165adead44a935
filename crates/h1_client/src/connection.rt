//! The client's side of a connection: what it keeps between two events, and its answer to each.
ghost use Rattle.std.specs.Prelude.{◌≡◌, ◌≤◌, ◌-◌, ℕ, List, [], false, length, take, option_map, IfOk, IsOk, OnOk, OnErr};
ghost use Rattle.h1_encoder.specs.Meaning.{size_of};
ghost use Rattle.model_h1.specs.Answer.{is_at_once};
ghost use Rattle.model_client.specs.ClientEvent as on;
ghost use Rattle.model_client.specs.ClientKept.{client_closing, is_reusable};
ghost use Rattle.h1_client.specs.Answers.{SaysNext, NeedsNoMemory};
ghost use Rattle.h1_client.specs.Bodies.{SaysPulled, IsLightPull};
ghost use Rattle.h1_client.specs.ClientMeaning.{request_of, end_of};
ghost use Rattle.h1_client.specs.Requests.{SendsNoPiece, SendsNoEnd};
ghost use Rattle.h1_client.specs.State.{fresh_state, IsAllowed, HasWriteRoom, Stands, GoesOn, Is};

use crate::connection::parts::Parts;
use crate::{ClientEnd, NextAnswer};
use h1_payload::Pulled;
use http_framing::BodySize;
use http_types::{NoMemory, RequestHead, ServiceConfig};
use std::alloc::Global;
use std::marker::Model;

mod allowed;
mod answers;
mod bodies;
mod closing;
mod input;
mod output;
mod parts;
mod questions;
mod queue;
mod requests;
mod steps;

/// The client's side of one HTTP/1 connection (RFC 7230), which reads nothing and writes nothing itself.
///
/// Each event has a call of its own, which may be made where its question says so. Answers come in the order of their
/// requests, and each body ends where its head and the method of its request say. After an error, which is out of memory
/// alone, all is as before.
///
/// Of the config it takes how many bytes may wait to be written, and how many of the input may be held. It counts no time.
///
/// A clause sees it as its settings and what the machine keeps.
#[derive(Drop)]
pub struct ClientConnection {
    alloc: Global,
    config: ServiceConfig,
    parts: Parts,
}

impl Model for ClientConnection {
    ghost use Rattle.h1_client.specs.State.{State};
    ghost use Rattle.h1_client.specs.Parts.{kept_of, IsSound};

    ghost Value = { State };

    ghost view = { λ c. record { settings = c.config; kept = kept_of c.parts } };

    ghost invariant = { λ c. IsSound c.parts };
}

impl ClientConnection {
    /// A connection to which nothing has happened yet. It takes no memory before the first request or the first bytes.
    pub fn new(alloc: Global, config: ServiceConfig) -> ClientConnection
        ensures value { result ≡ fresh_state config }
        ensures stands { Stands result [] }
    {
        ClientConnection {
            alloc,
            config,
            parts: Parts::new(alloc),
        }
    }

    /// Asks a request with this head, and with a body of this size: its text is to be written. Unless there is no body or it
    /// has 0 bytes, it may then be handed in. A body whose size isn't known goes out in chunks.
    pub fn ask(&mut self, head: &RequestHead, size: BodySize) -> Result<(), NoMemory>
        requires can_ask { IsAllowed self.old (on.ask (request_of head.now) (size_of size)) }
        ensures stands { OnOk result (GoesOn self.old (on.ask (request_of head.now) (size_of size)) (Is on.done) self.new) }
        ensures settings { self.new.settings ≡ self.old.settings }
        ensures err { OnErr result (self.new ≡ self.old) }
    {
        self.parts.ask(head, size)
    }

    /// The next bytes of the request's body. Of a stated length no more than is missing goes out. Where none of them does, it
    /// takes no memory.
    pub fn chunk(&mut self, bytes: &[u8]) -> Result<(), NoMemory>
        requires can_chunk { IsAllowed self.old (on.chunk bytes.now) }
        ensures stands { OnOk result (GoesOn self.old (on.chunk bytes.now) (Is on.done) self.new) }
        ensures settings { self.new.settings ≡ self.old.settings }
        ensures no_memory_needed { SendsNoPiece self.old.kept.sending bytes.now → IsOk result }
        ensures err { OnErr result (self.new ≡ self.old) }
    {
        self.parts.chunk(bytes)
    }

    /// The request's body is whole. One that lacks bytes of its stated length closes the connection. Where its end isn't
    /// written, it takes no memory.
    pub fn end_body(&mut self) -> Result<(), NoMemory>
        requires can_end_body { IsAllowed self.old on.body_end }
        ensures stands { OnOk result (GoesOn self.old on.body_end (Is on.done) self.new) }
        ensures settings { self.new.settings ≡ self.old.settings }
        ensures no_memory_needed { SendsNoEnd self.old.kept.sending → IsOk result }
        ensures err { OnErr result (self.new ≡ self.old) }
    {
        self.parts.end_body()
    }

    /// The request's body can't be completed: the connection closes. It takes no memory.
    pub fn fail_body(&mut self)
        requires can_end_body { IsAllowed self.old on.body_error }
        ensures stands { GoesOn self.old on.body_error (Is on.done) self.new }
        ensures settings { self.new.settings ≡ self.old.settings }
    {
        self.parts.fail_body()
    }

    /// Takes bytes that were read from the server, from the first on, and says how many there was room for.
    pub fn read(&mut self, bytes: &[u8]) -> Result<usize, NoMemory>
        requires can_read { IsAllowed self.old (on.read bytes.now) }
        ensures stands { IfOk result (λ count. GoesOn self.old (on.read bytes.now) (Is (on.took count)) self.new) }
        ensures settings { self.new.settings ≡ self.old.settings }
        ensures err { OnErr result (self.new ≡ self.old) }
    {
        self.parts.read(&self.config, bytes)
    }

    /// The server sends no more bytes. It takes no memory.
    pub fn eof(&mut self)
        requires can_read { IsAllowed self.old on.eof }
        ensures stands { GoesOn self.old on.eof (Is on.done) self.new }
        ensures settings { self.new.settings ≡ self.old.settings }
    {
        self.parts.eof()
    }

    /// Hands out the next answer's head, or that the connection has ended. It takes no memory where it closes, and where no
    /// whole head is there.
    pub fn next(&mut self) -> Result<NextAnswer, NoMemory>
        requires can_next { IsAllowed self.old on.next }
        ensures stands { IfOk result (λ next. GoesOn self.old on.next (SaysNext next) self.new) }
        ensures settings { self.new.settings ≡ self.old.settings }
        ensures no_memory_needed { NeedsNoMemory self.old.kept → IsOk result }
        ensures err { OnErr result (self.new ≡ self.old) }
    {
        self.parts.next(self.alloc, &self.config)
    }

    /// Takes what comes next of the last answer's body: a piece that shares the memory of what was read, or its trailers, or
    /// its end. A body that is broken, or inside which the input has ended, closes the connection. It takes no memory where
    /// it tells the end or a fault, or where nothing is there and no trailer has begun.
    pub fn pull(&mut self) -> Result<Pulled, NoMemory>
        requires can_pull { IsAllowed self.old on.pull }
        ensures stands { IfOk result (λ answer. GoesOn self.old on.pull (SaysPulled answer) self.new) }
        ensures settings { self.new.settings ≡ self.old.settings }
        ensures no_memory_needed { IsLightPull self.old.kept → IsOk result }
        ensures err { OnErr result (self.new ≡ self.old) }
    {
        self.parts.pull()
    }

    /// The rest of the last answer's body isn't wanted: it is passed as it comes, and the next answer follows it. It takes no
    /// memory.
    pub fn drop_body(&mut self)
        requires can_drop_body { IsAllowed self.old on.drop_body }
        ensures stands { GoesOn self.old on.drop_body (Is on.done) self.new }
        ensures settings { self.new.settings ≡ self.old.settings }
    {
        self.parts.drop_body()
    }

    /// All bytes that wait to be written to the server, oldest first.
    pub fn front(&self) -> &[u8]
        ensures { result.now ≡ self.now.kept.buffered }
    {
        self.parts.output.as_slice()
    }

    /// The first `count` bytes of `front` were written. It takes no memory.
    pub fn advance(&mut self, count: usize)
        requires can_write { IsAllowed self.old (on.write count) }
        requires fits { count ≤ length self.old.kept.buffered }
        ensures stands { GoesOn self.old (on.write count) (Is (on.gave (take count self.old.kept.buffered))) self.new }
        ensures settings { self.new.settings ≡ self.old.settings }
    {
        self.parts.advance(count)
    }

    /// A moment has come, in milliseconds after the start of 1970: requests are dated by the last one. It takes no memory.
    pub fn tick(&mut self, moment: u64)
        requires can_tick { IsAllowed self.old (on.tick moment) }
        ensures stands { GoesOn self.old (on.tick moment) (Is on.done) self.new }
        ensures settings { self.new.settings ≡ self.old.settings }
    {
        self.parts.tick(moment)
    }
}
