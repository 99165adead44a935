//! The events.
#![tactic(auto)]

ghost use Rattle.std.specs.Prelude.{◌≡◌, ◌≤◌, length, take, true, false, None, Some, IsTrue, IfOk, IsOk, OnOk};
ghost use Rattle.model_h1.specs.Event as on;
ghost use Rattle.model_client.specs.ClientEvent as asked;
ghost use Rattle.h1_connection.specs.State.{State, GoesOn, Is};
ghost use Rattle.h1_connection.specs.Ticks.{expiry_of};
ghost use Rattle.model_proxy.specs.Past.{took, gave, done};
ghost use Rattle.model_proxy.specs.Past as event;
ghost use Rattle.proxy.specs.Rests.{may_turn, holds_up, Settles};
ghost use Rattle.proxy.specs.Replies.{PutsNothing, Replies, RepliesRefused};
ghost use Rattle.proxy.specs.Served.{Serves, GoesOnServing};
ghost use Rattle.proxy.specs.Kept.{client_of, server_of, wants_server, server_text, server_allows, client_takes, client_room, server_room, TakesAll, Goes, GoesBy};

use crate::proxy::Proxy;
use h1_client::ClientConnection;
use h1_connection::{Expiry, NoMemory};
use proxy_heads::Refusal;

impl Proxy {
    /// Takes bytes that were read from the client, from the first on, and says how many: `client_room` at most.
    pub fn read_client(&mut self, bytes: &[u8]) -> Result<usize, NoMemory>
        ensures goes { IfOk result (λ count. GoesBy (event.client bytes.now) (took count) self.old self.new) }
        ensures took { IfOk result (λ count. TakesAll count bytes.now (client_room self.old) self.old) }
        ensures rests { OnOk result (Settles self.old self.new) }
        ensures serves { OnOk result (Serves self.old self.new) }
        ensures replies { IfOk result (λ count. Replies (event.client bytes.now) (took count) self.old self.new) }
        ensures no_memory_needed { client_room self.old ≡ 0 → may_turn self.old ≡ false → IsOk result }
    {
        let taken = self.take_from_client(bytes)?;
        self.settle()?;
        Ok(taken)
    }

    fn take_from_client(&mut self, bytes: &[u8]) -> Result<usize, NoMemory>
        ensures goes { IfOk result (λ count. GoesBy (event.client bytes.now) (took count) self.old self.new) }
        ensures took { IfOk result (λ count. TakesAll count bytes.now (client_room self.old) self.old) }
        ensures serves { OnOk result (GoesOnServing self.old self.new) }
        ensures replies { IfOk result (λ count. PutsNothing (event.client bytes.now) (took count) self.old self.new) }
        ensures nothing { client_room self.old ≡ 0 → IsOk result × (self.new ≡ self.old) }
    {
        if self.client_room() == 0 {
            return Ok(0);
        }
        if !self.client.can_read() {
            return Ok(0);
        }
        let count = self.client.read(bytes)?;
        Ok(count)
    }

    /// Takes bytes that were read from the server, from the first on, and says how many: `server_room` at most.
    pub fn read_server(&mut self, bytes: &[u8]) -> Result<usize, NoMemory>
        ensures goes { IfOk result (λ count. GoesBy (event.server bytes.now) (took count) self.old self.new) }
        ensures took { IfOk result (λ count. TakesAll count bytes.now (server_room self.old) self.old) }
        ensures rests { OnOk result (Settles self.old self.new) }
        ensures serves { OnOk result (Serves self.old self.new) }
        ensures replies { IfOk result (λ count. Replies (event.server bytes.now) (took count) self.old self.new) }
        ensures no_memory_needed { server_room self.old ≡ 0 → may_turn self.old ≡ false → IsOk result }
    {
        let taken = self.take_from_server(bytes)?;
        self.settle()?;
        Ok(taken)
    }

    fn take_from_server(&mut self, bytes: &[u8]) -> Result<usize, NoMemory>
        ensures goes { IfOk result (λ count. GoesBy (event.server bytes.now) (took count) self.old self.new) }
        ensures took { IfOk result (λ count. TakesAll count bytes.now (server_room self.old) self.old) }
        ensures serves { OnOk result (GoesOnServing self.old self.new) }
        ensures replies { IfOk result (λ count. PutsNothing (event.server bytes.now) (took count) self.old self.new) }
        ensures nothing { server_room self.old ≡ 0 → IsOk result × (self.new ≡ self.old) }
    {
        if self.server_room() == 0 {
            return Ok(0);
        }
        if !self.can_read_server() {
            return Ok(0);
        }
        let Some(mut server) = self.server.take() else {
            return Ok(0);
        };
        let count = server.read(bytes)?;
        self.server = Some(server);
        Ok(count)
    }

    /// The client sends no more bytes.
    pub fn client_eof(&mut self) -> Result<(), NoMemory>
        ensures goes { OnOk result (GoesBy event.client_eof done self.old self.new) }
        ensures rests { OnOk result (Settles self.old self.new) }
        ensures serves { OnOk result (Serves self.old self.new) }
        ensures replies { OnOk result (Replies event.client_eof done self.old self.new) }
        ensures no_memory_needed { client_takes self.old on.eof ≡ false → may_turn self.old ≡ false → IsOk result }
    {
        self.end_client();
        self.settle()?;
        Ok(())
    }

    fn end_client(&mut self)
        ensures goes { GoesBy event.client_eof done self.old self.new }
        ensures serves { GoesOnServing self.old self.new }
        ensures replies { PutsNothing event.client_eof done self.old self.new }
        ensures nothing { client_takes self.old on.eof ≡ false → self.new ≡ self.old }
    {
        if !self.client.can_read() {
            return;
        }
        self.client.eof();
    }

    /// The server sends no more bytes.
    pub fn server_eof(&mut self) -> Result<(), NoMemory>
        requires can_read_server { IsTrue (server_allows (server_of self.old) asked.eof) }
        ensures goes { OnOk result (GoesBy event.server_eof done self.old self.new) }
        ensures rests { OnOk result (Settles self.old self.new) }
        ensures serves { OnOk result (Serves self.old self.new) }
        ensures replies { OnOk result (Replies event.server_eof done self.old self.new) }
        ensures no_memory_needed { holds_up (client_of self.old) ≡ true → IsOk result }
    {
        self.end_server();
        self.settle()?;
        Ok(())
    }

    fn end_server(&mut self)
        requires can_read_server { IsTrue (server_allows (server_of self.old) asked.eof) }
        ensures goes { GoesBy event.server_eof done self.old self.new }
        ensures serves { GoesOnServing self.old self.new }
        ensures replies { PutsNothing event.server_eof done self.old self.new }
    {
        let Some(mut server) = self.server.take() else {
            return;
        };
        server.eof();
        self.server = Some(server);
    }

    /// A server connection that is wanted is there, and nothing has come on it.
    pub fn connected(&mut self) -> Result<(), NoMemory>
        requires wants_server { IsTrue (wants_server self.old) }
        ensures goes { OnOk result (GoesBy event.connected done self.old self.new) }
        ensures rests { OnOk result (Settles self.old self.new) }
        ensures serves { OnOk result (Serves self.old self.new) }
        ensures replies { OnOk result (Replies event.connected done self.old self.new) }
        ensures no_memory_needed { holds_up (client_of self.old) ≡ true → IsOk result }
    {
        self.server = Some(ClientConnection::new(self.alloc, self.config.connections));
        self.settle()?;
        Ok(())
    }

    /// A server connection that is wanted can't be had: the client gets 502.
    pub fn refused(&mut self) -> Result<(), NoMemory>
        requires wants_server { IsTrue (wants_server self.old) }
        ensures goes { OnOk result (GoesBy event.refused done self.old self.new) }
        ensures rests { OnOk result (Settles self.old self.new) }
        ensures serves { OnOk result (Serves self.old self.new) }
        ensures replies { OnOk result (RepliesRefused self.old self.new) }
    {
        let unsent = self.unsent.take();
        self.sent = None;
        self.note_unsent(unsent);
        self.reply(Refusal::NoAnswer)?;
        self.settle()?;
        Ok(())
    }

    /// The first `count` bytes of `client_front` were written towards the client.
    pub fn advance_client(&mut self, count: usize) -> Result<(), NoMemory>
        requires can_write_client { IsTrue (client_takes self.old (on.write count)) }
        requires fits { count ≤ length (client_of self.old).kept.buffered }
        ensures goes { OnOk result (GoesBy (event.to_client count) (gave (take count (client_of self.old).kept.buffered)) self.old self.new) }
        ensures rests { OnOk result (Settles self.old self.new) }
        ensures serves { OnOk result (Serves self.old self.new) }
        ensures replies { OnOk result (Replies (event.to_client count) (gave (take count (client_of self.old).kept.buffered)) self.old self.new) }
    {
        self.client.advance(count);
        self.settle()?;
        Ok(())
    }

    /// The first `count` bytes of `server_front` were written towards the server.
    pub fn advance_server(&mut self, count: usize) -> Result<(), NoMemory>
        requires can_write_server { IsTrue (server_allows (server_of self.old) (asked.write count)) }
        requires fits { count ≤ length (server_text (server_of self.old)) }
        ensures goes { OnOk result (GoesBy (event.to_server count) (gave (take count (server_text (server_of self.old)))) self.old self.new) }
        ensures rests { OnOk result (Settles self.old self.new) }
        ensures serves { OnOk result (Serves self.old self.new) }
        ensures replies { OnOk result (Replies (event.to_server count) (gave (take count (server_text (server_of self.old)))) self.old self.new) }
        ensures no_memory_needed { holds_up (client_of self.old) ≡ true → IsOk result }
    {
        self.write_server(count);
        self.settle()?;
        Ok(())
    }

    fn write_server(&mut self, count: usize)
        requires can_write_server { IsTrue (server_allows (server_of self.old) (asked.write count)) }
        requires fits { count ≤ length (server_text (server_of self.old)) }
        ensures goes { GoesBy (event.to_server count) (gave (take count (server_text (server_of self.old)))) self.old self.new }
        ensures serves { GoesOnServing self.old self.new }
        ensures replies { PutsNothing (event.to_server count) (gave (take count (server_text (server_of self.old)))) self.old self.new }
    {
        let Some(mut server) = self.server.take() else {
            return;
        };
        server.advance(count);
        self.server = Some(server);
    }

    /// A moment has come, in milliseconds after the start of 1970. It says whether a time of the client's connection ran
    /// out.
    pub fn tick(&mut self, moment: u64) -> Result<Expiry, NoMemory>
        requires can_tick { IsTrue (client_takes self.old (on.tick moment)) }
        ensures goes { OnOk result (GoesBy (event.tick moment) done self.old self.new) }
        ensures rests { OnOk result (Settles self.old self.new) }
        ensures serves { OnOk result (Serves self.old self.new) }
        ensures replies { OnOk result (Replies (event.tick moment) done self.old self.new) }
        ensures expiry { IfOk result (λ expiry. (c : State) × GoesOn (client_of self.old) (on.tick moment) (Is (expiry_of expiry)) c) }
    {
        let expiry = self.client.tick(moment)?;
        self.moment = Some(moment);
        self.settle()?;
        Ok(expiry)
    }
}
