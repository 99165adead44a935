//! A forwarder that always has a history.
ghost use Rattle.std.specs.Prelude.{◌≡◌, ◌≤◌, [], take, min, length, is_some, IsTrue, IfOk, OnOk};
ghost use Rattle.model_h1.specs.Event as on;
ghost use Rattle.model_client.specs.ClientEvent as asked;
ghost use Rattle.model_proxy.specs.Past.{took, gave, done};
ghost use Rattle.model_proxy.specs.Past as event;
ghost use Rattle.model_proxy.specs.Happenings.{nothing_happened};
ghost use Rattle.proxy.specs.Kept.{Forwards, Goes, client_of, server_of, server_text, client_takes, client_room, server_room, server_allows, wants_server};
ghost use Rattle.proxy.specs.Rests.{IsNoted};
ghost use Rattle.proxy.specs.Served.{IsServed};
ghost use Rattle.proxy_loop.specs.History.{ForwarderDoes, EndsServer, Connects, Refuses, Ticks};

use proxy::{BegunReply, Edge, Expiry, NoMemory, Proxy, ProxyConfig, ServiceConfig};
use std::alloc::Global;
use std::marker::Model;

/// A forwarder, of which it always holds that it stands for what happened after some events: nothing but the calls below
/// changes it. Once memory ran out in one of them it is a new one, to which nothing happened, so its sockets have to be
/// closed.
///
/// A clause sees it as its proxy.
#[derive(Drop)]
pub struct Forwarder {
    alloc: Global,
    connections: ServiceConfig,
    proxy: Proxy,
}

impl Model for Forwarder {
    ghost use Rattle.proxy.specs.declared.proxy.Proxy.{Proxy};
    ghost use Rattle.proxy_loop.specs.History.{HasHistory};

    ghost Value = { Proxy };

    ghost view = { λ f. f.proxy };

    ghost invariant = { λ f. HasHistory f.proxy };
}

impl Forwarder {
    /// A forwarder to which nothing happened. It takes no memory.
    #[tactic(auto, using(crate::proofs::Histories::begins))]
    pub fn new(alloc: Global, config: ProxyConfig) -> Forwarder
        ensures forwards { Forwards result [] nothing_happened }
        ensures served { IsServed result }
    {
        let connections = config.connections;
        Forwarder {
            alloc,
            connections,
            proxy: Proxy::new(alloc, config),
        }
    }

    /// What it says of itself.
    pub fn proxy(&self) -> &Proxy
        ensures { result.now ≡ self.now }
    {
        &self.proxy
    }

    /// From now on its replies are noted, and are to be taken after each event.
    pub fn note_replies(&mut self)
        ensures goes { Goes self.old self.new }
        ensures noted { IsNoted self.old self.new }
    {
        self.proxy.note_replies();
    }

    /// The replies that were begun since they were last taken, in order.
    pub fn take_replies(&mut self) -> Vec<BegunReply>
        ensures goes { Goes self.old self.new }
        ensures noted { IsNoted self.old self.new }
    {
        self.proxy.take_replies()
    }

    /// Takes bytes that were read from the client, from the first on, and says how many.
    #[tactic(auto, using(crate::proofs::Histories::begins))]
    pub fn read_client(&mut self, bytes: &[u8]) -> Result<usize, NoMemory>
        ensures goes { IfOk result (λ count. ForwarderDoes (event.client bytes.now) (took count) self.old self.new) }
        ensures took { IfOk result (λ count. count ≡ min (length bytes.now) (client_room self.old)) }
    {
        match self.proxy.read_client(bytes) {
            Ok(count) => Ok(count),
            Err(error) => {
                self.proxy = Proxy::new(self.alloc, unknown(self.connections));
                Err(error)
            }
        }
    }

    /// Takes bytes that were read from the server, from the first on, and says how many.
    #[tactic(auto, using(crate::proofs::Histories::begins))]
    pub fn read_server(&mut self, bytes: &[u8]) -> Result<usize, NoMemory>
        ensures goes { IfOk result (λ count. ForwarderDoes (event.server bytes.now) (took count) self.old self.new) }
        ensures took { IfOk result (λ count. count ≡ min (length bytes.now) (server_room self.old)) }
    {
        match self.proxy.read_server(bytes) {
            Ok(count) => Ok(count),
            Err(error) => {
                self.proxy = Proxy::new(self.alloc, unknown(self.connections));
                Err(error)
            }
        }
    }

    /// The client sends no more bytes.
    #[tactic(auto, using(crate::proofs::Histories::begins))]
    pub fn client_eof(&mut self) -> Result<(), NoMemory>
        ensures goes { OnOk result (ForwarderDoes event.client_eof done self.old self.new) }
    {
        match self.proxy.client_eof() {
            Ok(()) => Ok(()),
            Err(error) => {
                self.proxy = Proxy::new(self.alloc, unknown(self.connections));
                Err(error)
            }
        }
    }

    /// The server sends no more bytes. That is told where its connection is there and hasn't ended before; it says whether it was.
    #[tactic(auto, using(crate::proofs::Histories::begins))]
    pub fn server_eof(&mut self) -> Result<bool, NoMemory>
        ensures goes { OnOk result (EndsServer self.old self.new) }
        ensures told { IfOk result (λ told. told ≡ server_allows (server_of self.old) asked.eof) }
    {
        if !self.proxy.can_read_server() {
            return Ok(false);
        }
        match self.proxy.server_eof() {
            Ok(()) => Ok(true),
            Err(error) => {
                self.proxy = Proxy::new(self.alloc, unknown(self.connections));
                Err(error)
            }
        }
    }

    /// A server connection is there on which nothing has come. That is told where one is wanted; it says whether it was.
    #[tactic(auto, using(crate::proofs::Histories::begins))]
    pub fn connected(&mut self) -> Result<bool, NoMemory>
        ensures goes { OnOk result (Connects self.old self.new) }
        ensures told { IfOk result (λ told. told ≡ wants_server self.old) }
    {
        if !self.proxy.wants_server() {
            return Ok(false);
        }
        match self.proxy.connected() {
            Ok(()) => Ok(true),
            Err(error) => {
                self.proxy = Proxy::new(self.alloc, unknown(self.connections));
                Err(error)
            }
        }
    }

    /// A server connection can't be had. That is told where one is wanted; it says whether it was.
    #[tactic(auto, using(crate::proofs::Histories::begins))]
    pub fn refused(&mut self) -> Result<bool, NoMemory>
        ensures goes { OnOk result (Refuses self.old self.new) }
        ensures told { IfOk result (λ told. told ≡ wants_server self.old) }
    {
        if !self.proxy.wants_server() {
            return Ok(false);
        }
        match self.proxy.refused() {
            Ok(()) => Ok(true),
            Err(error) => {
                self.proxy = Proxy::new(self.alloc, unknown(self.connections));
                Err(error)
            }
        }
    }

    /// The first `count` bytes that waited towards the client were written.
    #[tactic(auto, using(crate::proofs::Histories::begins))]
    pub fn advance_client(&mut self, count: usize) -> Result<(), NoMemory>
        requires can_write_client { IsTrue (client_takes self.old (on.write count)) }
        requires fits { count ≤ length (client_of self.old).kept.buffered }
        ensures goes { OnOk result (ForwarderDoes (event.to_client count) (gave (take count (client_of self.old).kept.buffered)) self.old self.new) }
    {
        match self.proxy.advance_client(count) {
            Ok(()) => Ok(()),
            Err(error) => {
                self.proxy = Proxy::new(self.alloc, unknown(self.connections));
                Err(error)
            }
        }
    }

    /// The first `count` bytes that waited towards the server were written.
    #[tactic(auto, using(crate::proofs::Histories::begins))]
    pub fn advance_server(&mut self, count: usize) -> Result<(), NoMemory>
        requires can_write_server { IsTrue (server_allows (server_of self.old) (asked.write count)) }
        requires fits { count ≤ length (server_text (server_of self.old)) }
        ensures goes { OnOk result (ForwarderDoes (event.to_server count) (gave (take count (server_text (server_of self.old)))) self.old self.new) }
    {
        match self.proxy.advance_server(count) {
            Ok(()) => Ok(()),
            Err(error) => {
                self.proxy = Proxy::new(self.alloc, unknown(self.connections));
                Err(error)
            }
        }
    }

    /// A moment has come, in milliseconds since 1970, where it may be told. It says whether a time of the client's
    /// connection ran out, and nothing where it wasn't told.
    #[tactic(auto, using(crate::proofs::Histories::begins))]
    pub fn tick(&mut self, moment: u64) -> Result<Option<Expiry>, NoMemory>
        ensures goes { OnOk result (Ticks moment self.old self.new) }
        ensures told { IfOk result (λ expiry. is_some expiry ≡ client_takes self.old (on.tick moment)) }
    {
        if !self.proxy.can_tick(moment) {
            return Ok(None);
        }
        match self.proxy.tick(moment) {
            Ok(expiry) => Ok(Some(expiry)),
            Err(error) => {
                self.proxy = Proxy::new(self.alloc, unknown(self.connections));
                Err(error)
            }
        }
    }
}

// That of a forwarder that is done with.
fn unknown(connections: ServiceConfig) -> ProxyConfig {
    ProxyConfig {
        connections,
        edge: Edge::unknown(),
    }
}
