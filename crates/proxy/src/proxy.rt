//! A forwarder: what it keeps, and what it says of itself.
ghost use Rattle.std.specs.Prelude.{◌≡◌, ◌≤◌, ◌++◌, ℕ, List, [], length, true, false, None, is_some, option_map, IfOk};
ghost use Rattle.model_h1.specs.Event as on;
ghost use Rattle.model_h1.specs.Request.{Head};
ghost use Rattle.model_h1.specs.Answer.{asked_of};
ghost use Rattle.h1_decoder.specs.HeadItem.{SaysHead};
ghost use Rattle.model_proxy.specs.Forward.{is_forwardable};
ghost use Rattle.model_client.specs.ClientEvent as asked;
ghost use Rattle.h1_connection.specs.EventMeaning.{setting_of, end_of};
ghost use Rattle.h1_connection.specs.State.{fresh_state};
ghost use Rattle.model_state.specs.Deadline.{deadline_by};
ghost use Rattle.model_state.specs.Local.{closing_by};
ghost use Rattle.model_state.specs.Runs.{first_segment};
ghost use Rattle.model_proxy.specs.Happenings.{nothing_happened};
ghost use Rattle.proxy_heads.specs.Edges.{edge_of};
ghost use Rattle.proxy.specs.Served.{IsServed};
ghost use Rattle.proxy.specs.Kept.{client_of, server_of, Forwards, IsUnsent, is_closing, wants_server, server_text, server_allows, client_takes, client_room, server_room, is_idle, is_to_send, is_draining, is_reusable, is_answering, may_be_gone};

use crate::notes::Notes;
use h1_client::ClientConnection;
use h1_connection::{BodySize, Connection, End, HeadItem, NoMemory, RequestHead, ServiceConfig};
use proxy_heads::{Edge, forwarded_head, forwarded_size};
use std::alloc::Global;

/// Where so many bytes wait towards a side, nothing more is taken from the other side, and nothing more goes to it: 32768.
pub(crate) const MAX_WAITING: usize = 32768;

/// What a forwarder is set up with.
#[derive(Drop)]
pub struct ProxyConfig {
    /// The settings of the client's connection, and of each to a server.
    pub connections: ServiceConfig,

    /// What servers are told of the client, and how its heads are judged.
    pub edge: Edge,
}

/// A client's connection beside one to a server, which reads nothing and writes nothing itself.
///
/// After an error, which is that memory ran out, it is done with.
#[derive(Drop)]
pub struct Proxy {
    pub(crate) alloc: Global,
    pub(crate) config: ProxyConfig,

    /// The client's connection.
    pub(crate) client: Connection,

    /// The connection to a server, while there is one.
    pub(crate) server: Option<ClientConnection>,

    /// The request that waits for a server connection.
    pub(crate) unsent: Option<Unsent>,

    /// The request that was sent, until its reply is complete.
    pub(crate) sent: Option<SentRequest>,

    /// The last moment that was told.
    pub(crate) moment: Option<u64>,

    /// What was replied, where it is noted.
    pub(crate) notes: Notes,
}

/// A request that is to be sent on.
#[derive(Drop)]
pub(crate) struct Unsent {
    pub(crate) head: RequestHead,
    pub(crate) size: BodySize,
    pub(crate) sent: SentRequest,
}

/// What is kept of a request that was sent on.
#[derive(Clone, Copy)]
pub(crate) struct SentRequest {
    /// Its method is HEAD.
    pub(crate) is_head: bool,

    /// The end of its body was handed to the server's connection.
    pub(crate) is_whole: bool,

    /// Its body broke, or was cut.
    pub(crate) is_broken: bool,

    /// The head of its answer was passed on.
    pub(crate) is_answered: bool,

    /// Its server closes the connection after the answer.
    pub(crate) closes: bool,
}

impl Unsent {
    pub(crate) fn new(alloc: Global, edge: &Edge, item: HeadItem) -> Result<Unsent, NoMemory>
        ensures unsent { IfOk result (λ unsent. (h : Head) → SaysHead item h → is_forwardable (edge_of edge.now) h ≡ true
            → IsUnsent (edge_of edge.now) unsent h) }
        ensures unanswered { IfOk result (λ unsent. unsent.sent.is_answered ≡ false) }
        ensures asked { IfOk result (λ unsent. (h : Head) → SaysHead item h → unsent.sent.is_head ≡ (asked_of h).is_head) }
    {
        let sent = SentRequest {
            is_head: item.is_head(),
            is_whole: !item.has_body(),
            is_broken: false,
            is_answered: false,
            closes: false,
        };
        let size = forwarded_size(&item);
        let head = forwarded_head(alloc, edge, item)?;
        Ok(Unsent { head, size, sent })
    }
}

impl Proxy {
    /// A forwarder to which nothing has happened yet, without a server connection. It takes no memory.
    pub fn new(alloc: Global, config: ProxyConfig) -> Proxy
        ensures config { result.config ≡ config }
        ensures client { client_of result ≡ fresh_state config.connections }
        ensures server { server_of result ≡ None }
        ensures forwards { Forwards result [] nothing_happened }
        ensures serves { IsServed result }
    {
        let client = Connection::new(alloc, config.connections);
        Proxy {
            alloc,
            config,
            client,
            server: None,
            unsent: None,
            sent: None,
            moment: None,
            notes: Notes::new(alloc),
        }
    }

    /// Whether there is a server connection. Any event may close it: then who owns it closes its socket.
    pub fn has_server(&self) -> bool
        ensures { result ≡ is_some (server_of self.now) }
    {
        self.server.is_some()
    }

    /// Whether a server connection is wanted: a request waits for one, there is none, and the client's connection isn't to
    /// end. Then comes `connected` or `refused`.
    pub fn wants_server(&self) -> bool
        ensures { result ≡ wants_server self.now }
    {
        self.unsent.is_some() && self.server.is_none() && !self.is_closing()
    }

    pub(crate) fn is_closing(&self) -> bool
        ensures { result ≡ is_closing self.now }
    {
        self.client.closing().is_some()
    }

    /// Whether the server connection may serve another request, of another client too: nothing of it is under way.
    pub fn is_reusable(&self) -> bool
        ensures { result ≡ is_reusable self.now }
    {
        match &self.server {
            Some(server) => self.sent.is_none() && server.is_reusable(),
            None => false,
        }
    }

    /// Whether a reply that isn't the forwarder's own was begun, and isn't complete: the head of an answer was passed on.
    pub fn is_answering(&self) -> bool
        ensures { result ≡ is_answering self.now }
    {
        match self.sent {
            Some(sent) => sent.is_answered,
            None => false,
        }
    }

    /// Why the client's connection is to end, if it is. Once nothing waits towards the client any more, it has ended.
    pub fn closing(&self) -> Option<End>
        ensures { option_map end_of result ≡ closing_by (setting_of (client_of self.now).settings) (client_of self.now).kept }
    {
        self.client.closing()
    }

    /// The least moment whose tick would tell that a time of the client's connection has run out.
    pub fn deadline(&self) -> Option<u64>
        ensures { result ≡ deadline_by (setting_of (client_of self.now).settings) (client_of self.now).kept }
    {
        self.client.deadline()
    }

    /// What is to be written towards the client next, oldest first: the first segment at least, and nothing only where
    /// nothing waits.
    pub fn client_front(&self) -> &[u8]
        ensures first { (rest : List ℕ) × (result.now ++ rest ≡ (client_of self.now).kept.buffered) }
        ensures fits { length result.now ≤ length (client_of self.now).kept.buffered }
        ensures some { length result.now ≡ 0 → length (client_of self.now).kept.buffered ≡ 0 }
        ensures segment { length (first_segment (client_of self.now).marks (client_of self.now).kept.buffered) ≤ length result.now }
    {
        self.client.stretch()
    }

    /// What is to be written towards the server, oldest first: nothing where there is no connection to one.
    pub fn server_front(&self) -> &[u8]
        ensures { result.now ≡ server_text (server_of self.now) }
    {
        match &self.server {
            Some(server) => server.front(),
            None => &[],
        }
    }

    /// Whether a moment may come: it isn't before the last one.
    pub fn can_tick(&self, moment: u64) -> bool
        ensures { result ≡ client_takes self.now (on.tick moment) }
    {
        self.client.can_tick(moment)
    }

    /// Whether bytes may be written towards the client: all the time but once its connection is given up.
    pub fn can_write_client(&self) -> bool
        ensures { (limit : ℕ) → result ≡ client_takes self.now (on.write limit) }
    {
        self.client.can_write()
    }

    /// Whether there is a server connection, and bytes may be written towards it.
    pub fn can_write_server(&self) -> bool
        ensures { (limit : ℕ) → result ≡ server_allows (server_of self.now) (asked.write limit) }
    {
        match &self.server {
            Some(server) => server.can_write(),
            None => false,
        }
    }

    /// Whether there is a server connection whose input hasn't ended.
    pub fn can_read_server(&self) -> bool
        ensures read { (bytes : List ℕ) → result ≡ server_allows (server_of self.now) (asked.read bytes) }
        ensures eof { result ≡ server_allows (server_of self.now) asked.eof }
    {
        match &self.server {
            Some(server) => server.can_read(),
            None => false,
        }
    }

    /// The most bytes that a read from the client takes now: none while 32768 wait towards the server.
    pub fn client_room(&self) -> usize
        ensures { result ≡ client_room self.now }
    {
        if self.is_closing()
            || !self.client.can_read()
            || self.server_front().len() >= MAX_WAITING
        {
            return 0;
        }
        self.client.read_room()
    }

    /// Whether the client is to send more: there is room for it, and nothing waits for it to take. Of a body that is read all
    /// that came was passed on; or no request is under way, and a head is begun, or the rest of a body is dropped.
    pub fn is_to_send(&self) -> bool
        ensures { result ≡ is_to_send self.now }
    {
        if self.client_room() == 0 {
            return false;
        }
        if self.client.buffered() > 0 {
            return false;
        }
        let has_unread = self.client.held() > 0;
        if self.client.can_pull() {
            return !has_unread;
        }
        let is_idle = self.is_idle();
        let can_next = self.client.can_next();
        is_idle && (!can_next || has_unread)
    }

    /// Whether the reply is whole and was taken, and the rest of its request's body is dropped.
    pub fn is_draining(&self) -> bool
        ensures { result ≡ is_draining self.now }
    {
        if self.is_closing() {
            return false;
        }
        if self.client.buffered() > 0 {
            return false;
        }
        let is_idle = self.is_idle();
        let can_next = self.client.can_next();
        is_idle && !can_next
    }

    /// Whether the client's input has ended while no answer to its request has begun. Nothing tells such a client from one
    /// that has gone.
    pub fn may_be_gone(&self) -> bool
        ensures { result ≡ may_be_gone self.now }
    {
        if self.client.can_read() {
            return false;
        }
        if self.is_closing() {
            return false;
        }
        let is_idle = self.is_idle();
        let is_answering = self.is_answering();
        !is_idle && !is_answering
    }

    fn is_idle(&self) -> bool
        ensures { result ≡ is_idle self.now }
    {
        self.unsent.is_none() && self.sent.is_none()
    }

    /// The most bytes that a read from the server takes now: none while 32768 wait towards the client.
    pub fn server_room(&self) -> usize
        ensures { result ≡ server_room self.now }
    {
        if self.client.buffered() >= MAX_WAITING {
            return 0;
        }
        match &self.server {
            Some(server) if server.can_read() => server.read_room(),
            _ => 0,
        }
    }
}
