//! The socket of a client's connection to the server.
ghost use Rattle.std.specs.Prelude.{OnOk};
ghost use Rattle.app_proxy.specs.Links.{GivesUp, GivesBack, Finishes};

use crate::flow::{break_off, hear_server, tell_server};
use crate::slot::Shared;
use crate::standing::{Ready, Standing};
use crate::upstream::Begun;
use mio::net::TcpStream;
use net_sockets::{Incoming, Outgoing};
use proxy_loop::{Forwarder, NoMemory, Proxy};
use std::mem;

/// The socket to the server.
#[derive(Drop)]
pub enum Link {
    None,

    /// It is there once it may be written.
    Connecting(TcpStream),
    Open(TcpStream),
}

impl Link {
    /// Whether the server has to move next: a connection is to come about, bytes are to be taken, or an answer is to go on
    /// whose client isn't to send.
    pub fn is_awaited(&self, proxy: &Proxy) -> bool {
        match self {
            Link::None => false,
            Link::Connecting(_) => true,
            Link::Open(_) => {
                let is_client_awaited = proxy.is_to_send() && proxy.server_front().is_empty();
                !proxy.is_reusable() && proxy.server_room() > 0 && !is_client_awaited
            }
        }
    }

    /// Connects where that is wanted, and says whether something moved. The token names the socket to the poll.
    pub fn connect(
        &mut self,
        forwarder: &mut Forwarder,
        standing: &mut Standing,
        shared: &mut Shared,
        token: usize,
    ) -> Result<bool, NoMemory> {
        if let Link::Connecting(stream) = self {
            if !standing.server.may_write {
                return Ok(false);
            }
            let is_there = is_connected(stream);
            self.finish(forwarder, is_there)?;
            return Ok(true);
        }
        if !forwarder.proxy().wants_server() {
            return Ok(false);
        }
        standing.server_moved = shared.uptime;
        standing.server = Ready::unknown();
        self.begin(forwarder, standing, shared, token)?;
        Ok(true)
    }

    // Begins a connection.
    fn begin(
        &mut self,
        forwarder: &mut Forwarder,
        standing: &mut Standing,
        shared: &mut Shared,
        token: usize,
    ) -> Result<(), NoMemory> {
        let begun = shared
            .upstream
            .begin(&shared.poll, token, &shared.limits, shared.uptime);
        match begun {
            Begun::Open(stream) => {
                standing.server.may_write = true;
                *self = Link::Open(stream);
                forwarder.connected()?;
            }
            Begun::Connecting(stream) => *self = Link::Connecting(stream),
            Begun::None => {
                forwarder.refused()?;
            }
        }
        Ok(())
    }

    // A connection was begun, and is there or can't be had. One that isn't wanted any more is closed.
    fn finish(&mut self, forwarder: &mut Forwarder, is_there: bool) -> Result<(), NoMemory>
        ensures { OnOk result (Finishes self.old is_there forwarder.old self.new forwarder.new) }
    {
        let stream = match mem::replace(self, Link::None) {
            Link::Connecting(stream) => stream,
            link => {
                *self = link;
                return Ok(());
            }
        };
        if !is_there {
            forwarder.refused()?;
            return Ok(());
        }
        if forwarder.connected()? {
            *self = Link::Open(stream);
        }
        Ok(())
    }

    /// Reads from the server, where that may bring something, and says whether something moved.
    pub fn read(
        &self,
        forwarder: &mut Forwarder,
        standing: &mut Standing,
        shared: &mut Shared,
    ) -> Result<bool, NoMemory> {
        let Link::Open(stream) = self else {
            return Ok(false);
        };
        if !standing.server.may_read {
            return Ok(false);
        }
        let mut source = Incoming::new(stream);
        hear_server(
            forwarder,
            standing,
            &mut source,
            &mut shared.room,
            shared.uptime,
        )
    }

    /// Writes what waits towards the server, and says whether something moved.
    pub fn write(
        &self,
        forwarder: &mut Forwarder,
        standing: &mut Standing,
        uptime: u64,
    ) -> Result<bool, NoMemory> {
        let Link::Open(stream) = self else {
            return Ok(false);
        };
        if !standing.server.may_write || forwarder.proxy().server_front().is_empty() {
            return Ok(false);
        }
        let mut sink = Outgoing::new(stream);
        tell_server(forwarder, standing, &mut sink, uptime)
    }

    /// The server isn't waited for any longer: the client gets 502, or is let go where an answer is under way, which so is
    /// never taken for a whole one.
    pub fn give_up(
        &mut self,
        forwarder: &mut Forwarder,
        standing: &mut Standing,
    ) -> Result<(), NoMemory>
        ensures { OnOk result (GivesUp self.old self.new forwarder.old standing.old.stage standing.new.stage forwarder.new) }
    {
        if let Link::Connecting(_) = self {
            return self.finish(forwarder, false);
        }
        break_off(forwarder, standing)
    }

    /// Gives a connection on which nothing is under way back, which was last in use at this moment of uptime. The forwarder is
    /// told that it has ended.
    pub fn give_back(
        &mut self,
        forwarder: &mut Forwarder,
        shared: &mut Shared,
        used: u64,
    ) -> Result<(), NoMemory>
        ensures { OnOk result (GivesBack self.old self.new forwarder.old forwarder.new) }
    {
        if !forwarder.proxy().is_reusable() {
            return Ok(());
        }
        forwarder.server_eof()?;
        match mem::replace(self, Link::None) {
            Link::Open(stream) => {
                shared
                    .upstream
                    .keep(&shared.poll, stream, &shared.limits, used)
            }
            Link::None | Link::Connecting(_) => Ok(()),
        }
    }

    /// A socket whose connection the forwarder has closed is closed.
    pub fn close_unused(&mut self, proxy: &Proxy) {
        if let Link::Open(_) = self
            && !proxy.has_server()
        {
            *self = Link::None;
        }
    }
}

// Whether a connection that was begun is there.
fn is_connected(stream: &TcpStream) -> bool {
    matches!(stream.take_error(), Ok(None)) && stream.peer_addr().is_ok()
}
