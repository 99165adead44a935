//! A client and a server, and the bytes between them.
ghost use Rattle.std.specs.Prelude.{◌≤◌};

use crate::talks::client::{Asking, client_word};
use crate::talks::server::{Serving, server_word};
use crate::talks::talk::Exchange;
use h1_client::ClientConnection;
use h1_connection::{Connection, NoMemory, ServiceConfig};
use std::alloc::Global;
use vectors::Report;

/// When a client asks its next request: once the one before it is answered, or as soon as it may.
#[derive(Clone, Copy, Debug, PartialEq, Eq)]
pub enum Way {
    InTurn,
    Ahead,
}

impl Way {
    /// The way in words, after a name.
    pub fn name(self) -> &'static str {
        match self {
            Way::InTurn => ", in turn",
            Way::Ahead => ", ahead",
        }
    }
}

/// How the bytes of each direction are handed over: as they come, in two, of which the first has so many, or one by one.
#[derive(Clone, Copy, Debug, PartialEq, Eq)]
pub enum Cut {
    Nowhere,
    At(usize),
    Everywhere,
}

/// What came of a talk, and how many bytes went in the direction that had more.
#[derive(Drop)]
pub struct Outcome {
    pub text: Report,
    pub most: usize,
}

// More turns than any talk has.
const TURNS: usize = 1_000_000;

/// Plays the talk, until nothing moves any more. Before more bytes are handed over, each end does all that it can.
pub fn play(alloc: Global, talk: &[Exchange], way: Way, cut: Cut) -> Outcome {
    let mut between = Between::new(alloc, cut);
    for _ in 0..TURNS {
        if !between.turn(talk, way) {
            break;
        }
    }
    between.outcome(alloc)
}

#[derive(Drop)]
struct Between {
    client: ClientConnection,
    server: Connection,
    asking: Asking,
    serving: Serving,
    cut: Cut,
    to_server: usize,
    to_client: usize,
}

impl Between {
    fn new(alloc: Global, cut: Cut) -> Between {
        let config = ServiceConfig::default();
        Between {
            client: ClientConnection::new(alloc, config),
            server: Connection::new(alloc, config),
            asking: Asking::new(alloc),
            serving: Serving::new(alloc),
            cut,
            to_server: 0,
            to_client: 0,
        }
    }

    // One step of an end, or else bytes that are handed over. It tells whether anything moved.
    fn turn(&mut self, talk: &[Exchange], way: Way) -> bool {
        let asked = self.asking.ask(&mut self.client, talk, way);
        let taken = self.asking.take(&mut self.client, talk);
        let served = self.serving.serve(&mut self.server, talk);
        if asked || taken || served {
            return true;
        }
        let to_server = self.carry_to_server();
        let to_client = self.carry_to_client();
        to_server || to_client
    }

    // Hands over bytes of the client, or its end. What a server doesn't read any more is lost.
    fn carry_to_server(&mut self) -> bool {
        if self.asking.end.is_some() {
            return end_input_of_server(&mut self.server);
        }
        if self.serving.end.is_some() {
            return lose_from_client(&mut self.client);
        }
        let waiting = self.client.front().len();
        let count = piece(self.cut, self.to_server, waiting);
        match pass_to_server(&mut self.client, &mut self.server, count) {
            Ok(taken) => {
                self.to_server = self.to_server.saturating_add(taken);
                taken > 0
            }
            Err(_) => self.serving.handed.lose(),
        }
    }

    // Hands over bytes of the server, or its end. What a client doesn't read any more is lost.
    fn carry_to_client(&mut self) -> bool {
        if self.serving.end.is_some() {
            return end_input_of_client(&mut self.client);
        }
        if self.asking.end.is_some() {
            return lose_from_server(&mut self.server);
        }
        let waiting = self.server.stretch().len();
        let count = piece(self.cut, self.to_client, waiting);
        match pass_to_client(&mut self.server, &mut self.client, count) {
            Ok(taken) => {
                self.to_client = self.to_client.saturating_add(taken);
                taken > 0
            }
            Err(_) => self.asking.handed.lose(),
        }
    }

    // What both handed out, and why each ended.
    fn outcome(&mut self, alloc: Global) -> Outcome {
        self.serving.handed.stop("open");
        self.asking.handed.stop("open");
        let mut text = Report::new(alloc);
        self.put_outcome(&mut text);
        Outcome {
            text,
            most: self.to_server.max(self.to_client),
        }
    }

    fn put_outcome(&self, text: &mut Report) {
        text.put_report(&self.serving.handed.text);
        text.put_report(&self.asking.handed.text);
        text.put_text("ends ");
        text.put_text(client_word(self.asking.end));
        text.put_text(" ");
        text.put_text(server_word(self.serving.end));
        text.put_text("\n");
    }
}

// How many of the bytes that wait are handed over next, where so many were before.
fn piece(cut: Cut, before: usize, waiting: usize) -> usize
    ensures { result ≤ waiting }
{
    match cut {
        Cut::At(place) if before < place => waiting.min(place - before),
        Cut::Nowhere | Cut::At(_) => waiting,
        Cut::Everywhere => waiting.min(1),
    }
}

// Hands over at most so many bytes of what the client wrote, and says how many the server took.
fn pass_to_server(
    client: &mut ClientConnection,
    server: &mut Connection,
    count: usize,
) -> Result<usize, NoMemory> {
    if count == 0 || !server.can_read() || !client.can_write() {
        return Ok(0);
    }
    let front = client.front();
    let taken = server.read(&front[..count.min(front.len())])?;
    if taken <= client.front().len() {
        client.advance(taken);
    }
    Ok(taken)
}

// Hands over at most so many bytes of what the server wrote, and says how many the client took.
fn pass_to_client(
    server: &mut Connection,
    client: &mut ClientConnection,
    count: usize,
) -> Result<usize, NoMemory> {
    if count == 0 || !client.can_read() || !server.can_write() {
        return Ok(0);
    }
    let front = server.stretch();
    let taken = client.read(&front[..count.min(front.len())])?;
    if taken <= server.buffered() {
        server.advance(taken);
    }
    Ok(taken)
}

fn end_input_of_server(server: &mut Connection) -> bool {
    if !server.can_read() {
        return false;
    }
    server.eof();
    true
}

fn end_input_of_client(client: &mut ClientConnection) -> bool {
    if !client.can_read() {
        return false;
    }
    client.eof();
    true
}

fn lose_from_client(client: &mut ClientConnection) -> bool {
    let count = client.front().len();
    if count == 0 || !client.can_write() {
        return false;
    }
    client.advance(count);
    true
}

fn lose_from_server(server: &mut Connection) -> bool {
    let count = server.buffered();
    if count == 0 || !server.can_write() {
        return false;
    }
    server.advance(count);
    true
}
