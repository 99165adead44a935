//! The client's part of a talk.
use crate::talks::ends::Way;
use crate::talks::handed::{Handed, put_lines, version_name};
use crate::talks::talk::{Body, Exchange};
use h1_client::{ClientConnection, ClientEnd, NextAnswer, ResponseItem};
use http_types::Version;
use std::alloc::Global;
use vectors::Report;

/// What a client did so far.
#[derive(Drop)]
pub struct Asking {
    /// What it handed out.
    pub handed: Handed,

    /// Why it ended, once it has.
    pub end: Option<ClientEnd>,

    // How many requests were asked, and how many final answers came: with their heads, and to their ends.
    asked: usize,
    begun: usize,
    answered: usize,

    // The newest request's body waits until the server tells it to go on.
    is_held_back: bool,
}

impl Asking {
    /// Nothing was done.
    pub fn new(alloc: Global) -> Asking {
        Asking {
            handed: Handed::new(alloc),
            end: None,
            asked: 0,
            begun: 0,
            answered: 0,
            is_held_back: false,
        }
    }

    /// Asks the next request with its body, where it may be asked. A body that waits to be told to go on is held back.
    pub fn ask(&mut self, client: &mut ClientConnection, talk: &[Exchange], way: Way) -> bool {
        if way == Way::InTurn && self.answered < self.asked {
            return false;
        }
        let Some(exchange) = talk.get(self.asked) else {
            return false;
        };
        let size = exchange.brought.size;
        if !client.can_ask(&exchange.asked.head, size) {
            return false;
        }
        if client.ask(&exchange.asked.head, size).is_err() {
            return self.handed.lose();
        }
        self.asked = self.asked.saturating_add(1);
        self.is_held_back = exchange.asked.head.expect();
        if !self.is_held_back {
            send_body(client, &exchange.brought, &mut self.handed);
        }
        true
    }

    /// Takes the next answer's head, more of its body, or the end. It tells whether something came.
    pub fn take(&mut self, client: &mut ClientConnection, talk: &[Exchange]) -> bool {
        if client.can_pull() {
            return self.pull(client, talk);
        }
        let is_closing = client.closing().is_some();
        if !client.can_next() || is_closing && !client.front().is_empty() {
            return false;
        }
        match client.next() {
            Ok(NextAnswer::Answer(item)) => self.take_answer(client, talk, &item),
            Ok(NextAnswer::Fault(_)) => self.handed.text.put_text("client fault\n"),
            Ok(NextAnswer::Pending) => return false,
            Ok(NextAnswer::Closed(end)) => self.end = Some(end),
            Err(_) => return self.handed.lose(),
        }
        true
    }

    fn take_answer(
        &mut self,
        client: &mut ClientConnection,
        talk: &[Exchange],
        item: &ResponseItem,
    ) {
        self.handed.stop("open");
        put_head(item, &mut self.handed.text);
        if item.head.status.is_informational() && item.head.status.as_u16() != 101 {
            self.take_interim(client, talk);
        } else {
            self.take_final(client);
        }
    }

    // The request waits on, and its body goes out.
    fn take_interim(&mut self, client: &mut ClientConnection, talk: &[Exchange]) {
        self.handed.text.put_text(" interim\n");
        if let Some(exchange) = talk.get(self.begun)
            && self.is_held_back
        {
            self.is_held_back = false;
            send_body(client, &exchange.brought, &mut self.handed);
        }
    }

    // The answer's body comes. A body that is still held back isn't wanted any more: the request fails.
    fn take_final(&mut self, client: &mut ClientConnection) {
        self.begun = self.begun.saturating_add(1);
        if self.is_held_back && self.begun == self.asked && client.can_end_body() {
            self.is_held_back = false;
            client.fail_body();
        }
        let has_body = client.can_pull();
        if !has_body {
            self.answered = self.answered.saturating_add(1);
        }
        self.handed.begin(has_body);
    }

    fn pull(&mut self, client: &mut ClientConnection, talk: &[Exchange]) -> bool {
        let is_wanted = match talk.get(self.answered) {
            Some(exchange) => !exchange.manner.drops_answer,
            None => true,
        };
        if !is_wanted && client.can_drop_body() {
            client.drop_body();
            self.answered = self.answered.saturating_add(1);
            self.handed.stop("dropped");
            return true;
        }
        if !client.can_pull() {
            return false;
        }
        let came = self.handed.take(&client.pull());
        if came && !client.can_pull() {
            self.answered = self.answered.saturating_add(1);
        }
        came
    }
}

fn put_head(item: &ResponseItem, text: &mut Report) {
    text.put_text("client ");
    text.put_decimal(u64::from(item.head.status.as_u16()));
    text.put_text(" ");
    text.put_quoted(item.reason.as_slice());
    text.put_text(version_name(item.head.version < Version::HTTP_11));
    put_lines(item.head.headers(), text);
}

fn send_body(client: &mut ClientConnection, body: &Body, handed: &mut Handed) {
    for piece in body.pieces.iter() {
        if client.can_chunk() {
            handed.keeps(client.chunk(piece.as_slice()));
        }
    }
    if client.can_end_body() {
        if body.fails {
            client.fail_body();
        } else {
            handed.keeps(client.end_body());
        }
    }
}

/// Why a client ended, in a word.
pub fn client_word(end: Option<ClientEnd>) -> &'static str {
    match end {
        None => "open",
        Some(ClientEnd::BadAnswer) => "bad-answer",
        Some(ClientEnd::LargeAnswer) => "large-answer",
        Some(ClientEnd::BrokenAnswer) => "broken-answer",
        Some(ClientEnd::FailedRequest) => "failed-request",
        Some(ClientEnd::Asked) => "asked",
        Some(ClientEnd::Unasked) => "unasked",
        Some(ClientEnd::InputEnded) => "input-ended",
    }
}
