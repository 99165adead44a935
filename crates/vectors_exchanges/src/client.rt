//! Exchanges of a client's side of a connection, each whole and in pieces of each size: what its caller does, and what each
//! call gives. A file has blocks; the crate's page says what their lines mean.
mod answers;
mod bodies;
mod requests;

use crate::client::answers::{end_word, put_next};
use crate::client::bodies::Body;
use crate::client::requests::{ask, chunk, end_body, fail_body};
use h1_client::ClientConnection;
use http_types::{ServiceConfig, ServiceConfigBuilder};
use std::alloc::Global;
use vectors::{CaseError, Cursor, PiecePlayer, Report, read_joined};

/// A long read is brought in pieces of at least this part of it.
const LONG_READ_PARTS: usize = 256;

/// What is written where a call may not be made.
pub const MISPLACED: &str = "misplaced";

/// The longest pieces in which what is read is brought, besides whole.
const LONGEST_PIECE: usize = 24;

/// Plays exchanges of a client's side.
#[derive(Clone, Copy, Debug)]
pub struct ClientExchanges;

impl PiecePlayer for ClientExchanges {
    fn kind(&self) -> &str {
        "exchanges"
    }

    fn longest_piece(&self, _script: &[&[u8]]) -> usize {
        LONGEST_PIECE
    }

    fn play(
        &self,
        alloc: Global,
        script: &[&[u8]],
        size: usize,
        found: &mut Report,
    ) -> Result<(), CaseError> {
        let mut client = Client {
            connection: ClientConnection::new(alloc, ServiceConfig::default()),
            body: Body::new(alloc),
        };
        client.take_all(alloc, script, size, found)
    }
}

#[derive(Drop)]
struct Client {
    connection: ClientConnection,

    // What was pulled of a body and not told.
    body: Body,
}

impl Client {
    // Does what the lines say, and writes what each gets.
    fn take_all(
        &mut self,
        alloc: Global,
        script: &[&[u8]],
        size: usize,
        found: &mut Report,
    ) -> Result<(), CaseError> {
        for line in script {
            self.take(alloc, line, size, found)?;
            found.put_text("\n");
        }
        Ok(())
    }

    // Does what the line says, and writes what that gets.
    fn take(
        &mut self,
        alloc: Global,
        line: &[u8],
        size: usize,
        found: &mut Report,
    ) -> Result<(), CaseError> {
        let mut cursor = Cursor::new(line);
        let word = cursor.word();
        cursor.pass_blanks();
        match word {
            b"config" => self.configure(alloc, cursor, found),
            b"read" => self.read(alloc, cursor, size, found),
            b"write" => self.write(cursor, found),
            b"tick" => self.tick(cursor, found),
            b"ask" => ask(alloc, &mut self.connection, false, cursor, found),
            b"ask-camel" => ask(alloc, &mut self.connection, true, cursor, found),
            b"chunk" => {
                let bytes = read_joined(alloc, &mut cursor)?;
                chunk(&mut self.connection, bytes.as_slice(), found);
                Ok(())
            }
            _ => self.plain(word, found),
        }
    }

    // The events that have no words but their name.
    fn plain(&mut self, word: &[u8], found: &mut Report) -> Result<(), CaseError> {
        match word {
            b"end" => end_body(&mut self.connection, found),
            b"fail" => fail_body(&mut self.connection, found),
            b"eof" => self.eof(found),
            b"next" => put_next(&mut self.connection, found),
            b"body" => self.body.tell(&mut self.connection, found),
            b"drop" => self.body.drop_rest(&mut self.connection, found),
            b"front" => found.put_quoted(self.connection.front()),
            b"state" => self.state(found),
            _ => return Err(CaseError::Unreadable),
        }
        Ok(())
    }

    // `config HOLD WRITE`: begins anew, with so many bytes of input that may be held, and of output that may wait.
    fn configure(
        &mut self,
        alloc: Global,
        cursor: Cursor<'_>,
        found: &mut Report,
    ) -> Result<(), CaseError> {
        let config = config_of(cursor).ok_or(CaseError::Unreadable)?;
        self.connection = ClientConnection::new(alloc, config);
        found.put_text("done");
        Ok(())
    }

    // `read "BYTES"`: the bytes come from the server.
    fn read(
        &mut self,
        alloc: Global,
        mut cursor: Cursor<'_>,
        size: usize,
        found: &mut Report,
    ) -> Result<(), CaseError> {
        let bytes = read_joined(alloc, &mut cursor)?;
        self.bring(bytes.as_slice(), size, found);
        Ok(())
    }

    // Brings the bytes, and says how many were taken where there was no room for all. Between two pieces the body that
    // is being read is pulled.
    fn bring(&mut self, bytes: &[u8], size: usize, found: &mut Report) {
        if !self.connection.can_read() {
            return found.put_text(MISPLACED);
        }
        let size = size.max(bytes.len() / LONG_READ_PARTS);
        let mut taken = 0usize;
        let mut rest = bytes;
        for _ in 0..bytes.len() {
            if rest.is_empty() || !self.connection.can_read() {
                break;
            }
            let (piece, others) = rest.split_at(size.min(rest.len()));
            let Ok(count) = self.connection.read(piece) else {
                return found.lose();
            };
            taken = taken.saturating_add(count);
            if count < piece.len() {
                found.put_text("took ");
                return found.put_decimal(taken as u64);
            }
            rest = others;
            if !rest.is_empty() {
                self.body.pull(&mut self.connection);
            }
        }
        found.put_text("done");
    }

    fn eof(&mut self, found: &mut Report) {
        if !self.connection.can_read() {
            return found.put_text(MISPLACED);
        }
        self.connection.eof();
        found.put_text("done");
    }

    // `write N`: at most so many bytes of what waits go out.
    fn write(&mut self, mut cursor: Cursor<'_>, found: &mut Report) -> Result<(), CaseError> {
        let limit = cursor.number().ok_or(CaseError::Unreadable)?;
        self.write_out(limit, found);
        Ok(())
    }

    fn write_out(&mut self, limit: usize, found: &mut Report) {
        if !self.connection.can_write() {
            return found.put_text(MISPLACED);
        }
        let front = self.connection.front();
        let count = limit.min(front.len());
        found.put_text("gave ");
        found.put_quoted(&front[..count]);
        self.connection.advance(count);
    }

    // `tick N`: a moment, in milliseconds.
    fn tick(&mut self, mut cursor: Cursor<'_>, found: &mut Report) -> Result<(), CaseError> {
        let moment = cursor.number().ok_or(CaseError::Unreadable)? as u64;
        if self.connection.can_tick(moment) {
            self.connection.tick(moment);
            found.put_text("done");
        } else {
            found.put_text(MISPLACED);
        }
        Ok(())
    }

    // Why the connection closes, or whether a pool may keep it, and how many requests wait for their answers.
    fn state(&self, found: &mut Report) {
        match self.connection.closing() {
            Some(end) => found.put_text(end_word(end)),
            None if self.connection.is_reusable() => found.put_text("reusable"),
            None => found.put_text("open"),
        }
        found.put_text(" ");
        found.put_decimal(self.connection.waiting() as u64);
    }
}

fn config_of(mut cursor: Cursor<'_>) -> Option<ServiceConfig> {
    let hold = cursor.number()?;
    cursor.pass_blanks();
    let write = cursor.number()?;
    let builder = ServiceConfigBuilder::new()
        .h1_hold_size(hold)
        .ok()?
        .h1_write_buffer_size(write)
        .ok()?;
    Some(builder.build())
}
