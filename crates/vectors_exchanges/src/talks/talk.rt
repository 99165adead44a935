//! What is asked and answered, as the lines of a block say it.
use bytes::Bytes;
use h1_connection::{BodySize, ConnectionType, HeadItem, NoMemory, ResponseHead, StatusCode};
use h1_decoder::request_head;
use http_types::ParseError;
use http_types::header::{HeaderName, value_of_bytes};
use std::alloc::Global;
use vectors::{CaseError, Cursor, read_joined};

/// A message's body: how its size is told, the pieces in which it is handed in, and whether it fails after them.
#[derive(Drop)]
pub struct Body {
    pub size: BodySize,
    pub pieces: Vec<Vec<u8>>,
    pub fails: bool,
}

/// What the server does with a request.
#[derive(Drop)]
pub enum Reply {
    /// It leaves it open.
    None,

    /// It answers it so.
    Answer(ResponseHead, Body),

    /// It upgrades the connection to WebSocket, and sends these bytes as a message.
    Upgrade(Bytes),
}

/// How both go about it.
#[derive(Clone, Copy)]
pub struct Manner {
    /// The server tells the client to go on, where that waits to be told (RFC 7231, section 5.1.1).
    pub goes_on: bool,

    /// The server answers before it reads the request's body.
    pub is_early: bool,

    /// The server doesn't want the request's body.
    pub drops_request: bool,

    /// The client doesn't want the answer's body.
    pub drops_answer: bool,
}

const PLAIN: Manner = Manner {
    goes_on: false,
    is_early: false,
    drops_request: false,
    drops_answer: false,
};

/// A request and its answer.
#[derive(Drop)]
pub struct Exchange {
    pub asked: HeadItem,
    pub brought: Body,
    pub reply: Reply,
    pub manner: Manner,
}

/// The exchanges that the lines say.
pub fn read_talk(alloc: Global, lines: &[&[u8]]) -> Result<Vec<Exchange>, CaseError> {
    let mut talk = Vec::new(alloc);
    for line in lines {
        read_line(alloc, line, &mut talk)?;
    }
    Ok(talk)
}

// A line that begins a further exchange, or says how the last one goes on.
fn read_line(alloc: Global, line: &[u8], talk: &mut Vec<Exchange>) -> Result<(), CaseError> {
    let mut cursor = Cursor::new(line);
    match next_word(&mut cursor) {
        b"ask" => {
            let exchange = read_request(alloc, &mut cursor)?;
            Ok(begin(talk, exchange)?)
        }
        word => {
            let Some(last) = talk.last_mut() else {
                return Err(CaseError::Unreadable);
            };
            last.take(alloc, word, &mut cursor)
        }
    }
}

fn begin(talk: &mut Vec<Exchange>, exchange: Exchange) -> Result<(), NoMemory> {
    Ok(talk.push(exchange)?)
}

// `ask "HEAD" KIND "PIECE" ..`
fn read_request(alloc: Global, cursor: &mut Cursor<'_>) -> Result<Exchange, CaseError> {
    let asked = read_head(alloc, cursor)?;
    let brought = read_body(alloc, cursor)?;
    Ok(Exchange {
        asked,
        brought,
        reply: Reply::None,
        manner: PLAIN,
    })
}

fn read_head(alloc: Global, cursor: &mut Cursor<'_>) -> Result<HeadItem, CaseError> {
    let text = read_joined(alloc, cursor)?;
    cursor.pass_blanks();
    let piece = Bytes::copy_from_slice(alloc, text.as_slice())?;
    match request_head(alloc, piece) {
        Ok(item) => Ok(item),
        Err(ParseError::NoMemory) => Err(CaseError::NoMemory),
        Err(_) => Err(CaseError::Unreadable),
    }
}

impl Exchange {
    // `answer STATUS WORD .. KIND "PIECE" ..`, `header NAME "VALUE"` of that answer, `upgrade "BYTES"`, or a word for the
    // manner.
    fn take(
        &mut self,
        alloc: Global,
        word: &[u8],
        cursor: &mut Cursor<'_>,
    ) -> Result<(), CaseError> {
        match word {
            b"answer" => self.take_answer(alloc, cursor)?,
            b"header" => self.take_header(alloc, cursor)?,
            b"upgrade" => {
                let text = read_joined(alloc, cursor)?;
                self.reply = Reply::Upgrade(Bytes::copy_from_slice(alloc, text.as_slice())?);
            }
            b"continue" => self.manner.goes_on = true,
            b"early" => self.manner.is_early = true,
            b"drop-request" => self.manner.drops_request = true,
            b"drop-answer" => self.manner.drops_answer = true,
            _ => return Err(CaseError::Unreadable),
        }
        Ok(())
    }

    fn take_answer(&mut self, alloc: Global, cursor: &mut Cursor<'_>) -> Result<(), CaseError> {
        let head = read_answer(alloc, cursor)?;
        let body = read_body(alloc, cursor)?;
        self.reply = Reply::Answer(head, body);
        Ok(())
    }

    fn take_header(&mut self, alloc: Global, cursor: &mut Cursor<'_>) -> Result<(), CaseError> {
        let name = next_word(cursor);
        let value = read_joined(alloc, cursor)?;
        match &mut self.reply {
            Reply::Answer(head, _) => put_header(alloc, head, name, value.as_slice()),
            _ => Err(CaseError::Unreadable),
        }
    }
}

fn put_header(
    alloc: Global,
    head: &mut ResponseHead,
    name: &[u8],
    value: &[u8],
) -> Result<(), CaseError> {
    let Ok(name) = HeaderName::from_bytes(alloc, name) else {
        return Err(CaseError::Unreadable);
    };
    let Ok(value) = value_of_bytes(alloc, value) else {
        return Err(CaseError::Unreadable);
    };
    Ok(head.headers.append(name, value)?)
}

// The status, and what is marked: `close` and `keep-alive`, and `raw` where no chunks are to be written.
fn read_answer(alloc: Global, cursor: &mut Cursor<'_>) -> Result<ResponseHead, CaseError> {
    let status = cursor
        .number()
        .and_then(status_of)
        .ok_or(CaseError::Unreadable)?;
    cursor.pass_blanks();
    let mut head = ResponseHead::new(alloc, status);
    if passes_word(cursor, b"close") {
        head.set_connection_type(ConnectionType::Close);
    }
    if passes_word(cursor, b"keep-alive") {
        head.set_connection_type(ConnectionType::KeepAlive);
    }
    if passes_word(cursor, b"raw") {
        head.no_chunking(true);
    }
    Ok(head)
}

fn status_of(number: usize) -> Option<StatusCode> {
    if number > 999 {
        return None;
    }
    StatusCode::from_u16(number as u16).ok()
}

// `length` or `chunks` with the pieces, `none` or nothing, and `fails` before the pieces where it fails after them. Then the
// length that is stated is one byte more.
fn read_body(alloc: Global, cursor: &mut Cursor<'_>) -> Result<Body, CaseError> {
    let kind = next_word(cursor);
    let fails = passes_word(cursor, b"fails");
    let pieces = read_pieces(alloc, cursor)?;
    let length = total(pieces.as_slice()).saturating_add(u64::from(fails));
    let size = match kind {
        b"" | b"none" => BodySize::None,
        b"length" => BodySize::Sized(length),
        b"chunks" => BodySize::Stream,
        _ => return Err(CaseError::Unreadable),
    };
    Ok(Body {
        size,
        pieces,
        fails,
    })
}

fn read_pieces(alloc: Global, cursor: &mut Cursor<'_>) -> Result<Vec<Vec<u8>>, CaseError> {
    let mut pieces = Vec::new(alloc);
    for _ in 0..cursor.rest().len() {
        if cursor.rest().is_empty() {
            break;
        }
        let piece = read_joined(alloc, cursor)?;
        cursor.pass_blanks();
        keep(&mut pieces, piece)?;
    }
    Ok(pieces)
}

fn keep(pieces: &mut Vec<Vec<u8>>, piece: Vec<u8>) -> Result<(), NoMemory> {
    Ok(pieces.push(piece)?)
}

// How many bytes the pieces have together.
fn total(pieces: &[Vec<u8>]) -> u64 {
    let mut sum = 0u64;
    for piece in pieces {
        sum = sum.saturating_add(piece.len() as u64);
    }
    sum
}

// The next word, and no blank after it.
fn next_word<'a>(cursor: &mut Cursor<'a>) -> &'a [u8] {
    let word = cursor.word();
    cursor.pass_blanks();
    word
}

// Passes the word where it is the next one, and says whether it was.
fn passes_word(cursor: &mut Cursor<'_>, word: &[u8]) -> bool {
    let mut ahead = *cursor;
    if next_word(&mut ahead) != word {
        return false;
    }
    *cursor = ahead;
    true
}
