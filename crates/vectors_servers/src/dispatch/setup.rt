//! What a connection begins with: its settings, how its transport gives and takes, and what its service answers.
use crate::dispatch::body::Script;
use crate::dispatch::guest::{Guest, guest_of};
use crate::dispatch::reply::{Kind, Reply};
use crate::dispatch::service::Scripted;
use crate::dispatch::silence::Silence;
use crate::dispatch::transport::Lingering;
use bytes::Bytes;
use http_config::{KeepAlive, ServiceConfig, ServiceConfigBuilder};
use http_services::CountedService;
use http_transport::MemTransport;
use http_types::{NoMemory, StatusCode};
use std::alloc::Global;
use vectors::{CaseError, Cursor, Report, read_joined};

/// What a connection begins with.
#[derive(Drop)]
pub struct Setup {
    config: ServiceConfig,
    pieces: Vec<Vec<u8>>,
    rooms: Vec<usize>,
    faults: Vec<usize>,
    shut_waits: u64,
    replies: Vec<Reply>,
    parts: Vec<Part>,
    in_any_pieces: bool,
    by_any_writes: bool,
    guest: Option<Guest>,
}

/// Pieces of the body of an answer, so many of the same bytes, or how often it is pending there; and to which reply they belong, from
/// 1.
#[derive(Drop)]
struct Part {
    reply: usize,
    bytes: Option<Vec<u8>>,
    count: usize,
}

/// How the transport cuts what it gives and takes.
#[derive(Clone, Copy, Debug)]
pub enum Cut {
    /// As the set-up says.
    AsSaid,

    /// The input in pieces of so many bytes, of which there is at least one.
    Reads(usize),

    /// So many bytes a write.
    Writes(usize),
}

/// The most bytes of the pieces and writes that are tried.
const MOST: usize = 128;

/// The bytes that a transport has room for beside its input: more than one read asks for, and than are written.
const ROOM: usize = 65_536;

/// How many writes of one size a transport has; after these it takes all.
const WRITES: usize = 1024;

impl Setup {
    /// The usual settings, no input, a transport that takes all, and answers of status 200.
    pub fn new(alloc: Global) -> Setup {
        Setup {
            config: ServiceConfigBuilder::new().build(),
            pieces: Vec::new(alloc),
            rooms: Vec::new(alloc),
            faults: Vec::new(alloc),
            shut_waits: 0,
            replies: Vec::new(alloc),
            parts: Vec::new(alloc),
            in_any_pieces: false,
            by_any_writes: false,
            guest: None,
        }
    }

    /// The settings.
    pub fn config(&self) -> ServiceConfig {
        self.config
    }

    /// Which service an accepted connection has, if it goes on.
    pub fn guest(&self) -> Option<Guest> {
        self.guest
    }

    /// How often the connection is to be played.
    pub fn cuts(&self) -> usize {
        if self.in_any_pieces || self.by_any_writes {
            MOST
        } else {
            1
        }
    }

    /// How the transport cuts what it gives and takes when the connection is played for the time of this number, from 0.
    pub fn cut(&self, number: usize) -> Cut {
        if self.in_any_pieces {
            Cut::Reads(number.saturating_add(1))
        } else if self.by_any_writes {
            Cut::Writes(number.saturating_add(1))
        } else {
            Cut::AsSaid
        }
    }

    /// Takes a line: its first word, and those after it.
    pub fn take(
        &mut self,
        alloc: Global,
        word: &[u8],
        mut words: Cursor<'_>,
    ) -> Result<(), CaseError> {
        words.pass_blanks();
        match word {
            b"config" => self.set_config(words),
            b"gives" => self.put_piece(alloc, words),
            b"waits" => self.put_waits(alloc, words),
            b"takes" => put_numbers(words, &mut self.rooms),
            b"fails" => put_numbers(words, &mut self.faults),
            b"shuts-after" => self.set_shut_waits(words),
            b"answers" => self.put_reply(Kind::Answers, words),
            b"errs" => self.put_reply(Kind::Errs, words),
            b"refuses" => self.put_reply(Kind::Refuses, words),
            b"piece" => self.put_part(alloc, words),
            b"pauses" => self.put_pauses(words),
            b"frames" => self.set_guest(words),
            b"in-any-pieces" => {
                self.in_any_pieces = true;
                Ok(())
            }
            b"by-any-writes" => {
                self.by_any_writes = true;
                Ok(())
            }
            _ => Err(CaseError::Unreadable),
        }
    }

    fn set_config(&mut self, words: Cursor<'_>) -> Result<(), CaseError> {
        self.config = config_of(words).ok_or(CaseError::Unreadable)?;
        Ok(())
    }

    fn set_shut_waits(&mut self, mut words: Cursor<'_>) -> Result<(), CaseError> {
        self.shut_waits = words.number().ok_or(CaseError::Unreadable)? as u64;
        Ok(())
    }

    fn put_piece(&mut self, alloc: Global, mut words: Cursor<'_>) -> Result<(), CaseError> {
        let piece = read_joined(alloc, &mut words)?;
        Ok(keep(&mut self.pieces, piece)?)
    }

    // An empty piece is a read that is pending.
    fn put_waits(&mut self, alloc: Global, mut words: Cursor<'_>) -> Result<(), CaseError> {
        let count = words.number().ok_or(CaseError::Unreadable)?;
        for _ in 0..count {
            keep(&mut self.pieces, Vec::new(alloc))?;
        }
        Ok(())
    }

    fn put_reply(&mut self, kind: Kind, words: Cursor<'_>) -> Result<(), CaseError> {
        let reply = reply_of(kind, words).ok_or(CaseError::Unreadable)?;
        Ok(keep(&mut self.replies, reply)?)
    }

    // Pieces of the last reply's body: one, or as many as are said.
    fn put_part(&mut self, alloc: Global, mut words: Cursor<'_>) -> Result<(), CaseError> {
        let bytes = read_joined(alloc, &mut words)?;
        words.pass_blanks();
        let count = words.number().unwrap_or(1);
        Ok(self.keep_part(Some(bytes), count)?)
    }

    // That the last reply's body is pending there, so often.
    fn put_pauses(&mut self, mut words: Cursor<'_>) -> Result<(), CaseError> {
        let count = words.number().ok_or(CaseError::Unreadable)?;
        Ok(self.keep_part(None, count)?)
    }

    fn keep_part(&mut self, bytes: Option<Vec<u8>>, count: usize) -> Result<(), NoMemory> {
        let reply = self.replies.len();
        let part = Part {
            reply,
            bytes,
            count,
        };
        keep(&mut self.parts, part)
    }

    fn set_guest(&mut self, words: Cursor<'_>) -> Result<(), CaseError> {
        self.guest = Some(guest_of(words.rest()).ok_or(CaseError::Unreadable)?);
        Ok(())
    }

    // The body of the reply of this number, from 1.
    fn script(&self, alloc: Global, number: usize, breaks: bool) -> Result<Script, NoMemory> {
        let mut pieces = Vec::new(alloc);
        for part in self.parts.iter() {
            if part.reply == number {
                part.put(alloc, &mut pieces)?;
            }
        }
        Ok(Script::new(pieces, breaks))
    }

    /// The transport. It has room from the start for what it gives and takes, so that it never fails for want of memory.
    pub fn transport(&self, alloc: Global, cut: Cut) -> Result<Lingering, NoMemory> {
        let pieces = self.pieces_of(alloc, cut)?;
        let rooms = self.rooms_of(alloc, cut)?;
        let faults = copied(alloc, self.faults.as_slice())?;
        let mut transport = MemTransport::new(alloc, pieces, rooms, faults);
        transport.reserve(self.input_len().saturating_add(ROOM), ROOM)?;
        Ok(Lingering::new(transport, self.shut_waits))
    }

    /// The service.
    pub fn service(&self, alloc: Global) -> Result<CountedService<Scripted>, NoMemory> {
        let mut replies = Vec::new(alloc);
        let mut scripts = Vec::new(alloc);
        for reply in self.replies.iter() {
            replies.push(*reply)?;
            let script = self.script(alloc, replies.len(), reply.breaks)?;
            keep(&mut scripts, Some(script))?;
        }
        let silence = Silence::new(alloc)?;
        let scripted = Scripted::new(alloc, replies, scripts, silence);
        Ok(CountedService::new(scripted))
    }

    fn input_len(&self) -> usize {
        let mut count = 0_usize;
        for piece in self.pieces.iter() {
            count = count.saturating_add(piece.len());
        }
        count
    }

    fn pieces_of(&self, alloc: Global, cut: Cut) -> Result<Vec<Bytes>, NoMemory> {
        let Cut::Reads(size) = cut else {
            return each_piece(alloc, self.pieces.as_slice());
        };
        let mut whole = Report::new(alloc);
        for piece in self.pieces.iter() {
            whole.put_all(piece.as_slice());
        }
        cut_up(alloc, whole.whole()?, size)
    }

    fn rooms_of(&self, alloc: Global, cut: Cut) -> Result<Vec<usize>, NoMemory> {
        let Cut::Writes(size) = cut else {
            return copied(alloc, self.rooms.as_slice());
        };
        let mut rooms = Vec::new(alloc);
        for _ in 0..WRITES {
            rooms.push(size)?;
        }
        Ok(rooms)
    }
}

impl Part {
    // Puts its pieces after the others.
    fn put(&self, alloc: Global, pieces: &mut Vec<Option<Bytes>>) -> Result<(), NoMemory> {
        for _ in 0..self.count {
            keep(pieces, self.piece(alloc)?)?;
        }
        Ok(())
    }

    fn piece(&self, alloc: Global) -> Result<Option<Bytes>, NoMemory> {
        match &self.bytes {
            Some(bytes) => Ok(Some(Bytes::copy_from_slice(alloc, bytes.as_slice())?)),
            None => Ok(None),
        }
    }
}

/// Puts the item after the others.
pub fn keep<T: Drop>(items: &mut Vec<T>, item: T) -> Result<(), NoMemory> {
    Ok(items.push(item)?)
}

fn each_piece(alloc: Global, all: &[Vec<u8>]) -> Result<Vec<Bytes>, NoMemory> {
    let mut pieces = Vec::new(alloc);
    for piece in all {
        put_piece(alloc, piece.as_slice(), &mut pieces)?;
    }
    Ok(pieces)
}

fn cut_up(alloc: Global, whole: &[u8], size: usize) -> Result<Vec<Bytes>, NoMemory> {
    let mut pieces = Vec::new(alloc);
    for part in whole.chunks(size.max(1)) {
        put_piece(alloc, part, &mut pieces)?;
    }
    Ok(pieces)
}

fn put_piece(alloc: Global, part: &[u8], pieces: &mut Vec<Bytes>) -> Result<(), NoMemory> {
    let piece = Bytes::copy_from_slice(alloc, part)?;
    Ok(pieces.push(piece)?)
}

fn copied(alloc: Global, numbers: &[usize]) -> Result<Vec<usize>, NoMemory> {
    let mut copy = Vec::new(alloc);
    copy.extend_from_slice(numbers)?;
    Ok(copy)
}

// The settings: times in milliseconds, whether half-closed connections are allowed, and the write buffer's size.
fn config_of(mut words: Cursor<'_>) -> Option<ServiceConfig> {
    let mut numbers = [0_usize; 5];
    for number in numbers.iter_mut() {
        words.pass_blanks();
        *number = words.number()?;
    }
    let [keep_alive, request, disconnect, half_closed, write_buffer] = numbers;
    let builder = ServiceConfigBuilder::new()
        .keep_alive(KeepAlive::Timeout(keep_alive as u64))
        .client_request_timeout(request as u64)
        .client_disconnect_timeout(disconnect as u64)
        .h1_allow_half_closed(half_closed == 1)
        .h1_write_buffer_size(write_buffer)
        .ok()?;
    Some(builder.build())
}

// The numbers of a line.
fn put_numbers(mut words: Cursor<'_>, numbers: &mut Vec<usize>) -> Result<(), CaseError> {
    for _ in 0..words.rest().len() {
        words.pass_blanks();
        if words.peek().is_none() {
            return Ok(());
        }
        let number = words.number().ok_or(CaseError::Unreadable)?;
        keep(numbers, number)?;
    }
    Ok(())
}

// A reply: its status, and then `close`, `streams`, `breaks`, `drops` and `reads-all`, `unready`, `busy`, `asleep` and
// `reads` with how often, and `sized` with a size, in any order.
fn reply_of(kind: Kind, mut words: Cursor<'_>) -> Option<Reply> {
    let mut reply = Reply::plain();
    reply.kind = kind;
    reply.status = StatusCode::from_u16(u16::try_from(words.number()?).ok()?).ok()?;
    for _ in 0..words.rest().len() {
        words.pass_blanks();
        match words.word() {
            b"" => return Some(reply),
            b"close" => reply.closes = true,
            b"streams" => reply.size = None,
            b"sized" => reply.size = Some(times(&mut words)? as u64),
            b"breaks" => reply.breaks = true,
            b"drops" => reply.drops = true,
            b"reads" => reply.reads = times(&mut words)?,
            b"reads-all" => reply.reads = usize::MAX,
            b"unready" => reply.unready = times(&mut words)?,
            b"busy" => reply.busy = times(&mut words)?,
            b"asleep" => reply.asleep = times(&mut words)?,
            _ => return None,
        }
    }
    Some(reply)
}

fn times(words: &mut Cursor<'_>) -> Option<usize> {
    words.pass_blanks();
    words.number()
}
