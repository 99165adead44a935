//! A script: a line for the settings of a connection, and a line for each event that comes to it.
ghost use Rattle.std.specs.Prelude.{◌≡◌, IfSome};
ghost use Rattle.http_config.specs.Config.{IsHoldSize};
ghost use Rattle.h1_replay.specs.Script.{hold_by, settings_by, settings_of, config_of, plain_event, worded_event, read_of, chunk_of, write_of, tick_of, usual_limit, accept_of, alone_of, event_of, words_of, without_last_feed, events_of, script_of};
ghost use Rattle.h1_replay.specs.Reading.{Reads, ReadsEvents, ReadsScript};

use crate::answer::answer;
use crate::message::send;
use crate::pieces::Pieces;
use crate::word::{LineError, bytes, flag, keep_alive, number};
use h1_connection::Event;
use http_config::{
    DEFAULT_HOLD_SIZE, MAX_HOLD_SIZE, MIN_HOLD_SIZE, ServiceConfig, ServiceConfigBuilder,
};
use memchr::memchr_iter;
use std::alloc::Global;
use thiserror::Error;

const BLANK: u8 = b' ';

const LINE_FEED: u8 = b'\n';

/// What a script says.
#[derive(Drop)]
pub struct Script {
    pub config: ServiceConfig,
    pub events: Vec<Event>,
}

/// Why a script isn't read.
#[derive(Clone, Copy, Debug, PartialEq, Eq, Error)]
pub enum ScriptError {
    /// This line, from 1, is the first that isn't of the grammar in its place.
    #[error("line {0} is not of the grammar")]
    BadLine(usize),
    /// Memory ran out.
    #[error("no memory is left")]
    NoMemory,
}

/// The config and the events of a script. Its last line feed may be missing.
pub fn read_script(alloc: Global, text: &[u8]) -> Result<Script, ScriptError>
    ensures { ReadsScript result (script_of text.now) }
{
    let text = without_last_feed(text);
    let mut lines = Pieces::new(text, LINE_FEED);
    let Some(line) = lines.next() else {
        return Err(ScriptError::BadLine(1));
    };
    let Some(config) = config_line(line) else {
        return Err(ScriptError::BadLine(1));
    };
    let events = event_lines(alloc, config.h1_hold_size(), lines, most_events(text))?;
    Ok(Script { config, events })
}

// As many events as the text can have at most, each on a line of its own of four bytes or more after the first one.
// With that much room from the start the events never move.
fn most_events(text: &[u8]) -> usize {
    memchr_iter(LINE_FEED, text).count().min(text.len() / 4 + 1)
}

/// A text without the line feed at its end, where there is one.
pub fn without_last_feed(text: &[u8]) -> &[u8]
    ensures { result.now ≡ without_last_feed text.now }
{
    match text {
        [front @ .., LINE_FEED] => front,
        _ => text,
    }
}

// The events of the second line and those after it.
fn event_lines(
    alloc: Global,
    hold_size: usize,
    mut lines: Pieces<'_>,
    most: usize,
) -> Result<Vec<Event>, ScriptError>
    ensures { ReadsEvents result (events_of hold_size 2 lines.entry) }
{
    let mut events = Vec::with_capacity(alloc, most).map_err(|_| ScriptError::NoMemory)?;
    while let Some(line) = lines.next() {
        match event_line(alloc, hold_size, line) {
            Ok(event) => events.push(event).map_err(|_| ScriptError::NoMemory)?,
            Err(LineError::Unreadable) => return Err(ScriptError::BadLine(events.len() + 2)),
            Err(LineError::NoMemory) => return Err(ScriptError::NoMemory),
        }
    }
    Ok(events)
}

/// The settings that a script's first line names.
pub fn config_line(line: &[u8]) -> Option<ServiceConfig>
    ensures { result ≡ config_of (words_of line.now) }
{
    let mut words = Pieces::new(line, BLANK);
    if words.next()? != b"config".as_slice() {
        return None;
    }
    settings(words)
}

fn settings(mut words: Pieces<'_>) -> Option<ServiceConfig>
    ensures { result ≡ settings_of words.entry }
{
    let keep_alive_word = words.next()?;
    let request = words.next()?;
    let disconnect = words.next()?;
    let half_closed = words.next()?;
    let write_buffer = words.next()?;
    let hold_size = hold_by(words)?;
    settings_by(
        keep_alive_word,
        request,
        disconnect,
        half_closed,
        write_buffer,
        hold_size,
    )
}

// The hold size that a last word names, or the usual one where there is none.
fn hold_by(mut words: Pieces<'_>) -> Option<usize>
    ensures value { result ≡ hold_by words.entry }
    ensures range { IfSome result IsHoldSize }
{
    let Some(word) = words.next() else {
        return Some(DEFAULT_HOLD_SIZE);
    };
    if words.next().is_some() {
        return None;
    }
    let size = number(word)? as usize;
    if size < MIN_HOLD_SIZE || size > MAX_HOLD_SIZE {
        return None;
    }
    Some(size)
}

fn settings_by(
    keep_alive_word: &[u8],
    request: &[u8],
    disconnect: &[u8],
    half_closed: &[u8],
    write_buffer: &[u8],
    hold_size: usize,
) -> Option<ServiceConfig>
    requires { IsHoldSize hold_size }
    ensures { result ≡ settings_by keep_alive_word.now request.now disconnect.now half_closed.now write_buffer.now hold_size }
{
    let builder = ServiceConfigBuilder::new()
        .keep_alive(keep_alive(keep_alive_word)?)
        .client_request_timeout(number(request)?)
        .client_disconnect_timeout(number(disconnect)?)
        .h1_allow_half_closed(flag(half_closed)?)
        .h1_write_buffer_size(number(write_buffer)? as usize)
        .ok()?
        .h1_hold_size(hold_size)
        .ok()?;
    Some(builder.build())
}

/// The event that a line names, where so many bytes may be held.
pub fn event_line(alloc: Global, hold_size: usize, line: &[u8]) -> Result<Event, LineError>
    ensures { Reads result (event_of hold_size (words_of line.now)) }
{
    let mut words = Pieces::new(line, BLANK);
    let Some(name) = words.next() else {
        return Err(LineError::Unreadable);
    };
    match plain_event(name) {
        Some(event) => alone(words, event),
        None => worded_event(alloc, hold_size, name, words),
    }
}

// The events that have no words but their name.
fn plain_event(name: &[u8]) -> Option<Event>
    ensures { result ≡ plain_event name.now }
{
    if name == b"eof".as_slice() {
        Some(Event::Eof)
    } else if name == b"next".as_slice() {
        Some(Event::Next)
    } else if name == b"pull".as_slice() {
        Some(Event::Pull)
    } else if name == b"dropbody".as_slice() {
        Some(Event::DropBody)
    } else if name == b"continue".as_slice() {
        Some(Event::Continue)
    } else if name == b"bodyend".as_slice() {
        Some(Event::BodyEnd)
    } else if name == b"bodyerror".as_slice() {
        Some(Event::BodyError)
    } else if name == b"drain".as_slice() {
        Some(Event::Drain)
    } else {
        None
    }
}

fn worded_event(
    alloc: Global,
    hold_size: usize,
    name: &[u8],
    words: Pieces<'_>,
) -> Result<Event, LineError>
    ensures { Reads result (worded_event hold_size name.now words.entry) }
{
    if name == b"read".as_slice() {
        read(alloc, words)
    } else if name == b"chunk".as_slice() {
        chunk(alloc, words)
    } else if name == b"write".as_slice() {
        write(words).ok_or(LineError::Unreadable)
    } else if name == b"tick".as_slice() {
        tick(words).ok_or(LineError::Unreadable)
    } else if name == b"answer".as_slice() {
        answer(alloc, words)
    } else if name == b"accept".as_slice() {
        accept(hold_size, words).ok_or(LineError::Unreadable)
    } else if name == b"send".as_slice() {
        send(alloc, words)
    } else {
        Err(LineError::Unreadable)
    }
}

// An upgrade, with the usual limit where no other one is named.
fn accept(hold_size: usize, mut words: Pieces<'_>) -> Option<Event>
    ensures { result ≡ accept_of hold_size words.entry }
{
    let Some(word) = words.next() else {
        return Some(Event::Accept(usual_limit(hold_size)));
    };
    if words.next().is_some() {
        return None;
    }
    Some(Event::Accept(number(word)? as usize))
}

// The most bytes of a frame's payload: 65536, or as many as fit where fewer may be held.
fn usual_limit(hold_size: usize) -> usize
    ensures { result ≡ usual_limit hold_size }
{
    hold_size.saturating_sub(14).min(65536)
}

// An event of no further words.
fn alone(mut words: Pieces<'_>, event: Event) -> Result<Event, LineError>
    ensures { Reads result (alone_of event words.entry) }
{
    match words.next() {
        Some(_) => Err(LineError::Unreadable),
        None => Ok(event),
    }
}

fn read(alloc: Global, words: Pieces<'_>) -> Result<Event, LineError>
    ensures { Reads result (read_of words.entry) }
{
    match words.only() {
        Some(word) => Ok(Event::Read(bytes(alloc, word)?)),
        None => Err(LineError::Unreadable),
    }
}

fn chunk(alloc: Global, words: Pieces<'_>) -> Result<Event, LineError>
    ensures { Reads result (chunk_of words.entry) }
{
    match words.only() {
        Some(word) => Ok(Event::Chunk(bytes(alloc, word)?)),
        None => Err(LineError::Unreadable),
    }
}

fn write(words: Pieces<'_>) -> Option<Event>
    ensures { result ≡ write_of words.entry }
{
    let count = number(words.only()?)?;
    Some(Event::Write(count as usize))
}

fn tick(words: Pieces<'_>) -> Option<Event>
    ensures { result ≡ tick_of words.entry }
{
    Some(Event::Tick(number(words.only()?)?))
}
