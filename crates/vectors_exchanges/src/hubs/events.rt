//! The events of a case, as its words say them.
use crate::hubs::words::Words;
use bytes::Bytes;
use rooms::{Event, HubEvent, NoMemory};
use std::alloc::Global;

// A request for a WebSocket, before and after its target.
const METHOD: &[u8] = b"GET ";

const REST: &[u8] = b" HTTP/1.1\r\nhost: a\r\nconnection: upgrade\r\nupgrade: websocket\r\n\
sec-websocket-version: 13\r\nsec-websocket-key: dGhlIHNhbXBsZSBub25jZQ==\r\n\r\n";

// More bytes than the answer to it has.
const ANSWER: usize = 1024;

/// The events that the words say, in their order; none where a word isn't one of these:
///
/// - `open COUNT`: so many connections are opened.
/// - `join NUMBER TARGET`: the connection with this number is opened and joins the room of the target: its request is read,
///   it has two turns, and what waits for it is written.
/// - `read NUMBER BYTES`, `write NUMBER COUNT`, `tick NUMBER MOMENT`, `eof NUMBER`, `drain NUMBER`: that event is fed. So is
///   `next NUMBER`, which no hub takes.
/// - `turns COUNT NUMBER`: that connection has so many turns.
/// - `rounds COUNT NUMBER NUMBER`: both connections have so many turns, one after the other.
pub fn read_events(alloc: Global, words: &[Vec<u8>]) -> Result<Option<Vec<HubEvent>>, NoMemory> {
    let mut events = Vec::new(alloc);
    let mut rest = Words::new(words);
    for _ in 0..words.len() {
        let Some(word) = rest.next() else {
            break;
        };
        if !put_events(alloc, word, &mut rest, &mut events)? {
            return Ok(None);
        }
    }
    Ok(Some(events))
}

// Puts what the word says, by those after it. `false` where it says nothing.
fn put_events(
    alloc: Global,
    word: &[u8],
    words: &mut Words<'_>,
    events: &mut Vec<HubEvent>,
) -> Result<bool, NoMemory> {
    match word {
        b"open" => put_opens(words, events),
        b"join" => put_join(alloc, words, events),
        b"turns" => put_turns(words, events),
        b"rounds" => put_rounds(words, events),
        _ => put_feed(alloc, word, words, events),
    }
}

fn put_opens(words: &mut Words<'_>, events: &mut Vec<HubEvent>) -> Result<bool, NoMemory> {
    let Some(count) = words.number() else {
        return Ok(false);
    };
    for _ in 0..count {
        events.push(HubEvent::Open)?;
    }
    Ok(true)
}

fn put_turns(words: &mut Words<'_>, events: &mut Vec<HubEvent>) -> Result<bool, NoMemory> {
    let Some(count) = words.number() else {
        return Ok(false);
    };
    let Some(number) = words.number() else {
        return Ok(false);
    };
    for _ in 0..count {
        events.push(HubEvent::Turn(number))?;
    }
    Ok(true)
}

fn put_rounds(words: &mut Words<'_>, events: &mut Vec<HubEvent>) -> Result<bool, NoMemory> {
    let Some(count) = words.number() else {
        return Ok(false);
    };
    let Some(first) = words.number() else {
        return Ok(false);
    };
    let Some(second) = words.number() else {
        return Ok(false);
    };
    for _ in 0..count {
        events.push(HubEvent::Turn(first))?;
        events.push(HubEvent::Turn(second))?;
    }
    Ok(true)
}

fn put_join(
    alloc: Global,
    words: &mut Words<'_>,
    events: &mut Vec<HubEvent>,
) -> Result<bool, NoMemory> {
    let Some(number) = words.number() else {
        return Ok(false);
    };
    let Some(target) = words.next() else {
        return Ok(false);
    };
    let request = request_for(alloc, target)?;
    events.push(HubEvent::Open)?;
    events.push(HubEvent::Feed(number, Event::Read(request)))?;
    events.push(HubEvent::Turn(number))?;
    events.push(HubEvent::Turn(number))?;
    events.push(HubEvent::Feed(number, Event::Write(ANSWER)))?;
    Ok(true)
}

fn request_for(alloc: Global, target: &[u8]) -> Result<Bytes, NoMemory> {
    let mut request = Vec::new(alloc);
    request.extend_from_slice(METHOD)?;
    request.extend_from_slice(target)?;
    request.extend_from_slice(REST)?;
    Bytes::copy_from_slice(alloc, request.as_slice())
}

fn put_feed(
    alloc: Global,
    word: &[u8],
    words: &mut Words<'_>,
    events: &mut Vec<HubEvent>,
) -> Result<bool, NoMemory> {
    let Some(number) = words.number() else {
        return Ok(false);
    };
    let Some(event) = read_event(alloc, word, words)? else {
        return Ok(false);
    };
    events.push(HubEvent::Feed(number, event))?;
    Ok(true)
}

fn read_event(
    alloc: Global,
    word: &[u8],
    words: &mut Words<'_>,
) -> Result<Option<Event>, NoMemory> {
    match word {
        b"read" => read_bytes(alloc, words),
        b"write" => Ok(words.number().map(Event::Write)),
        b"tick" => Ok(words.number().map(|moment| Event::Tick(moment as u64))),
        b"eof" => Ok(Some(Event::Eof)),
        b"drain" => Ok(Some(Event::Drain)),
        b"next" => Ok(Some(Event::Next)),
        _ => Ok(None),
    }
}

fn read_bytes(alloc: Global, words: &mut Words<'_>) -> Result<Option<Event>, NoMemory> {
    let Some(bytes) = words.next() else {
        return Ok(None);
    };
    Ok(Some(Event::Read(Bytes::copy_from_slice(alloc, bytes)?)))
}
