//! The events of a seed.
ghost use Rattle.std.specs.Prelude.{◌≡◌, ◌≤◌, ◌++◌, [], ◌∷◌, length, map, IfOk, OnOk};
ghost use Rattle.h1_encoder.specs.Meaning.{size_of};
ghost use Rattle.h1_connection.specs.EventMeaning.{event_of};
ghost use Rattle.model_h1.specs.Event as on;
ghost use Rattle.h1_generated.specs.Generated.{kind_of, len_of, letters, fine, echo, answering, head_text, body_text, exchange, generated};
ghost use Rattle.h1_generated.specs.GeneratedMeaning.{model_kind};

use crate::draw::{Kind, drawn, kind_of, len_of, next_state};
use crate::request::request;
use bytes::{Bytes, BytesMut};
use h1_connection::{Boxed, Event};
use http_framing::BodySize;
use http_types::{NoMemory, ResponseHead, StatusCode};
use std::alloc::Global;

// The most bytes of a body.
const MAX_LEN: usize = 1000;

// How many bytes are asked for once a request is answered: more than an answer has.
const WRITE_LEN: usize = 65536;

/// The events of this many exchanges, drawn from a seed: a tick at 0, and for each exchange its request in one read, what
/// is done with it, and a write. The only error is that memory ran out.
pub fn generate(alloc: Global, seed: u64, count: u64) -> Result<Vec<Event>, NoMemory>
    ensures { IfOk result (λ events. map event_of events.items ≡ generated seed count) }
{
    let letters = all_letters(alloc)?;
    let mut events = Vec::new(alloc);
    events.push(Event::Tick(0))?;
    let mut state = seed;
    for index in 0..count {
        state = next_state(state);
        add_exchange(alloc, &mut events, &letters, drawn(state), index + 1)?;
    }
    Ok(events)
}

// What bodies are cut from.
fn all_letters(alloc: Global) -> Result<Bytes, NoMemory>
    ensures { IfOk result (λ block. block ≡ letters 1000) }
{
    let mut block = BytesMut::new(alloc);
    block.resize(MAX_LEN, b'a')?;
    let len = block.len();
    let whole = block.freeze_to(len)?;
    Ok(whole)
}

// The exchange with this number.
fn add_exchange(
    alloc: Global,
    events: &mut Vec<Event>,
    block: &Bytes,
    draw: u64,
    number: u64,
) -> Result<(), NoMemory>
    requires { block.now ≡ letters 1000 }
    ensures { OnOk result (map event_of events.new.items
        ≡ map event_of events.old.items ++ exchange (kind_of draw) number (len_of draw)) }
{
    let kind = kind_of(draw);
    let body = body(block, len_of(draw))?;
    let text = request(alloc, kind, number, &body)?;
    add(events, Event::Read(text))?;
    add(events, Event::Next)?;
    add_answering(alloc, events, kind, body)?;
    add(events, Event::Write(WRITE_LEN))?;
    Ok(())
}

// So many letters.
fn body(block: &Bytes, len: usize) -> Result<Bytes, NoMemory>
    requires letters { block.now ≡ letters 1000 }
    requires short { len ≤ 1000 }
    ensures { IfOk result (λ body. body ≡ letters len) }
{
    let body = block.slice(..len)?;
    Ok(body)
}

// What is done with a request whose body is this one.
fn add_answering(
    alloc: Global,
    events: &mut Vec<Event>,
    kind: Kind,
    body: Bytes,
) -> Result<(), NoMemory>
    requires { body ≡ letters (length body) }
    ensures { OnOk result (map event_of events.new.items
        ≡ map event_of events.old.items ++ answering (model_kind kind) (length body)) }
{
    let size = BodySize::Sized(body.len() as u64);
    match kind {
        Kind::Get => add_answer(alloc, events, BodySize::Sized(0)),
        Kind::Head => add_head_alone(alloc, events, size),
        Kind::Sized => add_echo(alloc, events, size, body),
        Kind::Chunked => add_echo(alloc, events, BodySize::Stream, body),
    }
}

// The answer to a HEAD: its length is stated, and its body ends with nothing sent.
fn add_head_alone(alloc: Global, events: &mut Vec<Event>, size: BodySize) -> Result<(), NoMemory>
    ensures { OnOk result (map event_of events.new.items
        ≡ map event_of events.old.items ++ (on.answer fine (size_of size) ∷ on.body_end ∷ [])) }
{
    add_answer(alloc, events, size)?;
    add(events, Event::BodyEnd)?;
    Ok(())
}

// The body is pulled, and its end, and as many bytes are sent back.
fn add_echo(
    alloc: Global,
    events: &mut Vec<Event>,
    size: BodySize,
    body: Bytes,
) -> Result<(), NoMemory>
    requires { body ≡ letters (length body) }
    ensures { OnOk result (map event_of events.new.items
        ≡ map event_of events.old.items ++ echo (size_of size) (length body)) }
{
    add(events, Event::Pull)?;
    add(events, Event::Pull)?;
    add_answer(alloc, events, size)?;
    add(events, Event::Chunk(body))?;
    add(events, Event::BodyEnd)?;
    Ok(())
}

// A 200 with no header of its own.
fn add_answer(alloc: Global, events: &mut Vec<Event>, size: BodySize) -> Result<(), NoMemory>
    ensures { OnOk result (map event_of events.new.items
        ≡ map event_of events.old.items ++ (on.answer fine (size_of size) ∷ [])) }
{
    let head = ResponseHead::new(alloc, StatusCode::OK);
    let head = Boxed::new(alloc, head)?;
    add(events, Event::Answer(head, size))?;
    Ok(())
}

fn add(events: &mut Vec<Event>, event: Event) -> Result<(), NoMemory>
    ensures { OnOk result (map event_of events.new.items ≡ map event_of events.old.items ++ (event_of event ∷ [])) }
{
    events.push(event)?;
    Ok(())
}
