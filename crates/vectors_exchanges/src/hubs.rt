//! Runs of hubs: connections that join rooms, what they say, and what then waits to be written to each.
mod events;
mod words;

use crate::hubs::events::read_events;
use bytes::Bytes;
use h1_replay::hub_replay;
use rooms::{HubError, HubEvent, NoMemory, ServiceConfigBuilder, drive_hub};
use std::alloc::Global;
use vectors::{Case, Player, Report};

/// The calls of `rooms` and `h1_replay`.
pub struct Hubs;

impl Player for Hubs {
    fn play(&self, alloc: Global, case: &Case<'_>, found: &mut Report) -> Result<bool, NoMemory> {
        match case.call {
            b"hub" => hub(alloc, case, found),
            b"script" => script(alloc, case, found),
            _ => Ok(false),
        }
    }
}

// `hub EVENT ..`: the place of the event that is refused, where one is, and what then waits to be written: the number of
// each connection for which bytes wait, with its bytes, or `nothing`.
fn hub(alloc: Global, case: &Case<'_>, found: &mut Report) -> Result<bool, NoMemory> {
    let Some(events) = read_events(alloc, case.arguments.as_slice())? else {
        return Ok(false);
    };
    let mut waiting = Report::new(alloc);
    put_run(alloc, events.as_slice(), &mut waiting);
    waiting.trim_end();
    if waiting.is_empty() {
        found.put_text("nothing");
    }
    found.put_report(&waiting);
    Ok(true)
}

fn put_run(alloc: Global, events: &[HubEvent], found: &mut Report) {
    match drive_hub(alloc, &ServiceConfigBuilder::new().build(), events) {
        Ok(trace) => put_buffered(trace.buffered.as_slice(), found),
        Err(HubError::Misplaced(index, trace)) => {
            found.put_text("misplaced ");
            found.put_decimal(index as u64);
            found.put_text(" ");
            put_buffered(trace.buffered.as_slice(), found);
        }
        Err(HubError::NoMemory) => found.lose(),
    }
}

// Puts each number with its bytes, where there are some, and a blank after them.
fn put_buffered(buffered: &[Bytes], found: &mut Report) {
    for (number, bytes) in buffered.iter().enumerate() {
        if !bytes.is_empty() {
            found.put_decimal(number as u64);
            found.put_text(" ");
            found.put_quoted(bytes.as_slice());
            found.put_text(" ");
        }
    }
}

// `script TEXT`: the status and the text of what a script is answered.
fn script(alloc: Global, case: &Case<'_>, found: &mut Report) -> Result<bool, NoMemory> {
    let [text] = case.arguments.as_slice() else {
        return Ok(false);
    };
    let reply = hub_replay(alloc, text.as_slice());
    found.put_decimal(u64::from(reply.status()));
    found.put_text(" ");
    found.put_quoted(reply.text());
    Ok(true)
}
