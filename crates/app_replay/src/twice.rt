//! A script that is replayed twice.
ghost use Rattle.h1_connection.specs.EventMeaning.{event_of};
ghost use Rattle.h1_connection.specs.State.{IsAllowed};

use h1_connection::{Connection, Event, NoMemory, Outcome};
use h1_replay::Script;
use std::alloc::Global;

/// What became of both replays.
#[derive(Clone, Copy, Debug)]
pub struct Replayed {
    /// Whether both gave the same.
    pub is_same: bool,

    /// How many steps of the second one found no memory and were tried again.
    pub tried_again: u32,
}

/// What a step does where it finds no memory.
#[derive(Clone, Copy, Debug, PartialEq, Eq)]
enum Tries {
    /// It fails.
    Once,

    /// It is tried once more.
    Twice,
}

/// Replays the script as it comes, and then so that each step that finds no memory is tried again.
pub fn replayed_twice(alloc: Global, script: &Script) -> Result<Replayed, NoMemory> {
    let mut tried_again = 0;
    let first = replay(alloc, script, Tries::Once, &mut tried_again)?;
    let second = replay(alloc, script, Tries::Twice, &mut tried_again)?;
    Ok(Replayed {
        is_same: first == second,
        tried_again,
    })
}

// What a new connection answers to the events, up to the first that isn't allowed, and the bytes that then wait.
fn replay(
    alloc: Global,
    script: &Script,
    tries: Tries,
    tried_again: &mut u32,
) -> Result<String, NoMemory> {
    let mut connection = Connection::new(alloc, script.config);
    let mut text = String::new(alloc);
    for event in script.events.iter() {
        if !connection.allowed(event) {
            break;
        }
        let outcome = take(&mut connection, event, tries, tried_again)?;
        put_outcome(alloc, &outcome, &mut text)?;
    }
    put_waiting(alloc, &connection, &mut text)?;
    Ok(text)
}

// Takes a step.
fn take(
    connection: &mut Connection,
    event: &Event,
    tries: Tries,
    tried_again: &mut u32,
) -> Result<Outcome, NoMemory>
    requires allowed { IsAllowed connection.old (event_of event.now) }
{
    match connection.step(event) {
        Ok(outcome) => Ok(outcome),
        Err(error) if tries == Tries::Once => Err(error),
        Err(_) => {
            *tried_again = tried_again.saturating_add(1);
            connection.step(event)
        }
    }
}

fn put_outcome(alloc: Global, outcome: &Outcome, text: &mut String) -> Result<(), NoMemory> {
    let line = format!(in alloc; "{outcome:?}\n")?;
    text.push_str(line.as_str())
}

fn put_waiting(alloc: Global, connection: &Connection, text: &mut String) -> Result<(), NoMemory> {
    let waiting = connection.copy_buffered()?;
    let bytes = waiting.as_slice();
    let end = connection.closing();
    let line = format!(in alloc; "{bytes:?} {end:?}\n")?;
    text.push_str(line.as_str())
}
