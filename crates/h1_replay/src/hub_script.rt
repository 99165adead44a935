//! A script: a line for the settings of a hub's connections, and a line for each event of the hub.
ghost use Rattle.std.specs.Prelude.{◌≡◌};
ghost use Rattle.std.specs.Option.{option_copied};
ghost use Rattle.h1_replay.specs.InputPieces.{pieces_left};
ghost use Rattle.h1_replay.specs.Reading.{Reads};
ghost use Rattle.h1_replay.specs.Script.{words_of};
ghost use Rattle.h1_replay.specs.HubScript.{open_of, turn_of, feed_of, line_event, events_of, script_of};
ghost use Rattle.h1_replay.specs.HubReading.{ReadsEvents, ReadsScript};

pub use crate::ScriptError;
use crate::{LineError, Pieces, config_line, event_line, first_piece, number, without_last_feed};
use rooms::{HubEvent, ServiceConfig, is_fed};
use std::alloc::Global;

const BLANK: u8 = b' ';

const LINE_FEED: u8 = b'\n';

/// What a script says.
#[derive(Drop)]
pub struct HubScript {
    pub config: ServiceConfig,
    pub events: Vec<HubEvent>,
}

/// The config and the events of a script. Its last line feed may be missing.
pub fn read_hub_script(alloc: Global, text: &[u8]) -> Result<HubScript, ScriptError>
    ensures { ReadsScript result (script_of text.now) }
{
    let mut lines = Pieces::new(without_last_feed(text), LINE_FEED);
    let Some(line) = lines.next() else {
        return Err(ScriptError::BadLine(1));
    };
    let Some(config) = config_line(line) else {
        return Err(ScriptError::BadLine(1));
    };
    let events = event_lines(alloc, config.h1_hold_size(), lines)?;
    Ok(HubScript { config, events })
}

// The events of the second line and those after it.
fn event_lines(
    alloc: Global,
    hold_size: usize,
    mut lines: Pieces<'_>,
) -> Result<Vec<HubEvent>, ScriptError>
    ensures { ReadsEvents result (events_of hold_size 2 lines.entry) }
{
    let mut events = Vec::new(alloc);
    while let Some(line) = lines.next() {
        match hub_line(alloc, hold_size, line) {
            Ok(event) => events.push(event).map_err(|_| ScriptError::NoMemory)?,
            Err(LineError::Unreadable) => return Err(ScriptError::BadLine(events.len() + 2)),
            Err(LineError::NoMemory) => return Err(ScriptError::NoMemory),
        }
    }
    Ok(events)
}

// The event that a line names.
fn hub_line(alloc: Global, hold_size: usize, line: &[u8]) -> Result<HubEvent, LineError>
    ensures { Reads result (line_event hold_size (words_of line.now)) }
{
    let (word, rest) = first_piece(line, BLANK);
    if word == b"open".as_slice() {
        open_line(rest)
    } else if word == b"turn".as_slice() {
        turn_line(rest).ok_or(LineError::Unreadable)
    } else {
        feed_line(alloc, hold_size, word, rest)
    }
}

// A connection is opened: no word follows.
fn open_line(rest: Option<&[u8]>) -> Result<HubEvent, LineError>
    ensures { Reads result (open_of (pieces_left 32 (option_copied rest.entry))) }
{
    let Some(words) = rest else {
        return Ok(HubEvent::Open);
    };
    match Pieces::new(words, BLANK).next() {
        Some(_) => Err(LineError::Unreadable),
        None => Ok(HubEvent::Open),
    }
}

// A turn of the connection whose number follows.
fn turn_line(rest: Option<&[u8]>) -> Option<HubEvent>
    ensures { result ≡ turn_of (pieces_left 32 (option_copied rest.entry)) }
{
    let word = Pieces::new(rest?, BLANK).only()?;
    Some(HubEvent::Turn(number(word)? as usize))
}

// An event that comes to the connection with this number from outside.
fn feed_line(
    alloc: Global,
    hold_size: usize,
    word: &[u8],
    rest: Option<&[u8]>,
) -> Result<HubEvent, LineError>
    ensures { Reads result (feed_of hold_size word.now (pieces_left 32 (option_copied rest.entry))) }
{
    let number = number(word).ok_or(LineError::Unreadable)?;
    let line = rest.ok_or(LineError::Unreadable)?;
    let event = event_line(alloc, hold_size, line)?;
    if is_fed(&event) {
        Ok(HubEvent::Feed(number as usize, event))
    } else {
        Err(LineError::Unreadable)
    }
}
