//! What the program answers, made whole before any of it is written.
ghost use Rattle.std.specs.Prelude.{◌≡◌, ◌≤◌, IfOk};
ghost use Rattle.h1_replay.specs.HubRun.{IsStoppedText};
ghost use Rattle.h1_replay.specs.HubReply.{status_of_reply, text_of_reply, IsReplyTo};

use crate::hub_report::hub_report_of;
use crate::hub_script::{ScriptError, read_hub_script};
use crate::numbered_line;
use rooms::{HubError, HubTrace, NoMemory, drive_hub};
use std::alloc::{AllocError, Global};

/// The exit status where a write failed.
pub const WRITE_FAULT: u8 = 5;

/// An answer, with its text where that isn't always the same.
#[derive(Drop)]
pub enum HubReply {
    /// The report of a script whose every event was taken.
    Done(Vec<u8>),
    /// The words are no command.
    Usage,
    /// A line of the script isn't of the grammar.
    BadLine(Vec<u8>),
    /// An event is refused: the report of those before it, and its place.
    Misplaced(Vec<u8>),
    /// A read failed.
    ReadFault,
    /// More input came than is read.
    TooLong,
    /// Memory ran out.
    NoMemory,
}

impl HubReply {
    /// The exit status.
    pub fn status(&self) -> u8
        ensures value { result ≡ status_of_reply self.now }
        ensures known { result ≤ 7 }
    {
        match self {
            HubReply::Done(_) => 0,
            HubReply::Usage => 1,
            HubReply::BadLine(_) => 2,
            HubReply::Misplaced(_) => 3,
            HubReply::ReadFault => 4,
            HubReply::TooLong => 6,
            HubReply::NoMemory => 7,
        }
    }

    /// What goes to the output.
    pub fn text(&self) -> &[u8]
        ensures { result.now ≡ text_of_reply self.now }
    {
        match self {
            HubReply::Done(text) | HubReply::BadLine(text) | HubReply::Misplaced(text) =>
                text.as_slice(),
            HubReply::Usage => b"usage: ws_hub replay\n",
            HubReply::ReadFault => b"read fault\n",
            HubReply::TooLong => b"too long\n",
            HubReply::NoMemory => b"no memory\n",
        }
    }
}

/// Reads the input as a script, brings its events to a new hub and reports what came of them.
pub fn hub_replay(alloc: Global, input: &[u8]) -> HubReply
    ensures { IsReplyTo input.now result }
{
    match try_replay(alloc, input) {
        Ok(reply) => reply,
        Err(_) => HubReply::NoMemory,
    }
}

fn try_replay(alloc: Global, input: &[u8]) -> Result<HubReply, NoMemory>
    ensures { IfOk result (IsReplyTo input.now) }
{
    let script = match read_hub_script(alloc, input) {
        Ok(script) => script,
        Err(ScriptError::BadLine(line)) => {
            return Ok(HubReply::BadLine(numbered_line(alloc, b"bad line ", line)?));
        }
        Err(ScriptError::NoMemory) => return Err(AllocError),
    };
    match drive_hub(alloc, &script.config, &script.events) {
        Ok(trace) => Ok(HubReply::Done(hub_report_of(alloc, &trace)?)),
        Err(HubError::Misplaced(index, trace)) => {
            Ok(HubReply::Misplaced(stopped(alloc, &trace, index)?))
        }
        Err(HubError::NoMemory) => Err(AllocError),
    }
}

// The report of a run that stopped, and a line with the place of the event that stopped it.
fn stopped(alloc: Global, trace: &HubTrace<'_>, index: usize) -> Result<Vec<u8>, NoMemory>
    ensures { IfOk result (λ text. IsStoppedText trace.now index text.items) }
{
    let mut text = hub_report_of(alloc, trace)?;
    let line = numbered_line(alloc, b"misplaced ", index)?;
    text.extend_from_slice(&line)?;
    Ok(text)
}
