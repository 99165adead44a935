//! What the program answers, made whole before any of it is written.
ghost use Rattle.std.specs.Prelude.{◌≡◌, ◌≤◌, IfOk};
ghost use Rattle.h1_replay.specs.Run.{numbered_line, IsStoppedText};
ghost use Rattle.h1_replay.specs.Reply.{status_of_reply, text_of_reply, IsReplyTo};

use crate::report::report_of;
use crate::script::{ScriptError, read_script};
use crate::text::put_number;
use h1_connection::{DriveError, Trace, drive};
use http_types::NoMemory;
use std::alloc::{AllocError, Global};

/// The exit status where a write failed.
pub const WRITE_FAULT: u8 = 5;

/// An answer, with its text where that isn't always the same.
#[derive(Drop)]
pub enum Reply {
    /// The report of a script whose every event was allowed, or the summary of a generated run.
    Done(Vec<u8>),
    /// The words are no command.
    Usage,
    /// A line of the script isn't of the grammar.
    BadLine(Vec<u8>),
    /// An event isn't allowed: the report of those before it, and its place.
    Misplaced(Vec<u8>),
    /// A read failed.
    ReadFault,
    /// More input came than is read.
    TooLong,
    /// Memory ran out.
    NoMemory,
}

impl Reply {
    /// The exit status.
    pub fn status(&self) -> u8
        ensures value { result ≡ status_of_reply self.now }
        ensures known { result ≤ 7 }
    {
        match self {
            Reply::Done(_) => 0,
            Reply::Usage => 1,
            Reply::BadLine(_) => 2,
            Reply::Misplaced(_) => 3,
            Reply::ReadFault => 4,
            Reply::TooLong => 6,
            Reply::NoMemory => 7,
        }
    }

    /// What goes to the output.
    pub fn text(&self) -> &[u8]
        ensures { result.now ≡ text_of_reply self.now }
    {
        match self {
            Reply::Done(text) | Reply::BadLine(text) | Reply::Misplaced(text) => text.as_slice(),
            Reply::Usage => b"usage: h1_run replay | h1_run gen SEED COUNT\n",
            Reply::ReadFault => b"read fault\n",
            Reply::TooLong => b"too long\n",
            Reply::NoMemory => b"no memory\n",
        }
    }
}

/// Reads the input as a script, runs its events and reports what came of them.
pub fn replay(alloc: Global, input: &[u8]) -> Reply
    ensures { IsReplyTo input.now result }
{
    match try_replay(alloc, input) {
        Ok(reply) => reply,
        Err(_) => Reply::NoMemory,
    }
}

fn try_replay(alloc: Global, input: &[u8]) -> Result<Reply, NoMemory>
    ensures { IfOk result (IsReplyTo input.now) }
{
    let script = match read_script(alloc, input) {
        Ok(script) => script,
        Err(ScriptError::BadLine(line)) => {
            return Ok(Reply::BadLine(numbered_line(alloc, b"bad line ", line)?));
        }
        Err(ScriptError::NoMemory) => return Err(AllocError),
    };
    match drive(alloc, &script.config, &script.events) {
        Ok(trace) => Ok(Reply::Done(report_of(alloc, &trace)?)),
        Err(DriveError::Misplaced(index, trace)) => Ok(Reply::Misplaced(stopped(
            alloc,
            &trace,
            b"misplaced ",
            index,
        )?)),
        Err(DriveError::NoMemory) => Err(AllocError),
    }
}

// The report of a run that stopped, and a line with the place of the event that stopped it.
fn stopped(alloc: Global, trace: &Trace, word: &[u8], index: usize) -> Result<Vec<u8>, NoMemory>
    ensures { IfOk result (λ text. IsStoppedText trace.now word.now index text.items) }
{
    let mut text = report_of(alloc, trace)?;
    let line = numbered_line(alloc, word, index)?;
    text.extend_from_slice(&line)?;
    Ok(text)
}

/// A line of a word and a number.
pub fn numbered_line(alloc: Global, word: &[u8], number: usize) -> Result<Vec<u8>, NoMemory>
    ensures { IfOk result (λ line. line.items ≡ numbered_line word.now number) }
{
    let mut line = Vec::from_slice(alloc, word)?;
    put_number(&mut line, number as u64)?;
    line.extend_from_slice(b"\n")?;
    Ok(line)
}
