//! The report of a hub's trace.
ghost use Rattle.std.specs.Prelude.{◌≡◌, ◌++◌, OnOk, IfOk, decimal, codes};
ghost use Rattle.h1_replay.specs.Text.{Adds};
ghost use Rattle.h1_replay.specs.HubReport.{mover_words, IsStepLine, AreStepLines, buffered_line, buffered_lines, IsReport};

use crate::outcome::put_outcome;
use crate::{put_named_hex, put_number};
use bytes::Bytes;
use rooms::{HubEvent, HubOutcome, HubStep, HubTrace, NoMemory};
use std::alloc::Global;

/// A line for each outcome of the trace, and then, of each connection by its number, the bytes that are still to be
/// written.
pub fn hub_report_of(alloc: Global, trace: &HubTrace<'_>) -> Result<Vec<u8>, NoMemory>
    ensures { IfOk result (λ text. IsReport trace.now text.items) }
{
    let mut text = step_lines(alloc, &trace.steps)?;
    put_buffered_lines(alloc, &mut text, &trace.buffered)?;
    Ok(text)
}

fn step_lines(alloc: Global, steps: &[HubStep<'_>]) -> Result<Vec<u8>, NoMemory>
    ensures { IfOk result (λ text. AreStepLines steps.now text.items) }
{
    let mut text = Vec::new(alloc);
    for step in steps {
        put_step(alloc, &mut text, step)?;
        text.extend_from_slice(b"\n")?;
    }
    Ok(text)
}

// The number of a connection that was opened, or what came of an event of one.
fn put_step(alloc: Global, text: &mut Vec<u8>, step: &HubStep<'_>) -> Result<(), NoMemory>
    ensures { OnOk result (Adds (IsStepLine step.now) text.old.items text.new.items) }
{
    match &step.outcome {
        HubOutcome::Opened(number) => {
            text.extend_from_slice(b"opened ")?;
            put_number(text, *number as u64)
        }
        HubOutcome::Core(_, outcome) => {
            put_mover(text, step.event)?;
            put_outcome(alloc, text, outcome.get())
        }
    }
}

// The number of the connection to which the event comes, and a blank.
fn put_mover(text: &mut Vec<u8>, event: &HubEvent) -> Result<(), NoMemory>
    ensures { OnOk result (text.new.items ≡ text.old.items ++ mover_words event.now) }
{
    match event {
        HubEvent::Open => Ok(()),
        HubEvent::Feed(number, _) => put_numbered(text, *number),
        HubEvent::Turn(number) => put_numbered(text, *number),
    }
}

fn put_numbered(text: &mut Vec<u8>, number: usize) -> Result<(), NoMemory>
    ensures { OnOk result (text.new.items ≡ text.old.items ++ (decimal number ++ codes " ")) }
{
    put_number(text, number as u64)?;
    text.extend_from_slice(b" ")
}

fn put_buffered_lines(alloc: Global, text: &mut Vec<u8>, buffered: &[Bytes]) -> Result<(), NoMemory>
    ensures { OnOk result (text.new.items ≡ text.old.items ++ buffered_lines 0 buffered.now) }
{
    for (number, bytes) in buffered.iter().enumerate() {
        put_buffered_line(alloc, text, number, bytes)?;
    }
    Ok(())
}

// The bytes that the connection with this number has still to write.
fn put_buffered_line(
    alloc: Global,
    text: &mut Vec<u8>,
    number: usize,
    bytes: &[u8],
) -> Result<(), NoMemory>
    ensures { OnOk result (text.new.items ≡ text.old.items ++ buffered_line number bytes.now) }
{
    put_number(text, number as u64)?;
    put_named_hex(alloc, text, b" buffered ", bytes)?;
    text.extend_from_slice(b"\n")
}
