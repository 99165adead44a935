//! The summary of a generated run.
ghost use Rattle.std.specs.Prelude.{◌≡◌, ◌≤◌, ◌<◌, ◌+◌, ◌++◌, ◌^◌, ℕ, length, map, codes, decimal, IfOk, OnOk};
ghost use Rattle.http_config.specs.Config.{default_settings};
ghost use Rattle.h1_connection.specs.EventMeaning.{event_of};
ghost use Rattle.h1_connection.specs.Run.{IsWhole, AnswersAll};
ghost use Rattle.h1_connection.specs.Steps.{outcome_of};
ghost use Rattle.h1_generated.specs.Generated.{generated};
ghost use Rattle.h1_generated.specs.Summary.{count_line, summary_text};
ghost use Rattle.h1_generated.specs.GeneratedMeaning.{model_counts};
ghost use Rattle.h1_generated.specs.Run.{IsSummary, DoFit, totals, taken_by, heads_by, body_by, given_by, all_taken, all_heads, all_body, all_given};

use crate::events::generate;
use h1_connection::{DriveError, Event, Noted, Step, Trace, drive};
use http_types::{NoMemory, ServiceConfig};
use itoa::Buffer;
use std::alloc::{AllocError, Global};

/// The most exchanges that are summed up.
pub const MAX_COUNT: u64 = 20_000;

/// Brings the events of so many exchanges of a seed to a new connection with the usual settings, and sums up what came of
/// them, with a word and a number on each line: the events, the bytes taken, the heads handed out, the bytes of bodies
/// handed out, and the bytes that were written or wait to be. The last line is the connection's state, which is `open`. The
/// only error is that memory ran out.
pub fn summary_of(alloc: Global, seed: u64, count: u64) -> Result<Vec<u8>, NoMemory>
    requires few { count ≤ MAX_COUNT }
    ensures { IfOk result (λ text. IsSummary seed count text.items) }
{
    let events = generate(alloc, seed, count)?;
    match run(alloc, events.as_slice()) {
        Ok(trace) => summary_text(alloc, counts_of(&trace)),
        Err(_) => Err(AllocError),
    }
}

// What a new connection makes of the events. It refuses none that is generated, so that the only error then is that
// memory ran out.
fn run<'a>(alloc: Global, events: &'a [Event]) -> Result<Trace<'a>, DriveError<'a>>
    ensures ok { IfOk result (IsWhole default_settings events.now) }
    ensures none_is_refused { (seed count : ℕ) → count < 2 ^ 64 → map event_of events.now ≡ generated seed count → AnswersAll result }
{
    drive(alloc, &ServiceConfig::default(), events)
}

/// How many events there were and heads, and how many bytes were taken, were of bodies, and were written or wait to be.
#[derive(Clone, Copy, Debug, PartialEq, Eq)]
pub(crate) struct Counts {
    events: u64,
    taken: u64,
    heads: u64,
    body: u64,
    text: u64,
}

fn counts_of(trace: &Trace<'_>) -> Counts
    requires { DoFit trace.now }
    ensures { model_counts result ≡ totals trace.now }
{
    let mut counts = Counts {
        events: trace.steps.len() as u64,
        taken: 0,
        heads: 0,
        body: 0,
        text: trace.buffered.len() as u64,
    };
    for step in trace.steps.iter() {
        counts = with_step(counts, &step);
    }
    counts
}

// One more step, which adds to one of the counts.
fn with_step(counts: Counts, step: &Step<'_>) -> Counts
    requires taken { counts.taken + taken_by step.now.event step.now.outcome < 2 ^ 64 }
    requires heads { counts.heads + heads_by step.now.outcome < 2 ^ 64 }
    requires body { counts.body + body_by step.now.outcome < 2 ^ 64 }
    requires text { counts.text + given_by step.now.outcome < 2 ^ 64 }
    ensures events { result.events ≡ counts.events }
    ensures taken { result.taken ≡ counts.taken + taken_by step.now.event step.now.outcome }
    ensures heads { result.heads ≡ counts.heads + heads_by step.now.outcome }
    ensures body { result.body ≡ counts.body + body_by step.now.outcome }
    ensures text { result.text ≡ counts.text + given_by step.now.outcome }
{
    let outcome = step.outcome();
    Counts {
        events: counts.events,
        taken: counts.taken + taken_by(step.event(), outcome),
        heads: counts.heads + heads_by(outcome),
        body: counts.body + body_by(outcome),
        text: counts.text + given_by(outcome),
    }
}

// How many bytes of a read were taken.
fn taken_by(event: &Event, outcome: &Noted) -> u64
    ensures { result ≡ taken_by event.now (outcome_of outcome.now) }
{
    match (event, outcome) {
        (Event::Read(bytes), Noted::Took(count)) => bytes.len().min(*count) as u64,
        _ => 0,
    }
}

fn heads_by(outcome: &Noted) -> u64
    ensures { result ≡ heads_by (outcome_of outcome.now) }
{
    match outcome {
        Noted::Head(_) => 1,
        _ => 0,
    }
}

fn body_by(outcome: &Noted) -> u64
    ensures { result ≡ body_by (outcome_of outcome.now) }
{
    match outcome {
        Noted::Bytes(bytes) => bytes.len() as u64,
        _ => 0,
    }
}

fn given_by(outcome: &Noted) -> u64
    ensures { result ≡ given_by (outcome_of outcome.now) }
{
    match outcome {
        Noted::Gave(bytes) => bytes.len() as u64,
        _ => 0,
    }
}

// The counts of a connection that is open.
fn summary_text(alloc: Global, counts: Counts) -> Result<Vec<u8>, NoMemory>
    ensures { IfOk result (λ text. text.items ≡ summary_text (model_counts counts) (codes "open")) }
{
    let mut text = Vec::new(alloc);
    put_count(&mut text, b"events", counts.events)?;
    put_count(&mut text, b"taken", counts.taken)?;
    put_count(&mut text, b"heads", counts.heads)?;
    put_count(&mut text, b"body", counts.body)?;
    put_count(&mut text, b"text", counts.text)?;
    text.extend_from_slice(b"state open\n")?;
    Ok(text)
}

// A word and a number on a line.
fn put_count(text: &mut Vec<u8>, word: &[u8], number: u64) -> Result<(), NoMemory>
    ensures { OnOk result (text.new.items ≡ text.old.items ++ count_line word.now number) }
{
    let mut digits = Buffer::new();
    text.extend_from_slice(word)?;
    text.extend_from_slice(b" ")?;
    text.extend_from_slice(digits.format(number).as_bytes())?;
    text.extend_from_slice(b"\n")?;
    Ok(())
}
