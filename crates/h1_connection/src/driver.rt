//! A connection's answers to a list of events.
ghost use Rattle.std.specs.Prelude.{◌≡◌, ◌≤◌, ℕ, length, vec_len, option_map, IfOk, IfErr, OnOk};
ghost use Rattle.model_state.specs.Local.{closing_by};
ghost use Rattle.h1_connection.specs.EventMeaning.{setting_of, end_of};
ghost use Rattle.h1_connection.specs.Run.{IsWhole, IsStop, AreAllowed, IsFirstRefused, AnswersAll, RefusesAt};
ghost use Rattle.h1_connection.specs.Steps.{paired, Notes};

use crate::{Connection, DriveError, Event, Noted, Outcome, Steps, Trace};
use http_types::{NoMemory, ServiceConfig};
use std::alloc::Global;

/// Brings the events to a new connection, one after the other, up to the first that isn't allowed. The trace lends them.
pub fn drive<'a>(
    alloc: Global,
    config: &ServiceConfig,
    events: &'a [Event],
) -> Result<Trace<'a>, DriveError<'a>>
    ensures ok { IfOk result (IsWhole config.now events.now) }
    ensures stopped { IfErr result (IsStop config.now events.now) }

    // Where each event is allowed none is refused, and where one isn't, the first such is.
    ensures complete { AreAllowed config.now events.now → AnswersAll result }
    ensures first { (index : ℕ) → IsFirstRefused config.now events.now index → RefusesAt index result }
{
    let mut connection = Connection::new(alloc, *config);
    let mut outcomes = Vec::with_capacity(alloc, events.len())?;
    for (index, event) in events.iter().enumerate() {
        if !connection.allowed(event) {
            let trace = trace_of(&connection, events, outcomes)?;
            return Err(DriveError::Misplaced(index, trace));
        }
        let outcome = connection.step(event)?;
        note(alloc, &mut outcomes, outcome)?;
    }
    let trace = trace_of(&connection, events, outcomes)?;
    Ok(trace)
}

// Notes an outcome behind the others.
fn note(alloc: Global, outcomes: &mut Vec<Noted>, outcome: Outcome) -> Result<(), NoMemory>
    ensures { OnOk result (Notes outcomes.old.items outcome outcomes.new.items) }
{
    let noted = Noted::new(alloc, outcome)?;
    outcomes.push(noted)?;
    Ok(())
}

// The trace of these outcomes behind their events, which left the connection as it is.
fn trace_of<'a>(
    connection: &Connection,
    events: &'a [Event],
    outcomes: Vec<Noted>,
) -> Result<Trace<'a>, NoMemory>
    requires { vec_len outcomes ≤ length events.now }
    ensures steps { IfOk result (λ trace. trace.steps ≡ paired events.now outcomes.items) }
    ensures buffered { IfOk result (λ trace. trace.buffered ≡ connection.now.kept.buffered) }
    ensures closing { IfOk result (λ trace. option_map end_of trace.closing ≡ closing_by (setting_of connection.now.settings) connection.now.kept) }
{
    let buffered = connection.copy_buffered()?;
    Ok(Trace {
        steps: Steps::new(events, outcomes),
        buffered,
        closing: connection.closing(),
    })
}
