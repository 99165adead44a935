//! A hub's answers to a list of events.
ghost use Rattle.std.specs.Prelude.{◌≡◌, ℕ, [], ◌∷◌, ◌++◌, IfOk, IfErr, OnOk};
ghost use Rattle.rooms.specs.Run.{IsWhole, IsStop, AreAllowed, IsFirstRefused, AnswersAll, RefusesAt};
ghost use Rattle.rooms.specs.declared.driver.HubError.TheVariants as hub_error;

use crate::event::{HubEvent, HubOutcome};
use crate::hub::Hub;
use bytes::Bytes;
use h1_connection::{NoMemory, ServiceConfig};
use std::alloc::Global;
use std::marker::Model;
use thiserror::Error;

/// An event, and what the hub answered to it.
#[derive(Debug, Drop)]
pub struct HubStep<'a> {
    pub event: &'a HubEvent,
    pub outcome: HubOutcome,
}

impl<'a> Model for HubStep<'a> {
    ghost use Rattle.rooms.specs.Pair.{Pair};

    ghost Value = { Pair };

    ghost view = { λ s. record { event = s.event.now; outcome = s.outcome } };
}

/// A run of a hub: what came and was answered, and the bytes that each connection still has to write, by its number.
#[derive(Debug, Drop)]
pub struct HubTrace<'a> {
    pub steps: Vec<HubStep<'a>>,
    pub buffered: Vec<Bytes>,
}

/// Why a run of events was not a whole one.
#[derive(Debug, Drop, Error)]
pub enum HubError<'a> {
    /// The event at this place, from 0, was refused after the trace of those before it.
    #[error("event {0} is misplaced")]
    Misplaced(usize, HubTrace<'a>),

    /// There was no memory.
    #[error("no memory is left")]
    NoMemory,
}

impl<'a> From<NoMemory> for HubError<'a> {
    ghost from_gives = { λ _ error. error ≡ hub_error.NoMemory };

    fn from(_error: NoMemory) -> HubError<'a> {
        HubError::NoMemory
    }
}

/// Brings the events to a new hub, one after the other, up to the first that is refused. The trace lends them.
pub fn drive_hub<'a>(
    alloc: Global,
    config: &ServiceConfig,
    events: &'a [HubEvent],
) -> Result<HubTrace<'a>, HubError<'a>>
    ensures ok { IfOk result (IsWhole config.now events.now) }
    ensures stopped { IfErr result (IsStop config.now events.now) }

    // Where each event is taken none is refused, and where one isn't, the first such is.
    ensures complete { AreAllowed config.now events.now → AnswersAll result }
    ensures first { (index : ℕ) → IsFirstRefused config.now events.now index → RefusesAt index result }
{
    let mut hub = Hub::new(alloc, *config);
    let mut steps = Vec::new(alloc);
    for (index, event) in events.iter().enumerate() {
        let Some(outcome) = hub.step(event)? else {
            let buffered = hub.buffered()?;
            return Err(HubError::Misplaced(index, HubTrace { steps, buffered }));
        };
        note(&mut steps, event, outcome)?;
    }
    let buffered = hub.buffered()?;
    Ok(HubTrace { steps, buffered })
}

// Notes a step after the others.
fn note<'a>(
    steps: &mut Vec<HubStep<'a>>,
    event: &'a HubEvent,
    outcome: HubOutcome,
) -> Result<(), NoMemory>
    ensures { OnOk result (steps.new.items ≡ steps.old.items ++ record { event = event.now; outcome = outcome } ∷ []) }
{
    steps.push(HubStep { event, outcome })?;
    Ok(())
}
