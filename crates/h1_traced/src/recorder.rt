//! Who notes the steps of a connection.
ghost use Rattle.std.specs.Prelude.{◌≡◌, Bool, false, Option, Some, None, List, [], ◌∷◌, ◌++◌, OnOk, OnErr};
ghost use Rattle.http_bodies.specs.Told.{Grows};
ghost use Rattle.h1_connection.specs.Steps.{Pair};

use h1_connection::{Event, NoMemory, Outcome};
use std::alloc::Global;
use std::marker::Model;

/// Who notes the steps of a connection: each event, and what the connection answered to it.
pub trait Recorder: Drop {
    /// The steps that it noted, the oldest first, if they are known.
    ghost noted: { Self → Option (List Pair) };

    /// Whether it is told of the steps.
    ghost is_listening: { Self → Bool };

    /// Whether it is to be told of the steps. Where it isn't, no event is made as a value, and nothing is copied for it.
    fn listens(&self) -> bool
        ensures value { result ≡ is_listening self.now }
        ensures unheard { is_listening self.now ≡ false → noted self.now ≡ None };

    /// Notes a step. Where memory runs out, nothing is noted.
    fn note(&mut self, event: &Event, outcome: &Outcome) -> Result<(), NoMemory>
        ensures ok { OnOk result (Grows (noted self.old) (noted self.new) (record { event = event.now; outcome = outcome.now } ∷ [])) }
        ensures err { OnErr result (Grows (noted self.old) (noted self.new) []) }
        ensures listening { is_listening self.new ≡ is_listening self.old };
}

/// Notes nothing, and is told of nothing.
#[derive(Debug, Drop)]
pub struct NoRecord;

impl Recorder for NoRecord {
    ghost use Rattle.std.specs.Prelude.{false};

    ghost noted = { λ _. None };

    ghost is_listening = { λ _. false };

    fn listens(&self) -> bool {
        false
    }

    fn note(&mut self, _event: &Event, _outcome: &Outcome) -> Result<(), NoMemory> {
        Ok(())
    }
}

/// A step that was noted. A clause sees the event beside its outcome.
#[derive(Debug, Drop)]
pub struct Note {
    event: Event,
    outcome: Outcome,
}

impl Model for Note {
    ghost use Rattle.h1_connection.specs.Steps.{Pair};

    ghost Value = { Pair };

    ghost view = { λ n. record { event = n.event; outcome = n.outcome } };
}

impl Note {
    /// The event.
    pub fn event(&self) -> &Event
        ensures { result.now ≡ self.now.event }
    {
        &self.event
    }

    /// What the connection answered to it.
    pub fn outcome(&self) -> &Outcome
        ensures { result.now ≡ self.now.outcome }
    {
        &self.outcome
    }
}

/// Keeps every step that it notes. A clause sees it as the list of them, the oldest first.
#[derive(Debug, Drop)]
pub struct VecRecorder {
    notes: Vec<Note>,
}

impl Model for VecRecorder {
    ghost use Rattle.std.specs.Prelude.{List};
    ghost use Rattle.h1_connection.specs.Steps.{Pair};

    ghost Value = { List Pair };

    ghost view = { λ r. r.notes.items };
}

impl VecRecorder {
    /// A recorder that has noted nothing. It takes no memory.
    pub fn new(alloc: Global) -> VecRecorder
        ensures { result ≡ [] }
    {
        VecRecorder {
            notes: Vec::new(alloc),
        }
    }

    /// The steps that it noted, the oldest first.
    pub fn steps(&self) -> &[Note]
        ensures { result.now ≡ self.now }
    {
        self.notes.as_slice()
    }
}

impl Recorder for VecRecorder {
    ghost use Rattle.std.specs.Prelude.{true, Some};

    ghost noted = { λ r. Some r };

    ghost is_listening = { λ _. true };

    fn listens(&self) -> bool {
        true
    }

    fn note(&mut self, event: &Event, outcome: &Outcome) -> Result<(), NoMemory> {
        let note = Note {
            event: event.copy()?,
            outcome: outcome.copy()?,
        };
        self.notes.push(note)?;
        Ok(())
    }
}
