//! What a run of events gave.
ghost use Rattle.std.specs.Prelude.{◌≡◌, length, Some, IfSome};
ghost use Rattle.std.specs.Iterator.SizeHint.{IsWithinCount};
ghost use Rattle.std.specs.Iterator.{UpTo, at_most, YieldsFirst, item_count};

use crate::{End, Event, Noted};
use bytes::Bytes;
use std::iter::FusedIterator;
use std::marker::Model;

/// An event and what the connection answered to it. A clause sees the outcome itself.
#[derive(Debug, Drop)]
pub struct Step<'a> {
    event: &'a Event,
    outcome: &'a Noted,
}

impl<'a> Model for Step<'a> {
    ghost use Rattle.h1_connection.specs.Steps.{Pair, pair};

    ghost Value = { Pair };

    ghost view = { λ s. pair s.event.now s.outcome.now };
}

impl<'a> Step<'a> {
    ghost use Rattle.std.specs.Prelude.{◌≡◌};
    ghost use Rattle.h1_connection.specs.Steps.{outcome_of};

    /// The event.
    pub fn event(&self) -> &'a Event
        ensures { result.now ≡ self.now.event }
    {
        self.event
    }

    /// What the connection answered to it.
    pub fn outcome(&self) -> &'a Noted
        ensures { outcome_of result.now ≡ self.now.outcome }
    {
        self.outcome
    }
}

/// The steps of a run, in their order. A clause sees them as that list.
#[derive(Debug, Drop)]
pub struct Steps<'a> {
    events: &'a [Event],
    // One for each event.
    outcomes: Vec<Noted>,
}

impl<'a> Model for Steps<'a> {
    ghost use Rattle.std.specs.Prelude.{◌≡◌, List, length};
    ghost use Rattle.h1_connection.specs.Steps.{Pair, paired};

    ghost Value = { List Pair };

    ghost view = { λ s. paired s.events.now s.outcomes.items };

    ghost invariant = { λ s. length s.events.now ≡ length s.outcomes.items };
}

impl<'a> Steps<'a> {
    ghost use Rattle.std.specs.Prelude.{◌≡◌, ◌==◌, ◌≤◌, length, slice_get, vec_len};
    ghost use Rattle.h1_connection.specs.Steps.{paired};

    /// The outcomes behind their events; further events are left out.
    pub(crate) fn new(events: &'a [Event], outcomes: Vec<Noted>) -> Steps<'a>
        requires { vec_len outcomes ≤ length events.now }
        ensures { result ≡ paired events.now outcomes.items }
    {
        Steps {
            events: &events[..outcomes.len()],
            outcomes,
        }
    }

    /// How many steps there are.
    pub fn len(&self) -> usize
        ensures { result ≡ length self.now }
    {
        self.outcomes.len()
    }

    /// Whether there is no step.
    pub fn is_empty(&self) -> bool
        ensures { result ≡ (length self.now == 0) }
    {
        self.len() == 0
    }

    /// The step at this place, from 0.
    pub fn get(&self, index: usize) -> Option<Step<'_>>
        ensures { result ≡ slice_get self.now index }
    {
        let event = self.events.get(index)?;
        let outcome = self.outcomes.get(index)?;
        Some(Step { event, outcome })
    }

    /// The steps, one after the other.
    pub fn iter(&self) -> StepsIter<'_>
        ensures { result ≡ self.now }
    {
        StepsIter {
            events: self.events,
            outcomes: self.outcomes.as_slice(),
        }
    }
}

/// Goes over the steps of a run. A clause sees it as the list of those still to come.
#[derive(Debug, Drop)]
pub struct StepsIter<'a> {
    events: &'a [Event],
    outcomes: &'a [Noted],
}

impl<'a> Model for StepsIter<'a> {
    ghost use Rattle.std.specs.Prelude.{◌≡◌, List, length};
    ghost use Rattle.h1_connection.specs.Steps.{Pair, paired};

    ghost Value = { List Pair };

    ghost view = { λ it. paired it.events.now it.outcomes.now };

    ghost invariant = { λ it. length it.events.now ≡ length it.outcomes.now };
}

impl<'a> Iterator for StepsIter<'a> {
    type Item = Step<'a>;

    ghost next_gives = { YieldsFirst (λ it. it) };

    ghost remaining = { item_count (λ it. it) };

    fn next(&mut self) -> Option<Step<'a>> {
        let (event, events) = self.events.split_first()?;
        let (outcome, outcomes) = self.outcomes.split_first()?;
        self.events = events;
        self.outcomes = outcomes;
        Some(Step { event, outcome })
    }

    fn size_hint(&self) -> (usize, Option<usize>)
        ensures lower { IsWithinCount result.0 (at_most (length self.now)) }
        ensures upper { IfSome result.1 (UpTo (at_most (length self.now))) }
        ensures exact { result ≡ (length self.now, Some (length self.now)) }
    {
        let len = self.len();
        (len, Some(len))
    }
}

impl<'a> ExactSizeIterator for StepsIter<'a> {
    fn len(&self) -> usize {
        self.outcomes.len()
    }
}

impl<'a> FusedIterator for StepsIter<'a> {}

/// A run of a connection: what came and was answered, and how the connection stands afterwards.
#[derive(Debug, Drop)]
pub struct Trace<'a> {
    pub steps: Steps<'a>,

    /// The bytes that are to be written and were not given yet.
    pub buffered: Bytes,

    /// Why the connection is to end, where it is.
    pub closing: Option<End>,
}
