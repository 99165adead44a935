//! Whole connections of a dispatcher over transports in memory, each with the report that it has to get. A file has blocks; the
//! crate's page says what their lines mean.
mod body;
mod guest;
mod play;
mod reply;
mod report;
mod service;
mod setup;
mod silence;
mod step;
mod transport;

use crate::dispatch::play::play;
use crate::dispatch::setup::{Cut, Setup, keep};
use crate::dispatch::step::{Step, step_of};
use h1_traced::{NoRecord, Recorder, VecRecorder};
use std::alloc::{AllocError, AllocGlobal, Global};
use std::io;
use std::random::RandomSource;
use vectors::{Block, BlockPlayer, CaseError, Cursor, Form, Report, put_unreadable};

/// Plays connections.
#[derive(Clone, Copy, Debug)]
pub struct Connections;

impl<R: RandomSource + AllocGlobal> BlockPlayer<R> for Connections {
    fn kind(&self) -> &str {
        "connections"
    }

    fn form(&self) -> Form {
        Form::Quoted
    }

    fn play_block(&self, rt: &R, block: &Block<'_>, different: &mut Report) -> io::Result<bool> {
        match read_plan(rt.alloc(), block.script.as_slice()) {
            Ok(plan) => plan.is_answered(rt, block, different),
            Err(CaseError::NoMemory) => Err(io::Error::from(AllocError)),
            Err(CaseError::Unreadable) => {
                put_unreadable(block.name, different);
                Ok(false)
            }
        }
    }
}

// What a connection begins with, and what is done.
#[derive(Drop)]
struct Plan {
    setup: Setup,
    steps: Vec<Step>,
}

// The plan that the lines say.
fn read_plan(alloc: Global, lines: &[&[u8]]) -> Result<Plan, CaseError> {
    let mut plan = Plan {
        setup: Setup::new(alloc),
        steps: Vec::new(alloc),
    };
    plan.take_all(alloc, lines)?;
    Ok(plan)
}

impl Plan {
    fn take_all(&mut self, alloc: Global, lines: &[&[u8]]) -> Result<(), CaseError> {
        for line in lines {
            self.take(alloc, line)?;
        }
        Ok(())
    }

    // Takes a line.
    fn take(&mut self, alloc: Global, line: &[u8]) -> Result<(), CaseError> {
        let mut words = Cursor::new(line);
        let word = words.word();
        match step_of(word, words) {
            Some(step) => Ok(keep(&mut self.steps, step)?),
            None => self.setup.take(alloc, word, words),
        }
    }

    // Whether the connection gets the report, however the transport cuts, with a recorder and without. Where it does not,
    // what it gets is written to `different`.
    fn is_answered<R: RandomSource + AllocGlobal>(
        &self,
        rt: &R,
        block: &Block<'_>,
        different: &mut Report,
    ) -> io::Result<bool> {
        for number in 0..self.setup.cuts() {
            let cut = self.setup.cut(number);
            if !self.is_answered_by(rt, block, cut, different)? {
                return Ok(false);
            }
        }
        Ok(true)
    }

    fn is_answered_by<R: RandomSource + AllocGlobal>(
        &self,
        rt: &R,
        block: &Block<'_>,
        cut: Cut,
        different: &mut Report,
    ) -> io::Result<bool> {
        if !self.plays(rt, block, cut, NoRecord, different)? {
            return Ok(false);
        }
        self.plays(rt, block, cut, VecRecorder::new(rt.alloc()), different)
    }

    fn plays<R: RandomSource + AllocGlobal, L: Recorder>(
        &self,
        rt: &R,
        block: &Block<'_>,
        cut: Cut,
        recorder: L,
        different: &mut Report,
    ) -> io::Result<bool> {
        let mut found = Report::new(rt.alloc());
        play(
            rt,
            &self.setup,
            self.steps.as_slice(),
            cut,
            recorder,
            &mut found,
        )?;
        Ok(block.is_met(&found, &Report::new(rt.alloc()), different)?)
    }
}
