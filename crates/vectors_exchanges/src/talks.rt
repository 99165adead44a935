//! Talks: a client and a server that are driven against each other, over each cut of the bytes that go between them. What
//! one hands out has to be what the other was given. A file has blocks; the crate's page says what their lines mean.
mod client;
mod ends;
mod handed;
mod server;
mod talk;

use crate::talks::ends::{Cut, Outcome, Way, play};
use crate::talks::talk::{Exchange, read_talk};
use http_types::NoMemory;
use std::alloc::{AllocError, AllocGlobal, Global};
use std::io;
use vectors::{Block, BlockPlayer, CaseError, Form, Report, put_unreadable};

/// Plays talks.
#[derive(Clone, Copy, Debug)]
pub struct Talks;

impl<R: AllocGlobal> BlockPlayer<R> for Talks {
    fn kind(&self) -> &str {
        "talks"
    }

    fn form(&self) -> Form {
        Form::Quoted
    }

    fn play_block(&self, rt: &R, block: &Block<'_>, different: &mut Report) -> io::Result<bool> {
        Ok(is_so(rt.alloc(), block, different)?)
    }
}

// Whether both hand out what they have to, in each way and over each cut. The first that differs is written to
// `different`.
fn is_so(alloc: Global, block: &Block<'_>, different: &mut Report) -> Result<bool, NoMemory> {
    match read_talk(alloc, block.script.as_slice()) {
        Ok(talk) => goes_both_ways(alloc, block, talk.as_slice(), different),
        Err(CaseError::NoMemory) => Err(AllocError),
        Err(CaseError::Unreadable) => {
            put_unreadable(block.name, different);
            Ok(false)
        }
    }
}

fn goes_both_ways(
    alloc: Global,
    block: &Block<'_>,
    talk: &[Exchange],
    different: &mut Report,
) -> Result<bool, NoMemory> {
    if !goes(alloc, block, talk, Way::InTurn, different)? {
        return Ok(false);
    }
    goes(alloc, block, talk, Way::Ahead, different)
}

// Whether it goes so in this way: with nothing cut, cut at each place, and byte by byte.
fn goes(
    alloc: Global,
    block: &Block<'_>,
    talk: &[Exchange],
    way: Way,
    different: &mut Report,
) -> Result<bool, NoMemory> {
    let whole = play(alloc, talk, way, Cut::Nowhere);
    if !is_right(alloc, block, way, Cut::Nowhere, &whole, different)? {
        return Ok(false);
    }
    for place in 1..whole.most {
        if !goes_with(alloc, block, talk, way, Cut::At(place), different)? {
            return Ok(false);
        }
    }
    goes_with(alloc, block, talk, way, Cut::Everywhere, different)
}

fn goes_with(
    alloc: Global,
    block: &Block<'_>,
    talk: &[Exchange],
    way: Way,
    cut: Cut,
    different: &mut Report,
) -> Result<bool, NoMemory> {
    let found = play(alloc, talk, way, cut);
    is_right(alloc, block, way, cut, &found, different)
}

fn is_right(
    alloc: Global,
    block: &Block<'_>,
    way: Way,
    cut: Cut,
    found: &Outcome,
    different: &mut Report,
) -> Result<bool, NoMemory> {
    let mut how = Report::new(alloc);
    how.put_text(way.name());
    put_cut(cut, &mut how);
    block.is_met(&found.text, &how, different)
}

fn put_cut(cut: Cut, text: &mut Report) {
    match cut {
        Cut::Nowhere => {}
        Cut::At(place) => {
            text.put_text(", cut at ");
            text.put_decimal(place as u64);
        }
        Cut::Everywhere => text.put_text(", byte by byte"),
    }
}
