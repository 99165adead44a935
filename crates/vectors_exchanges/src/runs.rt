//! Generated runs: what a new connection takes, hands out and writes where it is brought the events of a seed.
use h1_generated::{MAX_COUNT, summary_of};
use http_types::NoMemory;
use std::alloc::Global;
use vectors::{Case, Player, Report};

/// Runs of `h1_generated`.
pub struct Runs;

impl Player for Runs {
    fn play(&self, alloc: Global, case: &Case<'_>, found: &mut Report) -> Result<bool, NoMemory> {
        match case.call {
            b"summary" => put_summary(alloc, case, found),
            _ => Ok(false),
        }
    }
}

// `summary SEED COUNT`: what so many exchanges of the seed sum up to in a new connection, a semicolon behind each line.
fn put_summary(alloc: Global, case: &Case<'_>, found: &mut Report) -> Result<bool, NoMemory> {
    let Some(seed) = case.number(0) else {
        return Ok(false);
    };
    let Some(count) = case.number(1) else {
        return Ok(false);
    };
    let count = count as u64;
    if count > MAX_COUNT {
        return Ok(false);
    }
    match summary_of(alloc, seed as u64, count) {
        Ok(text) => put_lines(found, text.as_slice()),
        Err(_) => found.lose(),
    }
    Ok(true)
}

fn put_lines(found: &mut Report, text: &[u8]) {
    for byte in text.iter() {
        found.put(if *byte == b'\n' { b';' } else { *byte });
    }
}
