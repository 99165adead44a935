//! The script of the input, replayed twice: as it comes, and then so that each step that finds no memory is tried again.
//! With memory to spare none is: `test/refuse` runs the program with one allocation refused.

use crate::twice::{Replayed, replayed_twice};
use h1_replay::{ScriptError, read_script};
use std::alloc::AllocError;
use std::io::{self, ErrorKind, Read};
use std::process::ExitCode;

/// Both replays gave the same.
const SAME: u8 = 0;

/// They did not.
const DIFFERENT: u8 = 1;

/// The input is no script, or can't be read.
const NO_SCRIPT: u8 = 2;

/// Memory ran out elsewhere.
const NO_MEMORY: u8 = 7;

/// Says whether both replays gave the same, and how many steps were tried again.
pub fn replay_again(rt: HostRuntime) -> ExitCode {
    match replay_input(rt) {
        Ok(Some(replayed)) => told(&rt, replayed),
        Ok(None) => ExitCode::from(NO_SCRIPT),
        Err(error) if error.kind() == ErrorKind::OutOfMemory => {
            let _ = println!(rt; "no memory");
            ExitCode::from(NO_MEMORY)
        }
        Err(_) => ExitCode::from(NO_SCRIPT),
    }
}

// Replays the script of the input, where it is one.
fn replay_input(rt: HostRuntime) -> io::Result<Option<Replayed>> {
    let mut text = Vec::new(rt.alloc());
    rt.stdin().read_to_end(&mut text)?;
    match read_script(rt.alloc(), text.as_slice()) {
        Ok(script) => Ok(Some(replayed_twice(rt.alloc(), &script)?)),
        Err(ScriptError::BadLine(_)) => Ok(None),
        Err(ScriptError::NoMemory) => Err(AllocError.into()),
    }
}

fn told(rt: &impl Print, replayed: Replayed) -> ExitCode {
    let count = replayed.tried_again;
    if !replayed.is_same {
        let _ = println!(rt; "different, {count} tried again");
        return ExitCode::from(DIFFERENT);
    }
    let _ = println!(rt; "the same, {count} tried again");
    ExitCode::from(SAME)
}
