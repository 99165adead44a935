//! Replays scripts over the program's input and output (`h1_replay`): of a connection, of a hub of chat rooms, or of a
//! connection twice, where each step that finds no memory is tried once more.
#![tactic(auto)]

mod again;
mod program;
mod twice;

use h1_replay::Reply;
use http_types::{StdSink, StdSource};
use std::alloc::Global;
use std::io::ErrorKind;
use std::process::ExitCode;
use std::rt::Env;
use std::{env, io};

fn main(rt: HostRuntime) -> ExitCode {
    let words = match words(&rt) {
        Ok(words) => words,
        Err(error) if error.kind() == ErrorKind::OutOfMemory => return no_memory(&rt),
        // Words that aren't text are wrong words.
        Err(_) => Vec::new(rt.alloc()),
    };
    if is_again(&words) {
        return again::replay_again(rt);
    }
    let mut input = StdSource::new(rt.stdin());
    let mut output = StdSink::new(rt.stdout());
    ExitCode::from(program::run(rt.alloc(), &words, &mut input, &mut output))
}

// The status says it also where it can't be written.
fn no_memory(rt: &impl Print) -> ExitCode {
    let _ = println!(rt; "no memory");
    ExitCode::from(Reply::NoMemory.status())
}

// The program's arguments, without its name.
fn words(rt: &(impl Env + Alloc<A = Global>)) -> io::Result<Vec<String>> {
    Ok(env::args(rt)?.skip(1).collect(rt.alloc())?)
}

fn is_again(words: &[String]) -> bool {
    match words {
        [word] => word.as_str() == "again",
        _ => false,
    }
}
