//! A client over sockets: `app_get URL` writes the body of the answer to its output.
#![tactic(auto)]

mod answer;
mod each;
mod error;
mod exchange;
mod fetch;
mod fields;
mod follow;
mod link;
mod options;
mod output;
mod patience;
mod redirect;
mod request;
mod show;
mod target;
mod transport;
mod tries;
mod upload;

use crate::fetch::fetch_all;
use crate::options::{Command, HELP, VERSION};
use std::alloc::Global;
use std::io::ErrorKind;
use std::process::ExitCode;
use std::rt::Env;
use std::{env, io};

/// The output can't be written.
const NO_OUTPUT: u8 = 1;

/// The words are out of form.
const USAGE: u8 = 2;

/// Memory has run out.
const NO_MEMORY: u8 = 5;

fn main(rt: HostRuntime) -> ExitCode {
    let alloc = rt.alloc();
    let words = match words(&rt) {
        Ok(words) => words,
        Err(error) if error.kind() == ErrorKind::OutOfMemory => return ExitCode::from(NO_MEMORY),
        // Words that can't be had are wrong words.
        Err(_) => Vec::new(alloc),
    };
    match options::read(alloc, &words) {
        Ok(Command::Help) => print(rt, HELP),
        Ok(Command::Version) => print(rt, VERSION),
        Ok(Command::Fetch(options)) => ExitCode::from(fetch_all(rt, &options)),
        Err(error) => {
            let _ = eprintln!(rt; "app_get: {error}; --help says more");
            ExitCode::from(error.status())
        }
    }
}

fn print(rt: HostRuntime, text: &str) -> ExitCode {
    match println!(rt; "{text}") {
        Ok(()) => ExitCode::SUCCESS,
        Err(_) => ExitCode::from(NO_OUTPUT),
    }
}

// The program's arguments, without its name.
fn words(rt: &(impl Env + Alloc<A = Global>)) -> io::Result<Vec<String>> {
    Ok(env::args(rt)?.skip(1).collect(rt.alloc())?)
}
