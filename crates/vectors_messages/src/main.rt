//! Plays the vectors of values, heads, frames, messages and judgements. The program's arguments are the files' names; the
//! folder in which a file lies says of what its cases are.
#![tactic(auto)]

mod frames;
mod heads;
mod judgements;
mod messages;
mod values;

use crate::frames::Frames;
use crate::heads::Heads;
use crate::judgements::Judgements;
use crate::messages::Messages;
use crate::values::Values;
use std::io;
use std::process::ExitCode;
use std::rt::Files;
use vectors::{FilePlayer, folder_of, play_arguments, play_lines, refuse_file};

/// Plays a file by its folder.
struct Folders;

impl<R: Files + Print + AllocGlobal> FilePlayer<R> for Folders {
    fn play_file(&self, rt: &R, name: &str) -> io::Result<bool> {
        match folder_of(name) {
            b"values" => play_lines(&Values, rt, name),
            b"heads" => play_lines(&Heads, rt, name),
            b"frames" => play_lines(&Frames, rt, name),
            b"messages" => play_lines(&Messages, rt, name),
            b"judgements" => play_lines(&Judgements, rt, name),
            _ => refuse_file(rt, name),
        }
    }
}

fn main(rt: HostRuntime) -> ExitCode {
    play_arguments(&Folders, &rt)
}
