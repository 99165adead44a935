//! Plays what servers do: connections of a dispatcher, and exchanges through a forwarder. The program's arguments are the
//! files' names; the folder in which a file lies says of which kind its vectors are.
#![tactic(auto)]

mod dispatch;
mod forward;

use crate::dispatch::Connections;
use crate::forward::Forwards;
use std::io;
use std::process::ExitCode;
use std::random::RandomSource;
use std::rt::Files;
use vectors::{FilePlayer, folder_of, play_arguments, play_blocks, play_in_pieces, refuse_file};

/// Plays a file by its folder.
struct Folders;

impl<R: Files + Print + RandomSource + AllocGlobal> FilePlayer<R> for Folders {
    fn play_file(&self, rt: &R, name: &str) -> io::Result<bool> {
        match folder_of(name) {
            b"dispatch" => play_blocks(&Connections, rt, name),
            b"forward" => play_in_pieces(&Forwards, rt, name),
            _ => refuse_file(rt, name),
        }
    }
}

fn main(rt: HostRuntime) -> ExitCode {
    play_arguments(&Folders, &rt)
}
