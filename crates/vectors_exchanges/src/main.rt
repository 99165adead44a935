//! Plays whole exchanges: of a connection, of a seed, of a client's side, of two ends with each other, and of chat rooms. The
//! program's arguments are the files' names; the folder in which a file lies says of which kind its vectors are.
#![tactic(auto)]

mod client;
mod exchanges;
mod hubs;
mod runs;
mod talks;

use crate::client::ClientExchanges;
use crate::exchanges::Exchanges;
use crate::hubs::Hubs;
use crate::runs::Runs;
use crate::talks::Talks;
use std::io;
use std::process::ExitCode;
use std::rt::Files;
use vectors::{
    FilePlayer, folder_of, play_arguments, play_blocks, play_in_pieces, play_lines, refuse_file,
};

/// Plays a file by its folder.
struct Folders;

impl<R: Files + Print + AllocGlobal> FilePlayer<R> for Folders {
    fn play_file(&self, rt: &R, name: &str) -> io::Result<bool> {
        match folder_of(name) {
            b"exchanges" => play_blocks(&Exchanges, rt, name),
            b"runs" => play_lines(&Runs, rt, name),
            b"clients" => play_in_pieces(&ClientExchanges, rt, name),
            b"talks" => play_blocks(&Talks, rt, name),
            b"hubs" => play_lines(&Hubs, rt, name),
            _ => refuse_file(rt, name),
        }
    }
}

fn main(rt: HostRuntime) -> ExitCode {
    play_arguments(&Folders, &rt)
}
