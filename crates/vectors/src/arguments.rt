//! The files that a program's arguments name.
use std::io::ErrorKind;
use std::process::ExitCode;
use std::rt::{Env, Files};
use std::{env, io};

/// What plays a file.
pub trait FilePlayer<R> {
    /// Plays the file of that name, prints what differs and a line of how much of it goes as it has to. Whether all does.
    fn play_file(&self, rt: &R, name: &str) -> io::Result<bool>;
}

/// The status of a program for which memory ran out.
const NO_MEMORY: u8 = 7;

/// Has the player play each file that the program's arguments name. The status is 0 where all goes as it has to, 7 where
/// memory ran out, and else 1.
pub fn play_arguments<P: FilePlayer<R>, R: Files + Print + Env + AllocGlobal>(
    player: &P,
    rt: &R,
) -> ExitCode {
    match play_each(player, rt) {
        Ok(true) => ExitCode::SUCCESS,
        Ok(false) => ExitCode::FAILURE,
        Err(error) if error.kind() == ErrorKind::OutOfMemory => {
            let _ = println!(rt; "no memory");
            ExitCode::from(NO_MEMORY)
        }
        Err(error) => {
            let _ = println!(rt; "{error}");
            ExitCode::FAILURE
        }
    }
}

fn play_each<P: FilePlayer<R>, R: Files + Env + AllocGlobal>(
    player: &P,
    rt: &R,
) -> io::Result<bool> {
    let names: Vec<String> = env::args(rt)?.skip(1).collect(rt.alloc())?;
    let mut all_right = true;
    for name in names.iter() {
        all_right = player.play_file(rt, name.as_str())? && all_right;
    }
    Ok(all_right)
}

/// The name of the folder in which a file lies, or nothing where its name says none: it tells of what kind its vectors are.
pub fn folder_of(name: &str) -> &[u8] {
    let mut folder: &[u8] = b"";
    let mut last: &[u8] = b"";
    for part in name.as_bytes().split(|byte| *byte == b'/') {
        folder = last;
        last = part;
    }
    folder
}

/// Prints that the program knows no vectors of this file's folder. It didn't go as it has to.
pub fn refuse_file<R: Print + AllocGlobal>(rt: &R, name: &str) -> io::Result<bool> {
    println!(rt; "{name}: no folder of this program's")?;
    Ok(false)
}
