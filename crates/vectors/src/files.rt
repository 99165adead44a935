//! Plays files of cases, one a line.
use crate::player::{Player, play_cases};
use crate::report::Report;
use std::rt::Files;
use std::{fs, io};

/// Plays the cases of the file of this name, prints what differs and how many gave what was expected. Whether all did.
pub fn play_lines<P: Player, R: Files + Print + AllocGlobal>(
    player: &P,
    rt: &R,
    name: &str,
) -> io::Result<bool> {
    let text = fs::read(rt, name)?;
    let mut different = Report::new(rt.alloc());
    let tally = play_cases(player, rt.alloc(), name, text.as_slice(), &mut different)?;
    rt.print(String::from_utf8_lossy(rt.alloc(), different.whole()?)?)?;
    println!(rt; "{name}: {} of {} cases", tally.right, tally.cases)?;
    Ok(tally.right == tally.cases)
}
