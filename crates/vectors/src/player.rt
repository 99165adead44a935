//! Plays the cases of a file, and says what differs.
use crate::case::{Case, CaseError, read_case};
use crate::clear::{Form, put_clear};
use crate::report::Report;
use http_types::NoMemory;
use std::alloc::{AllocError, Global};

/// What knows calls by their names.
pub trait Player {
    /// Writes what the case's call gives for its arguments, in the form in which it is expected. `false` where it knows
    /// no such call, or the arguments are not that call's.
    fn play(&self, alloc: Global, case: &Case<'_>, found: &mut Report) -> Result<bool, NoMemory>;
}

/// How many cases were played, and how many gave what was expected.
#[derive(Clone, Copy, Debug, Default, PartialEq, Eq)]
pub struct Tally {
    /// All cases.
    pub cases: u32,

    /// Those that gave what was expected.
    pub right: u32,
}

/// Plays the cases of a file's bytes. What differs is written to `different`, a line for each case that does.
pub fn play_cases<P: Player>(
    player: &P,
    alloc: Global,
    name: &str,
    text: &[u8],
    different: &mut Report,
) -> Result<Tally, NoMemory> {
    let mut tally = Tally::default();
    let mut number = 0u32;
    for line in text.split(|byte| *byte == b'\n') {
        number = number.saturating_add(1);
        if let Some(right) = play_line(player, alloc, name, number, line, different)? {
            tally.cases = tally.cases.saturating_add(1);
            tally.right = tally.right.saturating_add(u32::from(right));
        }
    }
    Ok(tally)
}

// Whether the line's case gives what is expected; none where it has no case.
fn play_line<P: Player>(
    player: &P,
    alloc: Global,
    name: &str,
    number: u32,
    line: &[u8],
    different: &mut Report,
) -> Result<Option<bool>, NoMemory> {
    let mut found = Report::new(alloc);
    match read_case(alloc, line) {
        Ok(None) => return Ok(None),
        Err(CaseError::NoMemory) => return Err(AllocError),
        Err(CaseError::Unreadable) => found.put_text("no case"),
        Ok(Some(case)) => {
            if gives_expected(player, alloc, &case, &mut found)? {
                return Ok(Some(true));
            }
        }
    }
    report_line(name, number, found.whole()?, different);
    Ok(Some(false))
}

// Whether the case gives what is expected. What it gives is written to `found`.
fn gives_expected<P: Player>(
    player: &P,
    alloc: Global,
    case: &Case<'_>,
    found: &mut Report,
) -> Result<bool, NoMemory> {
    if player.play(alloc, case, found)? {
        return is_expected(alloc, found.whole()?, case.expected);
    }
    found.clear();
    found.put_text("no such call");
    Ok(false)
}

// Whether that is the expected text, with its repetitions written out.
fn is_expected(alloc: Global, found: &[u8], expected: &[u8]) -> Result<bool, NoMemory> {
    if found == expected {
        return Ok(true);
    }
    let mut text = Report::new(alloc);
    match put_clear(alloc, expected, Form::Quoted, &mut text) {
        Ok(()) => Ok(found == text.whole()?),
        Err(CaseError::NoMemory) => Err(AllocError),
        Err(CaseError::Unreadable) => Ok(false),
    }
}

fn report_line(name: &str, number: u32, found: &[u8], different: &mut Report) {
    different.put_text(name);
    different.put_text(":");
    different.put_decimal(u64::from(number));
    different.put_text(": found ");
    different.put_all(found);
    different.put_text("\n");
}
