//! The journal of a board as text.
ghost use Rattle.std.specs.Prelude.{◌≡◌, ◌++◌, ◌∷◌, [], List, ℕ, IfOk, OnOk, cond, Some, decimal, codes};
ghost use Rattle.std.specs.BTreeMap as tree;
ghost use Rattle.std.specs.Cmp.Lexicographic.{slice_cmp};
ghost use Rattle.std.specs.Ordering.{nat_cmp};
ghost use Rattle.std.specs.Str.{bytes_eq};
ghost use Rattle.board.specs.Journal.{IsRight, name_of};
ghost use Rattle.board_server.specs.Texts.{IsReportText, told_of, count_line, count_lines, number_line};

use board::{Command, Entry, Name};
use std::alloc::{AllocError, Global};
use std::collections::BTreeMap;
use std::collections::btree_map::Iter;

/// The line `calls C`, with the number of the journal's entries, and a line `NAME COUNT` for each name that the journal
/// speaks of, in the order of their bytes, with its counter.
pub(crate) fn report_text(alloc: Global, journal: &[Entry]) -> Result<Vec<u8>, AllocError>
    requires right { IsRight journal.now }
    ensures { IfOk result (λ text. IsReportText journal.now text.items) }
{
    let counts = counts_of(alloc, journal)?;
    let mut text = number_line(alloc, b"calls ", journal.len() as u64)?;
    put_lines(alloc, &mut text, counts.iter())?;
    Ok(text)
}

/// The counter of each name that the journal speaks of: it is what the last command of that name was answered.
fn counts_of(alloc: Global, journal: &[Entry]) -> Result<BTreeMap<Name, u64>, AllocError>
    requires right { IsRight journal.now }
    ensures { IfOk result (λ counts. (name : List ℕ) → tree.get (slice_cmp nat_cmp) counts name ≡ told_of name journal.now) }
{
    let mut counts: BTreeMap<Name, u64> = BTreeMap::new(alloc);
    for entry in journal {
        note(&mut counts, entry)?;
    }
    Ok(counts)
}

/// Notes what a command was answered as the counter of its name.
fn note(counts: &mut BTreeMap<Name, u64>, entry: &Entry) -> Result<(), AllocError>
    ensures { OnOk result ((name : List ℕ) → tree.get (slice_cmp nat_cmp) counts.new name ≡ cond (bytes_eq (name_of entry.now.command) name) (Some entry.now.reply.0) (tree.get (slice_cmp nat_cmp) counts.old name)) }
{
    let name = name_in(&entry.command);
    match counts.insert(name, entry.reply.0) {
        Ok(_) => Ok(()),
        Err(_) => Err(AllocError),
    }
}

/// The name that a command speaks of.
fn name_in(command: &Command) -> Name
    ensures { result ≡ name_of command.now }
{
    match command {
        Command::Get(name) => *name,
        Command::Add(name) => *name,
    }
}

/// Adds the lines of names.
fn put_lines(alloc: Global, text: &mut Vec<u8>, rows: Iter<'_, Name, u64>) -> Result<(), AllocError>
    ensures { OnOk result (text.new.items ≡ text.old.items ++ count_lines rows.entry) }
{
    let mut rows = rows;
    while let Some((name, count)) = rows.next() {
        put_line(alloc, text, name, *count)?;
    }
    Ok(())
}

/// Adds the line of a name.
fn put_line(alloc: Global, text: &mut Vec<u8>, name: &Name, count: u64) -> Result<(), AllocError>
    ensures { OnOk result (text.new.items ≡ text.old.items ++ count_line (name.now, count)) }
{
    let rest = number_line(alloc, b" ", count)?;
    text.extend_from_slice(name.as_bytes())?;
    text.extend_from_slice(rest.as_slice())
}

/// A line of a word and a number.
pub(crate) fn number_line(alloc: Global, word: &[u8], number: u64) -> Result<Vec<u8>, AllocError>
    ensures { IfOk result (λ line. line.items ≡ number_line word.now number) }
{
    let digits = format!(in alloc; "{number}\n")?;
    let mut line = Vec::from_slice(alloc, word)?;
    line.extend_from_slice(digits.as_bytes())?;
    Ok(line)
}
