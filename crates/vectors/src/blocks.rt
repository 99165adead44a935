//! Plays files of blocks, each of several lines.
use crate::block::{Block, put_unreadable};
use crate::case::CaseError;
use crate::clear::Form;
use crate::player::Tally;
use crate::report::Report;
use http_types::NoMemory;
use std::alloc::{AllocError, Global};
use std::rt::Files;
use std::{fs, io};

/// What plays blocks.
pub trait BlockPlayer<R> {
    /// What its blocks are called, in the plural.
    fn kind(&self) -> &str;

    /// How the bytes in double quotes are written of what has to come of a block.
    fn form(&self) -> Form;

    /// Whether a block goes as its lines say. What differs is written to `different`.
    fn play_block(&self, rt: &R, block: &Block<'_>, different: &mut Report) -> io::Result<bool>;
}

/// Plays the blocks of the file of this name, prints what differs and how many go as they have to. Whether all do. Lines
/// before the file's first block are passed over.
pub fn play_blocks<P: BlockPlayer<R>, R: Files + Print + AllocGlobal>(
    player: &P,
    rt: &R,
    name: &str,
) -> io::Result<bool> {
    let text = fs::read(rt, name)?;
    let mut different = Report::new(rt.alloc());
    let tally = play_text(player, rt, name, text.as_slice(), &mut different)?;
    rt.print(String::from_utf8_lossy(rt.alloc(), different.whole()?)?)?;
    println!(rt;
        "{name}: {} of {} {}",
        tally.right,
        tally.cases,
        player.kind()
    )?;
    Ok(tally.right == tally.cases)
}

// Where a block begins.
#[derive(Clone, Copy, Drop)]
struct Place<'a> {
    file: &'a str,
    line: u32,
}

// Plays the blocks of a file's text.
fn play_text<P: BlockPlayer<R>, R: AllocGlobal>(
    player: &P,
    rt: &R,
    file: &str,
    text: &[u8],
    different: &mut Report,
) -> io::Result<Tally> {
    let mut tally = Tally::default();
    let mut lines: Vec<&[u8]> = Vec::new(rt.alloc());
    let mut number = 0u32;
    let mut place = Place { file, line: 0 };
    for line in text.split(|byte| *byte == b'\n') {
        number = number.saturating_add(1);
        if line.starts_with(b"== ") {
            end_block(player, rt, place, lines.as_slice(), &mut tally, different)?;
            lines.clear();
            place.line = number;
            lines.push(line)?;
        } else if !lines.is_empty() {
            lines.push(line)?;
        }
    }
    end_block(player, rt, place, lines.as_slice(), &mut tally, different)?;
    Ok(tally)
}

// Plays a block whose lines are all there, and counts it. No lines are no block.
fn end_block<P: BlockPlayer<R>, R: AllocGlobal>(
    player: &P,
    rt: &R,
    place: Place<'_>,
    lines: &[&[u8]],
    tally: &mut Tally,
    different: &mut Report,
) -> io::Result<()> {
    if lines.is_empty() {
        return Ok(());
    }
    let mut told = Report::new(rt.alloc());
    let right = is_right(player, rt, lines, &mut told)?;
    if !right {
        put_place(place, different);
        different.put_report(&told);
    }
    tally.cases = tally.cases.saturating_add(1);
    tally.right = tally.right.saturating_add(u32::from(right));
    Ok(())
}

fn put_place(place: Place<'_>, different: &mut Report) {
    different.put_text(place.file);
    different.put_text(":");
    different.put_decimal(u64::from(place.line));
    different.put_text(": ");
}

// Whether the block of these lines goes as it has to. What differs is written to `told`.
fn is_right<P: BlockPlayer<R>, R: AllocGlobal>(
    player: &P,
    rt: &R,
    lines: &[&[u8]],
    told: &mut Report,
) -> io::Result<bool> {
    match read_block(rt.alloc(), lines, player.form(), told)? {
        Some(block) => player.play_block(rt, &block, told),
        None => Ok(false),
    }
}

// The block of these lines. None where one can't be read, which is written to `different`.
fn read_block<'a>(
    alloc: Global,
    lines: &[&'a [u8]],
    form: Form,
    different: &mut Report,
) -> Result<Option<Block<'a>>, NoMemory> {
    match Block::read(alloc, lines, form) {
        Ok(block) => Ok(Some(block)),
        Err(CaseError::NoMemory) => Err(AllocError),
        Err(CaseError::Unreadable) => {
            if let Some(first) = lines.first() {
                put_unreadable(first, different);
            }
            Ok(None)
        }
    }
}
