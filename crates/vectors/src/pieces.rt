//! Scripts whose bytes come in pieces.
use crate::block::{Block, put_unreadable};
use crate::blocks::{BlockPlayer, play_blocks};
use crate::case::CaseError;
use crate::clear::Form;
use crate::report::Report;
use http_types::NoMemory;
use std::alloc::{AllocError, AllocGlobal, Global};
use std::io;
use std::rt::Files;

/// What does what scripts say.
pub trait PiecePlayer {
    /// What its blocks are called, in the plural.
    fn kind(&self) -> &str;

    /// The longest pieces in which this script's bytes are brought, besides whole; 0 where they are brought whole alone.
    fn longest_piece(&self, script: &[&[u8]]) -> usize;

    /// Writes what the script's lines get, a line each. Bytes are brought in pieces of at most so many.
    fn play(
        &self,
        alloc: Global,
        script: &[&[u8]],
        size: usize,
        found: &mut Report,
    ) -> Result<(), CaseError>;
}

/// Plays each block of the file of this name, whole and in pieces of each size, and prints what differs and how many blocks
/// go as they have to. Whether all do.
pub fn play_in_pieces<P: PiecePlayer, R: Files + Print + AllocGlobal>(
    player: &P,
    rt: &R,
    name: &str,
) -> io::Result<bool> {
    play_blocks(&InPieces { player }, rt, name)
}

// Plays blocks whole and in pieces.
#[derive(Drop)]
struct InPieces<'a, P> {
    player: &'a P,
}

impl<P: PiecePlayer, R: AllocGlobal> BlockPlayer<R> for InPieces<'_, P> {
    fn kind(&self) -> &str {
        self.player.kind()
    }

    fn form(&self) -> Form {
        Form::Quoted
    }

    fn play_block(&self, rt: &R, block: &Block<'_>, different: &mut Report) -> io::Result<bool> {
        Ok(play_sizes(self.player, rt.alloc(), block, different)?)
    }
}

// Whether the block goes as it has to, whole and in pieces of each size. The first that differs is written to
// `different`.
fn play_sizes<P: PiecePlayer>(
    player: &P,
    alloc: Global,
    block: &Block<'_>,
    different: &mut Report,
) -> Result<bool, NoMemory> {
    let whole = Report::new(alloc);
    if !play_size(player, alloc, block, usize::MAX, &whole, different)? {
        return Ok(false);
    }
    for size in 1..=player.longest_piece(block.script.as_slice()) {
        let how = pieces_of(alloc, size);
        if !play_size(player, alloc, block, size, &how, different)? {
            return Ok(false);
        }
    }
    Ok(true)
}

// The same in pieces of at most so many bytes.
fn play_size<P: PiecePlayer>(
    player: &P,
    alloc: Global,
    block: &Block<'_>,
    size: usize,
    how: &Report,
    different: &mut Report,
) -> Result<bool, NoMemory> {
    let mut found = Report::new(alloc);
    match player.play(alloc, block.script.as_slice(), size, &mut found) {
        Ok(()) => block.is_met(&found, how, different),
        Err(CaseError::NoMemory) => Err(AllocError),
        Err(CaseError::Unreadable) => {
            put_unreadable(block.name, different);
            Ok(false)
        }
    }
}

// In words, how bytes are brought in pieces of this size.
fn pieces_of(alloc: Global, size: usize) -> Report {
    let mut how = Report::new(alloc);
    how.put_text(", in pieces of ");
    how.put_decimal(size as u64);
    how
}
