//! Bytes between a socket and its connection of the hub: each that is read is told to the hub once and in order, and what
//! the hub gives is written in order.
ghost use Rattle.std.specs.Prelude.{◌<◌, IfOk, length};
ghost use Rattle.app_chat.specs.Flow.{TakesIn, Writes};

use crate::house::House;
use bytes::Bytes;
use http_types::{Sink, Source};
use rooms::NoMemory;

/// What a read brought.
#[derive(Clone, Copy)]
pub enum TakenIn {
    /// So many bytes came, and the connection took them.
    Bytes(usize),

    /// The peer sends no more bytes. The connection wasn't told.
    End,

    /// The source gave nothing.
    Failed,

    /// The connection takes no bytes now.
    Full,

    /// The connection didn't take what came, so its peer has to be let go.
    Refused,
}

/// Reads once from a source, at most what there is room for, and tells the connection with this number what came.
pub fn take_in<S: Source>(
    house: &mut House,
    number: usize,
    source: &mut S,
    room: &mut [u8],
) -> Result<TakenIn, NoMemory>
    ensures { IfOk result (λ came. TakesIn number house.old (S.left source.old) (S.left source.new) came house.new) }
{
    let limit = read_room(house, number).min(room.len());
    if limit == 0 {
        return Ok(TakenIn::Full);
    }
    read_piece(house, number, source, &mut room[..limit])
}

// The same into a piece that isn't empty, for which there is room.
fn read_piece<S: Source>(
    house: &mut House,
    number: usize,
    source: &mut S,
    piece: &mut [u8],
) -> Result<TakenIn, NoMemory>
    requires room { 0 < length piece.old }
    ensures { IfOk result (λ came. TakesIn number house.old (S.left source.old) (S.left source.new) came house.new) }
{
    let Ok(count) = source.read(piece) else {
        return Ok(TakenIn::Failed);
    };
    if count == 0 {
        return Ok(TakenIn::End);
    }
    if house.read(number, &piece[..count])? {
        return Ok(TakenIn::Bytes(count));
    }
    Ok(TakenIn::Refused)
}

// How many bytes the connection with this number may take.
fn read_room(house: &House, number: usize) -> usize {
    match house.connection(number) {
        Some(connection) if connection.can_read() => connection.read_room(),
        _ => 0,
    }
}

/// Writes what is owed once, as far as the sink takes it: how many bytes that were, and nothing where the sink failed.
pub fn write<K: Sink>(owed: &mut Bytes, sink: &mut K) -> Result<Option<usize>, NoMemory>
    ensures { IfOk result (λ count. Writes (K.given sink.old) owed.old (K.given sink.new) owed.new count) }
{
    let Ok(count) = sink.write(owed.as_slice()) else {
        return Ok(None);
    };
    // A cut shares the memory.
    owed.split_to(count)?;
    Ok(Some(count))
}
