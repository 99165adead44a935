//! Bytes between sockets and a forwarder.
ghost use Rattle.std.specs.Prelude.{◌<◌, ◌≤◌, ℕ, IfOk, length, min};
ghost use Rattle.model_proxy.specs.Past as event;
ghost use Rattle.proxy.specs.Kept.{client_of, server_of, server_text, client_room, server_room};
ghost use Rattle.proxy_loop.specs.Flow.{TakesIn, Writes, HasReadCause, HasWriteCause, may_write_client, may_write_server};

use crate::forwarder::Forwarder;
use http_types::{Sink, Source};
use proxy::NoMemory;

/// What a read brought.
#[derive(Clone, Copy, Debug, PartialEq, Eq)]
pub enum TakenIn {
    /// So many bytes came, and the forwarder took them.
    Bytes(usize),

    /// The peer sends no more bytes. The forwarder wasn't told.
    End,

    /// The source gave nothing.
    Failed,

    /// The forwarder takes no bytes now, and none were read.
    Full,
}

/// Reads from the client once, at most what there is room for, and tells the forwarder what came.
pub fn take_in_client<S: Source>(
    forwarder: &mut Forwarder,
    source: &mut S,
    room: &mut [u8],
) -> Result<TakenIn, NoMemory>
    ensures came { IfOk result (λ came. TakesIn event.client forwarder.old (S.left source.old) (S.left source.new) came forwarder.new) }
    ensures cause { IfOk result (λ came. HasReadCause (min (client_room forwarder.old) (length room.old)) (S.faults source.old) (S.faults source.new) came) }
{
    let limit = forwarder.proxy().client_room().min(room.len());
    if limit == 0 {
        return Ok(TakenIn::Full);
    }
    read_client(forwarder, source, &mut room[..limit])
}

// The same into a piece that isn't empty.
fn read_client<S: Source>(
    forwarder: &mut Forwarder,
    source: &mut S,
    piece: &mut [u8],
) -> Result<TakenIn, NoMemory>
    requires room { 0 < length piece.old }
    requires fits { length piece.old ≤ client_room forwarder.old }
    ensures came { IfOk result (λ came. TakesIn event.client forwarder.old (S.left source.old) (S.left source.new) came forwarder.new) }
    ensures cause { (limit : ℕ) → IfOk result (λ came. HasReadCause limit (S.faults source.old) (S.faults source.new) came) }
{
    let Ok(count) = source.read(piece) else {
        return Ok(TakenIn::Failed);
    };
    if count == 0 {
        return Ok(TakenIn::End);
    }
    let taken = forwarder.read_client(&piece[..count])?;
    Ok(TakenIn::Bytes(taken))
}

/// Reads from the server once, at most what there is room for, and tells the forwarder what came.
pub fn take_in_server<S: Source>(
    forwarder: &mut Forwarder,
    source: &mut S,
    room: &mut [u8],
) -> Result<TakenIn, NoMemory>
    ensures came { IfOk result (λ came. TakesIn event.server forwarder.old (S.left source.old) (S.left source.new) came forwarder.new) }
    ensures cause { IfOk result (λ came. HasReadCause (min (server_room forwarder.old) (length room.old)) (S.faults source.old) (S.faults source.new) came) }
{
    let limit = forwarder.proxy().server_room().min(room.len());
    if limit == 0 {
        return Ok(TakenIn::Full);
    }
    read_server(forwarder, source, &mut room[..limit])
}

// The same into a piece that isn't empty.
fn read_server<S: Source>(
    forwarder: &mut Forwarder,
    source: &mut S,
    piece: &mut [u8],
) -> Result<TakenIn, NoMemory>
    requires room { 0 < length piece.old }
    requires fits { length piece.old ≤ server_room forwarder.old }
    ensures came { IfOk result (λ came. TakesIn event.server forwarder.old (S.left source.old) (S.left source.new) came forwarder.new) }
    ensures cause { (limit : ℕ) → IfOk result (λ came. HasReadCause limit (S.faults source.old) (S.faults source.new) came) }
{
    let Ok(count) = source.read(piece) else {
        return Ok(TakenIn::Failed);
    };
    if count == 0 {
        return Ok(TakenIn::End);
    }
    let taken = forwarder.read_server(&piece[..count])?;
    Ok(TakenIn::Bytes(taken))
}

/// Writes what waits towards the client once, as far as the sink takes it: how many bytes that were, and nothing where the
/// sink failed or nothing may be written.
pub fn write_client<K: Sink>(
    forwarder: &mut Forwarder,
    sink: &mut K,
) -> Result<Option<usize>, NoMemory>
    ensures wrote { IfOk result (λ count. Writes event.to_client (client_of forwarder.old).kept.buffered forwarder.old (K.given sink.old) (K.given sink.new) count forwarder.new) }
    ensures cause { IfOk result (λ count. HasWriteCause (may_write_client forwarder.old) (K.faults sink.old) (K.faults sink.new) count) }
{
    if !forwarder.proxy().can_write_client() {
        return Ok(None);
    }
    let Ok(count) = sink.write(forwarder.proxy().client_front()) else {
        return Ok(None);
    };
    forwarder.advance_client(count)?;
    Ok(Some(count))
}

/// Writes what waits towards the server once, as far as the sink takes it: how many bytes that were, and nothing where the
/// sink failed or nothing may be written.
pub fn write_server<K: Sink>(
    forwarder: &mut Forwarder,
    sink: &mut K,
) -> Result<Option<usize>, NoMemory>
    ensures wrote { IfOk result (λ count. Writes event.to_server (server_text (server_of forwarder.old)) forwarder.old (K.given sink.old) (K.given sink.new) count forwarder.new) }
    ensures cause { IfOk result (λ count. HasWriteCause (may_write_server forwarder.old) (K.faults sink.old) (K.faults sink.new) count) }
{
    if !forwarder.proxy().can_write_server() {
        return Ok(None);
    }
    let Ok(count) = sink.write(forwarder.proxy().server_front()) else {
        return Ok(None);
    };
    forwarder.advance_server(count)?;
    Ok(Some(count))
}
