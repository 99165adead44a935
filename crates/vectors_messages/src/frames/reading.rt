//! Frames that are read: whole, in pieces, and refused.
use crate::frames::numbers::put_opcode;
use crate::frames::shown::{put_error, put_frame};
use bytes::BytesMut;
use http_types::NoMemory;
use std::alloc::Global;
use vectors::{Case, Report};
use ws_frames::{Codec, NoWords, OpCode, Parser};

// The codec of the end and of the limit that the case names first.
fn codec_of(case: &Case<'_>) -> Option<Codec<NoWords>> {
    let limit = case.number(1)?;
    if is_server(case)? {
        return Some(Codec::new().max_size(limit));
    }
    Some(Codec::new().max_size(limit).client_mode(NoWords))
}

// Whether the case is about a server's end.
fn is_server(case: &Case<'_>) -> Option<bool> {
    match case.text(0) {
        Some("server") => Some(true),
        Some("client") => Some(false),
        _ => None,
    }
}

/// `frames END LIMIT PIECE ..`: the frames that the bytes hold as they come in pieces, for a server or a client that takes
/// so many bytes of a payload; then the error, if there is one, and how many bytes are left.
pub fn frames(alloc: Global, case: &Case<'_>, found: &mut Report) -> Result<bool, NoMemory> {
    let Some(codec) = codec_of(case) else {
        return Ok(false);
    };
    let pieces = case.arguments.get(2..).unwrap_or_default();
    read_all(alloc, codec, pieces, found);
    Ok(true)
}

fn read_all(alloc: Global, mut codec: Codec<NoWords>, pieces: &[Vec<u8>], found: &mut Report) {
    let mut src = BytesMut::new(alloc);
    for piece in pieces {
        if src.extend_from_slice(piece.as_slice()).is_err() {
            return found.lose();
        }
        read_on(alloc, &mut codec, &mut src, found);
    }
    found.put_text("left ");
    found.put_decimal(src.len() as u64);
}

// Reads all frames that are there, or up to an error.
fn read_on(alloc: Global, codec: &mut Codec<NoWords>, src: &mut BytesMut, found: &mut Report) {
    for _ in 0..=src.len() {
        if !read_one(alloc, codec, src, found) {
            break;
        }
    }
}

// Puts the next frame or the error, with a blank after it, and says whether it was a frame.
fn read_one(
    alloc: Global,
    codec: &mut Codec<NoWords>,
    src: &mut BytesMut,
    found: &mut Report,
) -> bool {
    match codec.decode(alloc, src) {
        Ok(Some(frame)) => {
            put_frame(&frame, found);
            found.put_text(" ");
            true
        }
        Ok(None) => false,
        Err(error) => {
            put_error(alloc, error, found);
            found.put_text(" ");
            false
        }
    }
}

/// `cuts END LIMIT BYTES`: what `frames` gives of the bytes, which is the same wherever they are cut in two; else where it
/// is another first.
pub fn cuts(alloc: Global, case: &Case<'_>, found: &mut Report) -> Result<bool, NoMemory> {
    let bytes = case.argument(2);
    for cut in 0..=bytes.len() {
        let Some(codec) = codec_of(case) else {
            return Ok(false);
        };
        let read = read_cut(alloc, codec, bytes, cut)?;
        if cut == 0 {
            found.put_report(&read);
        } else if read.whole()? != found.whole()? {
            found.put_text(" and another at ");
            found.put_decimal(cut as u64);
            break;
        }
    }
    Ok(true)
}

// What the bytes give that are cut in two there.
fn read_cut(
    alloc: Global,
    codec: Codec<NoWords>,
    bytes: &[u8],
    cut: usize,
) -> Result<Report, NoMemory> {
    let mut pieces = Vec::new(alloc);
    pieces.push(Vec::from_slice(alloc, bytes.get(..cut).unwrap_or_default())?)?;
    pieces.push(Vec::from_slice(alloc, bytes.get(cut..).unwrap_or_default())?)?;
    let mut read = Report::new(alloc);
    read_all(alloc, codec, pieces.as_slice(), &mut read);
    Ok(read)
}

/// `first END LIMIT BYTES`: the first frame alone, or its error, or `none`.
pub fn first(alloc: Global, case: &Case<'_>, found: &mut Report) -> Result<bool, NoMemory> {
    let Some(mut codec) = codec_of(case) else {
        return Ok(false);
    };
    let mut src = BytesMut::copy_from_slice(alloc, case.argument(2))?;
    match codec.decode(alloc, &mut src) {
        Ok(Some(frame)) => put_frame(&frame, found),
        Ok(None) => found.put_text("none"),
        Err(error) => put_error(alloc, error, found),
    }
    Ok(true)
}

/// `parse END LIMIT BYTES`: the first frame by itself: whether it is the last of its message, its opcode, and its payload,
/// if that isn't empty; or its error, or `none`.
pub fn parse(alloc: Global, case: &Case<'_>, found: &mut Report) -> Result<bool, NoMemory> {
    let Some(server) = is_server(case) else {
        return Ok(false);
    };
    let Some(limit) = case.number(1) else {
        return Ok(false);
    };
    let mut src = BytesMut::copy_from_slice(alloc, case.argument(2))?;
    match Parser::parse(&mut src, server, limit) {
        Ok(Some((finished, op, payload))) => put_parsed(alloc, finished, op, &payload, found),
        Ok(None) => found.put_text("none"),
        Err(error) => put_error(alloc, error, found),
    }
    Ok(true)
}

fn put_parsed(
    alloc: Global,
    finished: bool,
    op: OpCode,
    payload: &Option<BytesMut>,
    found: &mut Report,
) {
    found.put_text(if finished { "last " } else { "more " });
    put_opcode(alloc, op, found);
    match payload {
        Some(payload) => {
            found.put_text(" ");
            found.put_quoted(payload.as_slice());
        }
        None => {}
    }
}

/// `declared END BYTES`: the length that the first frame declares, `none` where it isn't there yet, or the error.
pub fn declared(alloc: Global, case: &Case<'_>, found: &mut Report) -> Result<bool, NoMemory> {
    let Some(server) = is_server(case) else {
        return Ok(false);
    };
    match Parser::declared_len(case.argument(1), server) {
        Ok(Some(length)) => found.put_decimal(length),
        Ok(None) => found.put_text("none"),
        Err(error) => put_error(alloc, error, found),
    }
    Ok(true)
}
