//! Bodies in pieces.
use bytes::BytesMut;
use h1_payload::{DecodeError, PayloadDecoder, PayloadItem};
use http_types::{HeaderMap, NoMemory};
use std::alloc::Global;
use vectors::{Case, Report};

/// The most answers that are asked for after a piece.
const MAX_ANSWERS: u32 = 256;

/// `chunked PIECE ..`: what a body in chunks gives: each chunk, the trailers, the end or that it is broken, and what is
/// left of the bytes.
pub fn chunked(alloc: Global, case: &Case<'_>, found: &mut Report) -> Result<bool, NoMemory> {
    read_all(alloc, PayloadDecoder::chunked(), &case.arguments, found);
    Ok(true)
}

/// `chunked-bytewise BYTES`: the same of bytes that come one by one.
pub fn chunked_bytewise(
    alloc: Global,
    case: &Case<'_>,
    found: &mut Report,
) -> Result<bool, NoMemory> {
    let mut pieces = Vec::new(alloc);
    for byte in case.argument(0) {
        pieces.push(Vec::from_slice(alloc, &[*byte])?)?;
    }
    read_all(alloc, PayloadDecoder::chunked(), &pieces, found);
    Ok(true)
}

/// `length N PIECE ..`: the same of a body of so many bytes.
pub fn length(alloc: Global, case: &Case<'_>, found: &mut Report) -> Result<bool, NoMemory> {
    let Some(length) = case.number(0) else {
        return Ok(false);
    };
    let pieces = case.arguments.get(1..).unwrap_or_default();
    read_all(alloc, PayloadDecoder::length(length as u64), pieces, found);
    Ok(true)
}

/// `raw PIECE ..`: the same of a body that goes to the input's end.
pub fn raw(alloc: Global, case: &Case<'_>, found: &mut Report) -> Result<bool, NoMemory> {
    read_all(alloc, PayloadDecoder::eof(), &case.arguments, found);
    Ok(true)
}

fn read_all(alloc: Global, mut decoder: PayloadDecoder, pieces: &[Vec<u8>], found: &mut Report) {
    let mut src = BytesMut::new(alloc);
    for piece in pieces {
        if src.extend_from_slice(piece.as_slice()).is_err() {
            return found.lose();
        }
        read_on(&mut decoder, &mut src, found);
    }
    if !src.is_empty() {
        found.put_text("left ");
        found.put_quoted(src.as_slice());
    }
    found.trim_end();
}

// Asks until there is no more for now.
fn read_on(decoder: &mut PayloadDecoder, src: &mut BytesMut, found: &mut Report) {
    for _ in 0..MAX_ANSWERS {
        match decoder.decode(src) {
            Ok(Some(item)) => {
                if put_item(&item, found) {
                    break;
                }
            }
            Ok(None) => break,
            Err(DecodeError::Invalid) => {
                found.put_text("broken ");
                break;
            }
            Err(DecodeError::NoMemory) => return found.lose(),
        }
    }
}

// Puts an item, and says whether it is the end.
fn put_item(item: &PayloadItem, found: &mut Report) -> bool {
    match item {
        PayloadItem::Chunk(bytes) => {
            found.put_quoted(bytes.as_slice());
            found.put_text(" ");
            false
        }
        PayloadItem::Trailers(trailers) => {
            put_trailers(trailers, found);
            false
        }
        PayloadItem::Eof => {
            found.put_text("end ");
            true
        }
    }
}

fn put_trailers(trailers: &HeaderMap, found: &mut Report) {
    for (name, value) in trailers {
        found.put_text(name.as_str());
        found.put_text("=");
        found.put_quoted(value.as_bytes());
        found.put_text(" ");
    }
}
