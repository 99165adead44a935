//! Bytes as text in double quotes.
ghost use Rattle.std.specs.Prelude.{◌<◌, IfOk};

use crate::case::CaseError;
use crate::cursor::Cursor;
use http_types::NoMemory;
use std::alloc::Global;

/// The bytes of a text in double quotes.
pub fn read_quoted(alloc: Global, cursor: &mut Cursor<'_>) -> Result<Vec<u8>, CaseError> {
    let mut bytes = Vec::new(alloc);
    if !cursor.passes(b'"') {
        return Err(CaseError::Unreadable);
    }
    for _ in 0..u64::MAX {
        match cursor.next() {
            None => return Err(CaseError::Unreadable),
            Some(b'"') => return Ok(bytes),
            Some(b'\\') => put(&mut bytes, read_escaped(cursor)?)?,
            Some(byte) => put(&mut bytes, byte)?,
        }
    }
    Err(CaseError::Unreadable)
}

// The byte that an escape stands for, without its backslash.
fn read_escaped(cursor: &mut Cursor<'_>) -> Result<u8, CaseError> {
    match cursor.next() {
        Some(b'r') => Ok(b'\r'),
        Some(b'n') => Ok(b'\n'),
        Some(b't') => Ok(b'\t'),
        Some(b'\\') => Ok(b'\\'),
        Some(b'"') => Ok(b'"'),
        Some(b'x') => {
            let high = read_hex_digit(cursor)?;
            let low = read_hex_digit(cursor)?;
            Ok(high * 16 + low)
        }
        _ => Err(CaseError::Unreadable),
    }
}

fn read_hex_digit(cursor: &mut Cursor<'_>) -> Result<u8, CaseError>
    ensures { IfOk result (λ digit. digit < 16) }
{
    match cursor.next() {
        Some(digit @ b'0'..=b'9') => Ok(digit - b'0'),
        Some(digit @ b'a'..=b'f') => Ok(digit - b'a' + 10),
        _ => Err(CaseError::Unreadable),
    }
}

fn put(bytes: &mut Vec<u8>, byte: u8) -> Result<(), NoMemory> {
    Ok(bytes.push(byte)?)
}
