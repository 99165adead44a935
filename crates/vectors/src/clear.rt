//! Clear text: what stands in double quotes, and what is repeated.
use crate::case::{CaseError, read_joined};
use crate::cursor::Cursor;
use crate::report::Report;
use http_types::NoMemory;
use std::alloc::Global;

/// How bytes are written that stand in double quotes.
#[derive(Clone, Copy, Debug, PartialEq, Eq)]
pub enum Form {
    /// In double quotes, without repetitions.
    Quoted,

    /// In hex digits, or `-` where there is no byte.
    Hex,
}

/// Puts a line of clear text after the text: quoted bytes in this form, what stands in brackets as often as the number
/// after `*` says, everything else as it is.
pub fn put_clear(
    alloc: Global,
    line: &[u8],
    form: Form,
    text: &mut Report,
) -> Result<(), CaseError> {
    let mut cursor = Cursor::new(line);
    for _ in 0..line.len() {
        if cursor.passes(b'[') {
            put_repeated(alloc, &mut cursor, form, text)?;
        } else {
            put_next(alloc, &mut cursor, form, text)?;
        }
    }
    Ok(())
}

// The next byte as it is, or the next quoted bytes in the form; nothing at the end.
fn put_next(
    alloc: Global,
    cursor: &mut Cursor<'_>,
    form: Form,
    text: &mut Report,
) -> Result<(), CaseError> {
    match cursor.peek() {
        None => Ok(()),
        Some(b'"') => {
            let bytes = read_joined(alloc, cursor)?;
            put_bytes(alloc, bytes.as_slice(), form, text);
            Ok(())
        }
        Some(byte) => {
            cursor.next();
            text.put(byte);
            Ok(())
        }
    }
}

fn put_bytes(alloc: Global, bytes: &[u8], form: Form, text: &mut Report) {
    match form {
        Form::Quoted => text.put_quoted(bytes),
        Form::Hex if bytes.is_empty() => text.put(b'-'),
        Form::Hex => match hex::encode(alloc, bytes) {
            Ok(digits) => text.put_text(digits.as_str()),
            Err(_) => text.lose(),
        },
    }
}

/// The most times that a text in brackets is repeated.
const MAX_REPEATS: usize = 1_000_000;

// What stands up to the closing bracket, as often as the number after it says.
fn put_repeated(
    alloc: Global,
    cursor: &mut Cursor<'_>,
    form: Form,
    text: &mut Report,
) -> Result<(), CaseError> {
    let mut piece = Report::new(alloc);
    for _ in 0..cursor.rest().len() {
        if cursor.passes(b']') {
            break;
        }
        put_next(alloc, cursor, form, &mut piece)?;
    }
    if !cursor.passes(b'*') {
        return Err(CaseError::Unreadable);
    }
    let times = cursor.number().ok_or(CaseError::Unreadable)?;
    put_times(piece.whole()?, times, text);
    Ok(())
}

fn put_times(piece: &[u8], times: usize, text: &mut Report) {
    for _ in 0..times.min(MAX_REPEATS) {
        text.put_all(piece);
    }
}
