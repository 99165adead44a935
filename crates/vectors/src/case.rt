//! One case, as its line says it.
use crate::cursor::Cursor;
use crate::quoted::read_quoted;
use http_types::NoMemory;
use std::alloc::Global;
use thiserror::Error;

/// Why a line is no case.
#[derive(Clone, Copy, Debug, PartialEq, Eq, Error)]
pub enum CaseError {
    /// It is not written as a case is.
    #[error("the line is no case")]
    Unreadable,

    /// Memory ran out.
    #[error("no memory is left")]
    NoMemory,
}

impl From<NoMemory> for CaseError {
    fn from(_error: NoMemory) -> CaseError {
        CaseError::NoMemory
    }
}

/// A call with its arguments, and what it has to give.
#[derive(Debug, Drop)]
pub struct Case<'a> {
    /// The call's name.
    pub call: &'a [u8],

    /// What goes in, in order.
    pub arguments: Vec<Vec<u8>>,

    /// What is expected, as it is written.
    pub expected: &'a [u8],
}

impl<'a> Case<'a> {
    /// The argument of this number, from 0; no bytes where there is none.
    pub fn argument(&self, index: usize) -> &[u8] {
        match self.arguments.get(index) {
            Some(bytes) => bytes.as_slice(),
            None => b"",
        }
    }

    /// The argument of this number as text, where it is UTF-8.
    pub fn text(&self, index: usize) -> Option<&str> {
        str::from_utf8(self.arguments.get(index)?.as_slice()).ok()
    }

    /// The argument of this number as a number in decimal digits.
    pub fn number(&self, index: usize) -> Option<usize> {
        let mut digits = Cursor::new(self.arguments.get(index)?.as_slice());
        let value = digits.number()?;
        if digits.peek().is_some() {
            return None;
        }
        Some(value)
    }
}

/// The case of a line; none of a blank line and of one that begins with `#`.
pub fn read_case(alloc: Global, line: &[u8]) -> Result<Option<Case<'_>>, CaseError> {
    let mut cursor = Cursor::new(line);
    cursor.pass_blanks();
    if matches!(cursor.peek(), None | Some(b'#')) {
        return Ok(None);
    }
    let call = cursor.word();
    let mut arguments = Vec::new(alloc);
    for _ in 0..line.len() {
        cursor.pass_blanks();
        if cursor.passes(b'=') {
            return expecting(call, arguments, cursor);
        }
        let argument = read_argument(alloc, &mut cursor)?;
        keep(&mut arguments, argument)?;
    }
    Err(CaseError::Unreadable)
}

// The case whose expected text comes next.
fn expecting<'a>(
    call: &'a [u8],
    arguments: Vec<Vec<u8>>,
    mut cursor: Cursor<'a>,
) -> Result<Option<Case<'a>>, CaseError> {
    cursor.pass_blanks();
    Ok(Some(Case {
        call,
        arguments,
        expected: cursor.rest().trim_ascii_end(),
    }))
}

fn keep(arguments: &mut Vec<Vec<u8>>, argument: Vec<u8>) -> Result<(), NoMemory> {
    Ok(arguments.push(argument)?)
}

// A word, or quoted texts that are joined by `+`.
fn read_argument(alloc: Global, cursor: &mut Cursor<'_>) -> Result<Vec<u8>, CaseError> {
    if cursor.peek() == Some(b'"') {
        return read_joined(alloc, cursor);
    }
    let word = cursor.word();
    if word.is_empty() {
        return Err(CaseError::Unreadable);
    }
    let mut bytes = Vec::new(alloc);
    bytes.extend_from_slice(word)?;
    Ok(bytes)
}

/// The bytes of quoted texts that are joined by `+`, each as often as it says.
pub fn read_joined(alloc: Global, cursor: &mut Cursor<'_>) -> Result<Vec<u8>, CaseError> {
    let mut bytes = Vec::new(alloc);
    for _ in 0..u64::MAX {
        read_piece(alloc, cursor, &mut bytes)?;
        if !cursor.passes(b'+') {
            return Ok(bytes);
        }
    }
    Err(CaseError::Unreadable)
}

/// The most times that a text is repeated.
const MAX_REPEATS: usize = 1_000_000;

// One quoted text, as often as it says.
fn read_piece(
    alloc: Global,
    cursor: &mut Cursor<'_>,
    bytes: &mut Vec<u8>,
) -> Result<(), CaseError> {
    let piece = read_quoted(alloc, cursor)?;
    let mut times = 1;
    if cursor.passes(b'*') {
        times = cursor.number().ok_or(CaseError::Unreadable)?;
    }
    if times > MAX_REPEATS {
        return Err(CaseError::Unreadable);
    }
    for _ in 0..times {
        bytes.extend_from_slice(piece.as_slice())?;
    }
    Ok(())
}
