//! Numbers with names, and the answer to a key.
use crate::frames::shown::code_word;
use http_types::NoMemory;
use std::alloc::Global;
use vectors::{Case, Report};
use ws_frames::{CloseCode, OpCode, hash_key};

/// `close-code NUMBER`: the name of the code with this number, and the number of that name.
pub fn close_code(case: &Case<'_>, found: &mut Report) -> Result<bool, NoMemory> {
    let Some(number) = number_of(case, 0) else {
        return Ok(false);
    };
    let code = CloseCode::from(number);
    found.put_text(code_word(code));
    found.put_text(" ");
    found.put_decimal(u64::from(u16::from(code)));
    Ok(true)
}

/// `opcode NUMBER`: the printed name of the opcode with this number, and the number of that name.
pub fn opcode(alloc: Global, case: &Case<'_>, found: &mut Report) -> Result<bool, NoMemory> {
    let Some(op) = opcode_of(case, 0) else {
        return Ok(false);
    };
    put_opcode(alloc, op, found);
    found.put_text(" ");
    found.put_decimal(u64::from(u8::from(op)));
    Ok(true)
}

/// The printed name of an opcode.
pub fn put_opcode(alloc: Global, op: OpCode, found: &mut Report) {
    found.put_printed(alloc, &op);
}

/// `key KEY`: the answer to this key.
pub fn key(case: &Case<'_>, found: &mut Report) -> Result<bool, NoMemory> {
    found.put_quoted(&hash_key(case.argument(0)));
    Ok(true)
}

/// The argument of this number as a number of 16 bits.
pub fn number_of(case: &Case<'_>, index: usize) -> Option<u16> {
    let number = case.number(index)?;
    if number > 65535 {
        return None;
    }
    Some(number as u16)
}

/// The argument of this number as an opcode, by its number.
pub fn opcode_of(case: &Case<'_>, index: usize) -> Option<OpCode> {
    let number = case.number(index)?;
    if number > 15 {
        return None;
    }
    Some(OpCode::from(number as u8))
}
