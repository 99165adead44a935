//! Payloads of Close frames.
use crate::frames::shown::{put_error, put_reason};
use http_types::NoMemory;
use std::alloc::Global;
use vectors::{Case, Report};
use ws_frames::Parser;

/// `close PAYLOAD`: the reason that the payload of a Close gives: its code's number, and its text where it has one; `none`;
/// or why it gives none that may be sent.
pub fn close(alloc: Global, case: &Case<'_>, found: &mut Report) -> Result<bool, NoMemory> {
    match Parser::try_parse_close_payload(alloc, case.argument(0)) {
        Ok(reason) => put_reason(&reason, found),
        Err(error) => put_error(alloc, error, found),
    }
    Ok(true)
}

/// `any-close PAYLOAD`: the reason that it gives, whatever its code.
pub fn any_close(alloc: Global, case: &Case<'_>, found: &mut Report) -> Result<bool, NoMemory> {
    let reason = Parser::parse_close_payload(alloc, case.argument(0))?;
    put_reason(&reason, found);
    Ok(true)
}
