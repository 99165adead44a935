//! Heads of answers: what they say.
use crate::messages::heads::{connection_word, put_error, put_kind};
use bytes::Bytes;
use h1_decoder::{ResponseItem, response_head};
use http_types::{NoMemory, Version};
use std::alloc::Global;
use vectors::{Case, Report};

/// `response PIECE`: the status, the body's kind, the connection type, `lax` where only the second reading took it, the
/// minor version, the reason, and each header by name; or the error's word.
pub fn response(alloc: Global, case: &Case<'_>, found: &mut Report) -> Result<bool, NoMemory> {
    let piece = Bytes::copy_from_slice(alloc, case.argument(0))?;
    match response_head(alloc, piece) {
        Ok(item) => put_response(&item, found),
        Err(error) => put_error(error, found),
    }
    Ok(true)
}

fn put_response(item: &ResponseItem, found: &mut Report) {
    found.put_decimal(u64::from(item.head.status.as_u16()));
    found.put_text(" ");
    put_kind(item.body, found);
    found.put_text(connection_word(item.head.connection_type()));
    found.put_text(if item.is_lax { " lax" } else { " -" });
    let is_older = item.head.version < Version::HTTP_11;
    found.put_text(if is_older { " 1.0 " } else { " 1.1 " });
    found.put_quoted(item.reason.as_slice());
    found.put_fields(item.head.headers());
}
