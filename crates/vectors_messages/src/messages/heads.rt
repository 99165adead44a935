//! Heads: where they begin and end, and what they say.
use bytes::Bytes;
use h1_decoder::{BodyKind, HeadItem, HeadScan, request_head, scan_head};
use http_types::{ConnectionType, NoMemory, ParseError};
use std::alloc::Global;
use vectors::{Case, Report};

/// `scan BYTES`: where the first head piece begins and ends.
pub fn scan(case: &Case<'_>, found: &mut Report) -> Result<bool, NoMemory> {
    match scan_head(case.argument(0)) {
        HeadScan::Open => found.put_text("open"),
        HeadScan::Piece(start, end) => {
            found.put_text("piece ");
            found.put_decimal(start as u64);
            found.put_text(" ");
            found.put_decimal(end as u64);
        }
    }
    Ok(true)
}

/// `head PIECE`: the body's kind, the connection type, whether the client waits for leave, the minor version, the target,
/// and each header by name; or the error's word. A copy of the head has to say the same.
pub fn head(alloc: Global, case: &Case<'_>, found: &mut Report) -> Result<bool, NoMemory> {
    let piece = Bytes::copy_from_slice(alloc, case.argument(0))?;
    match request_head(alloc, piece) {
        Ok(item) => put_twice(alloc, &item, found),
        Err(error) => put_error(error, found),
    }
    Ok(true)
}

fn put_twice(alloc: Global, item: &HeadItem, found: &mut Report) {
    put_head(item, found);
    let mut again = Report::new(alloc);
    put_copy(item, &mut again);
    found.compare_copy(&again);
}

fn put_copy(item: &HeadItem, found: &mut Report) {
    match item.clone() {
        Ok(copy) => put_head(&copy, found),
        Err(_) => found.lose(),
    }
}

fn put_head(item: &HeadItem, found: &mut Report) {
    put_kind(item.body, found);
    found.put_text(connection_word(item.connection_type()));
    found.put_text(if item.expects_continue() {
        " expects"
    } else {
        " -"
    });
    found.put_text(if item.minor() == 0 { " 1.0 " } else { " 1.1 " });
    found.put_quoted(item.target.as_slice());
    found.put_fields(item.head.headers());
}

/// A body's kind.
pub fn put_kind(kind: BodyKind, found: &mut Report) {
    match kind {
        BodyKind::None => found.put_text("none"),
        BodyKind::Chunked => found.put_text("chunked"),
        BodyKind::Raw => found.put_text("raw"),
        BodyKind::Length(length) => {
            found.put_text("length:");
            found.put_decimal(length);
        }
    }
}

/// The word of a connection type, with a blank before it.
pub fn connection_word(kind: ConnectionType) -> &'static str {
    match kind {
        ConnectionType::KeepAlive => " keep-alive",
        ConnectionType::Close => " close",
        ConnectionType::Upgrade => " upgrade",
    }
}

/// The word of an error.
pub fn put_error(error: ParseError, found: &mut Report) {
    match error {
        ParseError::NoMemory => found.lose(),
        ParseError::TooLarge => found.put_text("too-large"),
        ParseError::Method => found.put_text("method"),
        ParseError::Uri => found.put_text("uri"),
        ParseError::Version => found.put_text("version"),
        ParseError::Status => found.put_text("status"),
        ParseError::Header => found.put_text("header"),
        _ => found.put_text("another"),
    }
}
