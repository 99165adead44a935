//! Requests and their bodies.
use crate::client::MISPLACED;
use h1_client::ClientConnection;
use http_framing::BodySize;
use http_types::header::{HeaderName, value_of_bytes};
use http_types::{ConnectionType, Method, RequestHead, Uri, Version};
use std::alloc::Global;
use vectors::{CaseError, Cursor, Report, read_joined};

/// `ask METHOD TARGET VERSION SIZE TYPE NAME "VALUE" ..`: asks a request of this version (`1.0`, `1.1`), with a body of this
/// size (`none`, `stream` or a number), which asks this of the connection (`close`, `upgrade`, `keep-alive`, or `-` for
/// nothing). `in_camel_case` says whether the names of its headers are written so.
pub fn ask(
    alloc: Global,
    connection: &mut ClientConnection,
    in_camel_case: bool,
    mut cursor: Cursor<'_>,
    found: &mut Report,
) -> Result<(), CaseError> {
    let mut head = head_of(alloc, &mut cursor)?;
    head.set_camel_case_headers(in_camel_case);
    let size = complete(alloc, &mut head, cursor)?;
    ask_for(connection, &head, size, found);
    Ok(())
}

// Reads what the request asks of the connection and its headers into its head, and gives the size of its body.
fn complete(
    alloc: Global,
    head: &mut RequestHead,
    mut cursor: Cursor<'_>,
) -> Result<BodySize, CaseError> {
    let size = size_of(&mut cursor).ok_or(CaseError::Unreadable)?;
    set_type(head, next_word(&mut cursor))?;
    put_headers(alloc, head, &mut cursor)?;
    Ok(size)
}

fn ask_for(
    connection: &mut ClientConnection,
    head: &RequestHead,
    size: BodySize,
    found: &mut Report,
) {
    if !connection.can_ask(head, size) {
        return found.put_text(MISPLACED);
    }
    found.put_done(connection.ask(head, size));
}

// The next word, and no blank after it.
fn next_word<'a>(cursor: &mut Cursor<'a>) -> &'a [u8] {
    let word = cursor.word();
    cursor.pass_blanks();
    word
}

// A head of a method, a target and a version, without headers.
fn head_of(alloc: Global, cursor: &mut Cursor<'_>) -> Result<RequestHead, CaseError> {
    let Ok(method) = Method::from_bytes(alloc, next_word(cursor)) else {
        return Err(CaseError::Unreadable);
    };
    let Ok(uri) = Uri::from_bytes(alloc, next_word(cursor)) else {
        return Err(CaseError::Unreadable);
    };
    let mut head = RequestHead::new(alloc);
    head.method = method;
    head.uri = uri;
    head.version = match next_word(cursor) {
        b"1.0" => Version::HTTP_10,
        b"1.1" => Version::HTTP_11,
        _ => Version::HTTP_2,
    };
    Ok(head)
}

fn size_of(cursor: &mut Cursor<'_>) -> Option<BodySize> {
    match next_word(cursor) {
        b"none" => Some(BodySize::None),
        b"stream" => Some(BodySize::Stream),
        digits => Some(BodySize::Sized(Cursor::new(digits).number()? as u64)),
    }
}

fn set_type(head: &mut RequestHead, word: &[u8]) -> Result<(), CaseError> {
    match word {
        b"close" => head.set_connection_type(ConnectionType::Close),
        b"keep-alive" => head.set_connection_type(ConnectionType::KeepAlive),
        b"upgrade" => head.set_connection_type(ConnectionType::Upgrade),
        b"-" => {}
        _ => return Err(CaseError::Unreadable),
    }
    Ok(())
}

fn put_headers(
    alloc: Global,
    head: &mut RequestHead,
    cursor: &mut Cursor<'_>,
) -> Result<(), CaseError> {
    for _ in 0..cursor.rest().len() {
        let name = next_word(cursor);
        if name.is_empty() {
            break;
        }
        let value = read_joined(alloc, cursor)?;
        cursor.pass_blanks();
        put_header(alloc, head, name, value.as_slice())?;
    }
    Ok(())
}

fn put_header(
    alloc: Global,
    head: &mut RequestHead,
    name: &[u8],
    value: &[u8],
) -> Result<(), CaseError> {
    let Ok(name) = HeaderName::from_bytes(alloc, name) else {
        return Err(CaseError::Unreadable);
    };
    let Ok(value) = value_of_bytes(alloc, value) else {
        return Err(CaseError::Unreadable);
    };
    Ok(head.headers.append(name, value)?)
}

/// `chunk "BYTES"`: the next bytes of the request's body.
pub fn chunk(connection: &mut ClientConnection, bytes: &[u8], found: &mut Report) {
    if !connection.can_chunk() {
        return found.put_text(MISPLACED);
    }
    found.put_done(connection.chunk(bytes));
}

/// `end`: the request's body is whole.
pub fn end_body(connection: &mut ClientConnection, found: &mut Report) {
    if !connection.can_end_body() {
        return found.put_text(MISPLACED);
    }
    found.put_done(connection.end_body());
}

/// `fail`: the request's body can't be completed.
pub fn fail_body(connection: &mut ClientConnection, found: &mut Report) {
    if !connection.can_end_body() {
        return found.put_text(MISPLACED);
    }
    connection.fail_body();
    found.put_text("done");
}
