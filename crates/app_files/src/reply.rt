//! Heads of answers, with the headers that each kind has.
use crate::found::{Found, date_text};
use http_types::header::names::{
    ACCEPT_RANGES, CACHE_CONTROL, CONTENT_ENCODING, CONTENT_RANGE, ETAG, LAST_MODIFIED, VARY,
};
use http_types::header::{CONTENT_TYPE, HeaderName, HeaderValue, ValueError, value_of_bytes};
use http_types::{ResponseHead, StatusCode};
use serve_blocking::HandleError;
use std::alloc::Global;

/// What was sent: the status, and how many bytes the body has.
#[derive(Clone, Copy)]
pub struct Sent {
    pub status: StatusCode,
    pub length: u64,
}

/// Adds a header whose value is a text.
pub fn add(
    alloc: Global,
    head: &mut ResponseHead,
    name: HeaderName,
    text: &str,
) -> Result<(), HandleError> {
    add_bytes(alloc, head, name, text.as_bytes())
}

// The same of the text's bytes.
fn add_bytes(
    alloc: Global,
    head: &mut ResponseHead,
    name: HeaderName,
    bytes: &[u8],
) -> Result<(), HandleError> {
    let value = match value_of_bytes(alloc, bytes) {
        Ok(value) => value,
        Err(ValueError::NoMemory) => return Err(HandleError::NoMemory),
        Err(ValueError::Invalid) => return Err(HandleError::Failed),
    };
    head.headers.append(name, value)?;
    Ok(())
}

/// The head of a page in HTML.
pub fn page_head(alloc: Global, status: StatusCode) -> Result<ResponseHead, HandleError> {
    let mut head = ResponseHead::new(alloc, status);
    head.headers.append(
        CONTENT_TYPE,
        HeaderValue::from_static("text/html; charset=utf-8"),
    )?;
    Ok(head)
}

/// The head of a file's answer: its tag, its date, that ranges of it may be asked for, how long it may be kept, and whether its
/// form is the client's choice.
pub fn file_head(
    alloc: Global,
    status: StatusCode,
    found: &Found,
    cache: Option<&str>,
) -> Result<ResponseHead, HandleError> {
    let mut head = ResponseHead::new(alloc, status);
    add(alloc, &mut head, ETAG, &found.tag)?;
    add_dated(alloc, &mut head, Some(found.changed), cache)?;
    head.headers
        .append(ACCEPT_RANGES, HeaderValue::from_static("bytes"))?;
    if found.varies {
        head.headers
            .append(VARY, HeaderValue::from_static("accept-encoding"))?;
    }
    Ok(head)
}

/// Says of which type a file is, and how its bytes are coded.
pub fn add_type(
    alloc: Global,
    head: &mut ResponseHead,
    media_type: &str,
    found: &Found,
) -> Result<(), HandleError> {
    add(alloc, head, CONTENT_TYPE, media_type)?;
    match found.coding.name() {
        Some(name) => add(alloc, head, CONTENT_ENCODING, name),
        None => Ok(()),
    }
}

/// The head of a folder's page, or of the answer that the client has it.
pub fn listed_head(
    alloc: Global,
    status: StatusCode,
    changed: Option<u64>,
    cache: Option<&str>,
) -> Result<ResponseHead, HandleError> {
    let mut head = if status == StatusCode::NOT_MODIFIED {
        ResponseHead::new(alloc, status)
    } else {
        page_head(alloc, status)?
    };
    add_dated(alloc, &mut head, changed, cache)?;
    Ok(head)
}

// Says when it was changed, where a date can tell that, and how long it may be kept.
fn add_dated(
    alloc: Global,
    head: &mut ResponseHead,
    changed: Option<u64>,
    cache: Option<&str>,
) -> Result<(), HandleError> {
    if let Some(date) = changed.and_then(date_text) {
        add_bytes(alloc, head, LAST_MODIFIED, date.as_slice())?;
    }
    match cache {
        Some(text) => add(alloc, head, CACHE_CONTROL, text),
        None => Ok(()),
    }
}

/// Says which bytes of how many are sent (RFC 7233, section 4.2).
pub fn add_range(
    alloc: Global,
    head: &mut ResponseHead,
    part: Option<(u64, u64)>,
    length: u64,
) -> Result<(), HandleError> {
    let text = match part {
        Some((first, last)) => format!(in alloc; "bytes {first}-{last}/{length}")?,
        None => format!(in alloc; "bytes */{length}")?,
    };
    add(alloc, head, CONTENT_RANGE, &text)
}
