//! What a request asks for of a file: on which conditions, and which bytes.
use crate::found::{Found, date_text};
use http_files::{
    Asked, Conditions, asked_range, is_unchanged_since, lists_etag, lists_strong_etag,
};
use http_types::{HeaderMap, HeaderValue, Method, RequestHead};

/// The tag of what has none. No list has it, since white space round a tag in a list is passed over.
pub const NO_TAG: &str = " ";

/// Which of a request's conditions hold for what has this tag and was changed at this second (RFC 9110, section 13.1).
pub fn conditions_of(headers: &HeaderMap, tag: &str, changed: Option<u64>) -> Conditions {
    Conditions {
        if_match: is_meant(headers, tag),
        if_unmodified_since: is_unchanged(headers, "if-unmodified-since", changed),
        if_none_match: is_held(headers, tag).map(|is_held| !is_held),
        if_modified_since: is_unchanged(headers, "if-modified-since", changed).map(|same| !same),
    }
}

// Whether the lines of `If-Match` have this tag, where there are any.
fn is_meant(headers: &HeaderMap, tag: &str) -> Option<bool> {
    if !headers.contains_key("if-match") {
        return None;
    }
    let mut lines = headers.get_all("if-match");
    Some(lines.any(|line| lists_strong_etag(text_of(line), tag)))
}

// Whether the lines of `If-None-Match` have this tag, where there are any.
fn is_held(headers: &HeaderMap, tag: &str) -> Option<bool> {
    if !headers.contains_key("if-none-match") {
        return None;
    }
    let mut lines = headers.get_all("if-none-match");
    Some(lines.any(|line| lists_etag(text_of(line), tag)))
}

// A line's text. One of other bytes than ASCII's has no tag of ours.
fn text_of(line: &HeaderValue) -> &str {
    line.to_str().unwrap_or("")
}

// Whether what was changed at this second is no younger than the date of a field, where that has one line and is a date, and
// the second is known.
fn is_unchanged(headers: &HeaderMap, name: &str, changed: Option<u64>) -> Option<bool> {
    let mut lines = headers.get_all(name);
    let date = lines.next()?;
    match lines.next() {
        Some(_) => None,
        None => is_unchanged_since(date.as_bytes(), changed?),
    }
}

/// Which bytes are asked for. Of a file that isn't the one that `If-Range` means, all of them (RFC 7233, section 3.2).
pub fn bytes_of(request: &RequestHead, found: &Found) -> Asked {
    if request.method != Method::GET {
        return Asked::Whole;
    }
    let Some(range) = request.headers.get("range") else {
        return Asked::Whole;
    };
    let is_meant = match request.headers.get("if-range") {
        Some(value) => is_same(value.as_bytes(), found),
        None => true,
    };
    match range.to_str() {
        Ok(range) if is_meant => asked_range(range, found.length),
        _ => Asked::Whole,
    }
}

// Whether it is the file's tag, or its date. All forms of a file may have one date, so that a date doesn't tell which of them is
// meant.
fn is_same(value: &[u8], found: &Found) -> bool {
    if value == found.tag.as_bytes() {
        return true;
    }
    match date_text(found.changed) {
        Some(date) => !found.varies && value == date.as_slice(),
        None => false,
    }
}
