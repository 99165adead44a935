//! Who may join the rooms.
use http_types::header::{HeaderName, HeaderValue, SEC_WEBSOCKET_VERSION, UPGRADE};
use http_types::{RequestHead, Version, has_word};

/// What a request is to get.
#[derive(Clone, Copy, PartialEq, Eq)]
pub enum Verdict {
    /// It asks for no upgrade to WebSocket: a page, or what says that there is none.
    Page,

    /// It joins a room.
    Join,

    /// It speaks another version of WebSocket than 13, or another one of HTTP than 1.1.
    Outdated,

    /// It comes from a page of another site.
    Forbidden,
}

/// What requests are judged by.
#[derive(Drop)]
pub struct Gate {
    origins: Vec<String>,
}

impl Gate {
    /// One that lets pages of these sites in, and those of all sites where it has none.
    pub fn new(origins: Vec<String>) -> Gate {
        Gate { origins }
    }

    /// What this request is to get (RFC 6455, section 4.2.2). One that names no origin isn't a browser's.
    pub fn judge(&self, head: &RequestHead) -> Verdict {
        if !asks_for_upgrade(head) {
            return Verdict::Page;
        }
        if head.version != Version::HTTP_11 || !has_version(head) {
            return Verdict::Outdated;
        }
        if !self.origins.is_empty() && !self.lets_in(head) {
            return Verdict::Forbidden;
        }
        Verdict::Join
    }

    // Whether each origin that it names is one of ours.
    fn lets_in(&self, head: &RequestHead) -> bool {
        for value in head.headers.get_all(HeaderName::from_static("origin")) {
            if !self.has(value) {
                return false;
            }
        }
        true
    }

    fn has(&self, value: &HeaderValue) -> bool {
        for origin in &self.origins {
            if origin.as_bytes().eq_ignore_ascii_case(value.as_bytes()) {
                return true;
            }
        }
        false
    }
}

fn asks_for_upgrade(head: &RequestHead) -> bool {
    match head.headers.get(UPGRADE) {
        Some(value) => has_word(value.as_bytes(), b"websocket"),
        None => false,
    }
}

fn has_version(head: &RequestHead) -> bool {
    match head.headers.get(SEC_WEBSOCKET_VERSION) {
        Some(value) => value.as_bytes() == b"13".as_slice(),
        None => false,
    }
}
