//! What the connections of a server share: its folder and options, how many requests were answered, and whether it is to end.
use crate::access::LineForm;
use http_files::Folder;
use std::sync::atomic::{AtomicU64, Ordering};

/// What the connections of a server share.
#[derive(Drop)]
pub struct Shared {
    folder: Folder,
    shows_dots: bool,
    cache_control: Option<String>,
    lines: LineForm,
    answered: AtomicU64,
    has_ended: AtomicU64,
    limit: Option<u64>,
}

impl Shared {
    /// No request is answered yet. After so many the server ends, where a limit is given.
    pub fn new(
        folder: Folder,
        shows_dots: bool,
        cache_control: Option<String>,
        lines: LineForm,
        limit: Option<u64>,
    ) -> Shared {
        Shared {
            folder,
            shows_dots,
            cache_control,
            lines,
            answered: AtomicU64::new(0),
            has_ended: AtomicU64::new(0),
            limit,
        }
    }

    /// The folder whose files are served.
    pub fn folder(&self) -> &Folder {
        &self.folder
    }

    /// Whether names that begin with a dot are served and listed.
    pub fn shows_dots(&self) -> bool {
        self.shows_dots
    }

    /// The field `Cache-Control` of files and of pages of names.
    pub fn cache_control(&self) -> Option<&str> {
        self.cache_control.as_deref()
    }

    /// What the line of a request says.
    pub fn lines(&self) -> LineForm {
        self.lines
    }

    /// A further request is answered.
    pub fn count(&self) {
        let _ = self.answered.fetch_add(1, Ordering::SeqCst);
    }

    /// The server is to end.
    pub fn end(&self) {
        self.has_ended.store(1, Ordering::SeqCst);
    }

    /// Whether the server is to end.
    pub fn is_ending(&self) -> bool {
        let is_full = match self.limit {
            Some(limit) => self.answered.load(Ordering::SeqCst) >= limit,
            None => false,
        };
        is_full || self.has_ended.load(Ordering::SeqCst) != 0
    }
}
