//! What a server of static files has to know, without a file and without a socket: where a target's file lies, which of
//! its bytes are asked for, on which conditions, of which type it is, and how a folder's page looks.
//!
//! # Example
//!
//! ```ignore
//! let Some(folder) = Folder::new(path) else { return }; // The path is empty.
//! let file = folder.file(alloc, "/a%20b/../c")?; // PathError::Outside
//! let asked = asked_range("bytes=0-99", 1000); // Asked::Part(0, 99)
//! ```
//!
//! # Contract
//!
//! A path is the folder's, and then plain names: no `..`, no NUL. A range is one of bytes, as RFC 7233 has it.
#![tactic(auto)]

mod codings;
mod conditions;
mod error;
mod listing;
mod log_text;
mod paths;
mod places;
mod ranges;
mod types;

pub use codings::{Accepted, Coding};
pub use conditions::{
    Conditions, Verdict, etag, is_unchanged_since, lists_etag, lists_strong_etag,
};
pub use error::PathError;
pub use listing::{Entry, folder_page, message_page, page_changed};
pub use log_text::{json_text, line_text, log_time};
pub use paths::{FilePath, Folder};
pub use places::place_of;
pub use ranges::{Asked, asked_range};
pub use types::content_type;
