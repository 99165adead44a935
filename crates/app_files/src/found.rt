//! A file that was found, and its length and date.
use crate::form::Form;
use crate::lookup::{Unread, stamp};
use http_files::{Coding, FilePath, Folder, etag};
use http_types::RequestHead;
use httpdate::HttpDate;
use std::alloc::{AllocError, Global};
use std::fs::{File, Metadata};

/// What is known of a file without its bytes.
#[derive(Drop)]
pub struct Found {
    /// Bytes.
    pub length: u64,

    /// When it was changed, in seconds after the start of 1970.
    pub changed: u64,

    /// Its entity tag.
    pub tag: String,

    /// How it is coded.
    pub coding: Coding,

    /// Whether other forms of it are there.
    pub varies: bool,
}

impl Found {
    fn new(alloc: Global, metadata: &Metadata, form: &Form) -> Result<Found, AllocError> {
        let (coding, varies) = (form.coding, form.varies);
        let length = metadata.len();
        let (changed, nanoseconds) = stamp(metadata).unwrap_or((0, 0));
        let tag = etag(alloc, length, changed, nanoseconds, coding)?;
        Ok(Found {
            length,
            changed,
            tag,
            coding,
            varies,
        })
    }
}

/// Opens the file at a path, which is the one of the request's target, or the coded one beside it that the request gets.
pub fn open(
    rt: &HostRuntime,
    folder: &Folder,
    request: &RequestHead,
    path: &FilePath,
) -> Result<(File, Found), Unread> {
    let Ok(form) = Form::of(rt, folder, request) else {
        return Err(Unread::NoMemory);
    };
    let place = form.path.as_ref().unwrap_or(path);
    let file = match File::open(rt, place.as_str()) {
        Ok(file) => file,
        Err(error) => return Err(Unread::of(&error)),
    };
    let Ok(metadata) = file.metadata() else {
        return Err(Unread::Broken);
    };
    match Found::new(rt.alloc(), &metadata, &form) {
        Ok(found) => Ok((file, found)),
        Err(AllocError) => Err(Unread::NoMemory),
    }
}

/// A second after the start of 1970 as `Last-Modified` has it, where a date can tell it.
pub fn date_text(seconds: u64) -> Option<[u8; 29]> {
    let date = HttpDate::from_unix_secs(seconds).ok()?;
    Some(date.to_bytes())
}
