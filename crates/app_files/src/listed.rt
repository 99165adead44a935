//! A folder's page.
use crate::lookup::{Unread, look, stamp};
use crate::shared::Shared;
use http_files::{Entry, FilePath, folder_page, page_changed};
use std::alloc::{AllocError, Global};
use std::fs;
use std::io::ErrorKind;

/// A folder's page.
#[derive(Drop)]
pub struct Listed {
    pub page: String,

    /// When it was changed, in seconds after the start of 1970, where that is known and over.
    pub changed: Option<u64>,
}

impl Listed {
    /// The page of the folder at a path, at this moment, which is in milliseconds after the start of 1970.
    pub fn new(
        rt: &HostRuntime,
        shared: &Shared,
        path: &FilePath,
        moment: Option<u64>,
    ) -> Result<Listed, Unread> {
        // Looked at before the names are read: what changes later is younger.
        let changed = stamp(&look(rt, path)?).map(|(seconds, _)| seconds);
        let entries = entries(rt, path, shared.shows_dots())?;
        let changed = page_changed(changed, entries.as_slice(), moment);
        match page_of(rt.alloc(), shared, path, entries.as_slice()) {
            Ok(page) => Ok(Listed { page, changed }),
            Err(AllocError) => Err(Unread::NoMemory),
        }
    }
}

// The page of these names, below the folder's path as the client sees it.
fn page_of(
    alloc: Global,
    shared: &Shared,
    path: &FilePath,
    entries: &[Entry],
) -> Result<String, AllocError> {
    let place = path
        .as_str()
        .strip_prefix(shared.folder().as_str())
        .unwrap_or("");
    let mut title = String::from_str(alloc, place)?;
    title.push_str("/")?;
    folder_page(alloc, title.as_str(), entries)
}

// The names in a folder, in order, those with a dot in front only where they are to be shown. One that isn't UTF-8 is left
// out, as is one that can't be looked at.
fn entries(rt: &HostRuntime, path: &FilePath, shows_dots: bool) -> Result<Vec<Entry>, Unread> {
    let alloc = rt.alloc();
    let mut entries = Vec::new(alloc);
    let listing = match fs::read_dir(rt, path.as_str()) {
        Ok(listing) => listing,
        Err(error) => return Err(Unread::of(&error)),
    };
    for item in listing {
        let item = match item {
            Ok(item) => item,
            // A path is text here, so there is no file of such a name that could be served.
            Err(error) if error.kind() == ErrorKind::InvalidFilename => continue,
            Err(error) => return Err(Unread::of(&error)),
        };
        if !shows_dots && item.file_name().starts_with('.') {
            continue;
        }
        let Ok(metadata) = fs::metadata(rt, item.path()) else {
            continue;
        };
        let Ok(name) = String::from_str(alloc, item.file_name()) else {
            return Err(Unread::NoMemory);
        };
        let entry = Entry {
            is_file: !metadata.is_dir(),
            name,
            size: metadata.len(),
            changed: stamp(&metadata).map(|(seconds, _)| seconds),
        };
        if entries.push(entry).is_err() {
            return Err(Unread::NoMemory);
        }
    }
    if entries.sort().is_err() {
        return Err(Unread::NoMemory);
    }
    Ok(entries)
}
