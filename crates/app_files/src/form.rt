//! In which form a file is sent: as it is, or as one of the coded files beside it.
use crate::lookup::is_file;
use http_files::{Accepted, Coding, FilePath, Folder, PathError};
use http_types::{HeaderMap, RequestHead};
use http_values::{FromText, QualityItem, ReadError};
use std::alloc::{AllocError, Global};

/// The form of a file that a request gets.
#[derive(Drop)]
pub struct Form {
    pub coding: Coding,

    /// Where the coded file lies. There is none of the file as it is.
    pub path: Option<FilePath>,

    /// Whether a coded file is there, so that other requests may get another form.
    pub varies: bool,
}

impl Form {
    /// The form that this request gets of its target's file, or of the index.html of its target's folder.
    pub fn of(
        rt: &HostRuntime,
        folder: &Folder,
        request: &RequestHead,
    ) -> Result<Form, AllocError> {
        let target = request.uri.path();
        let brotli = coded(rt, folder, target, Coding::Brotli)?;
        let gzip = coded(rt, folder, target, Coding::Gzip)?;
        let varies = brotli.is_some() || gzip.is_some();
        let accepted = if varies {
            accepted_of(rt.alloc(), &request.headers)?
        } else {
            Accepted::NOTHING
        };
        let coding = accepted.chosen(brotli.is_some(), gzip.is_some());
        let path = match coding {
            Coding::Identity => None,
            Coding::Gzip => gzip,
            Coding::Brotli => brotli,
        };
        Ok(Form {
            coding,
            path,
            varies,
        })
    }
}

// Where the target's file lies in this coding, if it is there.
fn coded(
    rt: &HostRuntime,
    folder: &Folder,
    target: &str,
    coding: Coding,
) -> Result<Option<FilePath>, AllocError> {
    let alloc = rt.alloc();
    let mut name = String::from_str(alloc, target)?;
    if target.ends_with('/') {
        name.push_str("index.html")?;
    }
    name.push_str(coding.ending())?;
    match folder.file(alloc, name.as_str()) {
        Ok(path) if is_file(rt, &path) => Ok(Some(path)),
        Err(PathError::NoMemory) => Err(AllocError),
        _ => Ok(None),
    }
}

// What a request's `Accept-Encoding` says. An item that is none is passed over.
fn accepted_of(alloc: Global, headers: &HeaderMap) -> Result<Accepted, AllocError> {
    let mut accepted = Accepted::NOTHING;
    for line in headers.get_all("accept-encoding") {
        for item in line.to_str().unwrap_or("").split(',') {
            accepted = noting(alloc, accepted, item.trim())?;
        }
    }
    Ok(accepted)
}

// The same with one more item.
fn noting(alloc: Global, accepted: Accepted, item: &str) -> Result<Accepted, AllocError> {
    match QualityItem::<String>::from_text(alloc, item) {
        Ok(item) => {
            let mut name = item.item;
            name.make_ascii_lowercase();
            Ok(accepted.noting(name.as_str(), item.quality.thousandths()))
        }
        Err(ReadError::NoMemory) => Err(AllocError),
        Err(_) => Ok(accepted),
    }
}
