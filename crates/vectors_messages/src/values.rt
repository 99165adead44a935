//! Vectors of header values: texts that are read and printed, and what the headers of a message say.
mod messages;
mod texts;

use crate::values::messages::{coding_header, content_encoding, content_type};
use crate::values::texts::{
    charset, coding, codings, date, escape, extended, item, media_type, qualities, quality, tag,
    texts,
};
use http_types::NoMemory;
use std::alloc::Global;
use vectors::{Case, Player, Report};

/// The calls of `http_values`.
pub struct Values;

impl Player for Values {
    fn play(&self, alloc: Global, case: &Case<'_>, found: &mut Report) -> Result<bool, NoMemory> {
        match case.call {
            b"quality" => quality(alloc, case, found),
            b"qualities" => qualities(alloc, case, found),
            b"item" => item(alloc, case, found),
            b"texts" => texts(alloc, case, found),
            b"codings" => codings(alloc, case, found),
            b"coding" => coding(alloc, case, found),
            b"escape" => escape(alloc, case, found),
            b"charset" => charset(alloc, case, found),
            b"date" => date(alloc, case, found),
            b"tag" => tag(alloc, case, found),
            b"extended" => extended(alloc, case, found),
            b"media-type" => media_type(alloc, case, found),
            b"content-encoding" => content_encoding(alloc, case, found),
            b"coding-header" => coding_header(alloc, case, found),
            b"content-type" => content_type(alloc, case, found),
            _ => Ok(false),
        }
    }
}
