//! Vectors of header maps, heads, settings, sources and sinks, and of the texts that errors print.
mod ends;
mod errors;
mod maps;
mod marks;
mod printed;
mod settings;

use crate::heads::ends::{sink, source, sure_sink, sure_source};
use crate::heads::errors::{
    cause, content_type_error, dispatch_error, error, http_error, parse_error, payload_error,
};
use crate::heads::maps::{drain, edit, find, pairs};
use crate::heads::marks::{asks, chunked, connection, media_type, reason};
use crate::heads::printed::map;
use crate::heads::settings::{hold_size, keep_alive};
use http_types::NoMemory;
use std::alloc::Global;
use vectors::{Case, Player, Report};

/// The calls of `http_map`, `http_config` and `http_types`.
pub struct Heads;

impl Player for Heads {
    fn play(&self, alloc: Global, case: &Case<'_>, found: &mut Report) -> Result<bool, NoMemory> {
        match case.call {
            b"edit" => edit(alloc, case, found),
            b"find" => find(alloc, case, found),
            b"drain" => drain(alloc, case, found),
            b"pairs" => pairs(alloc, case, found),
            b"map" => map(alloc, case, found),
            b"error" => Ok(error(alloc, case, found)),
            b"http-error" => Ok(http_error(alloc, case, found)),
            b"parse-error" => Ok(parse_error(alloc, case, found)),
            b"payload-error" => Ok(payload_error(alloc, case, found)),
            b"dispatch-error" => Ok(dispatch_error(alloc, case, found)),
            b"cause" => Ok(cause(alloc, case, found)),
            b"content-type-error" => Ok(content_type_error(alloc, case, found)),
            b"connection" => connection(alloc, case, found),
            b"reason" => reason(alloc, case, found),
            b"media-type" => media_type(alloc, case, found),
            b"chunked" => chunked(alloc, case, found),
            b"asks" => asks(alloc, case, found),
            b"hold-size" => hold_size(case, found),
            b"keep-alive" => keep_alive(case, found),
            b"source" => source(alloc, case, found),
            b"sure-source" => sure_source(alloc, case, found),
            b"sink" => sink(alloc, case, found),
            b"sure-sink" => sure_sink(alloc, found),
            _ => Ok(false),
        }
    }
}
