//! What maps print.
use crate::heads::maps::map_of;
use http_types::{HeaderMap, NoMemory};
use std::alloc::Global;
use vectors::{Case, Report};

/// `map LINE ..`: the text that the map of these lines prints where one looks for faults.
pub fn map(alloc: Global, case: &Case<'_>, found: &mut Report) -> Result<bool, NoMemory> {
    let Some(map) = map_of(alloc, case, 0)? else {
        return Ok(false);
    };
    put_debug(alloc, &map, found);
    Ok(true)
}

fn put_debug(alloc: Global, map: &HeaderMap, found: &mut Report) {
    match format!(in alloc; "{map:?}") {
        Ok(text) => found.put_text(text.as_str()),
        Err(_) => found.lose(),
    }
}
