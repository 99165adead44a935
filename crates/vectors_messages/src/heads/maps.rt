//! Header maps: edits, look-ups, and what a map gives up.
use http_map::{Drain, HeaderMap, HeaderName, HeaderValue, Removed, value_of_bytes};
use http_types::NoMemory;
use std::alloc::Global;
use vectors::{Case, Report};

// The name and the value that these bytes are; none where they are no such.
fn pair_of(alloc: Global, name: &[u8], value: &[u8]) -> Option<(HeaderName, HeaderValue)> {
    let value = value_of(alloc, value)?;
    match name_of(alloc, name) {
        Some(name) => Some((name, value)),
        None => None,
    }
}

fn name_of(alloc: Global, name: &[u8]) -> Option<HeaderName> {
    match HeaderName::from_bytes(alloc, name) {
        Ok(name) => Some(name),
        Err(_) => None,
    }
}

/// The value that these bytes are; none where they are none.
pub fn value_of(alloc: Global, value: &[u8]) -> Option<HeaderValue> {
    match value_of_bytes(alloc, value) {
        Ok(value) => Some(value),
        Err(_) => None,
    }
}

/// The map to which the lines were appended that the case names from this argument on: names and values by turns. None
/// where one of them is no line.
pub fn map_of(alloc: Global, case: &Case<'_>, from: usize) -> Result<Option<HeaderMap>, NoMemory> {
    let mut map = HeaderMap::new(alloc);
    for line in case
        .arguments
        .get(from..)
        .unwrap_or_default()
        .chunks_exact(2)
    {
        let Some((name, value)) = pair_of(alloc, line[0].as_slice(), line[1].as_slice()) else {
            return Ok(None);
        };
        map.append(name, value)?;
    }
    Ok(Some(map))
}

/// `edit KIND NAME VALUE LINE ..`: what an edit of the map of these lines takes out, and what is left, which a copy has to
/// give as well. The kinds are `append`, `insert`, `remove`, `keep` (the values that begin with VALUE) and `clear`.
pub fn edit(alloc: Global, case: &Case<'_>, found: &mut Report) -> Result<bool, NoMemory> {
    let Some(mut map) = map_of(alloc, case, 3)? else {
        return Ok(false);
    };
    put_edit(alloc, case, &mut map, found)
}

fn put_edit(
    alloc: Global,
    case: &Case<'_>,
    map: &mut HeaderMap,
    found: &mut Report,
) -> Result<bool, NoMemory> {
    let Some(removed) = edited(alloc, case, map)? else {
        return Ok(false);
    };
    found.put_text("taken ");
    put_removed(removed, found);
    found.put_text(" left ");
    put_map_twice(alloc, map, found);
    Ok(true)
}

// The values that the edit took out of the map; none where the case names no edit.
fn edited(
    alloc: Global,
    case: &Case<'_>,
    map: &mut HeaderMap,
) -> Result<Option<Removed>, NoMemory> {
    match case.argument(0) {
        b"append" => append(alloc, case, map)?,
        b"insert" => return insert(alloc, case, map),
        b"remove" => {
            let name = case.text(1).unwrap_or_default();
            return Ok(Some(map.remove(name)));
        }
        b"keep" => map.retain(|_name, value| value.as_bytes().starts_with(case.argument(2))),
        b"clear" => map.clear(),
        _ => return Ok(None),
    }
    Ok(Some(map.remove("")))
}

fn append(alloc: Global, case: &Case<'_>, map: &mut HeaderMap) -> Result<(), NoMemory> {
    match pair_of(alloc, case.argument(1), case.argument(2)) {
        Some((name, value)) => map.append(name, value),
        None => Ok(()),
    }
}

fn insert(
    alloc: Global,
    case: &Case<'_>,
    map: &mut HeaderMap,
) -> Result<Option<Removed>, NoMemory> {
    match pair_of(alloc, case.argument(1), case.argument(2)) {
        Some((name, value)) => Ok(Some(map.insert(name, value)?)),
        None => Ok(None),
    }
}

// How many values there are, and each.
fn put_removed(removed: Removed, found: &mut Report) {
    found.put_decimal(removed.len() as u64);
    for value in removed {
        found.put_text(" ");
        found.put_quoted(value.as_bytes());
    }
}

// The map, and that its copy is another where it is one.
fn put_map_twice(alloc: Global, map: &HeaderMap, found: &mut Report) {
    let mut first = Report::new(alloc);
    put_map(map, &mut first);
    let mut second = Report::new(alloc);
    put_copy(map, &mut second);
    first.compare_copy(&second);
    found.put_report(&first);
}

fn put_copy(map: &HeaderMap, found: &mut Report) {
    match map.copy() {
        Ok(copy) => put_map(&copy, found),
        Err(_) => found.lose(),
    }
}

// How many values the map has, and each with its name.
fn put_map(map: &HeaderMap, found: &mut Report) {
    found.put_decimal(map.len() as u64);
    for (name, value) in map.iter() {
        put_line(name.as_str(), value.as_bytes(), found);
    }
}

fn put_line(name: &str, value: &[u8], found: &mut Report) {
    found.put_text(" ");
    found.put_text(name);
    found.put_text(" ");
    found.put_quoted(value);
}

/// `find NAME LINE ..`: whether the map of these lines has the name, its first value, and all of them.
pub fn find(alloc: Global, case: &Case<'_>, found: &mut Report) -> Result<bool, NoMemory> {
    let Some(name) = case.text(0) else {
        return Ok(false);
    };
    let Some(map) = map_of(alloc, case, 1)? else {
        return Ok(false);
    };
    put_found(&map, name, found);
    Ok(true)
}

fn put_found(map: &HeaderMap, name: &str, found: &mut Report) {
    found.put_text(if map.contains_key(name) {
        "there "
    } else {
        "absent "
    });
    match map.get(name) {
        Some(value) => found.put_quoted(value.as_bytes()),
        None => found.put_text("none"),
    }
    found.put_text(" all");
    for value in map.get_all(name) {
        found.put_text(" ");
        found.put_quoted(value.as_bytes());
    }
}

/// `drain LINE ..`: what the map of these lines gives when it is emptied: how many values, each with its name where it is
/// the name's first, else with `-`; and how many values are left.
pub fn drain(alloc: Global, case: &Case<'_>, found: &mut Report) -> Result<bool, NoMemory> {
    let Some(mut map) = map_of(alloc, case, 0)? else {
        return Ok(false);
    };
    put_drained(map.drain(), found);
    found.put_text(" left ");
    found.put_decimal(map.len() as u64);
    Ok(true)
}

fn put_drained(drained: Drain, found: &mut Report) {
    found.put_decimal(drained.len() as u64);
    for (name, value) in drained {
        match name {
            Some(name) => put_line(name.as_str(), value.as_bytes(), found),
            None => put_line("-", value.as_bytes(), found),
        }
    }
}

/// `pairs LINE ..`: the map that is made of these lines at once: how many names it has, by both counts, and the lines that
/// it gives itself up as.
pub fn pairs(alloc: Global, case: &Case<'_>, found: &mut Report) -> Result<bool, NoMemory> {
    let mut lines = Vec::new(alloc);
    for line in case.arguments.chunks_exact(2) {
        let Some(pair) = pair_of(alloc, line[0].as_slice(), line[1].as_slice()) else {
            return Ok(false);
        };
        lines.push(pair)?;
    }
    let Ok(map) = HeaderMap::try_from_pairs(alloc, lines.into_iter()) else {
        return Ok(false);
    };
    put_names(&map, found);
    put_owned(map, found);
    Ok(true)
}

fn put_names(map: &HeaderMap, found: &mut Report) {
    found.put_decimal(map.len_keys() as u64);
    found.put_text(" ");
    found.put_decimal(map.keys().len() as u64);
}

fn put_owned(map: HeaderMap, found: &mut Report) {
    for line in map.into_iter() {
        match line {
            Ok((name, value)) => put_line(name.as_str(), value.as_bytes(), found),
            Err(_) => found.lose(),
        }
    }
}
