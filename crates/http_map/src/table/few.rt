//! Few names, in a list.
ghost use Rattle.std.specs.Prelude.{◌≡◌, ◌<◌, ℕ, List, [], ◌∷◌, length, vec_len, vec_capacity, true, false, bytes_eq, IsOk, IfOk, OnOk, OnErr, OnSome, IfSome, IfNone, IsTrue, if◌then◌else◌};
ghost use Rattle.std.specs.List.{IsDistinct};
ghost use Rattle.http_header.specs.Token.{lowercase};
ghost use Rattle.http_map.specs.HeaderMap.{keys, contains_key, get_all, insert, append, remove};
ghost use Rattle.http_map.specs.Lines.{StandsFirstAt, Lacks, IsSeen, name_mark};
ghost use Rattle.http_map.specs.Retain.{MayAnswer, KeepsValues, Retains};

use super::MOST_FEW;
use super::line::{Line, mark_of, mark_of_name};
use super::many::Hashed;
use super::seen::Seen;
use crate::NoMemory;
use crate::removed::Removed;
use crate::values::Values;
use http_header::{HeaderName, HeaderValue};
use indexmap::IndexMap;
use std::alloc::Global;
use std::mem;

// Where the name stands that has these bytes in lower case.
pub(super) fn find(lines: &[Line], seen: Seen, bytes: &[u8]) -> Option<usize>
    requires { IsSeen seen.bits (keys lines.now) }
    ensures found { IfSome result (StandsFirstAt lines.now (lowercase bytes.now)) }
    ensures within { IfSome result (λ i. i < length lines.now) }
    ensures lacks { IfNone result (Lacks lines.now (lowercase bytes.now)) }
{
    let mark = mark_of(bytes);
    if !seen.may_have(mark) {
        return None;
    }
    find_marked(lines, mark, bytes)
}

// The same, where the mark is made already.
#[inline(always)]
fn find_marked(lines: &[Line], mark: u64, bytes: &[u8]) -> Option<usize>
    requires { mark ≡ name_mark (lowercase bytes.now) }
    ensures found { IfSome result (StandsFirstAt lines.now (lowercase bytes.now)) }
    ensures within { IfSome result (λ i. i < length lines.now) }
    ensures lacks { IfNone result (Lacks lines.now (lowercase bytes.now)) }
{
    let mut i = 0;
    for line in lines {
        if line.is(mark, bytes) {
            return Some(i);
        }
        i += 1;
    }
    None
}

// The mark of a name that comes last in the room that there is, where that is known without a look at a line: its
// mark was never seen, nor was that of another name that is the same by 64, and so no line has the name.
#[inline(always)]
pub(super) fn mark_of_new(lines: &Vec<Line>, seen: Seen, name: &HeaderName) -> Option<u64>
    requires { IsSeen seen.bits (keys lines.now.items) }
    ensures mark { IfSome result (λ mark. mark ≡ name_mark name.now) }
    ensures room { OnSome result (vec_len lines.now < vec_capacity lines.now) }
    ensures lacks { OnSome result (Lacks lines.now.items name.now) }
{
    let len = lines.len();
    if MOST_FEW <= len || lines.capacity() <= len {
        return None;
    }
    let mark = mark_of_name(name.as_bytes());
    if seen.may_have(mark) {
        return None;
    }
    Some(mark)
}

// Adds the value after those of the name.
pub(super) fn append_value(
    lines: &mut Vec<Line>,
    mark: u64,
    key: HeaderName,
    value: HeaderValue,
) -> Result<(), NoMemory>
    requires { mark ≡ name_mark key }
    ensures ok { OnOk result (lines.new.items ≡ append lines.old.items key value) }
    ensures err { OnErr result (lines.new.items ≡ lines.old.items) }
{
    match find_marked(lines.as_slice(), mark, key.as_bytes()) {
        Some(i) => add_value(lines, i, value),
        None => {
            lines.push(Line::marked(mark, key, Values::one(value)))?;
            Ok(())
        }
    }
}

// Adds a last value to those of the name at the index.
fn add_value(lines: &mut Vec<Line>, index: usize, value: HeaderValue) -> Result<(), NoMemory>
    requires { index < length lines.old.items }
    ensures ok { OnOk result ((name : List ℕ) → StandsFirstAt lines.old.items name index
        → lines.new.items ≡ append lines.old.items name value) }
    ensures err { OnErr result (lines.new.items ≡ lines.old.items) }
{
    let alloc = *lines.allocator();
    lines[index].push(alloc, value)
}

// Puts the value in place of those of the name, and gives them.
pub(super) fn insert_value(
    lines: &mut Vec<Line>,
    mark: u64,
    name: HeaderName,
    value: HeaderValue,
) -> Result<Removed, NoMemory>
    requires { mark ≡ name_mark name }
    ensures ok { OnOk result (lines.new.items ≡ insert lines.old.items name value) }
    ensures removed { IfOk result (λ values. values ≡ get_all lines.old.items name) }
    ensures err { OnErr result (lines.new.items ≡ lines.old.items) }
    ensures no_memory_needed { contains_key lines.old.items name ≡ true → IsOk result }
{
    match find_marked(lines.as_slice(), mark, name.as_bytes()) {
        Some(i) => {
            let old = mem::replace(&mut lines[i], Line::marked(mark, name, Values::one(value)));
            Ok(old.into_pair().1.into_iter())
        }
        None => {
            lines.push(Line::marked(mark, name, Values::one(value)))?;
            Ok(Removed::none())
        }
    }
}

// Takes the name out, and gives the values that it had.
pub(super) fn remove_values(lines: &mut Vec<Line>, seen: Seen, bytes: &[u8]) -> Removed
    requires { IsSeen seen.bits (keys lines.old.items) }
    ensures removed { result ≡ get_all lines.old.items (lowercase bytes.now) }
    ensures after { lines.new.items ≡ remove lines.old.items (lowercase bytes.now) }
{
    match find(lines.as_slice(), seen, bytes) {
        Some(i) => lines.remove(i).into_pair().1.into_iter(),
        None => Removed::none(),
    }
}

// Keeps the values for which `keep` answers true, and the names that have such a value.
pub(super) fn retain_names<F: Fn(&HeaderName, &HeaderValue) -> bool>(
    lines: &mut Vec<Line>,
    keep: &F,
)
    requires { F.IsAlwaysCallable keep.now }
    ensures { Retains (MayAnswer (F.post keep.now)) lines.old.items lines.new.items }
{
    lines.retain_mut(
        |line: &mut Line| -> bool
            requires { F.IsAlwaysCallable keep.now }
            ensures name { line.new.0 ≡ line.old.0 }
            ensures filled { IsTrue result → 0 < length line.new.1 }
            ensures kept { KeepsValues (MayAnswer (F.post keep.entry.now) line.old.0) line.old.1
                (if result then line.new.1 else []) }
        { line.retain(keep) },
    );
}

// The same names in an `IndexMap`, with room for as many again, in a block of its own. It is out of the way of
// the maps that never come to it.
#[inline(never)]
pub(super) fn hashed(alloc: Global, lines: &[Line]) -> Result<Box<Hashed>, NoMemory>
    requires { IsDistinct bytes_eq (keys lines.now) }
    ensures { IfOk result (λ names. names.value.entries ≡ lines.now) }
{
    let mut names = IndexMap::with_capacity(alloc, 2 * MOST_FEW)?;
    for line in lines {
        names.insert(line.name().clone()?, line.values().clone()?)?;
    }
    Ok(Box::new(alloc, names)?)
}
