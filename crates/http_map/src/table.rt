//! The names of a map with their values: few in one list, more in an `IndexMap`.
ghost use Rattle.std.specs.Prelude.{◌≡◌, ◌<◌, [], length, true, bytes_eq, slice_get, option_copied, Some, IsOk, IfOk, OnOk, OnErr, IfSome, IfNone};
ghost use Rattle.std.specs.Borrow.{sem};
ghost use Rattle.std.specs.List.{IsDistinct};
ghost use Rattle.std.specs.Map.{values_of, lookup};
ghost use Rattle.http_header.specs.Token.{lowercase};
ghost use Rattle.http_map.specs.HeaderMap.{keys, contains_key, get_all, insert, append, remove};
ghost use Rattle.http_map.specs.Lines.{StandsFirstAt, Lacks};
ghost use Rattle.http_map.specs.Retain.{MayAnswer, Retains};

mod few;
mod iter;
mod line;
mod many;
mod seen;

use crate::NoMemory;
use crate::any_case::AnyCase;
use crate::removed::Removed;
use crate::values::Values;
use http_header::{HeaderName, HeaderValue};
pub(crate) use iter::{NamesIntoIter, NamesIter};
use line::{Line, mark_of_name};
use many::Hashed;
use seen::Seen;
use std::alloc::{AllocError, Global};
use std::fmt;
use std::marker::Model;

// As many names as are looked up one after another.
const MOST_FEW: usize = 32;

/// Names, each with its values, in the order of their first insertion. Few stand in one list, each with
/// a mark by which it is found; from the 33rd on they are hashed.
///
/// A contract sees them as the list of names with their values.
#[derive(Drop)]
pub(crate) struct Names {
    table: Table,
    // The marks of the names in the list, and perhaps of names that were there.
    seen: Seen,
}

#[derive(Drop)]
enum Table {
    Few(Vec<Line>),
    // In a block of its own, so that a map of few names is small.
    Many(Box<Hashed>),
}

impl Model for Names {
    ghost use Rattle.http_map.specs.HeaderMap.{Entries};

    ghost Value = { Entries };

    ghost use Rattle.http_map.specs.Names.{listed, IsTable};

    ghost view = { λ names. listed names.table };

    ghost invariant = { λ names. IsTable names.seen.bits names.table };
}

impl Table {
    ghost use Rattle.http_map.specs.Names.{listed};
    ghost use Rattle.http_map.specs.NamesLends.{table_lends_values};

    fn values_mut(&mut self, index: usize) -> &mut Values
        requires { index < length (listed self.old) }
        ensures* writes_back { sem 𝓛 (table_lends_values self.entry index result) }
        ensures value { slice_get (values_of (listed self.old)) index ≡ Some result.now }
    {
        match self {
            Table::Few(lines) => lines[index].values_mut(),
            Table::Many(names) => &mut names.as_mut()[index],
        }
    }
}

impl Names {
    ghost use Rattle.http_map.specs.NamesLends.{names_lend_values};

    /// No names, which take no memory.
    pub(crate) fn new(alloc: Global) -> Names
        ensures { result ≡ [] }
    {
        Names {
            table: Table::Few(Vec::new(alloc)),
            seen: Seen::none(),
        }
    }

    /// No names, with room for `capacity` of them.
    pub(crate) fn with_capacity(alloc: Global, capacity: usize) -> Result<Names, NoMemory>
        ensures empty { IfOk result (λ names. names ≡ []) }
        ensures no_memory_needed { capacity ≡ 0 → IsOk result }
    {
        let table = if capacity <= MOST_FEW {
            Table::Few(Vec::with_capacity(alloc, capacity)?)
        } else {
            Table::Many(many::with_capacity(alloc, capacity)?)
        };
        Ok(Names {
            table,
            seen: Seen::none(),
        })
    }

    pub(crate) fn allocator(&self) -> Global {
        match &self.table {
            Table::Few(lines) => *lines.allocator(),
            Table::Many(names) => *names.as_ref().allocator(),
        }
    }

    /// The number of names, none of which is there twice.
    pub(crate) fn len(&self) -> usize
        ensures value { result ≡ length self.now }
        ensures distinct { IsDistinct bytes_eq (keys self.now) }
    {
        match &self.table {
            Table::Few(lines) => lines.len(),
            Table::Many(names) => names.as_ref().len(),
        }
    }

    /// Where the name stands that has these bytes in lower case.
    pub(crate) fn index_of(&self, bytes: &[u8]) -> Option<usize>
        ensures found { IfSome result (StandsFirstAt self.now (lowercase bytes.now)) }
        ensures within { IfSome result (λ i. i < length self.now) }
        ensures lacks { IfNone result (Lacks self.now (lowercase bytes.now)) }
    {
        match &self.table {
            Table::Few(lines) => few::find(lines.as_slice(), self.seen, bytes),
            Table::Many(names) => many::find(names.as_ref(), bytes),
        }
    }

    /// The values of the name that has these bytes in lower case.
    pub(crate) fn get(&self, bytes: &[u8]) -> Option<&Values>
        ensures value { option_copied result ≡ lookup (bytes_eq (lowercase bytes.now)) self.now }
    {
        match &self.table {
            Table::Few(lines) => {
                let index = few::find(lines.as_slice(), self.seen, bytes)?;
                Some(lines[index].values())
            }
            Table::Many(names) => names.as_ref().get(AnyCase { bytes }),
        }
    }

    /// Whether the name is there that has these bytes in lower case.
    pub(crate) fn contains(&self, bytes: &[u8]) -> bool
        ensures { result ≡ contains_key self.now (lowercase bytes.now) }
    {
        self.get(bytes).is_some()
    }

    /// The values of the name at the index, for writing.
    pub(crate) fn values_mut(&mut self, index: usize) -> &mut Values
        requires { index < length self.old }
        ensures* writes_back { sem 𝓛 (names_lend_values self.entry index result) }
        ensures value { slice_get (values_of self.old) index ≡ Some result.now }
    {
        self.table.values_mut(index)
    }

    /// Every name with its values.
    pub(crate) fn iter(&self) -> NamesIter<'_>
        ensures { result ≡ self.now }
    {
        match &self.table {
            Table::Few(lines) => NamesIter::few(lines.iter()),
            Table::Many(names) => NamesIter::many(names.as_ref().iter()),
        }
    }

    /// Takes every name out with its values.
    pub(crate) fn into_iter(self) -> NamesIntoIter
        ensures { result ≡ self }
    {
        match self.table {
            Table::Few(lines) => NamesIntoIter::few(lines.into_iter()),
            Table::Many(names) => NamesIntoIter::many(Box::into_inner(names).into_iter()),
        }
    }

    /// Removes every name. A list keeps its room. Hashed names leave none, so that few that come next stand in a
    /// list again.
    pub(crate) fn clear(&mut self)
        ensures { self.new ≡ [] }
    {
        self.seen = Seen::none();
        match &mut self.table {
            Table::Few(lines) => lines.clear(),
            Table::Many(names) => {
                let alloc = *names.as_ref().allocator();
                self.table = Table::Few(Vec::new(alloc));
            }
        }
    }

    /// Asks for room for `additional` more names. Where there is none yet and they would be too many for a list, they
    /// are hashed from the first on. None more take no memory.
    pub(crate) fn reserve(&mut self, additional: usize) -> Result<(), NoMemory>
        ensures same { self.new ≡ self.old }
        ensures no_memory_needed { additional ≡ 0 → IsOk result }
    {
        if additional == 0 {
            return Ok(());
        }
        match &mut self.table {
            Table::Few(lines) => {
                if MOST_FEW < additional && lines.is_empty() {
                    let names = many::with_capacity(*lines.allocator(), additional)?;
                    self.table = Table::Many(names);
                    return Ok(());
                }
                lines.reserve(additional)
            }
            Table::Many(names) => names.as_mut().reserve(additional),
        }
    }

    // Names are hashed before one comes that would be one too many in a list.
    fn make_way_for(&mut self, name: &HeaderName) -> Result<(), NoMemory>
        ensures same { self.new ≡ self.old }
        ensures no_memory_needed { contains_key self.old name.now ≡ true → IsOk result }
    {
        let Table::Few(lines) = &self.table else {
            return Ok(());
        };
        if lines.len() < MOST_FEW
            || few::find(lines.as_slice(), self.seen, name.as_bytes()).is_some()
        {
            return Ok(());
        }
        let names = few::hashed(*lines.allocator(), lines.as_slice())?;
        self.table = Table::Many(names);
        Ok(())
    }

    /// Adds the value after those of the name.
    #[inline(always)]
    pub(crate) fn append(&mut self, key: HeaderName, value: HeaderValue) -> Result<(), NoMemory>
        ensures ok { OnOk result (self.new ≡ append self.old key value) }
        ensures err { OnErr result (self.new ≡ self.old) }
    {
        if let Table::Few(lines) = &mut self.table {
            if let Some(mark) = few::mark_of_new(lines, self.seen, &key) {
                self.seen = self.seen.with(mark);
                lines.push_reserved(Line::marked(mark, key, Values::one(value)));
                return Ok(());
            }
        }
        self.append_rest(key, value)
    }

    // The same for any name: a function of its own, so that both are moved to the call only here.
    #[inline(always)]
    fn append_rest(&mut self, key: HeaderName, value: HeaderValue) -> Result<(), NoMemory>
        ensures ok { OnOk result (self.new ≡ append self.old key value) }
        ensures err { OnErr result (self.new ≡ self.old) }
    {
        self.append_apart(key, value)
    }

    // The same, out of the way of the names that come last among few, where there is room.
    #[inline(never)]
    fn append_apart(&mut self, key: HeaderName, value: HeaderValue) -> Result<(), NoMemory>
        ensures ok { OnOk result (self.new ≡ append self.old key value) }
        ensures err { OnErr result (self.new ≡ self.old) }
    {
        self.make_way_for(&key)?;
        match &mut self.table {
            Table::Few(lines) => {
                let mark = mark_of_name(key.as_bytes());
                self.seen = self.seen.with(mark);
                few::append_value(lines, mark, key, value)
            }
            Table::Many(names) => many::append_value(names.as_mut(), key, value),
        }
    }

    /// Puts the value in place of those of the name, and gives them.
    pub(crate) fn insert(
        &mut self,
        name: HeaderName,
        value: HeaderValue,
    ) -> Result<Removed, NoMemory>
        ensures ok { OnOk result (self.new ≡ insert self.old name value) }
        ensures removed { IfOk result (λ values. values ≡ get_all self.old name) }
        ensures err { OnErr result (self.new ≡ self.old) }
        ensures no_memory_needed { contains_key self.old name ≡ true → IsOk result }
    {
        self.make_way_for(&name)?;
        match &mut self.table {
            Table::Few(lines) => {
                let mark = mark_of_name(name.as_bytes());
                self.seen = self.seen.with(mark);
                few::insert_value(lines, mark, name, value)
            }
            Table::Many(names) => many::insert_value(names.as_mut(), name, value),
        }
    }

    /// Takes the name out, and gives the values that it had.
    pub(crate) fn remove(&mut self, bytes: &[u8]) -> Removed
        ensures removed { result ≡ get_all self.old (lowercase bytes.now) }
        ensures after { self.new ≡ remove self.old (lowercase bytes.now) }
        ensures gone { get_all self.new (lowercase bytes.now) ≡ [] }
    {
        match &mut self.table {
            Table::Few(lines) => few::remove_values(lines, self.seen, bytes),
            Table::Many(names) => many::remove_values(names.as_mut(), bytes),
        }
    }

    /// Keeps the values for which `keep` answers true, and the names that have such a value.
    pub(crate) fn retain<F: Fn(&HeaderName, &HeaderValue) -> bool>(&mut self, keep: &F)
        requires { F.IsAlwaysCallable keep.now }
        ensures { Retains (MayAnswer (F.post keep.now)) self.old self.new }
    {
        match &mut self.table {
            Table::Few(lines) => few::retain_names(lines, keep),
            Table::Many(names) => many::retain_names(names.as_mut(), keep),
        }
    }
}

impl Clone for Names {
    ghost is_clone = { λ names copy. copy ≡ names };

    fn clone(&self) -> Result<Names, AllocError> {
        let table = match &self.table {
            Table::Few(lines) => Table::Few(lines.clone()?),
            Table::Many(names) => Table::Many(names.clone()?),
        };
        Ok(Names {
            table,
            seen: self.seen,
        })
    }
}

impl fmt::Debug for Names {
    fn fmt<W: fmt::Write>(&self, f: &mut fmt::Formatter<W>) -> fmt::Result {
        f.debug_map().entries(self.iter()).finish()
    }
}
