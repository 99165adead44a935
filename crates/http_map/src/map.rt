//! The map from header names to their values.
ghost use Rattle.std.specs.Prelude.{◌≡◌, ◌<◌, ◌^◌, ◌==◌, [], false, length, is_some, option_copied, IsNone, IfOk, IsOk};
ghost use Rattle.std.specs.Slice.Iter.{iter_rest};
ghost use Rattle.std.specs.Iterator.Adapters.{IterYieldsInOrder};
ghost use Rattle.http_header.specs.FieldName.{IsFieldName};
ghost use Rattle.http_header.specs.FieldValue.{FieldValue};
ghost use Rattle.http_map.specs.HeaderMap.{keys, value_count, contains_key, get, get_all, pairs, GivesPairs, IsHeaderMap};

mod edits;

use crate::NoMemory;
use crate::as_name::AsHeaderName;
use crate::iter::{Iter, Keys};
use crate::table::Names;
use http_header::{HeaderName, HeaderValue};
use std::alloc::{AllocError, Global};
use std::marker::Model;
use std::{fmt, slice};

/// A map from header names to one or more values each. The names stand in the order of their
/// first insertion, and each name's values in the order in which they were added.
///
/// A contract sees it as that list of names, each with the list of its values.
#[derive(Drop)]
pub struct HeaderMap {
    names: Names,
    // The number of values, under all names.
    len: usize,
}

impl Model for HeaderMap {
    ghost use Rattle.http_map.specs.HeaderMap.{Entries};

    ghost Value = { Entries };

    ghost use Rattle.http_map.specs.Counted.{IsCounted};

    ghost view = { λ m. m.names };

    ghost invariant = { λ m. IsCounted m.names m.len };
}

impl HeaderMap {
    /// An empty map, which takes no memory.
    pub fn new(alloc: Global) -> HeaderMap
        ensures { result ≡ [] }
    {
        HeaderMap {
            names: Names::new(alloc),
            len: 0,
        }
    }

    /// An empty map that asked for room for `capacity` names.
    pub fn with_capacity(alloc: Global, capacity: usize) -> Result<HeaderMap, NoMemory>
        ensures empty { IfOk result (λ map. map ≡ []) }
        ensures no_memory_needed { capacity ≡ 0 → IsOk result }
    {
        Ok(HeaderMap {
            names: Names::with_capacity(alloc, capacity)?,
            len: 0,
        })
    }

    /// How many values it holds, those of all names together.
    pub fn len(&self) -> usize
        ensures value { result ≡ value_count self.now }
        ensures valid { IsHeaderMap self.now }
    {
        let _names = self.names.len();
        self.len
    }

    /// How many names it holds, each counted once.
    pub fn len_keys(&self) -> usize
        ensures value { result ≡ length self.now }
        ensures valid { IsHeaderMap self.now }
    {
        let _values = self.len;
        self.names.len()
    }

    /// Whether the map has no name, and so no value.
    pub fn is_empty(&self) -> bool
        ensures { result ≡ (length self.now == 0) }
    {
        self.names.len() == 0
    }

    /// Whether there is a value for this name.
    pub fn contains_key<K: AsHeaderName>(&self, key: K) -> bool
        ensures value { result ≡ contains_key self.now (K.name key) }
        ensures found { result ≡ is_some (get self.now (K.name key)) }
        ensures no_name { ¬ (IsFieldName (K.text key)) → result ≡ false }
    {
        self.names.contains(key.as_name_bytes())
    }

    /// The value that was added first for this name.
    pub fn get<K: AsHeaderName>(&self, key: K) -> Option<&HeaderValue>
        ensures value { option_copied result ≡ get self.now (K.name key) }
        ensures no_name { ¬ (IsFieldName (K.text key)) → IsNone result }
    {
        let values = self.names.get(key.as_name_bytes())?;
        values.as_slice().first()
    }

    /// All values of this name, the one added first before the others.
    pub fn get_all<K: AsHeaderName>(&self, key: K) -> slice::Iter<'_, HeaderValue>
        ensures values { iter_rest result ≡ get_all self.now (K.name key) }
        ensures no_name { ¬ (IsFieldName (K.text key)) → iter_rest result ≡ [] }
        ensures fits { length (iter_rest result) < 2 ^ 64 }
        ensures runs { IterYieldsInOrder FieldValue }
    {
        let found = self.names.get(key.as_name_bytes());
        let values: &[HeaderValue] = match found {
            Some(values) => values.as_slice(),
            None => &[],
        };
        values.iter()
    }

    /// Every value beside its name, name by name.
    pub fn iter(&self) -> Iter<'_>
        ensures pairs { result ≡ pairs self.now }
        ensures count { length result ≡ value_count self.now }
        ensures fits { length result < 2 ^ 64 }
    {
        Iter::new(self.names.iter(), self.len)
    }

    /// Every name once.
    pub fn keys(&self) -> Keys<'_>
        ensures names { result ≡ keys self.now }
        ensures count { length result ≡ length self.now }
        ensures fits { length result < 2 ^ 64 }
    {
        Keys::new(self.names.iter())
    }

    /// An equal map, as `clone` gives it too.
    pub fn copy(&self) -> Result<HeaderMap, NoMemory>
        ensures { IfOk result (λ copy. copy ≡ self.now) }
    {
        Ok(HeaderMap {
            names: self.names.clone()?,
            len: self.len,
        })
    }
}

impl Clone for HeaderMap {
    ghost is_clone = { λ map copy. copy ≡ map };

    fn clone(&self) -> Result<HeaderMap, AllocError> {
        self.copy()
    }
}

// The text is that of actix-http, but for the order of the names.
impl fmt::Debug for HeaderMap {
    fn fmt<W: fmt::Write>(&self, f: &mut fmt::Formatter<W>) -> fmt::Result {
        f.debug_struct("HeaderMap")
            .field("inner", &self.names)
            .finish()
    }
}

impl<'a> IntoIterator for &'a HeaderMap {
    type Item = (&'a HeaderName, &'a HeaderValue);

    type IntoIter = Iter<'a>;

    ghost into_iter_gives = { λ map it. GivesPairs map.now it };

    fn into_iter(self) -> Iter<'a> {
        self.iter()
    }
}
