//! The calls that change a map.
ghost use Rattle.std.specs.Prelude.{◌≡◌, ◌≢◌, ◌+◌, ◌<◌, ◌^◌, ℕ, List, Bool, [], ◌∷◌, ◌++◌, length, slice_get, Some, IsNone, IsTrue, true, IfOk, IsOk, OnOk, OnErr};
ghost use Rattle.std.specs.Borrow.{sem};
ghost use Rattle.std.specs.Iterator.{IsFinite, Drains};
ghost use Rattle.std.specs.Option.{option_copied_mut};
ghost use Rattle.http_header.specs.FieldName.{IsFieldName};
ghost use Rattle.http_header.specs.FieldValue.{FieldValue};
ghost use Rattle.http_map.specs.HeaderMap.{Pair, contains_key, get, get_all, insert, append, append_all, remove, retain, GivesPairs, value_count};
ghost use Rattle.http_map.specs.Lends.{lends_first, lends_first_at, values_at};
ghost use Rattle.http_map.specs.Owned.{drained};
ghost use Rattle.http_map.specs.Retain.{MayAnswer, Retains, Computes};

use super::HeaderMap;
use crate::NoMemory;
use crate::as_name::AsHeaderName;
use crate::owned::{Drain, IntoIter};
use crate::removed::Removed;
use crate::table::Names;
use http_header::{HeaderName, HeaderValue};
use std::alloc::{AllocError, Global};
use std::mem;

impl HeaderMap {
    /// Removes every name, and takes no memory. Room for up to 32 names is kept for those that come next; that for
    /// more is given back.
    pub fn clear(&mut self)
        ensures { self.new ≡ [] }
    {
        self.names.clear();
        self.len = 0;
    }

    /// Puts the value in place of all those under the name, whose place among the names stays, and
    /// gives the old ones. A name that was not there comes last. Only such a name may need memory,
    /// and where there is none the map is left as it was.
    pub fn insert(&mut self, name: HeaderName, val: HeaderValue) -> Result<Removed, NoMemory>
        ensures ok { OnOk result (self.new ≡ insert self.old name val) }
        ensures values { OnOk result (get_all self.new name ≡ val ∷ []) }
        ensures others { OnOk result ((other : List ℕ) → other ≢ name
            → get_all self.new other ≡ get_all self.old other) }
        ensures removed { IfOk result (λ removed. removed ≡ get_all self.old name) }
        ensures err { OnErr result (self.new ≡ self.old) }
        ensures no_memory_needed { contains_key self.old name ≡ true → IsOk result }
    {
        let _valid = name.as_bytes();
        if !self.can_count_one_in(&name) {
            return Err(AllocError);
        }
        let removed = self.names.insert(name, val)?;
        self.len = self.len - removed.len() + 1;
        Ok(removed)
    }

    // Whether the number of values fits, with one in place of those under the name.
    fn can_count_one_in(&self, name: &HeaderName) -> bool
        ensures fits { IsTrue result
            → value_count self.now + 1 < 2 ^ 64 + length (get_all self.now name.now) }
        ensures replaced { contains_key self.now name.now ≡ true → result ≡ true }
    {
        self.len < usize::MAX || self.names.contains(name.as_bytes())
    }

    /// Adds a last value to those of the name, or the name at the end. It grows first, so that
    /// the map stays as it was where memory ran out.
    #[inline(always)]
    pub fn append(&mut self, key: HeaderName, value: HeaderValue) -> Result<(), NoMemory>
        ensures ok { OnOk result (self.new ≡ append self.old key value) }
        ensures values { OnOk result (get_all self.new key ≡ get_all self.old key ++ value ∷ []) }
        ensures others { OnOk result ((other : List ℕ) → other ≢ key
            → get_all self.new other ≡ get_all self.old other) }
        ensures err { OnErr result (self.new ≡ self.old) }
    {
        let _valid = key.as_bytes();
        let len = self.len.checked_add(1).ok_or(AllocError)?;
        self.names.append(key, value)?;
        self.len = len;
        Ok(())
    }

    /// Removes the name, and gives its values. Later names close up. It takes no memory.
    pub fn remove<K: AsHeaderName>(&mut self, key: K) -> Removed
        ensures values { result ≡ get_all self.old (K.name key) }
        ensures after { self.new ≡ remove self.old (K.name key) }
        ensures gone { get_all self.new (K.name key) ≡ [] }
        ensures others { (other : List ℕ) → other ≢ K.name key
            → get_all self.new other ≡ get_all self.old other }
        ensures no_name { ¬ (IsFieldName (K.text key)) → (result ≡ []) × (self.new ≡ self.old) }
    {
        let removed = self.names.remove(key.as_name_bytes());
        self.len -= removed.len();
        removed
    }

    /// Asks for room for `additional` more names. For more than 32 in an empty map it is a table at once, to which no
    /// name is copied later. Room for none more takes no memory.
    pub fn reserve(&mut self, additional: usize) -> Result<(), NoMemory>
        ensures same { self.new ≡ self.old }
        ensures no_memory_needed { additional ≡ 0 → IsOk result }
    {
        self.names.reserve(additional)
    }

    /// Keeps the values for which `keep` answers true, in their order. A name whose values all went
    /// goes too.
    pub fn retain<F: Fn(&HeaderName, &HeaderValue) -> bool + Drop>(&mut self, keep: F)
        requires { F.IsAlwaysCallable keep }
        ensures kept { Retains (MayAnswer (F.post keep)) self.old self.new }
        ensures computed { (test : List ℕ → FieldValue → Bool) → Computes (F.post keep) test
            → self.new ≡ retain test self.old }
    {
        self.names.retain(&keep);
        self.len = count_values(&self.names);
    }

    /// Takes everything out. The map is empty at once.
    pub fn drain(&mut self) -> Drain
        ensures values { result ≡ drained self.old }
        ensures count { length result ≡ value_count self.old }
        ensures fits { length result < 2 ^ 64 }
        ensures emptied { self.new ≡ [] }
    {
        let alloc = self.names.allocator();
        let names = mem::replace(&mut self.names, Names::new(alloc));
        let left = self.len;
        self.len = 0;
        Drain::new(names.into_iter(), left)
    }

    /// A map of these pairs, each appended in turn.
    pub fn try_from_pairs<I: Iterator<Item = (HeaderName, HeaderValue)>>(
        alloc: Global,
        pairs: I,
    ) -> Result<HeaderMap, NoMemory>
        requires can { I.can_next pairs }
        requires ends { IsFinite (I.remaining pairs) }
        ensures { IfOk result (λ map. (items : List Pair) × Drains I.next_gives pairs items
            × (map ≡ append_all [] items)) }
    {
        let mut map = HeaderMap::new(alloc);
        for (name, value) in pairs {
            map.append(name, value)?;
        }
        Ok(map)
    }

    /// The value that was added first for this name, for writing.
    pub fn get_mut<K: AsHeaderName>(&mut self, key: K) -> Option<&mut HeaderValue>
        ensures* writes_back { sem 𝓛 (lends_first self.entry (K.name key) result) }
        ensures value { option_copied_mut result ≡ get self.old (K.name key) }
        ensures no_name { ¬ (IsFieldName (K.text key)) → IsNone result }
    {
        let found = self.names.index_of(key.as_name_bytes());
        match found {
            Some(index) => Some(self.first_mut_at(index)),
            None => None,
        }
    }

    fn first_mut_at(&mut self, index: usize) -> &mut HeaderValue
        requires { index < length self.old }
        ensures* writes_back { sem 𝓛 (lends_first_at self.entry index result) }
        ensures value { Some result.now ≡ slice_get (values_at self.old index) 0 }
    {
        self.names.values_mut(index).first_mut()
    }
}

impl IntoIterator for HeaderMap {
    type Item = Result<(HeaderName, HeaderValue), NoMemory>;

    type IntoIter = IntoIter;

    ghost into_iter_gives = { λ map it. GivesPairs map it };

    fn into_iter(self) -> IntoIter {
        let HeaderMap { names, len } = self;
        let alloc = names.allocator();
        IntoIter::new(alloc, names.into_iter(), len)
    }
}

// The number of values, under all names.
fn count_values(names: &Names) -> usize
    requires { value_count names.now < 2 ^ 64 }
    ensures { result ≡ value_count names.now }
{
    let mut count = 0;
    for (_, values) in names.iter() {
        count += values.as_slice().len();
    }
    count
}
