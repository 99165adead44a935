//! Many names, in an `IndexMap`.
ghost use Rattle.std.specs.Prelude.{◌≡◌, ◌<◌, ◌^◌, [], length, unwrap_or, true, IsTrue, IsOk, IfOk, OnOk, OnErr, IfSome, IfNone, if◌then◌else◌};
ghost use Rattle.http_header.specs.Token.{lowercase};
ghost use Rattle.http_map.specs.HeaderMap.{contains_key, get_all, insert, append, remove};
ghost use Rattle.http_map.specs.Lines.{StandsFirstAt, Lacks};
ghost use Rattle.http_map.specs.Retain.{MayAnswer, KeepsValues, Retains};

use crate::NoMemory;
use crate::any_case::AnyCase;
use crate::removed::Removed;
use crate::values::Values;
use http_header::{HeaderName, HeaderValue};
use indexmap::IndexMap;
use indexmap::map::Entry;
use std::alloc::Global;

pub(super) type Hashed = IndexMap<HeaderName, Values>;

// No names, with room for `capacity` of them. It is out of the way of few.
#[inline(never)]
pub(super) fn with_capacity(alloc: Global, capacity: usize) -> Result<Box<Hashed>, NoMemory>
    ensures { IfOk result (λ names. names.value.entries ≡ []) }
{
    Ok(Box::new(alloc, IndexMap::with_capacity(alloc, capacity)?)?)
}

// Where the name stands that has these bytes in lower case.
pub(super) fn find(names: &Hashed, bytes: &[u8]) -> Option<usize>
    ensures found { IfSome result (StandsFirstAt names.now.entries (lowercase bytes.now)) }
    ensures within { IfSome result (λ i. i < length names.now.entries) }
    ensures lacks { IfNone result (Lacks names.now.entries (lowercase bytes.now)) }
{
    names.get_index_of(AnyCase { bytes })
}

// Adds the value after those of the name, which is looked up once.
pub(super) fn append_value(
    names: &mut Hashed,
    key: HeaderName,
    value: HeaderValue,
) -> Result<(), NoMemory>
    ensures ok { OnOk result (names.new.entries ≡ append names.old.entries key value) }
    ensures err { OnErr result (names.new.entries ≡ names.old.entries) }
{
    let alloc = *names.allocator();
    match names.entry(key)? {
        Entry::Occupied(entry) => entry.into_mut().push(alloc, value)?,
        Entry::Vacant(entry) => {
            entry.insert(Values::one(value));
        }
    }
    Ok(())
}

// The values of a name that may be there.
fn removed(found: Option<Values>) -> Removed
    ensures { result ≡ unwrap_or found [] }
{
    match found {
        Some(values) => values.into_iter(),
        None => Removed::none(),
    }
}

// Puts the value in place of those of the name, and gives them.
pub(super) fn insert_value(
    names: &mut Hashed,
    name: HeaderName,
    value: HeaderValue,
) -> Result<Removed, NoMemory>
    ensures ok { OnOk result (names.new.entries ≡ insert names.old.entries name value) }
    ensures removed { IfOk result (λ values. values ≡ get_all names.old.entries name) }
    ensures err { OnErr result (names.new.entries ≡ names.old.entries) }
    ensures no_memory_needed { contains_key names.old.entries name ≡ true → IsOk result }
{
    Ok(removed(names.insert(name, Values::one(value))?))
}

// Takes the name out, and gives the values that it had.
pub(super) fn remove_values(names: &mut Hashed, bytes: &[u8]) -> Removed
    ensures removed { result ≡ get_all names.old.entries (lowercase bytes.now) }
    ensures after { names.new.entries ≡ remove names.old.entries (lowercase bytes.now) }
    ensures gone { get_all names.new.entries (lowercase bytes.now) ≡ [] }
{
    removed(names.shift_remove(AnyCase { bytes }))
}

// Keeps the values for which `keep` answers true, and the names that have such a value.
pub(super) fn retain_names<F: Fn(&HeaderName, &HeaderValue) -> bool>(names: &mut Hashed, keep: &F)
    requires { F.IsAlwaysCallable keep.now }
    ensures { Retains (MayAnswer (F.post keep.now)) names.old.entries names.new.entries }
{
    names.retain(
        |name: &HeaderName, values: &mut Values| -> bool
            requires { F.IsAlwaysCallable keep.now }
            ensures filled { IsTrue result → 0 < length values.new }
            ensures kept { KeepsValues (MayAnswer (F.post keep.entry.now) name.now) values.old
                (if result then values.new else []) }
        { values.retain(name, keep) },
    );
}
