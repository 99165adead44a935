//! The values of one name.
ghost use Rattle.std.specs.Prelude.{◌≡◌, ◌<◌, [], ◌∷◌, ◌++◌, length, drop, slice_get, Some, IsTrue, OnOk, OnErr, if◌then◌else◌};
ghost use Rattle.std.specs.Borrow.{sem};
ghost use Rattle.http_map.specs.Retain.{MayAnswer, KeepsValues};

use crate::NoMemory;
use crate::removed::Removed;
use http_header::{HeaderName, HeaderValue};
use std::alloc::{AllocError, Global};
use std::marker::Model;
use std::{fmt, mem, slice};

/// The values of one name, in the order in which they were added. Most names have one, which stands
/// here itself and takes no memory of its own.
///
/// A contract sees them as a list.
#[derive(Drop)]
pub(crate) struct Values {
    kept: Kept,
}

impl Model for Values {
    ghost use Rattle.std.specs.Prelude.{List};
    ghost use Rattle.http_header.specs.FieldValue.{FieldValue};

    ghost Value = { List FieldValue };

    ghost use Rattle.http_map.specs.Kept.{listed};

    ghost view = { λ values. listed values.kept };
}

enum Kept {
    One(HeaderValue),
    // In a block of its own: what drops a single value then has nothing else to move.
    More(Box<Vec<HeaderValue>>),
}

impl Drop for Kept {
    #[inline(always)]
    fn drop(self) {
        match self {
            Kept::One(_value) => {}
            Kept::More(values) => drop_values(values),
        }
    }
}

// Drops several values, out of the way of names with one.
#[inline(never)]
fn drop_values(_values: Box<Vec<HeaderValue>>) {}

impl Kept {
    ghost use Rattle.http_map.specs.Kept.{listed, kept_lends_first};

    fn first_mut(&mut self) -> &mut HeaderValue
        requires { 0 < length (listed self.old) }
        ensures* writes_back { sem 𝓛 (kept_lends_first self.entry result) }
        ensures value { Some result.now ≡ slice_get (listed self.old) 0 }
    {
        match self {
            Kept::One(value) => value,
            Kept::More(values) => &mut values.as_mut()[0],
        }
    }

    fn into_removed(self) -> Removed
        ensures { result ≡ listed self }
    {
        match self {
            Kept::One(value) => Removed::one(value),
            Kept::More(values) => Removed::more(Box::into_inner(values)),
        }
    }
}

impl Values {
    ghost use Rattle.http_map.specs.Values.{lends_first_of};

    /// One value, without memory.
    pub(crate) fn one(value: HeaderValue) -> Values
        ensures { result ≡ value ∷ [] }
    {
        Values {
            kept: Kept::One(value),
        }
    }

    pub(crate) fn as_slice(&self) -> &[HeaderValue]
        ensures value { result.now ≡ self.now }
    {
        match &self.kept {
            Kept::One(value) => slice::from_ref(value),
            Kept::More(values) => values.as_ref().as_slice(),
        }
    }

    /// Adds a last value. It grows first, so nothing changes where there is no memory.
    pub(crate) fn push(&mut self, alloc: Global, value: HeaderValue) -> Result<(), NoMemory>
        ensures ok { OnOk result (self.new ≡ self.old ++ value ∷ []) }
        ensures err { OnErr result (self.new ≡ self.old) }
    {
        match &mut self.kept {
            Kept::One(only) => {
                let mut values = Box::new(alloc, Vec::with_capacity(alloc, 2)?)?;
                // An empty value stands in for the one that moves to the vector.
                let first = mem::replace(only, HeaderValue::from_static(""));
                let both = values.as_mut();
                both.push_reserved(first);
                both.push_reserved(value);
                self.kept = Kept::More(values);
            }
            Kept::More(values) => values.as_mut().push(value)?,
        }
        Ok(())
    }

    /// The first value, for writing.
    pub(crate) fn first_mut(&mut self) -> &mut HeaderValue
        requires { 0 < length self.old }
        ensures* writes_back { sem 𝓛 (lends_first_of self.entry result) }
        ensures value { Some result.now ≡ slice_get self.old 0 }
    {
        self.kept.first_mut()
    }

    /// Keeps the values for which `keep` answers true, in their order, and says whether there is one.
    /// Where there is none, what is left is of no use.
    pub(crate) fn retain<F: Fn(&HeaderName, &HeaderValue) -> bool>(
        &mut self,
        name: &HeaderName,
        keep: &F,
    ) -> bool
        requires { F.IsAlwaysCallable keep.now }
        ensures filled { IsTrue result → 0 < length self.new }
        ensures kept { KeepsValues (MayAnswer (F.post keep.now) name.now) self.old
            (if result then self.new else []) }
    {
        match &mut self.kept {
            Kept::One(value) => keep(name, value),
            Kept::More(values) => {
                let values = values.as_mut();
                values.retain(
                    |value: &HeaderValue| -> bool
                        requires { F.IsAlwaysCallable keep.now }
                        ensures { MayAnswer (F.post keep.entry.now) name.entry.now value.now result }
                    { keep(name, value) },
                );
                !values.is_empty()
            }
        }
    }
}

impl Clone for Values {
    ghost is_clone = { λ values copy. copy ≡ values };

    fn clone(&self) -> Result<Values, AllocError> {
        let kept = match &self.kept {
            Kept::One(value) => Kept::One(value.clone()?),
            Kept::More(values) => Kept::More(values.clone()?),
        };
        Ok(Values { kept })
    }
}

impl fmt::Debug for Values {
    fn fmt<W: fmt::Write>(&self, f: &mut fmt::Formatter<W>) -> fmt::Result {
        f.debug_struct("Value")
            .field("inner", &self.as_slice())
            .finish()
    }
}

impl IntoIterator for Values {
    type Item = HeaderValue;

    type IntoIter = Removed;

    ghost into_iter_gives = { λ values it. it ≡ values };

    fn into_iter(self) -> Removed {
        self.kept.into_removed()
    }
}
