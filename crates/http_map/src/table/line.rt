//! A name with its values, and the mark by which it is found among few.
ghost use Rattle.std.specs.Prelude.{◌≡◌, ◌+◌, ◌*◌, ◌%◌, ◌<◌, ◌^◌, ℕ, List, false, ◌∷◌, ◌++◌, [], get_or, bytes_eq, OnOk, OnErr, IsTrue, length, if◌then◌else◌};
ghost use Rattle.std.specs.Borrow.{sem};
ghost use Rattle.http_header.specs.Token.{lowercase};
ghost use Rattle.http_map.specs.Lines.{name_mark};
ghost use Rattle.http_map.specs.Retain.{MayAnswer, KeepsValues};

use crate::NoMemory;
use crate::any_case::AnyCase;
use crate::values::Values;
use http_header::{HeaderName, HeaderValue};
use indexmap::Equivalent;
use std::alloc::{AllocError, Global};
use std::marker::Model;

/// One name and all its values. The mark is made of the name: where marks differ, names do.
///
/// A contract sees it as the name and the values.
#[derive(Debug)]
pub(crate) struct Line {
    mark: u64,
    name: HeaderName,
    values: Values,
}

impl Model for Line {
    ghost use Rattle.std.specs.Prelude.{◌≡◌};
    ghost use Rattle.http_map.specs.HeaderMap.{Entry};
    ghost use Rattle.http_map.specs.Lines.{name_mark};

    ghost Value = { Entry };

    ghost view = { λ line. (line.name, line.values) };

    ghost invariant = { λ line. line.mark ≡ name_mark line.name };
}

// Inlined, so that a list that is cleared drops each line where it stands and moves none to a call.
impl Drop for Line {
    #[inline(always)]
    fn drop(self) {
        let Line {
            mark: _,
            name: _name,
            values: _values,
        } = self;
    }
}

// The byte at the index in lower case, and 0 past the end.
fn low_byte(bytes: &[u8], i: usize) -> u64
    ensures value { result ≡ get_or (lowercase bytes.now) i 0 }
    ensures small { result < 256 }
{
    if i < bytes.len() {
        u64::from(bytes[i].to_ascii_lowercase())
    } else {
        0
    }
}

/// The mark of the name that has these bytes in lower case: eight times its length and its last byte but one.
/// It is chosen so that of the names that heads have few are the same by 64.
pub(crate) fn mark_of(bytes: &[u8]) -> u64
    ensures { result ≡ name_mark (lowercase bytes.now) }
{
    let len = bytes.len();
    mark_from(len, low_byte(bytes, len.saturating_sub(2)))
}

// The mark of a name of that length with that byte.
#[inline(always)]
fn mark_from(len: usize, byte: u64) -> u64
    ensures { result ≡ (len * 8 % 2 ^ 64 + byte) % 2 ^ 64 }
{
    (len as u64).wrapping_mul(8).wrapping_add(byte)
}

/// The mark of the name that has these bytes, which are in lower case already.
#[inline(always)]
pub(crate) fn mark_of_name(bytes: &[u8]) -> u64
    ensures { result ≡ name_mark bytes.now }
{
    let len = bytes.len();
    if len < 2 {
        return mark_of_short(bytes);
    }
    mark_from(len, u64::from(bytes[len - 2]))
}

// The same where there are fewer than two.
#[inline(never)]
fn mark_of_short(bytes: &[u8]) -> u64
    requires { length bytes.now < 2 }
    ensures { result ≡ name_mark bytes.now }
{
    match bytes.first() {
        Some(byte) => mark_from(bytes.len(), u64::from(*byte)),
        None => 0,
    }
}

impl Line {
    ghost use Rattle.http_map.specs.NamesLends.{line_lends_values};

    /// A line of a name whose mark this is.
    pub(crate) fn marked(mark: u64, name: HeaderName, values: Values) -> Line
        requires { mark ≡ name_mark name }
        ensures { result ≡ (name, values) }
    {
        Line { mark, name, values }
    }

    /// Whether these bytes are the name, in any case.
    pub(crate) fn is(&self, mark: u64, bytes: &[u8]) -> bool
        requires { mark ≡ name_mark (lowercase bytes.now) }
        ensures { result ≡ bytes_eq (lowercase bytes.now) self.now.0 }
    {
        self.mark == mark && AnyCase { bytes }.equivalent(&self.name)
    }

    pub(crate) fn name(&self) -> &HeaderName
        ensures { result.now ≡ self.now.0 }
    {
        &self.name
    }

    pub(crate) fn values(&self) -> &Values
        ensures { result.now ≡ self.now.1 }
    {
        &self.values
    }

    /// The values, for writing.
    pub(crate) fn values_mut(&mut self) -> &mut Values
        ensures* writes_back { sem 𝓛 (line_lends_values self.entry result) }
        ensures value { result.now ≡ self.old.1 }
    {
        &mut self.values
    }

    /// Adds a last value.
    pub(crate) fn push(&mut self, alloc: Global, value: HeaderValue) -> Result<(), NoMemory>
        ensures ok { OnOk result (self.new ≡ (self.old.0, self.old.1 ++ value ∷ [])) }
        ensures err { OnErr result (self.new ≡ self.old) }
    {
        self.values.push(alloc, value)
    }

    /// Keeps the values for which `keep` answers true, and says whether there is one.
    pub(crate) fn retain<F: Fn(&HeaderName, &HeaderValue) -> bool>(&mut self, keep: &F) -> bool
        requires { F.IsAlwaysCallable keep.now }
        ensures name { self.new.0 ≡ self.old.0 }
        ensures filled { IsTrue result → 0 < length self.new.1 }
        ensures kept { KeepsValues (MayAnswer (F.post keep.now) self.old.0) self.old.1
            (if result then self.new.1 else []) }
    {
        self.values.retain(&self.name, keep)
    }

    pub(crate) fn into_pair(self) -> (HeaderName, Values)
        ensures { result ≡ self }
    {
        let Line {
            mark: _,
            name,
            values,
        } = self;
        (name, values)
    }
}

impl Clone for Line {
    ghost is_clone = { λ line copy. copy ≡ line };

    fn clone(&self) -> Result<Line, AllocError> {
        Ok(Line {
            mark: self.mark,
            name: self.name.clone()?,
            values: self.values.clone()?,
        })
    }
}
