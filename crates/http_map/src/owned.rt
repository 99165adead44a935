//! Iterators that own what they give. In a contract each is the list of the items still to come.
ghost use Rattle.std.specs.Prelude.{◌≡◌, ℕ, List, [], ◌∷◌, length, Option, Some, IfNone, IfSome};
ghost use Rattle.std.specs.Iterator.SizeHint.{IsWithinCount};
ghost use Rattle.std.specs.Iterator.{UpTo, at_most, YieldsFirst, item_count};
ghost use Rattle.http_map.specs.Owned.{entries_left, GivesFirst};

use crate::NoMemory;
use crate::removed::Removed;
use crate::table::{Names, NamesIntoIter};
use http_header::{HeaderName, HeaderValue};
use std::alloc::Global;
use std::iter::FusedIterator;
use std::marker::Model;

type Later = NamesIntoIter;

/// Every value that `drain` took out of a map. A name comes with its first value alone.
#[derive(Drop)]
pub struct Drain {
    // Those values of the name in hand that are left, and that follow its first.
    values: Removed,
    later: Later,
    // How many values are left.
    left: usize,
}

impl Model for Drain {
    ghost use Rattle.std.specs.Prelude.{◌≡◌, ℕ, List, [], ◌∷◌, length, Option, Some, IfNone, IfSome};
    ghost use Rattle.http_header.specs.FieldValue.{FieldValue};
    ghost use Rattle.http_map.specs.Owned.{drained_left, IsDrain};

    ghost Value = { List (Option (List ℕ) × FieldValue) };

    ghost view = { λ it. drained_left it.values it.later };

    ghost invariant = { λ it. IsDrain it.values it.later it.left };
}

impl Drain {
    ghost use Rattle.std.specs.Prelude.{◌≡◌, ◌==◌, ◌<◌, length, All};
    ghost use Rattle.http_map.specs.HeaderMap.{IsEntry, value_count};
    ghost use Rattle.http_map.specs.Owned.{drained};

    pub(crate) fn new(later: Later, left: usize) -> Drain
        requires counted { left ≡ value_count later }
        requires entries { All IsEntry later }
        ensures { result ≡ drained later }
    {
        Drain {
            values: Removed::none(),
            later,
            left,
        }
    }

    /// Whether no value is left.
    pub fn is_empty(&self) -> bool
        ensures { result ≡ (length self.now == 0) }
    {
        self.len() == 0
    }
}

impl Iterator for Drain {
    type Item = (Option<HeaderName>, HeaderValue);

    ghost next_gives = { YieldsFirst (λ it. it) };

    ghost remaining = { item_count (λ it. it) };

    fn next(&mut self) -> Option<(Option<HeaderName>, HeaderValue)> {
        if let Some(value) = self.values.next() {
            self.left -= 1;
            return Some((None, value));
        }
        let (name, values) = self.later.next()?;
        let mut values = values.into_iter();
        let value = values.next().unwrap();
        self.values = values;
        self.left -= 1;
        Some((Some(name), value))
    }

    fn size_hint(&self) -> (usize, Option<usize>)
        ensures lower { IsWithinCount result.0 (at_most (length self.now)) }
        ensures upper { IfSome result.1 (UpTo (at_most (length self.now))) }
        ensures exact { result ≡ (length self.now, Some (length self.now)) }
    {
        (self.left, Some(self.left))
    }
}

impl ExactSizeIterator for Drain {
    fn len(&self) -> usize {
        self.left
    }
}

impl FusedIterator for Drain {}

/// Every value of a map beside its name, name by name. It copies a name for each of its values but
/// the last, and where there is no memory for that it gives the error and ends.
#[derive(Drop)]
pub struct IntoIter {
    alloc: Global,
    // The name in hand, and those of its values that are left, at least one.
    current: Option<(HeaderName, Removed)>,
    later: Later,
    // How many pairs are left.
    left: usize,
}

impl Model for IntoIter {
    ghost use Rattle.std.specs.Prelude.{List};
    ghost use Rattle.http_map.specs.HeaderMap.{Pair, pairs};
    ghost use Rattle.http_map.specs.Owned.{entries_left, IsIntoIter};

    ghost Value = { List Pair };

    ghost view = { λ it. pairs (entries_left it.current it.later) };

    ghost invariant = { λ it. IsIntoIter it.current it.later it.left };
}

impl IntoIter {
    ghost use Rattle.std.specs.Prelude.{◌≡◌, ◌==◌, ◌<◌, length, All};
    ghost use Rattle.http_map.specs.HeaderMap.{IsEntry, pairs, value_count};

    pub(crate) fn new(alloc: Global, later: Later, left: usize) -> IntoIter
        requires counted { left ≡ value_count later }
        requires entries { All IsEntry later }
        ensures { result ≡ pairs later }
    {
        IntoIter {
            alloc,
            current: None,
            later,
            left,
        }
    }

    /// Whether no pair is left.
    pub fn is_empty(&self) -> bool
        ensures { result ≡ (length self.now == 0) }
    {
        self.len() == 0
    }
}

// The name in hand, or else the first of the later ones.
fn in_hand(
    current: Option<(HeaderName, Removed)>,
    later: &mut Later,
) -> Option<(HeaderName, Removed)>
    ensures none { IfNone result ((entries_left current later.old ≡ []) × (later.new ≡ [])) }
    ensures some { IfSome result (λ e. entries_left current later.old ≡ e ∷ later.new) }
{
    match current {
        Some(current) => Some(current),
        None => {
            let (name, values) = later.next()?;
            Some((name, values.into_iter()))
        }
    }
}

impl Iterator for IntoIter {
    type Item = Result<(HeaderName, HeaderValue), NoMemory>;

    ghost next_gives = { GivesFirst };

    ghost remaining = { item_count (λ it. it) };

    fn next(&mut self) -> Option<Result<(HeaderName, HeaderValue), NoMemory>> {
        let (name, mut values) = in_hand(self.current.take(), &mut self.later)?;
        let value = values.next().unwrap();
        if values.is_empty() {
            self.left -= 1;
            return Some(Ok((name, value)));
        }
        match name.clone() {
            Ok(copy) => {
                self.current = Some((name, values));
                self.left -= 1;
                Some(Ok((copy, value)))
            }
            Err(e) => {
                self.later = Names::new(self.alloc).into_iter();
                self.left = 0;
                Some(Err(e))
            }
        }
    }

    fn size_hint(&self) -> (usize, Option<usize>)
        ensures lower { IsWithinCount result.0 (at_most (length self.now)) }
        ensures upper { IfSome result.1 (UpTo (at_most (length self.now))) }
        ensures exact { result ≡ (0, Some (length self.now)) }
    {
        (0, Some(self.left))
    }
}

impl ExactSizeIterator for IntoIter {
    fn len(&self) -> usize {
        self.left
    }
}

impl FusedIterator for IntoIter {}
