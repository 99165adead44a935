//! Iterators that borrow a map. In a contract each is the list of the items still to come.
ghost use Rattle.std.specs.Prelude.{◌≡◌, ℕ, List, length, Some, IfSome, ⊤};
ghost use Rattle.std.specs.Iterator.SizeHint.{IsWithinCount};
ghost use Rattle.std.specs.Iterator.{UpTo, at_most, YieldsFirstBy, YieldsFirstRef, item_count};

use crate::table::NamesIter;
use http_header::{HeaderName, HeaderValue};
use std::alloc::AllocError;
use std::iter::FusedIterator;
use std::marker::Model;

/// Every value of a map beside its name, name by name.
#[derive(Debug, Drop)]
pub struct Iter<'a> {
    // The name in hand, and those of its values that are left.
    current: Option<(&'a HeaderName, &'a [HeaderValue])>,
    later: NamesIter<'a>,
    // How many pairs are left.
    left: usize,
}

impl<'a> Model for Iter<'a> {
    ghost use Rattle.std.specs.Prelude.{List};
    ghost use Rattle.http_map.specs.HeaderMap.{Pair};
    ghost use Rattle.http_map.specs.Iter.{pairs_left, IsIter};

    ghost Value = { List Pair };

    ghost view = { λ it. pairs_left it.current it.later };

    ghost invariant = { λ it. IsIter it.current it.later it.left };
}

impl<'a> Iter<'a> {
    ghost use Rattle.std.specs.Prelude.{◌≡◌, ◌==◌, ◌<◌, length, All};
    ghost use Rattle.http_map.specs.HeaderMap.{IsEntry, pairs, value_count};

    pub(crate) fn new(later: NamesIter<'a>, left: usize) -> Iter<'a>
        requires counted { left ≡ value_count later }
        requires entries { All IsEntry later }
        ensures { result ≡ pairs later.entry }
    {
        Iter {
            current: None,
            later,
            left,
        }
    }

    /// Whether no pair is left.
    pub fn is_empty(&self) -> bool
        ensures { result ≡ (length self.now == 0) }
    {
        self.len() == 0
    }
}

/// What is left may be gone over again. It takes no memory.
impl<'a> Clone for Iter<'a> {
    ghost is_clone = { λ it copy. copy ≡ it };

    ghost is_infallible = { λ _. ⊤ };

    fn clone(&self) -> Result<Iter<'a>, AllocError> {
        Ok(Iter {
            current: self.current,
            later: self.later.clone()?,
            left: self.left,
        })
    }
}

impl<'a> Iterator for Iter<'a> {
    type Item = (&'a HeaderName, &'a HeaderValue);

    ghost next_gives = { YieldsFirstBy (λ p. (p.0.now, p.1.now)) (λ it. it) };

    ghost remaining = { item_count (λ it. it) };

    fn next(&mut self) -> Option<(&'a HeaderName, &'a HeaderValue)> {
        if let Some((name, values)) = self.current
            && let Some((value, others)) = values.split_first()
        {
            self.current = Some((name, others));
            self.left -= 1;
            return Some((name, value));
        }
        let (name, values) = self.later.next()?;
        let (value, others) = values.as_slice().split_first().unwrap();
        self.current = Some((name, others));
        self.left -= 1;
        Some((name, value))
    }

    fn size_hint(&self) -> (usize, Option<usize>)
        ensures lower { IsWithinCount result.0 (at_most (length self.now)) }
        ensures upper { IfSome result.1 (UpTo (at_most (length self.now))) }
        ensures exact { result ≡ (length self.now, Some (length self.now)) }
    {
        (self.left, Some(self.left))
    }
}

impl<'a> ExactSizeIterator for Iter<'a> {
    fn len(&self) -> usize {
        self.left
    }
}

impl<'a> FusedIterator for Iter<'a> {}

/// Every name of a map once.
#[derive(Debug, Drop)]
pub struct Keys<'a> {
    names: NamesIter<'a>,
}

impl<'a> Model for Keys<'a> {
    ghost use Rattle.std.specs.Prelude.{ℕ, List};
    ghost use Rattle.http_map.specs.HeaderMap.{keys};

    ghost Value = { List (List ℕ) };

    ghost view = { λ it. keys it.names };
}

impl<'a> Keys<'a> {
    ghost use Rattle.std.specs.Prelude.{◌≡◌, ◌==◌, length};
    ghost use Rattle.http_map.specs.HeaderMap.{keys};

    pub(crate) fn new(names: NamesIter<'a>) -> Keys<'a>
        ensures { result ≡ keys names.entry }
    {
        Keys { names }
    }

    /// Whether no name is left.
    pub fn is_empty(&self) -> bool
        ensures { result ≡ (length self.now == 0) }
    {
        self.len() == 0
    }
}

/// What is left may be gone over again. It takes no memory.
impl<'a> Clone for Keys<'a> {
    ghost is_clone = { λ it copy. copy ≡ it };

    ghost is_infallible = { λ _. ⊤ };

    fn clone(&self) -> Result<Keys<'a>, AllocError> {
        Ok(Keys {
            names: self.names.clone()?,
        })
    }
}

impl<'a> Iterator for Keys<'a> {
    type Item = &'a HeaderName;

    ghost next_gives = { YieldsFirstRef (λ it. it) };

    ghost remaining = { item_count (λ it. it) };

    fn next(&mut self) -> Option<&'a HeaderName> {
        let (name, _) = self.names.next()?;
        Some(name)
    }

    fn size_hint(&self) -> (usize, Option<usize>)
        ensures lower { IsWithinCount result.0 (at_most (length self.now)) }
        ensures upper { IfSome result.1 (UpTo (at_most (length self.now))) }
        ensures exact { result ≡ (length self.now, Some (length self.now)) }
    {
        let len = self.names.len();
        (len, Some(len))
    }
}

impl<'a> ExactSizeIterator for Keys<'a> {
    fn len(&self) -> usize {
        self.names.len()
    }
}

impl<'a> FusedIterator for Keys<'a> {}
