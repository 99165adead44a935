//! The iterators over a map's names with their values. A contract sees each as the list of those that are left.
ghost use Rattle.std.specs.Prelude.{◌≡◌, List, length, Some, None, IfSome, ⊤};
ghost use Rattle.std.specs.Iterator.SizeHint.{IsWithinCount};
ghost use Rattle.std.specs.Iterator.{UpTo, at_most, YieldsFirstBy, YieldsFirst, item_count};

use super::line::Line;
use crate::values::Values;
use http_header::HeaderName;
use indexmap::map;
use std::alloc::AllocError;
use std::marker::Model;
use std::{slice, vec};

/// The names of a map with their values.
#[derive(Debug, Drop)]
pub(crate) struct NamesIter<'a> {
    rest: Shown<'a>,
}

#[derive(Debug, Drop)]
enum Shown<'a> {
    Few(slice::Iter<'a, Line>),
    Many(map::Iter<'a, HeaderName, Values>),
}

impl<'a> Model for NamesIter<'a> {
    ghost use Rattle.http_map.specs.HeaderMap.{Entries};

    ghost Value = { Entries };

    ghost use Rattle.http_map.specs.NamesIter.{shown};

    ghost view = { λ it. shown it.rest };
}

impl<'a> NamesIter<'a> {
    ghost use Rattle.std.specs.Prelude.{◌≡◌};
    ghost use Rattle.std.specs.Slice.Iter.{iter_rest};

    pub(super) fn few(lines: slice::Iter<'a, Line>) -> NamesIter<'a>
        ensures { result ≡ iter_rest lines.entry }
    {
        NamesIter {
            rest: Shown::Few(lines),
        }
    }

    pub(super) fn many(names: map::Iter<'a, HeaderName, Values>) -> NamesIter<'a>
        ensures { result ≡ names.entry }
    {
        NamesIter {
            rest: Shown::Many(names),
        }
    }
}

impl<'a> Clone for NamesIter<'a> {
    ghost is_clone = { λ it copy. copy ≡ it };

    ghost is_infallible = { λ _. ⊤ };

    fn clone(&self) -> Result<NamesIter<'a>, AllocError> {
        let rest = match &self.rest {
            Shown::Few(lines) => Shown::Few(lines.clone()?),
            Shown::Many(names) => Shown::Many(names.clone()?),
        };
        Ok(NamesIter { rest })
    }
}

impl<'a> Iterator for NamesIter<'a> {
    type Item = (&'a HeaderName, &'a Values);

    ghost next_gives = { YieldsFirstBy (λ p. (p.0.now, p.1.now)) (λ it. it) };

    ghost remaining = { item_count (λ it. it) };

    fn next(&mut self) -> Option<(&'a HeaderName, &'a Values)> {
        match &mut self.rest {
            Shown::Few(lines) => {
                let line = lines.next()?;
                Some((line.name(), line.values()))
            }
            Shown::Many(names) => names.next(),
        }
    }

    fn size_hint(&self) -> (usize, Option<usize>)
        ensures lower { IsWithinCount result.0 (at_most (length self.now)) }
        ensures upper { IfSome result.1 (UpTo (at_most (length self.now))) }
        ensures exact { result ≡ (length self.now, Some (length self.now)) }
    {
        let len = self.len();
        (len, Some(len))
    }
}

impl<'a> ExactSizeIterator for NamesIter<'a> {
    fn len(&self) -> usize {
        match &self.rest {
            Shown::Few(lines) => lines.len(),
            Shown::Many(names) => names.len(),
        }
    }
}

/// The names of a map with their values, taken out of it.
#[derive(Drop)]
pub(crate) struct NamesIntoIter {
    rest: Taken,
}

#[derive(Drop)]
enum Taken {
    Few(vec::IntoIter<Line>),
    Many(map::IntoIter<HeaderName, Values>),
}

impl Model for NamesIntoIter {
    ghost use Rattle.http_map.specs.HeaderMap.{Entries};

    ghost Value = { Entries };

    ghost use Rattle.http_map.specs.NamesIter.{taken};

    ghost view = { λ it. taken it.rest };
}

impl NamesIntoIter {
    ghost use Rattle.std.specs.Prelude.{◌≡◌};
    ghost use Rattle.std.specs.Vec.Iter.{into_iter_items};

    pub(super) fn few(lines: vec::IntoIter<Line>) -> NamesIntoIter
        ensures { result ≡ into_iter_items lines }
    {
        NamesIntoIter {
            rest: Taken::Few(lines),
        }
    }

    pub(super) fn many(names: map::IntoIter<HeaderName, Values>) -> NamesIntoIter
        ensures { result ≡ names }
    {
        NamesIntoIter {
            rest: Taken::Many(names),
        }
    }
}

impl Iterator for NamesIntoIter {
    type Item = (HeaderName, Values);

    ghost next_gives = { YieldsFirst (λ it. it) };

    ghost remaining = { item_count (λ it. it) };

    fn next(&mut self) -> Option<(HeaderName, Values)> {
        match &mut self.rest {
            Taken::Few(lines) => {
                let line = lines.next()?;
                Some(line.into_pair())
            }
            Taken::Many(names) => names.next(),
        }
    }

    fn size_hint(&self) -> (usize, Option<usize>)
        ensures lower { IsWithinCount result.0 (at_most (length self.now)) }
        ensures upper { IfSome result.1 (UpTo (at_most (length self.now))) }
        ensures exact { result ≡ (0, None) }
    {
        (0, None)
    }
}
