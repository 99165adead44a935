//! The values that an insertion or a removal took out of a map.
ghost use Rattle.std.specs.Prelude.{◌≡◌, ◌==◌, [], ◌∷◌, length, Some, IfSome};
ghost use Rattle.std.specs.Iterator.SizeHint.{IsWithinCount};
ghost use Rattle.std.specs.Iterator.{UpTo, at_most, YieldsFirst, item_count};

use http_header::HeaderValue;
use std::iter::FusedIterator;
use std::marker::Model;
use std::vec;

/// The values that a name had, in the order in which they were added.
///
/// A contract sees it as the list of those that are left.
#[derive(Debug, Drop)]
pub struct Removed {
    rest: Rest,
}

// A single value needs no vector.
#[derive(Debug, Drop)]
enum Rest {
    One(Option<HeaderValue>),
    More(vec::IntoIter<HeaderValue>),
}

impl Model for Removed {
    ghost use Rattle.std.specs.Prelude.{List};
    ghost use Rattle.http_header.specs.FieldValue.{FieldValue};

    ghost Value = { List FieldValue };

    ghost use Rattle.http_map.specs.Rest.{rest_listed};

    ghost view = { λ it. rest_listed it.rest };
}

impl Removed {
    pub(crate) fn none() -> Removed
        ensures { result ≡ [] }
    {
        Removed {
            rest: Rest::One(None),
        }
    }

    pub(crate) fn one(value: HeaderValue) -> Removed
        ensures { result ≡ value ∷ [] }
    {
        Removed {
            rest: Rest::One(Some(value)),
        }
    }

    pub(crate) fn more(values: Vec<HeaderValue>) -> Removed
        ensures { result ≡ values.items }
    {
        Removed {
            rest: Rest::More(values.into_iter()),
        }
    }

    /// Whether no value is left.
    pub fn is_empty(&self) -> bool
        ensures { result ≡ (length self.now == 0) }
    {
        self.len() == 0
    }
}

impl Iterator for Removed {
    type Item = HeaderValue;

    ghost next_gives = { YieldsFirst (λ it. it) };

    ghost remaining = { item_count (λ it. it) };

    fn next(&mut self) -> Option<HeaderValue> {
        match &mut self.rest {
            Rest::One(value) => value.take(),
            Rest::More(values) => values.next(),
        }
    }

    fn size_hint(&self) -> (usize, Option<usize>)
        ensures lower { IsWithinCount result.0 (at_most (length self.now)) }
        ensures upper { IfSome result.1 (UpTo (at_most (length self.now))) }
        ensures exact { result ≡ (length self.now, Some (length self.now)) }
    {
        let len = self.len();
        (len, Some(len))
    }
}

impl ExactSizeIterator for Removed {
    fn len(&self) -> usize {
        match &self.rest {
            Rest::One(value) => usize::from(value.is_some()),
            Rest::More(values) => values.len(),
        }
    }
}

impl FusedIterator for Removed {}
