//! Items with a quality.
ghost use Rattle.std.specs.Prelude.{◌≡◌, ◌↔◌, ℕ, List, Some, MatchOption, IfOk, IsErrOf};
ghost use Rattle.std.specs.Ordering.{nat_cmp};
ghost use Rattle.std.specs.Fmt.{option_append};
ghost use Rattle.http_values.specs.QualityItem.{IsQualityItemText, HasNoSemicolon, IsLastCut, IsMarked, weight_suffix};

use crate::read::{FromText, ReadError};
use crate::shared::quality::{Quality, read_quality};
use std::alloc::Global;
use std::cmp::Ordering;
use std::fmt;

/// An item of a header field with its quality (RFC 7231, section 5.3.1).
#[derive(Clone, Copy, Debug, Drop, PartialEq, Eq)]
pub struct QualityItem<T> {
    /// The item.
    pub item: T,
    /// How much it is wanted.
    pub quality: Quality,
}

impl<T> QualityItem<T> {
    /// An item with this quality.
    pub fn new(item: T, quality: Quality) -> Self
        ensures item { result.item ≡ item }
        ensures quality { result.quality ≡ quality }
    {
        QualityItem { item, quality }
    }

    /// An item with the greatest quality.
    pub fn max(item: T) -> Self
        ensures item { result.item ≡ item }
        ensures quality { result.quality ≡ 1000 }
    {
        QualityItem::new(item, Quality::MAX)
    }

    /// An item with the least quality above zero.
    pub fn min(item: T) -> Self
        ensures item { result.item ≡ item }
        ensures quality { result.quality ≡ 1 }
    {
        QualityItem::new(item, Quality::MIN)
    }

    /// An item that is not wanted at all.
    pub fn zero(item: T) -> Self
        ensures item { result.item ≡ item }
        ensures quality { result.quality ≡ 0 }
    {
        QualityItem::new(item, Quality::ZERO)
    }

    /// How the two stand to each other by their qualities alone.
    pub fn cmp_quality(&self, other: &Self) -> Ordering
        ensures { result ≡ nat_cmp self.now.quality other.now.quality }
    {
        self.quality.thousandths().cmp(&other.quality.thousandths())
    }
}

// What stands before the last semicolon and after it.
fn last_cut(s: &str) -> Option<(&str, &str)>
    ensures { MatchOption result (HasNoSemicolon s.now) (λ x. IsLastCut s.now x.0.now x.1.now) }
{
    s.rsplit_once(';')
}

// What follows `q=` or `Q=` at the front.
fn after_mark(text: &[u8]) -> Option<&[u8]>
    ensures { MatchOption result ((weight : List ℕ) → ¬ (IsMarked text.now weight)) (λ weight. IsMarked text.now weight.now) }
{
    match text {
        [b'q' | b'Q', b'=', weight @ ..] => Some(weight),
        _ => None,
    }
}

// The item's own text and its quality, where the text has them.
fn split_item(s: &str) -> Option<(&str, Quality)>
    ensures { MatchOption result ((item : List ℕ) (n : ℕ) → ¬ (IsQualityItemText s.now item n)) (λ x. IsQualityItemText s.now x.0.now x.1) }
{
    if !s.is_ascii() {
        return None;
    }
    let Some((front, back)) = last_cut(s) else {
        return Some((s, Quality::MAX));
    };
    let mark = back.trim();
    if mark.len() < 2 {
        return None;
    }
    let Some(weight) = after_mark(mark.as_bytes()) else {
        return Some((s, Quality::MAX));
    };
    let Some(quality) = read_quality(weight) else {
        return None;
    };
    Some((front.trim(), quality))
}

impl<T: FromText> FromText for QualityItem<T> {
    ghost reads = { λ text x. (item : List ℕ) × IsQualityItemText text item x.quality × T.reads item x.item };

    ghost is_text = { λ text. (item : List ℕ) × (n : ℕ) × IsQualityItemText text item n × T.is_text item };

    /// Reads an item, and after its last semicolon a quality. A text without one has the greatest.
    fn from_text(alloc: Global, s: &str) -> Result<QualityItem<T>, ReadError> {
        let Some((item, quality)) = split_item(s) else {
            return Err(ReadError::Invalid);
        };
        match T::from_text(alloc, item) {
            Ok(item) => Ok(QualityItem::new(item, quality)),
            Err(e) => Err(e),
        }
    }
}

impl<T: fmt::Display> fmt::Display for QualityItem<T> {
    ghost output = { λ x. option_append (T.output x.item) (Some (weight_suffix x.quality)) };

    fn fmt<W: fmt::Write>(&self, f: &mut fmt::Formatter<W>) -> fmt::Result {
        self.item.fmt(f)?;
        if self.quality == Quality::MAX {
            return Ok(());
        }
        let quality = self.quality;
        write!(f, "; q={quality}")
    }
}

/// A text is that of one item and quality at most.
pub fn quality_item_is_unique()
    ensures item { (text item item' : List ℕ) (n n' : ℕ) → IsQualityItemText text item n → IsQualityItemText text item' n' → item ≡ item' }
    ensures quality { (text item item' : List ℕ) (n n' : ℕ) → IsQualityItemText text item n → IsQualityItemText text item' n' → n ≡ n' }
{}
