//! Language tags.
ghost use Rattle.std.specs.Prelude.{◌≡◌, ◌↔◌, ℕ, List, Some, IsTrue, IfOk, IsErrOf, string_bytes};
ghost use Rattle.std.specs.List.{list_all};
ghost use Rattle.std.specs.Char.{is_ascii_alphabetic, is_ascii_digit, is_ascii_alphanumeric};
ghost use Rattle.http_values.specs.LanguageTag.{IsLanguageTag, has_len, is_letters, is_letters_or_digits, is_digits, is_region, is_variant, is_x, is_singleton};
ghost use Rattle.http_values.specs.LanguageTagPlaces.{after_variant, after_region, after_script, after_language, after_start, next_place, may_end};
ghost use Rattle.http_values.specs.TagText.{tag_text};
ghost use Rattle.http_values.specs.declared.shared.language_tag.LanguageTag.{LanguageTag as Tag};

use crate::read::{FromText, ReadError};
use std::alloc::{AllocError, Global};
use std::fmt;

/// A language tag (RFC 5646, section 2.1). It prints as it was read.
#[derive(Debug, Drop, PartialEq, Eq)]
pub struct LanguageTag {
    text: String,
}

// Where a reader of subtags stands: what it read last.
#[derive(Clone, Copy)]
pub(crate) enum Place {
    // Nothing.
    Start,
    // The language, behind which so many extended subtags may stand.
    Language(u8),
    // The script.
    Script,
    // The region.
    Region,
    // A variant.
    Variant,
    // The letter or digit of an extension.
    Singleton,
    // A subtag of an extension.
    Extension,
    // The letter of private use.
    PrivateStart,
    // A subtag of private use.
    Private,
}

#[tactic(auto, using(std::proofs::lemmas::Bool::Decides::nat_tests))]
fn is_long(s: &[u8], low: usize, high: usize) -> bool
    ensures { result ≡ has_len low high s.now }
{
    low <= s.len() && s.len() <= high
}

fn all_letters(s: &[u8]) -> bool
    ensures { result ≡ list_all is_ascii_alphabetic s.now }
{
    s.iter().all(|b| b.is_ascii_alphabetic())
}

fn all_letters_or_digits(s: &[u8]) -> bool
    ensures { result ≡ list_all is_ascii_alphanumeric s.now }
{
    s.iter().all(|b| b.is_ascii_alphanumeric())
}

fn all_digits(s: &[u8]) -> bool
    ensures { result ≡ list_all is_ascii_digit s.now }
{
    s.iter().all(|b| b.is_ascii_digit())
}

fn are_letters(s: &[u8], low: usize, high: usize) -> bool
    ensures { result ≡ is_letters low high s.now }
{
    is_long(s, low, high) && all_letters(s)
}

fn are_letters_or_digits(s: &[u8], low: usize, high: usize) -> bool
    ensures { result ≡ is_letters_or_digits low high s.now }
{
    is_long(s, low, high) && all_letters_or_digits(s)
}

fn are_digits(s: &[u8], low: usize, high: usize) -> bool
    ensures { result ≡ is_digits low high s.now }
{
    is_long(s, low, high) && all_digits(s)
}

#[tactic(auto, unfolding(crate::specs::LanguageTag::is_region))]
fn begins_region(s: &[u8]) -> bool
    ensures { result ≡ is_region s.now }
{
    are_letters(s, 2, 2) || are_digits(s, 3, 3)
}

#[tactic(auto, unfolding(crate::specs::LanguageTag::is_variant))]
fn begins_variant(s: &[u8]) -> bool
    ensures { result ≡ is_variant s.now }
{
    are_letters_or_digits(s, 5, 8)
        || are_letters_or_digits(s, 4, 4) && s.len() == 4 && s[0].is_ascii_digit()
}

#[tactic(auto, unfolding(crate::specs::LanguageTag::is_x))]
fn begins_private(s: &[u8]) -> bool
    ensures { result ≡ is_x s.now }
{
    s.len() == 1 && (s[0] == b'x' || s[0] == b'X')
}

#[tactic(auto, unfolding(crate::specs::LanguageTag::is_singleton))]
fn begins_extension(s: &[u8]) -> bool
    ensures { result ≡ is_singleton s.now }
{
    are_letters_or_digits(s, 1, 1) && !begins_private(s)
}

#[tactic(auto, unfolding(crate::specs::LanguageTagPlaces::after_variant))]
fn next_after_variant(s: &[u8]) -> Option<Place>
    ensures { result ≡ after_variant s.now }
{
    if begins_extension(s) {
        Some(Place::Singleton)
    } else if begins_private(s) {
        Some(Place::PrivateStart)
    } else {
        None
    }
}

#[tactic(auto, unfolding(crate::specs::LanguageTagPlaces::after_region))]
fn next_after_region(s: &[u8]) -> Option<Place>
    ensures { result ≡ after_region s.now }
{
    if begins_variant(s) {
        Some(Place::Variant)
    } else {
        next_after_variant(s)
    }
}

#[tactic(auto, unfolding(crate::specs::LanguageTagPlaces::after_script))]
fn next_after_script(s: &[u8]) -> Option<Place>
    ensures { result ≡ after_script s.now }
{
    if begins_region(s) {
        Some(Place::Region)
    } else {
        next_after_region(s)
    }
}

#[tactic(auto, unfolding(crate::specs::LanguageTagPlaces::after_language))]
fn next_after_language(more: u8, s: &[u8]) -> Option<Place>
    ensures { result ≡ after_language more s.now }
{
    if more > 0 && are_letters(s, 3, 3) {
        Some(Place::Language(more - 1))
    } else if are_letters(s, 4, 4) {
        Some(Place::Script)
    } else {
        next_after_script(s)
    }
}

#[tactic(auto, unfolding(crate::specs::LanguageTagPlaces::after_start))]
fn next_after_start(s: &[u8]) -> Option<Place>
    ensures { result ≡ after_start s.now }
{
    if are_letters(s, 2, 3) {
        Some(Place::Language(3))
    } else if are_letters(s, 4, 8) {
        Some(Place::Language(0))
    } else if begins_private(s) {
        Some(Place::PrivateStart)
    } else {
        None
    }
}

// Where the subtag leads to.
fn next(place: Place, s: &[u8]) -> Option<Place>
    ensures { result ≡ next_place place s.now }
{
    match place {
        Place::Start => next_after_start(s),
        Place::Language(more) => next_after_language(more, s),
        Place::Script => next_after_script(s),
        Place::Region => next_after_region(s),
        Place::Variant => next_after_region(s),
        Place::Singleton if are_letters_or_digits(s, 2, 8) => Some(Place::Extension),
        Place::Singleton => None,
        Place::Extension if are_letters_or_digits(s, 2, 8) => Some(Place::Extension),
        Place::Extension => next_after_variant(s),
        Place::PrivateStart if are_letters_or_digits(s, 1, 8) => Some(Place::Private),
        Place::PrivateStart => None,
        Place::Private if are_letters_or_digits(s, 1, 8) => Some(Place::Private),
        Place::Private => None,
    }
}

// Whether a tag may end there.
fn is_end(place: Place) -> bool
    ensures { result ≡ may_end place }
{
    !matches!(place, Place::Start | Place::Singleton | Place::PrivateStart)
}

// Whether the text is a language tag.
pub(crate) fn is_language_tag(s: &str) -> bool
    ensures { IsTrue result ↔ IsLanguageTag s.now }
{
    let mut place = Some(Place::Start);
    for subtag in s.split('-') {
        place = match place {
            Some(place) => next(place, subtag.as_bytes()),
            None => None,
        };
    }
    match place {
        Some(place) => is_end(place),
        None => false,
    }
}

impl LanguageTag {
    /// The tag as it was read.
    pub fn as_str(&self) -> &str
        ensures { result.now ≡ tag_text self.now }
    {
        self.text.as_str()
    }

    /// An equal tag, as `clone` gives it too.
    pub fn copy(&self) -> Result<LanguageTag, AllocError>
        ensures { IfOk result (λ copy. tag_text copy ≡ tag_text self.now) }
    {
        Ok(LanguageTag {
            text: self.text.clone()?,
        })
    }
}

impl Clone for LanguageTag {
    ghost is_clone = { λ tag copy. tag_text copy ≡ tag_text tag };

    fn clone(&self) -> Result<LanguageTag, AllocError> {
        self.copy()
    }
}

impl FromText for LanguageTag {
    ghost reads = { λ text tag. IsLanguageTag text × (tag_text tag ≡ text) };

    ghost is_text = { IsLanguageTag };

    /// Reads a tag and keeps its text.
    fn from_text(alloc: Global, s: &str) -> Result<LanguageTag, ReadError> {
        if !is_language_tag(s) {
            return Err(ReadError::Invalid);
        }
        Ok(LanguageTag {
            text: String::from_str(alloc, s)?,
        })
    }
}

impl fmt::Display for LanguageTag {
    ghost output = { λ tag. Some (tag_text tag) };

    fn fmt<W: fmt::Write>(&self, f: &mut fmt::Formatter<W>) -> fmt::Result {
        f.write_str(self.text.as_str())
    }
}

/// The text of a tag that was read is read as that tag again.
pub fn printed_tag_is_read()
    ensures { (text : List ℕ) (tag : Tag) → IsLanguageTag text → tag_text tag ≡ text → IsLanguageTag (tag_text tag) }
{}

/// A text is that of one tag at most, by the text it keeps.
pub fn language_tag_is_unique()
    ensures { (text : List ℕ) (tag tag' : Tag) → tag_text tag ≡ text → tag_text tag' ≡ text → tag_text tag ≡ tag_text tag' }
{}
