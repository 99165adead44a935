//! Values of extended parameters.
ghost use Rattle.std.specs.Prelude.{◌≡◌, ◌↔◌, ◌⊎◌, ℕ, List, Some, MatchOption, IfOk, IfErr, IsErrOf};
ghost use Rattle.percent_encoding.specs.Percent as percent;
ghost use Rattle.http_values.specs.Charset.{charset_text, IsNamed, SameCharset};
ghost use Rattle.http_values.specs.declared.shared.extended.ExtendedValue.{ExtendedValue as Value};
ghost use Rattle.http_values.specs.ExtendedValue.{IsTagPart, SaysExtended, SameTag};
ghost use Rattle.http_values.specs.ExtendedText.{HasNoQuote, IsFirstCut, IsCutInThree, IsTagOrNone, IsExtendedText};

use crate::read::{FromText, ReadError};
use crate::shared::charset::Charset;
use crate::shared::language_tag::LanguageTag;
use crate::utils::HTTP_VALUE;
use http_types::ParseError;
use percent_encoding::{percent_decode, percent_encode};
use std::alloc::{AllocError, Global};
use std::fmt;

/// The value of an extended parameter (RFC 5987, section 3.2).
#[derive(Debug, Drop, PartialEq, Eq)]
pub struct ExtendedValue {
    /// The character set of the bytes.
    pub charset: Charset,
    /// The language, where it is told.
    pub language_tag: Option<LanguageTag>,
    /// The bytes.
    pub value: Vec<u8>,
}

impl ExtendedValue {
    /// An equal value, as `clone` gives it too.
    pub fn copy(&self) -> Result<ExtendedValue, AllocError>
        ensures charset { IfOk result (λ copy. SameCharset self.now.charset copy.charset) }
        ensures tag { IfOk result (λ copy. SameTag self.now.language_tag copy.language_tag) }
        ensures value { IfOk result (λ copy. copy.value.items ≡ self.now.value.items) }
    {
        let language_tag = match &self.language_tag {
            Some(tag) => Some(tag.copy()?),
            None => None,
        };
        Ok(ExtendedValue {
            charset: self.charset.copy()?,
            language_tag,
            value: self.value.clone()?,
        })
    }
}

impl Clone for ExtendedValue {
    ghost is_clone = { λ value copy. SameCharset value.charset copy.charset × SameTag value.language_tag copy.language_tag × (copy.value.items ≡ value.value.items) };

    fn clone(&self) -> Result<ExtendedValue, AllocError> {
        self.copy()
    }
}

// What stands before the first quote and after it.
fn first_cut(s: &str) -> Option<(&str, &str)>
    ensures { MatchOption result (HasNoQuote s.now) (λ x. IsFirstCut s.now x.0.now x.1.now) }
{
    s.split_once('\'')
}

// The three parts between the first two quotes.
fn cut_in_three(s: &str) -> Option<(&str, &str, &str)>
    ensures { MatchOption result ((charset tag value : List ℕ) → ¬ (IsCutInThree s.now charset tag value)) (λ x. IsCutInThree s.now x.0.now x.1.now x.2.now) }
{
    let Some((charset, rest)) = first_cut(s) else {
        return None;
    };
    let Some((tag, value)) = first_cut(rest) else {
        return None;
    };
    Some((charset, tag, value))
}

// The language tag of a part, which may be empty.
fn read_tag(alloc: Global, text: &str) -> Result<Option<LanguageTag>, ReadError>
    ensures ok { IfOk result (λ tag. IsTagPart text.now tag) }
    ensures invalid { IsErrOf result ReadError.Invalid ↔ ¬ (IsTagOrNone text.now) }
{
    if text.is_empty() {
        return Ok(None);
    }
    match LanguageTag::from_text(alloc, text) {
        Ok(tag) => Ok(Some(tag)),
        Err(e) => Err(e),
    }
}

// The bytes that a text with escapes stands for.
fn decoded(alloc: Global, text: &str) -> Result<Vec<u8>, AllocError>
    ensures { IfOk result (λ bytes. bytes.items ≡ percent.percent_decode text.now) }
{
    let mut bytes = Vec::new(alloc);
    percent_decode(text.as_bytes()).append_to(&mut bytes)?;
    Ok(bytes)
}

/// Reads the value of an extended parameter (RFC 5987, section 3.2.1). `Header` comes exactly where
/// the text has fewer than two quotes, or what stands between the first two is neither empty nor a
/// language tag.
pub fn parse_extended_value(alloc: Global, val: &str) -> Result<ExtendedValue, ParseError>
    ensures ok { IfOk result (λ v. SaysExtended val.now v) }
    ensures header { IsErrOf result ParseError.Header ↔ ¬ (IsExtendedText val.now) }
    ensures err { IfErr result (λ e. (e ≡ ParseError.Header) ⊎ (e ≡ ParseError.NoMemory)) }
{
    let Some((charset, tag, value)) = cut_in_three(val) else {
        return Err(ParseError::Header);
    };
    let language_tag = match read_tag(alloc, tag) {
        Ok(tag) => tag,
        Err(ReadError::Invalid) => return Err(ParseError::Header),
        Err(ReadError::NoMemory) => return Err(ParseError::NoMemory),
    };
    let Ok(charset) = Charset::from_text(alloc, charset) else {
        return Err(ParseError::NoMemory);
    };
    let Ok(value) = decoded(alloc, value) else {
        return Err(ParseError::NoMemory);
    };
    Ok(ExtendedValue {
        charset,
        language_tag,
        value,
    })
}

impl fmt::Display for ExtendedValue {
    ghost use Rattle.http_values.specs.Printed.{extended_text};

    ghost output = { λ v. Some (extended_text v) };

    fn fmt<W: fmt::Write>(&self, f: &mut fmt::Formatter<W>) -> fmt::Result {
        let charset = &self.charset;
        let value = percent_encode(self.value.as_slice(), HTTP_VALUE);
        match &self.language_tag {
            Some(tag) => write!(f, "{charset}'{tag}'{value}"),
            None => write!(f, "{charset}''{value}"),
        }
    }
}

/// A text is that of one value at most: of one set, but for the case of its label, one language tag
/// or none, and the same bytes.
pub fn extended_value_is_unique()
    ensures charset { (text : List ℕ) (a b : Value) → SaysExtended text a → SaysExtended text b → IsNamed (charset_text a.charset) (charset_text b.charset) }
    ensures tag { (text : List ℕ) (a b : Value) → SaysExtended text a → SaysExtended text b → SameTag a.language_tag b.language_tag }
    ensures value { (text : List ℕ) (a b : Value) → SaysExtended text a → SaysExtended text b → a.value.items ≡ b.value.items }
{}
