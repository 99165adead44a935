//! What a header's name and value are made of.
ghost use Rattle.std.specs.Prelude.{◌≡◌, ◌≢◌, ◌↔◌, ℕ, List, IfOk, IfErr, IsErr, IsErrOf, string_bytes};
ghost use Rattle.http_header.specs.Token.{lowercase};
ghost use Rattle.http_header.specs.FieldName.{IsFieldName};
ghost use Rattle.http_header.specs.FieldValue.{FieldValue, IsFieldValue};

use crate::into_value::{TryIntoHeaderValue, ValueError};
use http_header::{HeaderName, HeaderNameError, HeaderValue};
use std::alloc::{AllocError, Global};
use std::marker::Model;
use thiserror::Error;

/// Why a header's name and value could not be made.
#[derive(Clone, Copy, Debug, PartialEq, Eq, Error)]
pub enum InvalidHeaderPart {
    /// The bytes are no header name: a token of at most 65535 bytes (RFC 7230, section 3.2.6).
    #[error("invalid HTTP header name")]
    Name,
    /// The name is valid, and the value is not.
    #[error("invalid HTTP header value")]
    Value,
    /// The allocator had no memory.
    #[error("out of memory")]
    NoMemory,
}

impl From<AllocError> for InvalidHeaderPart {
    ghost use Rattle.std.specs.Prelude.{◌≡◌};
    ghost use Rattle.http_map.specs.declared.into_pair.InvalidHeaderPart.TheVariants.{NoMemory};

    ghost from_gives = { λ _ e. e ≡ NoMemory };

    fn from(_e: AllocError) -> InvalidHeaderPart {
        InvalidHeaderPart::NoMemory
    }
}

/// What can be made a header's name and value. The name is tried before the value.
pub trait TryIntoHeaderPair: Drop {
    // The bytes of the name, in any case.
    ghost name_text: { Self → List ℕ };

    // The value.
    ghost field_value: { Self → FieldValue };

    /// The name, in lower case, and the value.
    fn try_into_pair(self, alloc: Global) -> Result<(HeaderName, HeaderValue), InvalidHeaderPart>
        ensures ok { IfOk result (λ pair. pair ≡ (lowercase (name_text self), field_value self)) }
        ensures name { IsErrOf result InvalidHeaderPart.Name ↔ ¬ (IsFieldName (name_text self)) }
        ensures value_name { IsErrOf result InvalidHeaderPart.Value → IsFieldName (name_text self) }
        ensures value { IsErrOf result InvalidHeaderPart.Value
            → ¬ (IsFieldValue (field_value self).bytes) }
        ensures refused { ¬ (IsFieldValue (field_value self).bytes) → IsErr result };
}

/// A text that is to be a header name.
///
/// A contract sees it as its bytes.
#[derive(Debug, Drop)]
pub struct NameText<'a> {
    name: &'a [u8],
}

impl<'a> Model for NameText<'a> {
    ghost use Rattle.std.specs.Prelude.{ℕ, List};

    ghost Value = { List ℕ };

    ghost view = { λ t. t.name.now };
}

impl<'a> NameText<'a> {
    /// The text as it is. It is tried where a pair is made of it.
    pub fn new(name: &'a [u8]) -> NameText<'a>
        ensures { result ≡ name.entry.now }
    {
        NameText { name }
    }
}

fn pair_of<V: TryIntoHeaderValue>(
    alloc: Global,
    name: HeaderName,
    value: V,
) -> Result<(HeaderName, HeaderValue), InvalidHeaderPart>
    ensures ok { IfOk result (λ pair. pair ≡ (name, V.field_value value)) }
    ensures name { IfErr result (λ e. e ≢ InvalidHeaderPart.Name) }
    ensures value { IsErrOf result InvalidHeaderPart.Value
        ↔ ¬ (IsFieldValue (V.field_value value).bytes) }
{
    match value.try_into_value(alloc) {
        Ok(value) => Ok((name, value)),
        Err(ValueError::Invalid) => Err(InvalidHeaderPart::Value),
        Err(ValueError::NoMemory) => Err(InvalidHeaderPart::NoMemory),
    }
}

fn pair_of_text<V: TryIntoHeaderValue>(
    alloc: Global,
    name: &[u8],
    value: V,
) -> Result<(HeaderName, HeaderValue), InvalidHeaderPart>
    ensures ok { IfOk result (λ pair. pair ≡ (lowercase name.now, V.field_value value)) }
    ensures name { IsErrOf result InvalidHeaderPart.Name ↔ ¬ (IsFieldName name.now) }
    ensures value_name { IsErrOf result InvalidHeaderPart.Value → IsFieldName name.now }
    ensures value { IsErrOf result InvalidHeaderPart.Value
        → ¬ (IsFieldValue (V.field_value value).bytes) }
    ensures refused { ¬ (IsFieldValue (V.field_value value).bytes) → IsErr result }
{
    match HeaderName::from_bytes(alloc, name) {
        Ok(name) => pair_of(alloc, name, value),
        Err(HeaderNameError::Invalid) => Err(InvalidHeaderPart::Name),
        Err(HeaderNameError::OutOfMemory) => Err(InvalidHeaderPart::NoMemory),
    }
}

impl<V: TryIntoHeaderValue> TryIntoHeaderPair for (HeaderName, V) {
    ghost name_text = { λ p. p.0 };

    ghost field_value = { λ p. V.field_value p.1 };

    fn try_into_pair(self, alloc: Global) -> Result<(HeaderName, HeaderValue), InvalidHeaderPart>
        ensures ok { IfOk result (λ pair. pair ≡ (lowercase self.0, V.field_value self.1)) }
        ensures name { IsErrOf result InvalidHeaderPart.Name ↔ ¬ (IsFieldName self.0) }
        ensures value_name { IsErrOf result InvalidHeaderPart.Value → IsFieldName self.0 }
        ensures value { IsErrOf result InvalidHeaderPart.Value
            → ¬ (IsFieldValue (V.field_value self.1).bytes) }
        ensures refused { ¬ (IsFieldValue (V.field_value self.1).bytes) → IsErr result }
        ensures named { IfErr result (λ e. e ≢ InvalidHeaderPart.Name) }
    {
        let (name, value) = self;
        let _valid = name.as_bytes();
        pair_of(alloc, name, value)
    }
}

impl<V: TryIntoHeaderValue> TryIntoHeaderPair for (&HeaderName, V) {
    ghost name_text = { λ p. p.0.now };

    ghost field_value = { λ p. V.field_value p.1 };

    fn try_into_pair(self, alloc: Global) -> Result<(HeaderName, HeaderValue), InvalidHeaderPart>
        ensures ok { IfOk result (λ pair. pair
            ≡ (lowercase self.entry.0.now, V.field_value self.entry.1)) }
        ensures name { IsErrOf result InvalidHeaderPart.Name ↔ ¬ (IsFieldName self.entry.0.now) }
        ensures value_name { IsErrOf result InvalidHeaderPart.Value → IsFieldName self.entry.0.now }
        ensures value { IsErrOf result InvalidHeaderPart.Value
            → ¬ (IsFieldValue (V.field_value self.entry.1).bytes) }
        ensures refused { ¬ (IsFieldValue (V.field_value self.entry.1).bytes) → IsErr result }
        ensures named { IfErr result (λ e. e ≢ InvalidHeaderPart.Name) }
    {
        let (name, value) = self;
        let _valid = name.as_bytes();
        pair_of(alloc, name.clone()?, value)
    }
}

impl<V: TryIntoHeaderValue> TryIntoHeaderPair for (String, V) {
    ghost name_text = { λ p. string_bytes p.0 };

    ghost field_value = { λ p. V.field_value p.1 };

    fn try_into_pair(self, alloc: Global) -> Result<(HeaderName, HeaderValue), InvalidHeaderPart> {
        let (name, value) = self;
        pair_of_text(alloc, name.as_bytes(), value)
    }
}

impl<'a, V: TryIntoHeaderValue> TryIntoHeaderPair for (NameText<'a>, V) {
    ghost name_text = { λ p. p.0 };

    ghost field_value = { λ p. V.field_value p.1 };

    fn try_into_pair(self, alloc: Global) -> Result<(HeaderName, HeaderValue), InvalidHeaderPart> {
        let (name, value) = self;
        pair_of_text(alloc, name.name, value)
    }
}
