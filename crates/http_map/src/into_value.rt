//! What a header value is made of.
ghost use Rattle.std.specs.Prelude.{◌≡◌, ◌↔◌, IfOk, IfErr, IsErrOf, decimal, string_bytes};
ghost use Rattle.std.specs.Fmt.{signed_decimal};
ghost use Rattle.http_header.specs.FieldValue.{FieldValue, plain_value, IsFieldValue};

use bytes::Bytes;
use http_header::{HeaderValue, HeaderValueError};
use std::alloc::{AllocError, Global};
use thiserror::Error;

/// Why a header value could not be made.
#[derive(Clone, Copy, Debug, PartialEq, Eq, Error)]
pub enum ValueError {
    /// A byte is neither a tab nor at least 0x20, or is 0x7f.
    #[error("invalid HTTP header value")]
    Invalid,
    /// The allocator had no memory.
    #[error("out of memory")]
    NoMemory,
}

impl From<AllocError> for ValueError {
    ghost use Rattle.std.specs.Prelude.{◌≡◌};
    ghost use Rattle.http_map.specs.declared.into_value.ValueError.TheVariants.{NoMemory};

    ghost from_gives = { λ _ e. e ≡ NoMemory };

    fn from(_e: AllocError) -> ValueError {
        ValueError::NoMemory
    }
}

fn value_error(e: HeaderValueError) -> ValueError
    ensures invalid { (result ≡ ValueError.Invalid) ↔ (e ≡ HeaderValueError.Invalid) }
{
    match e {
        HeaderValueError::Invalid => ValueError::Invalid,
        HeaderValueError::OutOfMemory => ValueError::NoMemory,
    }
}

/// What can be made a header value: a value, text, bytes or a number.
pub trait TryIntoHeaderValue: Drop {
    // The value with these bytes.
    ghost field_value: { Self → FieldValue };

    /// The header value. `Invalid` comes exactly where a byte may stand in none.
    fn try_into_value(self, alloc: Global) -> Result<HeaderValue, ValueError>
        ensures ok { IfOk result (λ v. v ≡ field_value self) }
        ensures invalid { IsErrOf result ValueError.Invalid
            ↔ ¬ (IsFieldValue (field_value self).bytes) };
}

/// Copies a text into a header value. `Invalid` comes exactly where a byte may stand in none.
pub fn value_of_str(alloc: Global, s: &str) -> Result<HeaderValue, ValueError>
    ensures ok { IfOk result (λ v. v ≡ plain_value s.now) }
    ensures invalid { IsErrOf result ValueError.Invalid ↔ ¬ (IsFieldValue s.now) }
{
    value_of_bytes(alloc, s.as_bytes())
}

/// Copies bytes into a header value. `Invalid` comes exactly where a byte may stand in none.
pub fn value_of_bytes(alloc: Global, b: &[u8]) -> Result<HeaderValue, ValueError>
    ensures ok { IfOk result (λ v. v ≡ plain_value b.now) }
    ensures invalid { IsErrOf result ValueError.Invalid ↔ ¬ (IsFieldValue b.now) }
{
    match HeaderValue::from_bytes(alloc, b) {
        Ok(value) => Ok(value),
        Err(e) => Err(value_error(e)),
    }
}

impl TryIntoHeaderValue for HeaderValue {
    ghost field_value = { λ v. v };

    fn try_into_value(self, _alloc: Global) -> Result<HeaderValue, ValueError> {
        Ok(self)
    }
}

impl TryIntoHeaderValue for &HeaderValue {
    ghost field_value = { λ v. v.now };

    fn try_into_value(self, _alloc: Global) -> Result<HeaderValue, ValueError> {
        let _valid = self.as_bytes();
        Ok(self.clone()?)
    }
}

impl TryIntoHeaderValue for Bytes {
    ghost field_value = { plain_value };

    fn try_into_value(self, _alloc: Global) -> Result<HeaderValue, ValueError> {
        HeaderValue::from_shared(self).map_err(|_| ValueError::Invalid)
    }
}

impl TryIntoHeaderValue for Vec<u8> {
    ghost field_value = { λ v. plain_value v.items };

    fn try_into_value(self, _alloc: Global) -> Result<HeaderValue, ValueError> {
        match HeaderValue::from_vec(self) {
            Ok(value) => Ok(value),
            Err(e) => Err(value_error(e)),
        }
    }
}

impl TryIntoHeaderValue for String {
    ghost field_value = { λ s. plain_value (string_bytes s) };

    fn try_into_value(self, _alloc: Global) -> Result<HeaderValue, ValueError> {
        match HeaderValue::from_string(self) {
            Ok(value) => Ok(value),
            Err(e) => Err(value_error(e)),
        }
    }
}

fn value_of_u64(alloc: Global, num: u64) -> Result<HeaderValue, ValueError>
    ensures ok { IfOk result (λ v. v ≡ plain_value (decimal num)) }
    ensures err { IfErr result (λ e. e ≡ ValueError.NoMemory) }
    ensures valid { IsFieldValue (decimal num) }
{
    Ok(HeaderValue::from_u64(alloc, num)?)
}

fn value_of_i64(alloc: Global, num: i64) -> Result<HeaderValue, ValueError>
    ensures ok { IfOk result (λ v. v ≡ plain_value (signed_decimal num)) }
    ensures err { IfErr result (λ e. e ≡ ValueError.NoMemory) }
    ensures valid { IsFieldValue (signed_decimal num) }
{
    Ok(HeaderValue::from_i64(alloc, num)?)
}

impl TryIntoHeaderValue for u64 {
    ghost field_value = { λ n. plain_value (decimal n) };

    fn try_into_value(self, alloc: Global) -> Result<HeaderValue, ValueError>
        ensures ok { IfOk result (λ v. v ≡ plain_value (decimal self)) }
        ensures invalid { IsErrOf result ValueError.Invalid ↔ ¬ (IsFieldValue (decimal self)) }
        ensures number { IfErr result (λ e. e ≡ ValueError.NoMemory) }
    {
        value_of_u64(alloc, self)
    }
}

impl TryIntoHeaderValue for usize {
    ghost field_value = { λ n. plain_value (decimal n) };

    fn try_into_value(self, alloc: Global) -> Result<HeaderValue, ValueError>
        ensures ok { IfOk result (λ v. v ≡ plain_value (decimal self)) }
        ensures invalid { IsErrOf result ValueError.Invalid ↔ ¬ (IsFieldValue (decimal self)) }
        ensures number { IfErr result (λ e. e ≡ ValueError.NoMemory) }
    {
        value_of_u64(alloc, self as u64)
    }
}

impl TryIntoHeaderValue for u32 {
    ghost field_value = { λ n. plain_value (decimal n) };

    fn try_into_value(self, alloc: Global) -> Result<HeaderValue, ValueError>
        ensures ok { IfOk result (λ v. v ≡ plain_value (decimal self)) }
        ensures invalid { IsErrOf result ValueError.Invalid ↔ ¬ (IsFieldValue (decimal self)) }
        ensures number { IfErr result (λ e. e ≡ ValueError.NoMemory) }
    {
        value_of_u64(alloc, u64::from(self))
    }
}

impl TryIntoHeaderValue for i64 {
    ghost field_value = { λ n. plain_value (signed_decimal n) };

    fn try_into_value(self, alloc: Global) -> Result<HeaderValue, ValueError>
        ensures ok { IfOk result (λ v. v ≡ plain_value (signed_decimal self)) }
        ensures invalid { IsErrOf result ValueError.Invalid ↔ ¬ (IsFieldValue (signed_decimal self)) }
        ensures number { IfErr result (λ e. e ≡ ValueError.NoMemory) }
    {
        value_of_i64(alloc, self)
    }
}

impl TryIntoHeaderValue for i32 {
    ghost field_value = { λ n. plain_value (signed_decimal n) };

    fn try_into_value(self, alloc: Global) -> Result<HeaderValue, ValueError>
        ensures ok { IfOk result (λ v. v ≡ plain_value (signed_decimal self)) }
        ensures invalid { IsErrOf result ValueError.Invalid ↔ ¬ (IsFieldValue (signed_decimal self)) }
        ensures number { IfErr result (λ e. e ≡ ValueError.NoMemory) }
    {
        value_of_i64(alloc, i64::from(self))
    }
}
