//! Header lines as C hands them in: for each the lengths of its name and of its value, four bytes each with the lowest
//! first, then the name, then the value.
ghost use Rattle.std.specs.Prelude.{◌≡◌, ◌+◌, ◌≤◌, List, ℕ, length, IfSome, IsNone, IfOk, IfErr, OnOk};
ghost use Rattle.std.specs.Int.{w32, from_le_bytes};
ghost use Rattle.http_header.specs.FieldName.{IsFieldName};
ghost use Rattle.http_header.specs.FieldValue.{IsFieldValue, plain_value};
ghost use Rattle.http_header.specs.Token.{lowercase};
ghost use Rattle.http_map.specs.HeaderMap.{append};
ghost use Rattle.raspcream.specs.Packed.{number_at, IsPair, IsFilled, AreNoLines};
ghost use Rattle.raspcream.specs.Refused.{FailsBy};

use crate::reply::Failure;
use http_header::{HeaderName, HeaderNameError, HeaderValue, HeaderValueError};
use http_map::HeaderMap;
use std::alloc::Global;

/// A name, its value, and what follows.
#[derive(Clone, Copy)]
pub struct Taken<'a> {
    pub name: &'a [u8],
    pub value: &'a [u8],
    pub rest: &'a [u8],
}

fn number_of(bytes: [u8; 4]) -> usize
    ensures { result ≡ from_le_bytes w32 bytes }
{
    u32::from_le_bytes(bytes) as usize
}

// The length that stands at this place.
fn length_at(text: &[u8], at: usize) -> usize
    requires { at + 4 ≤ length text.now }
    ensures { result ≡ number_at text.now at }
{
    number_of([text[at], text[at + 1], text[at + 2], text[at + 3]])
}

/// The first pair, if the text has a whole one.
pub fn take_pair<'a>(text: &'a [u8]) -> Option<Taken<'a>>
    ensures some { IfSome result (λ t. IsPair text.now t.name.now t.value.now t.rest.now) }
    ensures none { IsNone result → (first second rest : List ℕ) → IsPair text.now first second rest → ⊥ }
{
    if text.len() < 8 {
        return None;
    }
    let name_len = length_at(text, 0);
    let value_len = length_at(text, 4);
    let parts = &text[8..];
    if name_len > parts.len() {
        return None;
    }
    let (name, parts) = parts.split_at(name_len);
    if value_len > parts.len() {
        return None;
    }
    let (value, rest) = parts.split_at(value_len);
    Some(Taken { name, value, rest })
}

fn name_of(alloc: Global, text: &[u8]) -> Result<HeaderName, Failure>
    ensures name { IfOk result (λ name. name ≡ lowercase text.now) }
    ensures valid { OnOk result (IsFieldName text.now) }
    ensures why { IfErr result (FailsBy (¬ (IsFieldName text.now))) }
{
    match HeaderName::from_bytes(alloc, text) {
        Ok(name) => Ok(name),
        Err(HeaderNameError::Invalid) => Err(Failure::Invalid),
        Err(HeaderNameError::OutOfMemory) => Err(Failure::NoMemory),
    }
}

fn value_of(alloc: Global, text: &[u8]) -> Result<HeaderValue, Failure>
    ensures value { IfOk result (λ value. value ≡ plain_value text.now) }
    ensures valid { OnOk result (IsFieldValue text.now) }
    ensures why { IfErr result (FailsBy (¬ (IsFieldValue text.now))) }
{
    match HeaderValue::from_bytes(alloc, text) {
        Ok(value) => Ok(value),
        Err(HeaderValueError::Invalid) => Err(Failure::Invalid),
        Err(HeaderValueError::OutOfMemory) => Err(Failure::NoMemory),
    }
}

// Puts the line behind those of its name.
fn put(alloc: Global, map: &mut HeaderMap, name: &[u8], value: &[u8]) -> Result<(), Failure>
    ensures put { OnOk result (map.new ≡ append map.old (lowercase name.now) (plain_value value.now)) }
    ensures name { OnOk result (IsFieldName name.now) }
    ensures value { OnOk result (IsFieldValue value.now) }
    ensures why { IfErr result (FailsBy (IsFieldName name.now → IsFieldValue value.now → ⊥)) }
{
    let name = name_of(alloc, name)?;
    let value = value_of(alloc, value)?;
    match map.append(name, value) {
        Ok(()) => Ok(()),
        Err(_) => Err(Failure::NoMemory),
    }
}

/// The lines of the text, in a map.
pub fn read_fields(alloc: Global, text: &[u8]) -> Result<HeaderMap, Failure>
    ensures ok { IfOk result (λ map. IsFilled text.now map) }
    ensures why { IfErr result (FailsBy (AreNoLines text.now)) }
{
    let mut map = HeaderMap::new(alloc);
    let mut rest = text;
    while !rest.is_empty() {
        let Some(taken) = take_pair(rest) else {
            return Err(Failure::Invalid);
        };
        put(alloc, &mut map, taken.name, taken.value)?;
        rest = taken.rest;
    }
    Ok(map)
}
