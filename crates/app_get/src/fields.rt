//! The user's own fields of a request.
ghost use Rattle.std.specs.Prelude.{◌≡◌, OnOk, IfOk, IfSome};
ghost use Rattle.http_header.specs.FieldValue.{plain_value};
ghost use Rattle.http_header.specs.Token.{lowercase};
ghost use Rattle.http_map.specs.HeaderMap.{keys, pairs, append_all};
ghost use Rattle.app_get.specs.Heads.{is_own, name_part, value_part, remove_all, with_fields, AddsField};

use crate::options::UsageError;
use http_header::HeaderNameError;
use http_types::header::{HOST, ValueError, value_of_str};
use http_types::{HeaderMap, HeaderName, HeaderValue, NoMemory};
use std::alloc::Global;

/// Adds a field that is given as `NAME: VALUE`. What frames a body or says whether the connection is kept isn't taken, since the
/// connection writes that itself, nor is a second Host (RFC 9112, section 3.2).
pub fn add_field(alloc: Global, fields: &mut HeaderMap, text: &str) -> Result<(), UsageError>
    ensures { OnOk result (AddsField fields.old text.now fields.new) }
{
    let Some((name, value)) = cut(text) else {
        return Err(UsageError::Field);
    };
    let name = name_of(alloc, name)?;
    if is_own(&name) {
        return Err(UsageError::OwnField);
    }
    if name == HOST && fields.contains_key(HOST) {
        return Err(UsageError::TwoHosts);
    }
    let value = field_value(alloc, value)?;
    match fields.append(name, value) {
        Ok(()) => Ok(()),
        Err(_) => Err(UsageError::NoMemory),
    }
}

// The name, and the value without the blanks around it.
fn cut(text: &str) -> Option<(&str, &str)>
    ensures { IfSome result (λ x. (x.0.now ≡ name_part text.now) × (x.1.now ≡ value_part text.now)) }
{
    match text.split_once(':') {
        Some((name, value)) => Some((name, value.trim())),
        None => None,
    }
}

fn name_of(alloc: Global, name: &str) -> Result<HeaderName, UsageError>
    ensures { IfOk result (λ made. made ≡ lowercase name.now) }
{
    match HeaderName::from_bytes(alloc, name.as_bytes()) {
        Ok(name) => Ok(name),
        Err(HeaderNameError::Invalid) => Err(UsageError::Field),
        Err(_) => Err(UsageError::NoMemory),
    }
}

fn field_value(alloc: Global, value: &str) -> Result<HeaderValue, UsageError>
    ensures { IfOk result (λ made. made ≡ plain_value value.now) }
{
    match value_of_str(alloc, value) {
        Ok(value) => Ok(value),
        Err(ValueError::Invalid) => Err(UsageError::Field),
        Err(_) => Err(UsageError::NoMemory),
    }
}

// Whether the connection writes a field of this name itself.
fn is_own(name: &HeaderName) -> bool
    ensures { result ≡ is_own name.now }
{
    let name = name.as_bytes();
    name == b"connection".as_slice()
        || name == b"content-length".as_slice()
        || name == b"transfer-encoding".as_slice()
}

/// Puts the fields behind the others, in place of those of the same name.
pub fn put_fields(headers: &mut HeaderMap, fields: &HeaderMap) -> Result<(), NoMemory>
    ensures { OnOk result (headers.new ≡ with_fields fields.now headers.old) }
{
    remove_all(headers, fields);
    append_all(headers, fields)
}

fn remove_all(headers: &mut HeaderMap, fields: &HeaderMap)
    ensures { headers.new ≡ remove_all headers.old (keys fields.now) }
{
    for name in fields.keys() {
        headers.remove(name);
    }
}

fn append_all(headers: &mut HeaderMap, fields: &HeaderMap) -> Result<(), NoMemory>
    ensures { OnOk result (headers.new ≡ append_all headers.old (pairs fields.now)) }
{
    for (name, value) in fields.iter() {
        headers.append(name.clone()?, value.clone()?)?;
    }
    Ok(())
}
