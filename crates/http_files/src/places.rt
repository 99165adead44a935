//! The place that a client is sent to.
ghost use Rattle.std.specs.Prelude.{◌≡◌, ◌++◌, ◌⊎◌, true, false, IfOk, IfErr, OnOk};
ghost use Rattle.std.specs.String.{string_bytes};
ghost use Rattle.http_files.specs.Places.{folder_place, is_unsafe, has_unsafe, query_text};
ghost use Rattle.http_files.specs.declared.error.PathError.TheVariants as path_error;

use crate::PathError;
use std::alloc::Global;

/// The place of a folder, to which the client is sent that asked for it without a slash at its end (RFC 7231, section
/// 7.1.2): its path with one slash at the front, so that it names no other host (RFC 3986, section 4.2), and with one at
/// the end, and then the query. A target that ends with a slash gets one more, so who has one needs no place.
///
/// `Malformed` where the target has a backslash, which some clients take for a slash, or a control byte, which some leave
/// out, and `NoMemory`.
pub fn place_of(alloc: Global, target: &str, query: Option<&str>) -> Result<String, PathError>
    ensures ok { IfOk result (λ place. string_bytes place ≡ folder_place target.now ++ query_text query.entry) }
    ensures is_safe { OnOk result (has_unsafe target.now ≡ false) }
    ensures err { IfErr result (λ e. (e ≡ path_error.NoMemory) ⊎ ((e ≡ path_error.Malformed) × (has_unsafe target.now ≡ true))) }
{
    if has_unsafe(target.as_bytes()) {
        return Err(PathError::Malformed);
    }
    let mut place = String::from_str(alloc, "/")?;
    for name in target.split('/').skip_while(|name| name.is_empty()) {
        place.push_str(name)?;
        place.push_str("/")?;
    }
    append_query(&mut place, query)?;
    Ok(place)
}

// Whether there is a backslash or a control byte.
fn has_unsafe(text: &[u8]) -> bool
    ensures { result ≡ has_unsafe text.now }
{
    let mut rest = text;
    while let Some((byte, tail)) = rest.split_first() {
        if is_unsafe(*byte) {
            return true;
        }
        rest = tail;
    }
    false
}

// Whether it is a backslash or a control byte.
fn is_unsafe(byte: u8) -> bool
    ensures { result ≡ is_unsafe byte }
{
    byte < 32 || byte == b'\\' || byte == 127
}

// Appends a question mark and a query, where there is one.
fn append_query(place: &mut String, query: Option<&str>) -> Result<(), PathError>
    ensures ok { OnOk result (string_bytes place.new ≡ string_bytes place.old ++ query_text query.entry) }
    ensures err { IfErr result (λ e. e ≡ path_error.NoMemory) }
{
    if let Some(query) = query {
        place.push_str("?")?;
        place.push_str(query)?;
    }
    Ok(())
}
