//! The request line.
ghost use Rattle.std.specs.Prelude.{◌≡◌, ◌++◌, ◌∷◌, ◌+◌, ◌≤◌, codes, [], length, OnOk, OnErr};
ghost use Rattle.http_uri.specs.Grammar.{path_and_query_text};
ghost use Rattle.h1_encoder.specs.RequestLines.{request_words};
ghost use Rattle.h1_encoder.specs.RequestMeaning.{asked_head, asked_minor, target_of};

use bytes::BytesMut;
use http_types::{NoMemory, RequestHead, Uri, Version};
use std::alloc::AllocError;

/// Puts the method, the target and the version, without a line end (RFC 7230, section 3.1.1).
pub(crate) fn put_request_words(out: &mut BytesMut, head: &RequestHead) -> Result<(), NoMemory>
    requires { asked_minor head.now.version ≤ 1 }
    ensures ok { OnOk result (out.new.items ≡ out.old.items ++ request_words (asked_head head.now)) }
    ensures err { OnErr result (out.new.items ≡ out.old.items) }
{
    let method = head.method.as_str().as_bytes();
    let target = target(&head.uri);
    let version = version_words(minor_of(head.version));
    let Some(len) = method.len().checked_add(target.len()) else {
        return Err(AllocError);
    };
    let Some(len) = len.checked_add(11) else {
        return Err(AllocError);
    };
    out.reserve(len)?;
    out.extend_reserved(method);
    out.extend_reserved(b" ");
    out.extend_reserved(missing_path(target));
    out.extend_reserved(target);
    out.extend_reserved(&version);
    Ok(())
}

// The path and the query as the URI has them.
#[tactic(auto, using(crate::proofs::Slashes::once))]
fn target(uri: &Uri) -> &[u8]
    ensures { path_and_query_text result.now ≡ target_of uri.now }
{
    match uri.path_and_query() {
        Some(text) => text.as_str().as_bytes(),
        None => b"",
    }
}

// The slash that stands for an empty path before a query (RFC 9112, section 3.2.1).
fn missing_path(target: &[u8]) -> &'static [u8]
    ensures value { result.now ++ target.now ≡ path_and_query_text target.now }
    ensures short { length result.now ≤ 1 }
{
    match target.first() {
        Some(b'/' | b'*') => b"",
        _ => b"/",
    }
}

// What the request line has after its target.
fn version_words(minor: u8) -> [u8; 9]
    requires { minor ≤ 1 }
    ensures { result ≡ codes " HTTP/1." ++ ((48 + minor) ∷ []) }
{
    [b' ', b'H', b'T', b'T', b'P', b'/', b'1', b'.', b'0' + minor]
}

/// The minor number of HTTP/1.0 and 1.1, and 2 for any other version.
pub(crate) fn minor_of(version: Version) -> u8
    ensures { result ≡ asked_minor version }
{
    if version == Version::HTTP_11 {
        1
    } else if version == Version::HTTP_10 {
        0
    } else {
        2
    }
}
