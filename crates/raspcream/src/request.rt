//! A request as C hands it in.
ghost use Rattle.std.specs.Prelude.{◌≡◌, ◌%◌, IfOk, IfErr};
ghost use Rattle.http_header.specs.Token.{IsToken};
ghost use Rattle.http_uri.specs.Uri.{Spells, SpellsNone};
ghost use Rattle.http_types.specs.Flags.{no_flags};
ghost use Rattle.http_types.specs.RequestHead.{request_flags, HasRequestFlags};
ghost use Rattle.h1_client.specs.ClientMeaning.{request_of};
ghost use Rattle.raspcream.specs.Named.{NamesRequest, IsRequestText, flags_with, version_said};
ghost use Rattle.raspcream.specs.Refused.{FailsBy};

use crate::fields::{read_fields, take_pair};
use crate::reply::Failure;
use bytes::Bytes;
use http::Method;
use http::method::MethodError;
use http_types::{ConnectionType, HeaderMap, RequestHead, Uri, Version};
use http_uri::UriError;
use std::alloc::Global;

fn method_of(alloc: Global, text: &[u8]) -> Result<Method, Failure>
    ensures ok { IfOk result (λ method. method ≡ text.now) }
    ensures why { IfErr result (FailsBy (¬ (IsToken text.now))) }
{
    match Method::from_bytes(alloc, text) {
        Ok(method) => Ok(method),
        Err(MethodError::Invalid) => Err(Failure::Invalid),
        Err(MethodError::OutOfMemory) => Err(Failure::NoMemory),
    }
}

fn uri_of(alloc: Global, text: &[u8]) -> Result<Uri, Failure>
    ensures ok { IfOk result (λ uri. Spells text.now uri) }
    ensures why { IfErr result (FailsBy (SpellsNone text.now)) }
{
    let Ok(text) = Bytes::copy_from_slice(alloc, text) else {
        return Err(Failure::NoMemory);
    };
    match Uri::from_shared(text) {
        Ok(uri) => Ok(uri),
        Err(UriError::OutOfMemory) => Err(Failure::NoMemory),
        Err(UriError::Invalid(_)) => Err(Failure::Invalid),
    }
}

// The version: HTTP/1.0 where the number is 1.
fn version_of(older: u32) -> Version
    ensures { result ≡ version_said older }
{
    if older == 1 {
        Version::HTTP_10
    } else {
        Version::HTTP_11
    }
}

// What becomes of the connection.
fn mark(head: &mut RequestHead, keep: u32)
    ensures { HasRequestFlags head.old head.new (flags_with keep (request_flags head.old)) }
{
    if keep == 1 {
        head.set_connection_type(ConnectionType::Close);
    } else if keep == 2 {
        head.set_connection_type(ConnectionType::KeepAlive);
    } else if keep == 3 {
        head.set_connection_type(ConnectionType::Upgrade);
    }
}

// The head with these parts.
fn head_with(
    method: Method,
    uri: Uri,
    version: Version,
    headers: HeaderMap,
    keep: u32,
) -> RequestHead
    ensures method { result.method ≡ method }
    ensures uri { result.uri ≡ uri }
    ensures version { result.version ≡ version }
    ensures headers { result.headers ≡ headers }
    ensures flags { request_flags result ≡ flags_with keep no_flags }
{
    let mut head = RequestHead::from_parts(method, uri, version, headers);
    mark(&mut head, keep);
    head
}

/// The head that C names: the first pair of `text` is the method and the target, the others are header lines. The lowest bit
/// of `arg` says that it is of HTTP/1.0, and bits 10 and 11 what becomes of the connection.
pub fn request_head_of(alloc: Global, arg: u32, text: &[u8]) -> Result<RequestHead, Failure>
    ensures ok { IfOk result (λ head. NamesRequest arg text.now (request_of head)) }
    ensures why { IfErr result (FailsBy (IsRequestText text.now → ⊥)) }
{
    let Some(first) = take_pair(text) else {
        return Err(Failure::Invalid);
    };
    let method = method_of(alloc, first.name)?;
    let uri = uri_of(alloc, first.value)?;
    let headers = read_fields(alloc, first.rest)?;
    let version = version_of(arg % 2);
    Ok(head_with(method, uri, version, headers, (arg / 1024) % 4))
}
