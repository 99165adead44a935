//! The judgement of a head.
ghost use Rattle.std.specs.Prelude.{◌≡◌};
ghost use Rattle.http_uri.specs.Uri.{uri_scheme, uri_authority};
ghost use Rattle.h1_strict.specs.Judgement.{judgement, first_doubt, host_doubt, value_doubt, target_doubt, body_doubt, option_doubt, upgrade_doubt, upgrade_body_doubt, has_no_body, connection_doubt, fits_authority, is_absolute, fits_method, is_framed, is_raw, is_zero, are_zero};

use crate::doubt::HeadDoubt;
use crate::host::{has_byte, has_port, is_host};
use crate::options::lists;
use h1_decoder::{BodyKind, HeadItem};
use http_header::HeaderValue;
use http_types::header::{CONNECTION, CONTENT_LENGTH, HOST, UPGRADE};
use http_types::{ConnectionType, RequestHead, Uri, Version};

/// The first doubt about a head that was read, in the order of `HeadDoubt`. It takes no memory, and looks at each byte of
/// a few lines a bounded number of times.
pub fn check_head(item: &HeadItem) -> Result<(), HeadDoubt>
    ensures { result ≡ judgement (first_doubt item.now) }
{
    match doubt_of(item) {
        Some(doubt) => Err(doubt),
        None => Ok(()),
    }
}

fn doubt_of(item: &HeadItem) -> Option<HeadDoubt>
    ensures { result ≡ first_doubt item.now }
{
    if let Some(doubt) = host_doubt(&item.head) {
        return Some(doubt);
    }
    if let Some(doubt) = target_doubt(item) {
        return Some(doubt);
    }
    if let Some(doubt) = body_doubt(item) {
        return Some(doubt);
    }
    if let Some(doubt) = upgrade_doubt(item) {
        return Some(doubt);
    }
    connection_doubt(&item.head)
}

fn host_doubt(head: &RequestHead) -> Option<HeadDoubt>
    ensures { result ≡ host_doubt head.now }
{
    match head.headers.get_all(HOST).as_slice() {
        [] if head.version < Version::HTTP_11 => None,
        [] => Some(HeadDoubt::HostMissing),
        [value] => value_doubt(&head.uri, value.as_bytes()),
        _ => Some(HeadDoubt::HostRepeated),
    }
}

fn value_doubt(uri: &Uri, host: &[u8]) -> Option<HeadDoubt>
    ensures { result ≡ value_doubt uri.now host.now }
{
    if !is_host(host) {
        Some(HeadDoubt::HostInvalid)
    } else if fits_authority(uri, host) {
        None
    } else {
        Some(HeadDoubt::HostOther)
    }
}

fn fits_authority(uri: &Uri, host: &[u8]) -> bool
    ensures { result ≡ fits_authority (uri_scheme uri.now) (uri_authority uri.now) host.now }
{
    match (uri.scheme_str(), uri.authority()) {
        (Some(_), Some(authority)) => authority.as_str().as_bytes().eq_ignore_ascii_case(host),
        _ => true,
    }
}

fn target_doubt(item: &HeadItem) -> Option<HeadDoubt>
    ensures { result ≡ target_doubt item.now }
{
    let method = item.head.method.as_str();
    if fits_method(method, item.target.as_slice(), is_absolute(&item.head.uri)) {
        None
    } else {
        Some(HeadDoubt::TargetForm)
    }
}

fn is_absolute(uri: &Uri) -> bool
    ensures { result ≡ is_absolute (uri_scheme uri.now) (uri_authority uri.now) }
{
    match (uri.scheme_str(), uri.authority()) {
        (None, _) => false,
        (Some(_), None) => true,
        (Some(_), Some(authority)) => authority.as_str().as_bytes().first() != Some(&b':'),
    }
}

fn fits_method(method: &str, target: &[u8], is_uri: bool) -> bool
    ensures { result ≡ fits_method method.now target.now is_uri }
{
    if has_byte(target, b'#') {
        false
    } else if method == "CONNECT" {
        is_host(target) && has_port(target)
    } else if target == b"*".as_slice() {
        method == "OPTIONS"
    } else {
        target.first() == Some(&b'/') || is_uri
    }
}

fn body_doubt(item: &HeadItem) -> Option<HeadDoubt>
    ensures { result ≡ body_doubt item.now }
{
    if item.head.method.as_str() == "CONNECT" && is_framed(item.body) {
        Some(HeadDoubt::ConnectBody)
    } else {
        None
    }
}

fn is_framed(body: BodyKind) -> bool
    ensures { result ≡ is_framed body }
{
    matches!(body, BodyKind::Length(_) | BodyKind::Chunked)
}

fn upgrade_doubt(item: &HeadItem) -> Option<HeadDoubt>
    ensures { result ≡ upgrade_doubt item.now }
{
    if !lists(item.head.headers.get_all(UPGRADE).as_slice(), b"websocket") {
        return None;
    }
    if let Some(doubt) = option_doubt(&item.head) {
        return Some(doubt);
    }
    upgrade_body_doubt(item)
}

fn upgrade_body_doubt(item: &HeadItem) -> Option<HeadDoubt>
    ensures { result ≡ upgrade_body_doubt item.now }
{
    if is_raw(item.body) && !has_no_body(&item.head) {
        Some(HeadDoubt::UpgradeBody)
    } else {
        None
    }
}

fn has_no_body(head: &RequestHead) -> bool
    ensures { result ≡ has_no_body head.now }
{
    head.method.as_str() == "GET" && are_zero(head.headers.get_all(CONTENT_LENGTH).as_slice())
}

fn is_raw(body: BodyKind) -> bool
    ensures { result ≡ is_raw body }
{
    matches!(body, BodyKind::Raw)
}

fn are_zero(lengths: &[HeaderValue]) -> bool
    ensures { result ≡ are_zero lengths.now }
{
    let mut rest = lengths;
    while let Some((length, tail)) = rest.split_first() {
        if !is_zero(length.as_bytes()) {
            return false;
        }
        rest = tail;
    }
    true
}

fn is_zero(text: &[u8]) -> bool
    ensures { result ≡ is_zero text.now }
{
    let mut rest = text;
    while let Some((byte, tail)) = rest.split_first() {
        if *byte != b'0' {
            return false;
        }
        rest = tail;
    }
    true
}

fn option_doubt(head: &RequestHead) -> Option<HeadDoubt>
    ensures { result ≡ option_doubt head.now }
{
    if head.version < Version::HTTP_11 {
        Some(HeadDoubt::UpgradeVersion)
    } else if lists(head.headers.get_all(CONNECTION).as_slice(), b"upgrade") {
        None
    } else {
        Some(HeadDoubt::UpgradeOption)
    }
}

fn connection_doubt(head: &RequestHead) -> Option<HeadDoubt>
    ensures { result ≡ connection_doubt head.now }
{
    let taken = head.connection_type();
    if !matches!(taken, ConnectionType::Close)
        && lists(head.headers.get_all(CONNECTION).as_slice(), b"close")
    {
        Some(HeadDoubt::CloseAmongOthers)
    } else if !matches!(taken, ConnectionType::Upgrade)
        && lists(head.headers.get_all(CONNECTION).as_slice(), b"upgrade")
    {
        Some(HeadDoubt::UpgradeAmongOthers)
    } else {
        None
    }
}
