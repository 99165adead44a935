//! Which heads are refused though they were read (RFC 9112, section 3.2).
ghost use Rattle.std.specs.Prelude.{◌≡◌, codes};
ghost use Rattle.http_map.specs.HeaderMap.{get_all};
ghost use Rattle.http_types.specs.Version.{is_below_http11};
ghost use Rattle.model_h1.specs.Request.{Head};
ghost use Rattle.h1_decoder.specs.HeadItem.{SaysHead};
ghost use Rattle.model_proxy.specs.Targets.{authority_of};
ghost use Rattle.model_proxy.specs.Judged.{are_bytes_right, is_form_right, is_authority_right, is_refused};
ghost use Rattle.proxy_heads.specs.Edges.{edge_of, values_right, is_item_right};

use crate::edge::Edge;
use crate::targets::{authority_of, has_scheme, is_asterisk, names_host};
use h1_decoder::HeadItem;
use h1_strict::is_host;
use http_map::HOST;
use http_types::{RequestHead, Version};

/// Whether the head gets `Refusal::BadHead`, after which the connection closes: RFC 9112 says that it must be refused,
/// and the edge isn't lax. HTTP/1.1 has one Host line, and HTTP/1.0 one or none, that says a host; the target is ASCII
/// without a fragment, and has a form that fits the method; and where it has an authority, that is a host without a user.
pub fn is_refused(edge: &Edge, item: &HeadItem) -> bool
    ensures { (h : Head) → SaysHead item.now h → result ≡ is_refused (edge_of edge.now) h }
{
    if edge.is_lax {
        return false;
    }
    let is_right = is_right(item);
    !is_right
}

fn is_right(item: &HeadItem) -> bool
    ensures { result ≡ is_item_right item.now }
{
    if !are_hosts_right(&item.head) {
        return false;
    }
    let target = item.target.as_slice();
    if !are_bytes_right(target) {
        return false;
    }
    if !is_form_right(item.head.method.as_str(), target) {
        return false;
    }
    is_authority_right(target)
}

fn are_hosts_right(head: &RequestHead) -> bool
    ensures { result ≡ values_right (is_below_http11 head.now.version) (get_all head.now.headers (codes "host")) }
{
    match head.headers.get_all(HOST).as_slice() {
        [] => head.version < Version::HTTP_11,
        [value] => is_host(value.as_bytes()),
        _ => false,
    }
}

fn are_bytes_right(target: &[u8]) -> bool
    ensures { result ≡ are_bytes_right target.now }
{
    target.iter().all(|byte| *byte < 128 && *byte != b'#')
}

fn is_form_right(method: &str, target: &[u8]) -> bool
    ensures { result ≡ is_form_right method.now target.now }
{
    if method == "CONNECT" {
        true
    } else if is_asterisk(target) {
        method == "OPTIONS"
    } else if target.starts_with(b"/") {
        true
    } else {
        has_scheme(target)
    }
}

fn is_authority_right(target: &[u8]) -> bool
    ensures { result ≡ is_authority_right (authority_of target.now) }
{
    match authority_of(target) {
        Some(authority) => names_host(authority),
        None => true,
    }
}
