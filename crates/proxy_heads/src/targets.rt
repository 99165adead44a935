//! The forms of a request's target (RFC 9112, section 3.2).
ghost use Rattle.std.specs.Prelude.{◌≡◌, ◌≤◌, ◌==◌, length, Some, None, MatchOption};
ghost use Rattle.std.specs.List.{position};
ghost use Rattle.http_uri.specs.ByteClasses.{is_scheme_byte, is_delimiter};
ghost use Rattle.http_uri.specs.Grammar.{scheme_len, authority_len, without_fragment};
ghost use Rattle.model_proxy.specs.Targets.{has_scheme, behind_http, authority_of, is_asterisk, names_host, is_at_host, is_servable, has_no_path, asks_for_all};
ghost use Rattle.proxy_heads.specs.Edges.{is_no_scheme_byte};

use h1_strict::is_host;

/// Whether a server can be asked for the target: a path, a whole URI of `http` that names a host, or `*` by OPTIONS.
pub(crate) fn is_servable(method: &str, target: &[u8]) -> bool
    ensures { result ≡ is_servable method.now target.now }
{
    if target.starts_with(b"/") {
        return true;
    }
    if is_at_host(target) {
        return true;
    }
    is_asterisk(target) && method == "OPTIONS"
}

// Whether it is a whole URI of `http` that names a host.
fn is_at_host(target: &[u8]) -> bool
    ensures { result ≡ is_at_host (authority_of target.now) }
{
    match authority_of(target) {
        Some(authority) => names_host(authority),
        None => false,
    }
}

/// Whether the authority is a host with or without a port, and has no user.
pub(crate) fn names_host(authority: &[u8]) -> bool
    ensures { result ≡ names_host authority.now }
{
    !authority.is_empty() && is_host(authority)
}

/// Whether the whole server is asked for: by OPTIONS of a URI that has neither a path nor a query.
pub(crate) fn asks_for_all(method: &str, target: &[u8]) -> bool
    ensures { result ≡ asks_for_all method.now target.now }
{
    method == "OPTIONS" && has_no_path(target)
}

fn has_no_path(target: &[u8]) -> bool
    ensures { result ≡ has_no_path (behind_http target.now) }
{
    match behind_http(target) {
        Some(rest) => {
            let (_, tail) = rest.split_at(authority_len(rest));
            keeps_nothing(tail)
        }
        None => false,
    }
}

// Whether nothing is left of it without its fragment.
fn keeps_nothing(tail: &[u8]) -> bool
    ensures { result ≡ (length (without_fragment tail.now) == 0) }
{
    match tail.first() {
        Some(byte) => *byte == b'#',
        None => true,
    }
}

/// Whether the target is `*`.
pub(crate) fn is_asterisk(target: &[u8]) -> bool
    ensures { result ≡ is_asterisk target.now }
{
    target == b"*".as_slice()
}

/// Whether a scheme and `://` come first.
pub(crate) fn has_scheme(target: &[u8]) -> bool
    ensures { result ≡ has_scheme target.now }
{
    let len = scheme_len(target);
    let (_, rest) = target.split_at(len);
    match rest.strip_prefix(b"://") {
        Some(_) => len > 0,
        None => false,
    }
}

/// The authority of a whole URI of `http`.
pub(crate) fn authority_of(target: &[u8]) -> Option<&[u8]>
    ensures { MatchOption result (authority_of target.now ≡ None) (λ authority. authority_of target.now ≡ Some authority.now) }
{
    match behind_http(target) {
        Some(rest) => {
            let (authority, _) = rest.split_at(authority_len(rest));
            Some(authority)
        }
        None => None,
    }
}

// What stands behind `http://`, where the target begins so.
fn behind_http(target: &[u8]) -> Option<&[u8]>
    ensures { MatchOption result (behind_http target.now ≡ None) (λ rest. behind_http target.now ≡ Some rest.now) }
{
    let (scheme, rest) = target.split_at(scheme_len(target));
    let is_http = scheme.eq_ignore_ascii_case(b"http");
    if !is_http {
        return None;
    }
    match rest.strip_prefix(b"://") {
        Some(behind) => Some(behind),
        None => None,
    }
}

// How many bytes of a scheme come first.
fn scheme_len(target: &[u8]) -> usize
    ensures value { result ≡ scheme_len target.now }
    ensures within { result ≤ length target.now }
{
    match scheme_end(target) {
        Some(at) => at,
        None => target.len(),
    }
}

fn scheme_end(target: &[u8]) -> Option<usize>
    ensures { result ≡ position is_no_scheme_byte target.now }
{
    target.iter().position(|byte| !is_scheme_byte(*byte))
}

// How many bytes of an authority come first.
fn authority_len(text: &[u8]) -> usize
    ensures value { result ≡ authority_len text.now }
    ensures within { result ≤ length text.now }
{
    match authority_end(text) {
        Some(at) => at,
        None => text.len(),
    }
}

fn authority_end(text: &[u8]) -> Option<usize>
    ensures { result ≡ position is_delimiter text.now }
{
    text.iter().position(|byte| is_delimiter(*byte))
}

// The bytes of a scheme that `http_uri` takes.
fn is_scheme_byte(byte: u8) -> bool
    ensures { result ≡ is_scheme_byte byte }
{
    byte.is_ascii_alphanumeric() || byte == b'+' || (45..=46).contains(&byte) || byte == b'~'
}

// `/`, `?` or `#`.
fn is_delimiter(byte: u8) -> bool
    ensures { result ≡ is_delimiter byte }
{
    byte == b'/' || byte == b'?' || byte == b'#'
}
