//! Lines that are for one connection alone, and those that a forwarder writes of its own (RFC 7230, section 6.1).
ghost use Rattle.std.specs.Prelude.{◌≡◌, ◌∷◌, [], codes, List};
ghost use Rattle.http_header.specs.FieldValue.{FieldValue};
ghost use Rattle.http_header.specs.Token.{lowercase};
ghost use Rattle.h1_encoder.specs.Meaning.{headers_of};
ghost use Rattle.model_proxy.specs.HopNames.{words_in, hop_names, without};
ghost use Rattle.model_proxy.specs.Forward.{client_names};
ghost use Rattle.proxy_heads.specs.Words.{listed_words};
ghost use Rattle.proxy_heads.specs.Edges.{own_head_names, kept_lines};
ghost use Rattle.proxy_heads.specs.ForwardedMeaning.{other_hops, answer_lines};

use crate::words::{split_at_comma, trimmed};
use http_map::{AsHeaderName, CONNECTION, HeaderMap, Removed};

/// A text by which a name is looked up, whether it is a name or not.
#[derive(Clone, Copy)]
struct Word<'a> {
    text: &'a [u8],
}

impl AsHeaderName for Word<'_> {
    ghost text = { λ word. word.text.now };

    ghost name = { λ word. lowercase word.text.now };

    fn as_name_bytes(&self) -> &[u8] {
        self.text
    }
}

/// Removes the lines of a request that stay behind: those for one connection alone, Host, those that frame its body,
/// Expect, and what is said of earlier clients, unless that is trusted. It takes no memory.
pub(crate) fn remove_unforwarded(headers: &mut HeaderMap, trusts_client: bool)
    ensures { headers_of headers.new ≡ kept_lines trusts_client (headers_of headers.old) }
{
    remove_hops(headers);
    remove_own(headers);
    if trusts_client {
        return;
    }
    remove_told(headers);
}

// Removes the lines that a forwarder writes of its own, or answers.
fn remove_own(headers: &mut HeaderMap)
    ensures { headers_of headers.new ≡ without own_head_names (headers_of headers.old) }
{
    remove_name(headers, b"host");
    remove_name(headers, b"content-length");
    remove_name(headers, b"expect");
}

// Removes what is said of earlier clients.
fn remove_told(headers: &mut HeaderMap)
    ensures { headers_of headers.new ≡ without client_names (headers_of headers.old) }
{
    remove_name(headers, b"x-forwarded-for");
    remove_name(headers, b"x-forwarded-proto");
    remove_name(headers, b"x-forwarded-host");
    remove_name(headers, b"forwarded");
}

/// Removes the lines of an answer that stay behind: those for one connection alone, and the length but for a 304. It
/// takes no memory.
pub(crate) fn remove_unpassed(headers: &mut HeaderMap, status: u16)
    ensures { headers_of headers.new ≡ answer_lines status (headers_of headers.old) }
{
    remove_hops(headers);
    if status == 304 {
        return;
    }
    remove_name(headers, b"content-length");
}

// Removes the lines for one connection alone: those of seven names, and those that a Connection line names.
fn remove_hops(headers: &mut HeaderMap)
    ensures { headers_of headers.new ≡ without (hop_names (headers_of headers.old)) (headers_of headers.old) }
{
    // Called for its clause alone: no name stands twice.
    let _valid = headers.len();
    let connection = headers.remove(CONNECTION);
    remove_others(headers);
    remove_listed(headers, connection);
}

fn remove_others(headers: &mut HeaderMap)
    ensures { headers_of headers.new ≡ without other_hops (headers_of headers.old) }
{
    remove_name(headers, b"keep-alive");
    remove_name(headers, b"proxy-connection");
    remove_name(headers, b"te");
    remove_name(headers, b"trailer");
    remove_name(headers, b"transfer-encoding");
    remove_name(headers, b"upgrade");
}

// Removes each name that one of these values lists.
fn remove_listed(headers: &mut HeaderMap, values: Removed)
    ensures { headers_of headers.new ≡ without (listed_words values) (headers_of headers.old) }
{
    let mut rest = values;
    while let Some(value) = rest.next() {
        remove_words(headers, value.as_bytes());
    }
}

// Removes each name that the list has.
fn remove_words(headers: &mut HeaderMap, list: &[u8])
    ensures { headers_of headers.new ≡ without (words_in list.now) (headers_of headers.old) }
{
    let mut rest = list;
    while let Some((first, others)) = split_at_comma(rest) {
        remove_name(headers, trimmed(first));
        rest = others;
    }
    remove_name(headers, trimmed(rest));
}

// Removes the lines of one name, whatever its case.
fn remove_name(headers: &mut HeaderMap, name: &[u8])
    ensures { headers_of headers.new ≡ without (lowercase name.now ∷ []) (headers_of headers.old) }
{
    // Called for its clause alone: no name stands twice.
    let _valid = headers.len();
    headers.remove(Word { text: name });
}
