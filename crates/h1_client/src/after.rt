//! What an answer means to the request that it answers: its body, and what becomes of the connection.
ghost use Rattle.std.specs.Prelude.{◌≡◌, ◌==◌, ℕ, List, None, codes, bytes_eq, option_copied, option_map, unwrap_or};
ghost use Rattle.std.specs.List.{last_or};
ghost use Rattle.http_framing.specs.Kinds.{kind_of};
ghost use Rattle.http_header.specs.Token.{lowercase};
ghost use Rattle.http_types.specs.Version.{is_below_http11};
ghost use Rattle.httparse.specs.Grammar.{trim_ows};
ghost use Rattle.model_h1.specs.LengthTable.{connection_of, is_there, named_type, says, values_of};
ghost use Rattle.http_framing.specs.HeaderLines.{header_map};
ghost use Rattle.model_h1.specs.Request.{ConnectionType, Header};
ghost use Rattle.model_client.specs.AnswerParse.{is_interim};
ghost use Rattle.model_client.specs.AnswerReading.{Answer, answer_is, IsAnswerReading};
ghost use Rattle.model_client.specs.AnswerTable.{body_to, ends_with_input};
ghost use Rattle.model_h1.specs.Closing.{is_kept};
ghost use Rattle.model_client.specs.ClientKept.{Waiting};
ghost use Rattle.model_client.specs.ClientStep.{is_ambiguous, is_closed_after, is_last_answer};
ghost use Rattle.h1_decoder.specs.ResponseItem.{SaysAnswer};

use h1_decoder::ResponseItem;
use http_framing::BodyKind;
use http_types::Version;
use http_types::header::{
    CONNECTION, CONTENT_LENGTH, HeaderMap, HeaderName, HeaderValue, TRANSFER_ENCODING,
};

/// Whether the answer is interim, so that its request waits on (RFC 7231, section 6.2).
pub fn is_interim(item: &ResponseItem) -> bool
    ensures { (a : Answer) → SaysAnswer item.now a → result ≡ is_interim a.status }
{
    let status = item.head.status.as_u16();
    status < 200 && status != 101
}

/// The body that follows: none after HEAD, whatever the head says (RFC 7230, section 3.3.3).
pub fn body_to(is_head: bool, item: &ResponseItem) -> BodyKind
    ensures { (a : Answer) (method : List ℕ) → SaysAnswer item.now a → bytes_eq method (codes "HEAD") ≡ is_head
        → kind_of result ≡ body_to method a.body }
{
    if is_head { BodyKind::None } else { item.body }
}

/// Whether the connection closes after the answer to a request that asks so or doesn't: only the end of the input ends its
/// body, its version or its lines say so (RFC 7230, section 6.3), it goes over to another protocol, or other readers would
/// frame it in another way.
pub fn closes_after(closes: bool, is_head: bool, item: &ResponseItem) -> bool
    ensures { (piece : List ℕ) (a : Answer) (w : Waiting) → IsAnswerReading piece (answer_is a) → SaysAnswer item.now a
        → w.closes ≡ closes → bytes_eq w.method (codes "HEAD") ≡ is_head → result ≡ is_closed_after w a }
{
    let ends = ends_with_input(is_head, item);
    let keeps = keeps_by_lines(item);
    let is_last = is_last_answer(item);
    if closes {
        return true;
    }
    if ends {
        return true;
    }
    if keeps {
        return is_last;
    }
    true
}

// It goes over to another protocol, or its lines may be read in another way.
fn is_last_answer(item: &ResponseItem) -> bool
    ensures { (piece : List ℕ) (a : Answer) → IsAnswerReading piece (answer_is a) → SaysAnswer item.now a → result ≡ is_last_answer a }
{
    let switches = switches(item);
    let misleads = is_ambiguous(item);
    if switches {
        return true;
    }
    misleads
}

// It goes over to another protocol.
fn switches(item: &ResponseItem) -> bool
    ensures { (a : Answer) → SaysAnswer item.now a → result ≡ (a.status == 101) }
{
    item.head.status.as_u16() == 101
}

// Only the end of the input ends the body, and the connection goes on to no other protocol.
fn ends_with_input(is_head: bool, item: &ResponseItem) -> bool
    ensures { (a : Answer) (method : List ℕ) → SaysAnswer item.now a → bytes_eq method (codes "HEAD") ≡ is_head
        → result ≡ ends_with_input a.status (body_to method a.body) }
{
    let passes_on = item.head.status.as_u16() == 101;
    matches!(body_to(is_head, item), BodyKind::Raw) && !passes_on
}

// The last Connection line keeps it, or without one of the words the version does.
fn keeps_by_lines(item: &ResponseItem) -> bool
    ensures { (piece : List ℕ) (a : Answer) → IsAnswerReading piece (answer_is a) → SaysAnswer item.now a
        → result ≡ is_kept (connection_of a.minor a.headers) }
{
    let keeps = !is_old(item);
    match last_line(&item.head.headers) {
        Some(value) => keeps_by(value, keeps),
        None => keeps,
    }
}

// The value of the last Connection line.
fn last_line(headers: &HeaderMap) -> Option<&HeaderValue>
    ensures { (lines : List Header) → headers.now ≡ header_map lines
        → option_map (λ v. v.bytes) (option_copied result) ≡ last_or None (values_of (codes "connection") lines) }
{
    headers.get_all(CONNECTION).as_slice().last()
}

// The version is HTTP/1.0.
fn is_old(item: &ResponseItem) -> bool
    ensures { (piece : List ℕ) (a : Answer) → IsAnswerReading piece (answer_is a) → SaysAnswer item.now a → result ≡ (a.minor == 0) }
{
    is_below_http11(item.head.version)
}

fn is_below_http11(version: Version) -> bool
    ensures { result ≡ is_below_http11 version }
{
    version < Version::HTTP_11
}

// What the value of that line keeps, and otherwise the version does.
fn keeps_by(value: &HeaderValue, otherwise: bool) -> bool
    ensures { (kind : ConnectionType) → trim_ows value.now.bytes ≡ value.now.bytes → is_kept kind ≡ otherwise
        → result ≡ is_kept (unwrap_or (named_type value.now.bytes) kind) }
{
    let value = value.as_bytes();
    if is_word(value, b"close") {
        false
    } else if is_word(value, b"keep-alive") {
        true
    } else if is_word(value, b"upgrade") {
        false
    } else {
        otherwise
    }
}

// Whether a value is this word, which is in lower case, whatever the value's case.
fn is_word(value: &[u8], word: &[u8]) -> bool
    requires { lowercase word.now ≡ word.now }
    ensures { trim_ows value.now ≡ value.now → result ≡ says value.now word.now }
{
    value.eq_ignore_ascii_case(word)
}

// Its lines name a coding in HTTP/1.0, or beside a length.
fn is_ambiguous(item: &ResponseItem) -> bool
    ensures { (piece : List ℕ) (a : Answer) → IsAnswerReading piece (answer_is a) → SaysAnswer item.now a → result ≡ is_ambiguous a }
{
    let headers = &item.head.headers;
    let has_coding = has_lines(headers, TRANSFER_ENCODING);
    let has_length = has_lines(headers, CONTENT_LENGTH);
    let older = is_old(item);
    if older {
        return has_coding;
    }
    if has_length {
        return has_coding;
    }
    false
}

// Whether there are lines of this name.
fn has_lines(headers: &HeaderMap, name: HeaderName) -> bool
    ensures { (lines : List Header) → headers.now ≡ header_map lines → result ≡ is_there (values_of name lines) }
{
    !headers.get_all(name).as_slice().is_empty()
}
