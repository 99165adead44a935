//! What a client gets for an answer's head (RFC 7230, sections 3.3, 5.7 and 6.1).
ghost use Rattle.std.specs.Prelude.{◌≡◌, ◌≤◌, ℕ, List, codes, Some, IfOk, OnOk};
ghost use Rattle.std.specs.List.{list_any};
ghost use Rattle.http_framing.specs.Kinds.{kind_of};
ghost use Rattle.http_types.specs.ResponseHead.{fresh_response};
ghost use Rattle.model_h1.specs.LengthTable.{stated_length, values_of};
ghost use Rattle.model_h1.specs.Parse.{Body};
ghost use Rattle.model_client.specs.AnswerParse.{Received};
ghost use Rattle.model_client.specs.AnswerReading.{Answer, answer_is, IsAnswerReading};
ghost use Rattle.h1_encoder.specs.Meaning.{answer_of, headers_of, size_of};
ghost use Rattle.h1_decoder.specs.ResponseItem.{SaysAnswer};
ghost use Rattle.model_proxy.specs.HopNames.{connection_words, is_among};
ghost use Rattle.model_proxy.specs.Answers.{Found, found_by, says_close, reply_head, reply_size, open_size};
ghost use Rattle.proxy_heads.specs.ForwardedMeaning.{is_line_end, kept_reason, found_as, use_of, is_close_type, stated_or, other_size, length_or, empty_size};

use crate::hops::remove_unpassed;
use crate::own_lines::{put, via};
use crate::words::{lists, trimmed};
use h1_decoder::laws::marks_tell_the_answers_connection;
use h1_decoder::{ResponseItem, content_length};
use http_framing::{BodyKind, BodySize};
use http_map::names::VIA;
use http_map::{CONNECTION, CONTENT_LENGTH, HeaderMap};
use http_types::{ConnectionType, NoMemory, ResponseHead, StatusCode};
use std::alloc::Global;

/// What a forwarder does with an answer's head.
#[derive(Clone, Copy, Debug, PartialEq, Eq)]
pub enum AnswerUse {
    /// The answer is bad: it goes over to another protocol, or only the laxer reading took its head. Its client gets
    /// `Refusal::NoAnswer`, and its server connection is closed.
    Refuse,

    /// It is interim (RFC 7231, section 6.2): another one follows, and the client gets none of it.
    PassOver,

    /// It is passed on.
    PassOn,
}

/// What a forwarder does with an answer of this head. It takes no memory.
pub fn answer_use(item: &ResponseItem) -> AnswerUse
    ensures { (a : Answer) (r : Received) (body : Body) (later : Found) → SaysAnswer item.now a
        → found_by r (answer_is a) body later ≡ found_as result r a body later }
{
    let status = item.head.status.as_u16();
    use_of(item.is_lax, status)
}

// The same by the reading that took the head, and its status.
fn use_of(is_lax: bool, status: u16) -> AnswerUse
    requires { 100 ≤ status }
    ensures { result ≡ use_of is_lax status }
{
    if is_lax {
        return AnswerUse::Refuse;
    }
    if status == 101 {
        return AnswerUse::Refuse;
    }
    if status < 200 {
        return AnswerUse::PassOver;
    }
    AnswerUse::PassOn
}

/// Whether the server closes its connection after the answer: its type is Close, or one of its Connection lines lists
/// `close`. Such a connection is never used for another request. It takes no memory.
pub fn says_close(item: &ResponseItem) -> bool
    ensures { (piece : List ℕ) (a : Answer) → IsAnswerReading piece (answer_is a) → SaysAnswer item.now a → result ≡ says_close a }
{
    marks_tell_the_answers_connection();
    let closes = is_close(item.head.connection_type());
    let lists_close = lists_close(item.head.headers());
    closes || lists_close
}

fn is_close(kind: ConnectionType) -> bool
    ensures { result ≡ is_close_type kind }
{
    match kind {
        ConnectionType::Close => true,
        ConnectionType::KeepAlive => false,
        ConnectionType::Upgrade => false,
    }
}

// Whether a Connection line lists `close`.
fn lists_close(headers: &HeaderMap) -> bool
    ensures { result ≡ is_among (codes "close") (connection_words (headers_of headers.now)) }
{
    // Called for its clause alone: no name stands twice.
    let _valid = headers.len();
    lists(headers.get_all(CONNECTION).as_slice(), b"close")
}

/// The head that the client gets for an answer: its status and its reason, its lines but for those that stay behind, and who
/// passes it on. It has no mark and no line that frames its body: that is written by `reply_size`. A reason that isn't
/// UTF-8 is left out. Out of memory is the only error.
pub fn reply_head(alloc: Global, item: ResponseItem) -> Result<ResponseHead, NoMemory>
    ensures { IfOk result (λ head. (piece : List ℕ) (a : Answer) → IsAnswerReading piece (answer_is a) → SaysAnswer item a
        → answer_of head ≡ reply_head a) }
{
    let ResponseItem {
        head: read,
        reason,
        ..
    } = item;
    let mut headers = read.headers;
    remove_unpassed(&mut headers, read.status.as_u16());
    put(&mut headers, VIA, via(read.version))?;
    let mut head = headed(alloc, read.status, headers);
    put_reason(alloc, &mut head, reason.as_slice())?;
    Ok(head)
}

/// The size by which the body of a reply goes out: a stated length stays one, and any other body whose end isn't known
/// goes out as a stream. A reply to HEAD states the length of what isn't sent, where the answer does. It takes no memory.
pub fn reply_size(is_head: bool, item: &ResponseItem) -> BodySize
    ensures { (a : Answer) → SaysAnswer item.now a → size_of result ≡ reply_size is_head a }
{
    stated_or(item.body, other_size(is_head, item))
}

// The length of a body that has one.
fn stated_or(body: BodyKind, otherwise: BodySize) -> BodySize
    ensures { size_of result ≡ stated_or (kind_of body) (size_of otherwise) }
{
    match body {
        BodyKind::Length(length) => BodySize::Sized(length),
        BodyKind::None => otherwise,
        BodyKind::Chunked => otherwise,
        BodyKind::Raw => otherwise,
    }
}

// The size of a body without a length.
fn other_size(is_head: bool, item: &ResponseItem) -> BodySize
    ensures { (a : Answer) → SaysAnswer item.now a → size_of result ≡ other_size is_head a }
{
    let open = open_size(status_of(item), item.body);
    if is_head {
        return length_or(stated_length(item.head.headers()), open);
    }
    open
}

fn status_of(item: &ResponseItem) -> u16
    ensures { result ≡ item.now.head.status }
{
    item.head.status.as_u16()
}

fn length_or(length: Option<u64>, otherwise: BodySize) -> BodySize
    ensures { size_of result ≡ length_or length (size_of otherwise) }
{
    match length {
        Some(length) => BodySize::Sized(length),
        None => otherwise,
    }
}

// The size without a stated length.
fn open_size(status: u16, body: BodyKind) -> BodySize
    ensures { size_of result ≡ open_size status (kind_of body) }
{
    match body {
        BodyKind::Chunked => BodySize::Stream,
        BodyKind::Raw => BodySize::Stream,
        BodyKind::None => empty_size(status),
        BodyKind::Length(_) => empty_size(status),
    }
}

// The size of a body without bytes: a 204 and a 304 have none.
fn empty_size(status: u16) -> BodySize
    ensures { size_of result ≡ empty_size status }
{
    if status == 204 {
        return BodySize::None;
    }
    if status == 304 {
        return BodySize::None;
    }
    BodySize::Sized(0)
}

// The length that the first Content-Length line states.
fn stated_length(headers: &HeaderMap) -> Option<u64>
    ensures { result ≡ stated_length (values_of (codes "content-length") (headers_of headers.now)) }
{
    // Called for its clause alone: no name stands twice.
    let _valid = headers.len();
    match headers.get(CONTENT_LENGTH) {
        Some(value) => content_length(trimmed(value.as_bytes())),
        None => None,
    }
}

// A head of this status with these headers.
fn headed(alloc: Global, status: StatusCode, headers: HeaderMap) -> ResponseHead
    ensures { result ≡ record (fresh_response status) { headers = headers } }
{
    let mut head = ResponseHead::new(alloc, status);
    head.headers = headers;
    head
}

// Gives the head this reason, if it is text on one line, and else an empty one.
fn put_reason(alloc: Global, head: &mut ResponseHead, reason: &[u8]) -> Result<(), NoMemory>
    ensures { OnOk result (head.new ≡ record head.old { reason = Some (kept_reason reason.now) }) }
{
    let kept = String::from_str(alloc, text_of(reason))?;
    // It has no line end, so it isn't refused.
    let _ = head.set_reason(kept);
    Ok(())
}

// The reason, or no text where it isn't such.
fn text_of(reason: &[u8]) -> &str
    ensures { result.now ≡ kept_reason reason.now }
{
    if has_line_end(reason) {
        return "";
    }
    match std::str::from_utf8(reason) {
        Ok(text) => text,
        Err(_) => "",
    }
}

fn has_line_end(reason: &[u8]) -> bool
    ensures { result ≡ list_any is_line_end reason.now }
{
    reason.iter().any(|byte| *byte == b'\r' || *byte == b'\n')
}
