//! What the head of an answer says (RFC 7230, section 3).
ghost use Rattle.std.specs.Prelude.{◌≡◌, ◌<◌, ◌≤◌, [], length, map, IfOk, IfErr, OnErr, OnOk, All};
ghost use Rattle.http_framing.specs.Kinds.{kind_of};
ghost use Rattle.httparse.specs.Grammar.{ResponseHead as Text, ReadsResponse};
ghost use Rattle.httparse.specs.Spans.{IsHeaderWithin, IsResponseWithin, IsWithin, header_bytes};
ghost use Rattle.model_client.specs.AnswerReading.{Answer, answer_is, refused, HasNoText, IsAnswerReading};
ghost use Rattle.model_client.specs.AnswerTable.{ends_with_input};
ghost use Rattle.model_h1.specs.HeadPiece.{header_lines};
ghost use Rattle.h1_decoder.specs.AnswerParts.{answer_parts_at, answer_from, AreAnswerParts, RefusesAnswerParts};
ghost use Rattle.h1_decoder.specs.AnswerRefusal.{IsWholeAnswerAt, RefusesAnswer};
ghost use Rattle.h1_decoder.specs.Lines.{HasValue};
ghost use Rattle.h1_decoder.specs.Refusal.{UnlessNoMemory, fault_of};
ghost use Rattle.h1_decoder.specs.ResponseItem.{SaysAnswer};
ghost use Rattle.h1_decoder.specs.WholeHead.{IsOfGrammar};

use crate::decoder::{HeadRoom, MAX_HEADERS, count_header_lines, grammar_error, read_version};
use crate::lax::unpadded;
use crate::lines::{read_headers, share};
use bytes::Bytes;
use http_framing::BodyKind;
use http_types::{ParseError, ResponseHead, StatusCode};
use httparse::Status;
use httparse::spans::{HeaderSpan, ResponseSpans, parse_response};
use std::alloc::Global;

/// The head of an answer that was read, with its body's kind.
#[derive(Debug, Drop)]
pub struct ResponseItem {
    /// The version, the status and the headers. It has no reason of its own.
    pub head: ResponseHead,

    /// The reason as the head spells it (RFC 7230, section 3.1.2). It is empty where the head has none, and needs not
    /// be UTF-8.
    pub reason: Bytes,

    /// Where the body ends. After the answer to a HEAD request no body follows, whatever stands here.
    pub body: BodyKind,

    /// Whether only the second, laxer reading took the head, which passes over blanks before the colon of a header line.
    pub is_lax: bool,
}

/// What the head of an answer says that `piece` is, from its first line to its empty line: a head of HTTP/1.0 or
/// HTTP/1.1 (RFC 7230, section 3). A piece that the grammar refuses is read once more without the blanks before the
/// first colon of each header line, which some servers send (section 3.2.4). A piece that is none is refused by the
/// first of these that holds: `ParseError::TooLarge`, it has more than 96 header lines; `Header`, `Version` or `Status`,
/// neither reading is of the grammar; `Status`, its status is below 100; `Header`, a name is longer than 65535 bytes, or
/// the lines frame no body (section 3.3.3). The only other error is `NoMemory`.
pub fn response_head(alloc: Global, piece: Bytes) -> Result<ResponseItem, ParseError>
    ensures head { IfOk result (λ item. (a : Answer) × IsAnswerReading piece (answer_is a) × SaysAnswer item a) }
    ensures fault { IfErr result (λ e. UnlessNoMemory e (IsAnswerReading piece (refused (fault_of e)))) }
    ensures cause { IfErr result (λ e. UnlessNoMemory e (RefusesAnswer e piece)) }
{
    if count_header_lines(piece.as_slice()) > MAX_HEADERS {
        return Err(ParseError::TooLarge);
    }
    let mut room = HeadRoom::new();
    match parse_text(piece.as_slice(), &mut room.fields) {
        Ok(spans) => read_answer(alloc, &piece, spans, &room.fields[..spans.headers], false),
        Err(error) => read_laxly(alloc, &piece, &mut room, error),
    }
}

/// The second reading of a piece that is no text of the grammar, and was refused by this error.
#[cold]
fn read_laxly(
    alloc: Global,
    piece: &Bytes,
    room: &mut HeadRoom,
    error: ParseError,
) -> Result<ResponseItem, ParseError>
    requires few { header_lines piece.now ≤ MAX_HEADERS }
    requires none { HasNoText piece.now }
    requires grammar { IsOfGrammar error }
    ensures head { IfOk result (λ item. (a : Answer) × IsAnswerReading piece.now (answer_is a) × SaysAnswer item a) }
    ensures fault { IfErr result (λ e. UnlessNoMemory e (IsAnswerReading piece.now (refused (fault_of e)))) }
    ensures cause { IfErr result (λ e. UnlessNoMemory e (RefusesAnswer e piece.now)) }
{
    let text = unpadded(alloc, piece.as_slice())?;
    match parse_text(text.as_slice(), &mut room.fields) {
        Ok(spans) => read_answer(alloc, &text, spans, &room.fields[..spans.headers], true),
        Err(_) => Err(error),
    }
}

/// Where the parts of the head are that is the whole text. An error is that of the grammar, where the text has few
/// lines.
fn parse_text(text: &[u8], fields: &mut [HeaderSpan]) -> Result<ResponseSpans, ParseError>
    requires { length fields.old ≡ MAX_HEADERS }
    ensures within { IfOk result (IsResponseWithin text.now fields.new) }
    ensures found { IfOk result (IsWholeAnswerAt text.now fields.new) }
    ensures none { OnErr result ((h : Text) → ReadsResponse text.now h [] → MAX_HEADERS < length h.fields) }
    ensures grammar { IfErr result IsOfGrammar }
{
    match parse_response(text, fields) {
        Ok(Status::Complete(spans)) if spans.len == text.len() => Ok(spans),
        Ok(_) => Err(ParseError::Header),
        Err(error) => Err(grammar_error(error)),
    }
}

/// The answer whose parts the spans cover.
fn read_answer(
    alloc: Global,
    piece: &Bytes,
    spans: ResponseSpans,
    fields: &[HeaderSpan],
    is_lax: bool,
) -> Result<ResponseItem, ParseError>
    requires reason { IsWithin (length piece.now) spans.reason }
    requires code { spans.code < 1000 }
    requires fields { All (IsHeaderWithin (length piece.now)) fields.now }
    requires values { All HasValue (map (header_bytes piece.now) fields.now) }
    ensures parts { IfOk result (λ item. AreAnswerParts (answer_parts_at piece.now spans fields.now) (kind_of item.body)) }
    ensures says { IfOk result (λ item. SaysAnswer item (answer_from is_lax (answer_parts_at piece.now spans fields.now) (kind_of item.body))) }
    ensures refused { IfErr result (λ e. UnlessNoMemory e (RefusesAnswerParts e (answer_parts_at piece.now spans fields.now))) }
{
    let Ok(status) = StatusCode::from_u16(spans.code) else {
        return Err(ParseError::Status);
    };
    let mut head = ResponseHead::new(alloc, status);
    head.version = read_version(spans.version);
    let framing = read_headers(alloc, piece, fields, &mut head.headers)?;
    let Some(body) = framing.answer_kind(spans.version, spans.code) else {
        return Err(ParseError::Header);
    };
    framing.mark_answer(&mut head, ends_with_input(spans.code, body));
    let reason = share(piece, spans.reason)?;
    Ok(ResponseItem {
        head,
        reason,
        body,
        is_lax,
    })
}

/// Whether only the end of the input ends a body of this kind, after this status.
fn ends_with_input(status: u16, body: BodyKind) -> bool
    ensures { result ≡ ends_with_input status (kind_of body) }
{
    matches!(body, BodyKind::Raw) && status != 101
}
