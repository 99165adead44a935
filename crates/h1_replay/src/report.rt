//! The report of a trace.
ghost use Rattle.std.specs.Prelude.{◌≡◌, ◌++◌, OnOk, IfOk};
ghost use Rattle.http_map.specs.HeaderMap.{pairs};
ghost use Rattle.h1_connection.specs.Steps.{outcome_of};
ghost use Rattle.h1_replay.specs.Hex.{hex_word};
ghost use Rattle.h1_replay.specs.Report.{end_word, fault_word, broken_word, body_word, type_word, expect_word, IsVersionWord, spaced, IsRequestPart, IsBodyPart, pair_words, IsHeadLine, IsOutcomeLine, AreStepLines, is_abandoned, state_word, last_lines, IsReport};
ghost use Rattle.h1_replay.specs.Text.{Adds};

use crate::text::{put_hex, put_number};
use crate::websocket::{check_word, put_frame, put_rule};
use h1_connection::{BodyFault, End, HeadFault, Noted, Steps, Trace};
use h1_decoder::{BodyKind, HeadItem};
use http_types::{ConnectionType, HeaderMap, NoMemory, Version};
use std::alloc::Global;

/// A line for each outcome of the trace, then the bytes that are still to be written, and the state.
pub fn report_of(alloc: Global, trace: &Trace) -> Result<Vec<u8>, NoMemory>
    ensures { IfOk result (λ text. IsReport trace.now text.items) }
{
    let mut text = step_lines(alloc, &trace.steps)?;
    put_last_lines(alloc, &mut text, trace)?;
    Ok(text)
}

fn step_lines(alloc: Global, steps: &Steps) -> Result<Vec<u8>, NoMemory>
    ensures { IfOk result (λ text. AreStepLines steps.now text.items) }
{
    let mut text = Vec::new(alloc);
    for step in steps.iter() {
        put_outcome(alloc, &mut text, step.outcome())?;
        text.extend_from_slice(b"\n")?;
    }
    Ok(text)
}

fn put_outcome(alloc: Global, text: &mut Vec<u8>, noted: &Noted) -> Result<(), NoMemory>
    ensures { OnOk result (Adds (IsOutcomeLine (outcome_of noted.now)) text.old.items text.new.items) }
{
    match noted {
        Noted::Took(count) => {
            text.extend_from_slice(b"took ")?;
            put_number(text, *count as u64)
        }
        Noted::Head(item) => put_head(alloc, text, item.get()),
        Noted::Bytes(bytes) => put_named_hex(alloc, text, b"bytes ", bytes),
        Noted::Trailers(trailers) => {
            text.extend_from_slice(b"trailers")?;
            put_pairs(alloc, text, trailers.get())
        }
        Noted::Frame(frame) => {
            text.extend_from_slice(b"frame ")?;
            put_frame(alloc, text, frame.get())
        }
        Noted::Closed(end) => put_named(text, b"closed ", end_word(*end)),
        Noted::Fault(fault) => put_named(text, b"fault ", fault_word(*fault)),
        Noted::Broken(fault) => put_named(text, b"broken ", broken_word(*fault)),
        Noted::Protocol(error) => {
            text.extend_from_slice(b"protocol ")?;
            put_rule(text, *error)
        }
        Noted::Refused(error) => put_named(text, b"refused ", check_word(*error)),
        Noted::Gave(bytes) => put_named_hex(alloc, text, b"gave ", bytes),
        Noted::Expired(end) => put_named(text, b"expired ", end_word(*end)),
        Noted::BodyEnd => text.extend_from_slice(b"end"),
        Noted::Pending => text.extend_from_slice(b"pending"),
        Noted::Abandoned => text.extend_from_slice(b"abandoned"),
        Noted::Done => text.extend_from_slice(b"done"),
    }
}

/// Adds a word after a name.
pub fn put_named(text: &mut Vec<u8>, name: &[u8], word: &[u8]) -> Result<(), NoMemory>
    ensures { OnOk result (text.new.items ≡ text.old.items ++ name.now ++ word.now) }
{
    text.extend_from_slice(name)?;
    text.extend_from_slice(word)
}

/// Adds bytes in hex after a name.
pub fn put_named_hex(
    alloc: Global,
    text: &mut Vec<u8>,
    name: &[u8],
    bytes: &[u8],
) -> Result<(), NoMemory>
    ensures { OnOk result (text.new.items ≡ text.old.items ++ name.now ++ hex_word bytes.now) }
{
    text.extend_from_slice(name)?;
    put_hex(alloc, text, bytes)
}

/// Adds the words of a head.
pub fn put_head(alloc: Global, text: &mut Vec<u8>, item: &HeadItem) -> Result<(), NoMemory>
    ensures { OnOk result (Adds (IsHeadLine item.now) text.old.items text.new.items) }
{
    text.extend_from_slice(b"head")?;
    put_request_part(text, item)?;
    put_body_part(text, item)?;
    put_pairs(alloc, text, item.head.headers())
}

fn put_request_part(text: &mut Vec<u8>, item: &HeadItem) -> Result<(), NoMemory>
    ensures { OnOk result (Adds (IsRequestPart item.now) text.old.items text.new.items) }
{
    put_spaced(text, item.head.method.as_str().as_bytes())?;
    put_spaced(text, &item.target)?;
    put_spaced(text, version_word(item.head.version))
}

fn put_body_part(text: &mut Vec<u8>, item: &HeadItem) -> Result<(), NoMemory>
    ensures { OnOk result (Adds (IsBodyPart item.now) text.old.items text.new.items) }
{
    text.extend_from_slice(b" ")?;
    put_body(text, item.body)?;
    put_spaced(text, type_word(item.head.connection_type()))?;
    put_spaced(text, expect_word(item.head.expect()))
}

// A word after a blank.
fn put_spaced(text: &mut Vec<u8>, word: &[u8]) -> Result<(), NoMemory>
    ensures { OnOk result (text.new.items ≡ text.old.items ++ spaced word.now) }
{
    text.extend_from_slice(b" ")?;
    text.extend_from_slice(word)
}

fn put_body(text: &mut Vec<u8>, body: BodyKind) -> Result<(), NoMemory>
    ensures { OnOk result (text.new.items ≡ text.old.items ++ body_word body) }
{
    match body {
        BodyKind::None => text.extend_from_slice(b"none"),
        BodyKind::Length(length) => {
            text.extend_from_slice(b"length:")?;
            put_number(text, length)
        }
        BodyKind::Chunked => text.extend_from_slice(b"chunked"),
        BodyKind::Raw => text.extend_from_slice(b"raw"),
    }
}

/// Adds each header, after a blank.
pub fn put_pairs(alloc: Global, text: &mut Vec<u8>, headers: &HeaderMap) -> Result<(), NoMemory>
    ensures { OnOk result (text.new.items ≡ text.old.items ++ pair_words (pairs headers.now)) }
{
    for (name, value) in headers.iter() {
        put_spaced(text, name.as_bytes())?;
        text.extend_from_slice(b"=")?;
        put_hex(alloc, text, value.as_bytes())?;
    }
    Ok(())
}

fn put_last_lines(alloc: Global, text: &mut Vec<u8>, trace: &Trace) -> Result<(), NoMemory>
    ensures { OnOk result (text.new.items ≡ text.old.items ++ last_lines trace.now) }
{
    text.extend_from_slice(b"buffered ")?;
    put_hex(alloc, text, &trace.buffered)?;
    text.extend_from_slice(b"\nstate ")?;
    text.extend_from_slice(state_word(is_abandoned(&trace.steps), trace.closing))?;
    text.extend_from_slice(b"\n")
}

// Whether the peer was given up, which is a last outcome.
fn is_abandoned(steps: &Steps) -> bool
    ensures { result ≡ is_abandoned steps.now }
{
    match steps.get(steps.len().saturating_sub(1)) {
        Some(step) => matches!(step.outcome(), Noted::Abandoned),
        None => false,
    }
}

fn version_word(version: Version) -> &'static [u8]
    ensures { IsVersionWord version result.now }
{
    if version == Version::HTTP_10 {
        b"1.0"
    } else {
        b"1.1"
    }
}

fn type_word(connection: ConnectionType) -> &'static [u8]
    ensures { result.now ≡ type_word connection }
{
    match connection {
        ConnectionType::Close => b"close",
        ConnectionType::KeepAlive => b"keep-alive",
        ConnectionType::Upgrade => b"upgrade",
    }
}

fn expect_word(expect: bool) -> &'static [u8]
    ensures { result.now ≡ expect_word expect }
{
    if expect { b"expect" } else { b"-" }
}

/// Why a connection ends.
pub fn end_word(end: End) -> &'static [u8]
    ensures { result.now ≡ end_word end }
{
    match end {
        End::Malformed => b"malformed",
        End::TooLarge => b"too-large",
        End::SlowRequestTimeout => b"slow-request",
        End::KeepAliveExpired => b"keep-alive",
        End::Protocol => b"protocol",
        End::Body => b"body",
        End::BodyShort => b"body-short",
        End::Asked => b"asked",
        End::BrokenBody => b"broken-body",
        End::UnreadBody => b"unread-body",
        End::Drained => b"drained",
        End::HalfClosed => b"half-closed",
        End::InputEnded => b"input-ended",
    }
}

/// What is wrong with a head.
pub fn fault_word(fault: HeadFault) -> &'static [u8]
    ensures { result.now ≡ fault_word fault }
{
    match fault {
        HeadFault::Malformed => b"malformed",
        HeadFault::TooLarge => b"too-large",
    }
}

/// What is wrong with a body.
pub fn broken_word(fault: BodyFault) -> &'static [u8]
    ensures { result.now ≡ broken_word fault }
{
    match fault {
        BodyFault::Corrupted => b"corrupted",
        BodyFault::Incomplete => b"incomplete",
    }
}

fn state_word(abandoned: bool, closing: Option<End>) -> &'static [u8]
    ensures { result.now ≡ state_word abandoned closing }
{
    if abandoned {
        return b"abandoned";
    }
    match closing {
        None => b"open",
        Some(end) => end_word(end),
    }
}
