//! Texts of answers.
use bytes::BytesMut;
use h1_encoder::{
    Asked, DateLine, EncodeError, Shape, TransferEncoding, put_answer_head, put_bad_request,
    put_end, put_interim, put_piece, put_timeout, put_too_large, shape_of, type_of,
};
use http_framing::BodySize;
use http_types::header::{HeaderName, value_of_bytes};
use http_types::{ConnectionType, NoMemory, ResponseHead, StatusCode, Version};
use std::alloc::Global;
use vectors::{Case, Report};

/// The arguments before the headers: version, method, status, size, and the body's bytes.
const FIXED_ARGUMENTS: usize = 5;

/// `answer VERSION METHOD STATUS SIZE BYTES NAME VALUE ..`: head, one piece and end of an answer in the first second of
/// 1970, to a request of this version (`1.0`, `1.1`) by this method (`HEAD`, `GET`); SIZE is `none`, `stream` or a number.
pub fn answer(alloc: Global, case: &Case<'_>, found: &mut Report) -> Result<bool, NoMemory> {
    let Some(head) = head_of(alloc, case)? else {
        return Ok(false);
    };
    Ok(put_answer(alloc, &head, case, found))
}

/// `camel-answer`: the same with names in camel case and the connection's end.
pub fn camel_answer(alloc: Global, case: &Case<'_>, found: &mut Report) -> Result<bool, NoMemory> {
    let Some(mut head) = head_of(alloc, case)? else {
        return Ok(false);
    };
    head.set_camel_case_headers(true);
    head.set_connection_type(ConnectionType::Close);
    Ok(put_answer(alloc, &head, case, found))
}

// The answer's head; none where the arguments name none.
fn head_of(alloc: Global, case: &Case<'_>) -> Result<Option<ResponseHead>, NoMemory> {
    let Some(status) = status_of(case) else {
        return Ok(None);
    };
    let mut head = ResponseHead::new(alloc, status);
    if !put_headers(alloc, &mut head, case)? {
        return Ok(None);
    }
    Ok(Some(head))
}

// Appends the headers that the arguments name, and says whether they are such.
fn put_headers(alloc: Global, head: &mut ResponseHead, case: &Case<'_>) -> Result<bool, NoMemory> {
    for header in case
        .arguments
        .get(FIXED_ARGUMENTS..)
        .unwrap_or_default()
        .chunks_exact(2)
    {
        if !put_header(alloc, head, header[0].as_slice(), header[1].as_slice())? {
            return Ok(false);
        }
    }
    Ok(true)
}

fn status_of(case: &Case<'_>) -> Option<StatusCode> {
    let number = case.number(2)?;
    if number > 999 {
        return None;
    }
    StatusCode::from_u16(number as u16).ok()
}

// Appends the header, and says whether it is one.
fn put_header(
    alloc: Global,
    head: &mut ResponseHead,
    name: &[u8],
    value: &[u8],
) -> Result<bool, NoMemory> {
    let Ok(name) = HeaderName::from_bytes(alloc, name) else {
        return Ok(false);
    };
    let Ok(value) = value_of_bytes(alloc, value) else {
        return Ok(false);
    };
    head.headers.append(name, value)?;
    Ok(true)
}

fn put_answer(alloc: Global, head: &ResponseHead, case: &Case<'_>, found: &mut Report) -> bool {
    let Some(size) = size_of(case) else {
        return false;
    };
    let mut out = BytesMut::new(alloc);
    let written = put_parts(&mut out, asked_of(case), head, size, case.argument(4));
    put_out(written, &out, found);
    true
}

// Puts what was written, unless memory ran out for it.
fn put_out(written: Result<(), NoMemory>, out: &BytesMut, found: &mut Report) {
    match written {
        Ok(()) => found.put_quoted(out.as_slice()),
        Err(_) => found.lose(),
    }
}

fn size_of(case: &Case<'_>) -> Option<BodySize> {
    match case.argument(3) {
        b"none" => Some(BodySize::None),
        b"stream" => Some(BodySize::Stream),
        _ => Some(BodySize::Sized(case.number(3)? as u64)),
    }
}

fn asked_of(case: &Case<'_>) -> Asked {
    let is_head = case.argument(1) == b"HEAD".as_slice();
    if case.argument(0) == b"1.0".as_slice() {
        return Asked::new(Version::HTTP_10, is_head, false, ConnectionType::Close);
    }
    Asked::new(Version::HTTP_11, is_head, false, ConnectionType::KeepAlive)
}

fn put_parts(
    out: &mut BytesMut,
    asked: Asked,
    head: &ResponseHead,
    size: BodySize,
    piece: &[u8],
) -> Result<(), NoMemory> {
    let shape = shape_of(asked, head, size);
    let missing = match shape {
        Shape::Length(length) => length,
        Shape::None | Shape::Chunked | Shape::Raw => 0,
    };
    let kind = type_of(true, false, asked, head, size);
    let mut date = DateLine::new();
    put_answer_head(out, asked, head, size, kind, &mut date, 0)?;
    put_piece(out, asked, shape, missing, piece)?;
    put_end(out, asked, shape)
}

/// `interim`: what lets a client go on.
pub fn interim(alloc: Global, found: &mut Report) -> Result<bool, NoMemory> {
    let mut out = BytesMut::new(alloc);
    let written = put_interim(&mut out);
    put_out(written, &out, found);
    Ok(true)
}

/// `refusal STATUS MOMENT`: the text of a refusal at a moment in milliseconds.
pub fn refusal(alloc: Global, case: &Case<'_>, found: &mut Report) -> Result<bool, NoMemory> {
    let Some(moment) = case.number(1) else {
        return Ok(false);
    };
    if moment > 1_000_000_000_000 {
        return Ok(false);
    }
    let mut out = BytesMut::new(alloc);
    let mut date = DateLine::new();
    let written = match case.argument(0) {
        b"400" => put_bad_request(&mut out, &mut date, moment as u64),
        b"408" => put_timeout(&mut out, &mut date, moment as u64),
        b"431" => put_too_large(&mut out, &mut date, moment as u64),
        _ => return Ok(false),
    };
    put_out(written, &out, found);
    Ok(true)
}

/// `chunks PIECE ..`: the text of a body in chunks, whose end is told twice.
pub fn chunks(alloc: Global, case: &Case<'_>, found: &mut Report) -> Result<bool, NoMemory> {
    let mut out = BytesMut::new(alloc);
    let mut body = TransferEncoding::chunked();
    for piece in case.arguments.iter() {
        if body.encode(piece.as_slice(), &mut out).is_err() {
            found.lose();
        }
    }
    put_end_of(&mut body, &mut out, found);
    put_end_of(&mut body, &mut out, found);
    found.put_quoted(out.as_slice());
    Ok(true)
}

// Puts that the body's end is short, where it is.
fn put_end_of(body: &mut TransferEncoding, out: &mut BytesMut, found: &mut Report) {
    match body.encode_eof(out) {
        Ok(()) => {}
        Err(EncodeError::Short(_)) => found.put_text("short "),
        Err(_) => found.lose(),
    }
}

/// `short LENGTH BYTES`: the text of a body of that length of which these bytes came, and what its end answers.
pub fn short(alloc: Global, case: &Case<'_>, found: &mut Report) -> Result<bool, NoMemory> {
    let Some(length) = case.number(0) else {
        return Ok(false);
    };
    let mut out = BytesMut::new(alloc);
    let mut body = TransferEncoding::length(length as u64);
    match body.encode(case.argument(1), &mut out) {
        Ok(true) => found.put_text("whole "),
        Ok(false) => found.put_text("open "),
        Err(_) => found.lose(),
    }
    found.put_quoted(out.as_slice());
    match body.encode_eof(&mut out) {
        Ok(()) => {}
        Err(EncodeError::Short(missing)) => {
            found.put_text(" short ");
            found.put_decimal(missing);
        }
        Err(_) => found.lose(),
    }
    Ok(true)
}
