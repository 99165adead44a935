//! The texts of requests.
ghost use Rattle.std.specs.Prelude.{◌≡◌, ◌≤◌, ◌++◌, codes, decimal, length, IfOk, OnOk};
ghost use Rattle.h1_generated.specs.Generated.{letters, method_of, framing_line, head_text, one_chunk, framed, body_text};
ghost use Rattle.h1_generated.specs.GeneratedMeaning.{model_kind, request_line};

use crate::draw::Kind;
use bytes::{Bytes, BytesMut};
use http_types::NoMemory;
use itoa::Buffer;
use std::alloc::Global;

// What a head has at most, with the framing of one chunk.
const USUAL_LEN: usize = 128;

/// The text of the request with this number, whole: its head, and its body of these letters.
#[tactic(auto, unfolding(crate::specs::Generated::body_text))]
pub(crate) fn request(
    alloc: Global,
    kind: Kind,
    number: u64,
    body: &[u8],
) -> Result<Bytes, NoMemory>
    requires letters { body.now ≡ letters (length body.now) }
    requires short { length body.now ≤ 1000 }
    ensures { IfOk result (λ text. text ≡ head_text (model_kind kind) number (length body.now) ++ body_text (model_kind kind) (length body.now)) }
{
    let mut text = BytesMut::with_capacity(alloc, USUAL_LEN + body.len())?;
    put_head(&mut text, kind, number, body.len())?;
    put_body(alloc, &mut text, kind, body)?;
    let len = text.len();
    text.freeze_to(len)
}

// The request line, the line that frames the body, and the empty line (RFC 7230, section 3).
fn put_head(text: &mut BytesMut, kind: Kind, number: u64, len: usize) -> Result<(), NoMemory>
    ensures { OnOk result (text.new.items ≡ text.old.items ++ head_text (model_kind kind) number len) }
{
    put_request_line(text, kind, number)?;
    put_framing(text, kind, len)?;
    text.extend_from_slice(b"\r\n")?;
    Ok(())
}

fn put_request_line(text: &mut BytesMut, kind: Kind, number: u64) -> Result<(), NoMemory>
    ensures { OnOk result (text.new.items ≡ text.old.items ++ request_line (model_kind kind) number) }
{
    text.extend_from_slice(method_of(kind))?;
    text.extend_from_slice(b" /")?;
    put_number(text, number)?;
    text.extend_from_slice(b" HTTP/1.1\r\n")?;
    Ok(())
}

fn method_of(kind: Kind) -> &'static [u8]
    ensures { result.now ≡ method_of (model_kind kind) }
{
    match kind {
        Kind::Get => b"GET",
        Kind::Head => b"HEAD",
        Kind::Sized | Kind::Chunked => b"POST",
    }
}

fn put_framing(text: &mut BytesMut, kind: Kind, len: usize) -> Result<(), NoMemory>
    ensures { OnOk result (text.new.items ≡ text.old.items ++ framing_line (model_kind kind) len) }
{
    match kind {
        Kind::Get | Kind::Head => Ok(()),
        Kind::Sized => put_length_line(text, len),
        Kind::Chunked => text.extend_from_slice(b"transfer-encoding: chunked\r\n"),
    }
}

fn put_length_line(text: &mut BytesMut, len: usize) -> Result<(), NoMemory>
    ensures { OnOk result (text.new.items ≡ text.old.items ++ (codes "content-length: " ++ (decimal len ++ codes "\r\n"))) }
{
    text.extend_from_slice(b"content-length: ")?;
    put_number(text, len as u64)?;
    text.extend_from_slice(b"\r\n")
}

fn put_number(text: &mut BytesMut, number: u64) -> Result<(), NoMemory>
    ensures { OnOk result (text.new.items ≡ text.old.items ++ decimal number) }
{
    let mut digits = Buffer::new();
    text.extend_from_slice(digits.format(number).as_bytes())
}

fn put_body(alloc: Global, text: &mut BytesMut, kind: Kind, body: &[u8]) -> Result<(), NoMemory>
    ensures { OnOk result (text.new.items ≡ text.old.items ++ framed (model_kind kind) body.now) }
{
    match kind {
        Kind::Get | Kind::Head => Ok(()),
        Kind::Sized => text.extend_from_slice(body),
        Kind::Chunked => put_chunk(alloc, text, body),
    }
}

// One chunk, and the last one (section 4.1).
fn put_chunk(alloc: Global, text: &mut BytesMut, body: &[u8]) -> Result<(), NoMemory>
    ensures { OnOk result (text.new.items ≡ text.old.items ++ one_chunk body.now) }
{
    let size = format!(in alloc; "{:X}", body.len())?;
    text.extend_from_slice(size.as_bytes())?;
    text.extend_from_slice(b"\r\n")?;
    text.extend_from_slice(body)?;
    text.extend_from_slice(b"\r\n0\r\n\r\n")
}
