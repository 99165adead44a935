//! What is written to the output.
ghost use Rattle.std.specs.Prelude.{◌≡◌, ◌++◌, codes, decimal, OnOk, OnErr, IfOk, IfErr};
ghost use Rattle.std.specs.Io.KnownBytes.{Appends};
ghost use Rattle.http_config.specs.Causes.{Rose};
ghost use Rattle.http_map.specs.HeaderMap.{pairs};
ghost use Rattle.app_get.specs.Failure.{IsPart, IsUnshown};
ghost use Rattle.app_get.specs.Heads.{IsVersionText, lines_text, IsHeadText, IsShown};

use crate::error::GetError;
use bytes::BytesMut;
use h1_client::ResponseItem;
use http_types::{NoMemory, ResponseHead, Sink, Version};
use itoa::Buffer;
use std::alloc::Global;

/// Writes all bytes, or, where the output fails, the first of them.
pub fn write_all<O: Sink>(out: &mut O, bytes: &[u8]) -> Result<(), GetError>
    ensures ok { OnOk result (Appends (O.given out.old) (O.given out.new) bytes.now) }
    ensures part { OnErr result (IsPart (O.given out.old) (O.given out.new) bytes.now) }
    ensures cause { IfErr result (λ error. (error ≡ GetError.Output) × Rose (O.faults out.old) (O.faults out.new)) }
{
    let mut rest = bytes;
    while !rest.is_empty() {
        match out.write(rest) {
            Ok(count) => rest = &rest[count..],
            Err(_) => return Err(GetError::Output),
        }
    }
    Ok(())
}

/// Writes the head of an answer, a line each, and an empty one.
pub fn write_head<O: Sink>(alloc: Global, item: &ResponseItem, out: &mut O) -> Result<(), GetError>
    ensures ok { OnOk result (IsShown item.now (O.given out.old) (O.given out.new)) }
    ensures err { IfErr result (λ error. IsUnshown error (O.given out.old) (O.given out.new) (O.faults out.old) (O.faults out.new)) }
{
    let text = head_text(alloc, item)?;
    write_all(out, text.as_slice())
}

fn head_text(alloc: Global, item: &ResponseItem) -> Result<BytesMut, NoMemory>
    ensures { IfOk result (λ text. IsHeadText item.now text.items) }
{
    let version = version_text(&item.head);
    let mut text = BytesMut::new(alloc);
    put_status(&mut text, version, item)?;
    put_lines(&mut text, &item.head)?;
    text.extend_from_slice(b"\n")?;
    Ok(text)
}

fn version_text(head: &ResponseHead) -> &'static [u8]
    ensures { IsVersionText head.now.version result.now }
{
    if head.version == Version::HTTP_10 {
        b"HTTP/1.0 "
    } else {
        b"HTTP/1.1 "
    }
}

fn put_status(text: &mut BytesMut, version: &[u8], item: &ResponseItem) -> Result<(), NoMemory>
    ensures { OnOk result (text.new.items ≡ text.old.items ++ (version.now ++ (decimal item.now.head.status ++ (codes " " ++ (item.now.reason ++ codes "\n"))))) }
{
    text.extend_from_slice(version)?;
    let mut digits = Buffer::new();
    text.extend_from_slice(digits.format(item.head.status.as_u16()).as_bytes())?;
    text.extend_from_slice(b" ")?;
    text.extend_from_slice(item.reason.as_slice())?;
    text.extend_from_slice(b"\n")
}

fn put_lines(text: &mut BytesMut, head: &ResponseHead) -> Result<(), NoMemory>
    ensures { OnOk result (text.new.items ≡ text.old.items ++ lines_text (pairs head.now.headers)) }
{
    for (name, value) in head.headers.iter() {
        put_line(text, name.as_bytes(), value.as_bytes())?;
    }
    Ok(())
}

fn put_line(text: &mut BytesMut, name: &[u8], value: &[u8]) -> Result<(), NoMemory>
    ensures { OnOk result (text.new.items ≡ text.old.items ++ (name.now ++ (codes ": " ++ (value.now ++ codes "\n")))) }
{
    text.extend_from_slice(name)?;
    text.extend_from_slice(b": ")?;
    text.extend_from_slice(value)?;
    text.extend_from_slice(b"\n")
}
