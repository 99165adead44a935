//! The body of an answer.
ghost use Rattle.std.specs.Prelude.{◌≡◌, ◌++◌, [], take, IsOk, OnOk, OnErr};
ghost use Rattle.model_h1.specs.AnswerText.{sent_end};
ghost use Rattle.model_state.specs.Reply.{piece_sent};
ghost use Rattle.h1_encoder.specs.Meaning.{model_shape};

use crate::chunk::{put_chunk, put_last_chunk};
use crate::{Asked, Shape};
use bytes::BytesMut;
use http_types::NoMemory;

/// Puts what goes out of a piece of a body behind what `out` holds: of a stated length no more than `missing`
/// bytes, in chunks a chunk (RFC 7230, section 4.1), and nothing for HEAD. A piece of which nothing goes out
/// takes no memory. Where memory is wanting `out` holds what it held.
pub fn put_piece(
    out: &mut BytesMut,
    asked: Asked,
    shape: Shape,
    missing: u64,
    bytes: &[u8],
) -> Result<(), NoMemory>
    ensures ok { OnOk result (out.new.items ≡ out.old.items ++ piece_sent asked (model_shape shape) missing bytes.now) }
    ensures err { OnErr result (out.new.items ≡ out.old.items) }
    ensures no_memory_needed { piece_sent asked (model_shape shape) missing bytes.now ≡ [] → IsOk result }
{
    if asked.is_head() {
        return Ok(());
    }
    match shape {
        Shape::None => Ok(()),
        Shape::Length(_) => out.extend_from_slice(first_bytes(bytes, missing)),
        Shape::Chunked => put_chunk(out, bytes),
        Shape::Raw => out.extend_from_slice(bytes),
    }
}

/// Puts what ends a body: the last chunk of a body in chunks, and nothing else, which takes no memory. Where
/// memory is wanting `out` holds what it held.
pub fn put_end(out: &mut BytesMut, asked: Asked, shape: Shape) -> Result<(), NoMemory>
    ensures ok { OnOk result (out.new.items ≡ out.old.items ++ sent_end asked (model_shape shape)) }
    ensures err { OnErr result (out.new.items ≡ out.old.items) }
    ensures no_memory_needed { sent_end asked (model_shape shape) ≡ [] → IsOk result }
{
    if shape == Shape::Chunked && !asked.is_head() {
        put_last_chunk(out)
    } else {
        Ok(())
    }
}

/// At most so many bytes, from the first on.
pub fn first_bytes(bytes: &[u8], most: u64) -> &[u8]
    ensures { result.now ≡ take most bytes.now }
{
    if most < bytes.len() as u64 {
        &bytes[..most as usize]
    } else {
        bytes
    }
}
