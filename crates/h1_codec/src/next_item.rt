//! The next item of messages that follow one another.
ghost use Rattle.std.specs.Prelude.{◌≡◌, ◌≢◌, Err};
ghost use Rattle.h1_codec.specs.ServerAnswers.{IsNexted, IsHeadGiven, IsHeadBeside, IsNoted, as_message};
ghost use Rattle.h1_codec.specs.Light.{IsLightHead, NeedsNoMemory};
ghost use Rattle.h1_codec.specs.FramedMessages.{body_of};
ghost use Rattle.h1_codec.specs.Steps.{IsStep};
ghost use Rattle.h1_codec.specs.Kinds.{requests};

use crate::framed_message::Message;
use crate::server_piece::{Piece, next_piece};
use crate::{MessageDecoder, PayloadType, ReadHead};
use bytes::BytesMut;
use h1_decoder::HeadItem;
use h1_payload::{DecodeError, PayloadDecoder};
use http_types::{HeaderMap, ParseError};

/// The next item, once it is there: of the body that is open, and else the next head. `is_bare` says that no head has a
/// body. An end brings the body's trailers, which any other item takes away.
pub(crate) fn next_message(
    heads: &mut MessageDecoder<HeadItem>,
    body: &mut Option<PayloadDecoder>,
    trailers: &mut Option<HeaderMap>,
    is_bare: bool,
    src: &mut BytesMut,
) -> Result<Option<Message<HeadItem>>, ParseError>
    ensures next { IsNexted requests is_bare (record { search = heads.old; body = body.old }) src.old.items trailers.old result
        (record { search = heads.new; body = body.new }) src.new.items trailers.new }
    ensures step { IsStep requests (record { search = heads.old; body = body.old }) src.old.items result (record { search = heads.new; body = body.new }) src.new.items }
    ensures no_memory_needed { NeedsNoMemory (record { search = heads.old; body = body.old }) src.old.items → result ≢ Err ParseError.NoMemory }
{
    match body {
        Some(open) => {
            let piece = next_piece(open, src);
            note_piece(piece, body, trailers)
        }
        None => {
            let head = next_head(heads, body, trailers, is_bare, src);
            as_message(head)
        }
    }
}

/// Notes a piece of the body that is open.
fn note_piece(
    piece: Result<Option<Piece>, DecodeError>,
    body: &mut Option<PayloadDecoder>,
    trailers: &mut Option<HeaderMap>,
) -> Result<Option<Message<HeadItem>>, ParseError>
    ensures { IsNoted piece body.old trailers.old result body.new trailers.new }
{
    match piece {
        Ok(Some(Piece::Bytes(bytes))) => {
            *trailers = None;
            Ok(Some(Message::Chunk(Some(bytes))))
        }
        Ok(Some(Piece::End(map))) => {
            *body = None;
            *trailers = map;
            Ok(Some(Message::Chunk(None)))
        }
        Ok(None) => Ok(None),
        Err(DecodeError::Invalid) => Err(ParseError::Chunk),
        Err(DecodeError::NoMemory) => Err(ParseError::NoMemory),
    }
}

/// The next head of a request or an answer, once it is there; its body is then open in `body`. `is_bare` says that no head
/// has a body, as those to HEAD. What was passed is taken off the front of `src`.
///
/// The errors are those of `MessageDecoder::decode`, and then all is as before. Where no head is whole yet, or it is too
/// long, no memory is needed.
pub fn next_head<T: ReadHead>(
    heads: &mut MessageDecoder<T>,
    body: &mut Option<PayloadDecoder>,
    trailers: &mut Option<HeaderMap>,
    is_bare: bool,
    src: &mut BytesMut,
) -> Result<Option<T>, ParseError>
    ensures given { IsHeadGiven T.kind is_bare heads.old src.old.items result heads.new body.new src.new.items }
    ensures others { IsHeadBeside result body.old trailers.old body.new trailers.new }
    ensures limit { heads.new.limit ≡ heads.old.limit }
    ensures no_memory_needed { IsLightHead heads.old src.old.items → result ≢ Err ParseError.NoMemory }
{
    match heads.decode(src) {
        Ok(Some((item, payload))) => {
            *body = body_of(is_bare, payload);
            *trailers = None;
            Ok(Some(item))
        }
        Ok(None) => Ok(None),
        Err(error) => Err(error),
    }
}

/// A head as an item of a message.
fn as_message(
    head: Result<Option<HeadItem>, ParseError>,
) -> Result<Option<Message<HeadItem>>, ParseError>
    ensures { result ≡ as_message head }
{
    match head {
        Ok(Some(item)) => Ok(Some(Message::Item(item))),
        Ok(None) => Ok(None),
        Err(error) => Err(error),
    }
}

/// What reads the body after a head, if one follows.
fn body_of(is_bare: bool, payload: PayloadType) -> Option<PayloadDecoder>
    ensures { result ≡ body_of is_bare payload }
{
    if is_bare {
        return None;
    }
    match payload {
        PayloadType::None => None,
        PayloadType::Payload(body) => Some(body),
        PayloadType::Stream(body) => Some(body),
    }
}
