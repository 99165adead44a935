//! The next piece of an answer's body.
ghost use Rattle.std.specs.Prelude.{◌≡◌, ◌≢◌, Err};
ghost use Rattle.http_types.specs.declared.error.ParseError.TheVariants as errors;
ghost use Rattle.h1_codec.specs.Light.{NeedsNoMemory};
ghost use Rattle.h1_codec.specs.ServerAnswers.{IsNoted};
ghost use Rattle.h1_codec.specs.ClientAnswers.{IsChunked, IsChunkStep};
ghost use Rattle.h1_codec.specs.ClientPieces.{as_message, as_answered};
ghost use Rattle.h1_codec.specs.ClientState.{client_standing};

use crate::client_state::Client;
use crate::{ClientError, Piece, next_piece};
use bytes::{Bytes, BytesMut};
use h1_payload::{DecodeError, PayloadDecoder};
use http_types::{HeaderMap, ParseError};

impl Client {
    /// The next bytes of the open body, or its end.
    pub(crate) fn decode_chunk(
        &mut self,
        src: &mut BytesMut,
    ) -> Result<Option<Option<Bytes>>, ClientError>
        ensures chunked { IsChunked self.old src.old.items result self.new src.new.items }
        ensures step { IsChunkStep self.old src.old.items result self.new src.new.items }
        ensures no_memory_needed { NeedsNoMemory (client_standing self.old) src.old.items → result ≢ Err (ClientError.Parse errors.NoMemory) }
    {
        match &mut self.body {
            None => Err(ClientError::Misplaced),
            Some(open) => {
                let piece = next_piece(open, src);
                let noted = note_piece(piece, &mut self.body, &mut self.trailers);
                as_chunk(noted)
            }
        }
    }
}

/// Notes a piece of the body that is open.
fn note_piece(
    piece: Result<Option<Piece>, DecodeError>,
    body: &mut Option<PayloadDecoder>,
    trailers: &mut Option<HeaderMap>,
) -> Result<Option<Option<Bytes>>, ParseError>
    ensures { IsNoted piece body.old trailers.old (as_message result) body.new trailers.new }
{
    match piece {
        Ok(Some(Piece::Bytes(bytes))) => {
            *trailers = None;
            Ok(Some(Some(bytes)))
        }
        Ok(Some(Piece::End(map))) => {
            *body = None;
            *trailers = map;
            Ok(Some(None))
        }
        Ok(None) => Ok(None),
        Err(DecodeError::Invalid) => Err(ParseError::Chunk),
        Err(DecodeError::NoMemory) => Err(ParseError::NoMemory),
    }
}

/// The piece as a codec answers it.
fn as_chunk(
    piece: Result<Option<Option<Bytes>>, ParseError>,
) -> Result<Option<Option<Bytes>>, ClientError>
    ensures { result ≡ as_answered piece }
{
    match piece {
        Ok(piece) => Ok(piece),
        Err(error) => Err(ClientError::Parse(error)),
    }
}
