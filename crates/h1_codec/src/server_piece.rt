//! The next piece of a body.
ghost use Rattle.std.specs.Prelude.{◌≢◌, Err};
ghost use Rattle.h1_codec.specs.Light.{IsLightBody};
ghost use Rattle.h1_codec.specs.ServerPieces.{IsPiece, IsDecodedPiece};

use bytes::{Bytes, BytesMut};
use h1_payload::{DecodeError, PayloadDecoder, PayloadItem};
use http_types::HeaderMap;

/// Bytes of a body, or its end with the trailers that it has.
#[derive(Debug, Drop)]
pub enum Piece {
    /// Bytes, of which there is one at least.
    Bytes(Bytes),

    /// The end.
    End(Option<HeaderMap>),
}

/// The next piece of an open body, once it is there. What was passed is taken off the front of `src`.
///
/// A body that breaks the grammar of chunks is `DecodeError::Invalid`, from then on for good. The only other error is
/// `NoMemory`, and all is as before. The end and a fault need no memory, and neither does a `None`, but for the text of a
/// trailer section that is kept.
pub fn next_piece(
    body: &mut PayloadDecoder,
    src: &mut BytesMut,
) -> Result<Option<Piece>, DecodeError>
    ensures piece { IsPiece body.old src.old.items result body.new src.new.items }
    ensures decoded { IsDecodedPiece body.old src.old.items result body.new src.new.items }
    ensures no_memory_needed { IsLightBody body.old src.old.items → result ≢ Err DecodeError.NoMemory }
{
    match body.decode(src) {
        Ok(Some(PayloadItem::Chunk(bytes))) => Ok(Some(Piece::Bytes(bytes))),
        Ok(Some(PayloadItem::Trailers(trailers))) => Ok(Some(Piece::End(Some(trailers)))),
        Ok(Some(PayloadItem::Eof)) => Ok(Some(Piece::End(None))),
        Ok(None) => Ok(None),
        Err(error) => Err(error),
    }
}
