//! The codec as a decoder and an encoder like any other.
use crate::framed_message::Message;
use crate::server_codec::Codec;
use bytes::BytesMut;
use h1_decoder::HeadItem;
use h1_encoder::EncodeError;
use http_framing::{BodySize, Decoder, Encoder};
use http_types::{ParseError, Response};

impl Decoder for Codec {
    ghost use Rattle.std.specs.Prelude.{◌≡◌, Some};
    ghost use Rattle.http_types.specs.declared.error.ParseError.TheVariants as errors;
    ghost use Rattle.h1_decoder.specs.declared.decoder.HeadItem.{HeadItem};
    ghost use Rattle.h1_codec.specs.FramedMessages.{Messages, given, nothing, Breaks};
    ghost use Rattle.h1_codec.specs.ServerState.{CodecReads, HasLookedAt, CodecLeft, Writing, codec_writing};
    ghost use Rattle.h1_codec.specs.ServerAnswers.{HasBytes};

    type Item = Message<HeadItem>;

    type Error = ParseError;

    ghost Said = { Messages HeadItem };

    ghost reads = { CodecReads };

    ghost given = { given };

    ghost nothing = { nothing };

    ghost breaks = { Breaks };

    ghost lacks = { λ error. error ≡ errors.NoMemory };

    ghost seen = { HasLookedAt };

    ghost leaves = { CodecLeft };

    ghost holds = { λ item. HasBytes (Some item) };

    ghost Beside = { Writing };

    ghost beside = { codec_writing };

    fn decode(&mut self, src: &mut BytesMut) -> Result<Option<Message<HeadItem>>, ParseError> {
        Codec::decode(self, src)
    }
}

impl Encoder<Message<(Response<()>, BodySize)>> for Codec {
    ghost use Rattle.std.specs.Prelude.{◌≡◌};
    ghost use Rattle.h1_encoder.specs.declared.error.EncodeError.TheVariants as errors;
    ghost use Rattle.h1_codec.specs.ServerState.{Writes, Refuses};
    ghost use Rattle.h1_codec.specs.ServerRefused.{refused_is_not_written};

    type Error = EncodeError;

    ghost writes = { Writes };

    ghost refuses = { Refuses };

    ghost lacks = { λ error. error ≡ errors.NoMemory };

    ghost leaves = { λ _ old new. new ≡ old };

    fn encode(
        &mut self,
        item: Message<(Response<()>, BodySize)>,
        dst: &mut BytesMut,
    ) -> Result<(), EncodeError> {
        Codec::encode(self, item, dst)
    }

    ghost excludes = { λ old new item text error. refused_is_not_written old new item text error };
}
