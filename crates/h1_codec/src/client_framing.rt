//! The codecs as decoders and encoders like any other.
use crate::{ClientCodec, ClientError, ClientPayloadCodec, Message};
use bytes::{Bytes, BytesMut};
use h1_decoder::ResponseItem;
use h1_encoder::EncodeError;
use http_framing::{BodySize, Decoder, Encoder};
use http_types::RequestHeadType;

impl Decoder for ClientCodec {
    ghost use Rattle.std.specs.Prelude.{◌≡◌, ⊤};
    ghost use Rattle.http_types.specs.declared.error.ParseError.TheVariants as parse;
    ghost use Rattle.h1_decoder.specs.declared.response.ResponseItem.{ResponseItem};
    ghost use Rattle.h1_codec.specs.FramedMessages.{Messages, nothing};
    ghost use Rattle.h1_codec.specs.declared.client_error.ClientError.TheVariants as errors;
    ghost use Rattle.h1_codec.specs.ClientAnswers.{head_given};
    ghost use Rattle.h1_codec.specs.ClientState.{HeadReads, HeadLooked, ClientBreaks, Asking, client_asking, of_codec};

    type Item = ResponseItem;

    type Error = ClientError;

    ghost Said = { Messages ResponseItem };

    ghost reads = { HeadReads };

    ghost given = { head_given };

    ghost nothing = { nothing };

    ghost breaks = { ClientBreaks };

    ghost lacks = { λ error. error ≡ errors.Parse parse.NoMemory };

    ghost seen = { HeadLooked };

    ghost leaves = { λ _ old bytes new rest. (new ≡ old) × (rest ≡ bytes) };

    ghost holds = { λ _. ⊤ };

    ghost Beside = { Asking };

    ghost beside = { λ c. client_asking (of_codec c) };

    fn decode(&mut self, src: &mut BytesMut) -> Result<Option<ResponseItem>, ClientError> {
        ClientCodec::decode(self, src)
    }
}

impl Decoder for ClientPayloadCodec {
    ghost use Rattle.std.specs.Prelude.{◌≡◌, Some};
    ghost use Rattle.http_types.specs.declared.error.ParseError.TheVariants as parse;
    ghost use Rattle.h1_decoder.specs.declared.response.ResponseItem.{ResponseItem};
    ghost use Rattle.h1_codec.specs.FramedMessages.{Messages, nothing};
    ghost use Rattle.h1_codec.specs.ServerAnswers.{HasBytes};
    ghost use Rattle.h1_codec.specs.declared.client_error.ClientError.TheVariants as errors;
    ghost use Rattle.h1_codec.specs.ClientAnswers.{chunk_given, ChunkLeft};
    ghost use Rattle.h1_codec.specs.ClientPieces.{as_chunk};
    ghost use Rattle.h1_codec.specs.ClientState.{PayloadReads, PayloadLooked, ClientBreaks, Asking, client_asking, of_payload};

    type Item = Option<Bytes>;

    type Error = ClientError;

    ghost Said = { Messages ResponseItem };

    ghost reads = { PayloadReads };

    ghost given = { chunk_given };

    ghost nothing = { nothing };

    ghost breaks = { ClientBreaks };

    ghost lacks = { λ error. error ≡ errors.Parse parse.NoMemory };

    ghost seen = { PayloadLooked };

    ghost leaves = { λ error old bytes new rest. ChunkLeft error (of_payload old) bytes (of_payload new) rest };

    ghost holds = { λ item. HasBytes (as_chunk (Some item)) };

    ghost Beside = { Asking };

    ghost beside = { λ c. client_asking (of_payload c) };

    fn decode(&mut self, src: &mut BytesMut) -> Result<Option<Option<Bytes>>, ClientError> {
        ClientPayloadCodec::decode(self, src)
    }
}

impl Encoder<Message<(RequestHeadType, BodySize)>> for ClientCodec {
    ghost use Rattle.std.specs.Prelude.{◌≡◌};
    ghost use Rattle.h1_encoder.specs.declared.error.EncodeError.TheVariants as errors;
    ghost use Rattle.h1_codec.specs.ClientState.{of_codec};
    ghost use Rattle.h1_codec.specs.Writing.{Writes, Refuses};
    ghost use Rattle.h1_codec.specs.ClientRefused.{refused_is_not_written};

    type Error = EncodeError;

    ghost writes = { Writes };

    ghost refuses = { λ error old item. Refuses error (of_codec old) item };

    ghost lacks = { λ error. error ≡ errors.NoMemory };

    ghost leaves = { λ _ old new. new ≡ old };

    fn encode(
        &mut self,
        item: Message<(RequestHeadType, BodySize)>,
        dst: &mut BytesMut,
    ) -> Result<(), EncodeError> {
        ClientCodec::encode(self, item, dst)
    }

    ghost excludes = { λ old new item text error. refused_is_not_written old new item text error };
}
