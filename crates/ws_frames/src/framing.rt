//! A codec as a decoder and an encoder like any other. What memory they take is that of the buffer's allocator.
use crate::codec::Codec;
use crate::error::ProtocolError;
use crate::message::{Frame, Message};
use bytes::BytesMut;
use http_framing::{Decoder, Encoder};
use rand_core::Rng;

impl<R> Decoder for Codec<R> {
    ghost use Rattle.std.specs.Prelude.{◌≡◌, ⊤, false};
    ghost use Rattle.ws_frames.specs.CodecState.{with_reading};
    ghost use Rattle.ws_frames.specs.declared.codec.Codec.{Codec};
    ghost use Rattle.ws_frames.specs.Framing.{Frames, Reads, given, no_frames, Breaks, LeftAfter};
    ghost use Rattle.ws_frames.specs.declared.error.ProtocolError.TheVariants as errors;

    type Item = Frame;

    type Error = ProtocolError;

    ghost Said = { Frames };

    ghost reads = { Reads };

    ghost given = { given };

    ghost nothing = { no_frames };

    ghost breaks = { Breaks };

    ghost lacks = { λ error. error ≡ errors.NoMemory };

    ghost seen = { λ _ _. ⊤ };

    ghost leaves = { LeftAfter };

    ghost holds = { λ _. ⊤ };

    ghost Beside = { Codec R };

    ghost beside = { with_reading false };

    fn decode(&mut self, src: &mut BytesMut) -> Result<Option<Frame>, ProtocolError> {
        let alloc = *src.allocator();
        Codec::decode(self, alloc, src)
    }
}

impl<R: Rng> Encoder<Message> for Codec<R> {
    ghost use Rattle.std.specs.Prelude.{◌≡◌};
    ghost use Rattle.ws_frames.specs.Framing.{Writes, Forbids, forbidden_has_no_text};
    ghost use Rattle.ws_frames.specs.declared.error.ProtocolError.TheVariants as errors;

    type Error = ProtocolError;

    ghost writes = { Writes R.stream };

    ghost refuses = { Forbids };

    ghost lacks = { λ error. error ≡ errors.NoMemory };

    ghost leaves = { λ _ old new. new ≡ old };

    fn encode(&mut self, item: Message, dst: &mut BytesMut) -> Result<(), ProtocolError> {
        let alloc = *dst.allocator();
        Codec::encode(self, alloc, item, dst)
    }

    ghost excludes = { λ old new item text error. forbidden_has_no_text R.stream old new item text error };
}
