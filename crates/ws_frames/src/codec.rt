//! Frames from bytes, and messages into bytes.
ghost use Rattle.std.specs.Prelude.{◌≡◌, ◌++◌, true, false, IfOk, OnOk, OnErr, IfErr};
ghost use Rattle.rand_core.specs.Steps.{stream_of, steps_u32};
ghost use Rattle.ws_frames.specs.Codec.{IsNamedIfThere};
ghost use Rattle.ws_frames.specs.CodecState.{codec_server, codec_limit, codec_reading, codec_sending, codec_words, with_limit, with_reading, Decoded};
ghost use Rattle.ws_frames.specs.Protocol.{opcode_written};
ghost use Rattle.ws_frames.specs.Sent.{mask_drawn, words_left, with_sending, with_words};
ghost use Rattle.ws_frames.specs.Written.{written};

use crate::error::ProtocolError;
use crate::frame::header::{Found, find_frame};
use crate::frame::text::{put_frame, reserve_frame};
use crate::message::Frame;
use crate::proto::OpCode;
use crate::take::{drop_frame, take_judged};
use bytes::BytesMut;
use rand_core::utils::NextWord;
use rand_core::{Rng, utils};
use std::alloc::Global;

/// The most bytes of a payload, unless another number is set.
const DEFAULT_MAX_SIZE: usize = 65536;

/// Reads frames and writes messages: as a server, which wants a mask on each frame and puts none, or as a client.
#[derive(Debug, Drop)]
pub struct Codec<R> {
    server: bool,
    max_size: usize,
    reading: bool,
    sending: bool,
    words: R,
}

/// No random words: a server needs none.
#[derive(Clone, Copy, Debug, PartialEq, Eq)]
pub struct NoWords;

impl NextWord<u32> for NoWords {
    ghost step = { λ s. (0, s) };

    fn next_word(&mut self) -> u32 {
        0
    }
}

impl Rng for NoWords {
    ghost stream = { stream_of (steps_u32 (λ s. (0, s))) };

    fn next_u32(&mut self) -> u32 {
        self.next_word()
    }

    fn next_u64(&mut self) -> u64 {
        utils::next_u64_via_u32(self)
    }

    fn fill_bytes(&mut self, dst: &mut [u8]) {
        utils::fill_bytes_via_u32(self, dst)
    }
}

impl Codec<NoWords> {
    /// A server's codec, which takes payloads of at most 65536 bytes.
    pub fn new() -> Codec<NoWords>
        ensures server { codec_server result ≡ true }
        ensures limit { codec_limit result ≡ 65536 }
        ensures reading { codec_reading result ≡ false }
        ensures sending { codec_sending result ≡ false }
    {
        Codec {
            server: true,
            max_size: DEFAULT_MAX_SIZE,
            reading: false,
            sending: false,
            words: NoWords,
        }
    }
}

impl<R: Drop> Codec<R> {
    /// The same with another limit, in bytes of a payload.
    pub fn max_size(mut self, size: usize) -> Codec<R>
        ensures { result ≡ with_limit size self }
    {
        self.max_size = size;
        self
    }

    /// A client's codec, whose masks are these words.
    pub fn client_mode<R2: Drop>(self, words: R2) -> Codec<R2>
        ensures server { codec_server result ≡ false }
        ensures limit { codec_limit result ≡ codec_limit self }
        ensures reading { codec_reading result ≡ codec_reading self }
        ensures sending { codec_sending result ≡ codec_sending self }
        ensures words { codec_words result ≡ words }
    {
        Codec {
            server: false,
            max_size: self.max_size,
            reading: self.reading,
            sending: self.sending,
            words,
        }
    }
}

impl<R> Codec<R> {
    /// The next frame, once it is whole. A frame above the limit is refused once it is whole, and dropped, as is any whole
    /// frame that breaks a rule. Memory is taken for a frame alone that breaks no rule; where it ran out, codec and buffer
    /// are as before.
    pub fn decode(
        &mut self,
        alloc: Global,
        src: &mut BytesMut,
    ) -> Result<Option<Frame>, ProtocolError>
        ensures named { IfOk result IsNamedIfThere }
        ensures frame { Decoded (codec_server self.old) (codec_limit self.old) (codec_reading self.old) src.old.items result (codec_reading self.new) src.new.items }
        ensures others { self.new ≡ with_reading (codec_reading self.new) self.old }
    {
        match find_frame(src.as_slice(), self.server, self.max_size) {
            Found::Waits => Ok(None),
            Found::Refuses(error, dropped) => {
                src.advance(dropped);
                Err(error)
            }
            Found::Takes(finished, op, header_len, payload_len) => {
                match take_judged(
                    alloc,
                    src,
                    self.server,
                    self.reading,
                    (finished, op),
                    header_len,
                    payload_len,
                ) {
                    Ok((frame, reading)) => {
                        self.reading = reading;
                        Ok(Some(frame))
                    }
                    Err(error) => match error {
                        ProtocolError::NoMemory => Err(ProtocolError::NoMemory),
                        error => {
                            drop_frame(src, header_len, payload_len);
                            Err(error)
                        }
                    },
                }
            }
        }
    }
}

impl<R: Rng> Codec<R> {
    /// A message that is sent is under way.
    pub(crate) fn is_sending(&self) -> bool
        ensures { result ≡ codec_sending self.now }
    {
        self.sending
    }

    /// A message that is sent is under way from now on, or none.
    pub(crate) fn set_sending(&mut self, sending: bool)
        ensures { self.new ≡ with_sending (codec_words self.old) sending self.old }
    {
        self.sending = sending;
    }

    /// Writes one frame, under the next word as its mask where this is a client. Where memory ran out, nothing changes.
    pub(crate) fn send(
        &mut self,
        dst: &mut BytesMut,
        payload: &[u8],
        op: OpCode,
        finished: bool,
    ) -> Result<(), ProtocolError>
        ensures text { OnOk result (dst.new.items
            ≡ dst.old.items ++ written (mask_drawn (codec_server self.old) (R.stream (codec_words self.old))) finished (opcode_written op) payload.now) }
        ensures words { OnOk result (R.stream (codec_words self.new) ≡ words_left (codec_server self.old) (R.stream (codec_words self.old))) }
        ensures others { OnOk result (self.new ≡ with_words (codec_words self.new) self.old) }
        ensures err { OnErr result ((dst.new.items ≡ dst.old.items) × (self.new ≡ self.old)) }
        ensures memory { IfErr result (λ e. e ≡ ProtocolError.NoMemory) }
    {
        if !reserve_frame(dst, payload) {
            return Err(ProtocolError::NoMemory);
        }
        let mask = draw_mask(self.server, &mut self.words);
        put_frame(dst, payload, op, finished, mask);
        Ok(())
    }
}

/// The mask of the next frame: a server puts none.
fn draw_mask<R: Rng>(server: bool, words: &mut R) -> Option<[u8; 4]>
    ensures mask { result ≡ mask_drawn server (R.stream words.old) }
    ensures left { R.stream words.new ≡ words_left server (R.stream words.old) }
    ensures none { server ≡ true → words.new ≡ words.old }
{
    if server {
        return None;
    }
    Some(words.next_u32().to_le_bytes())
}
