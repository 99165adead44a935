//! Frames that a client sends are read by its server.

ghost use Rattle.std.specs.Prelude.{◌≡◌, ℕ, ◌<◌, ◌^◌, true, false, List, [], ◌++◌, map};
ghost use Rattle.model_ends.specs.MaskedText.{MaskedFrame, HaveMasks, masked_texts};
ghost use Rattle.model_ends.specs.LegalMessages.{AreLegal};
ghost use Rattle.ws_frames.specs.declared.codec.Codec.{Codec};
ghost use Rattle.ws_frames.specs.declared.message.Message.{Message};
ghost use Rattle.ws_frames.specs.CodecState.{codec_server, codec_limit, codec_reading};
ghost use Rattle.ws_session.specs.Session.{SessionParts};
ghost use Rattle.model_codecs.specs.Sent.{frames_sent, AreWritten};
ghost use Rattle.model_codecs.specs.Received.{Act, bytes_came, IsDecoding, IsReading, AreReceived};

use rand_core::Rng;

/// A client's codec writes its messages as their frames, one after another, each under a mask of four bytes.
pub fn messages_are_masked_frames<R: Rng>()
    ensures { (client after : Codec R) (messages : List Message) (text : List ℕ) → codec_server client ≡ false
        → AreWritten R.stream client messages text after
        → (masked : List MaskedFrame) × HaveMasks masked × (map (λ m. m.frame) masked ≡ frames_sent messages) × (text ≡ masked_texts masked) }
{}

/// A server's codec that reads no message in fragments yet, as a new one, gives the frames that a client's codec wrote, in
/// whatever pieces their bytes come.
pub fn a_codec_reads_what_was_sent<R: Rng, W>()
    ensures { (client after : Codec R) (messages : List Message) (text : List ℕ) (server : Codec W) (acts : List Act) (more : List ℕ)
        → codec_server client ≡ false → AreWritten R.stream client messages text after
        → codec_server server ≡ true → codec_reading server ≡ false → codec_limit server < 2 ^ 63
        → AreLegal (codec_limit server) false (frames_sent messages)
        → IsDecoding server [] acts → bytes_came acts ++ more ≡ text → AreReceived (frames_sent messages) acts more }
{}

/// So does a server's session to which nothing has been pushed, as `Session::new(alloc, true, limit)`.
pub fn a_session_reads_what_was_sent<R: Rng>()
    ensures { (client after : Codec R) (messages : List Message) (text : List ℕ) (limit : ℕ) (acts : List Act) (more : List ℕ)
        → codec_server client ≡ false → AreWritten R.stream client messages text after → limit < 2 ^ 63
        → AreLegal limit false (frames_sent messages)
        → IsReading (record { server = true; limit = limit; under_way = false; unread = [] }) acts → bytes_came acts ++ more ≡ text
        → AreReceived (frames_sent messages) acts more }
{}
