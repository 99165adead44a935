//! The codec of a client while the body of an answer is open.
ghost use Rattle.std.specs.Prelude.{◌≡◌, ◌≢◌, ◌↔◌, ◌++◌, ℕ, List, None, Ok, Err, IsTrue, IfOk, IfErr, OnOk};
ghost use Rattle.http_framing.specs.AnyPieces.{GoesOn, OnlySays, in_front};
ghost use Rattle.http_types.specs.declared.message.ConnectionType.{ConnectionType as Kind};
ghost use Rattle.http_types.specs.declared.message.ConnectionType.TheVariants as kinds;
ghost use Rattle.http_types.specs.declared.error.ParseError.TheVariants as errors;
ghost use Rattle.h1_codec.specs.ServerAnswers.{HasBytes, HasEnded, HasTrailers};
ghost use Rattle.h1_codec.specs.Light.{NeedsNoMemory};
ghost use Rattle.h1_codec.specs.FramedMessages.{nothing};
ghost use Rattle.h1_codec.specs.ClientAnswers.{chunk_given, ChunkLeft, HasNoted, IsChunkStep};
ghost use Rattle.h1_codec.specs.ClientPieces.{as_chunk};
ghost use Rattle.h1_codec.specs.ClientState.{
  of_codec,
  of_payload,
  client_standing,
  client_trailers,
  client_passes_on,
  client_connection,
  client_asking,
  ClientBreaks,
  PayloadReads,
  PayloadLooked,
  left_to_come,
};
ghost use Rattle.h1_codec.specs.Writing.{without_trailers};

use crate::client_state::Client;
use crate::{ClientCodec, ClientError, MessageType};
use bytes::{Bytes, BytesMut};
use http_types::{ConnectionType, HeaderMap};

/// Reads the body of an answer whose head a [`ClientCodec`] has read.
#[derive(Debug, Drop)]
pub struct ClientPayloadCodec {
    pub(crate) client: Client,
}

impl ClientPayloadCodec {
    /// Whether the connection is kept alive: the request that was encoded last asks for it, and no answer since says that it
    /// closes or goes on to another protocol. It stays true after an answer of HTTP/1.0 with a length and no `Connection` line,
    /// and after one that other readers may frame in another way: send nothing after either.
    pub fn keep_alive(&self) -> bool
        ensures { IsTrue result ↔ (client_connection (of_payload self.now) ≡ kinds.KeepAlive) }
    {
        self.client.connection == ConnectionType::KeepAlive
    }

    /// What is left to come of the answer. `None` says that no body is open.
    pub fn message_type(&self) -> MessageType
        ensures { result ≡ left_to_come (client_passes_on (of_payload self.now)) (client_standing (of_payload self.now)).body }
    {
        self.client.message_type()
    }

    /// The trailers of the body whose end was decoded last, where it had some, no other item came since, and they weren't
    /// taken (RFC 7230, section 4.1.2).
    pub fn take_trailers(&mut self) -> Option<HeaderMap>
        ensures taken { result ≡ client_trailers (of_payload self.old) }
        ensures others { of_payload self.new ≡ without_trailers (of_payload self.old) }
    {
        self.client.trailers.take()
    }

    /// The codec that reads the next head, once the body has ended. Nothing else changes.
    pub fn into_message_codec(self) -> ClientCodec
        ensures { of_codec result ≡ of_payload self }
    {
        ClientCodec {
            client: self.client,
        }
    }

    /// The next bytes of the body, once they are there (one at least), and then its end, once. What was passed is taken off
    /// the front of `src`.
    ///
    /// `Misplaced` comes exactly where no body is open: `message_type` is `None`. A body that breaks the grammar of chunks
    /// is `ParseError::Chunk`, from then on for good. The only other error is `NoMemory`, and all is as before. The end and a
    /// fault need no memory, and neither does a `None`, but for the text of a trailer section that is kept.
    pub fn decode(&mut self, src: &mut BytesMut) -> Result<Option<Option<Bytes>>, ClientError>
        ensures goes_on { IfOk result (λ answer. GoesOn PayloadReads chunk_given self.old src.old.items (in_front PayloadReads chunk_given answer) self.new src.new.items) }
        ensures waiting { result ≡ Ok None → PayloadLooked self.old src.old.items → OnlySays PayloadReads self.old src.old.items (λ said. said ≡ nothing) }
        ensures refused { IfErr result (λ e. ¬ (e ≡ ClientError.Parse errors.NoMemory) → PayloadLooked self.old src.old.items → OnlySays PayloadReads self.old src.old.items (ClientBreaks e)) }
        ensures misplaced { (result ≡ Err ClientError.Misplaced) ↔ ((client_standing (of_payload self.old)).body ≡ None) }
        ensures step { IsChunkStep (of_payload self.old) src.old.items result (of_payload self.new) src.new.items }
        ensures some { IfOk result (λ answer. HasBytes (as_chunk answer)) }
        ensures ended { IfOk result (λ answer. HasEnded (as_chunk answer) (client_standing (of_payload self.new))) }
        ensures no_memory_needed { NeedsNoMemory (client_standing (of_payload self.old)) src.old.items → result ≢ Err (ClientError.Parse errors.NoMemory) }
        ensures lacking { IfErr result (λ e. e ≡ ClientError.Parse errors.NoMemory → (self.new ≡ self.old) × (src.new.items ≡ src.old.items)) }
        ensures left { IfErr result (λ e. ChunkLeft e (of_payload self.old) src.old.items (of_payload self.new) src.new.items) }
        ensures seen { OnOk result (PayloadLooked self.old src.old.items → (more : List ℕ) → PayloadLooked self.new (src.new.items ++ more)) }
        ensures trailers { IfOk result (λ answer. HasTrailers (client_standing (of_payload self.old)) src.old.items (client_trailers (of_payload self.old)) (as_chunk answer) (client_trailers (of_payload self.new))) }
        ensures noted { HasNoted (of_payload self.old) None (of_payload self.new) }
        ensures asking { client_asking (of_payload self.new) ≡ client_asking (of_payload self.old) }
        ensures limit { (client_standing (of_payload self.new)).search.limit ≡ (client_standing (of_payload self.old)).search.limit }
    {
        self.client.decode_chunk(src)
    }
}
