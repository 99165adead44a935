//! The codec of a client.
ghost use Rattle.std.specs.Prelude.{◌≡◌, ◌≢◌, ◌↔◌, ◌++◌, ℕ, List, None, Ok, Err, IsTrue, IsSome, IfOk, IfErr, OnOk, OnErr, false};
ghost use Rattle.http_framing.specs.AnyPieces.{GoesOn, OnlySays, in_front};
ghost use Rattle.http_types.specs.declared.error.ParseError.TheVariants as errors;
ghost use Rattle.h1_encoder.specs.Encoding.{of_length};
ghost use Rattle.h1_codec.specs.Heads.{HasSeen};
ghost use Rattle.http_types.specs.RequestHeadType.{shown_head};
ghost use Rattle.h1_encoder.specs.RequestMeaning.{asked_head, has_text};
ghost use Rattle.h1_codec.specs.Kinds.{answers};
ghost use Rattle.h1_codec.specs.ServerAnswers.{IsHead, HasTrailers};
ghost use Rattle.h1_codec.specs.Light.{NeedsNoMemory};
ghost use Rattle.h1_codec.specs.FramedMessages.{nothing};
ghost use Rattle.h1_codec.specs.ServerState.{is_enabled, allowed};
ghost use Rattle.h1_codec.specs.ClientAnswers.{head_given, ClientCause, HasNoted, IsHeadStep};
ghost use Rattle.h1_codec.specs.ClientPieces.{as_head};
ghost use Rattle.h1_codec.specs.ClientState.{
  of_codec,
  of_payload,
  client_settings,
  client_standing,
  client_trailers,
  client_is_head,
  client_passes_on,
  client_connection,
  client_moment,
  client_encoding,
  client_asking,
  ClientBreaks,
  HeadReads,
  HeadLooked,
  left_to_come,
};
ghost use Rattle.h1_codec.specs.Writing.{Refuses, HasWritten, IsRequestWritten, merged, sent_head, with_headers, with_now, without_trailers};

use crate::client_state::Client;
use crate::merged::merged;
use crate::request::{allowed, encoding_of, is_enabled, is_head};
use crate::{ClientError, ClientPayloadCodec, Message, MessageType};
use bytes::BytesMut;
use h1_decoder::ResponseItem;
use h1_encoder::{EncodeError, has_text, put_request_head};
use http_config::ServiceConfig;
use http_framing::BodySize;
use http_types::{ConnectionType, HeaderMap, RequestHead, RequestHeadType};

/// The last millisecond of the year 9999, since 1970: later moments are written as this one.
pub(crate) const LAST_MOMENT: u64 = 253_402_300_799_999;

/// Writes requests, and reads the heads of answers. The body of an answer is read by the [`ClientPayloadCodec`] that it
/// changes into.
///
/// Whether an answer has a body depends on the request that was encoded last: after HEAD none has.
#[derive(Debug, Drop)]
pub struct ClientCodec {
    pub(crate) client: Client,
}

impl ClientCodec {
    /// A codec that has read and written nothing: its heads end within the hold size of `config`. Until a request is
    /// encoded the connection closes. Its moment is 0.
    pub fn new(config: ServiceConfig) -> Self
        ensures settings { client_settings (of_codec result) ≡ config }
        ensures limit { (client_standing (of_codec result)).search.limit ≡ config.h1_hold_size }
        ensures seen { (bytes : List ℕ) → HasSeen (client_standing (of_codec result)).search bytes }
        ensures body { (client_standing (of_codec result)).body ≡ None }
        ensures trailers { client_trailers (of_codec result) ≡ None }
        ensures is_head { client_is_head (of_codec result) ≡ false }
        ensures connection { client_connection (of_codec result) ≡ ConnectionType.Close }
        ensures moment { client_moment (of_codec result) ≡ 0 }
        ensures encoding { client_encoding (of_codec result) ≡ of_length 0 }
    {
        ClientCodec {
            client: Client::new(config),
        }
    }

    /// Whether the connection goes on to another protocol, by the request or the answer that came last.
    pub fn upgrade(&self) -> bool
        ensures { IsTrue result ↔ (client_connection (of_codec self.now) ≡ ConnectionType.Upgrade) }
    {
        self.client.connection == ConnectionType::Upgrade
    }

    /// Whether the connection is kept alive: the request that was encoded last asks for it, and no answer since says that it
    /// closes or goes on to another protocol. It stays true after an answer of HTTP/1.0 with a length and no `Connection` line,
    /// and after one that other readers may frame in another way: send nothing after either.
    pub fn keep_alive(&self) -> bool
        ensures { IsTrue result ↔ (client_connection (of_codec self.now) ≡ ConnectionType.KeepAlive) }
    {
        self.client.connection == ConnectionType::KeepAlive
    }

    /// What is left to come of the answer whose head was decoded last. `None` says that no body is open.
    pub fn message_type(&self) -> MessageType
        ensures { result ≡ left_to_come (client_passes_on (of_codec self.now)) (client_standing (of_codec self.now)).body }
    {
        self.client.message_type()
    }

    /// Sets the moment of the date lines, in milliseconds since the start of 1970. From the year 10000 on it counts as the
    /// last of 9999.
    pub fn set_now(&mut self, now: u64)
        ensures { of_codec self.new ≡ with_now now (of_codec self.old) }
    {
        self.client.moment = now;
    }

    /// The trailers of the body whose end was decoded last, where it had some, no other item came since, and they weren't
    /// taken (RFC 7230, section 4.1.2).
    pub fn take_trailers(&mut self) -> Option<HeaderMap>
        ensures taken { result ≡ client_trailers (of_codec self.old) }
        ensures others { of_codec self.new ≡ without_trailers (of_codec self.old) }
    {
        self.client.trailers.take()
    }

    /// The codec that reads the body which is open. Nothing else changes.
    pub fn into_payload_codec(self) -> ClientPayloadCodec
        ensures { of_payload result ≡ of_codec self }
    {
        ClientPayloadCodec {
            client: self.client,
        }
    }

    /// The head of the next answer, once it is there. What was passed is taken off the front of `src`. After the answer to
    /// HEAD, and where the head frames none, no body is open then.
    ///
    /// `Misplaced` comes exactly where a body is open: `message_type` isn't `None`. Else an error is that of the next head
    /// (`MessageDecoder::decode`) or `NoMemory`. An error changes nothing. Bytes that `None` or an error left must be there
    /// at the next call, with any others after them. Where no head is whole yet, or it is too long, no memory is needed.
    pub fn decode(&mut self, src: &mut BytesMut) -> Result<Option<ResponseItem>, ClientError>
        ensures goes_on { IfOk result (λ answer. GoesOn HeadReads head_given self.old src.old.items (in_front HeadReads head_given answer) self.new src.new.items) }
        ensures waiting { result ≡ Ok None → HeadLooked self.old src.old.items → OnlySays HeadReads self.old src.old.items (λ said. said ≡ nothing) }
        ensures refused { IfErr result (λ e. ¬ (e ≡ ClientError.Parse errors.NoMemory) → HeadLooked self.old src.old.items → OnlySays HeadReads self.old src.old.items (ClientBreaks e)) }
        ensures misplaced { (result ≡ Err ClientError.Misplaced) ↔ IsSome (client_standing (of_codec self.old)).body }
        ensures cause { IfErr result (ClientCause (of_codec self.old) src.old.items) }
        ensures step { IsHeadStep (of_codec self.old) src.old.items result (of_codec self.new) src.new.items }
        ensures item { IfOk result (λ answer. IsHead answers (client_is_head (of_codec self.old)) (client_standing (of_codec self.old)) src.old.items (as_head answer) (client_standing (of_codec self.new)) src.new.items) }
        ensures no_memory_needed { NeedsNoMemory (client_standing (of_codec self.old)) src.old.items → result ≢ Err (ClientError.Parse errors.NoMemory) }
        ensures left { OnErr result ((self.new ≡ self.old) × (src.new.items ≡ src.old.items)) }
        ensures seen { OnOk result (HeadLooked self.old src.old.items → (more : List ℕ) → HeadLooked self.new (src.new.items ++ more)) }
        ensures trailers { IfOk result (λ answer. HasTrailers (client_standing (of_codec self.old)) src.old.items (client_trailers (of_codec self.old)) (as_head answer) (client_trailers (of_codec self.new))) }
        ensures noted { IfOk result (λ answer. HasNoted (of_codec self.old) answer (of_codec self.new)) }
        ensures asking { client_asking (of_codec self.new) ≡ client_asking (of_codec self.old) }
        ensures limit { (client_standing (of_codec self.new)).search.limit ≡ (client_standing (of_codec self.old)).search.limit }
    {
        self.client.decode_head(src)
    }

    /// Writes an item after what `dst` holds: the head of a request, with the size of its body; bytes of the body; or its
    /// end. The head is that of the definitions for the moment; of a shared head with headers beside it those come last, and
    /// stand in place of its own of the same name. A body of unknown size goes out in chunks. Bytes beyond a stated length
    /// are cut. Of a body in chunks empty bytes are the end, which is written once.
    ///
    /// `Version` comes exactly for a head of neither HTTP/1.0 nor HTTP/1.1, and `Short(n)` exactly for an end where n bytes
    /// of a stated length are missing; the only other error is `NoMemory`. An error changes nothing.
    pub fn encode(
        &mut self,
        item: Message<(RequestHeadType, BodySize)>,
        dst: &mut BytesMut,
    ) -> Result<(), EncodeError>
        ensures ok { OnOk result ((text : List ℕ) × (dst.new.items ≡ dst.old.items ++ text) × HasWritten (of_codec self.old) item text (of_codec self.new)) }
        ensures err { OnErr result ((dst.new.items ≡ dst.old.items) × (self.new ≡ self.old)) }
        ensures refused { IfErr result (λ e. ¬ (e ≡ EncodeError.NoMemory) → Refuses e (of_codec self.old) item) }
    {
        match item {
            Message::Item((head, size)) => self.encode_head(&head, size, dst),
            Message::Chunk(Some(bytes)) => {
                match self.client.encoder.encode(bytes.as_slice(), dst) {
                    Ok(_) => Ok(()),
                    Err(_) => Err(EncodeError::NoMemory),
                }
            }
            Message::Chunk(None) => self.client.encoder.encode_eof(dst),
        }
    }

    /// Writes a head, after which its body begins.
    fn encode_head(
        &mut self,
        head: &RequestHeadType,
        size: BodySize,
        dst: &mut BytesMut,
    ) -> Result<(), EncodeError>
        ensures ok { OnOk result ((text : List ℕ) × (dst.new.items ≡ dst.old.items ++ text) × IsRequestWritten (of_codec self.old) (shown_head head.now) (sent_head head.now) size text (of_codec self.new)) }
        ensures err { OnErr result ((dst.new.items ≡ dst.old.items) × (self.new ≡ self.old)) }
        ensures refused { IfErr result (λ e. ¬ (e ≡ EncodeError.NoMemory) → (e ≡ EncodeError.Version) × (has_text (shown_head head.now).version ≡ false)) }
    {
        let shown = head.as_ref();
        if !has_text(shown.version) {
            return Err(EncodeError::Version);
        }
        match head.extra_headers() {
            None => self.put_head(shown, shown, size, dst),
            Some(extra) => self.put_merged(shown, extra, size, dst),
        }
    }

    /// Writes a head with headers beside it.
    fn put_merged(
        &mut self,
        head: &RequestHead,
        extra: &HeaderMap,
        size: BodySize,
        dst: &mut BytesMut,
    ) -> Result<(), EncodeError>
        requires version { IsTrue (has_text head.now.version) }
        ensures ok { OnOk result ((text : List ℕ) × (dst.new.items ≡ dst.old.items ++ text) × IsRequestWritten (of_codec self.old) head.now (with_headers head.now (merged head.now.headers extra.now)) size text (of_codec self.new)) }
        ensures err { OnErr result ((dst.new.items ≡ dst.old.items) × (self.new ≡ self.old)) }
        ensures no_memory { IfErr result (λ e. e ≡ EncodeError.NoMemory) }
    {
        match merged(head, extra) {
            Ok(goes_out) => self.put_head(head, &goes_out, size, dst),
            Err(_) => Err(EncodeError::NoMemory),
        }
    }

    /// Writes what goes out for a head.
    fn put_head(
        &mut self,
        head: &RequestHead,
        goes_out: &RequestHead,
        size: BodySize,
        dst: &mut BytesMut,
    ) -> Result<(), EncodeError>
        requires version { IsTrue (has_text head.now.version) }
        requires same { IsTrue (has_text goes_out.now.version) }
        ensures ok { OnOk result ((text : List ℕ) × (dst.new.items ≡ dst.old.items ++ text) × IsRequestWritten (of_codec self.old) head.now (asked_head goes_out.now) size text (of_codec self.new)) }
        ensures err { OnErr result ((dst.new.items ≡ dst.old.items) × (self.new ≡ self.old)) }
        ensures no_memory { IfErr result (λ e. e ≡ EncodeError.NoMemory) }
    {
        let keeps = is_enabled(self.client.config.keep_alive());
        let connection = allowed(keeps, head.connection_type());
        let now = self.client.moment.min(LAST_MOMENT);
        match put_request_head(dst, goes_out, size, connection, now) {
            Ok(()) => {
                self.client.is_head = is_head(head);
                self.client.connection = connection;
                self.client.encoder = encoding_of(size);
                Ok(())
            }
            Err(_) => Err(EncodeError::NoMemory),
        }
    }
}
