//! The codec of a server.
ghost use Rattle.std.specs.Prelude.{◌≡◌, ◌≢◌, ◌↔◌, ◌++◌, ℕ, List, None, Ok, Err, IsTrue, IfOk, IfErr, OnOk, OnErr, false};
ghost use Rattle.http_config.specs.declared.keep_alive.KeepAlive.TheVariants.{Disabled};
ghost use Rattle.http_framing.specs.AnyPieces.{GoesOn, OnlySays, in_front};
ghost use Rattle.model_h1.specs.Request as model;
ghost use Rattle.h1_encoder.specs.Encoding.{of_length};
ghost use Rattle.h1_encoder.specs.Meaning.{model_type, minor_of};
ghost use Rattle.h1_codec.specs.Heads.{HasSeen};
ghost use Rattle.h1_codec.specs.ServerAnswers.{HasTrailers, HasBytes, HasEnded, IsHead, IsCauseAt};
ghost use Rattle.h1_codec.specs.Kinds.{requests};
ghost use Rattle.h1_codec.specs.Light.{NeedsNoMemory};
ghost use Rattle.h1_codec.specs.FramedMessages.{given, nothing, Breaks};
ghost use Rattle.h1_codec.specs.Steps.{IsStep};
ghost use Rattle.h1_codec.specs.ServerState.{
  codec_settings,
  codec_standing,
  codec_trailers,
  codec_asked,
  codec_connection,
  codec_moment,
  codec_encoding,
  with_now,
  without_trailers,
  KeepsWriting,
  KeepsAll,
  is_enabled,
  allowed,
  CodecReads,
  HasLookedAt,
  CodecLeft,
  HasAsked,
  IsHeadWritten,
  begun,
  Writes,
  Refuses,
  with_answer,
  left_to_come,
};

use crate::MessageDecoder;
use crate::framed_message::{Message, MessageType};
use crate::next_item::next_message;
use bytes::BytesMut;
use h1_decoder::HeadItem;
use h1_encoder::{Asked, EncodeError, MessageEncoder, type_of};
use h1_payload::PayloadDecoder;
use http_config::{KeepAlive, ServiceConfig};
use http_framing::BodySize;
use http_types::{ConnectionType, HeaderMap, ParseError, Response, ResponseHead, Version};

/// The last millisecond of the year 9999, since 1970: later moments are written as this one.
const LAST_MOMENT: u64 = 253_402_300_799_999;

/// Reads requests and writes answers: heads, pieces of bodies, and their ends.
///
/// An answer is framed for the request whose head was decoded last, unless [`Codec::set_context`] names another.
#[derive(Debug, Drop)]
pub struct Codec {
    config: ServiceConfig,
    heads: MessageDecoder<HeadItem>,
    body: Option<PayloadDecoder>,
    trailers: Option<HeaderMap>,
    version: Version,
    is_head: bool,
    is_raw: bool,
    asked: ConnectionType,
    connection: ConnectionType,
    moment: u64,
    encoder: MessageEncoder<ResponseHead>,
}

impl Codec {
    /// A codec that has read and written nothing: its heads end within the hold size of `config`. Until a head is decoded
    /// it answers HTTP/1.1 and closes the connection. Its moment is 0.
    pub fn new(config: ServiceConfig) -> Self
        ensures settings { codec_settings result ≡ config }
        ensures limit { (codec_standing result).search.limit ≡ config.h1_hold_size }
        ensures seen { (bytes : List ℕ) → HasSeen (codec_standing result).search bytes }
        ensures body { (codec_standing result).body ≡ None }
        ensures trailers { codec_trailers result ≡ None }
        ensures asked { codec_asked result ≡ record { minor = 1; is_head = false; is_raw = false; connection = model.close } }
        ensures connection { codec_connection result ≡ ConnectionType.Close }
        ensures moment { codec_moment result ≡ 0 }
        ensures encoding { codec_encoding result ≡ of_length 0 }
    {
        Codec {
            config,
            heads: MessageDecoder::with_limit(config.h1_hold_size()),
            body: None,
            trailers: None,
            version: Version::HTTP_11,
            is_head: false,
            is_raw: false,
            asked: ConnectionType::Close,
            connection: ConnectionType::Close,
            moment: 0,
            encoder: MessageEncoder::new(),
        }
    }

    /// Whether the connection goes on to another protocol, by the request or the answer that came last.
    pub fn upgrade(&self) -> bool
        ensures { IsTrue result ↔ (codec_connection self.now ≡ ConnectionType.Upgrade) }
    {
        self.connection == ConnectionType::Upgrade
    }

    /// Whether the connection is kept alive, by the request or the answer that came last.
    pub fn keep_alive(&self) -> bool
        ensures { IsTrue result ↔ (codec_connection self.now ≡ ConnectionType.KeepAlive) }
    {
        self.connection == ConnectionType::KeepAlive
    }

    /// Whether the config lets connections be kept alive.
    pub fn keep_alive_enabled(&self) -> bool
        ensures { result ≡ is_enabled (codec_settings self.now).keep_alive }
    {
        is_enabled(self.config.keep_alive())
    }

    /// The config.
    pub fn config(&self) -> &ServiceConfig
        ensures { result.now ≡ codec_settings self.now }
    {
        &self.config
    }

    /// Sets the moment of the date lines, in milliseconds since the start of 1970. From the year 10000 on it counts as the
    /// last of 9999.
    pub fn set_now(&mut self, now: u64)
        ensures { self.new ≡ with_now now self.old }
    {
        self.moment = now;
    }

    /// Frames the next answers for another request: whether it is HEAD, whether its body is raw, its version, and what it
    /// asks of the connection.
    pub fn set_context(
        &mut self,
        head: bool,
        stream: bool,
        version: Version,
        conn_type: ConnectionType,
    )
        ensures asked { codec_asked self.new ≡ record { minor = minor_of version; is_head = head; is_raw = stream; connection = model_type conn_type } }
        ensures connection { codec_connection self.new ≡ allowed (is_enabled (codec_settings self.old).keep_alive) conn_type }
        ensures standing { codec_standing self.new ≡ codec_standing self.old }
        ensures trailers { codec_trailers self.new ≡ codec_trailers self.old }
        ensures writing { KeepsWriting self.old self.new }
    {
        self.version = version;
        self.is_head = head;
        self.is_raw = stream;
        self.asked = conn_type;
        self.connection = allowed(self.keep_alive_enabled(), conn_type);
    }

    /// The trailers of the body whose end was decoded last, where it had some, no other item came since, and they weren't
    /// taken (RFC 7230, section 4.1.2).
    pub fn take_trailers(&mut self) -> Option<HeaderMap>
        ensures taken { result ≡ codec_trailers self.old }
        ensures others { self.new ≡ without_trailers self.old }
    {
        self.trailers.take()
    }

    /// The next item, once it is there: a head, bytes of its body (one at least), or the body's end. A head without a body
    /// has no end. What was passed is taken off the front of `src`.
    ///
    /// A body that breaks the grammar of chunks is `ParseError::Chunk`, from then on for good. Else an error is that of the
    /// next head (`MessageDecoder::decode`) or `NoMemory`, and all is as before. Bytes that `None` or an error left must be
    /// there at the next call, with any others after them.
    pub fn decode(&mut self, src: &mut BytesMut) -> Result<Option<Message<HeadItem>>, ParseError>
        ensures goes_on { IfOk result (λ answer. GoesOn CodecReads given self.old src.old.items (in_front CodecReads given answer) self.new src.new.items) }
        ensures waiting { result ≡ Ok None → HasLookedAt self.old src.old.items → OnlySays CodecReads self.old src.old.items (λ said. said ≡ nothing) }
        ensures refused { IfErr result (λ e. ¬ (e ≡ ParseError.NoMemory) → HasLookedAt self.old src.old.items → OnlySays CodecReads self.old src.old.items (Breaks e)) }
        ensures cause { IfErr result (IsCauseAt requests (codec_standing self.old) src.old.items) }
        ensures step { IsStep requests (codec_standing self.old) src.old.items result (codec_standing self.new) src.new.items }
        ensures item { IfOk result (λ answer. IsHead requests false (codec_standing self.old) src.old.items answer (codec_standing self.new) src.new.items) }
        ensures some { IfOk result HasBytes }
        ensures ended { IfOk result (λ answer. HasEnded answer (codec_standing self.new)) }
        ensures no_memory_needed { NeedsNoMemory (codec_standing self.old) src.old.items → result ≢ Err ParseError.NoMemory }
        ensures lacking { IfErr result (λ e. e ≡ ParseError.NoMemory → (self.new ≡ self.old) × (src.new.items ≡ src.old.items)) }
        ensures left { IfErr result (λ e. CodecLeft e self.old src.old.items self.new src.new.items) }
        ensures seen { OnOk result (HasLookedAt self.old src.old.items → (more : List ℕ) → HasLookedAt self.new (src.new.items ++ more)) }
        ensures trailers { IfOk result (λ answer. HasTrailers (codec_standing self.old) src.old.items (codec_trailers self.old) answer (codec_trailers self.new)) }
        ensures asked { IfOk result (λ answer. HasAsked self.old answer self.new) }
        ensures writing { KeepsWriting self.old self.new }
        ensures limit { (codec_standing self.new).search.limit ≡ (codec_standing self.old).search.limit }
    {
        match next_message(
            &mut self.heads,
            &mut self.body,
            &mut self.trailers,
            false,
            src,
        ) {
            Ok(Some(Message::Item(item))) => {
                self.note(&item);
                Ok(Some(Message::Item(item)))
            }
            Ok(Some(Message::Chunk(piece))) => Ok(Some(Message::Chunk(piece))),
            Ok(None) => Ok(None),
            Err(error) => Err(error),
        }
    }

    /// What the next answer needs of its request is what this head says.
    fn note(&mut self, item: &HeadItem)
        ensures asked { HasAsked self.old (Some (Message.Item item.now)) self.new }
        ensures standing { codec_standing self.new ≡ codec_standing self.old }
        ensures trailers { codec_trailers self.new ≡ codec_trailers self.old }
        ensures writing { KeepsWriting self.old self.new }
    {
        self.set_context(
            item.is_head(),
            item.is_raw(),
            item.head.version,
            item.connection_type(),
        );
    }

    /// Writes an item after what `dst` holds: the head of an answer, with the size of its body; bytes of the body; or its
    /// end. The head is that of the definitions for the request and the moment. Bytes beyond a stated length are cut, and
    /// after HEAD no byte of a body goes out. Of a body in chunks empty bytes are the end, which is written once.
    ///
    /// `Short(n)` comes exactly for an end where n bytes of a stated length are missing; the only other error is
    /// `NoMemory`. An error changes nothing.
    pub fn encode(
        &mut self,
        item: Message<(Response<()>, BodySize)>,
        dst: &mut BytesMut,
    ) -> Result<(), EncodeError>
        ensures ok { OnOk result ((text : List ℕ) × (dst.new.items ≡ dst.old.items ++ text) × Writes self.old item text self.new) }
        ensures err { OnErr result ((dst.new.items ≡ dst.old.items) × (self.new ≡ self.old)) }
        ensures refused { IfErr result (λ e. ¬ (e ≡ EncodeError.NoMemory) → Refuses e self.old item) }
    {
        match item {
            Message::Item((response, size)) => self.encode_head(response.head(), size, dst),
            Message::Chunk(Some(bytes)) => {
                match self.encoder.encode_chunk(bytes.as_slice(), dst) {
                    Ok(_) => Ok(()),
                    Err(_) => Err(EncodeError::NoMemory),
                }
            }
            Message::Chunk(None) => self.encoder.encode_eof(dst),
        }
    }

    /// Writes a head, after which its body begins.
    fn encode_head(
        &mut self,
        head: &ResponseHead,
        size: BodySize,
        dst: &mut BytesMut,
    ) -> Result<(), EncodeError>
        ensures ok { OnOk result ((text : List ℕ) × (dst.new.items ≡ dst.old.items ++ text) × IsHeadWritten self.old head.now size text self.new) }
        ensures after { OnOk result (self.new ≡ with_answer (codec_connection self.new) (begun (codec_asked self.old) head.now size) self.old) }
        ensures err { OnErr result ((dst.new.items ≡ dst.old.items) × (self.new ≡ self.old)) }
        ensures no_memory { IfErr result (λ e. e ≡ EncodeError.NoMemory) }
    {
        let asked = Asked::new(self.version, self.is_head, self.is_raw, self.asked);
        let connection = type_of(self.keep_alive_enabled(), false, asked, head, size);
        let now = self.moment.min(LAST_MOMENT);
        match self.encoder.encode(
            dst,
            head,
            self.is_head,
            self.is_raw,
            self.version,
            size,
            connection,
            now,
        ) {
            Ok(()) => {
                self.connection = connection;
                Ok(())
            }
            Err(error) => Err(error),
        }
    }

    /// What is left to come of the message that was decoded last.
    pub fn message_type(&self) -> MessageType
        ensures { result ≡ left_to_come (codec_asked self.now).is_raw (codec_standing self.now).body }
    {
        if self.is_raw {
            return MessageType::Stream;
        }
        match self.body {
            None => MessageType::None,
            Some(_) => MessageType::Payload,
        }
    }
}

/// Whether connections may be kept alive.
fn is_enabled(keep_alive: KeepAlive) -> bool
    ensures { result ≡ is_enabled keep_alive }
{
    match keep_alive {
        KeepAlive::Timeout(_) | KeepAlive::Os => true,
        KeepAlive::Disabled => false,
    }
}

/// No connection is kept alive where that is off.
fn allowed(keeps: bool, kind: ConnectionType) -> ConnectionType
    ensures { result ≡ allowed keeps kind }
{
    match kind {
        ConnectionType::KeepAlive if !keeps => ConnectionType::Close,
        kind => kind,
    }
}
