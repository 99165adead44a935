//! What both codecs of a client keep.
ghost use Rattle.std.specs.Prelude.{◌≡◌, ◌↔◌, ◌++◌, None, IsTrue, IsSome, IfErr, OnOk, OnErr, ℕ, List, false};
ghost use Rattle.http_types.specs.declared.message.ConnectionType.{ConnectionType as Kind};
ghost use Rattle.http_types.specs.declared.message.ConnectionType.TheVariants as kinds;
ghost use Rattle.h1_encoder.specs.Encoding.{of_length};
ghost use Rattle.h1_codec.specs.ServerState.{is_enabled};
ghost use Rattle.h1_codec.specs.Heads.{HasSeen};
ghost use Rattle.h1_codec.specs.ClientState.{client_standing, client_moment, left_to_come};

use crate::{MessageDecoder, MessageType, ResponseItem};
use bytes::BytesMut;
use h1_encoder::TransferEncoding;
use h1_payload::PayloadDecoder;
use http_config::ServiceConfig;
use http_types::{ConnectionType, HeaderMap};

/// What both codecs keep: the decoder of heads, the body that is open, the trailers of the one that ended last, whether
/// the last request was HEAD, whether the last answer passes on to another protocol, what becomes of the connection, the
/// moment, and how far the body of the request is.
#[derive(Debug, Drop)]
pub(crate) struct Client {
    pub(crate) config: ServiceConfig,
    pub(crate) heads: MessageDecoder<ResponseItem>,
    pub(crate) body: Option<PayloadDecoder>,
    pub(crate) trailers: Option<HeaderMap>,
    pub(crate) is_head: bool,
    pub(crate) passes_on: bool,
    pub(crate) connection: ConnectionType,
    pub(crate) moment: u64,
    pub(crate) encoder: TransferEncoding,
}

impl Client {
    pub(crate) fn new(config: ServiceConfig) -> Self
        ensures settings { result.config ≡ config }
        ensures limit { (client_standing result).search.limit ≡ config.h1_hold_size }
        ensures seen { (bytes : List ℕ) → HasSeen (client_standing result).search bytes }
        ensures body { (client_standing result).body ≡ None }
        ensures trailers { result.trailers ≡ None }
        ensures is_head { result.is_head ≡ false }
        ensures connection { result.connection ≡ kinds.Close }
        ensures moment { client_moment result ≡ 0 }
        ensures encoding { result.encoder ≡ of_length 0 }
    {
        Client {
            config,
            heads: MessageDecoder::with_limit(config.h1_hold_size()),
            body: None,
            trailers: None,
            is_head: false,
            passes_on: false,
            connection: ConnectionType::Close,
            moment: 0,
            encoder: TransferEncoding::empty(),
        }
    }

    /// What is left to come of the answer that was decoded last.
    pub(crate) fn message_type(&self) -> MessageType
        ensures { result ≡ left_to_come self.now.passes_on (client_standing self.now).body }
    {
        match self.body {
            None => MessageType::None,
            Some(_) if self.passes_on => MessageType::Stream,
            Some(_) => MessageType::Payload,
        }
    }
}
