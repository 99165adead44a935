//! What reads the body of a message.
ghost use Rattle.std.specs.Prelude.{◌≡◌};
ghost use Rattle.http_framing.specs.Kinds.{kind_of};
ghost use Rattle.h1_codec.specs.Heads.{payload_of};

use h1_payload::PayloadDecoder;
use http_framing::BodyKind;

/// What reads the body after a head, which begins with the next byte.
#[derive(Debug, Drop)]
pub enum PayloadType {
    /// There is no body.
    None,

    /// A body that says where it ends: it has a length, or comes in chunks (RFC 7230, section 3.3.3).
    Payload(PayloadDecoder),

    /// All that follows.
    Stream(PayloadDecoder),
}

impl PayloadType {
    /// What reads a body of this kind. It takes no memory.
    pub fn of(kind: BodyKind) -> PayloadType
        ensures { result ≡ payload_of (kind_of kind) }
    {
        match kind {
            BodyKind::None => PayloadType::None,
            BodyKind::Length(length) => PayloadType::Payload(PayloadDecoder::length(length)),
            BodyKind::Chunked => PayloadType::Payload(PayloadDecoder::chunked()),
            BodyKind::Raw => PayloadType::Stream(PayloadDecoder::eof()),
        }
    }
}
