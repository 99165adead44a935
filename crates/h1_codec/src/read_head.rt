//! The heads that a decoder of messages reads.
ghost use Rattle.std.specs.Prelude.{◌≡◌, IfOk, IfErr};
ghost use Rattle.http_framing.specs.Kinds.{kind_of};
ghost use Rattle.h1_decoder.specs.Refusal.{UnlessNoMemory, fault_of};
ghost use Rattle.h1_codec.specs.Kind.{says_head, says_fault, Kind, IsOneReading};

use bytes::Bytes;
use h1_decoder::{HeadItem, ResponseItem, request_head, response_head};
use http_framing::BodyKind;
use http_types::ParseError;
use std::alloc::Global;

/// A head that a `MessageDecoder` reads.
pub trait ReadHead: Sized + Drop {
    // What a piece is read as, what a head says of it, and why a piece is refused.
    ghost kind: { Kind Self };

    /// What the head says that `piece` is. A piece that is no head is refused; the only other error is `NoMemory`.
    fn read_head(alloc: Global, piece: Bytes) -> Result<Self, ParseError>
        ensures head { IfOk result (λ item. (h : kind.Head) × kind.reads piece (says_head h) × kind.says item h) }
        ensures fault { IfErr result (λ e. UnlessNoMemory e (kind.reads piece (says_fault (fault_of e)))) }
        ensures cause { IfErr result (λ e. UnlessNoMemory e (kind.refuses e piece)) };

    /// Where the body ends.
    fn body_kind(&self) -> BodyKind
        ensures { (h : kind.Head) → kind.says self.now h → kind_of result ≡ kind.body h };

    // A piece is read in one way.
    ghost one_reading: { IsOneReading kind };
}

impl ReadHead for HeadItem {
    ghost use Rattle.h1_codec.specs.Kinds.{requests};
    ghost use Rattle.h1_codec.specs.OneReading.{one_request};

    ghost kind = { requests };

    fn read_head(alloc: Global, piece: Bytes) -> Result<HeadItem, ParseError> {
        request_head(alloc, piece)
    }

    fn body_kind(&self) -> BodyKind {
        self.body
    }

    ghost one_reading = { one_request };
}

impl ReadHead for ResponseItem {
    ghost use Rattle.h1_codec.specs.Kinds.{answers};
    ghost use Rattle.h1_codec.specs.OneReading.{one_answer};

    ghost kind = { answers };

    fn read_head(alloc: Global, piece: Bytes) -> Result<ResponseItem, ParseError> {
        response_head(alloc, piece)
    }

    fn body_kind(&self) -> BodyKind {
        self.body
    }

    ghost one_reading = { one_answer };
}
