//! Replies of a forwarder's own.
ghost use Rattle.std.specs.Prelude.{◌≡◌};
ghost use Rattle.h1_encoder.specs.Meaning.{answer_of};
ghost use Rattle.proxy_heads.specs.ForwardedMeaning.{status_of, refusal_of};

use http_types::{ConnectionType, ResponseHead, StatusCode};
use std::alloc::Global;

/// Why a forwarder answers a request itself. The reply has no body.
#[derive(Clone, Copy, Debug, PartialEq, Eq)]
pub enum Refusal {
    /// The request's head breaks a rule of RFC 9112, section 3.2: 400, and the connection closes.
    BadHead,

    /// The request's body breaks a rule of RFC 7230, section 4.1, or the input ended inside it: 400.
    BrokenBody,

    /// The request can't be sent on: it is a CONNECT, asks for another protocol, or no server can be asked for its
    /// target: 501.
    NotForwardable,

    /// No server is to be had, or its answer is bad: 502.
    NoAnswer,
}

impl Refusal {
    /// The status of the reply (RFC 7231, section 6).
    pub fn status(self) -> StatusCode
        ensures { result ≡ status_of self }
    {
        match self {
            Refusal::BadHead | Refusal::BrokenBody => StatusCode::BAD_REQUEST,
            Refusal::NotForwardable => StatusCode::NOT_IMPLEMENTED,
            Refusal::NoAnswer => StatusCode::BAD_GATEWAY,
        }
    }

    /// The head of the reply: its status, that it closes the connection where the head was bad, and nothing more. It takes no
    /// memory.
    pub fn head(self, alloc: Global) -> ResponseHead
        ensures { answer_of result ≡ refusal_of self }
    {
        let mut head = ResponseHead::new(alloc, self.status());
        if let Refusal::BadHead = self {
            head.set_connection_type(ConnectionType::Close);
        }
        head
    }
}
