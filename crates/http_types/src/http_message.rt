//! What a message of either kind tells of its body.
ghost use Rattle.std.specs.Prelude.{◌≡◌, Option, None};
ghost use Rattle.http_map.specs.HeaderMap.{Entries};
ghost use Rattle.http_types.specs.HttpMessage.{content_type_of, chunked_of, asks_to_upgrade};

use crate::text::{first_text, has_word, media_type, text_of};
use crate::{HeaderMap, ParseError};
use http_map::{CONNECTION, CONTENT_TYPE, TRANSFER_ENCODING};

/// A message with headers and a payload.
pub trait HttpMessage {
    /// What the payload is.
    type Stream;

    // The headers.
    ghost fields: { Self → Entries };

    // The payload, where it is there.
    ghost payload: { Self → Option Self.Stream };

    /// The headers.
    fn headers(&self) -> &HeaderMap
        ensures { result.now ≡ fields self.now };

    /// Takes the payload out of the message.
    fn take_payload(&mut self) -> Option<Self::Stream>
        ensures payload { result ≡ payload self.old }
        ensures taken { payload self.new ≡ None }
        ensures headers { fields self.new ≡ fields self.old };

    /// The media type of the body, without its parameters: what the first `Content-Type` has before
    /// a `;`, trimmed (RFC 7231, section 3.1.1.5). It is empty where there is none, or where its
    /// value is no text.
    fn content_type(&self) -> &str
        ensures { result.now ≡ content_type_of (fields self.now) }
    {
        content_type(self.headers())
    }

    /// Whether the body comes in chunks: whether the first `Transfer-Encoding` has the word
    /// `chunked` in any case (RFC 7230, section 3.3.1). `Header` where its value is no text.
    fn chunked(&self) -> Result<bool, ParseError>
        ensures { result ≡ chunked_of (fields self.now) }
    {
        chunked(self.headers())
    }
}

impl<M: HttpMessage> HttpMessage for &mut M {
    type Stream = M::Stream;

    ghost fields = { λ m. M.fields m.now };

    ghost payload = { λ m. M.payload m.now };

    fn headers(&self) -> &HeaderMap {
        (**self).headers()
    }

    fn take_payload(&mut self) -> Option<M::Stream> {
        (**self).take_payload()
    }
}

fn content_type(headers: &HeaderMap) -> &str
    ensures { result.now ≡ content_type_of headers.now }
{
    media_type(first_text(headers, CONTENT_TYPE).unwrap_or(""))
}

fn chunked(headers: &HeaderMap) -> Result<bool, ParseError>
    ensures { result ≡ chunked_of headers.now }
{
    match headers.get(TRANSFER_ENCODING) {
        Some(value) => match text_of(value) {
            Some(text) => Ok(has_word(text.as_bytes(), b"chunked")),
            None => Err(ParseError::Header),
        },
        None => Ok(false),
    }
}

// Whether the first `Connection` is a text with the word `upgrade` in any case.
pub(crate) fn asks_to_upgrade(headers: &HeaderMap) -> bool
    ensures { result ≡ asks_to_upgrade headers.now }
{
    match first_text(headers, CONNECTION) {
        Some(text) => has_word(text.as_bytes(), b"upgrade"),
        None => false,
    }
}
