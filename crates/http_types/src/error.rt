//! What goes wrong with messages.
ghost use Rattle.std.specs.Prelude.{◌≡◌, option_copied};

use std::fmt;
use thiserror::Error;

/// What went wrong: in which part of the work, and why, where that is known.
#[derive(Clone, Copy, Debug, PartialEq, Eq)]
pub struct Error {
    /// The part of the work.
    pub kind: Kind,
    /// Why.
    pub cause: Option<Cause>,
}

impl Error {
    /// The part of the work.
    pub fn kind(&self) -> Kind
        ensures { result ≡ self.now.kind }
    {
        self.kind
    }

    /// Why, where that is known.
    pub fn cause(&self) -> Option<&Cause>
        ensures { option_copied result ≡ self.now.cause }
    {
        self.cause.as_ref()
    }
}

impl fmt::Display for Error {
    fn fmt<W: fmt::Write>(&self, f: &mut fmt::Formatter<W>) -> fmt::Result {
        match &self.cause {
            Some(cause) => write!(f, "{}: {}", self.kind, cause),
            None => write!(f, "{}", self.kind),
        }
    }
}

impl std::error::Error for Error {}

/// The part of the work in which something went wrong.
#[derive(Clone, Copy, Debug, PartialEq, Eq, Error)]
pub enum Kind {
    /// A head that is made.
    #[error("error processing HTTP")]
    Http,
    /// A message that is read.
    #[error("error parsing HTTP message")]
    Parse,
    /// The payload of a request.
    #[error("request payload read error")]
    Payload,
    /// The body of a response.
    #[error("response body write error")]
    Body,
    /// A response that is sent.
    #[error("send response error")]
    SendResponse,
    /// A WebSocket.
    #[error("error in WebSocket process")]
    Ws,
    /// The connection itself.
    #[error("connection error")]
    Io,
    /// A message that is written.
    #[error("encoder error")]
    Encoder,
}

/// Why something went wrong.
#[derive(Clone, Copy, Debug, PartialEq, Eq, Error)]
pub enum Cause {
    /// A part of a head is refused.
    #[error("{0}")]
    Http(HttpError),
    /// A message could not be read.
    #[error("{0}")]
    Parse(ParseError),
    /// A payload could not be read.
    #[error("{0}")]
    Payload(PayloadError),
    /// The opening handshake of a WebSocket failed (RFC 6455, section 4).
    #[error("the handshake of the WebSocket failed")]
    Handshake,
    /// A rule of WebSocket frames is broken (RFC 6455, section 5).
    #[error("a rule of WebSocket frames is broken")]
    Protocol,
    /// The body failed, with a number of its own.
    #[error("the body failed with {0}")]
    Body(u32),
    /// The body ended with so many bytes missing.
    #[error("the body ended {0} bytes early")]
    Short(u64),
    /// A read or a write failed.
    #[error("a read or a write failed")]
    Fault,
    /// There was no memory.
    #[error("no memory is left")]
    NoMemory,
}

/// Which part of a head is refused.
#[derive(Clone, Copy, Debug, PartialEq, Eq, Error)]
pub enum HttpError {
    /// A header's name is no token (RFC 7230, section 3.2.6).
    #[error("a header name is no token")]
    Name,
    /// A header's value has a byte that may stand in none (RFC 7230, section 3.2).
    #[error("a header value has a byte that may stand in none")]
    Value,
    /// The reason has a CR or an LF (RFC 7230, section 3.1.2).
    #[error("the reason has a line break")]
    Reason,
}

/// Why a message, its head or its body could not be read.
#[derive(Clone, Copy, Debug, PartialEq, Eq, Error)]
pub enum ParseError {
    /// The method is no token (RFC 7230, section 3.1.1).
    #[error("the method is no token")]
    Method,
    /// The request target is no URI reference of one of its forms (RFC 7230, section 5.3).
    #[error("the request target is malformed")]
    Uri,
    /// The version is not one of HTTP/1 (RFC 7230, section 2.6).
    #[error("the version is not one of HTTP/1")]
    Version,
    /// A header line, or what the headers say together, is malformed (RFC 7230, section 3.2).
    #[error("a header is malformed")]
    Header,
    /// The head has too many lines or too many bytes.
    #[error("the head is too large")]
    TooLarge,
    /// The message ended early. This is never answered.
    #[error("the message is incomplete")]
    Incomplete,
    /// The status code is malformed (RFC 7230, section 3.1.2).
    #[error("the status code is malformed")]
    Status,
    /// The message took too long. This is never answered.
    #[error("the message took too long")]
    Timeout,
    /// Reading failed. This is never answered.
    #[error("reading the message failed")]
    Io,
    /// A text is not UTF-8. This is never answered.
    #[error("a text is not UTF-8")]
    Utf8,
    /// The chunks of the body are malformed (RFC 7230, section 4.1).
    #[error("the chunks of the body are malformed")]
    Chunk,
    /// There was no memory for the message.
    #[error("no memory is left")]
    NoMemory,
}

/// Why a payload could not be read.
#[derive(Clone, Copy, Debug, PartialEq, Eq, Error)]
pub enum PayloadError {
    /// The payload ended early.
    #[error("the payload is incomplete")]
    Incomplete,
    /// The coding of the payload is broken.
    #[error("the coding of the payload is broken")]
    EncodingCorrupted,
    /// The payload is larger than it may be.
    #[error("the payload is too large")]
    Overflow,
    /// The length of the payload isn't known.
    #[error("the length of the payload is unknown")]
    UnknownLength,
    /// Reading failed.
    #[error("reading the payload failed")]
    Io,
    /// There was no memory for the payload.
    #[error("no memory is left")]
    NoMemory,
}

/// Why a connection's requests are served no longer.
#[derive(Clone, Copy, Debug, PartialEq, Eq, Error)]
pub enum DispatchError {
    /// The service failed. This is never answered.
    #[error("the service failed")]
    Service,
    /// The body of a response failed.
    #[error("the body of a response failed")]
    Body,
    /// The service that takes over an upgraded connection failed.
    #[error("the upgrade failed")]
    Upgrade,
    /// A read or a write failed.
    #[error("a read or a write failed")]
    Io,
    /// A request could not be read.
    #[error("a request could not be read: {0}")]
    Parse(ParseError),
    /// HTTP/2 failed. This is never answered.
    #[error("HTTP/2 failed")]
    H2,
    /// The first request's head took too long.
    #[error("the request took too long")]
    SlowRequestTimeout,
    /// The end of the connection took too long.
    #[error("the end of the connection took too long")]
    DisconnectTimeout,
    /// A handler let go of its payload before its end. This is never answered.
    #[error("a handler dropped its payload before the end")]
    HandlerDroppedPayload,
    /// Something is wrong inside. This is never answered.
    #[error("internal error")]
    InternalError,
    /// There was no memory.
    #[error("no memory is left")]
    NoMemory,
}

/// Why a media type could not be told.
#[derive(Clone, Copy, Debug, PartialEq, Eq, Error)]
pub enum ContentTypeError {
    /// The value is no media type.
    #[error("the content type is malformed")]
    ParseError,
    /// The charset isn't known. This is never answered.
    #[error("the content encoding is unknown")]
    UnknownEncoding,
    /// There was no memory for the media type.
    #[error("no memory is left")]
    NoMemory,
}

impl From<HttpError> for Error {
    ghost use Rattle.std.specs.Prelude.{◌≡◌};
    ghost use Rattle.http_types.specs.Error.{of_http};

    ghost from_gives = { λ cause error. error ≡ of_http cause };

    fn from(cause: HttpError) -> Error {
        Error {
            kind: Kind::Http,
            cause: Some(Cause::Http(cause)),
        }
    }
}

impl From<ParseError> for Error {
    ghost use Rattle.std.specs.Prelude.{◌≡◌};
    ghost use Rattle.http_types.specs.Error.{of_parse};

    ghost from_gives = { λ cause error. error ≡ of_parse cause };

    fn from(cause: ParseError) -> Error {
        Error {
            kind: Kind::Parse,
            cause: Some(Cause::Parse(cause)),
        }
    }
}

impl From<PayloadError> for Error {
    ghost use Rattle.std.specs.Prelude.{◌≡◌};
    ghost use Rattle.http_types.specs.Error.{of_payload};

    ghost from_gives = { λ cause error. error ≡ of_payload cause };

    fn from(cause: PayloadError) -> Error {
        Error {
            kind: Kind::Payload,
            cause: Some(Cause::Payload(cause)),
        }
    }
}

impl From<ParseError> for DispatchError {
    ghost use Rattle.std.specs.Prelude.{◌≡◌};
    ghost use Rattle.http_types.specs.declared.error.DispatchError.TheVariants.{Parse};

    ghost from_gives = { λ cause error. error ≡ Parse cause };

    fn from(cause: ParseError) -> DispatchError {
        DispatchError::Parse(cause)
    }
}
