//! What errors print.
use http_map::{InvalidHeaderPart, ValueError};
use http_types::{
    BadReason, BuildError, Cause, ContentTypeError, DispatchError, Error, HttpError, Kind,
    ParseError, PayloadError,
};
use std::alloc::Global;
use std::fmt::Display;
use vectors::{Case, Report};

/// `error NAME`: the text that this error prints.
pub fn error(alloc: Global, case: &Case<'_>, found: &mut Report) -> bool {
    let name = case.argument(0);
    if let Some(kind) = kind_of(name) {
        return put_error(alloc, &Error { kind, cause: None }, found);
    }
    if let Some(error) = caused_by(name) {
        return put_error(alloc, &error, found);
    }
    if let Some(error) = value_error(name) {
        return put_error(alloc, &error, found);
    }
    if let Some(error) = part_error(name) {
        return put_error(alloc, &error, found);
    }
    build_error(alloc, name, found)
}

fn caused_by(name: &[u8]) -> Option<Error> {
    match name {
        b"caused-by-name" => Some(Error::from(HttpError::Name)),
        b"caused-by-too-large" => Some(Error::from(ParseError::TooLarge)),
        b"caused-by-overflow" => Some(Error::from(PayloadError::Overflow)),
        _ => None,
    }
}

fn value_error(name: &[u8]) -> Option<ValueError> {
    match name {
        b"value-invalid" => Some(ValueError::Invalid),
        b"value-no-memory" => Some(ValueError::NoMemory),
        _ => None,
    }
}

fn part_error(name: &[u8]) -> Option<InvalidHeaderPart> {
    match name {
        b"part-name" => Some(InvalidHeaderPart::Name),
        b"part-value" => Some(InvalidHeaderPart::Value),
        b"part-no-memory" => Some(InvalidHeaderPart::NoMemory),
        _ => None,
    }
}

fn build_error(alloc: Global, name: &[u8], found: &mut Report) -> bool {
    match name {
        b"bad-reason" => put_error(alloc, &BadReason, found),
        b"reused" => put_error(alloc, &BuildError::Reused, found),
        b"build-reason" => put_error(alloc, &BuildError::Http(HttpError::Reason), found),
        b"build-no-memory" => put_error(alloc, &BuildError::NoMemory, found),
        _ => false,
    }
}

/// `http-error NAME`: the text of the part of a head that is refused.
pub fn http_error(alloc: Global, case: &Case<'_>, found: &mut Report) -> bool {
    match case.argument(0) {
        b"name" => put_error(alloc, &HttpError::Name, found),
        b"value" => put_error(alloc, &HttpError::Value, found),
        b"reason" => put_error(alloc, &HttpError::Reason, found),
        _ => false,
    }
}

/// `parse-error NAME`: the text of why a message could not be read.
pub fn parse_error(alloc: Global, case: &Case<'_>, found: &mut Report) -> bool {
    let error = match case.argument(0) {
        b"method" => ParseError::Method,
        b"uri" => ParseError::Uri,
        b"version" => ParseError::Version,
        b"header" => ParseError::Header,
        b"too-large" => ParseError::TooLarge,
        b"incomplete" => ParseError::Incomplete,
        b"status" => ParseError::Status,
        b"timeout" => ParseError::Timeout,
        b"io" => ParseError::Io,
        b"utf8" => ParseError::Utf8,
        b"chunk" => ParseError::Chunk,
        b"no-memory" => ParseError::NoMemory,
        _ => return false,
    };
    put_error(alloc, &error, found)
}

/// `payload-error NAME`: the text of why a payload could not be read.
pub fn payload_error(alloc: Global, case: &Case<'_>, found: &mut Report) -> bool {
    let error = match case.argument(0) {
        b"incomplete" => PayloadError::Incomplete,
        b"corrupted" => PayloadError::EncodingCorrupted,
        b"overflow" => PayloadError::Overflow,
        b"unknown-length" => PayloadError::UnknownLength,
        b"io" => PayloadError::Io,
        b"no-memory" => PayloadError::NoMemory,
        _ => return false,
    };
    put_error(alloc, &error, found)
}

/// `dispatch-error NAME`: the text of why requests are served no longer.
pub fn dispatch_error(alloc: Global, case: &Case<'_>, found: &mut Report) -> bool {
    match served_error(case.argument(0)) {
        Some(error) => put_error(alloc, &error, found),
        None => false,
    }
}

fn served_error(name: &[u8]) -> Option<DispatchError> {
    match name {
        b"service" => Some(DispatchError::Service),
        b"body" => Some(DispatchError::Body),
        b"upgrade" => Some(DispatchError::Upgrade),
        b"io" => Some(DispatchError::Io),
        b"parse-chunk" => Some(DispatchError::from(ParseError::Chunk)),
        b"h2" => Some(DispatchError::H2),
        b"slow-request" => Some(DispatchError::SlowRequestTimeout),
        b"disconnect" => Some(DispatchError::DisconnectTimeout),
        b"dropped-payload" => Some(DispatchError::HandlerDroppedPayload),
        b"internal" => Some(DispatchError::InternalError),
        b"no-memory" => Some(DispatchError::NoMemory),
        _ => None,
    }
}

/// `cause NAME`: the text of why something went wrong.
pub fn cause(alloc: Global, case: &Case<'_>, found: &mut Report) -> bool {
    let cause = match case.argument(0) {
        b"http-value" => Cause::Http(HttpError::Value),
        b"parse-method" => Cause::Parse(ParseError::Method),
        b"payload-incomplete" => Cause::Payload(PayloadError::Incomplete),
        b"handshake" => Cause::Handshake,
        b"protocol" => Cause::Protocol,
        b"body-7" => Cause::Body(7),
        b"short-12" => Cause::Short(12),
        b"fault" => Cause::Fault,
        b"no-memory" => Cause::NoMemory,
        _ => return false,
    };
    put_error(alloc, &cause, found)
}

/// `content-type-error NAME`: the text of why a media type could not be told.
pub fn content_type_error(alloc: Global, case: &Case<'_>, found: &mut Report) -> bool {
    match case.argument(0) {
        b"parse" => put_error(alloc, &ContentTypeError::ParseError, found),
        b"unknown" => put_error(alloc, &ContentTypeError::UnknownEncoding, found),
        b"no-memory" => put_error(alloc, &ContentTypeError::NoMemory, found),
        _ => false,
    }
}

fn kind_of(name: &[u8]) -> Option<Kind> {
    match name {
        b"http" => Some(Kind::Http),
        b"parse" => Some(Kind::Parse),
        b"payload" => Some(Kind::Payload),
        b"body" => Some(Kind::Body),
        b"send-response" => Some(Kind::SendResponse),
        b"ws" => Some(Kind::Ws),
        b"io" => Some(Kind::Io),
        b"encoder" => Some(Kind::Encoder),
        _ => None,
    }
}

// Puts the text that the error prints. The case's name is known.
fn put_error<T: Display>(alloc: Global, error: &T, found: &mut Report) -> bool {
    found.put_printed(alloc, error);
    true
}
