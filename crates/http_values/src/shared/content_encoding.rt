//! Content codings.
ghost use Rattle.std.specs.Prelude.{◌≡◌, ◌↔◌, ℕ, List, Some, MatchOption, MatchResult, IfOk, IfErr, IsOk, IsErrOf, codes};
ghost use Rattle.http_header.specs.FieldValue.{plain_value, IsFieldValue};
ghost use Rattle.http_values.specs.declared.shared.content_encoding.ContentEncoding.{ContentEncoding as Coding};
ghost use Rattle.http_values.specs.declared.shared.content_encoding.ContentEncoding.TheVariants.{Identity};
ghost use Rattle.http_values.specs.ContentEncoding.{IsCodingText, coding_text};
ghost use Rattle.http_values.specs.Header.{FirstReads};

use crate::header::Header;
use crate::read::{FromText, ReadError};
use crate::utils::from_one_raw_str;
use http_types::header::names::CONTENT_ENCODING;
use http_types::header::{TryIntoHeaderValue, ValueError};
use http_types::{HeaderName, HeaderValue, HttpMessage, ParseError};
use std::alloc::Global;
use std::fmt;
use thiserror::Error;

/// How the content of a message is coded (RFC 7231, section 3.1.2.1).
#[derive(Clone, Copy, Debug, PartialEq, Eq, Hash)]
#[non_exhaustive]
pub enum ContentEncoding {
    /// As it is.
    Identity,
    /// The Brotli format (RFC 7932).
    Brotli,
    /// The zlib format (RFC 1950) with the deflate algorithm.
    Deflate,
    /// The gzip format (RFC 1952).
    Gzip,
    /// The Zstandard format (RFC 8878).
    Zstd,
}

/// The text names no content coding that is known here.
#[derive(Clone, Copy, Debug, PartialEq, Eq, Error)]
#[error("unsupported content encoding")]
pub struct ContentEncodingParseError;

impl ContentEncoding {
    /// The registered name.
    pub fn as_str(self) -> &'static str
        ensures { result.now ≡ coding_text self }
    {
        match self {
            ContentEncoding::Identity => "identity",
            ContentEncoding::Brotli => "br",
            ContentEncoding::Deflate => "deflate",
            ContentEncoding::Gzip => "gzip",
            ContentEncoding::Zstd => "zstd",
        }
    }

    /// The registered name as a header value, without a copy.
    pub fn to_header_value(self) -> HeaderValue
        ensures { result ≡ plain_value (coding_text self) }
    {
        match self {
            ContentEncoding::Identity => HeaderValue::from_static("identity"),
            ContentEncoding::Brotli => HeaderValue::from_static("br"),
            ContentEncoding::Deflate => HeaderValue::from_static("deflate"),
            ContentEncoding::Gzip => HeaderValue::from_static("gzip"),
            ContentEncoding::Zstd => HeaderValue::from_static("zstd"),
        }
    }
}

impl TryIntoHeaderValue for ContentEncoding {
    ghost field_value = { λ coding. plain_value (coding_text coding) };

    /// The registered name, without a copy. It takes no memory.
    fn try_into_value(self, _alloc: Global) -> Result<HeaderValue, ValueError>
        ensures ok { IfOk result (λ v. v ≡ plain_value (coding_text self)) }
        ensures invalid { IsErrOf result ValueError.Invalid ↔ ¬ (IsFieldValue (plain_value (coding_text self)).bytes) }
        ensures no_memory_needed { IsOk result }
    {
        let value = self.to_header_value();
        let _valid = value.as_bytes();
        Ok(value)
    }
}

impl Header for ContentEncoding {
    ghost header_name = { codes "content-encoding" };

    ghost is_said = { λ headers coding. FirstReads (λ text. IsCodingText text coding) headers (codes "content-encoding") };

    ghost is_readable = { λ headers. FirstReads (λ text. (coding : Coding) × IsCodingText text coding) headers (codes "content-encoding") };

    fn name() -> HeaderName {
        CONTENT_ENCODING
    }

    /// Reads the first `Content-Encoding` (RFC 7231, section 3.1.2.2) as one coding.
    fn parse<M: HttpMessage>(alloc: Global, msg: &M) -> Result<ContentEncoding, ParseError> {
        from_one_raw_str(alloc, msg.headers().get(CONTENT_ENCODING))
    }
}

impl Default for ContentEncoding {
    ghost is_default = { λ coding. coding ≡ Identity };

    /// No coding.
    fn default() -> ContentEncoding {
        ContentEncoding::Identity
    }
}

// The coding that the text names.
fn read_coding(s: &str) -> Option<ContentEncoding>
    ensures { MatchOption result ((coding : Coding) → ¬ (IsCodingText s.now coding)) (λ coding. IsCodingText s.now coding) }
{
    let name = s.trim();
    if name.eq_ignore_ascii_case("br") {
        Some(ContentEncoding::Brotli)
    } else if name.eq_ignore_ascii_case("gzip") {
        Some(ContentEncoding::Gzip)
    } else if name.eq_ignore_ascii_case("deflate") {
        Some(ContentEncoding::Deflate)
    } else if name.eq_ignore_ascii_case("identity") {
        Some(ContentEncoding::Identity)
    } else if name.eq_ignore_ascii_case("zstd") {
        Some(ContentEncoding::Zstd)
    } else {
        None
    }
}

impl FromText for ContentEncoding {
    ghost reads = { IsCodingText };

    ghost is_text = { λ text. (coding : Coding) × IsCodingText text coding };

    /// Reads a coding's name, in either case and with white space around it. No memory is needed.
    fn from_text(_alloc: Global, s: &str) -> Result<ContentEncoding, ReadError>
        ensures ok { IfOk result (λ coding. IsCodingText s.now coding) }
        ensures readable { IfOk result (λ _. (coding : Coding) × IsCodingText s.now coding) }
        ensures invalid { IsErrOf result ReadError.Invalid ↔ ¬ ((coding : Coding) × IsCodingText s.now coding) }
        ensures no_memory_needed { IfErr result (λ e. e ≡ ReadError.Invalid) }
    {
        match read_coding(s) {
            Some(coding) => Ok(coding),
            None => Err(ReadError::Invalid),
        }
    }
}

impl TryFrom<&str> for ContentEncoding {
    type Error = ContentEncodingParseError;

    ghost try_from_gives = { λ s r. MatchResult r (λ coding. IsCodingText s.now coding) (λ _. (coding : Coding) → ¬ (IsCodingText s.now coding)) };

    /// Reads a coding's name, as `from_text` does.
    fn try_from(s: &str) -> Result<ContentEncoding, ContentEncodingParseError> {
        match read_coding(s) {
            Some(coding) => Ok(coding),
            None => Err(ContentEncodingParseError),
        }
    }
}

impl fmt::Display for ContentEncoding {
    ghost output = { λ coding. Some (coding_text coding) };

    fn fmt<W: fmt::Write>(&self, f: &mut fmt::Formatter<W>) -> fmt::Result {
        f.write_str(self.as_str())
    }
}

/// A text names one coding at most.
pub fn coding_is_unique()
    ensures { (text : List ℕ) (a b : Coding) → IsCodingText text a → IsCodingText text b → a ≡ b }
{}

/// The name of a coding is read as that coding.
pub fn printed_coding_is_read()
    ensures { (coding : Coding) → IsCodingText (coding_text coding) coding }
{}
