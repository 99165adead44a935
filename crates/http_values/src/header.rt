//! Values that the headers of a message say.
ghost use Rattle.std.specs.Prelude.{◌≡◌, ◌≢◌, ◌↔◌, ◌⊎◌, ℕ, List, IfOk, IfErr, IfSome, IsOk, IsSome, IsNone, IsErrOf, MatchOption, codes};
ghost use Rattle.http_header.specs.FieldValue.{IsFieldValue};
ghost use Rattle.http_map.specs.HeaderMap.{Entries, get};
ghost use Rattle.http_values.specs.Header.{HasName, FirstReads};
ghost use Rattle.http_values.specs.MediaType.{IsSomeMime};
ghost use Rattle.http_values.specs.MimeValue.{SaysMime};

use crate::shared::Mime;
use crate::utils::from_one_raw_str;
use http_types::header::{
    CONTENT_TYPE, InvalidHeaderPart, NoMemory, TryIntoHeaderValue, ValueError,
};
use http_types::{ContentTypeError, HeaderName, HeaderValue, HttpMessage, ParseError};
use std::alloc::{AllocError, Global};

/// What the headers of one name say.
pub trait Header: TryIntoHeaderValue + Sized {
    // The name, in lower case.
    ghost header_name: { List ℕ };

    // The headers say the value.
    ghost is_said: { Entries → Self → Type 0 };

    // The headers say some value.
    ghost is_readable: { Entries → Type 0 };

    /// The name of the headers.
    fn name() -> HeaderName
        ensures { result ≡ header_name };

    /// The value that the headers of a message say. `Header` comes exactly where they say none.
    fn parse<M: HttpMessage>(alloc: Global, msg: &M) -> Result<Self, ParseError>
        ensures ok { IfOk result (λ value. is_said (M.fields msg.now) value) }
        ensures readable { IfOk result (λ _. is_readable (M.fields msg.now)) }
        ensures header { IsErrOf result ParseError.Header ↔ ¬ (is_readable (M.fields msg.now)) }
        ensures err { IfErr result (λ e. (e ≡ ParseError.Header) ⊎ (e ≡ ParseError.NoMemory)) };

    /// The name, and the value as a header holds it. `Value` comes exactly where a byte of the value may stand in no
    /// header, and `Name` never.
    fn into_pair(self, alloc: Global) -> Result<(HeaderName, HeaderValue), InvalidHeaderPart>
        ensures ok { IfOk result (λ pair. pair ≡ (header_name, Self.field_value self)) }
        ensures value { IsErrOf result InvalidHeaderPart.Value ↔ ¬ (IsFieldValue (Self.field_value self).bytes) }
        ensures named { IfErr result (λ e. e ≢ InvalidHeaderPart.Name) }
    {
        match self.try_into_value(alloc) {
            Ok(value) => Ok((Self::name(), value)),
            Err(ValueError::Invalid) => Err(InvalidHeaderPart::Value),
            Err(ValueError::NoMemory) => Err(InvalidHeaderPart::NoMemory),
        }
    }
}

/// The value that the headers of a message say, where there is one of the name and they say a value. The error is want
/// of memory, which comes only where there is one of the name.
pub fn get_header<H: Header, M: HttpMessage>(alloc: Global, msg: &M) -> Result<Option<H>, NoMemory>
    ensures value { IfOk result (λ found. IfSome found (λ value. H.is_said (M.fields msg.now) value)) }
    ensures found { IfOk result (λ found. IsSome found ↔ (HasName (M.fields msg.now) H.header_name × H.is_readable (M.fields msg.now))) }
    ensures no_memory_needed { ¬ (HasName (M.fields msg.now) H.header_name) → IsOk result }
{
    if !msg.headers().contains_key(H::name()) {
        return Ok(None);
    }
    match H::parse(alloc, msg) {
        Ok(value) => Ok(Some(value)),
        Err(ParseError::NoMemory) => Err(AllocError),
        Err(_) => Ok(None),
    }
}

/// The media type that the first `Content-Type` of a message says (RFC 7231, section 3.1.1.5), and `None` where there
/// is none. `ParseError` comes exactly where there is one that is the text of no media type.
pub fn mime_type<M: HttpMessage>(alloc: Global, msg: &M) -> Result<Option<Mime>, ContentTypeError>
    ensures ok { IfOk result (λ found. MatchOption found (IsNone (get (M.fields msg.now) (codes "content-type")))
        (λ mime. FirstReads (λ text. SaysMime text mime) (M.fields msg.now) (codes "content-type"))) }
    ensures malformed { IsErrOf result ContentTypeError.ParseError
        ↔ (HasName (M.fields msg.now) (codes "content-type") × ¬ (FirstReads IsSomeMime (M.fields msg.now) (codes "content-type"))) }
    ensures err { IfErr result (λ e. (e ≡ ContentTypeError.ParseError) ⊎ (e ≡ ContentTypeError.NoMemory)) }
    ensures no_memory_needed { ¬ (HasName (M.fields msg.now) (codes "content-type")) → IsOk result }
{
    let Some(value) = msg.headers().get(CONTENT_TYPE) else {
        return Ok(None);
    };
    match from_one_raw_str(alloc, Some(value)) {
        Ok(mime) => Ok(Some(mime)),
        Err(ParseError::NoMemory) => Err(ContentTypeError::NoMemory),
        Err(_) => Err(ContentTypeError::ParseError),
    }
}
