//! Makes a response step by step.
ghost use Rattle.std.specs.Prelude.{◌≡◌, ◌↔◌, ◌⊎◌, ℕ, List, Some, None, Err, true, Any, IfOk, IfErr, OnOk, OnErr, IsErr, IsErrOf, string_bytes, decimal, codes};
ghost use Rattle.http_header.specs.Token.{lowercase};
ghost use Rattle.http_header.specs.FieldName.{IsFieldName};
ghost use Rattle.http_header.specs.FieldValue.{IsFieldValue, plain_value};
ghost use Rattle.http_map.specs.HeaderMap.{insert, append};
ghost use Rattle.http_types.specs.Flags.{with_type, with_no_chunking, no_flags};
ghost use Rattle.http_types.specs.ResponseHead.{IsLineByte};
ghost use Rattle.http_types.specs.ResponseBuilder.{fresh_builder, on_head, failing, response_of, left_behind, Changes, with_headers, PutsValue, PutsPair, SetsPair, MakesPair};

use crate::error::HttpError;
use crate::message::ConnectionType;
use crate::responses::{Response, ResponseHead};
use crate::{HeaderName, HeaderValue, NoMemory, StatusCode};
use http_map::{
    CONTENT_LENGTH, CONTENT_TYPE, InvalidHeaderPart, TryIntoHeaderPair, TryIntoHeaderValue, UPGRADE,
    ValueError,
};
use std::alloc::Global;
use std::marker::Model;
use thiserror::Error;

/// Why a builder gives no response.
#[derive(Clone, Copy, Debug, PartialEq, Eq, Error)]
pub enum BuildError {
    /// Its head was taken before.
    #[error("the builder was used before")]
    Reused,
    /// A step was refused.
    #[error("{0}")]
    Http(HttpError),
    /// There was no memory for a step.
    #[error("no memory is left")]
    NoMemory,
}

/// Makes a response step by step. The first step that fails is kept, the steps behind it do nothing,
/// and the last call tells it.
///
/// A contract sees the builder as the head, until it is taken, and that error, until it is told.
#[derive(Debug, Drop)]
pub struct ResponseBuilder {
    alloc: Global,
    head: Option<ResponseHead>,
    err: Option<BuildError>,
}

impl Model for ResponseBuilder {
    ghost use Rattle.std.specs.Prelude.{◌≢◌, Some};
    ghost use Rattle.http_types.specs.ResponseBuilder.{BuilderParts};
    ghost use Rattle.http_types.specs.declared.responses.builder.BuildError.TheVariants.{Reused};

    ghost Value = { BuilderParts };

    ghost view = { λ b. record { head = b.head; error = b.err } };

    ghost invariant = { λ b. b.err ≢ Some Reused };
}

impl ResponseBuilder {
    /// A builder of a response with this status alone.
    pub fn new(alloc: Global, status: StatusCode) -> Self
        ensures { result ≡ fresh_builder status }
    {
        ResponseBuilder {
            alloc,
            head: Some(ResponseHead::new(alloc, status)),
            err: None,
        }
    }

    /// A builder that starts from a response's head. The body is dropped.
    pub fn from_response<B: Drop>(alloc: Global, res: Response<B>) -> ResponseBuilder
        ensures { result ≡ record { head = Some res.head; error = None } }
    {
        ResponseBuilder {
            alloc,
            head: Some(res.into_head()),
            err: None,
        }
    }

    /// A builder that starts with a head's status, version, reason and headers, and with whether it
    /// may be sent in chunks.
    pub fn from_head(alloc: Global, head: &ResponseHead) -> Result<ResponseBuilder, NoMemory>
        ensures { IfOk result (λ b. b ≡ record {
          head = Some (record head.now { flags = with_no_chunking no_flags head.now.flags.no_chunking });
          error = None;
        }) }
    {
        let head = head.copy_unmarked()?;
        Ok(ResponseBuilder {
            alloc,
            head: Some(head),
            err: None,
        })
    }

    /// Sets the status.
    pub fn status(&mut self, status: StatusCode) -> &mut Self
        ensures same { result.ghost_name ≡ self.entry.ghost_name }
        ensures step { result.now ≡ on_head (λ h. record h { status = status }) self.old }
    {
        if self.err.is_some() {
            return self;
        }
        match &mut self.head {
            Some(head) => {
                head.status = status;
                self
            }
            None => self,
        }
    }

    /// Puts a header in place of those of its name. `Name` where the name is no token (RFC 7230,
    /// section 3.2.6), else `Value` where a byte of the value may stand in none.
    pub fn insert_header<H: TryIntoHeaderPair>(&mut self, header: H) -> &mut Self
        ensures same { result.ghost_name ≡ self.entry.ghost_name }
        ensures step { PutsPair insert (H.name_text header) (H.field_value header) self.old result.now }
    {
        if self.err.is_some() {
            return self;
        }
        match &mut self.head {
            Some(head) => {
                self.err = insert_pair(head, self.alloc, header).err();
                self
            }
            None => self,
        }
    }

    /// Adds a header to those of its name. `Name` and `Value` as in `insert_header`.
    pub fn append_header<H: TryIntoHeaderPair>(&mut self, header: H) -> &mut Self
        ensures same { result.ghost_name ≡ self.entry.ghost_name }
        ensures step { PutsPair append (H.name_text header) (H.field_value header) self.old result.now }
    {
        if self.err.is_some() {
            return self;
        }
        match &mut self.head {
            Some(head) => {
                self.err = append_pair(head, self.alloc, header).err();
                self
            }
            None => self,
        }
    }

    /// Gives the response a reason of its own. `Reason` where it has a CR or an LF (RFC 7230,
    /// section 3.1.2).
    pub fn reason(&mut self, reason: String) -> &mut Self
        ensures same { result.ghost_name ≡ self.entry.ghost_name }
        ensures step { ¬ (Any IsLineByte (string_bytes reason))
            → result.now ≡ on_head (λ h. record h { reason = Some (string_bytes reason) }) self.old }
        ensures refused { Any IsLineByte (string_bytes reason) → result.now ≡ failing (BuildError.Http HttpError.Reason) self.old }
    {
        if self.err.is_some() {
            return self;
        }
        match &mut self.head {
            Some(head) => {
                self.err = set_reason(head, reason).err();
                self
            }
            None => self,
        }
    }

    /// Marks the response as one behind which the connection is kept.
    pub fn keep_alive(&mut self) -> &mut Self
        ensures same { result.ghost_name ≡ self.entry.ghost_name }
        ensures step { result.now ≡ on_head (λ h. record h { flags = with_type h.flags ConnectionType.KeepAlive }) self.old }
    {
        if self.err.is_some() {
            return self;
        }
        match &mut self.head {
            Some(head) => {
                head.set_connection_type(ConnectionType::KeepAlive);
                self
            }
            None => self,
        }
    }

    /// Marks the response as one behind which the connection is closed.
    pub fn force_close(&mut self) -> &mut Self
        ensures same { result.ghost_name ≡ self.entry.ghost_name }
        ensures step { result.now ≡ on_head (λ h. record h { flags = with_type h.flags ConnectionType.Close }) self.old }
    {
        if self.err.is_some() {
            return self;
        }
        match &mut self.head {
            Some(head) => {
                head.set_connection_type(ConnectionType::Close);
                self
            }
            None => self,
        }
    }

    /// Marks the response as one behind which the connection changes to this protocol (RFC 7230,
    /// section 6.7). A value that is no header value is passed over, and the mark is set all the same.
    pub fn upgrade<V: TryIntoHeaderValue>(&mut self, value: V) -> &mut Self
        ensures same { result.ghost_name ≡ self.entry.ghost_name }
        ensures step { IsFieldValue (V.field_value value).bytes → Changes (λ h. record h {
          headers = insert h.headers (codes "upgrade") (V.field_value value);
          flags = with_type h.flags ConnectionType.Upgrade;
        }) self.old result.now }
        ensures invalid { ¬ (IsFieldValue (V.field_value value).bytes)
            → Changes (λ h. record h { flags = with_type h.flags ConnectionType.Upgrade }) self.old result.now }
    {
        if self.err.is_some() {
            return self;
        }
        match &mut self.head {
            Some(head) => {
                self.err = upgrade_to(head, self.alloc, value).err();
                self
            }
            None => self,
        }
    }

    /// States the length of the body, in bytes, and says that it isn't to be sent in chunks.
    pub fn no_chunking(&mut self, len: u64) -> &mut Self
        ensures same { result.ghost_name ≡ self.entry.ghost_name }
        ensures step { Changes (λ h. record h {
          headers = insert h.headers (codes "content-length") (plain_value (decimal len));
          flags = with_no_chunking h.flags true;
        }) self.old result.now }
    {
        if self.err.is_some() {
            return self;
        }
        match &mut self.head {
            Some(head) => {
                self.err = state_length(head, self.alloc, len).err();
                self
            }
            None => self,
        }
    }

    /// States the media type of the body (RFC 7231, section 3.1.1.5). `Value` where a byte of it may
    /// stand in no header.
    pub fn content_type<V: TryIntoHeaderValue>(&mut self, value: V) -> &mut Self
        ensures same { result.ghost_name ≡ self.entry.ghost_name }
        ensures step { PutsValue (codes "content-type") (V.field_value value) self.old result.now }
    {
        if self.err.is_some() {
            return self;
        }
        match &mut self.head {
            Some(head) => {
                self.err = insert_value(head, self.alloc, CONTENT_TYPE, value).err();
                self
            }
            None => self,
        }
    }

    /// The response with this body. An error that is kept is told in its place, and then forgotten,
    /// and the head stays; `Reused` comes exactly where the head was taken before.
    pub fn message_body<B: Drop>(&mut self, body: B) -> Result<Response<B>, BuildError>
        ensures built { result ≡ response_of self.old body }
        ensures left { self.new ≡ left_behind self.old }
        ensures reused { IsErrOf result BuildError.Reused ↔ ((self.old.error ≡ None) × (self.old.head ≡ None)) }
    {
        if let Some(err) = self.err.take() {
            return Err(err);
        }
        match self.head.take() {
            Some(head) => Ok(Response::from_head(head, body)),
            None => Err(BuildError::Reused),
        }
    }

    /// The response with this body, as `message_body`.
    pub fn body<B: Drop>(&mut self, body: B) -> Result<Response<B>, BuildError>
        ensures built { result ≡ response_of self.old body }
        ensures left { self.new ≡ left_behind self.old }
        ensures reused { IsErrOf result BuildError.Reused ↔ ((self.old.error ≡ None) × (self.old.head ≡ None)) }
    {
        self.message_body(body)
    }

    /// The response with an empty body, as `message_body`.
    pub fn finish(&mut self) -> Result<Response<()>, BuildError>
        ensures built { result ≡ response_of self.old tt }
        ensures left { self.new ≡ left_behind self.old }
        ensures reused { IsErrOf result BuildError.Reused ↔ ((self.old.error ≡ None) × (self.old.head ≡ None)) }
    {
        self.message_body(())
    }

    /// Moves the head and the error to a builder of their own. This one has neither then.
    pub fn take(&mut self) -> ResponseBuilder
        ensures taken { result ≡ self.old }
        ensures left { self.new ≡ record { head = None; error = None } }
    {
        ResponseBuilder {
            alloc: self.alloc,
            head: self.head.take(),
            err: self.err.take(),
        }
    }
}

// Puts a value in place of those of the name.
fn put(head: &mut ResponseHead, name: HeaderName, value: HeaderValue) -> Result<(), BuildError>
    ensures ok { OnOk result (head.new ≡ with_headers (λ m. insert m name value) head.old) }
    ensures err { OnErr result (head.new ≡ head.old) }
    ensures memory { IfErr result (λ e. e ≡ BuildError.NoMemory) }
{
    match head.headers.insert(name, value) {
        Ok(_) => Ok(()),
        Err(_) => Err(BuildError::NoMemory),
    }
}

// Makes a value, and puts it in place of those of the name.
fn insert_value<V: TryIntoHeaderValue>(
    head: &mut ResponseHead,
    alloc: Global,
    name: HeaderName,
    value: V,
) -> Result<(), BuildError>
    ensures ok { OnOk result (head.new ≡ with_headers (λ m. insert m name (V.field_value value)) head.old) }
    ensures err { OnErr result (head.new ≡ head.old) }
    ensures valid { IsFieldValue (V.field_value value).bytes → IfErr result (λ e. e ≡ BuildError.NoMemory) }
    ensures refused { ¬ (IsFieldValue (V.field_value value).bytes)
        → (result ≡ Err (BuildError.Http HttpError.Value)) ⊎ (result ≡ Err BuildError.NoMemory) }
{
    match value.try_into_value(alloc) {
        Ok(value) => put(head, name, value),
        Err(ValueError::Invalid) => Err(BuildError::Http(HttpError::Value)),
        Err(ValueError::NoMemory) => Err(BuildError::NoMemory),
    }
}

// Makes a name and a value, and puts the value in place of those of the name.
fn insert_pair<H: TryIntoHeaderPair>(
    head: &mut ResponseHead,
    alloc: Global,
    header: H,
) -> Result<(), BuildError>
    ensures { SetsPair insert (H.name_text header) (H.field_value header) head.old head.new result }
{
    let (name, value) = pair_of(alloc, header)?;
    put(head, name, value)
}

// Makes a name and a value, and adds the value to those of the name.
fn append_pair<H: TryIntoHeaderPair>(
    head: &mut ResponseHead,
    alloc: Global,
    header: H,
) -> Result<(), BuildError>
    ensures { SetsPair append (H.name_text header) (H.field_value header) head.old head.new result }
{
    let (name, value) = pair_of(alloc, header)?;
    match head.headers.append(name, value) {
        Ok(()) => Ok(()),
        Err(_) => Err(BuildError::NoMemory),
    }
}

// Makes a name and a value.
fn pair_of<H: TryIntoHeaderPair>(
    alloc: Global,
    header: H,
) -> Result<(HeaderName, HeaderValue), BuildError>
    ensures { MakesPair (H.name_text header) (H.field_value header) result }
{
    match header.try_into_pair(alloc) {
        Ok(pair) => Ok(pair),
        Err(InvalidHeaderPart::Name) => Err(BuildError::Http(HttpError::Name)),
        Err(InvalidHeaderPart::Value) => Err(BuildError::Http(HttpError::Value)),
        Err(InvalidHeaderPart::NoMemory) => Err(BuildError::NoMemory),
    }
}

// Names the protocol to change to, where the value is one, and marks the head.
fn upgrade_to<V: TryIntoHeaderValue>(
    head: &mut ResponseHead,
    alloc: Global,
    value: V,
) -> Result<(), BuildError>
    ensures valid { IsFieldValue (V.field_value value).bytes → OnOk result (head.new ≡ record head.old {
      headers = insert head.old.headers (codes "upgrade") (V.field_value value);
      flags = with_type head.old.flags ConnectionType.Upgrade;
    }) }
    ensures invalid { ¬ (IsFieldValue (V.field_value value).bytes)
        → OnOk result (head.new ≡ record head.old { flags = with_type head.old.flags ConnectionType.Upgrade }) }
    ensures err { OnErr result (head.new ≡ head.old) }
    ensures memory { IfErr result (λ e. e ≡ BuildError.NoMemory) }
{
    match value.try_into_value(alloc) {
        Ok(value) => put(head, UPGRADE, value)?,
        Err(ValueError::Invalid) => {}
        Err(ValueError::NoMemory) => return Err(BuildError::NoMemory),
    }
    head.set_connection_type(ConnectionType::Upgrade);
    Ok(())
}

// States the length, and marks the head as one that isn't sent in chunks.
fn state_length(head: &mut ResponseHead, alloc: Global, len: u64) -> Result<(), BuildError>
    ensures ok { OnOk result (head.new ≡ record head.old {
      headers = insert head.old.headers (codes "content-length") (plain_value (decimal len));
      flags = with_no_chunking head.old.flags true;
    }) }
    ensures err { OnErr result (head.new ≡ head.old) }
    ensures memory { IfErr result (λ e. e ≡ BuildError.NoMemory) }
{
    match HeaderValue::from_u64(alloc, len) {
        Ok(value) => put(head, CONTENT_LENGTH, value)?,
        Err(_) => return Err(BuildError::NoMemory),
    }
    head.no_chunking(true);
    Ok(())
}

// Gives the head a reason of its own.
fn set_reason(head: &mut ResponseHead, reason: String) -> Result<(), BuildError>
    ensures ok { OnOk result (head.new ≡ record head.old { reason = Some (string_bytes reason) }) }
    ensures bad { IsErr result ↔ Any IsLineByte (string_bytes reason) }
    ensures err { OnErr result (head.new ≡ head.old) }
    ensures cause { IfErr result (λ e. e ≡ BuildError.Http HttpError.Reason) }
{
    match head.set_reason(reason) {
        Ok(()) => Ok(()),
        Err(_) => Err(BuildError::Http(HttpError::Reason)),
    }
}
