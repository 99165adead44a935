//! The head of a response.
ghost use Rattle.std.specs.Prelude.{◌≡◌, ◌↔◌, not, [], Some, None, Any, IfOk, OnOk, OnErr, IsErr, IsSome, IsTrue, string_bytes};
ghost use Rattle.std.specs.Borrow.{sem};
ghost use Rattle.http.specs.declared.version.TheConstants.Version.{HTTP_11};
ghost use Rattle.http_types.specs.Flags.{no_flags, type_of_flags, with_type, with_no_chunking, with_camel_case};
ghost use Rattle.http_types.specs.ConnectionType.{IsTypeOf};
ghost use Rattle.http_types.specs.ResponseHead.{reason_text, IsLineByte, IsPlain};
ghost use Rattle.http_types.specs.declared.message.ConnectionType.TheVariants.{KeepAlive, Upgrade};

use crate::message::{ConnectionType, Flags, Head};
use crate::{HeaderMap, NoMemory, StatusCode, Version};
use std::alloc::Global;
use std::marker::Model;
use thiserror::Error;

const UNKNOWN_STATUS: &str = "<unknown status code>";

/// A reason with a CR or an LF.
#[derive(Clone, Copy, Debug, PartialEq, Eq, Error)]
#[error("the reason has a line break")]
pub struct BadReason;

/// What a response says before its body (RFC 7230, section 3).
#[derive(Debug, Drop)]
pub struct ResponseHead {
    pub version: Version,
    pub status: StatusCode,
    pub headers: HeaderMap,
    reason: Option<String>,
    flags: Flags,
}

impl Model for ResponseHead {
    ghost use Rattle.std.specs.Prelude.{option_map, string_bytes};
    ghost use Rattle.http_types.specs.ResponseHead.{ResponseParts};

    ghost Value = { ResponseParts };

    ghost view = { λ h. record {
      version = h.version;
      status = h.status;
      headers = h.headers;
      reason = option_map (λ r. string_bytes r) h.reason;
      flags = h.flags;
    } };
}

impl ResponseHead {
    ghost use Rattle.http_types.specs.ResponseLends.{lends_headers};

    /// A head of HTTP/1.1 with this status, the status's own reason, no headers and no marks.
    pub fn new(alloc: Global, status: StatusCode) -> ResponseHead
        ensures { result ≡ record { version = HTTP_11; status = status; headers = []; reason = None; flags = no_flags } }
    {
        ResponseHead {
            version: Version::HTTP_11,
            status,
            headers: HeaderMap::new(alloc),
            reason: None,
            flags: Flags::EMPTY,
        }
    }

    /// The headers.
    pub fn headers(&self) -> &HeaderMap
        ensures { result.now ≡ self.now.headers }
    {
        &self.headers
    }

    /// The headers, for writing.
    pub fn headers_mut(&mut self) -> &mut HeaderMap
        ensures* writes_back { sem 𝓛 (lends_headers self.entry result) }
        ensures value { result.now ≡ self.old.headers }
    {
        &mut self.headers
    }

    /// Whether the names of the headers are sent in camel case.
    pub fn camel_case_headers(&self) -> bool
        ensures { result ≡ self.now.flags.in_camel_case }
    {
        self.flags.in_camel_case
    }

    /// Says whether the names of the headers are sent in camel case, as `Content-Type`.
    pub fn set_camel_case_headers(&mut self, camel_case: bool)
        ensures { self.new ≡ record self.old { flags = with_camel_case self.old.flags camel_case } }
    {
        self.flags.in_camel_case = camel_case;
    }

    /// Marks the head with a connection type. A mark that stands stays.
    pub fn set_connection_type(&mut self, ctype: ConnectionType)
        ensures { self.new ≡ record self.old { flags = with_type self.old.flags ctype } }
    {
        self.flags.set_connection_type(ctype);
    }

    /// What the response says of its connection: the first of Close, KeepAlive and Upgrade that is
    /// marked; without a mark, Close below HTTP/1.1, else KeepAlive (RFC 7230, section 6.3).
    pub fn connection_type(&self) -> ConnectionType
        ensures { IsTypeOf self.now.flags self.now.version result }
    {
        self.flags.connection_type(self.version)
    }

    /// The first of Close, KeepAlive and Upgrade that is marked.
    pub fn conn_type(&self) -> Option<ConnectionType>
        ensures { result ≡ type_of_flags self.now.flags }
    {
        self.flags.conn_type()
    }

    /// Whether the connection may serve a further request after this response.
    pub fn keep_alive(&self) -> bool
        ensures { IsTrue result ↔ IsTypeOf self.now.flags self.now.version KeepAlive }
    {
        self.connection_type() == ConnectionType::KeepAlive
    }

    /// Whether the connection changes to another protocol with this response.
    pub fn upgrade(&self) -> bool
        ensures { IsTrue result ↔ IsTypeOf self.now.flags self.now.version Upgrade }
    {
        self.connection_type() == ConnectionType::Upgrade
    }

    /// Whether a body without a stated length may be sent in chunks (RFC 7230, section 4.1).
    pub fn chunked(&self) -> bool
        ensures { result ≡ not self.now.flags.no_chunking }
    {
        !self.flags.no_chunking
    }

    /// Says that a body without a stated length isn't to be sent in chunks, or that it may be.
    pub fn no_chunking(&mut self, val: bool)
        ensures { self.new ≡ record self.old { flags = with_no_chunking self.old.flags val } }
    {
        self.flags.no_chunking = val;
    }

    /// The text behind the status: the response's own, else the status's phrase, else
    /// `<unknown status code>`.
    pub fn reason(&self) -> &str
        ensures { result.now ≡ reason_text self.now }
    {
        match &self.reason {
            Some(reason) => reason.as_str(),
            None => self.status.canonical_reason().unwrap_or(UNKNOWN_STATUS),
        }
    }

    /// Gives the response a reason of its own. `BadReason` where it has a CR or an LF, which would
    /// end the status line (RFC 7230, section 3.1.2); the head then is as before.
    pub fn set_reason(&mut self, reason: String) -> Result<(), BadReason>
        ensures ok { OnOk result (self.new ≡ record self.old { reason = Some (string_bytes reason) }) }
        ensures bad { IsErr result ↔ Any IsLineByte (string_bytes reason) }
        ensures err { OnErr result (self.new ≡ self.old) }
    {
        if reason
            .as_bytes()
            .iter()
            .any(|byte| matches!(byte, b'\r' | b'\n'))
        {
            return Err(BadReason);
        }
        self.reason = Some(reason);
        Ok(())
    }

    /// Whether the response has a reason of its own.
    pub fn has_own_reason(&self) -> bool
        ensures { IsTrue result ↔ IsSome self.now.reason }
    {
        self.reason.is_some()
    }

    /// Whether the head has no reason of its own, no mark and no header.
    pub fn is_plain(&self) -> bool
        ensures { IsTrue result ↔ IsPlain self.now }
    {
        self.reason.is_none() && self.flags == Flags::EMPTY && self.headers.is_empty()
    }

    /// An equal head, as `clone` gives it too.
    pub fn copy(&self) -> Result<ResponseHead, NoMemory>
        ensures { IfOk result (λ copy. copy ≡ self.now) }
    {
        let reason = match &self.reason {
            Some(reason) => Some(reason.clone()?),
            None => None,
        };
        Ok(ResponseHead {
            version: self.version,
            status: self.status,
            headers: self.headers.copy()?,
            reason,
            flags: self.flags,
        })
    }
    // The same head, but for its marks: only that on chunks stays.
    pub(crate) fn copy_unmarked(&self) -> Result<ResponseHead, NoMemory>
        ensures { IfOk result (λ copy. copy ≡ record self.now {
          flags = with_no_chunking no_flags self.now.flags.no_chunking;
        }) }
    {
        let mut copy = self.copy()?;
        copy.flags = Flags {
            no_chunking: self.flags.no_chunking,
            ..Flags::EMPTY
        };
        Ok(copy)
    }
}

impl Clone for ResponseHead {
    ghost is_clone = { λ head copy. copy ≡ head };

    fn clone(&self) -> Result<ResponseHead, NoMemory> {
        self.copy()
    }
}

impl Head for ResponseHead {
    ghost use Rattle.http_types.specs.ResponseHead.{cleared_response};

    ghost cleared = { cleared_response };

    fn clear(&mut self) {
        self.flags = Flags::EMPTY;
        self.headers.clear();
    }
}
