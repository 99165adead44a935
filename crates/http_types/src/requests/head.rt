//! The head of a request.
ghost use Rattle.std.specs.Prelude.{◌≡◌, not, [], None, IfOk, codes};
ghost use Rattle.std.specs.Borrow.{sem};
ghost use Rattle.http.specs.declared.version.TheConstants.Version.{HTTP_11};
ghost use Rattle.http_uri.specs.Uri.{HasParts};
ghost use Rattle.http_types.specs.HttpMessage.{asks_to_upgrade};
ghost use Rattle.http_types.specs.Flags.{no_flags, with_type, with_expect, with_no_chunking, with_camel_case};
ghost use Rattle.http_types.specs.ConnectionType.{IsTypeOf};

use crate::http_message::asks_to_upgrade;
use crate::message::{ConnectionType, Flags, Head};
use crate::{HeaderMap, Method, NoMemory, Uri, Version};
use std::alloc::Global;
use std::net::SocketAddr;

/// What a request says before its body (RFC 7230, section 3).
#[derive(Debug, Drop)]
pub struct RequestHead {
    pub method: Method,
    pub uri: Uri,
    pub version: Version,
    pub headers: HeaderMap,
    /// Who sent it, where that is known.
    pub peer_addr: Option<SocketAddr>,
    flags: Flags,
}

impl RequestHead {
    ghost use Rattle.http_types.specs.RequestHead.{request_flags, HasRequestFlags};
    ghost use Rattle.http_types.specs.RequestLends.{lends_headers};

    /// A GET of `/` by HTTP/1.1 without headers, from an unknown peer and with no marks. It takes no
    /// memory.
    pub fn new(alloc: Global) -> RequestHead
        ensures method { result.method ≡ codes "GET" }
        ensures uri { HasParts result.uri None None (codes "/") }
        ensures version { result.version ≡ HTTP_11 }
        ensures headers { result.headers ≡ [] }
        ensures peer { result.peer_addr ≡ None }
        ensures flags { request_flags result ≡ no_flags }
    {
        RequestHead::from_parts(
            Method::GET,
            Uri::default(),
            Version::HTTP_11,
            HeaderMap::new(alloc),
        )
    }

    /// A head with these parts, from an unknown peer and with no marks.
    pub fn from_parts(method: Method, uri: Uri, version: Version, headers: HeaderMap) -> Self
        ensures method { result.method ≡ method }
        ensures uri { result.uri ≡ uri }
        ensures version { result.version ≡ version }
        ensures headers { result.headers ≡ headers }
        ensures peer { result.peer_addr ≡ None }
        ensures flags { request_flags result ≡ no_flags }
    {
        RequestHead {
            method,
            uri,
            version,
            headers,
            peer_addr: None,
            flags: Flags::EMPTY,
        }
    }

    /// Makes it the head of another request: with this method and version, with the target and the headers that are
    /// there, from an unknown peer and with no marks.
    pub fn restart(&mut self, method: Method, version: Version)
        ensures method { self.new.method ≡ method }
        ensures uri { self.new.uri ≡ self.old.uri }
        ensures version { self.new.version ≡ version }
        ensures headers { self.new.headers ≡ self.old.headers }
        ensures peer { self.new.peer_addr ≡ None }
        ensures flags { request_flags self.new ≡ no_flags }
    {
        self.method = method;
        self.version = version;
        self.peer_addr = None;
        self.flags = Flags::EMPTY;
    }

    /// The headers.
    pub fn headers(&self) -> &HeaderMap
        ensures { result.now ≡ self.now.headers }
    {
        &self.headers
    }

    /// The headers, for writing.
    pub fn headers_mut(&mut self) -> &mut HeaderMap
        ensures* writes_back { sem 𝓛 (lends_headers self.entry result) }
        ensures value { result.now ≡ self.old.headers }
    {
        &mut self.headers
    }

    /// Whether the names of the headers are sent in camel case.
    pub fn camel_case_headers(&self) -> bool
        ensures { result ≡ (request_flags self.now).in_camel_case }
    {
        self.flags.in_camel_case
    }

    /// Says whether the names of the headers are sent in camel case, as `Content-Type`.
    pub fn set_camel_case_headers(&mut self, val: bool)
        ensures { HasRequestFlags self.old self.new (with_camel_case (request_flags self.old) val) }
    {
        self.flags.in_camel_case = val;
    }

    /// Marks the head with a connection type. A mark that stands stays.
    pub fn set_connection_type(&mut self, ctype: ConnectionType)
        ensures { HasRequestFlags self.old self.new (with_type (request_flags self.old) ctype) }
    {
        self.flags.set_connection_type(ctype);
    }

    /// What the request asks of its connection: the first of Close, KeepAlive and Upgrade that is
    /// marked; without a mark, Close below HTTP/1.1, else KeepAlive (RFC 7230, section 6.3).
    pub fn connection_type(&self) -> ConnectionType
        ensures { IsTypeOf (request_flags self.now) self.now.version result }
    {
        self.flags.connection_type(self.version)
    }

    /// Whether the client asks for another protocol: whether the first `Connection` is a text with
    /// the word `upgrade` in any case (RFC 7230, section 6.7).
    pub fn upgrade(&self) -> bool
        ensures { result ≡ asks_to_upgrade self.now.headers }
    {
        asks_to_upgrade(&self.headers)
    }

    /// Whether a body without a stated length may be sent in chunks (RFC 7230, section 4.1).
    pub fn chunked(&self) -> bool
        ensures { result ≡ not (request_flags self.now).no_chunking }
    {
        !self.flags.no_chunking
    }

    /// Says that a body without a stated length isn't to be sent in chunks, or that it may be.
    pub fn no_chunking(&mut self, val: bool)
        ensures { HasRequestFlags self.old self.new (with_no_chunking (request_flags self.old) val) }
    {
        self.flags.no_chunking = val;
    }

    /// Whether the client waits for leave to send the body (RFC 7231, section 5.1.1).
    pub fn expect(&self) -> bool
        ensures { result ≡ (request_flags self.now).expect }
    {
        self.flags.expect
    }

    /// Marks the head as one whose client waits for leave to send the body.
    pub fn set_expect(&mut self)
        ensures { HasRequestFlags self.old self.new (with_expect (request_flags self.old)) }
    {
        self.flags.expect = true;
    }

    /// An equal head, as `clone` gives it too.
    pub fn copy(&self) -> Result<RequestHead, NoMemory>
        ensures { IfOk result (λ copy. copy ≡ self.now) }
    {
        Ok(RequestHead {
            method: self.method.clone()?,
            uri: self.uri.clone()?,
            version: self.version,
            headers: self.headers.copy()?,
            peer_addr: self.peer_addr,
            flags: self.flags,
        })
    }
}

impl Clone for RequestHead {
    ghost is_clone = { λ head copy. copy ≡ head };

    fn clone(&self) -> Result<RequestHead, NoMemory> {
        self.copy()
    }
}

impl Head for RequestHead {
    ghost use Rattle.http_types.specs.RequestHead.{cleared_request};

    ghost cleared = { cleared_request };

    fn clear(&mut self) {
        self.flags = Flags::EMPTY;
        self.headers.clear();
    }
}
