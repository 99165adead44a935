//! Responses.
ghost use Rattle.std.specs.Prelude.{◌≡◌, ◌↔◌, false, IsTrue, IfOk, codes};
ghost use Rattle.std.specs.Borrow.{sem};
ghost use Rattle.http_types.specs.ConnectionType.{IsTypeOf};
ghost use Rattle.http_types.specs.ResponseHead.{fresh_response};
ghost use Rattle.http_types.specs.ResponseBuilder.{fresh_builder};
ghost use Rattle.http_types.specs.Response.{typed_response, MapsBody};
ghost use Rattle.http_types.specs.declared.message.ConnectionType.TheVariants.{KeepAlive, Upgrade};

use crate::responses::{ResponseBuilder, ResponseHead};
use crate::{HeaderMap, HeaderValue, NoMemory, StatusCode};
use http_map::CONTENT_TYPE;
use std::alloc::Global;
use std::marker::Model;

const TEXT: &str = "text/plain; charset=utf-8";

const OCTETS: &str = "application/octet-stream";

/// A response: its head and its body.
///
/// A contract sees it as the record of these two.
#[derive(Debug, Drop)]
pub struct Response<B> {
    head: ResponseHead,
    body: B,
}

impl<B> Model for Response<B> {
    ghost use Rattle.http_types.specs.Response.{FullResponse};

    ghost Value = { FullResponse B };

    ghost view = { λ r. record { head = r.head; body = r.body } };
}

impl Response<()> {
    /// A response of HTTP/1.1 with this status, no headers, no marks and an empty body.
    pub fn new(alloc: Global, status: StatusCode) -> Self
        ensures { result ≡ record { head = fresh_response status; body = tt } }
    {
        Response::with_body(alloc, status, ())
    }

    /// A builder that starts with this status.
    pub fn build(alloc: Global, status: StatusCode) -> ResponseBuilder
        ensures { result ≡ fresh_builder status }
    {
        ResponseBuilder::new(alloc, status)
    }

    /// A response with the status 200.
    pub fn ok(alloc: Global) -> Self
        ensures { result ≡ record { head = fresh_response 200; body = tt } }
    {
        Response::new(alloc, StatusCode::OK)
    }

    /// A response with the status 400.
    pub fn bad_request(alloc: Global) -> Self
        ensures { result ≡ record { head = fresh_response 400; body = tt } }
    {
        Response::new(alloc, StatusCode::BAD_REQUEST)
    }

    /// A response with the status 404.
    pub fn not_found(alloc: Global) -> Self
        ensures { result ≡ record { head = fresh_response 404; body = tt } }
    {
        Response::new(alloc, StatusCode::NOT_FOUND)
    }

    /// A response with the status 500.
    pub fn internal_server_error(alloc: Global) -> Self
        ensures { result ≡ record { head = fresh_response 500; body = tt } }
    {
        Response::new(alloc, StatusCode::INTERNAL_SERVER_ERROR)
    }
}

impl<B> Response<B> {
    ghost use Rattle.http_types.specs.FullResponseLends.{lends_head, lends_headers, lends_status};

    /// A response of HTTP/1.1 with this status and body, no headers and no marks.
    pub fn with_body(alloc: Global, status: StatusCode, body: B) -> Self
        ensures { result ≡ record { head = fresh_response status; body = body } }
    {
        Response {
            head: ResponseHead::new(alloc, status),
            body,
        }
    }

    /// A response with the status 200 and this body, whose type is UTF-8 text.
    pub fn from_text(alloc: Global, val: B) -> Result<Self, NoMemory>
    where
        B: Drop,
        ensures { IfOk result (λ r. r ≡ typed_response (codes "text/plain; charset=utf-8") val) }
    {
        Response::typed(alloc, HeaderValue::from_static(TEXT), val)
    }

    /// A response with the status 200 and this body, whose type is bytes of any kind.
    pub fn from_octets(alloc: Global, val: B) -> Result<Self, NoMemory>
    where
        B: Drop,
        ensures { IfOk result (λ r. r ≡ typed_response (codes "application/octet-stream") val) }
    {
        Response::typed(alloc, HeaderValue::from_static(OCTETS), val)
    }

    fn typed(alloc: Global, content_type: HeaderValue, body: B) -> Result<Self, NoMemory>
    where
        B: Drop,
        ensures { IfOk result (λ r. content_type.is_sensitive ≡ false → r ≡ typed_response content_type.bytes body) }
    {
        let mut head = ResponseHead::new(alloc, StatusCode::OK);
        head.headers.insert(CONTENT_TYPE, content_type)?;
        Ok(Response { head, body })
    }

    /// The head.
    pub fn head(&self) -> &ResponseHead
        ensures { result.now ≡ self.now.head }
    {
        &self.head
    }

    /// The head, for writing.
    pub fn head_mut(&mut self) -> &mut ResponseHead
        ensures* writes_back { sem 𝓛 (lends_head B.row self.entry result) }
        ensures value { result.now ≡ self.old.head }
    {
        &mut self.head
    }

    /// The status.
    pub fn status(&self) -> StatusCode
        ensures { result ≡ self.now.head.status }
    {
        self.head.status
    }

    /// The status, for writing.
    pub fn status_mut(&mut self) -> &mut StatusCode
        ensures* writes_back { sem 𝓛 (lends_status B.row self.entry result) }
        ensures value { result.now ≡ self.old.head.status }
    {
        let head = &mut self.head;
        &mut head.status
    }

    /// The headers.
    pub fn headers(&self) -> &HeaderMap
        ensures { result.now ≡ self.now.head.headers }
    {
        self.head.headers()
    }

    /// The headers, for writing.
    pub fn headers_mut(&mut self) -> &mut HeaderMap
        ensures* writes_back { sem 𝓛 (lends_headers B.row self.entry result) }
        ensures value { result.now ≡ self.old.head.headers }
    {
        let head = &mut self.head;
        &mut head.headers
    }

    /// Whether the connection changes to another protocol with this response.
    pub fn upgrade(&self) -> bool
        ensures { IsTrue result ↔ IsTypeOf self.now.head.flags self.now.head.version Upgrade }
    {
        self.head.upgrade()
    }

    /// Whether the connection may serve a further request after this response.
    pub fn keep_alive(&self) -> bool
        ensures { IsTrue result ↔ IsTypeOf self.now.head.flags self.now.head.version KeepAlive }
    {
        self.head.keep_alive()
    }

    /// The body.
    pub fn body(&self) -> &B
        ensures { result.now ≡ self.now.body }
    {
        &self.body
    }

    /// The response with another body. The body that it had is dropped.
    pub fn set_body<B2>(self, body: B2) -> Response<B2>
    where
        B: Drop,
        ensures { result ≡ record { head = self.head; body = body } }
    {
        let Response { head, body: _ } = self;
        Response { head, body }
    }

    /// The response with an empty body. The body that it had is dropped.
    pub fn drop_body(self) -> Response<()>
    where
        B: Drop,
        ensures { result ≡ record { head = self.head; body = tt } }
    {
        self.set_body(())
    }

    /// The response with an empty body, and the body that it had.
    pub fn into_parts(self) -> (Response<()>, B)
        ensures { result ≡ (record { head = self.head; body = tt }, self.body) }
    {
        let Response { head, body } = self;
        (Response { head, body: () }, body)
    }

    // The response with this head and body.
    pub(crate) fn from_head(head: ResponseHead, body: B) -> Self
        ensures { result ≡ record { head = head; body = body } }
    {
        Response { head, body }
    }

    /// The head. The body is dropped: `into_parts` first gives it apart.
    pub fn into_head(self) -> ResponseHead
    where
        B: Drop,
        ensures { result ≡ self.head }
    {
        let Response { head, body: _ } = self;
        head
    }

    /// The body. The head is dropped.
    pub fn into_body(self) -> B
        ensures { result ≡ self.body }
    {
        let Response { head: _, body } = self;
        body
    }

    /// The response with the body that `f` makes of the one that it had. `f` may change the head.
    pub fn map_body<F: FnOnce(&mut ResponseHead, B) -> B2, B2>(self, f: F) -> Response<B2>
        requires { F.IsAlwaysCallable f }
        ensures { MapsBody (F.post f) self.head self.body result.head result.body }
    {
        let Response { mut head, body } = self;
        let body = f(&mut head, body);
        Response { head, body }
    }
}
