//! What is asked.
ghost use Rattle.std.specs.Prelude.{◌≡◌, None, OnOk, IfOk, IfErr};
ghost use Rattle.http_header.specs.FieldValue.{plain_value};
ghost use Rattle.h1_client.specs.ClientMeaning.{request_of};
ghost use Rattle.h1_encoder.specs.Meaning.{size_of};
ghost use Rattle.app_get.specs.Redirects.{hop_method, hop_has_body, without_secrets, without_content, hop_fields};
ghost use Rattle.app_get.specs.Asking.{TellsTime, Asks, IsUnasked};
ghost use Rattle.app_get.specs.Heads.{sends_body, asked_method, is_repeatable, target_authority, general_headers, body_type, typed, asked_headers, AsksFor};

use crate::error::GetError;
use crate::fields::put_fields;
use crate::follow::Stage;
use crate::options::Options;
use crate::redirect::Hop;
use crate::target::Target;
use h1_client::ClientConnection;
use http_framing::BodySize;
use http_header::{
    AUTHORIZATION, CONTENT_ENCODING, CONTENT_LANGUAGE, CONTENT_LOCATION, PROXY_AUTHORIZATION,
    USER_AGENT,
};
use http_types::header::{
    ACCEPT, CONTENT_TYPE, COOKIE, HOST, HeaderMap, HeaderValue, value_of_str,
};
use http_types::{Method, NoMemory, RequestHead, Version};
use std::alloc::Global;

/// Asks, where that may be, at this moment.
pub fn ask(
    connection: &mut ClientConnection,
    moment: u64,
    head: &RequestHead,
    size: BodySize,
) -> Result<(), GetError>
    ensures asks { OnOk result (Asks connection.old moment (request_of head.now) (size_of size) connection.new) }
    ensures unasked { IfErr result (IsUnasked connection.new (request_of head.now) (size_of size)) }
{
    tell_time(connection, moment);
    if !connection.can_ask(head, size) {
        return Err(GetError::Request);
    }
    connection.ask(head, size)?;
    Ok(())
}

fn tell_time(connection: &mut ClientConnection, moment: u64)
    ensures { TellsTime connection.old moment connection.new }
{
    if !connection.can_tick(moment) {
        return;
    }
    connection.tick(moment);
}

/// The head of the request for a stage.
pub fn head_for(
    alloc: Global,
    options: &Options<'_>,
    stage: &Stage,
) -> Result<RequestHead, GetError>
    ensures { IfOk result (AsksFor options.now stage.now) }
{
    let Ok(uri) = stage.target.uri.clone() else {
        return Err(GetError::NoMemory);
    };
    let headers = headers_for(alloc, options, stage.hop, &stage.target)?;
    let method = method_for(options, stage.hop)?;
    Ok(RequestHead::from_parts(method, uri, Version::HTTP_11, headers))
}

/// Whether the request may be asked once more over another connection.
pub fn is_repeatable(options: &Options<'_>) -> bool
    ensures { result ≡ is_repeatable options.now.method (sends_body options.now) }
{
    options.method.is_none() && !options.has_body()
}

/// The method that it is asked by.
pub fn method_for(options: &Options<'_>, hop: Hop) -> Result<Method, GetError>
    ensures { IfOk result (λ method. method ≡ hop_method hop (asked_method options.now.method options.now.is_head (sends_body options.now))) }
{
    if hop.by_get {
        return Ok(Method::GET);
    }
    match &options.method {
        Some(method) => match method.clone() {
            Ok(method) => Ok(method),
            Err(_) => Err(GetError::NoMemory),
        },
        None => Ok(usual_method(options.is_head, options.has_body())),
    }
}

fn usual_method(is_head: bool, has_body: bool) -> Method
    ensures { result ≡ asked_method None is_head has_body }
{
    if is_head {
        return Method::HEAD;
    }
    if has_body { Method::POST } else { Method::GET }
}

fn headers_for(
    alloc: Global,
    options: &Options<'_>,
    hop: Hop,
    target: &Target,
) -> Result<HeaderMap, GetError>
    ensures { IfOk result (λ headers. headers ≡ asked_headers (target_authority target.now) (hop_has_body hop (sends_body options.now)) options.now.is_form (hop_fields hop options.now.fields)) }
{
    let mut headers = general_headers(alloc, target)?;
    put_type(&mut headers, has_body(options, hop), options.is_form)?;
    put_fields(&mut headers, &own_fields(&options.fields, hop)?)?;
    Ok(headers)
}

/// Whether it has a body.
pub fn has_body(options: &Options<'_>, hop: Hop) -> bool
    ensures { result ≡ hop_has_body hop (sends_body options.now) }
{
    options.has_body() && !hop.by_get
}

fn put_type(headers: &mut HeaderMap, has_body: bool, is_form: bool) -> Result<(), NoMemory>
    ensures { OnOk result (headers.new ≡ typed has_body is_form headers.old) }
{
    if !has_body {
        return Ok(());
    }
    headers.append(CONTENT_TYPE, type_of(is_form))
}

// The user's own fields that are still sent.
fn own_fields(fields: &HeaderMap, hop: Hop) -> Result<HeaderMap, NoMemory>
    ensures { IfOk result (λ left. left ≡ hop_fields hop fields.now) }
{
    let mut left = fields.copy()?;
    drop_secrets(&mut left, hop.is_foreign);
    drop_content(&mut left, hop.by_get);
    Ok(left)
}

// What the user meant for one host alone isn't sent to another.
fn drop_secrets(fields: &mut HeaderMap, is_foreign: bool)
    ensures { fields.new ≡ without_secrets is_foreign fields.old }
{
    if !is_foreign {
        return;
    }
    fields.remove(HOST);
    fields.remove(AUTHORIZATION);
    fields.remove(COOKIE);
    fields.remove(PROXY_AUTHORIZATION);
}

// What tells of a body isn't sent where there is none any more.
fn drop_content(fields: &mut HeaderMap, by_get: bool)
    ensures { fields.new ≡ without_content by_get fields.old }
{
    if !by_get {
        return;
    }
    fields.remove(CONTENT_TYPE);
    fields.remove(CONTENT_ENCODING);
    fields.remove(CONTENT_LANGUAGE);
    fields.remove(CONTENT_LOCATION);
}

fn type_of(is_form: bool) -> HeaderValue
    ensures { result ≡ plain_value (body_type is_form) }
{
    if is_form {
        HeaderValue::from_static("application/x-www-form-urlencoded")
    } else {
        HeaderValue::from_static("application/octet-stream")
    }
}

// Those of each request.
fn general_headers(alloc: Global, target: &Target) -> Result<HeaderMap, GetError>
    ensures { IfOk result (λ headers. headers ≡ general_headers (target_authority target.now)) }
{
    let mut headers = HeaderMap::new(alloc);
    let Ok(host) = value_of_str(alloc, target.authority()) else {
        return Err(GetError::Url);
    };
    headers.append(HOST, host)?;
    headers.append(USER_AGENT, HeaderValue::from_static("app_get/0.1.0"))?;
    headers.append(ACCEPT, HeaderValue::from_static("*/*"))?;
    Ok(headers)
}
