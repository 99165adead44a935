//! The lines that a forwarder adds (RFC 9110, section 7.6.3; RFC 7239).
ghost use Rattle.std.specs.Prelude.{◌≡◌, ◌∷◌, ◌++◌, [], Option, option_map, Some, codes, IfOk, OnOk};
ghost use Rattle.http_header.specs.FieldValue.{plain_value};
ghost use Rattle.model_h1.specs.Answer.{has_header};
ghost use Rattle.model_h1.specs.AnswerText.{by_name};
ghost use Rattle.model_client.specs.WrittenHead.{line_of};
ghost use Rattle.h1_encoder.specs.Meaning.{headers_of, minor_of};
ghost use Rattle.model_proxy.specs.Edge.{via};
ghost use Rattle.proxy_heads.specs.Edges.{edge_of, line_unless, host_or, added_lines};

use crate::edge::Edge;
use http_header::{HeaderName, HeaderValue};
use http_map::HeaderMap;
use http_map::names::{FORWARDED, HOST, VIA, x_forwarded_for, x_forwarded_host, x_forwarded_proto};
use http_types::{NoMemory, Version};

/// Adds to a request's lines which host it is for, who passes it on, and whom it comes from.
pub(crate) fn add_own(
    headers: &mut HeaderMap,
    edge: &Edge,
    named: Option<HeaderValue>,
    version: Version,
) -> Result<(), NoMemory>
    ensures { OnOk result (headers_of headers.new ≡ by_name (headers_of headers.old
        ++ added_lines (edge_of edge.now) (option_map (λ v. v.bytes) named) (minor_of version) (headers_of headers.old))) }
{
    let has_proto = has_line(headers, x_forwarded_proto());
    let has_host = has_line(headers, x_forwarded_host());
    let host = host_or(edge, &named)?;
    put(headers, HOST, host)?;
    put(headers, VIA, via(version))?;
    let address = edge.address.clone()?;
    put(headers, x_forwarded_for(), address)?;
    let element = edge.element.clone()?;
    put(headers, FORWARDED, element)?;
    let proto = HeaderValue::from_static("http");
    put_unless(headers, has_proto, x_forwarded_proto(), Some(proto))?;
    put_unless(headers, has_host, x_forwarded_host(), named)?;
    Ok(())
}

/// Who passes on a message of this version.
pub(crate) fn via(version: Version) -> HeaderValue
    ensures { result ≡ plain_value (via (minor_of version)) }
{
    if version < Version::HTTP_11 {
        return HeaderValue::from_static("1.0 raspcream");
    }
    HeaderValue::from_static("1.1 raspcream")
}

// The host that is named, or the server's own.
fn host_or(edge: &Edge, named: &Option<HeaderValue>) -> Result<HeaderValue, NoMemory>
    ensures { IfOk result (λ host. host.bytes ≡ host_or (option_map (λ v. v.bytes) named.now) (edge_of edge.now).host) }
{
    match named {
        Some(host) => Ok(host.clone()?),
        None => Ok(edge.host.clone()?),
    }
}

fn has_line(headers: &HeaderMap, name: HeaderName) -> bool
    ensures { result ≡ has_header name (headers_of headers.now) }
{
    // Called for its clause alone: no name stands twice.
    let _valid = headers.len();
    headers.contains_key(name)
}

/// Adds a line.
pub(crate) fn put(
    headers: &mut HeaderMap,
    name: HeaderName,
    value: HeaderValue,
) -> Result<(), NoMemory>
    ensures { OnOk result (headers_of headers.new ≡ by_name (headers_of headers.old ++ line_of name value.bytes ∷ [])) }
{
    // Called for its clause alone: no name stands twice.
    let _valid = headers.len();
    headers.append(name, value)?;
    Ok(())
}

// The same, where there is a value and no line of that name.
fn put_unless(
    headers: &mut HeaderMap,
    is_there: bool,
    name: HeaderName,
    value: Option<HeaderValue>,
) -> Result<(), NoMemory>
    ensures { OnOk result (headers_of headers.new
        ≡ by_name (headers_of headers.old ++ line_unless is_there name (option_map (λ v. v.bytes) value))) }
{
    // Called for its clause alone: no name stands twice.
    let _valid = headers.len();
    if is_there {
        return Ok(());
    }
    match value {
        Some(value) => {
            put(headers, name, value)?;
            Ok(())
        }
        None => Ok(()),
    }
}
