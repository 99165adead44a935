//! What servers are told of a client.
ghost use Rattle.std.specs.Prelude.{◌≡◌, IfOk, string_bytes};
ghost use Rattle.std.specs.Net.Socket.{socket_ip, socket_port};
ghost use Rattle.std.specs.Net.Text.{ip_text, ipv4_text, ipv6_text, socket_text};
ghost use Rattle.httparse.specs.Grammar.{AllPass, is_uri_byte};
ghost use Rattle.http_header.specs.FieldValue.{plain_value};
ghost use Rattle.model_proxy.specs.Edge.{IsCleanEdge};
ghost use Rattle.proxy_heads.specs.Edges.{edge_of, plain_text, edge_between};

use http_header::{HeaderValue, HeaderValueError};
use http_types::NoMemory;
use std::alloc::{AllocError, Global};
use std::net::{IpAddr, SocketAddr};

/// What is the same for all requests of one client: what servers are told of it, and how its heads are judged.
#[derive(Debug, Drop)]
pub struct Edge {
    /// The client's address, as `X-Forwarded-For` has it.
    pub address: HeaderValue,

    /// The same as an element of `Forwarded` (RFC 7239, section 4).
    pub element: HeaderValue,

    /// The host of a request that names none: that of the server.
    pub host: HeaderValue,

    /// Whether what the client says of earlier clients goes on.
    pub trusts_client: bool,

    /// Whether heads are taken that RFC 9112 refuses.
    pub is_lax: bool,
}

impl Edge {
    /// That of nobody, for what is done with. It takes no memory.
    pub fn unknown() -> Edge {
        Edge {
            address: HeaderValue::from_static(""),
            element: HeaderValue::from_static(""),
            host: HeaderValue::from_static(""),
            trusts_client: false,
            is_lax: false,
        }
    }

    /// That of a client with this address, whose requests go to the server with that one. The client isn't trusted, and
    /// heads are refused as RFC 9112 says. The zone of an address that counts on its link alone is left out. Out of memory
    /// is the only error.
    pub fn new(alloc: Global, client: SocketAddr, server: SocketAddr) -> Result<Edge, NoMemory>
        ensures says { IfOk result (λ edge. edge_of edge ≡ edge_between client server) }
        ensures clean { IfOk result (λ edge. IsCleanEdge (edge_of edge)) }
    {
        let ip = ip_of(client);
        let from = plain(client);
        let to = plain(server);
        let address = value(format!(in alloc; "{ip}")?)?;
        let element = value(format!(in alloc; "for=\"{from}\";proto=http")?)?;
        let host = value(format!(in alloc; "{to}")?)?;
        Ok(Edge {
            address,
            element,
            host,
            trusts_client: false,
            is_lax: false,
        })
    }
}

// The address and its port, without a zone. All bytes of its text are visible.
fn plain(address: SocketAddr) -> SocketAddr
    ensures text { socket_text result ≡ plain_text (socket_ip address) (socket_port address) }
    ensures visible { AllPass is_uri_byte (socket_text result) }
{
    SocketAddr::new(ip_of(address), address.port())
}

// The address alone. All bytes of its text are visible.
fn ip_of(address: SocketAddr) -> IpAddr
    ensures value { result ≡ socket_ip address }
    ensures visible { AllPass is_uri_byte (ip_text result) }
{
    // Called for their clauses alone: the parts of an address are small enough.
    match address.ip() {
        IpAddr::V4(ip) => {
            show_octets(&ip.octets());
            IpAddr::V4(ip)
        }
        IpAddr::V6(ip) => {
            show_segments(&ip.segments());
            IpAddr::V6(ip)
        }
    }
}

fn show_octets(octets: &[u8])
    ensures { AllPass is_uri_byte (ipv4_text octets.now) }
{}

fn show_segments(segments: &[u16])
    ensures { AllPass is_uri_byte (ipv6_text segments.now) }
{}

// The text of an address as a value: all its bytes are visible.
fn value(text: String) -> Result<HeaderValue, NoMemory>
    requires { AllPass is_uri_byte (string_bytes text) }
    ensures { IfOk result (λ value. value ≡ plain_value (string_bytes text)) }
{
    match HeaderValue::from_string(text) {
        Ok(value) => Ok(value),
        Err(HeaderValueError::OutOfMemory) => Err(AllocError),
        Err(HeaderValueError::Invalid) => unreachable!(),
    }
}
