//! A forwarder (a reverse proxy) without input or output: a client's connection beside one to a server (RFC 7230, section
//! 2.3). For a program that owns the sockets and the clock, tells the forwarder what came from either side, and writes what
//! it puts out towards either.
//!
//! - [`Proxy`] is the forwarder. [`BegunReply`] tells what was replied, for a log.
//! - [`downstream`] and [`upstream`] are the calls of its two connections, each made only where it is allowed.
//! - [`laws`]: what the contracts come to over many events.
//!
//! # Example
//!
//! ```ignore
//! let edge = Edge::new(alloc, client, server)?;
//! let mut proxy = Proxy::new(alloc, ProxyConfig { connections, edge });
//! proxy.read_client(b"GET /x HTTP/1.1\r\nhost: a\r\n\r\n")?;
//! if proxy.wants_server() {
//!     proxy.connected()?;
//! }
//! // write `server_front()`, and say by `advance_server` how many bytes were written; `read_server` what comes
//! ```
//!
//! # Contract
//!
//! What goes towards each server is the text of the requests that were forwarded, in order, and not one byte else. Each
//! connection is driven only by events that it allows.
#![tactic(auto)]

pub mod downstream;
mod events;
mod forwarding;
pub mod laws;
mod notes;
mod opening;
mod passing;
mod proxy;
pub mod upstream;

pub use h1_connection::{Bytes, End, Expiry, NoMemory, RequestHead, ServiceConfig, StatusCode};
pub use notes::BegunReply;
pub use proxy::{Proxy, ProxyConfig};
pub use proxy_heads::Edge;
