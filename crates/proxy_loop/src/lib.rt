//! A forwarder between sockets, whatever they are: what comes from either side is told to it once and in order, and what it
//! puts out is written in order. It reads and writes over any `Source` and `Sink`; when a socket is ready, and how long is
//! waited for one, is left to who owns them.
//!
//! # Example
//!
//! ```ignore
//! let mut forwarder = Forwarder::new(alloc, config);
//! match take_in_client(&mut forwarder, &mut source, &mut room)? {
//!     TakenIn::Bytes(count) => ..,
//!     TakenIn::End => forwarder.client_eof()?,
//!     ..
//! }
//! write_server(&mut forwarder, &mut sink)?;
//! ```
//!
//! # Contract
//!
//! A `Forwarder` always has a history: nothing but the events of `proxy` changes it. Of the bytes that leave a source it
//! is told the first ones, and which those are is said; of the bytes that wait towards a side the first ones are written,
//! and those wait no more. Every other event is made exactly where it is allowed, and its call says whether it was.
#![tactic(auto)]

mod flow;
mod forwarder;
pub mod laws;

pub use flow::{TakenIn, take_in_client, take_in_server, write_client, write_server};
pub use forwarder::Forwarder;
pub use proxy::{
    BegunReply, Edge, End, Expiry, NoMemory, Proxy, ProxyConfig, RequestHead, ServiceConfig,
    StatusCode,
};
