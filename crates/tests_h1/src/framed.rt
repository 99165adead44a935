//! The codecs of a server and of a client, and an answer that is sent over a framed transport: one of each, with ample memory.
mod client;
mod send;
mod server;
mod transport;

use bytes::Bytes;
use h1_codec::Codec;
use http_transport::{Framed, MemTransport};
use http_types::ServiceConfig;
use std::alloc::{AllocError, Global};

/// A server's codec over a transport in memory. The clock of its settings stands at 0.
type Server = Framed<MemTransport, Codec>;

/// Over a transport that gives these pieces, and takes so many bytes at a call, 0 as a wait, and then all.
fn over_transport(alloc: Global, pieces: Vec<Bytes>, room: &[usize]) -> Result<Server, AllocError> {
    let transport = MemTransport::new(alloc, pieces, room.to_vec(alloc)?, Vec::new(alloc));
    Ok(Framed::new(alloc, transport, Codec::new(ServiceConfig::default())))
}

/// Whether these bytes were sent so far.
fn has_sent(framed: &mut Server, text: &[u8]) -> bool {
    framed.io_mut().sent() == text
}
