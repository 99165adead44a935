//! The upgrade of a connection to WebSocket (RFC 6455, section 4.2), and the frames after it without a connection.
//!
//! [`verify_handshake`] says whether a request asks for the upgrade as it has to, and the first check that fails otherwise,
//! and [`accept_key_of`] is the answer to its key; neither takes memory. [`handshake`] gives the whole answer, and
//! [`error_response`] the one to a failed check. A [`Session`] reads the frames of bytes that are pushed in any pieces.
//!
//! ```text
//! let mut builder = match handshake(alloc, &item.head) {
//!     Ok(builder) => builder,
//!     Err(HandshakeFault::Refused(error)) => return error_response(alloc, error),
//!     Err(HandshakeFault::NoMemory) => return Err(NoMemory),
//! };
//! let response = builder.finish()?;                      // 101, upgrade: websocket, sec-websocket-accept: ..
//!
//! let mut session = Session::new(alloc, true, 65536);
//! session.push(b"\x81\x85\x37\xfa\x21\x3d\x7f\x9f")?;
//! session.next()?;                                       // None: the frame isn't whole
//! session.push(b"\x4d\x51\x58")?;
//! session.next()?;                                       // Some(Frame::Text(b"Hello"))
//! ```
//!
//! # Contract
//!
//! A request is judged by the head that it was read from, and also by its own method and headers. The frames of a session
//! are those of all bytes that were pushed; a broken rule is answered again for good; where memory ran out,
//! nothing changes.
#![tactic(auto)]

mod answer;
mod laws;
mod session;
mod verify;

pub use answer::{error_response, handshake, handshake_response};
pub use laws::heads_say_their_upgrade;
pub use session::Session;
pub use verify::{HandshakeError, HandshakeFault, accept_key_of, verify_handshake};

/// The allocator had no memory.
pub type NoMemory = std::alloc::AllocError;
