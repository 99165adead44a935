//! Transports: streams of bytes in both directions that are polled, a transport in memory, and items over any transport. Clocks and
//! acceptors stand beside them.
//!
//! # Example
//!
//! ```ignore
//! let mut framed = Framed::new(alloc, MemTransport::new(alloc, pieces, room, fail), codec);
//! framed.write(message)?;                 // behind what is buffered
//! framed.flush(cx)                        // Ready(Ok(())), once the transport took all
//! framed.next_item(cx)                    // Ready(Some(Ok(item))), in whatever pieces it comes
//! ```
//!
//! # Contract
//!
//! A transport tells what it received and sent, where that is known, and counts its faults and its Pending answers: so an
//! answer has its cause in the counts. `Framed::next_item` gives the items that the codec's reading has of all bytes that
//! were received, in whatever pieces they came. At an error of the transport, or out of memory, none of them is lost; an error
//! of the codec leaves what the codec says. `Framed::flush` sends the front of what is buffered, and the rest stays. A
//! poll that moved at least 64 bytes may be pending with its task woken, so that others have their turn.
//!
//! # Cost
//!
//! A read copies its piece once. A write takes memory only where the buffer has no room, and a buffer that was flushed
//! keeps its room.
#![tactic(auto)]

mod acceptor;
mod clock;
mod framed;
mod mem_transport;
mod transport;

pub use acceptor::Acceptor;
pub use clock::Clock;
pub use framed::{Framed, FramedError};
pub use mem_transport::MemTransport;
pub use transport::Transport;
