//! Sockets and the clock, as transports, acceptors, sources and sinks. For programs: it knows nothing of HTTP.
//!
//! - Blocking: [`Listener`] accepts, [`SocketSource`] and [`SocketSink`] are both directions of a socket, and
//!   [`close_orderly`] ends it so that no answer is lost. [`TcpTransport`] and [`TcpAcceptor`] are the same as a transport and an
//!   acceptor; [`Gated`] reads nothing while its write waits. [`prepare`], [`TimedSource`] and [`TimedSink`]
//!   bound how long a call waits.
//! - Non-blocking, over `mio`: [`Incoming`] and [`Outgoing`] are both directions of a socket.
//! - [`moment`], [`uptime`] and [`SystemClock`] tell the time in milliseconds.
//!
//! # Example
//!
//! ```ignore
//! let listener = Listener::bind(&rt, "127.0.0.1:8080")?;
//! let accepted = listener.accept()?;
//! prepare(&accepted.stream, 20)?;
//! let mut source = SocketSource::new(&rt, &accepted.stream);
//! close_orderly(&rt, &accepted.stream, Linger { milliseconds: 2000, bytes: 65_536 });
//! ```
//!
//! # Contract
//!
//! Sources, sinks, transports, acceptors and clocks keep the contracts of their traits. No clause says what a socket gives or
//! takes, or how long a call waits: a socket for which no time was set waits without end, as `accept` does.
#![tactic(auto)]

mod acceptor;
mod clock;
mod close;
mod error;
mod gated;
mod listener;
mod polled_socket;
mod socket;
mod system_clock;
mod timed;
mod transport;

pub use acceptor::TcpAcceptor;
pub use clock::{moment, uptime};
pub use close::{Linger, close_orderly};
pub use error::{AcceptError, BindError};
pub use gated::Gated;
pub use listener::{Accepted, Listener};
pub use polled_socket::{Incoming, Outgoing, Polled};
pub use socket::{SocketSink, SocketSource, Stall, prepare};
pub use system_clock::SystemClock;
pub use timed::{TimedSink, TimedSource};
pub use transport::TcpTransport;
