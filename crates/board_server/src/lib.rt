//! A server over one board of counters: a thread for each connection, and one board that all of them call. For `app_counters`,
//! and as a worked example of a server whose whole run is proved.
//!
//! - [`serve_connection`] drives one connection over any transport, and tells by [`Served`] how it ended.
//! - [`serve`] and [`serve_by`] serve all connections of an acceptor, and give a [`Report`] with one [`Visit`] for each.
//! - [`serve_run`] is the program but for `main`; [`print_report`] writes the report.
//! - [`MemAcceptor`] is an acceptor in memory; [`GatedAcceptor`] gives connections that read nothing while their writes wait.
//!
//! # Example
//!
//! ```ignore
//! let ran = serve(&rt, config, acceptor, clock, &OpenGate, NoRecords, 100, 1_000_000, blank);
//! match ran.end {
//!     Ok(report) => {}                      // the board, and what came of each connection
//!     Err(ServeFault::Acceptor(report)) => {} // the same, as the acceptor failed
//!     Err(ServeFault::Unlike(_)) => {}      // the journal isn't that of the passes
//!     Err(ServeFault::NoMemory) => {}
//! }
//! ```
//!
//! # Contract
//!
//! The requests that a connection handed out are those that were answered, and at most one more; its pass has one entry for each
//! 200, in order. The board's journal has just the calls of the visits, each with the reply that the calls before it give.
#![tactic(auto)]

mod accept;
mod acceptor_loop;
mod connection;
mod error;
mod gated_acceptor;
mod gather;
mod mem_acceptor;
mod recorders;
mod report;
mod run;
mod text;
mod visit;
mod words;
mod write;

pub use acceptor_loop::{serve, serve_by};
pub use board::{Gate, OpenGate};
pub use connection::{Served, serve_connection};
pub use error::ServeError;
pub use gated_acceptor::GatedAcceptor;
pub use http_transport::{Acceptor, Clock};
pub use mem_acceptor::{MemAcceptor, MemPeer};
pub use net_sockets::{Gated, Linger, TcpAcceptor, TcpTransport};
pub use recorders::{NoRecords, Recorders};
pub use report::print_report;
pub use run::{Run, serve_run};
pub use visit::{Differing, Ran, Report, ServeFault, Visit};
