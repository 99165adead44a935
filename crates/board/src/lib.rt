//! A board of counters that many connections share: a GET asks for the counter that its path names, a POST adds one to it. A
//! worked example of state behind many connections, which `board_server` serves.
//!
//! - [`Board`] answers each [`Command`], and notes the answer in its journal. A caller has a [`Pass`], with the entries of
//!   its own calls.
//! - [`Table`] has connections and one board, on one thread. A [`Shared`] board is called by many threads.
//! - [`BoardService`] is the board as a service of a dispatcher: 200 with the reply as `x-count`, 503 where the pass has no
//!   room, 404 for any other request.
//!
//! # Example
//!
//! ```ignore
//! let shared = Shared::from_board(board);
//! let reply = shared.call(rt, &mut pass, Command::Add(name))?;
//! let board = shared.close(rt, passes)?;
//! ```
//!
//! The type `M` of a board names its one ledger, which counts its calls, so that a pass fits only the board that made it.
//!
//! # Contract
//!
//! A call that is answered adds one entry to the journal and the same one to the pass, and its reply is what the entries before
//! it give. An error changes nothing. With all passes back, [`Shared::close`] gives the board exactly where the entries of
//! each pass are the journal's of its number, in order. The connections of a table don't touch each other ([`laws`]).
#![tactic(auto)]

mod answer;
mod board;
mod command;
mod compare;
mod gate;
pub mod laws;
mod name;
mod pass;
mod service;
mod shared;
mod stock;
mod table;
mod table_connection;
mod work;

pub use board::{Board, BoardError};
pub use command::{Command, CounterReply, Entry};
pub use gate::{Gate, OpenGate};
pub use name::{MAX_NAME_LEN, Name, NameError};
pub use pass::{Carried, MAX_ENTRIES, Pass};
pub use service::BoardService;
pub use shared::{Shared, Unlike};
pub use stock::MAX_PASSES;
pub use table::Table;
