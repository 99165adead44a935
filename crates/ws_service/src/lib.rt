//! A service over a connection that was upgraded to WebSocket (RFC 6455): each frame goes to it, and its answers are sent.
//!
//! # Example
//!
//! ```ignore
//! // A connection of which an upgrade was accepted, with the request that asked for it.
//! let mut upgraded = UpgradeDispatcher::new(request, traced, transport, service);
//! match upgraded.poll(now_ms, cx) {
//!     Poll::Ready(Ok(())) => {}        // the connection has ended, and the transport is shut down
//!     Poll::Ready(Err(error)) => {}    // why it broke off
//!     Poll::Pending => {}              // the task is woken once it is worth another poll
//! }
//! ```
//!
//! # Contract
//!
//! A poll says by which steps it came from one view to another, as `h1_dispatcher` does for requests: a moment that came, bytes
//! that the transport took or gave, a frame that was asked for, a call that was begun or polled, a message that was sent. Over every
//! run of steps the service is called with the request and then with the frames that came, in order and once each, and what is
//! sent are its answers, in order and once each ([`frames_go_in_order`]).
#![tactic(auto)]

mod dispatcher;
mod error;
mod item;
mod laws;

pub use dispatcher::{Ending, UpgradeDispatcher};
pub use error::UpgradeError;
pub use h1_connection::{Frame, Message, ReceivedFrame};
pub use item::UpgradeItem;
pub use laws::{
    an_upgraded_connection_stays_so, frames_go_in_order, nothing_is_read_while_it_closes,
    polls_are_runs, polls_end_by_their_cause, runs_are_traces, runs_note_traces,
    the_end_is_told_behind_all_frames,
};
