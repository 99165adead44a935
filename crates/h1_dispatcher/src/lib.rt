//! A service over a transport: requests that come go to a service, and its answers are written (RFC 7230).
//!
//! # Example
//!
//! ```ignore
//! let peer = transport.peer_addr();
//! let mut dispatcher = Dispatcher::new(alloc, transport, service, config, peer, NoRecord);
//! match dispatcher.poll(now_ms, cx) {
//!     Poll::Ready(Ok(())) => {}        // the connection has ended
//!     Poll::Ready(Err(error)) => {}    // why it broke off
//!     Poll::Pending => {}              // the task is woken once it is worth another poll
//! }
//! ```
//!
//! # Contract
//!
//! A poll says by which steps it came from one view of the dispatcher to another: a moment that came, bytes written or
//! read, a head handed out, a call begun, a piece of its body fed to the queue that the call is lent, an answer handed on, a
//! piece of its body. Each step says what it takes, what the transport, the service, the body and the connection did, and that all
//! else stays. What a poll answers says how its steps end.
//! Polls one after another are one run of steps ([`polls_are_one_run`]). Over every run in which memory doesn't run out, the
//! steps that were noted are a trace of the connection, and an open request is at hand; over every run requests and answers
//! keep their order, a body gives its pieces once and in order, and what came of a request's body goes to its call once and in
//! order. What waits to be written, or in a queue, grows only where there is room. Behind polls of which none ran out of memory
//! no answer of the service is at hand that wasn't handed on.
//!
//! Requests that ask for an upgrade go to the service as all others do, or are held back for who polls
//! ([`Dispatcher::hold_upgrades`]), who accepts one and takes over its connection and transport, or declines it.
#![tactic(auto)]

mod dispatcher;
mod laws;

pub use dispatcher::{Accepting, Dispatcher, Ending, Upgraded};
pub use laws::{
    no_head_comes_of_no_byte, polls_are_one_run, polls_end_by_their_cause, runs_are_traces,
    runs_bound_output, runs_feed_bodies, runs_hold_none_unasked, runs_keep_order,
    runs_lack_what_they_take, runs_lose_no_request, runs_note_traces, runs_send_bodies,
    runs_tell_the_peer,
};
