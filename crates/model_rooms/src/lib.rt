//! What a hub of chat rooms over WebSocket means: definitions on plain values, and the laws that hold of them.
//!
//! A hub has connections, each with a number. Events are fed to a connection from outside (bytes that come, ticks of a
//! clock, bytes fetched for writing), and a connection has turns, whose event the rules of the hub choose: it asks for the
//! next request, accepts it as a WebSocket or answers it, takes a frame, or sends one that waits. Who is accepted joins the
//! room that the request's path names. What a member says is sent to the others of its room.
//!
//! - `specs/Hub.antt`: what happens to a hub, and the trace of one connection. `specs/Trace.antt`: which steps may follow
//!   one another, over the traces of `model_h1`.
//! - `specs/Turn.antt`: the event of a turn. `specs/Room.antt`: the room of a target. `specs/Member.antt`: what a frame
//!   does, and what a step makes of the row of each member. `specs/Seen.antt`: the rows after a list of steps.
//! - `specs/Due.antt`: what is due to a member, by what others said; and what was sent to it.
//! - [`rooms`]: the laws. [`examples`]: small exchanges with all their values.
#![tactic(auto)]

pub mod examples;
pub mod rooms;
