//! Chat rooms over WebSocket, without input or output. Each connection that is accepted joins the room that its request names,
//! and hears what others say there. For a program that owns the sockets, as `app_chat` does.
//!
//! - [`Hub`] has all connections. What comes to one is fed to it, and a turn lets it go on by one event; [`drive_hub`] brings
//!   a list of both to a new hub.
//! - [`Seat`] is one connection of a hub, a [`Connection`] with its turns: it asks for the next request, accepts it as a
//!   WebSocket or answers it, takes the next frame, or sends the message that waits first.
//! - [`Rooms`] is the table of members: the room of each, its unfinished message, and the frames that wait for it, each a
//!   [`QueuedFrame`]. A frame for many members is kept once.
//!
//! # Contract
//!
//! `model_rooms` says what a turn does and what each member hears. [`laws`] says what members are promised over every run of a
//! hub.
#![tactic(auto)]

mod driver;
mod event;
mod hub;
mod kept;
pub mod laws;
mod moves;
mod queued_frame;
mod rooms;
mod row;
mod seat;

pub use driver::{HubError, HubStep, HubTrace, drive_hub};
pub use event::{HubEvent, HubOutcome};
pub use h1_connection::{
    Connection, Event, HandshakeError, Outcome, Sent, ServiceConfig, ServiceConfigBuilder,
};
pub use hub::{Hub, is_fed};
pub use queued_frame::QueuedFrame;
pub use rooms::Rooms;
pub use seat::{HubTurn, Seat};
pub use ws_frames::{Frame, Message, NoMemory};
