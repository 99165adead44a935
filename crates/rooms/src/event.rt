//! What happens to a hub, and what it answers.

use h1_connection::{Boxed, Event, Outcome};

/// What happens to a hub.
#[derive(Debug, Drop)]
pub enum HubEvent {
    /// A connection is opened.
    Open,

    /// An event comes to the connection with this number from outside: bytes that were read, the input's end, bytes that
    /// are fetched for writing, a moment, or a drain.
    Feed(usize, Event),

    /// The connection with this number has a turn.
    Turn(usize),
}

/// What a hub answers to an event.
#[derive(Debug, Drop)]
pub enum HubOutcome {
    /// The number of the connection that was opened, from 0 on.
    Opened(usize),

    /// The event that the connection had, and what it answered.
    Core(Event, Boxed<Outcome>),
}
