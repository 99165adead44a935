//! A dispatcher over any framed transport.
mod dispatcher;
mod poll;
mod queue;
mod serve_items;
mod turn;
mod write;

pub use dispatcher::Dispatcher;
pub use queue::{Message, Queue};
