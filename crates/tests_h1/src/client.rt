//! The side of a client.
mod heads;
mod requests;
