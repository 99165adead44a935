//! The side of a server.
mod ahead;
mod calls;
