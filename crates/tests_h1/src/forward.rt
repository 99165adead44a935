//! Heads that a forwarder passes on.
mod answers;
mod requests;
