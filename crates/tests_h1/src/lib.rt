//! Tests of the two sides of a connection and of what stands on them, through what these crates make public: a
//! connection's calls (`h1_connection`), the codecs for a framed transport and an answer that is sent (`h1_codec`,
//! `h1_codec`, `h1_codec`), a client's requests and what answers to HEAD mean (`h1_encoder`, `h1_client`), heads
//! that a forwarder passes on (`proxy_heads`), a body's decoder and its copy (`h1_payload`), scripts (`h1_replay`), and
//! sessions of WebSocket (`ws_session`).
//!
//! A contract holds for every call, so nothing that a clause says is tested again. A test stands here for what no clause
//! can say and what needs code: the callers that the crates' pages show, texts that were written by hand, faults in
//! mid-stream, and that a call which may run out of memory has it where there is some. What has an input and an expected
//! answer is a vector.
#![tactic(auto)]

#[cfg(test)]
mod client;
#[cfg(test)]
mod connection;
#[cfg(test)]
mod forward;
#[cfg(test)]
mod framed;
#[cfg(test)]
mod payload;
#[cfg(test)]
mod replay;
#[cfg(test)]
mod session;
