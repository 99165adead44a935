//! How many connections are served, and what their peers are allowed.
use net_sockets::Linger;

/// What a server allows its peers, beyond the times of `ServiceConfig`. Times are in milliseconds.
#[derive(Clone, Copy, Debug, PartialEq, Eq)]
pub struct Limits {
    /// The most connections at once, of each thread; further ones wait in the listener's queue.
    pub connections: usize,

    /// For how long no byte moves on a connection, while no time of its config runs, before it is given up.
    pub idle: u64,

    /// For how long bytes are counted, while no time of its config runs, before it is looked at how many have moved.
    pub stall: u64,

    /// Where some bytes have moved by then, and fewer than these, the connection is given up. With 0 or 1 none is.
    pub least: u64,

    /// How long, and for how many bytes, a socket is read from after its last answer.
    pub linger: Linger,

    /// How long connections may go on once no more are let in. Those that are left then are dropped.
    pub end: u64,
}

impl Default for Limits {
    /// 10,000 connections, a minute without a byte, no least number of bytes in half a minute, 2 seconds and 64 KiB after
    /// the last answer, and 10 seconds at the end.
    fn default() -> Limits {
        Limits {
            connections: 10_000,
            idle: 60_000,
            stall: 30_000,
            least: 1,
            linger: Linger {
                milliseconds: 2000,
                bytes: 65_536,
            },
            end: 10_000,
        }
    }
}
