//! What a server allows its peers, beyond the times of `ServiceConfig`.
use net_sockets::Linger;

/// What a server allows its peers, beyond the times of `ServiceConfig`.
#[derive(Clone, Copy, Debug, PartialEq, Eq)]
pub struct Limits {
    /// How many connections are served at once. A further one is answered with 503.
    pub connections: u64,

    /// For so many milliseconds a peer is waited for before it is looked at how many bytes have moved, where no time of the
    /// config runs. Of a handler's own time nothing counts.
    pub stall: u64,

    /// Where fewer bytes have moved by then, the connection is given up: bytes that were read, of a head or of a body, and
    /// in the same way bytes that were written. With 1 each byte is enough.
    pub least: u64,

    /// So many bytes of a body that isn't wanted are read and dropped, so that the connection is kept: of the body, and of
    /// the text that it comes in.
    pub drop: u64,

    /// How long, and for how many bytes, a socket is read from after its last answer.
    pub linger: Linger,

    /// How many milliseconds connections that are still open may take at the server's end.
    pub end: u64,

    /// Each head is judged once more before its handler is asked, by the rules of RFC 9110 and RFC 9112 that the
    /// connection doesn't know: a head that they refuse is answered with 400, and no handler sees it.
    pub judges_heads: bool,
}

impl Default for Limits {
    ghost use Rattle.serve_blocking.specs.Limits.{default_limits};
    ghost use Rattle.std.specs.Prelude.{◌≡◌};

    ghost is_default = { λ limits. limits ≡ default_limits };

    /// 10,000 connections, 1024 bytes in each 30 seconds, bodies of 64 KiB that are dropped, 2 seconds and 256 KiB after
    /// the last answer, 10 seconds at the end, and heads that are judged.
    fn default() -> Limits {
        Limits {
            connections: 10_000,
            stall: 30_000,
            least: 1024,
            drop: 65_536,
            linger: Linger {
                milliseconds: 2000,
                bytes: 262_144,
            },
            end: 10_000,
            judges_heads: true,
        }
    }
}
