//! Where the bytes of a connection come from and go to.
ghost use Rattle.std.specs.Prelude.{◌≡◌};
ghost use Rattle.futures.specs.Task.{IsArmed, Keeps};
ghost use Rattle.futures.specs.Poll.{OnPending};
ghost use Rattle.http_transport.specs.Peer.{PeerAddress};
ghost use Rattle.http_transport.specs.Wiring.{Wiring, ReadSays, WriteSays, FlushSays, ShutSays};

use futures::task::{Context, Poll};
use http_config::Failed;
use std::net::SocketAddr;

/// A stream of bytes in both directions. A call that finds it not ready is pending, and wakes the task once it is worth
/// another try.
///
/// It passes on by itself what it took: `poll_flush` only answers that it has.
pub trait Transport: Drop {
    /// The bytes that it received and sent, if they are known, that its input ended, that it was shut down, how often it
    /// failed, and how often each call was pending.
    ghost wiring: { Self → Wiring };

    /// Who is on the other side, if that is known.
    ghost peer: { Self → PeerAddress };

    /// Who is on the other side, where that is known: the address that came with the connection when it was accepted.
    fn peer_addr(&self) -> Option<SocketAddr>
        ensures { result ≡ peer self.now };

    /// Moves the next bytes to the front of `buf`, and answers how many. What `buf` holds behind them is open. For a
    /// `buf` that isn't empty, 0 is the end of the input.
    fn poll_read(&mut self, buf: &mut [u8], cx: &mut Context<'_>) -> Poll<Result<usize, Failed>>
        ensures says { ReadSays (wiring self.old) (wiring self.new) result buf.new }
        ensures registered { OnPending result (IsArmed cx.new) }
        ensures kept { Keeps cx.old cx.new };

    /// Takes bytes from the front of `bytes`, and answers how many: at least one, where there are some.
    fn poll_write(&mut self, bytes: &[u8], cx: &mut Context<'_>) -> Poll<Result<usize, Failed>>
        ensures says { WriteSays (wiring self.old) (wiring self.new) result bytes.now }
        ensures registered { OnPending result (IsArmed cx.new) }
        ensures kept { Keeps cx.old cx.new };

    /// Answers once all that it took is passed on.
    fn poll_flush(&mut self, cx: &mut Context<'_>) -> Poll<Result<(), Failed>>
        ensures says { FlushSays (wiring self.old) (wiring self.new) result }
        ensures registered { OnPending result (IsArmed cx.new) }
        ensures kept { Keeps cx.old cx.new };

    /// Answers once its output is shut down.
    fn poll_shutdown(&mut self, cx: &mut Context<'_>) -> Poll<Result<(), Failed>>
        ensures says { ShutSays (wiring self.old) (wiring self.new) result }
        ensures registered { OnPending result (IsArmed cx.new) }
        ensures kept { Keeps cx.old cx.new };
}
