//! A transport that reads nothing while its write waits.
ghost use Rattle.std.specs.Prelude.{◌≡◌, true, false};
ghost use Rattle.futures.specs.Task.{IsArmed, Keeps};
ghost use Rattle.futures.specs.Poll.{OnPending};
ghost use Rattle.net_sockets.specs.Gate.{gate_wiring, is_pending};
ghost use Rattle.http_transport.specs.Wiring.{ReadSays, WriteSays, FlushSays, ShutSays};

use futures::task::{Context, Poll, Source, Waker};
use http_config::Failed;
use http_transport::Transport;
use std::marker::Model;
use std::net::SocketAddr;

/// A transport over another one that reads nothing while its write waits: so a peer that doesn't read what it is sent can't
/// make us hold more of what it sends.
///
/// From a pending write on, each read is pending, and asks the other transport for nothing. The task is woken once a write is
/// answered.
///
/// A clause sees it as the record of the other transport, whether its write waits, and how often its reads were pending.
#[derive(Drop)]
pub struct Gated<W> {
    transport: W,
    waits: bool,
    reads: u64,
    taken: Source,
    // A waker wakes its task when it is dropped.
    reader: Option<Waker>,
}

impl<W> Model for Gated<W> {
    ghost use Rattle.net_sockets.specs.Gate.{Gate};

    ghost Value = { Gate W };

    ghost view = { λ g. record { transport = g.transport; waits = g.waits; reads = g.reads } };
}

impl<W> Gated<W> {
    /// A transport over this one, whose write doesn't wait.
    pub fn new(transport: W) -> Gated<W>
        ensures { result ≡ record { transport = transport; waits = false; reads = 0 } }
    {
        Gated {
            transport,
            waits: false,
            reads: 0,
            taken: Source::new(),
            reader: None,
        }
    }

    /// The transport below.
    pub fn transport(&self) -> &W
        ensures { result.now ≡ self.now.transport }
    {
        &self.transport
    }
}

impl<W: Transport> Transport for Gated<W> {
    ghost wiring = { gate_wiring W.wiring };

    ghost peer = { λ g. W.peer g.transport };

    fn peer_addr(&self) -> Option<SocketAddr> {
        self.transport.peer_addr()
    }

    fn poll_read(&mut self, buf: &mut [u8], cx: &mut Context<'_>) -> Poll<Result<usize, Failed>>
        ensures says { ReadSays (gate_wiring W.wiring self.old) (gate_wiring W.wiring self.new) result buf.new }
        ensures held { self.old.waits ≡ true → (result ≡ Poll.Pending) × (self.new.transport ≡ self.old.transport) }
        ensures stays { self.new.waits ≡ self.old.waits }
        ensures registered { OnPending result (IsArmed cx.new) }
        ensures kept { Keeps cx.old cx.new }
    {
        if self.waits {
            self.reads = self.reads.saturating_add(1);
            return cx.register(&self.taken, &mut self.reader);
        }
        match self.transport.poll_read(buf, cx) {
            Poll::Pending => {
                self.reads = self.reads.saturating_add(1);
                Poll::Pending
            }
            Poll::Ready(answer) => Poll::Ready(answer),
        }
    }

    fn poll_write(&mut self, bytes: &[u8], cx: &mut Context<'_>) -> Poll<Result<usize, Failed>>
        ensures says { WriteSays (gate_wiring W.wiring self.old) (gate_wiring W.wiring self.new) result bytes.now }
        ensures waits { self.new.waits ≡ is_pending result }
        ensures registered { OnPending result (IsArmed cx.new) }
        ensures kept { Keeps cx.old cx.new }
    {
        match self.transport.poll_write(bytes, cx) {
            Poll::Pending => {
                self.waits = true;
                Poll::Pending
            }
            Poll::Ready(answer) => {
                self.waits = false;
                self.reader = None;
                Poll::Ready(answer)
            }
        }
    }

    fn poll_flush(&mut self, cx: &mut Context<'_>) -> Poll<Result<(), Failed>>
        ensures says { FlushSays (gate_wiring W.wiring self.old) (gate_wiring W.wiring self.new) result }
        ensures stays { self.new.waits ≡ self.old.waits }
        ensures registered { OnPending result (IsArmed cx.new) }
        ensures kept { Keeps cx.old cx.new }
    {
        self.transport.poll_flush(cx)
    }

    fn poll_shutdown(&mut self, cx: &mut Context<'_>) -> Poll<Result<(), Failed>>
        ensures says { ShutSays (gate_wiring W.wiring self.old) (gate_wiring W.wiring self.new) result }
        ensures stays { self.new.waits ≡ self.old.waits }
        ensures registered { OnPending result (IsArmed cx.new) }
        ensures kept { Keeps cx.old cx.new }
    {
        self.transport.poll_shutdown(cx)
    }
}
