//! A transport in memory whose shutdown takes its time.
use futures::task::{Context, Poll};
use http_config::Failed;
use http_transport::{MemTransport, Transport};
use std::net::SocketAddr;

/// A transport in memory. Its shutdown is pending so many times, and then that of the transport below.
#[derive(Drop)]
pub struct Lingering {
    transport: MemTransport,
    left: u64,
    waits: u64,
    shut: bool,
}

impl Lingering {
    /// This transport, with so many shutdowns that are pending.
    pub fn new(transport: MemTransport, left: u64) -> Lingering {
        Lingering {
            transport,
            left,
            waits: 0,
            shut: false,
        }
    }

    /// What was sent.
    pub fn sent(&self) -> &[u8] {
        self.transport.sent()
    }

    /// Whether it was shut down.
    pub fn is_shut(&self) -> bool {
        self.shut
    }
}

impl Transport for Lingering {
    ghost use Rattle.std.specs.Prelude.{None};
    ghost use Rattle.http_transport.specs.MemTold.{known};

    ghost wiring = { λ w. record (known w.transport) { shut_waits = w.waits } };

    ghost peer = { λ _. None };

    fn peer_addr(&self) -> Option<SocketAddr> {
        None
    }

    fn poll_read(&mut self, buf: &mut [u8], cx: &mut Context<'_>) -> Poll<Result<usize, Failed>> {
        self.transport.poll_read(buf, cx)
    }

    fn poll_write(&mut self, bytes: &[u8], cx: &mut Context<'_>) -> Poll<Result<usize, Failed>> {
        self.transport.poll_write(bytes, cx)
    }

    fn poll_flush(&mut self, cx: &mut Context<'_>) -> Poll<Result<(), Failed>> {
        self.transport.poll_flush(cx)
    }

    fn poll_shutdown(&mut self, cx: &mut Context<'_>) -> Poll<Result<(), Failed>> {
        if self.left > 0 {
            self.left -= 1;
            self.waits = self.waits.saturating_add(1);
            return cx.yield_now();
        }
        match self.transport.poll_shutdown(cx) {
            Poll::Ready(Ok(())) => {
                self.shut = true;
                Poll::Ready(Ok(()))
            }
            Poll::Ready(Err(error)) => Poll::Ready(Err(error)),
            Poll::Pending => {
                self.waits = self.waits.saturating_add(1);
                Poll::Pending
            }
        }
    }
}
