//! What is still dropped of what a peer sends after its last answer.
ghost use Rattle.std.specs.Prelude.{◌≡◌, ◌⊎◌};
ghost use Rattle.futures.specs.Poll.{OnPending};
ghost use Rattle.futures.specs.Task.{Covers, Keeps};
ghost use Rattle.tokio.specs.Net.{stream_readable};
ghost use Rattle.tokio.specs.Timers.{sleep_source};

use futures::task::{Context, Poll};
use net_sockets::Linger;
use std::io;
use std::time::{self, Duration};
use tokio::io::AsyncRead;
use tokio::net::TcpStream;
use tokio::time::{Handle, Sleep};

/// Until when, and how many bytes.
#[derive(Drop)]
pub struct Drain {
    until: Sleep,
    bytes: usize,
}

impl Drain {
    /// For as long, and for as many bytes.
    pub fn new<R: time::Clock>(rt: &R, timers: &Handle, linger: Linger) -> io::Result<Drain> {
        Ok(Drain {
            until: timers.sleep(rt, Duration::from_millis(linger.milliseconds))?,
            bytes: linger.bytes,
        })
    }

    /// Reads and drops a piece of what is there, and asks for another poll. It is ready once the time is up, the peer has
    /// ended, the connection is lost, or as many bytes came. It waits for the socket and for the time.
    pub fn poll(&mut self, stream: &mut TcpStream, cx: &mut Context<'_>) -> Poll<()>
        ensures registered { OnPending result (Covers cx.new (λ s. (s ≡ sleep_source self.new.until) ⊎ (s ≡ stream_readable stream.new))) }
        ensures kept { Keeps cx.old cx.new }
    {
        if self.until.poll_elapsed(cx).is_ready() {
            return Poll::Ready(());
        }
        let mut rest = [0_u8; 4096];
        match stream.poll_read(cx, &mut rest) {
            Poll::Pending => Poll::Pending,
            Poll::Ready(Ok(0)) | Poll::Ready(Err(_)) => Poll::Ready(()),
            Poll::Ready(Ok(count)) => {
                self.bytes = self.bytes.saturating_sub(count);
                if self.bytes == 0 {
                    return Poll::Ready(());
                }
                cx.yield_now()
            }
        }
    }
}
