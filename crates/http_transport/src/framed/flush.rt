//! What is buffered is sent.
ghost use Rattle.std.specs.Prelude.{◌≡◌};
ghost use Rattle.futures.specs.Task.{IsArmed, Keeps};
ghost use Rattle.futures.specs.Poll.{OnPending};
ghost use Rattle.http_transport.specs.Flushes.{Flushes};

use crate::Transport;
use bytes::BytesMut;
use futures::task::{Context, Poll};
use http_config::Failed;

/// Gives the transport what is buffered, by at most 64 writes.
pub(crate) fn flush<T: Transport>(
    io: &mut T,
    unsent: &mut BytesMut,
    cx: &mut Context<'_>,
) -> Poll<Result<(), Failed>>
    ensures says { Flushes (T.wiring io.old) (T.wiring io.new) cx.new.is_woken unsent.old.items unsent.new.items result }
    ensures registered { OnPending result (IsArmed cx.new) }
    ensures kept { Keeps cx.old cx.new }
{
    for turn in 0..64_u32 {
        if unsent.is_empty() {
            unsent.clear();
            return io.poll_flush(cx);
        }
        match io.poll_write(unsent.as_slice(), cx) {
            Poll::Pending => return Poll::Pending,
            Poll::Ready(Err(error)) => return Poll::Ready(Err(error)),
            Poll::Ready(Ok(count)) => unsent.advance(count),
        }
    }
    cx.yield_now()
}
