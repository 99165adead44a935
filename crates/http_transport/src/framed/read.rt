//! Items are read.
ghost use Rattle.std.specs.Prelude.{◌≡◌, IfOk, IfSome};
ghost use Rattle.futures.specs.Task.{IsArmed, Keeps};
ghost use Rattle.futures.specs.Poll.{IfReady, OnPending};
ghost use Rattle.http_transport.specs.Items.{Reads, ItemSays};

use crate::{FramedError, Transport};
use bytes::BytesMut;
use futures::task::{Context, Poll};
use http_config::Failed;
use http_framing::Decoder;

/// The most bytes of one read.
const PIECE: usize = 4096;

/// The next item. Each of at most 64 turns decodes what is there, and reads a piece where that holds no item.
pub(crate) fn next_item<T: Transport, U: Decoder>(
    io: &mut T,
    codec: &mut U,
    unread: &mut BytesMut,
    cx: &mut Context<'_>,
) -> Poll<Option<Result<U::Item, FramedError<U::Error>>>>
    ensures says { ItemSays U.reads U.given U.nothing U.breaks U.lacks U.seen U.leaves (T.wiring io.old) (T.wiring io.new) cx.new.is_woken
        codec.old unread.old.items codec.new unread.new.items result }
    ensures holds { IfReady result (λ answer. IfSome answer (λ read. IfOk read U.holds)) }
    ensures beside { U.beside codec.new ≡ U.beside codec.old }
    ensures registered { OnPending result (IsArmed cx.new) }
    ensures kept { Keeps cx.old cx.new }
{
    for turn in 0..64_u32 {
        match codec.decode(unread) {
            Ok(Some(item)) => return Poll::Ready(Some(Ok(item))),
            Err(error) => return Poll::Ready(Some(Err(FramedError::Codec(error)))),
            Ok(None) => {}
        }
        match read_piece(io, unread, cx) {
            Poll::Pending => return Poll::Pending,
            Poll::Ready(Err(error)) => return Poll::Ready(Some(Err(error))),
            Poll::Ready(Ok(count)) => {
                if count == 0 {
                    return Poll::Ready(None);
                }
            }
        }
    }
    cx.yield_now()
}

/// Reads a piece behind what is unread, and answers its length. Where there is no room for it, nothing is read.
fn read_piece<T: Transport, E: Drop>(
    io: &mut T,
    unread: &mut BytesMut,
    cx: &mut Context<'_>,
) -> Poll<Result<usize, FramedError<E>>>
    ensures says { Reads (T.wiring io.old) (T.wiring io.new) unread.old.items unread.new.items result }
    ensures registered { OnPending result (IsArmed cx.new) }
    ensures kept { Keeps cx.old cx.new }
{
    if unread.reserve(PIECE).is_err() {
        return Poll::Ready(Err(FramedError::NoMemory));
    }
    let mut piece = [0_u8; PIECE];
    match io.poll_read(&mut piece, cx) {
        Poll::Pending => Poll::Pending,
        Poll::Ready(Err(Failed)) => Poll::Ready(Err(FramedError::Io)),
        Poll::Ready(Ok(count)) => {
            unread.extend_reserved(&piece[..count]);
            Poll::Ready(Ok(count))
        }
    }
}
