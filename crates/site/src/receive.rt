//! A request's body, as far as it came.
ghost use Rattle.futures.specs.Poll.{OnPending};
ghost use Rattle.futures.specs.Task.{IsArmed, Keeps};
ghost use Rattle.http_services.specs.Lent.{LentBound, lent_of};

use futures::task::{Context, Poll};
use http_services::h1::Payload;
use http_types::NoMemory;

/// The most bytes of a body that are taken.
const MOST: usize = 65_536;

/// How a body is received.
pub enum Received {
    /// More of it may come.
    More,

    /// It is whole.
    Whole,

    /// It isn't taken.
    Refused(Refusal),
}

/// Why a body isn't taken.
#[derive(Clone, Copy, Debug, PartialEq, Eq)]
pub enum Refusal {
    /// It breaks a rule, or the input ended inside it.
    Broken,

    /// It is larger than what is taken.
    TooLarge,

    /// There is no memory for it.
    NoMemory,
}

/// Takes the next piece of a body, and puts it behind what came before. A pending one has its task woken once more is there.
pub fn receive(came: &mut Vec<u8>, lent: &mut Payload, cx: &mut Context<'_>) -> Poll<Received>
    ensures bound { LentBound (lent_of lent.old) (lent_of lent.new) }
    ensures registered { OnPending result (IsArmed cx.new) }
    ensures kept { Keeps cx.old cx.new }
{
    match lent.poll_next(cx) {
        Poll::Pending => Poll::Pending,
        Poll::Ready(None) => Poll::Ready(Received::Whole),
        Poll::Ready(Some(Err(_))) => Poll::Ready(Received::Refused(Refusal::Broken)),
        Poll::Ready(Some(Ok(piece))) => Poll::Ready(keep(came, piece.as_slice())),
    }
}

// Keeps a piece with those before it.
fn keep(came: &mut Vec<u8>, piece: &[u8]) -> Received {
    if came.len().saturating_add(piece.len()) > MOST {
        return Received::Refused(Refusal::TooLarge);
    }
    match put(came, piece) {
        Ok(()) => Received::More,
        Err(_) => Received::Refused(Refusal::NoMemory),
    }
}

fn put(came: &mut Vec<u8>, piece: &[u8]) -> Result<(), NoMemory> {
    Ok(came.extend_from_slice(piece)?)
}
