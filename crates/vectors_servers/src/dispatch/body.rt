//! The bodies of answers.
use bytes::Bytes;
use futures::task::{Context, Poll};
use http_bodies::{BodyFault, BodyStream, Counted, EitherBody, PlainStream, SizedStream};

/// The number of the fault with which a body fails.
const NUMBER: u32 = 7;

/// Gives its pieces one after another, and then ends or fails. Where none stands it is pending once, and wakes the task.
#[derive(Drop)]
pub struct Script {
    pieces: Vec<Option<Bytes>>,
    next: usize,
    breaks: bool,
}

impl Script {
    /// A script of these pieces, which fails after them if it breaks.
    pub fn new(pieces: Vec<Option<Bytes>>, breaks: bool) -> Script {
        Script {
            pieces,
            next: 0,
            breaks,
        }
    }
}

impl PlainStream for Script {
    fn poll_next(&mut self, cx: &mut Context<'_>) -> Poll<Option<Result<Bytes, BodyFault>>> {
        let Some(piece) = self.pieces.get(self.next) else {
            return Poll::Ready(end(self.breaks));
        };
        let Some(piece) = piece else {
            self.next = self.next.saturating_add(1);
            return cx.yield_now();
        };
        match piece.clone() {
            Ok(piece) => {
                self.next = self.next.saturating_add(1);
                Poll::Ready(Some(Ok(piece)))
            }
            Err(_) => Poll::Ready(Some(Err(BodyFault::NoMemory))),
        }
    }
}

// What comes after the pieces.
fn end(breaks: bool) -> Option<Result<Bytes, BodyFault>> {
    if breaks {
        return Some(Err(BodyFault::Body(NUMBER)));
    }
    None
}

/// A body that states its size, or one that doesn't.
pub type Page = EitherBody<SizedStream<Counted<Script>>, BodyStream<Counted<Script>>>;

/// A body of this script that states this size, or none.
pub fn page(size: Option<u64>, script: Script) -> Page {
    match size {
        Some(size) => EitherBody::left(SizedStream::new(size, Counted::new(script))),
        None => EitherBody::right(BodyStream::new(Counted::new(script))),
    }
}
