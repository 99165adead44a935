//! A body that comes in pieces.
use bytes::Bytes;
use futures::task::{Context, Poll};
use http_bodies::{BodyFault, PlainStream};

/// How many lines there are.
const LINES: u32 = 3;

/// Lines, each a piece of its own: the next one is asked for once there is room for it.
#[derive(Drop)]
pub struct Lines {
    given: u32,
}

impl Lines {
    /// All lines.
    pub fn new() -> Lines {
        Lines { given: 0 }
    }
}

impl PlainStream for Lines {
    fn poll_next(&mut self, _cx: &mut Context<'_>) -> Poll<Option<Result<Bytes, BodyFault>>> {
        if self.given == LINES {
            return Poll::Ready(None);
        }
        self.given = self.given.saturating_add(1);
        Poll::Ready(Some(Ok(Bytes::from_static(b"line\n"))))
    }
}
