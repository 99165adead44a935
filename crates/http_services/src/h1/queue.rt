//! The parts of the queue.
ghost use Rattle.std.specs.Prelude.{◌≡◌, ◌<◌, ◌+◌, true};
ghost use Rattle.http_services.specs.Queue.{waiting};

use bytes::Bytes;
use futures::task::{Source, Waker};
use http_types::{HeaderMap, PayloadError};
use std::collections::VecDeque;
use std::marker::Model;

/// The queue of a request's body. It is lent to its two sides in turn: the receiver has the queue itself, the feeder a
/// [`PayloadSender`](crate::PayloadSender) of it.
#[derive(Drop)]
pub struct Payload {
    pub(super) chunks: VecDeque<Bytes>,
    // The bytes of the chunks, in sum.
    pub(super) bytes: u64,
    pub(super) error: Option<PayloadError>,
    pub(super) ended: bool,
    pub(super) trailers: Option<HeaderMap>,
    // Whether an error was ever fed.
    pub(super) failed: bool,
    pub(super) dropped: bool,
    // Whether the queue wants more.
    pub(super) wish: bool,
    pub(super) put_back: u64,
    // A waker wakes its task when it is dropped.
    pub(super) received: Source,
    pub(super) receiver: Option<Waker>,
    pub(super) fed: Source,
    pub(super) feeder: Option<Waker>,
    ghost counted: { bytes ≡ waiting chunks.items },
    ghost low: { wish ≡ true → waiting chunks.items < 32768 + put_back },
}

impl Model for Payload {
    ghost use Rattle.http_services.specs.Queue.{Queue};
    ghost use Rattle.std.specs.Prelude.{is_some};

    ghost Value = { Queue };

    ghost view = { λ p. record {
      chunks = p.chunks.items;
      error = p.error;
      ended = p.ended;
      trailers = p.trailers;
      failed = p.failed;
      dropped = p.dropped;
      wish = p.wish;
      put_back = p.put_back;
      receiver = is_some p.receiver;
      feeder = is_some p.feeder;
    } };
}
