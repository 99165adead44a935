//! What a dispatcher keeps.
ghost use Rattle.std.specs.Prelude.{◌≡◌, [], OnOk, OnErr, length};
ghost use Rattle.ws_dispatcher.specs.Queued.{queued};
ghost use Rattle.ws_dispatcher.specs.View.{view_of, view_begun, with_queued, parts_of};
ghost use Rattle.ws_dispatcher.specs.Polls.{MayBePolled};

use super::queue::{Message, Queue};
use crate::error::DispatcherError;
use http_framing::Decoder;
use http_services::Service;
use http_transport::{Framed, Transport};
use std::alloc::{AllocError, Global};

/// Whether a dispatcher goes on.
#[derive(Drop)]
pub(crate) enum End<E> {
    /// It goes on.
    Open,

    /// A Close was taken.
    Closed,

    /// This error is reported once all is sent.
    Failed(E),
}

/// What a turn came to.
#[derive(Drop)]
pub(crate) enum Turn<E> {
    /// Another turn may do more.
    Counted,

    /// Nothing more can be done until the task is woken.
    Idle,

    /// The dispatcher ends.
    Over(Result<(), DispatcherError<E>>),
}

/// A service over a framed transport: items that are read go to it, one at a time, and its answers are written, in order,
/// beside what is queued.
///
/// The parameters are the service and its call, the transport, the codec and the items that it decodes, and what is written
/// and why a service fails.
#[derive(Drop)]
pub struct Dispatcher<S, C, T, U, Q, I, E> {
    pub(super) framed: Framed<T, U>,
    pub(super) service: S,
    pub(super) lent: (),
    pub(super) call: Option<C>,
    pub(super) waiting: Option<Q>,
    pub(super) queue: Queue<I, E>,
    pub(super) ended: bool,
    pub(super) end: End<E>,
    pub(super) flushing: bool,
}

impl<S, T, U, I> Dispatcher<S, S::Call, T, U, U::Item, I, S::Error>
where
    T: Transport,
    U: Decoder,
    S: Service<U::Item, Response = I, Lent = ()>,
    I: Drop,
{
    /// A dispatcher with an empty queue. It takes no memory.
    pub fn new(
        alloc: Global,
        framed: Framed<T, U>,
        service: S,
    ) -> Dispatcher<S, S::Call, T, U, U::Item, I, S::Error>
        ensures view { view_of T.wiring S.served result ≡ view_begun T.wiring framed (S.served service) [] }
        ensures open { MayBePolled S.calling result }
    {
        Dispatcher::with_rx(framed, service, Queue::new(alloc))
    }

    /// A dispatcher with this queue.
    pub fn with_rx(
        framed: Framed<T, U>,
        service: S,
        rx: Queue<I, S::Error>,
    ) -> Dispatcher<S, S::Call, T, U, U::Item, I, S::Error>
        ensures view { view_of T.wiring S.served result ≡ view_begun T.wiring framed (S.served service) (queued rx) }
        ensures open { MayBePolled S.calling result }
    {
        Dispatcher {
            framed,
            service,
            lent: (),
            call: None,
            waiting: None,
            queue: rx,
            ended: false,
            end: End::Open,
            flushing: false,
        }
    }

    /// Puts a message or an error at the end of what waits to be written. Out of memory, nothing changes.
    pub fn send(&mut self, item: Result<Message<I>, S::Error>) -> Result<(), AllocError>
        ensures ok { OnOk result (view_of T.wiring S.served self.new ≡ with_queued item (view_of T.wiring S.served self.old)) }
        ensures err { OnErr result (view_of T.wiring S.served self.new ≡ view_of T.wiring S.served self.old) }
        ensures open { MayBePolled S.calling self.old → MayBePolled S.calling self.new }
    {
        self.queue.send(item)
    }

    /// How many messages and errors wait to be written.
    pub fn queue_len(&self) -> usize
        ensures { result ≡ length (view_of T.wiring S.served self.now).queue }
    {
        self.queue.len()
    }

    /// The framed transport and the service. What is queued, and the call in progress, are dropped.
    pub fn into_parts(self) -> (Framed<T, U>, S)
        ensures { result ≡ parts_of self }
    {
        (self.framed, self.service)
    }
}
