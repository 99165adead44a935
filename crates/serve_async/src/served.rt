//! A service over a transport as a job.
ghost use Rattle.std.specs.Prelude.{None, false};
ghost use Rattle.h1_dispatcher.specs.View.{view_of, parts_of, MayBePolled};
ghost use Rattle.serve_async.specs.Jobs.{IsNew, Polls, Drains, due_of};

use crate::job::Job;
use futures::task::{Context, Poll};
use h1_dispatcher::Dispatcher;
use h1_traced::NoRecord;
use http_bodies::MessageBody;
use http_services::Service;
use http_services::h1::Payload;
use http_transport::Transport;
use http_types::{DispatchError, Request, Response};

/// A service over a transport, by one connection of HTTP/1, as a job.
#[derive(Drop)]
pub struct Served<T, S, C, B> {
    pub(crate) dispatcher: Dispatcher<T, S, C, NoRecord, B>,
}

impl<T, S, B> Job for Served<T, S, S::Call, B>
where
    T: Transport,
    S: Service<Request<(), ()>, Response = Response<B>, Error = Response<B>, Lent = Payload>,
    B: MessageBody,
{
    type Output = Result<(), DispatchError>;

    ghost begun = { IsNew (λ j. view_of T.wiring S.served S.calling B.gives (λ _. None) (λ _. false) j.dispatcher) (λ j. T.peer (parts_of j.dispatcher).0) };

    ghost can_poll = { λ j. MayBePolled S.calling j.dispatcher };

    ghost polled = { Polls (λ j. view_of T.wiring S.served S.calling B.gives (λ _. None) (λ _. false) j.dispatcher) };

    ghost drained = { Drains (λ j. view_of T.wiring S.served S.calling B.gives (λ _. None) (λ _. false) j.dispatcher) };

    ghost due = { λ j. due_of (view_of T.wiring S.served S.calling B.gives (λ _. None) (λ _. false) j.dispatcher) };

    #[tactic(auto, using(crate::proofs::Waiting::names_none))]
    fn poll(&mut self, moment: u64, cx: &mut Context<'_>) -> Poll<Result<(), DispatchError>> {
        self.dispatcher.poll(moment, cx)
    }

    fn deadline(&self) -> Option<u64> {
        self.dispatcher.deadline()
    }

    fn drain(&mut self) {
        self.dispatcher.drain();
    }
}
