//! The board as a service.
ghost use Rattle.std.specs.Prelude.{◌≡◌, [], None, nat_lt};
ghost use Rattle.futures.specs.Poll.{OnPending};
ghost use Rattle.futures.specs.Task.{IsArmed, Keeps};
ghost use Rattle.http_services.specs.Serving.{ReadySays, CallSays, BeginSays, AnswerSays, PollSays, unknown_call};
ghost use Rattle.http_types.specs.Response.{FullResponse};
ghost use Rattle.board.specs.Answers.{Asking};
ghost use Rattle.board.specs.Work.{begun_work, serving_of, IsKept};

use crate::answer::Desk;
use crate::gate::Gate;
use crate::work::Work;
use crate::{Carried, Pass, Shared};
use futures::task::{Context, Poll};
use http_services::h1::Payload;
use http_services::{Lending, Service};
use http_types::{Request, Response};
use std::alloc::Global;
use std::marker::PhantomData;
use std::sync::Wait;
use std::sync::ledger::Ledger;

/// Answers each request of one connection by one call of the board at most, with the connection's own pass. Where memory
/// runs out it keeps that in mind, and its answers are pending from then on.
///
/// `B` is what a call is lent, of which it reads nothing.
#[derive(Drop)]
pub struct BoardService<'a, R: Wait, G: Gate, M: Ledger, B = Payload> {
    desk: Desk<'a, R, G, M>,
    work: Work<M>,
    lent: PhantomData<B>,
}

impl<'a, R: Wait, G: Gate, M: Ledger, B> BoardService<'a, R, G, M, B> {
    /// A service with this pass, to which nothing has come. The gate is told this number of its connection.
    pub fn new(
        rt: &'a R,
        alloc: Global,
        shared: &'a Shared<M>,
        gate: &'a G,
        conn: usize,
        pass: Pass<M>,
    ) -> BoardService<'a, R, G, M, B>
        requires is_new { pass.entries ≡ [] }
        ensures { result.work ≡ begun_work pass.number }
    {
        BoardService {
            desk: Desk {
                rt,
                alloc,
                shared,
                gate,
                conn,
            },
            work: Work::new(pass),
            lent: PhantomData,
        }
    }

    /// Whether a request wasn't answered, as memory ran out.
    pub fn is_stuck(&self) -> bool
        ensures { result ≡ nat_lt 0 self.now.work.waits }
    {
        self.work.is_stuck()
    }

    /// The pass, with what was asked and answered by it. It has the number of the one that was given: no call changes that.
    pub fn into_pass(self) -> Carried<M>
        ensures pass { result.pass ≡ self.entry.work.pass }
        ensures kept { IsKept self.entry.work }
    {
        self.work.into_pass()
    }
}

impl<'a, R: Wait, G: Gate, M: Ledger, B: Lending> Service<Request<(), ()>>
    for BoardService<'a, R, G, M, B> {
    type Response = Response<()>;

    type Error = Response<()>;

    type Call = ();

    type Lent = B;

    ghost served = { λ s. serving_of s.work };

    ghost echoes = { None };

    ghost calling = { λ _. unknown_call };

    fn poll_ready(&mut self, _cx: &mut Context<'_>) -> Poll<Result<(), Response<()>>>
        ensures says { ReadySays (serving_of self.old.work) (serving_of self.new.work) result }
        ensures work { self.new.work ≡ self.old.work }
        ensures registered { OnPending result (IsArmed _cx.new) }
        ensures kept { Keeps _cx.old _cx.new }
    {
        Poll::Ready(Ok(()))
    }

    fn call(&mut self, request: Request<(), ()>)
        ensures says { CallSays (serving_of self.old.work) (serving_of self.new.work) request }
        ensures begins { BeginSays {A = FullResponse Unit} None request unknown_call }
        ensures number { self.new.work.pass.number ≡ self.old.work.pass.number }
    {
        self.work.begin(request);
    }

    fn poll_call(
        &mut self,
        _call: &mut (),
        _lent: &mut B,
        cx: &mut Context<'_>,
    ) -> Poll<Result<Response<()>, Response<()>>>
        ensures says { AnswerSays (serving_of self.old.work) (serving_of self.new.work) result }
        ensures polls { PollSays {Q = Asking} None unknown_call unknown_call (B.lent _lent.old) (B.lent _lent.new) result }
        ensures number { self.new.work.pass.number ≡ self.old.work.pass.number }
        ensures registered { OnPending result (IsArmed cx.new) }
        ensures kept { Keeps cx.old cx.new }
    {
        match self.work.respond(&self.desk) {
            Some(response) => Poll::Ready(Ok(response)),
            None => cx.yield_now(),
        }
    }
}
