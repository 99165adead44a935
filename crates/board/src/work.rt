// What one connection has asked of the board, and what it was answered.
ghost use Rattle.std.specs.Prelude.{◌≡◌, [], ◌∷◌, ◌++◌, None, Ok, false, true, is_some, nat_lt, option_to_list, option_map};
ghost use Rattle.board.specs.Work.{begun_work, IsKept, answered_of, WaitsBy};

use crate::answer::Desk;
use crate::gate::Gate;
use crate::{Carried, Pass};
use http_server::Log;
use http_types::{Request, Response};
use std::marker::Model;
use std::sync::Wait;
use std::sync::ledger::Ledger;

/// The pass of a connection, the request that waits for its answer, and, for proofs alone, all requests and answers.
///
/// A clause sees it as the record of these.
#[derive(Drop)]
pub struct Work<M: Ledger> {
    pass: Carried<M>,
    waiting: Option<Request<(), ()>>,

    // A request came while another one waited. Nothing is answered from then on.
    is_lost: bool,

    // Memory ran out. Nothing is answered from then on.
    is_broken: bool,

    // How often nothing was answered.
    waits: u64,
    calls: Log<Request<(), ()>, ()>,
    answers: Log<Request<(), ()>, Response<()>>,
}

impl<M: Ledger> Model for Work<M> {
    ghost use Rattle.std.specs.Prelude.{map};
    ghost use Rattle.board.specs.Work.{Worked, IsKept};

    ghost Value = { Worked };

    ghost view = { λ w. record {
      pass = w.pass.pass;
      waiting = w.waiting;
      is_lost = w.is_lost;
      is_broken = w.is_broken;
      waits = w.waits;
      calls = map (λ p. p.0) w.calls.items;
      answers = w.answers.items;
    } };

    ghost invariant = { λ w. IsKept (record { pass = w.pass.pass; waiting = w.waiting; is_lost = w.is_lost; is_broken = w.is_broken; waits = w.waits; calls = map (λ p. p.0) w.calls.items; answers = w.answers.items }) };
}

impl<M: Ledger> Work<M> {
    /// Nothing was asked with this pass.
    pub(crate) fn new(pass: Pass<M>) -> Work<M>
        requires is_new { pass.entries ≡ [] }
        ensures { result ≡ begun_work pass.number }
    {
        Work {
            pass: Carried::new(pass),
            waiting: None,
            is_lost: false,
            is_broken: false,
            waits: 0,
            calls: Log::new(),
            answers: Log::new(),
        }
    }

    /// Whether a request wasn't answered, as memory ran out.
    pub(crate) fn is_stuck(&self) -> bool
        ensures { result ≡ nat_lt 0 self.now.waits }
    {
        self.waits > 0
    }

    /// A request comes.
    pub(crate) fn begin(&mut self, request: Request<(), ()>)
        ensures calls { self.new.calls ≡ self.old.calls ++ request ∷ [] }
        ensures answers { self.new.answers ≡ self.old.answers }
        ensures waits { self.new.waits ≡ self.old.waits }
        ensures number { self.new.pass.number ≡ self.old.pass.number }
    {
        self.calls = self.calls.and(&request, &());
        if self.is_lost {
            return;
        }
        if self.waiting.is_some() {
            self.is_lost = true;
            return;
        }
        self.waiting = Some(request);
    }

    /// The answer to the request that waits. There is none where memory ran out, and then none comes any more.
    pub(crate) fn respond<R: Wait, G: Gate>(
        &mut self,
        desk: &Desk<'_, R, G, M>,
    ) -> Option<Response<()>>
        ensures calls { self.new.calls ≡ self.old.calls }
        ensures answers { answered_of self.new.answers ≡ answered_of self.old.answers ++ option_to_list (option_map Ok result) }
        ensures waits { WaitsBy self.old.waits self.new.waits result }
        ensures number { self.new.pass.number ≡ self.old.pass.number }
    {
        if self.is_lost {
            return self.wait();
        }
        if self.is_broken {
            return self.wait();
        }
        if self.waiting.is_none() {
            return self.wait();
        }
        self.answer(desk)
    }

    /// The answer to the request that waits.
    fn answer<R: Wait, G: Gate>(&mut self, desk: &Desk<'_, R, G, M>) -> Option<Response<()>>
        requires in_order { self.old.is_lost ≡ false }
        requires whole { self.old.is_broken ≡ false }
        requires waits { is_some self.old.waiting ≡ true }
        ensures calls { self.new.calls ≡ self.old.calls }
        ensures answers { answered_of self.new.answers ≡ answered_of self.old.answers ++ option_to_list (option_map Ok result) }
        ensures waits { WaitsBy self.old.waits self.new.waits result }
        ensures number { self.new.pass.number ≡ self.old.pass.number }
    {
        let Some(request) = self.waiting.take() else {
            unreachable!()
        };
        match desk.answer(&mut self.pass.pass, &request) {
            Ok(response) => {
                self.answers = self.answers.and(&request, &response);
                discard(request);
                Some(response)
            }
            Err(_) => {
                self.waits = self.waits.saturating_add(1);
                self.is_broken = true;
                discard_any(self.waiting.replace(request));
                None
            }
        }
    }

    /// Nothing is answered.
    #[tactic(auto, using(crate::proofs::Kept::kept_waits))]
    fn wait(&mut self) -> Option<Response<()>>
        ensures none { result ≡ None }
        ensures waits { WaitsBy self.old.waits self.new.waits result }
        ensures others { self.new ≡ record self.old { waits = self.new.waits } }
    {
        self.waits = self.waits.saturating_add(1);
        None
    }

    /// The pass.
    pub(crate) fn into_pass(self) -> Carried<M>
        ensures pass { result.pass ≡ self.pass }
        ensures kept { IsKept self }
    {
        let _ = &self.waits;
        self.pass
    }
}

/// Drops a request.
fn discard(_request: Request<(), ()>) {}

/// Drops a request, if there is one.
fn discard_any(_request: Option<Request<(), ()>>) {}
