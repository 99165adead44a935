// The passes of connections that were served, and of those that didn't come.
ghost use Rattle.std.specs.Prelude.{◌≡◌, ◌≤◌, ◌+◌, ◌++◌, List, [], vec_len};
ghost use Rattle.std.specs.List.{AllByRecursion};
ghost use Rattle.std.specs.Vec.{vec_capacity};
ghost use Rattle.board.specs.Views.{Held, entries_held};
ghost use Rattle.board_server.specs.Visits.{WasServed, Matches, AreMatched};

use crate::Served;
use crate::accept::{Fresh, Serving};
use crate::visit::Visit;
use board::Pass;
use h1_traced::Recorder;
use http_transport::{Clock, Transport};
use std::sync::ledger::Ledger;

/// What is told of a connection that was served, and its pass.
fn visit_of<W: Transport, K: Clock, L: Recorder, M: Ledger>(
    serving: &Serving<K>,
    one: Served<W, L, M>,
) -> (Visit<W, L>, Pass<M>)
    requires { WasServed serving.now.config serving.now.polls (K.may_give serving.now.clock) (W.wiring one.transport) (L.noted one.recorder) one.pass.pass one.end }
    ensures { Matches serving.now.config serving.now.polls (K.may_give serving.now.clock) W.wiring L.noted result.0 result.1 }
{
    let Served {
        pass,
        transport,
        recorder,
        end,
    } = one;
    let pass = pass.into_pass();
    let visit = Visit {
        number: pass.number(),
        calls: pass.entries().len() as u64,
        transport,
        recorder,
        end,
    };
    (visit, pass)
}

/// A visit for each connection that was served, and its pass beside it.
pub(crate) fn visits_of<W: Transport, K: Clock, L: Recorder, M: Ledger>(
    serving: &Serving<K>,
    served: Vec<Served<W, L, M>>,
    visits: Vec<Visit<W, L>>,
    back: Vec<Pass<M>>,
) -> (Vec<Visit<W, L>>, Vec<Pass<M>>)
    requires served { AllByRecursion (λ s. WasServed serving.now.config serving.now.polls (K.may_give serving.now.clock) (W.wiring s.transport) (L.noted s.recorder) s.pass.pass s.end) served.items }
    requires matched { AreMatched serving.now.config serving.now.polls (K.may_give serving.now.clock) W.wiring L.noted visits.items back.items }
    requires room_for_visits { vec_len served + vec_len visits ≤ vec_capacity visits }
    requires room_for_passes { vec_len served + vec_len back ≤ vec_capacity back }
    ensures matched { AreMatched serving.now.config serving.now.polls (K.may_give serving.now.clock) W.wiring L.noted result.0.items result.1.items }
    ensures visits { vec_len result.0 ≡ vec_len served + vec_len visits }
    ensures passes { vec_len result.1 ≡ vec_len served + vec_len back }
    ensures room { vec_capacity result.1 ≡ vec_capacity back }
{
    let mut served = served;
    let mut visits = visits;
    let mut back = back;
    while let Some(one) = served.pop() {
        let (visit, pass) = visit_of(serving, one);
        visits.push_reserved(visit);
        back.push_reserved(pass);
    }
    (visits, back)
}

/// Adds the passes of connections that didn't come.
pub(crate) fn add_spare<M: Ledger>(spare: Vec<Fresh<M>>, back: Vec<Pass<M>>) -> Vec<Pass<M>>
    requires room { vec_len spare + vec_len back ≤ vec_capacity back }
    ensures rest { (rest : List Held) × (result.items ≡ back.items ++ rest) × (entries_held rest ≡ 0) }
    ensures passes { vec_len result ≡ vec_len spare + vec_len back }
{
    let mut spare = spare;
    let mut back = back;
    while let Some(fresh) = spare.pop() {
        back.push_reserved(fresh.into_pass());
    }
    back
}
