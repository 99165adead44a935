//! All connections that an acceptor gives.
ghost use Rattle.std.specs.Prelude.{◌≡◌, ◌≤◌, ◌<◌, ◌+◌, [], vec_len, IfOk};
ghost use Rattle.std.specs.List.{AllByRecursion};
ghost use Rattle.std.specs.Vec.{vec_capacity};
ghost use Rattle.http_transport.specs.Opening.{Opening};
ghost use Rattle.board_server.specs.Visits.{WasServed, IsTaken};
ghost use Rattle.board_server.specs.Reports.{SaysRan};

use crate::accept::{Fresh, Serving, Taken, serve_all};
use crate::gather::{add_spare, visits_of};
use crate::visit::{Differing, Ran, Report, ServeFault, Visit};
use crate::{Gate, Recorders};
use board::{Board, Pass, Shared};
use h1_traced::Recorder;
use http_transport::{Acceptor, Clock, Transport};
use http_types::ServiceConfig;
use std::alloc::{AllocError, AllocGlobal, Global};
use std::random::RandomSource;
use std::sync::Wait;
use std::sync::ledger::{Blank, Ledger};
use std::thread::Threads;

/// Serves the connections that the acceptor gives, each on a thread of its own, over one new board: `most` of them, or fewer
/// where the acceptor gives no more. Where no thread can be made, a connection is served here. It returns once all are served.
///
/// # Errors
///
/// In `end`: `Acceptor` where the acceptor failed; `Unlike` where the journal isn't that of the passes; `NoMemory`.
pub fn serve<D, K, G, Q, M, R, W, L>(
    rt: &R,
    config: ServiceConfig,
    acceptor: D,
    clock: K,
    gate: &G,
    recorders: Q,
    most: usize,
    polls: u64,
    blank: Blank,
) -> Ran<D, Q, M>
where
    D: Acceptor<Conn = W>,
    W: Transport + Send,
    K: Clock + Copy + Send,
    G: Gate + Sync,
    Q: Recorders<Rec = L>,
    L: Recorder + Send,
    M: Ledger + Send + Sync,
    R: Threads + Wait + RandomSource + AllocGlobal + Sync,
    requires is_its_ledger { (blank.name ≡ M.name) × (blank.parts ≡ M.parts) }
    requires has_a_part_for_each_pass { M.parts ≡ 65536 }
    requires passes { most ≤ 65536 }
    requires some { 0 < polls }
    ensures { SaysRan config polls (K.may_give clock) W.wiring L.noted most (D.opening acceptor) (D.opening result.acceptor) result.end }
{
    serve_by(
        rt,
        usize::MAX,
        config,
        acceptor,
        clock,
        gate,
        recorders,
        most,
        polls,
        blank,
    )
}

/// Serves as [`serve`] does, and starts so many threads at most. A connection that comes after those is served here, as where
/// no thread can be made: no other is accepted meanwhile.
///
/// # Errors
///
/// In `end`: `Acceptor` where the acceptor failed; `Unlike` where the journal isn't that of the passes; `NoMemory`.
pub fn serve_by<D, K, G, Q, M, R, W, L>(
    rt: &R,
    threads: usize,
    config: ServiceConfig,
    acceptor: D,
    clock: K,
    gate: &G,
    recorders: Q,
    most: usize,
    polls: u64,
    blank: Blank,
) -> Ran<D, Q, M>
where
    D: Acceptor<Conn = W>,
    W: Transport + Send,
    K: Clock + Copy + Send,
    G: Gate + Sync,
    Q: Recorders<Rec = L>,
    L: Recorder + Send,
    M: Ledger + Send + Sync,
    R: Threads + Wait + RandomSource + AllocGlobal + Sync,
    requires is_its_ledger { (blank.name ≡ M.name) × (blank.parts ≡ M.parts) }
    requires has_a_part_for_each_pass { M.parts ≡ 65536 }
    requires passes { most ≤ 65536 }
    requires some { 0 < polls }
    ensures { SaysRan config polls (K.may_give clock) W.wiring L.noted most (D.opening acceptor) (D.opening result.acceptor) result.end }
{
    let alloc = rt.alloc();
    let serving = Serving {
        config,
        polls,
        clock,
    };
    let Ok((board, passes)) = board_for(alloc, most, blank) else {
        return Ran {
            acceptor,
            recorders,
            end: Err(ServeFault::NoMemory),
        };
    };
    let mut visits = Vec::new(alloc);
    let mut back: Vec<Pass<M>> = Vec::new(alloc);
    if visits.reserve(most).is_err() || back.reserve(most).is_err() {
        back.destroy_empty();
        return Ran {
            acceptor,
            recorders,
            end: Err(ServeFault::NoMemory),
        };
    }
    let shared = Shared::from_board(board);
    match serve_all(
        rt, threads, serving, &shared, gate, passes, acceptor, recorders,
    ) {
        Ok(taken) => finish(rt, serving, shared, taken, visits, back),
        Err((acceptor, recorders)) => {
            back.destroy_empty();
            Ran {
                acceptor,
                recorders,
                end: Err(ServeFault::NoMemory),
            }
        }
    }
}

/// A new board with so many passes, the first one last.
fn board_for<M: Ledger>(
    alloc: Global,
    most: usize,
    blank: Blank,
) -> Result<(Board<M>, Vec<Fresh<M>>), AllocError>
    requires is_its_ledger { (blank.name ≡ M.name) × (blank.parts ≡ M.parts) }
    requires has_a_part_for_each_pass { M.parts ≡ 65536 }
    requires passes { most ≤ 65536 }
    ensures board { IfOk result (λ r. r.0.passes ≡ record { made = most; next = most; retired = 0 }) }
    ensures passes { IfOk result (λ r. vec_len r.1 ≡ most) }
{
    let mut board = Board::<M>::new(alloc, blank);
    let mut passes = Vec::new(alloc);
    passes.reserve(most)?;
    for _ in 0..most {
        match board.pass() {
            Ok(pass) => passes.push_reserved(Fresh::new(pass)),
            Err(_) => return Err(AllocError),
        }
    }
    passes.as_mut_slice().reverse();
    Ok((board, passes))
}

/// Compares the board with the passes, and reports.
fn finish<D, K, Q, W, L, M, R>(
    rt: &R,
    serving: Serving<K>,
    shared: Shared<M>,
    taken: Taken<D, Q, M>,
    visits: Vec<Visit<W, L>>,
    back: Vec<Pass<M>>,
) -> Ran<D, Q, M>
where
    D: Acceptor<Conn = W>,
    K: Clock + Copy,
    Q: Recorders<Rec = L>,
    W: Transport + Send,
    L: Recorder + Send,
    M: Ledger,
    R: Wait,
    requires served { AllByRecursion (λ s. WasServed serving.config serving.polls (K.may_give serving.clock) (W.wiring s.transport) (L.noted s.recorder) s.pass.pass s.end) taken.served.items }
    requires are_all { vec_len taken.served + vec_len taken.spare ≡ shared.made }
    requires none_retired { shared.retired ≡ 0 }
    requires no_visits { vec_len visits ≡ 0 }
    requires none_told { visits.items ≡ [] }
    requires no_passes { back.items ≡ [] }
    requires room_for_visits { shared.made ≤ vec_capacity visits }
    requires room_for_passes { shared.made ≤ vec_capacity back }
    ensures { (was : Opening) → IsTaken was (D.opening taken.acceptor) (vec_len taken.served) (vec_len taken.spare) taken.has_failed → SaysRan serving.config serving.polls (K.may_give serving.clock) W.wiring L.noted shared.made was (D.opening result.acceptor) result.end }
{
    let Taken {
        acceptor,
        recorders,
        served,
        spare,
        has_failed,
    } = taken;
    let (visits, back) = visits_of(&serving, served, visits, back);
    let back = add_spare(spare, back);
    match shared.close(rt, back) {
        Err(unlike) => Ran {
            acceptor,
            recorders,
            end: Err(ServeFault::Unlike(Differing { unlike })),
        },
        Ok(board) => {
            let report = Report { board, visits };
            if has_failed {
                return Ran {
                    acceptor,
                    recorders,
                    end: Err(ServeFault::Acceptor(report)),
                };
            }
            Ran {
                acceptor,
                recorders,
                end: Ok(report),
            }
        }
    }
}
