//! One connection over a board that others share.
ghost use Rattle.std.specs.Prelude.{◌≡◌, ◌<◌, ◌⊎◌, ℕ, None, Some, [], nat_lt};
ghost use Rattle.http_bodies.specs.Values.{holds};
ghost use Rattle.http_services.specs.Serving.{unknown_call};
ghost use Rattle.h1_traced.specs.Traced.{TracedStands};
ghost use Rattle.h1_dispatcher.specs.View.{view_of, MayBePolled};
ghost use Rattle.board_server.specs.Serves.{begun_view, HasServed, Ends, PollsAt, end_of};
ghost use Rattle.board_server.specs.Told.{IsTold};
ghost use Rattle.board.specs.Work.{serving_of};

use crate::error::ServeError;
use board::{BoardService, Carried, Gate, Pass, Shared};
use futures::task::{Doorbell, Poll, Solo};
use h1_dispatcher::Dispatcher;
use h1_traced::Recorder;
use http_transport::{Clock, Transport};
use http_types::{DispatchError, ServiceConfig};
use std::alloc::AllocGlobal;
use std::random::RandomSource;
use std::sync::Wait;
use std::sync::ledger::Ledger;

/// What came of a connection.
#[derive(Drop)]
pub struct Served<W, L, M: Ledger> {
    /// The pass, which has the entries of its calls.
    pub pass: Carried<M>,

    /// The transport.
    pub transport: W,

    /// Who noted the steps.
    pub recorder: L,

    /// How it ended.
    pub end: Result<(), ServeError>,
}

/// Serves one connection: each request is answered by one call of the board at most, made with this pass, between the
/// calls of the gate. It is polled until it ends, and at most `polls` times, each time at the moment that the clock gives,
/// in milliseconds since 1970.
///
/// It may wait for the board, and in the gate.
///
/// # Errors
///
/// In `end`: `Dispatch` where its dispatcher answered that; `Budget` where as many polls as it may have were pending, and
/// memory didn't run out in the service; `NoMemory` where it did, or where there was none to begin with.
pub fn serve_connection<W, K, G, L, M, R>(
    rt: &R,
    config: ServiceConfig,
    transport: W,
    clock: K,
    shared: &Shared<M>,
    pass: Pass<M>,
    gate: &G,
    conn: usize,
    polls: u64,
    recorder: L,
) -> Served<W, L, M>
where
    W: Transport,
    K: Clock,
    G: Gate,
    L: Recorder,
    M: Ledger,
    R: Wait + RandomSource + AllocGlobal,
    requires is_new { pass.entries ≡ [] }
    requires some { 0 < polls }
    ensures served { HasServed (begun_view (W.wiring transport) (W.peer transport) pass.number config (L.noted recorder) (L.is_listening recorder)) polls (K.may_give clock) (W.wiring result.transport) (L.noted result.recorder) result.pass.pass result.end }
    ensures told { (L.noted recorder ≡ None) ⊎ (L.noted recorder ≡ Some []) → IsTold config (W.wiring transport) (W.wiring result.transport) (W.peer transport) (L.noted result.recorder) result.pass.pass result.end }
{
    poll_service(
        rt, config, transport, clock, shared, pass, gate, conn, polls, recorder,
    )
}

/// Polls a new dispatcher over the board.
fn poll_service<W, K, G, L, M, R>(
    rt: &R,
    config: ServiceConfig,
    transport: W,
    clock: K,
    shared: &Shared<M>,
    pass: Pass<M>,
    gate: &G,
    conn: usize,
    polls: u64,
    recorder: L,
) -> Served<W, L, M>
where
    W: Transport,
    K: Clock,
    G: Gate,
    L: Recorder,
    M: Ledger,
    R: Wait + RandomSource + AllocGlobal,
    requires is_new { pass.entries ≡ [] }
    requires some { 0 < polls }
    ensures served { HasServed (begun_view (W.wiring transport) (W.peer transport) pass.number config (L.noted recorder) (L.is_listening recorder)) polls (K.may_give clock) (W.wiring result.transport) (L.noted result.recorder) result.pass.pass result.end }
    ensures stands { (L.noted recorder ≡ None) ⊎ (L.noted recorder ≡ Some []) → TracedStands (begun_view (W.wiring transport) (W.peer transport) pass.number config (L.noted recorder) (L.is_listening recorder)).traced [] }
{
    let alloc = rt.alloc();
    let service = BoardService::new(rt, alloc, shared, gate, conn, pass);
    let peer = transport.peer_addr();
    let mut dispatcher = Dispatcher::new(alloc, transport, service, config, peer, recorder);
    let end = poll_as_task(rt, &mut dispatcher, clock, polls);
    let (transport, service, recorder) = dispatcher.into_parts();
    Served {
        pass: service.into_pass(),
        transport,
        recorder,
        end,
    }
}

/// Polls a connection as a task of its own until it ends, and at most `polls` times.
fn poll_as_task<W, K, G, L, M, R>(
    rt: &R,
    dispatcher: &mut Dispatcher<W, BoardService<'_, R, G, M>, (), L>,
    clock: K,
    polls: u64,
) -> Result<(), ServeError>
where
    W: Transport,
    K: Clock,
    G: Gate,
    L: Recorder,
    M: Ledger,
    R: Wait + RandomSource + AllocGlobal,
    requires open { MayBePolled (λ _. unknown_call) dispatcher.old }
    requires answers { (view_of W.wiring (λ s. serving_of s.work) (λ _. unknown_call) (λ _. holds []) L.noted L.is_listening dispatcher.old).service.call_waits ≡ 0 }
    ensures ends { Ends polls (K.may_give clock) (view_of W.wiring (λ s. serving_of s.work) (λ _. unknown_call) (λ _. holds []) L.noted L.is_listening dispatcher.old) (view_of W.wiring (λ s. serving_of s.work) (λ _. unknown_call) (λ _. holds []) L.noted L.is_listening dispatcher.new) result }
{
    match Solo::new(rt, Doorbell::spinning()) {
        Ok(task) => poll_to_end(dispatcher, &task, clock, polls),
        Err(_) => Err(ServeError::NoMemory),
    }
}

/// Polls a connection until it ends, and at most `polls` times.
fn poll_to_end<W, K, G, L, M, R>(
    dispatcher: &mut Dispatcher<W, BoardService<'_, R, G, M>, (), L>,
    task: &Solo,
    clock: K,
    polls: u64,
) -> Result<(), ServeError>
where
    W: Transport,
    K: Clock,
    G: Gate,
    L: Recorder,
    M: Ledger,
    R: Wait,
    requires open { MayBePolled (λ _. unknown_call) dispatcher.old }
    requires answers { (view_of W.wiring (λ s. serving_of s.work) (λ _. unknown_call) (λ _. holds []) L.noted L.is_listening dispatcher.old).service.call_waits ≡ 0 }
    ensures ends { Ends polls (K.may_give clock) (view_of W.wiring (λ s. serving_of s.work) (λ _. unknown_call) (λ _. holds []) L.noted L.is_listening dispatcher.old) (view_of W.wiring (λ s. serving_of s.work) (λ _. unknown_call) (λ _. holds []) L.noted L.is_listening dispatcher.new) result }
{
    let mut clock = clock;
    for count in 0..polls {
        let polled = poll_once(dispatcher, task, &mut clock);
        if is_stuck(dispatcher) {
            return Err(ServeError::NoMemory);
        }
        match polled {
            Poll::Ready(ended) => return told(ended),
            Poll::Pending => {}
        }
    }
    Err(ServeError::Budget)
}

/// What a dispatcher's last answer comes to.
fn told(ended: Result<(), DispatchError>) -> Result<(), ServeError>
    ensures { result ≡ end_of ended }
{
    match ended {
        Ok(()) => Ok(()),
        Err(error) => Err(ServeError::Dispatch(error)),
    }
}

/// Polls a connection, at the moment that the clock gives.
fn poll_once<W, K, G, L, M, R>(
    dispatcher: &mut Dispatcher<W, BoardService<'_, R, G, M>, (), L>,
    task: &Solo,
    clock: &mut K,
) -> Poll<Result<(), DispatchError>>
where
    W: Transport,
    K: Clock,
    G: Gate,
    L: Recorder,
    M: Ledger,
    R: Wait,
    requires open { MayBePolled (λ _. unknown_call) dispatcher.old }
    ensures polls { PollsAt (K.may_give clock.old) (view_of W.wiring (λ s. serving_of s.work) (λ _. unknown_call) (λ _. holds []) L.noted L.is_listening dispatcher.old) (view_of W.wiring (λ s. serving_of s.work) (λ _. unknown_call) (λ _. holds []) L.noted L.is_listening dispatcher.new) result }
    ensures open { MayBePolled (λ _. unknown_call) dispatcher.new }
    ensures same { (moment : ℕ) → K.may_give clock.new moment ≡ K.may_give clock.old moment }
{
    let mut cx = task.begin();
    let polled = dispatcher.poll(clock.now_ms(), &mut cx);
    cx.end(&polled);
    polled
}

/// Whether a call wasn't answered, as memory ran out.
fn is_stuck<W, G, L, M, R>(dispatcher: &Dispatcher<W, BoardService<'_, R, G, M>, (), L>) -> bool
where
    W: Transport,
    G: Gate,
    L: Recorder,
    M: Ledger,
    R: Wait,
    ensures { result ≡ nat_lt 0 (view_of W.wiring (λ s. serving_of s.work) (λ _. unknown_call) (λ _. holds []) L.noted L.is_listening dispatcher.now).service.call_waits }
{
    dispatcher.service().is_stuck()
}
