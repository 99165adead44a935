// Connections as they come, each on a thread of its own.
ghost use Rattle.std.specs.Prelude.{◌≡◌, ◌⊎◌, ◌<◌, ◌≤◌, ◌+◌, None, Some, [], vec_len, IfOk, IfErr};
ghost use Rattle.std.specs.List.{AllByRecursion};
ghost use Rattle.std.specs.Thread.{IsSync, IsSend};
ghost use Rattle.std.specs.Vec.{vec_capacity};
ghost use Rattle.http_transport.specs.Opening.{IsFresh};
ghost use Rattle.board_server.specs.Visits.{WasServed, IsTaken};

use crate::{Gate, Recorders, Served, serve_connection};
use board::{Carried, Pass, Shared};
use h1_traced::Recorder;
use http_transport::{Acceptor, Clock, Transport};
use http_types::ServiceConfig;
use std::alloc::AllocGlobal;
use std::marker::Model;
use std::random::RandomSource;
use std::sync::Wait;
use std::sync::ledger::Ledger;
use std::thread;
use std::thread::{Promise, PromisedHandle, Scope, Threads};

/// A pass without an entry. A clause sees its number.
#[derive(Drop)]
pub(crate) struct Fresh<M: Ledger> {
    pass: Carried<M>,
}

impl<M: Ledger> Model for Fresh<M> {
    ghost use Rattle.std.specs.Prelude.{◌≡◌, ℕ, []};

    ghost Value = { ℕ };

    ghost view = { λ f. f.pass.pass.number };

    ghost invariant = { λ f. f.pass.pass.entries ≡ [] };
}

impl<M: Ledger> Fresh<M> {
    /// A pass that was never used.
    pub(crate) fn new(pass: Pass<M>) -> Fresh<M>
        requires is_new { pass.entries ≡ [] }
        ensures { result ≡ pass.number }
    {
        Fresh {
            pass: Carried::new(pass),
        }
    }

    /// The pass.
    pub(crate) fn into_pass(self) -> Pass<M>
        ensures number { result.number ≡ self }
        ensures is_new { result.entries ≡ [] }
    {
        self.pass.into_pass()
    }

    /// The pass, on its way.
    fn into_carried(self) -> Carried<M>
        ensures { result.pass.entries ≡ [] }
    {
        self.pass
    }
}

/// How connections are served: with these settings, and at most so many polls each, from this clock on. It promises of one
/// that it was served so.
#[derive(Clone, Copy)]
pub(crate) struct Serving<K> {
    pub(crate) config: ServiceConfig,
    pub(crate) polls: u64,
    pub(crate) clock: K,
}

impl<W: Transport, K: Clock, L: Recorder, M: Ledger> Promise<Served<W, L, M>> for Serving<K> {
    ghost kept_by = { λ p s. WasServed p.config p.polls (K.may_give p.clock) (W.wiring s.transport) (L.noted s.recorder) s.pass.pass s.end };
}

/// A connection that came, and its number.
#[derive(Drop)]
struct Newcomer<W, L> {
    transport: W,
    recorder: L,
    conn: usize,
}

/// What came of the connections: the acceptor and the recorders, what was served, the passes that are left, and whether the
/// acceptor failed.
#[derive(Drop)]
pub(crate) struct Taken<D: Acceptor, Q: Recorders, M: Ledger> {
    pub(crate) acceptor: D,
    pub(crate) recorders: Q,
    pub(crate) served: Vec<Served<D::Conn, Q::Rec, M>>,
    pub(crate) spare: Vec<Fresh<M>>,
    pub(crate) has_failed: bool,
}

/// Serves a new connection.
fn serve_new<W, K, G, L, M, R>(
    rt: &R,
    serving: Serving<K>,
    newcomer: Newcomer<W, L>,
    shared: &Shared<M>,
    pass: Carried<M>,
    gate: &G,
) -> Served<W, L, M>
where
    W: Transport,
    K: Clock,
    G: Gate,
    L: Recorder,
    M: Ledger,
    R: Wait + RandomSource + AllocGlobal,
    requires some { 0 < serving.polls }
    requires is_new { pass.pass.entries ≡ [] }
    requires fresh { IsFresh (W.wiring newcomer.transport) }
    requires unnoted { (L.noted newcomer.recorder ≡ None) ⊎ (L.noted newcomer.recorder ≡ Some []) }
    ensures { WasServed serving.config serving.polls (K.may_give serving.clock) (W.wiring result.transport) (L.noted result.recorder) result.pass.pass result.end }
{
    let Serving {
        config,
        polls,
        clock,
    } = serving;
    let Newcomer {
        transport,
        recorder,
        conn,
    } = newcomer;
    serve_connection(
        rt,
        config,
        transport,
        clock,
        shared,
        pass.into_pass(),
        gate,
        conn,
        polls,
        recorder,
    )
}

/// Serves on a thread of the scope, or here where it may not start one, or none can be made.
fn start<
    's,
    'e,
    W: Transport + Send + 's,
    K: Clock + Copy + Send + 's,
    G: Gate + Sync + 's,
    L: Recorder + Send + 's,
    M: Ledger + Send + Sync + 's,
    R: Threads + Wait + RandomSource + AllocGlobal + Sync + 's,
>(
    rt: &'s R,
    scope: &'s Scope<'s, &'e ()>,
    serving: Serving<K>,
    transport: W,
    shared: &'s Shared<M>,
    pass: Fresh<M>,
    gate: &'s G,
    conn: usize,
    recorder: L,
    may_start: bool,
) -> Result<PromisedHandle<Served<W, L, M>, Serving<K>>, Served<W, L, M>>
    requires some { 0 < serving.polls }
    requires fresh { IsFresh (W.wiring transport) }
    requires unnoted { (L.noted recorder ≡ None) ⊎ (L.noted recorder ≡ Some []) }
    ensures promise { IfOk result (λ h. h.promise ≡ serving) }
    ensures here { IfErr result (λ s. WasServed serving.config serving.polls (K.may_give serving.clock) (W.wiring s.transport) (L.noted s.recorder) s.pass.pass s.end) }
{
    let newcomer = Newcomer {
        transport,
        recorder,
        conn,
    };
    let pass = pass.into_carried();
    if !may_start {
        return Err(serve_new(rt, serving, newcomer, shared, pass, gate));
    }
    let job = move || -> Served<W, L, M>
        requires { (0 < serving.polls) × (pass.pass.entries ≡ []) × IsFresh (W.wiring newcomer.transport) × ((L.noted newcomer.recorder ≡ None) ⊎ (L.noted newcomer.recorder ≡ Some [])) }
        ensures { WasServed serving.config serving.polls (K.may_give serving.clock) (W.wiring result.transport) (L.noted result.recorder) result.pass.pass result.end }
    { serve_new(rt, serving, newcomer, shared, pass, gate) };
    match scope.spawn_with(serving, job) {
        Ok(handle) => Ok(handle),
        Err(refused) => Err((refused.value)()),
    }
}

/// Keeps a thread that was started, or what was served here.
fn keep<T: Drop, P: Promise<T>>(
    promise: &P,
    started: Result<PromisedHandle<T, P>, T>,
    handles: &mut Vec<PromisedHandle<T, P>>,
    served: &mut Vec<T>,
)
    requires promise { IfOk started (λ h. h.promise ≡ promise.now) }
    requires here { IfErr started (λ s. P.kept_by promise.now s) }
    requires room_for_handles { vec_len handles.old < vec_capacity handles.old }
    requires room_for_served { vec_len served.old < vec_capacity served.old }
    requires promises { AllByRecursion (λ h. h.promise ≡ promise.now) handles.old.items }
    requires kept { AllByRecursion (λ s. P.kept_by promise.now s) served.old.items }
    ensures promises { AllByRecursion (λ h. h.promise ≡ promise.now) handles.new.items }
    ensures kept { AllByRecursion (λ s. P.kept_by promise.now s) served.new.items }
    ensures count { vec_len handles.new + vec_len served.new ≡ vec_len handles.old + vec_len served.old + 1 }
    ensures room { (vec_capacity handles.new ≡ vec_capacity handles.old) × (vec_capacity served.new ≡ vec_capacity served.old) }
{
    match started {
        Ok(handle) => handles.push_reserved(handle),
        Err(done) => served.push_reserved(done),
    }
}

/// Adds what the threads give, which keeps their promise.
fn join_all<T: Drop, P: Promise<T>, R: Threads>(
    rt: &R,
    promise: &P,
    handles: Vec<PromisedHandle<T, P>>,
    served: Vec<T>,
) -> Vec<T>
    requires room { vec_len handles + vec_len served ≤ vec_capacity served }
    requires promises { AllByRecursion (λ h. h.promise ≡ promise.now) handles.items }
    requires kept { AllByRecursion (λ s. P.kept_by promise.now s) served.items }
    ensures count { vec_len result ≡ vec_len handles + vec_len served }
    ensures kept { AllByRecursion (λ s. P.kept_by promise.now s) result.items }
{
    let mut handles = handles;
    let mut served = served;
    while let Some(handle) = handles.pop() {
        served.push_reserved(handle.join(rt));
    }
    served
}

/// Accepts until the acceptor gives no more, fails, or no pass is left, and joins the threads, of which there are so many at most.
/// Without memory for their handles the acceptor and the recorders come back.
fn accept_all<
    's,
    'e,
    D: Acceptor<Conn = W>,
    W: Transport + Send + 's,
    K: Clock + Copy + Send + 's,
    G: Gate + Sync + 's,
    Q: Recorders<Rec = L>,
    L: Recorder + Send + 's,
    M: Ledger + Send + Sync + 's,
    R: Threads + Wait + RandomSource + AllocGlobal + Sync + 's,
>(
    rt: &'s R,
    scope: &'s Scope<'s, &'e ()>,
    threads: usize,
    serving: Serving<K>,
    shared: &'s Shared<M>,
    gate: &'s G,
    passes: Vec<Fresh<M>>,
    acceptor: D,
    recorders: Q,
) -> Result<Taken<D, Q, M>, (D, Q)>
    requires some { 0 < serving.polls }
    ensures served { IfOk result (λ t. AllByRecursion (λ s. WasServed serving.config serving.polls (K.may_give serving.clock) (W.wiring s.transport) (L.noted s.recorder) s.pass.pass s.end) t.served.items) }
    ensures taken { IfOk result (λ t. IsTaken (D.opening acceptor) (D.opening t.acceptor) (vec_len t.served) (vec_len t.spare) t.has_failed) }
    ensures count { IfOk result (λ t. vec_len t.served + vec_len t.spare ≡ vec_len passes) }
    ensures back { IfErr result (λ r. D.opening r.0 ≡ D.opening acceptor) }
{
    let mut passes = passes;
    let mut acceptor = acceptor;
    let mut recorders = recorders;
    let mut has_failed = false;
    let alloc = *passes.allocator();
    let mut handles: Vec<PromisedHandle<Served<W, L, M>, Serving<K>>> = Vec::new(alloc);
    let mut served: Vec<Served<W, L, M>> = Vec::new(alloc);
    if handles.reserve(passes.len()).is_err() || served.reserve(passes.len()).is_err() {
        return Err((acceptor, recorders));
    }
    let mut conn: usize = 0;
    while let Some(pass) = passes.pop() {
        match acceptor.accept() {
            Ok(Some(transport)) => {
                let recorder = recorders.make();
                let may_start = handles.len() < threads;
                let started = start(
                    rt, scope, serving, transport, shared, pass, gate, conn, recorder, may_start,
                );
                keep(&serving, started, &mut handles, &mut served);
                conn += 1;
            }
            Ok(None) => {
                passes.push_reserved(pass);
                break;
            }
            Err(_) => {
                has_failed = true;
                passes.push_reserved(pass);
                break;
            }
        }
    }
    Ok(Taken {
        acceptor,
        recorders,
        served: join_all(rt, &serving, handles, served),
        spare: passes,
        has_failed,
    })
}

/// Serves each connection on a thread of its own, of which there are so many at most, or here, and waits for all.
pub(crate) fn serve_all<
    D: Acceptor<Conn = W>,
    W: Transport + Send,
    K: Clock + Copy + Send,
    G: Gate + Sync,
    Q: Recorders<Rec = L>,
    L: Recorder + Send,
    M: Ledger + Send + Sync,
    R: Threads + Wait + RandomSource + AllocGlobal + Sync,
>(
    rt: &R,
    threads: usize,
    serving: Serving<K>,
    shared: &Shared<M>,
    gate: &G,
    passes: Vec<Fresh<M>>,
    acceptor: D,
    recorders: Q,
) -> Result<Taken<D, Q, M>, (D, Q)>
    requires some { 0 < serving.polls }
    ensures served { IfOk result (λ t. AllByRecursion (λ s. WasServed serving.config serving.polls (K.may_give serving.clock) (W.wiring s.transport) (L.noted s.recorder) s.pass.pass s.end) t.served.items) }
    ensures taken { IfOk result (λ t. IsTaken (D.opening acceptor) (D.opening t.acceptor) (vec_len t.served) (vec_len t.spare) t.has_failed) }
    ensures count { IfOk result (λ t. vec_len t.served + vec_len t.spare ≡ vec_len passes) }
    ensures back { IfErr result (λ r. D.opening r.0 ≡ D.opening acceptor) }
{
    thread::scope(
        thread::scope_env(),
        rt,
        move |scope| -> Result<Taken<D, Q, M>, (D, Q)>
            requires { (0 < serving.polls) × IsSync R.row × IsSend W.row × IsSend L.row × IsSend K.row × IsSync G.row × IsSend M.row × IsSync M.row }
            ensures served { IfOk result (λ t. AllByRecursion (λ s. WasServed serving.config serving.polls (K.may_give serving.clock) (W.wiring s.transport) (L.noted s.recorder) s.pass.pass s.end) t.served.items) }
            ensures taken { IfOk result (λ t. IsTaken (D.opening acceptor) (D.opening t.acceptor) (vec_len t.served) (vec_len t.spare) t.has_failed) }
            ensures count { IfOk result (λ t. vec_len t.served + vec_len t.spare ≡ vec_len passes) }
            ensures back { IfErr result (λ r. D.opening r.0 ≡ D.opening acceptor) }
        {
            accept_all(
                rt, scope, threads, serving, shared, gate, passes, acceptor, recorders,
            )
        },
    )
}
