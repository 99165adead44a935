//! Plays a connection.
ghost use Rattle.http_services.specs.Serving.{unknown_call};
ghost use Rattle.h1_dispatcher.specs.View.{MayBePolled};

use crate::dispatch::body::Page;
use crate::dispatch::guest::{Guest, receive};
use crate::dispatch::report::{
    Polled, put_asked, put_deadline, put_polled, put_refused, put_sent, put_taken, put_upgraded,
};
use crate::dispatch::service::{Coming, Scripted, refusal};
use crate::dispatch::setup::{Cut, Setup};
use crate::dispatch::step::Step;
use crate::dispatch::transport::Lingering;
use futures::task::{Doorbell, Poll, Solo};
use h1_dispatcher::{Accepting, Dispatcher, Upgraded};
use h1_traced::Recorder;
use http_services::CountedService;
use http_transport::Transport;
use http_types::{DispatchError, StatusCode};
use std::alloc::{AllocError, AllocGlobal, Global};
use std::io;
use std::random::RandomSource;
use vectors::Report;

/// A dispatcher of a scripted service.
type Served<L> = Dispatcher<Lingering, CountedService<Scripted>, Coming, L, Page>;

/// How much of what came to the service was put into the report: the requests, what was taken of their bodies, and how these
/// ended, in bytes.
#[derive(Clone, Copy, Debug, Default)]
struct Shown {
    asked: usize,
    taken: usize,
    ends: usize,
}

/// The most polls until a dispatcher is ready.
pub const MOST_POLLS: u32 = 10_000;

/// Plays the steps on a connection of this set-up, with this recorder, and writes the report.
pub fn play<R: RandomSource + AllocGlobal, L: Recorder>(
    rt: &R,
    setup: &Setup,
    steps: &[Step],
    cut: Cut,
    recorder: L,
    report: &mut Report,
) -> io::Result<()> {
    let transport = setup.transport(rt.alloc(), cut)?;
    let service = setup.service(rt.alloc())?;
    let config = setup.config();
    let peer = transport.peer_addr();
    let served = Dispatcher::new(rt.alloc(), transport, service, config, peer, recorder);
    play_on(rt, served, setup.guest(), steps, report)
}

// Takes the steps.
fn play_on<R: RandomSource + AllocGlobal, L: Recorder>(
    rt: &R,
    served: Served<L>,
    guest: Option<Guest>,
    steps: &[Step],
    report: &mut Report,
) -> io::Result<()>
    requires open { MayBePolled (λ _. unknown_call) served }
{
    let mut served = served;
    let mut shown = Shown::default();
    let count = count_before_accept(steps);
    let before = steps.get(..count).unwrap_or(&[]);
    take_all(rt, &mut served, before, &mut shown, report)?;
    match steps.get(count..) {
        Some([Step::Accept(limit), after @ ..]) => {
            accept(rt, served, guest, *limit, after, shown, report)
        }
        _ => {
            put_left(served, report);
            Ok(())
        }
    }
}

// How many steps come before the first that accepts a request.
fn count_before_accept(steps: &[Step]) -> usize {
    for (number, step) in steps.iter().enumerate() {
        if let Step::Accept(_) = step {
            return number;
        }
    }
    steps.len()
}

// Accepts the request that is held back, where it may be accepted, and goes on with these steps: where it was, with the service of
// the accepted connection, if it has one.
fn accept<R: RandomSource + AllocGlobal, L: Recorder>(
    rt: &R,
    served: Served<L>,
    guest: Option<Guest>,
    limit: usize,
    after: &[Step],
    shown: Shown,
    report: &mut Report,
) -> io::Result<()>
    requires open { MayBePolled (λ _. unknown_call) served }
{
    if !served.can_accept(limit) {
        return go_on(rt, served, after, shown, report);
    }
    match served.accept(limit) {
        Ok(Accepting::Done(upgraded)) => hand_over(rt, upgraded, guest, after, report),
        Ok(Accepting::Refused(served, error)) => {
            put_refused(report, error);
            go_on(rt, served, after, shown, report)
        }
        Err(error) => Err(error.into()),
    }
}

// Takes these steps, and puts what is left.
fn go_on<R: RandomSource + AllocGlobal, L: Recorder>(
    rt: &R,
    served: Served<L>,
    steps: &[Step],
    shown: Shown,
    report: &mut Report,
) -> io::Result<()>
    requires open { MayBePolled (λ _. unknown_call) served }
{
    let mut served = served;
    let mut shown = shown;
    take_all(rt, &mut served, steps, &mut shown, report)?;
    put_left(served, report);
    Ok(())
}

// Puts what was handed over: the request, what waits to be written, and how many bytes are held behind the request. Then the guest
// takes the steps, if there is one.
fn hand_over<R: RandomSource + AllocGlobal, L: Recorder>(
    rt: &R,
    upgraded: Upgraded<Lingering, CountedService<Scripted>, L>,
    guest: Option<Guest>,
    steps: &[Step],
    report: &mut Report,
) -> io::Result<()> {
    let (request, line, transport, service) = upgraded.into_parts();
    let connection = line.connection();
    put_upgraded(report, &request, connection.stretch(), connection.held());
    service.inner().tell(report);
    match guest {
        Some(guest) => receive(rt, guest, request, line, transport, steps, report),
        None => {
            put_sent(report, transport.sent(), transport.is_shut());
            Ok(())
        }
    }
}

fn put_left<L: Recorder>(served: Served<L>, report: &mut Report) {
    let (transport, service, _recorder) = served.into_parts();
    service.inner().tell(report);
    put_sent(report, transport.sent(), transport.is_shut());
}

// Takes all steps.
fn take_all<R: RandomSource + AllocGlobal, L: Recorder>(
    rt: &R,
    served: &mut Served<L>,
    steps: &[Step],
    shown: &mut Shown,
    report: &mut Report,
) -> io::Result<()>
    requires open { MayBePolled (λ _. unknown_call) served.old }
    ensures open { MayBePolled (λ _. unknown_call) served.new }
{
    for step in steps {
        take(rt, served, *step, shown, report)?;
    }
    Ok(())
}

// Takes a step.
fn take<R: RandomSource + AllocGlobal, L: Recorder>(
    rt: &R,
    served: &mut Served<L>,
    step: Step,
    shown: &mut Shown,
    report: &mut Report,
) -> io::Result<()>
    requires open { MayBePolled (λ _. unknown_call) served.old }
    ensures open { MayBePolled (λ _. unknown_call) served.new }
{
    match step {
        Step::Drain => served.drain(),
        Step::Deadline => put_deadline(report, served.deadline()),
        Step::Hold => served.hold_upgrades(true),
        Step::Decline => served.decline(),
        Step::HoldExpects => served.hold_expects(true),
        Step::LetOn => served.let_on(),
        Step::TurnAway(status) => turn_away(rt.alloc(), served, status),
        Step::Accept(_) => {}
        Step::Poll(moment) => {
            let polled = poll(rt, served, moment)?;
            put_poll(served, polled, shown, report);
        }
        Step::PollUntilReady(moment) => {
            let polled = poll_until_ready(rt, served, moment)?;
            put_poll(served, polled, shown, report);
        }
    }
    Ok(())
}

// Turns the request away that is held back, where one is.
fn turn_away<L: Recorder>(alloc: Global, served: &mut Served<L>, status: StatusCode)
    requires open { MayBePolled (λ _. unknown_call) served.old }
    ensures open { MayBePolled (λ _. unknown_call) served.new }
{
    if served.can_refuse() {
        served.refuse(refusal(alloc, status));
    }
}

// Polls once. Where the dispatcher had no memory, that is the error.
fn poll<R: RandomSource + AllocGlobal, L: Recorder>(
    rt: &R,
    served: &mut Served<L>,
    moment: u64,
) -> io::Result<Polled>
    requires open { MayBePolled (λ _. unknown_call) served.old }
    ensures open { MayBePolled (λ _. unknown_call) served.new }
{
    let solo = Solo::new(rt, Doorbell::spinning())?;
    let mut cx = solo.begin();
    let polled = served.poll(moment, &mut cx);
    cx.end(&polled);
    polled_of(polled, &solo)
}

// How the poll of this task ended.
fn polled_of(polled: Poll<Result<(), DispatchError>>, solo: &Solo) -> io::Result<Polled> {
    match polled {
        Poll::Ready(Ok(())) => Ok(Polled::Ended),
        Poll::Ready(Err(DispatchError::NoMemory)) => Err(AllocError.into()),
        Poll::Ready(Err(error)) => Ok(Polled::Failed(error)),
        Poll::Pending => Ok(pending_of(solo)),
    }
}

/// Whether the task that is pending is to be polled again.
pub fn pending_of(solo: &Solo) -> Polled {
    match solo.sleep() {
        None => Polled::Pending,
        Some(asleep) => {
            asleep.end();
            Polled::Asleep
        }
    }
}

// Polls until it is ready or its task isn't woken.
fn poll_until_ready<R: RandomSource + AllocGlobal, L: Recorder>(
    rt: &R,
    served: &mut Served<L>,
    moment: u64,
) -> io::Result<Polled>
    requires open { MayBePolled (λ _. unknown_call) served.old }
    ensures open { MayBePolled (λ _. unknown_call) served.new }
{
    for _ in 0..MOST_POLLS {
        let polled = poll(rt, served, moment)?;
        if polled != Polled::Pending {
            return Ok(polled);
        }
    }
    Ok(Polled::Pending)
}

// Puts the requests that came to the service in the polls, and how the last one ended.
fn put_poll<L: Recorder>(
    served: &Served<L>,
    polled: Polled,
    shown: &mut Shown,
    report: &mut Report,
) {
    let service = served.service().inner();
    let [asked, taken, ends] = service.seen();
    put_asked(report, asked.get(shown.asked..).unwrap_or_default());
    put_taken(
        report,
        taken.get(shown.taken..).unwrap_or_default(),
        ends.get(shown.ends..).unwrap_or_default(),
    );
    shown.asked = asked.len();
    shown.taken = taken.len();
    shown.ends = ends.len();
    put_polled(report, polled);
}
