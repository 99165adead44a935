//! Services of accepted connections.
ghost use Rattle.ws_service.specs.View.{MayBePolled};

use crate::dispatch::play::{MOST_POLLS, pending_of};
use crate::dispatch::report::{Polled, put_deadline, put_polled, put_sent};
use crate::dispatch::step::Step;
use crate::dispatch::transport::Lingering;
use futures::task::{Doorbell, Poll, Solo};
use h1_traced::{Recorder, Traced};
use http_services::{FnService, Handler, Service, UpgradeHandler};
use http_types::{DispatchError, Error, Kind, Request};
use std::alloc::{AllocError, AllocGlobal};
use std::io;
use std::random::RandomSource;
use vectors::Report;
use ws_service::{Frame, Message, UpgradeDispatcher, UpgradeError, UpgradeItem};

/// The service of an accepted connection.
#[derive(Clone, Copy, Debug, PartialEq, Eq)]
pub enum Guest {
    /// Sends each frame back.
    Echo,

    /// Refuses each item.
    Refusal,
}

/// The service that this word says.
pub fn guest_of(word: &[u8]) -> Option<Guest> {
    match word {
        b"echo" => Some(Guest::Echo),
        b"refuse" => Some(Guest::Refusal),
        _ => None,
    }
}

/// Sends each frame back: a Ping as a Pong, a text as bytes.
#[derive(Drop)]
struct Echo;

impl Handler<UpgradeItem> for Echo {
    type Response = Message;

    type Error = Error;

    fn handle(&mut self, req: UpgradeItem) -> Result<Message, Error> {
        let UpgradeItem::Frame(frame) = req else {
            return Ok(Message::Nop);
        };
        match frame.get().copy() {
            Ok(frame) => Ok(echo_of(frame)),
            Err(_) => Err(Error {
                kind: Kind::Ws,
                cause: None,
            }),
        }
    }
}

fn echo_of(frame: Frame) -> Message {
    match frame {
        Frame::Text(payload) => Message::Binary(payload),
        Frame::Binary(payload) => Message::Binary(payload),
        Frame::Continuation(item) => Message::Continuation(item),
        Frame::Ping(payload) => Message::Pong(payload),
        Frame::Pong(_) => Message::Nop,
        Frame::Close(reason) => Message::Close(reason),
    }
}

/// Takes the steps with an accepted connection that has this service, and puts what it sent.
pub fn receive<R: RandomSource + AllocGlobal, L: Recorder>(
    rt: &R,
    guest: Guest,
    request: Request<(), ()>,
    line: Traced<L>,
    transport: Lingering,
    steps: &[Step],
    report: &mut Report,
) -> io::Result<()> {
    match guest {
        Guest::Echo => {
            let echo: FnService<Echo, ()> = FnService::new(Echo);
            serve(
                rt,
                UpgradeDispatcher::new(request, line, transport, echo),
                steps,
                report,
            )
        }
        Guest::Refusal => {
            let refusal: UpgradeHandler<Message> = UpgradeHandler::new();
            serve(
                rt,
                UpgradeDispatcher::new(request, line, transport, refusal),
                steps,
                report,
            )
        }
    }
}

// Takes the steps, and puts what was sent.
fn serve<R, U, L>(
    rt: &R,
    served: UpgradeDispatcher<Lingering, U, U::Call, L>,
    steps: &[Step],
    report: &mut Report,
) -> io::Result<()>
where
    R: RandomSource + AllocGlobal,
    U: Service<UpgradeItem, Response = Message, Error = Error, Lent = ()>,
    L: Recorder,
    requires open { MayBePolled U.calling served }
{
    let mut served = served;
    take_all(rt, &mut served, steps, report)?;
    let (transport, _service, _recorder) = served.into_parts();
    put_sent(report, transport.sent(), transport.is_shut());
    Ok(())
}

// Takes all steps.
fn take_all<R, U, L>(
    rt: &R,
    served: &mut UpgradeDispatcher<Lingering, U, U::Call, L>,
    steps: &[Step],
    report: &mut Report,
) -> io::Result<()>
where
    R: RandomSource + AllocGlobal,
    U: Service<UpgradeItem, Response = Message, Error = Error, Lent = ()>,
    L: Recorder,
    requires open { MayBePolled U.calling served.old }
    ensures open { MayBePolled U.calling served.new }
{
    for step in steps {
        match *step {
            Step::Drain => served.drain(),
            Step::Deadline => put_deadline(report, served.deadline()),
            Step::Poll(moment) => put_polled(report, poll(rt, served, moment, 1)?),
            Step::PollUntilReady(moment) => {
                put_polled(report, poll(rt, served, moment, MOST_POLLS)?);
            }
            _ => {}
        }
    }
    Ok(())
}

// Polls until it is ready or its task isn't woken, at most so often. Where there was no memory, that is the error.
fn poll<R, U, L>(
    rt: &R,
    served: &mut UpgradeDispatcher<Lingering, U, U::Call, L>,
    moment: u64,
    most: u32,
) -> io::Result<Polled>
where
    R: RandomSource + AllocGlobal,
    U: Service<UpgradeItem, Response = Message, Error = Error, Lent = ()>,
    L: Recorder,
    requires open { MayBePolled U.calling served.old }
    ensures open { MayBePolled U.calling served.new }
{
    for _ in 0..most {
        let solo = Solo::new(rt, Doorbell::spinning())?;
        let mut cx = solo.begin();
        let polled = served.poll(moment, &mut cx);
        cx.end(&polled);
        let found = polled_of(polled, &solo)?;
        if found != Polled::Pending {
            return Ok(found);
        }
    }
    Ok(Polled::Pending)
}

// How the poll of this task ended.
fn polled_of(polled: Poll<Result<(), UpgradeError>>, solo: &Solo) -> io::Result<Polled> {
    match polled {
        Poll::Ready(Ok(())) => Ok(Polled::Ended),
        Poll::Ready(Err(error)) => Ok(Polled::Failed(failure_of(error)?)),
        Poll::Pending => Ok(pending_of(solo)),
    }
}

// Why it broke off, as an error of a dispatcher.
fn failure_of(error: UpgradeError) -> Result<DispatchError, AllocError> {
    match error {
        UpgradeError::Upgrade(_) => Ok(DispatchError::Upgrade),
        UpgradeError::Io => Ok(DispatchError::Io),
        UpgradeError::DisconnectTimeout => Ok(DispatchError::DisconnectTimeout),
        UpgradeError::NotUpgraded => Ok(DispatchError::InternalError),
        UpgradeError::NoMemory => Err(AllocError),
    }
}
