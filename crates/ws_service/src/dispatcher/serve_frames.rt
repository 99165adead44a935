// The service is asked, its answer sent, and the next frame asked for.
ghost use Rattle.std.specs.Prelude.{◌≡◌, None, true, false};
ghost use Rattle.model_h1.specs.Event as on;
ghost use Rattle.futures.specs.Task.{IsArmed, Keeps};
ghost use Rattle.ws_service.specs.View.{view_of, stage_of, free, is_waiting, is_calling, is_sending, MayBePolled, closes, allows, allows_pull, allows_send};
ghost use Rattle.ws_service.specs.Steps.{given_of};
ghost use Rattle.ws_service.specs.Polls.{OnIdle, ServeSays, RestSays, TellSays, EndSays};

use crate::dispatcher::read::wait;
use crate::dispatcher::{Ending, UpgradeDispatcher, UpgradeTurn, Work};
use crate::error::UpgradeError;
use crate::item::UpgradeItem;
use futures::task::{Context, Poll};
use h1_connection::{Event, Message, Outcome, ReceivedFrame, SentMessage};
use h1_traced::Recorder;
use http_services::Service;
use http_transport::Transport;
use http_types::Error;
use std::mem;

/// What came where the next frame was asked for.
#[derive(Drop)]
enum Given {
    /// This frame.
    Frame(ReceivedFrame),

    /// No whole frame is there.
    Nothing,

    /// Something else: a rule was broken, and the connection closes.
    Other,
}

impl<T, U, L> UpgradeDispatcher<T, U, U::Call, L>
where
    T: Transport,
    U: Service<UpgradeItem, Response = Message, Error = Error, Lent = ()>,
    L: Recorder,
{
    /// Goes on with the answer that waits, the call in progress, what waits for the service, or the next frame, where the
    /// connection speaks WebSocket.
    pub(super) fn serve(&mut self, is_armed: bool, cx: &mut Context<'_>) -> UpgradeTurn
        requires open { MayBePolled U.calling self.old }
        requires running { self.old.ending ≡ None }
        requires goes_on { closes (view_of T.wiring U.served L.noted L.is_listening self.old) ≡ false }
        requires armed { is_armed ≡ true → IsArmed cx.old }
        ensures says { ServeSays 3 (view_of T.wiring U.served L.noted L.is_listening self.old) (view_of T.wiring U.served L.noted L.is_listening self.new) result }
        ensures open { MayBePolled U.calling self.new }
        ensures registered { OnIdle result (IsArmed cx.new) }
        ensures kept { Keeps cx.old cx.new }
    {
        if !self.traced.connection().can_pull_frame() {
            return UpgradeTurn::Over(Err(UpgradeError::NotUpgraded));
        }
        match self.work {
            Work::Free => self.pull_frame(is_armed, cx),
            Work::Waiting(_) => self.ask(is_armed, cx),
            Work::Calling(_) => self.answer(is_armed, cx),
            Work::Sending(_) => self.send(is_armed, cx),
        }
    }

    /// Asks for the next frame.
    fn pull_frame(&mut self, is_armed: bool, cx: &mut Context<'_>) -> UpgradeTurn
        requires open { MayBePolled U.calling self.old }
        requires running { self.old.ending ≡ None }
        requires unasked { stage_of self.old.work ≡ free }
        requires allowed { allows_pull (view_of T.wiring U.served L.noted L.is_listening self.old) ≡ true }
        requires armed { is_armed ≡ true → IsArmed cx.old }
        ensures says { ServeSays 3 (view_of T.wiring U.served L.noted L.is_listening self.old) (view_of T.wiring U.served L.noted L.is_listening self.new) result }
        ensures open { MayBePolled U.calling self.new }
        ensures registered { OnIdle result (IsArmed cx.new) }
        ensures kept { Keeps cx.old cx.new }
    {
        match self.traced.step(&Event::Pull) {
            Ok(outcome) => match given_by(outcome) {
                Given::Frame(frame) => {
                    self.work = Work::Waiting(UpgradeItem::Frame(frame));
                    UpgradeTurn::Counted
                }
                Given::Nothing => self.rest(is_armed, cx),
                Given::Other => UpgradeTurn::Counted,
            },
            Err(_) => {
                self.ending = Some(Ending::Broken);
                UpgradeTurn::Over(Err(UpgradeError::NoMemory))
            }
        }
    }

    /// No whole frame is there: once the input has ended that is told, and until then it is read.
    fn rest(&mut self, is_armed: bool, cx: &mut Context<'_>) -> UpgradeTurn
        requires open { MayBePolled U.calling self.old }
        requires running { self.old.ending ≡ None }
        requires unasked { stage_of self.old.work ≡ free }
        requires armed { is_armed ≡ true → IsArmed cx.old }
        ensures says { RestSays (view_of T.wiring U.served L.noted L.is_listening self.old) (view_of T.wiring U.served L.noted L.is_listening self.new) result }
        ensures open { MayBePolled U.calling self.new }
        ensures registered { OnIdle result (IsArmed cx.new) }
        ensures kept { Keeps cx.old cx.new }
    {
        if !self.is_input_ended {
            return self.read(is_armed, cx);
        }
        if !self.traced.connection().can_read() {
            return wait(is_armed, cx);
        }
        self.tell_input_end()
    }

    /// Tells the connection that no more bytes come.
    fn tell_input_end(&mut self) -> UpgradeTurn
        requires open { MayBePolled U.calling self.old }
        requires running { self.old.ending ≡ None }
        requires unasked { stage_of self.old.work ≡ free }
        requires ended { self.old.is_input_ended ≡ true }
        requires allowed { allows (view_of T.wiring U.served L.noted L.is_listening self.old) on.eof ≡ true }
        ensures says { TellSays (view_of T.wiring U.served L.noted L.is_listening self.old) (view_of T.wiring U.served L.noted L.is_listening self.new) result }
        ensures open { MayBePolled U.calling self.new }
    {
        match self.traced.eof() {
            Ok(()) => UpgradeTurn::Counted,
            Err(_) => {
                self.ending = Some(Ending::Broken);
                UpgradeTurn::Over(Err(UpgradeError::NoMemory))
            }
        }
    }

    /// Calls the service with what waits for it, once it is ready, and polls the call at once.
    fn ask(&mut self, is_armed: bool, cx: &mut Context<'_>) -> UpgradeTurn
        requires open { MayBePolled U.calling self.old }
        requires running { self.old.ending ≡ None }
        requires goes_on { closes (view_of T.wiring U.served L.noted L.is_listening self.old) ≡ false }
        requires waits { is_waiting (stage_of self.old.work) ≡ true }
        requires armed { is_armed ≡ true → IsArmed cx.old }
        ensures says { ServeSays 3 (view_of T.wiring U.served L.noted L.is_listening self.old) (view_of T.wiring U.served L.noted L.is_listening self.new) result }
        ensures open { MayBePolled U.calling self.new }
        ensures registered { OnIdle result (IsArmed cx.new) }
        ensures kept { Keeps cx.old cx.new }
    {
        match self.service.poll_ready(cx) {
            Poll::Pending => self.read(true, cx),
            Poll::Ready(Err(error)) => UpgradeTurn::Over(Err(UpgradeError::Upgrade(error))),
            Poll::Ready(Ok(())) => {
                let Work::Waiting(item) = mem::replace(&mut self.work, Work::Free) else {
                    unreachable!()
                };
                self.work = Work::Calling(self.service.call(item));
                self.answer(is_armed, cx)
            }
        }
    }

    /// Polls the call in progress, and sends its answer.
    fn answer(&mut self, is_armed: bool, cx: &mut Context<'_>) -> UpgradeTurn
        requires open { MayBePolled U.calling self.old }
        requires running { self.old.ending ≡ None }
        requires goes_on { closes (view_of T.wiring U.served L.noted L.is_listening self.old) ≡ false }
        requires calls { is_calling (stage_of self.old.work) ≡ true }
        requires armed { is_armed ≡ true → IsArmed cx.old }
        ensures says { ServeSays 2 (view_of T.wiring U.served L.noted L.is_listening self.old) (view_of T.wiring U.served L.noted L.is_listening self.new) result }
        ensures open { MayBePolled U.calling self.new }
        ensures registered { OnIdle result (IsArmed cx.new) }
        ensures kept { Keeps cx.old cx.new }
    {
        let Work::Calling(call) = &mut self.work else {
            unreachable!()
        };
        match self.service.poll_call(call, &mut (), cx) {
            Poll::Pending => self.read(true, cx),
            Poll::Ready(Ok(message)) => {
                self.work = Work::Sending(message);
                self.send(is_armed, cx)
            }
            Poll::Ready(Err(error)) => {
                self.work = Work::Free;
                UpgradeTurn::Over(Err(UpgradeError::Upgrade(error)))
            }
        }
    }

    /// Sends the answer that waits, where there is room; or else reads.
    fn send(&mut self, is_armed: bool, cx: &mut Context<'_>) -> UpgradeTurn
        requires open { MayBePolled U.calling self.old }
        requires running { self.old.ending ≡ None }
        requires answered { is_sending (stage_of self.old.work) ≡ true }
        requires armed { is_armed ≡ true → IsArmed cx.old }
        ensures says { ServeSays 1 (view_of T.wiring U.served L.noted L.is_listening self.old) (view_of T.wiring U.served L.noted L.is_listening self.new) result }
        ensures open { MayBePolled U.calling self.new }
        ensures registered { OnIdle result (IsArmed cx.new) }
        ensures kept { Keeps cx.old cx.new }
    {
        if !self.traced.connection().can_send() {
            return self.read(is_armed, cx);
        }
        self.send_message()
    }

    fn send_message(&mut self) -> UpgradeTurn
        requires open { MayBePolled U.calling self.old }
        requires running { self.old.ending ≡ None }
        requires answered { is_sending (stage_of self.old.work) ≡ true }
        requires allowed { allows_send (view_of T.wiring U.served L.noted L.is_listening self.old) ≡ true }
        ensures says { EndSays (view_of T.wiring U.served L.noted L.is_listening self.old) (view_of T.wiring U.served L.noted L.is_listening self.new) result }
        ensures open { MayBePolled U.calling self.new }
    {
        let Work::Sending(message) = mem::replace(&mut self.work, Work::Free) else {
            unreachable!()
        };
        let event = Event::Send(SentMessage::new(message));
        match self.traced.step(&event) {
            Ok(_) => UpgradeTurn::Counted,
            Err(_) => {
                self.ending = Some(Ending::Broken);
                UpgradeTurn::Over(Err(UpgradeError::NoMemory))
            }
        }
    }
}

/// What an outcome of asking for a frame gave.
fn given_by(outcome: Outcome) -> Given
    ensures { result ≡ given_of outcome }
{
    match outcome {
        Outcome::Frame(frame) => Given::Frame(frame),
        Outcome::Pending => Given::Nothing,
        Outcome::Took(_) => Given::Other,
        Outcome::Head(_) => Given::Other,
        Outcome::Bytes(_) => Given::Other,
        Outcome::Trailers(_) => Given::Other,
        Outcome::BodyEnd => Given::Other,
        Outcome::Closed(_) => Given::Other,
        Outcome::Fault(_) => Given::Other,
        Outcome::Broken(_) => Given::Other,
        Outcome::Protocol(_) => Given::Other,
        Outcome::Refused(_) => Given::Other,
        Outcome::Gave(_) => Given::Other,
        Outcome::Expired(_) => Given::Other,
        Outcome::Abandoned => Given::Other,
        Outcome::Done => Given::Other,
    }
}
