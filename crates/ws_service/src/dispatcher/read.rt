// The input is read.
ghost use Rattle.std.specs.Prelude.{◌≡◌, ◌<◌, ◌≤◌, ℕ, List, None, true, false, length};
ghost use Rattle.futures.specs.Task.{IsArmed, Keeps};
ghost use Rattle.model_h1.specs.Event as on;
ghost use Rattle.ws_service.specs.View.{view_of, MayBePolled, allows, room};
ghost use Rattle.ws_service.specs.Polls.{OnIdle, ReadingSays};
ghost use Rattle.ws_service.specs.declared.dispatcher.UpgradeTurn.TheVariants.{Idle};

use crate::dispatcher::{Ending, UpgradeDispatcher, UpgradeTurn};
use crate::error::UpgradeError;
use crate::item::UpgradeItem;
use futures::task::{Context, Poll};
use h1_connection::{Message, READ_SIZE};
use h1_traced::Recorder;
use http_config::Failed;
use http_services::Service;
use http_transport::Transport;
use http_types::Error;

impl<T, U, L> UpgradeDispatcher<T, U, U::Call, L>
where
    T: Transport,
    U: Service<UpgradeItem, Response = Message, Error = Error, Lent = ()>,
    L: Recorder,
{
    /// Reads as far as the input may be held, until its end has come, or else waits.
    pub(super) fn read(&mut self, is_armed: bool, cx: &mut Context<'_>) -> UpgradeTurn
        requires open { MayBePolled U.calling self.old }
        requires running { self.old.ending ≡ None }
        requires armed { is_armed ≡ true → IsArmed cx.old }
        ensures says { ReadingSays (view_of T.wiring U.served L.noted L.is_listening self.old) (view_of T.wiring U.served L.noted L.is_listening self.new) result }
        ensures open { MayBePolled U.calling self.new }
        ensures registered { OnIdle result (IsArmed cx.new) }
        ensures kept { Keeps cx.old cx.new }
    {
        if self.is_input_ended {
            return wait(is_armed, cx);
        }
        let room = self.traced.connection().read_room();
        if room == 0 {
            return wait(is_armed, cx);
        }
        if !self.traced.connection().can_read() {
            return wait(is_armed, cx);
        }
        let mut buf = [0; READ_SIZE];
        self.read_into(&mut buf[..READ_SIZE.min(room)], cx)
    }

    fn read_into(&mut self, buf: &mut [u8], cx: &mut Context<'_>) -> UpgradeTurn
        requires open { MayBePolled U.calling self.old }
        requires running { self.old.ending ≡ None }
        requires some { 0 < length buf.old }
        requires fits { length buf.old ≤ room (view_of T.wiring U.served L.noted L.is_listening self.old) }
        requires read { (bytes : List ℕ) → allows (view_of T.wiring U.served L.noted L.is_listening self.old) (on.read bytes) ≡ true }
        requires eof { allows (view_of T.wiring U.served L.noted L.is_listening self.old) on.eof ≡ true }
        requires coming { self.old.is_input_ended ≡ false }
        ensures says { ReadingSays (view_of T.wiring U.served L.noted L.is_listening self.old) (view_of T.wiring U.served L.noted L.is_listening self.new) result }
        ensures open { MayBePolled U.calling self.new }
        ensures registered { OnIdle result (IsArmed cx.new) }
        ensures kept { Keeps cx.old cx.new }
    {
        match self.transport.poll_read(buf, cx) {
            Poll::Pending => UpgradeTurn::Idle,
            Poll::Ready(Err(Failed)) => UpgradeTurn::Over(Err(UpgradeError::Io)),
            Poll::Ready(Ok(0)) => {
                self.is_input_ended = true;
                UpgradeTurn::Counted
            }
            Poll::Ready(Ok(count)) => match self.traced.read(&buf[..count]) {
                Ok(_) => UpgradeTurn::Counted,
                Err(_) => {
                    self.ending = Some(Ending::Broken);
                    UpgradeTurn::Over(Err(UpgradeError::NoMemory))
                }
            },
        }
    }
}

/// Leaves the rest to another poll: the task hears of something already, or else asks for one.
pub(super) fn wait(is_armed: bool, cx: &mut Context<'_>) -> UpgradeTurn
    requires armed { is_armed ≡ true → IsArmed cx.old }
    ensures idle { result ≡ Idle }
    ensures armed { IsArmed cx.new }
    ensures kept { Keeps cx.old cx.new }
{
    if is_armed {
        return UpgradeTurn::Idle;
    }
    let _: Poll<()> = cx.yield_now();
    UpgradeTurn::Idle
}
