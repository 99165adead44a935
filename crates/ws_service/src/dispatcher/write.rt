// What waits is written, and a connection that closes tells its end.
ghost use Rattle.std.specs.Prelude.{◌≡◌, ◌<◌, ℕ, Some, None, true, length};
ghost use Rattle.futures.specs.Task.{IsArmed, Keeps};
ghost use Rattle.model_state.specs.Local.{closing_by};
ghost use Rattle.model_h1.specs.Event as on;
ghost use Rattle.h1_connection.specs.EventMeaning.{setting_of, end_of};
ghost use Rattle.ws_service.specs.View.{view_of, MayBePolled, allows, allows_next, buffered};
ghost use Rattle.ws_service.specs.Polls.{OnIdle, TurnSays, AfterSays, EndSays};

use crate::dispatcher::read::wait;
use crate::dispatcher::{Ending, UpgradeDispatcher, UpgradeTurn};
use crate::error::UpgradeError;
use crate::item::UpgradeItem;
use futures::task::{Context, Poll};
use h1_connection::{End, Message};
use h1_traced::Recorder;
use http_config::Failed;
use http_services::Service;
use http_transport::Transport;
use http_types::Error;

impl<T, U, L> UpgradeDispatcher<T, U, U::Call, L>
where
    T: Transport,
    U: Service<UpgradeItem, Response = Message, Error = Error, Lent = ()>,
    L: Recorder,
{
    /// Writes what waits, or goes on where nothing does.
    pub(super) fn write(&mut self, cx: &mut Context<'_>) -> UpgradeTurn
        requires open { MayBePolled U.calling self.old }
        requires running { self.old.ending ≡ None }
        ensures says { TurnSays (view_of T.wiring U.served L.noted L.is_listening self.old) (view_of T.wiring U.served L.noted L.is_listening self.new) result }
        ensures open { MayBePolled U.calling self.new }
        ensures registered { OnIdle result (IsArmed cx.new) }
        ensures kept { Keeps cx.old cx.new }
    {
        if self.traced.connection().buffered() == 0 {
            return self.go_on(false, cx);
        }
        if !self.traced.connection().can_write() {
            return self.go_on(false, cx);
        }
        self.give(cx)
    }

    /// Gives the transport what waits. What it doesn't take waits on.
    fn give(&mut self, cx: &mut Context<'_>) -> UpgradeTurn
        requires open { MayBePolled U.calling self.old }
        requires running { self.old.ending ≡ None }
        requires some { 0 < length (buffered (view_of T.wiring U.served L.noted L.is_listening self.old)) }
        requires allowed { (count : ℕ) → allows (view_of T.wiring U.served L.noted L.is_listening self.old) (on.write count) ≡ true }
        ensures says { TurnSays (view_of T.wiring U.served L.noted L.is_listening self.old) (view_of T.wiring U.served L.noted L.is_listening self.new) result }
        ensures open { MayBePolled U.calling self.new }
        ensures registered { OnIdle result (IsArmed cx.new) }
        ensures kept { Keeps cx.old cx.new }
    {
        match self
            .transport
            .poll_write(self.traced.connection().stretch(), cx)
        {
            Poll::Pending => self.go_on(true, cx),
            Poll::Ready(Err(Failed)) => UpgradeTurn::Over(Err(UpgradeError::Io)),
            Poll::Ready(Ok(count)) => match self.traced.advance(count) {
                Ok(()) => UpgradeTurn::Counted,
                Err(_) => {
                    self.ending = Some(Ending::Broken);
                    UpgradeTurn::Over(Err(UpgradeError::NoMemory))
                }
            },
        }
    }

    /// Goes on with what is needed besides writing. Where the write was pending, the task hears of the transport already.
    fn go_on(&mut self, is_armed: bool, cx: &mut Context<'_>) -> UpgradeTurn
        requires open { MayBePolled U.calling self.old }
        requires running { self.old.ending ≡ None }
        requires armed { is_armed ≡ true → IsArmed cx.old }
        ensures says { AfterSays (view_of T.wiring U.served L.noted L.is_listening self.old) (view_of T.wiring U.served L.noted L.is_listening self.new) result }
        ensures open { MayBePolled U.calling self.new }
        ensures registered { OnIdle result (IsArmed cx.new) }
        ensures kept { Keeps cx.old cx.new }
    {
        match self.traced.connection().closing() {
            None => self.serve(is_armed, cx),
            Some(end) => self.close(end, is_armed, cx),
        }
    }

    /// Has a connection that closes tell its end, once all is written.
    fn close(&mut self, end: End, is_armed: bool, cx: &mut Context<'_>) -> UpgradeTurn
        requires open { MayBePolled U.calling self.old }
        requires running { self.old.ending ≡ None }
        requires closing { closing_by (setting_of (view_of T.wiring U.served L.noted L.is_listening self.old).traced.state.settings) (view_of T.wiring U.served L.noted L.is_listening self.old).traced.state.kept ≡ Some (end_of end) }
        requires armed { is_armed ≡ true → IsArmed cx.old }
        ensures says { AfterSays (view_of T.wiring U.served L.noted L.is_listening self.old) (view_of T.wiring U.served L.noted L.is_listening self.new) result }
        ensures open { MayBePolled U.calling self.new }
        ensures registered { OnIdle result (IsArmed cx.new) }
        ensures kept { Keeps cx.old cx.new }
    {
        if self.traced.connection().can_next() {
            return self.tell_end(end);
        }
        if self.traced.connection().can_write() {
            return wait(is_armed, cx);
        }
        UpgradeTurn::Over(Err(UpgradeError::NotUpgraded))
    }

    fn tell_end(&mut self, end: End) -> UpgradeTurn
        requires open { MayBePolled U.calling self.old }
        requires running { self.old.ending ≡ None }
        requires closing { closing_by (setting_of (view_of T.wiring U.served L.noted L.is_listening self.old).traced.state.settings) (view_of T.wiring U.served L.noted L.is_listening self.old).traced.state.kept ≡ Some (end_of end) }
        requires allowed { allows_next (view_of T.wiring U.served L.noted L.is_listening self.old) ≡ true }
        ensures says { EndSays (view_of T.wiring U.served L.noted L.is_listening self.old) (view_of T.wiring U.served L.noted L.is_listening self.new) result }
        ensures open { MayBePolled U.calling self.new }
    {
        match self.traced.next() {
            Ok(_) => {
                self.ending = Some(Ending::Closed(end));
                UpgradeTurn::Counted
            }
            Err(_) => {
                self.ending = Some(Ending::Broken);
                UpgradeTurn::Over(Err(UpgradeError::NoMemory))
            }
        }
    }
}
