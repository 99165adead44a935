// A poll.
ghost use Rattle.std.specs.Prelude.{◌≡◌};
ghost use Rattle.futures.specs.Poll.{OnPending};
ghost use Rattle.futures.specs.Task.{IsArmed, Keeps};
ghost use Rattle.ws_service.specs.View.{view_of, is_broken, MayBePolled};
ghost use Rattle.ws_service.specs.Polls.{PollSays, TurnsSay};

use crate::dispatcher::{Ending, UpgradeDispatcher, UpgradeTurn};
use crate::error::UpgradeError;
use crate::item::UpgradeItem;
use futures::task::{Context, Poll};
use h1_connection::Message;
use h1_traced::Recorder;
use http_services::Service;
use http_transport::Transport;
use http_types::Error;

impl<T, U, L> UpgradeDispatcher<T, U, U::Call, L>
where
    T: Transport,
    U: Service<UpgradeItem, Response = Message, Error = Error, Lent = ()>,
    L: Recorder,
{
    /// Goes on, at this moment, in milliseconds after the start of 1970, which is none before that of the last poll of this
    /// connection.
    ///
    /// The moment is told to the connection, and then the drain, where it was asked for and is allowed. Then come at most 64
    /// turns, of at most four steps each, each of which does the first of these that is possible: what waits is written; a
    /// connection that closes tells its end, and the transport is shut down; an answer that waits is sent, where there is room; the
    /// call in progress is polled; the service is called with what waits for it; the next frame is asked for; the input is read, or
    /// its end is told, once that has come and no frame is left. While it closes nothing is read, asked for or sent, and the service
    /// isn't called or polled.
    ///
    /// It is pending where all that is needed is pending, or where its turns are spent: then the task is woken.
    ///
    /// # Errors
    ///
    /// `Upgrade` where the service failed: an item that it wasn't ready for waits still, and after a call that failed the next
    /// frame is asked for where it is polled again. `Io` where the transport failed. `DisconnectTimeout` where the peer took too long
    /// to take what was left. `NotUpgraded` where the connection wasn't upgraded, or had ended before. `NoMemory` where memory ran out: what was noted is a trace still, and the last step may not have
    /// been noted. From then on each poll answers `NoMemory` and does nothing.
    pub fn poll(&mut self, moment: u64, cx: &mut Context<'_>) -> Poll<Result<(), UpgradeError>>
        requires open { MayBePolled U.calling self.old }
        ensures says { PollSays (view_of T.wiring U.served L.noted L.is_listening self.old) (view_of T.wiring U.served L.noted L.is_listening self.new) cx.new moment result }
        ensures open { MayBePolled U.calling self.new }
        ensures registered { OnPending result (IsArmed cx.new) }
        ensures kept { Keeps cx.old cx.new }
    {
        if self.is_broken() {
            return Poll::Ready(Err(UpgradeError::NoMemory));
        }
        match self.begin(moment) {
            Ok(()) => self.turns(cx),
            Err(_) => Poll::Ready(Err(UpgradeError::NoMemory)),
        }
    }

    // Whether memory ran out.
    fn is_broken(&self) -> bool
        ensures { result ≡ is_broken (view_of T.wiring U.served L.noted L.is_listening self.now).ending }
    {
        match self.ending {
            None => false,
            Some(Ending::Closed(_)) => false,
            Some(Ending::Abandoned) => false,
            Some(Ending::Broken) => true,
        }
    }

    fn turns(&mut self, cx: &mut Context<'_>) -> Poll<Result<(), UpgradeError>>
        requires open { MayBePolled U.calling self.old }
        ensures says { TurnsSay (view_of T.wiring U.served L.noted L.is_listening self.old) (view_of T.wiring U.served L.noted L.is_listening self.new) cx.new result }
        ensures open { MayBePolled U.calling self.new }
        ensures registered { OnPending result (IsArmed cx.new) }
        ensures kept { Keeps cx.old cx.new }
    {
        for turn in 0..64_u32 {
            match self.turn(cx) {
                UpgradeTurn::Counted => {}
                UpgradeTurn::Idle => return Poll::Pending,
                UpgradeTurn::Over(result) => return Poll::Ready(result),
            }
        }
        cx.yield_now()
    }
}
