// One turn, and the transport's shutdown.
ghost use Rattle.std.specs.Prelude.{◌≡◌, Some, None};
ghost use Rattle.futures.specs.Task.{IsArmed, Keeps};
ghost use Rattle.ws_service.specs.View.{view_of, MayBePolled};
ghost use Rattle.ws_service.specs.Polls.{OnIdle, TurnSays};
ghost use Rattle.ws_service.specs.declared.dispatcher.Ending.TheVariants.{Closed};

use crate::dispatcher::{Ending, UpgradeDispatcher, UpgradeTurn};
use crate::error::UpgradeError;
use crate::item::UpgradeItem;
use futures::task::{Context, Poll};
use h1_connection::{End, Message};
use h1_traced::Recorder;
use http_config::Failed;
use http_services::Service;
use http_transport::Transport;
use http_types::Error;

impl<T, U, L> UpgradeDispatcher<T, U, U::Call, L>
where
    T: Transport,
    U: Service<UpgradeItem, Response = Message, Error = Error, Lent = ()>,
    L: Recorder,
{
    #[tactic(auto, using(crate::proofs::Runs::stays_broken, crate::proofs::Runs::stays_abandoned))]
    pub(super) fn turn(&mut self, cx: &mut Context<'_>) -> UpgradeTurn
        requires open { MayBePolled U.calling self.old }
        ensures says { TurnSays (view_of T.wiring U.served L.noted L.is_listening self.old) (view_of T.wiring U.served L.noted L.is_listening self.new) result }
        ensures open { MayBePolled U.calling self.new }
        ensures registered { OnIdle result (IsArmed cx.new) }
        ensures kept { Keeps cx.old cx.new }
    {
        match self.ending {
            None => self.write(cx),
            Some(Ending::Closed(end)) => self.shut(end, cx),
            Some(Ending::Abandoned) => UpgradeTurn::Over(Err(UpgradeError::DisconnectTimeout)),
            Some(Ending::Broken) => UpgradeTurn::Over(Err(UpgradeError::NoMemory)),
        }
    }

    /// Shuts the transport down.
    fn shut(&mut self, end: End, cx: &mut Context<'_>) -> UpgradeTurn
        requires open { MayBePolled U.calling self.old }
        requires ended { self.old.ending ≡ Some (Closed end) }
        ensures says { TurnSays (view_of T.wiring U.served L.noted L.is_listening self.old) (view_of T.wiring U.served L.noted L.is_listening self.new) result }
        ensures open { MayBePolled U.calling self.new }
        ensures registered { OnIdle result (IsArmed cx.new) }
        ensures kept { Keeps cx.old cx.new }
    {
        let _ = end;
        match self.transport.poll_shutdown(cx) {
            Poll::Pending => UpgradeTurn::Idle,
            Poll::Ready(Err(Failed)) => UpgradeTurn::Over(Err(UpgradeError::Io)),
            Poll::Ready(Ok(())) => UpgradeTurn::Over(Ok(())),
        }
    }
}
