// One turn of a dispatcher, and how it ends.
ghost use Rattle.std.specs.Prelude.{◌≡◌, Some, None};
ghost use Rattle.futures.specs.Task.{IsArmed, Keeps};
ghost use Rattle.h1_dispatcher.specs.View.{view_of, MayBePolled};
ghost use Rattle.h1_dispatcher.specs.Polls.{OnIdle, TurnSays, result_of};
ghost use Rattle.h1_dispatcher.specs.declared.dispatcher.Ending.TheVariants.{Closed};

use crate::dispatcher::{Dispatcher, DispatcherTurn, Ending};
use futures::task::{Context, Poll};
use h1_connection::End;
use h1_traced::Recorder;
use http_bodies::MessageBody;
use http_config::Failed;
use http_services::Service;
use http_services::h1::Payload;
use http_transport::Transport;
use http_types::{DispatchError, ParseError, Request, Response};

impl<T, S, L, B> Dispatcher<T, S, S::Call, L, B>
where
    T: Transport,
    S: Service<Request<(), ()>, Response = Response<B>, Error = Response<B>, Lent = Payload>,
    B: MessageBody,
    L: Recorder,
{
    /// One turn.
    #[tactic(auto, using(crate::proofs::Runs::stays_broken))]
    pub(super) fn turn(&mut self, cx: &mut Context<'_>) -> DispatcherTurn
        requires open { MayBePolled S.calling self.old }
        ensures says { TurnSays (view_of T.wiring S.served S.calling B.gives L.noted L.is_listening self.old) (view_of T.wiring S.served S.calling B.gives L.noted L.is_listening self.new) result }
        ensures open { MayBePolled S.calling self.new }
        ensures registered { OnIdle result (IsArmed cx.new) }
        ensures kept { Keeps cx.old cx.new }
    {
        match self.ending {
            None => self.write(cx),
            Some(Ending::Closed(end)) => self.shut(end, cx),
            Some(Ending::Abandoned) => DispatcherTurn::Over(Err(DispatchError::DisconnectTimeout)),
            Some(Ending::Broken) => DispatcherTurn::Over(Err(DispatchError::NoMemory)),
        }
    }

    /// Shuts the transport down.
    fn shut(&mut self, end: End, cx: &mut Context<'_>) -> DispatcherTurn
        requires open { MayBePolled S.calling self.old }
        requires ended { self.old.ending ≡ Some (Closed end) }
        ensures says { TurnSays (view_of T.wiring S.served S.calling B.gives L.noted L.is_listening self.old) (view_of T.wiring S.served S.calling B.gives L.noted L.is_listening self.new) result }
        ensures open { MayBePolled S.calling self.new }
        ensures registered { OnIdle result (IsArmed cx.new) }
        ensures kept { Keeps cx.old cx.new }
    {
        match self.transport.poll_shutdown(cx) {
            Poll::Pending => DispatcherTurn::Idle,
            Poll::Ready(Err(Failed)) => DispatcherTurn::Over(Err(DispatchError::Io)),
            Poll::Ready(Ok(())) => DispatcherTurn::Over(result_of_end(end)),
        }
    }
}

/// What a poll answers where the connection closed by this end.
fn result_of_end(end: End) -> Result<(), DispatchError>
    ensures { result ≡ result_of end }
{
    match end {
        End::Malformed => Err(DispatchError::Parse(ParseError::Header)),
        End::TooLarge => Err(DispatchError::Parse(ParseError::TooLarge)),
        End::SlowRequestTimeout => Err(DispatchError::SlowRequestTimeout),
        End::Body | End::BodyShort => Err(DispatchError::Body),
        End::KeepAliveExpired
        | End::Protocol
        | End::Asked
        | End::BrokenBody
        | End::UnreadBody
        | End::Drained
        | End::HalfClosed
        | End::InputEnded => Ok(()),
    }
}
