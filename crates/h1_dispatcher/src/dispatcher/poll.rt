// A poll of a dispatcher.
ghost use Rattle.std.specs.Prelude.{◌≡◌};
ghost use Rattle.futures.specs.Poll.{OnPending};
ghost use Rattle.futures.specs.Task.{IsArmed, Keeps};
ghost use Rattle.h1_dispatcher.specs.View.{view_of, is_broken, MayBePolled};
ghost use Rattle.h1_dispatcher.specs.Polls.{PollSays, TurnsSay};

use crate::dispatcher::{Dispatcher, DispatcherTurn, Ending};
use futures::task::{Context, Poll};
use h1_traced::Recorder;
use http_bodies::MessageBody;
use http_services::Service;
use http_services::h1::Payload;
use http_transport::Transport;
use http_types::{DispatchError, Request, Response};

impl<T, S, L, B> Dispatcher<T, S, S::Call, L, B>
where
    T: Transport,
    S: Service<Request<(), ()>, Response = Response<B>, Error = Response<B>, Lent = Payload>,
    B: MessageBody,
    L: Recorder,
{
    /// Goes on, at this moment, in milliseconds after the start of 1970, which is none before that of the last poll.
    ///
    /// The moment is told to the connection, and then the drain, where it was asked for and is allowed. Then come at most
    /// 64 turns, of at most five steps each, each the first of these that is possible: what is buffered is written; a
    /// connection that closes tells its end, and the transport is shut down; the body of an answer is polled, where there is room
    /// for a piece of it, and what comes is handed on; the answer of the call in progress is handed on, once what is left of
    /// the request's body was dropped; a client that waits to be told to go on is told so, and then its request goes to the
    /// service, where there is room for the answer; more of the body is fed to its queue, where the queue wants it; the next
    /// head is asked for, where there is room for its answer; the input is read. While it closes nothing is read, no body is
    /// polled or fed, and no request is begun or answered.
    ///
    /// A request that is held back goes to no service, and its body isn't fed: then the input is read, and where none may be
    /// read the task is woken.
    ///
    /// It is pending where all that is needed is pending, or where its turns are spent: then the task is woken.
    ///
    /// Where memory didn't run out, no answer of the service is left at hand: each was handed on to the connection.
    ///
    /// # Errors
    ///
    /// `Parse`, `SlowRequestTimeout` and `Body` where the connection ended by such an end, and the transport is shut down: `Body`
    /// where an answer's body failed, or ended before the length that its answer had stated. `DisconnectTimeout` where the
    /// peer took too long to take what was left. `Io` where the transport failed. `NoMemory` where memory ran out, in a body too:
    /// what was noted stays a trace, and the last step may not have been noted. Where nobody listens, it runs out only for an
    /// event that takes some. From then on each poll answers `NoMemory` and does nothing. No other.
    pub fn poll(&mut self, moment: u64, cx: &mut Context<'_>) -> Poll<Result<(), DispatchError>>
        requires open { MayBePolled S.calling self.old }
        ensures says { PollSays (view_of T.wiring S.served S.calling B.gives L.noted L.is_listening self.old) (view_of T.wiring S.served S.calling B.gives L.noted L.is_listening self.new) cx.new moment result }
        ensures open { MayBePolled S.calling self.new }
        ensures registered { OnPending result (IsArmed cx.new) }
        ensures kept { Keeps cx.old cx.new }
    {
        if self.is_broken() {
            return Poll::Ready(Err(DispatchError::NoMemory));
        }
        match self.begin(moment) {
            Ok(()) => self.turns(cx),
            Err(_) => Poll::Ready(Err(DispatchError::NoMemory)),
        }
    }

    // Whether memory ran out.
    fn is_broken(&self) -> bool
        ensures { result ≡ is_broken (view_of T.wiring S.served S.calling B.gives L.noted L.is_listening self.now).ending }
    {
        match self.ending {
            None => false,
            Some(Ending::Closed(_)) => false,
            Some(Ending::Abandoned) => false,
            Some(Ending::Broken) => true,
        }
    }

    /// The turns.
    fn turns(&mut self, cx: &mut Context<'_>) -> Poll<Result<(), DispatchError>>
        requires open { MayBePolled S.calling self.old }
        ensures says { TurnsSay (view_of T.wiring S.served S.calling B.gives L.noted L.is_listening self.old) (view_of T.wiring S.served S.calling B.gives L.noted L.is_listening self.new) cx.new result }
        ensures open { MayBePolled S.calling self.new }
        ensures registered { OnPending result (IsArmed cx.new) }
        ensures kept { Keeps cx.old cx.new }
    {
        for turn in 0..64_u32 {
            match self.turn(cx) {
                DispatcherTurn::Counted => {}
                DispatcherTurn::Idle => return Poll::Pending,
                DispatcherTurn::Over(result) => return Poll::Ready(result),
            }
        }
        cx.yield_now()
    }
}
