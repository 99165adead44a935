//! What answers requests.
ghost use Rattle.std.specs.Prelude.{◌≡◌, Option, true};
ghost use Rattle.futures.specs.Task.{IsArmed, Keeps};
ghost use Rattle.futures.specs.Poll.{OnPending};
ghost use Rattle.http_services.specs.Serving.{Serving, Calling, ReadySays, CallSays, AnswerSays, BeginSays, PollSays, NeverFails};

use crate::lending::Lending;
use futures::task::{Context, Poll};

/// What answers requests.
///
/// A call is a value: [`Service::call`] makes it, and [`Service::poll_call`] is called with it until it answers. In each
/// poll the call is lent the queue of the request's body. It may pull from that, and put back bytes, which are counted:
/// no more bytes wait after a poll than waited before it and were put back in it.
pub trait Service<Req>: Drop {
    /// The answer of a request.
    type Response: Drop;

    /// Why there is none.
    type Error: Drop;

    /// A call that isn't answered yet.
    type Call: Drop;

    /// What a call is lent.
    type Lent: Lending;

    /// The calls and the answers so far, if they are known, and how often the service failed and was pending.
    ghost served: { Self → Serving Req Self.Response Self.Error };

    /// The service answers each request by this function of it, and so refuses none, if it says so.
    ghost echoes: { Option (Req → Self.Response) };

    /// Whether a call may be polled, and its request and what it took of what it was lent, if they are known.
    ghost calling: { Self.Call → Calling Req };

    /// Whether the service takes a call. A pending service wakes the task once it is to be asked again.
    fn poll_ready(&mut self, cx: &mut Context<'_>) -> Poll<Result<(), Self::Error>>
        ensures says { ReadySays (served self.old) (served self.new) result }
        ensures sure { NeverFails echoes result }
        ensures registered { OnPending result (IsArmed cx.new) }
        ensures kept { Keeps cx.old cx.new };

    /// Begins a call, which may be polled.
    fn call(&mut self, req: Req) -> Self::Call
        ensures says { CallSays (served self.old) (served self.new) req }
        ensures begins { BeginSays echoes req (calling result) };

    /// The answer of a call. A pending call wakes the task once it is to be polled again; one that was answered is
    /// polled no more.
    fn poll_call(
        &mut self,
        call: &mut Self::Call,
        lent: &mut Self::Lent,
        cx: &mut Context<'_>,
    ) -> Poll<Result<Self::Response, Self::Error>>
        requires is_open { (calling call.old).is_open ≡ true }
        ensures says { AnswerSays (served self.old) (served self.new) result }
        ensures polls { PollSays echoes (calling call.old) (calling call.new) (Self.Lent.lent lent.old) (Self.Lent.lent lent.new) result }
        ensures registered { OnPending result (IsArmed cx.new) }
        ensures kept { Keeps cx.old cx.new };
}
