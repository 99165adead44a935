//! Counts for services that keep none.
ghost use Rattle.std.specs.Prelude.{◌≡◌};
ghost use Rattle.futures.specs.Task.{IsArmed, Keeps};
ghost use Rattle.futures.specs.Poll.{OnPending};
ghost use Rattle.http_services.specs.Lent.{LentBound};
ghost use Rattle.http_services.specs.Serving.{ReadySays, CallSays, BeginSays, AnswerSays, PollSays, unknown_service, unknown_call};

use crate::lending::Lending;
use crate::service::Service;
use futures::task::{Context, Poll};

/// A service that keeps no counts, and of which nothing is known beforehand. [`CountedService`] makes a [`Service`] of
/// it.
pub trait PlainService<Req>: Drop {
    /// The answer of a request.
    type Response: Drop;

    /// Why there is none.
    type Error: Drop;

    /// A call that isn't answered yet.
    type Call: Drop;

    /// What a call is lent.
    type Lent: Lending;

    ghost use Rattle.std.specs.Prelude.{⊤};
    ghost use Rattle.http_services.specs.Serving.{Readiness, Answering};

    /// What each method does: the service and what it is given before, the answer, and both after. It says nothing,
    /// unless the service says more.
    ghost readied: { Self → Readiness Self.Error → Self → Type 0 } = { λ _ _ _. ⊤ };

    /// The same of a call that begins.
    ghost began: { Self → Req → Self.Call → Self → Type 0 } = { λ _ _ _ _. ⊤ };

    /// The same of a call that is polled.
    ghost polled: { Self → Self.Call → Self.Lent → Answering Self.Response Self.Error → Self → Self.Call → Self.Lent → Type 0 } = { λ _ _ _ _ _ _ _. ⊤ };

    /// Whether the service takes a call. A pending service wakes the task once it is to be asked again.
    fn poll_ready(&mut self, cx: &mut Context<'_>) -> Poll<Result<(), Self::Error>>
        ensures readied { readied self.old result self.new }
        ensures registered { OnPending result (IsArmed cx.new) }
        ensures kept { Keeps cx.old cx.new };

    /// Begins a call.
    fn call(&mut self, req: Req) -> Self::Call
        ensures began { began self.old req result self.new };

    /// The answer of a call. A pending call wakes the task once it is to be polled again. What is lent has no more bytes
    /// after it than it had before and than were put back: pulls and `unread_data` keep this.
    fn poll_call(
        &mut self,
        call: &mut Self::Call,
        lent: &mut Self::Lent,
        cx: &mut Context<'_>,
    ) -> Poll<Result<Self::Response, Self::Error>>
        ensures polled { polled self.old call.old lent.old result self.new call.new lent.new }
        ensures bound { LentBound (Self.Lent.lent lent.old) (Self.Lent.lent lent.new) }
        ensures registered { OnPending result (IsArmed cx.new) }
        ensures kept { Keeps cx.old cx.new };
}

/// Counts the errors and the Pending answers of a service, as [`Service`] asks.
#[derive(Debug, Drop)]
pub struct CountedService<T> {
    inner: T,
    faults: u64,
    ready_waits: u64,
    call_waits: u64,
}

impl<T> CountedService<T> {
    /// Counts from 0.
    pub fn new(inner: T) -> CountedService<T>
        ensures { result ≡ record { inner = inner; faults = 0; ready_waits = 0; call_waits = 0 } }
    {
        CountedService {
            inner,
            faults: 0,
            ready_waits: 0,
            call_waits: 0,
        }
    }

    /// The service.
    pub fn inner(&self) -> &T
        ensures { result.now ≡ self.now.inner }
    {
        &self.inner
    }

    /// How often it failed, up to 2^64 - 1.
    pub fn faults(&self) -> u64
        ensures { result ≡ self.now.faults }
    {
        self.faults
    }

    /// How often it was pending when it was asked whether it takes a call, up to 2^64 - 1.
    pub fn ready_waits(&self) -> u64
        ensures { result ≡ self.now.ready_waits }
    {
        self.ready_waits
    }

    /// How often a call of it was pending, up to 2^64 - 1.
    pub fn call_waits(&self) -> u64
        ensures { result ≡ self.now.call_waits }
    {
        self.call_waits
    }
}

impl<Req: Drop, T: PlainService<Req>> Service<Req> for CountedService<T> {
    ghost use Rattle.std.specs.Prelude.{None};

    type Response = T::Response;

    type Error = T::Error;

    type Call = T::Call;

    type Lent = T::Lent;

    ghost served = { λ s. unknown_service s.faults s.ready_waits s.call_waits };

    ghost echoes = { None };

    ghost calling = { λ _. unknown_call };

    fn poll_ready(&mut self, cx: &mut Context<'_>) -> Poll<Result<(), T::Error>>
        ensures says { ReadySays {Q = Req} {A = T.Response} (unknown_service self.old.faults self.old.ready_waits self.old.call_waits) (unknown_service self.new.faults self.new.ready_waits self.new.call_waits) result }
        ensures handed_on { T.readied self.old.inner result self.new.inner }
        ensures registered { OnPending result (IsArmed cx.new) }
        ensures kept { Keeps cx.old cx.new }
    {
        match self.inner.poll_ready(cx) {
            Poll::Pending => {
                self.ready_waits = self.ready_waits.saturating_add(1);
                Poll::Pending
            }
            Poll::Ready(Err(error)) => {
                self.faults = self.faults.saturating_add(1);
                Poll::Ready(Err(error))
            }
            Poll::Ready(Ok(())) => Poll::Ready(Ok(())),
        }
    }

    fn call(&mut self, req: Req) -> T::Call
        ensures says { CallSays {A = T.Response} {E = T.Error} (unknown_service self.old.faults self.old.ready_waits self.old.call_waits) (unknown_service self.new.faults self.new.ready_waits self.new.call_waits) req }
        ensures handed_on { T.began self.old.inner req result self.new.inner }
    {
        self.inner.call(req)
    }

    fn poll_call(
        &mut self,
        call: &mut T::Call,
        lent: &mut T::Lent,
        cx: &mut Context<'_>,
    ) -> Poll<Result<T::Response, T::Error>>
        ensures says { AnswerSays {Q = Req} (unknown_service self.old.faults self.old.ready_waits self.old.call_waits) (unknown_service self.new.faults self.new.ready_waits self.new.call_waits) result }
        ensures handed_on { T.polled self.old.inner call.old lent.old result self.new.inner call.new lent.new }
        ensures bound { LentBound (T.Lent.lent lent.old) (T.Lent.lent lent.new) }
        ensures registered { OnPending result (IsArmed cx.new) }
        ensures kept { Keeps cx.old cx.new }
    {
        match self.inner.poll_call(call, lent, cx) {
            Poll::Pending => {
                self.call_waits = self.call_waits.saturating_add(1);
                Poll::Pending
            }
            Poll::Ready(Err(error)) => {
                self.faults = self.faults.saturating_add(1);
                Poll::Ready(Err(error))
            }
            Poll::Ready(Ok(answer)) => Poll::Ready(Ok(answer)),
        }
    }
}
