//! Refuses each upgrade.
ghost use Rattle.std.specs.Prelude.{◌≡◌, ◌<◌, ◌+◌, true};
ghost use Rattle.futures.specs.Task.{IsArmed, Keeps};
ghost use Rattle.futures.specs.Poll.{OnPending};
ghost use Rattle.http_services.specs.Serving.{AnswerSays, unknown_service, unknown_call};

use crate::service::Service;
use futures::task::{Context, Poll};
use http_types::{Error, Kind};
use std::marker::PhantomData;

/// Answers an error to each item of an upgraded connection, for a server that has no use for upgrades. `M` is what such
/// a connection would send.
#[derive(Debug, Drop)]
pub struct UpgradeHandler<M> {
    faults: u64,
    waits: u64,
    messages: PhantomData<M>,
}

impl<M> UpgradeHandler<M> {
    /// Both counts are 0.
    pub fn new() -> UpgradeHandler<M>
        ensures { (result.faults ≡ 0) × (result.waits ≡ 0) }
    {
        UpgradeHandler {
            faults: 0,
            waits: 0,
            messages: PhantomData,
        }
    }
}

impl<Req: Drop, M: Drop> Service<Req> for UpgradeHandler<M> {
    ghost use Rattle.std.specs.Prelude.{None};

    type Response = M;

    type Error = Error;

    type Call = ();

    type Lent = ();

    ghost served = { λ s. unknown_service s.faults 0 s.waits };

    ghost echoes = { None };

    ghost calling = { λ _. unknown_call };

    fn poll_ready(&mut self, _cx: &mut Context<'_>) -> Poll<Result<(), Error>>
        ensures ready { result ≡ Poll.Ready (Ok tt) }
        ensures same { self.new ≡ self.old }
        ensures kept { Keeps _cx.old _cx.new }
    {
        Poll::Ready(Ok(()))
    }

    fn call(&mut self, _req: Req) {}

    // An error comes with a count that rises, so there is none once the count stands at its end.
    fn poll_call(
        &mut self,
        _call: &mut (),
        _lent: &mut (),
        cx: &mut Context<'_>,
    ) -> Poll<Result<M, Error>>
        ensures says { AnswerSays {Q = Req} (unknown_service self.old.faults 0 self.old.waits) (unknown_service self.new.faults 0 self.new.waits) result }
        ensures refuses { self.old.faults < u64.MAX → result ≡ Poll.Ready (Err (record { kind = Kind.Ws; cause = None })) }
        ensures registered { OnPending result (IsArmed cx.new) }
        ensures kept { Keeps cx.old cx.new }
    {
        if self.faults == u64::MAX {
            self.waits = self.waits.saturating_add(1);
            return cx.yield_now();
        }
        self.faults += 1;
        Poll::Ready(Err(Error {
            kind: Kind::Ws,
            cause: None,
        }))
    }
}
