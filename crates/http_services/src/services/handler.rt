//! A service whose answers are there at once.
ghost use Rattle.std.specs.Prelude.{◌≡◌, true, is_some};
ghost use Rattle.futures.specs.Task.{IsArmed, Keeps};
ghost use Rattle.futures.specs.Poll.{OnPending};
ghost use Rattle.http_services.specs.Lent.{LentBound};
ghost use Rattle.http_services.specs.Serving.{AnswerSays, HandsOn, unknown_service};

use crate::h1::Payload;
use crate::lending::Lending;
use crate::service::Service;
use futures::task::{Context, Poll};
use std::marker::PhantomData;

/// What answers a request at once.
pub trait Handler<Req>: Drop {
    /// The answer of a request.
    type Response: Drop;

    /// Why there is none.
    type Error: Drop;

    ghost use Rattle.std.specs.Prelude.{⊤, Result};

    /// What it does: the handler before, the request, the answer, and the handler after. It says nothing, unless the
    /// handler says more.
    ghost handled: { Self → Req → Result Self.Response Self.Error → Self → Type 0 } = { λ _ _ _ _. ⊤ };

    /// The answer of this request.
    fn handle(&mut self, req: Req) -> Result<Self::Response, Self::Error>
        ensures handled { handled self.old req result self.new };
}

/// Answers each request by a handler, and reads nothing of what it is lent. Its errors are counted.
#[derive(Debug, Drop)]
pub struct FnService<H, L = Payload> {
    handler: H,
    faults: u64,
    lent: PhantomData<L>,
}

impl<H, L> FnService<H, L> {
    /// A service over the handler.
    pub fn new(handler: H) -> FnService<H, L>
        ensures { (result.handler ≡ handler) × (result.faults ≡ 0) }
    {
        FnService {
            handler,
            faults: 0,
            lent: PhantomData,
        }
    }
}

impl<Req: Drop, H: Handler<Req>, L: Lending> Service<Req> for FnService<H, L> {
    ghost use Rattle.std.specs.Prelude.{None};

    type Response = H::Response;

    type Error = H::Error;

    type Call = Option<Req>;

    type Lent = L;

    ghost served = { λ s. unknown_service s.faults 0 0 };

    ghost echoes = { None };

    ghost calling = { λ call. record { is_open = is_some call; asked = call; took = None } };

    fn poll_ready(&mut self, _cx: &mut Context<'_>) -> Poll<Result<(), H::Error>> {
        Poll::Ready(Ok(()))
    }

    fn call(&mut self, req: Req) -> Option<Req> {
        Some(req)
    }

    fn poll_call(
        &mut self,
        call: &mut Option<Req>,
        _lent: &mut L,
        _cx: &mut Context<'_>,
    ) -> Poll<Result<H::Response, H::Error>>
        requires is_open { is_some call.old ≡ true }
        ensures says { AnswerSays {Q = Req} (unknown_service self.old.faults 0 0) (unknown_service self.new.faults 0 0) result }
        ensures handed_on { HandsOn (λ req answer. H.handled self.old.handler req answer self.new.handler) call.old result }
        ensures bound { LentBound (L.lent _lent.old) (L.lent _lent.new) }
        ensures kept { Keeps _cx.old _cx.new }
    {
        let Some(req) = call.take() else {
            unreachable!()
        };
        match self.handler.handle(req) {
            Ok(answer) => Poll::Ready(Ok(answer)),
            Err(error) => {
                self.faults = self.faults.saturating_add(1);
                Poll::Ready(Err(error))
            }
        }
    }
}
