//! Lets each request on.
ghost use Rattle.std.specs.Prelude.{◌≡◌};

use crate::service::Service;
use futures::task::{Context, Poll};
use http_bodies::BoxBody;
use http_types::Response;

/// Answers each request by that request, and so lets it on. It keeps nothing, and refuses none.
#[derive(Clone, Copy, Debug, PartialEq, Eq)]
pub struct ExpectHandler;

impl<Req: Drop> Service<Req> for ExpectHandler {
    ghost use Rattle.std.specs.Prelude.{Some, None, is_some};

    type Response = Req;

    type Error = Response<BoxBody>;

    type Call = Option<Req>;

    type Lent = ();

    ghost served = { λ _. record { called = None; answered = None; faults = 0; ready_waits = 0; call_waits = 0 } };

    ghost echoes = { Some (λ request. request) };

    ghost calling = { λ call. record { is_open = is_some call; asked = call; took = None } };

    fn poll_ready(&mut self, _cx: &mut Context<'_>) -> Poll<Result<(), Response<BoxBody>>> {
        Poll::Ready(Ok(()))
    }

    fn call(&mut self, req: Req) -> Option<Req>
        ensures begins { result ≡ Some req }
    {
        Some(req)
    }

    fn poll_call(
        &mut self,
        call: &mut Option<Req>,
        _lent: &mut (),
        _cx: &mut Context<'_>,
    ) -> Poll<Result<Req, Response<BoxBody>>> {
        match call.take() {
            Some(req) => Poll::Ready(Ok(req)),
            None => unreachable!(),
        }
    }
}
