//! Services, called.
use bytes::Bytes;
use futures::task::{Context, Poll};
use futures::test::MockTask;
use http_services::{CountedService, ExpectHandler, PlainService, Service, UpgradeHandler, h1};
use http_types::PayloadError;
use std::test::Fail;

/// Counts the bytes of a request's body, one chunk in each poll.
#[derive(Drop)]
struct Length;

impl PlainService<u32> for Length {
    type Response = usize;

    type Error = PayloadError;

    type Call = usize;

    type Lent = h1::Payload;

    fn poll_ready(&mut self, _cx: &mut Context<'_>) -> Poll<Result<(), PayloadError>> {
        Poll::Ready(Ok(()))
    }

    fn call(&mut self, _req: u32) -> usize {
        0
    }

    fn poll_call(
        &mut self,
        call: &mut usize,
        lent: &mut h1::Payload,
        cx: &mut Context<'_>,
    ) -> Poll<Result<usize, PayloadError>> {
        match lent.poll_next(cx) {
            Poll::Ready(Some(Ok(piece))) => {
                *call = call.saturating_add(piece.len());
                cx.yield_now()
            }
            Poll::Ready(Some(Err(error))) => Poll::Ready(Err(error)),
            Poll::Ready(None) => Poll::Ready(Ok(*call)),
            Poll::Pending => Poll::Pending,
        }
    }
}

type Lengths = CountedService<Length>;

/// Polls a call once.
fn poll(
    task: &MockTask,
    service: &mut Lengths,
    call: &mut usize,
    queue: &mut h1::Payload,
) -> Poll<Result<usize, PayloadError>> {
    task.enter(|cx| service.poll_call(call, queue, cx))
}

#[test]
fn a_service_reads_what_it_is_lent(rt: HostRuntime) -> Result<(), Fail> {
    let task = MockTask::new(&rt)?;
    let mut service = CountedService::new(Length);
    let mut queue = h1::Payload::create(rt.alloc(), true);
    queue.sender().feed_data(Bytes::from_static(b"abc"))?;
    let mut call = service.call(1);
    assert!(rt;
        matches!(
            poll(&task, &mut service, &mut call, &mut queue),
            Poll::Pending
        )
    );
    assert!(rt;
        matches!(
            poll(&task, &mut service, &mut call, &mut queue),
            Poll::Ready(Ok(3))
        )
    );
    assert!(rt; service.call_waits() == 1 && service.faults() == 0);
    Ok(())
}

#[test]
fn requests_go_on_and_upgrades_do_not(rt: HostRuntime) -> Result<(), Fail> {
    let task = MockTask::new(&rt)?;
    let mut expect = ExpectHandler;
    let polled = task.enter(|cx| {
        let mut call = expect.call(7_u32);
        expect.poll_call(&mut call, &mut (), cx)
    });
    assert!(rt; matches!(polled, Poll::Ready(Ok(7))));
    let mut upgrade: UpgradeHandler<u8> = UpgradeHandler::new();
    Service::<u32>::call(&mut upgrade, 7);
    assert!(rt;
        matches!(
            task.enter(|cx| Service::<u32>::poll_call(&mut upgrade, &mut (), &mut (), cx)),
            Poll::Ready(Err(_))
        )
    );
    Ok(())
}
