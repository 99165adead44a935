//! Bodies, gathered.
use bytes::Bytes;
use futures::task::Poll;
use futures::test::MockTask;
use http_services::{to_bytes, to_bytes_limited};
use std::alloc::Global;
use std::test::Fail;

const BODY: &[u8] = b"123";

fn is_gathered(task: &MockTask, alloc: Global) -> bool {
    let mut all = to_bytes(alloc, Bytes::from_static(BODY));
    match task.enter(|cx| all.poll(cx)) {
        Poll::Ready(Ok(bytes)) => bytes.as_slice() == BODY,
        _ => false,
    }
}

fn is_gathered_within(task: &MockTask, alloc: Global, limit: usize) -> bool {
    let mut enough = to_bytes_limited(alloc, Bytes::from_static(BODY), limit);
    match task.enter(|cx| enough.poll(cx)) {
        Poll::Ready(Ok(Ok(bytes))) => bytes.as_slice() == BODY,
        _ => false,
    }
}

fn is_beyond(task: &MockTask, alloc: Global, limit: usize) -> bool {
    let mut short = to_bytes_limited(alloc, Bytes::from_static(BODY), limit);
    matches!(task.enter(|cx| short.poll(cx)), Poll::Ready(Err(_)))
}

#[test]
fn bodies_are_gathered_up_to_a_limit(rt: HostRuntime) -> Result<(), Fail> {
    let task = MockTask::new(&rt)?;
    assert!(rt; is_gathered(&task, rt.alloc()));
    assert!(rt; is_gathered_within(&task, rt.alloc(), 10));
    assert!(rt; is_beyond(&task, rt.alloc(), 2));
    Ok(())
}
