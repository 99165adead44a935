//! The queue of a request's body, fed and pulled.
use bytes::Bytes;
use futures::task::Poll;
use futures::test::MockTask;
use http_services::{PayloadStatus, h1};
use http_types::PayloadError;
use http_types::header::HeaderMap;
use std::alloc::Global;
use std::test::Fail;

/// What the next poll of a queue gives.
#[derive(Clone, Copy, PartialEq, Eq)]
enum Gave {
    /// The chunk that was expected.
    Chunk,
    Another,
    CutOff,
    Fault,
    End,
    Nothing,
}

/// Polls once, and compares a chunk with this one.
fn poll_once(task: &MockTask, queue: &mut h1::Payload, chunk: &[u8]) -> Gave {
    match task.enter(|cx| queue.poll_next(cx)) {
        Poll::Ready(Some(Ok(piece))) if piece.as_slice() == chunk => Gave::Chunk,
        Poll::Ready(Some(Ok(_))) => Gave::Another,
        Poll::Ready(Some(Err(PayloadError::Incomplete))) => Gave::CutOff,
        Poll::Ready(Some(Err(_))) => Gave::Fault,
        Poll::Ready(None) => Gave::End,
        Poll::Pending => Gave::Nothing,
    }
}

/// Feeds a chunk, puts one before it, and cuts the body off: whether the chunk woke the task.
fn feed(task: &MockTask, queue: &mut h1::Payload) -> Result<bool, Fail> {
    queue.sender().feed_data(Bytes::from_static(b"a"))?;
    let is_woken = task.is_woken();
    queue.unread_data(Bytes::from_static(b"b"))?;
    queue.sender().set_error(PayloadError::Incomplete);
    Ok(is_woken)
}

#[test]
fn the_queue_gives_in_order_and_wakes(rt: HostRuntime) -> Result<(), Fail> {
    let task = MockTask::new(&rt)?;
    let mut queue = h1::Payload::create(rt.alloc(), false);
    assert!(rt; poll_once(&task, &mut queue, b"") == Gave::Nothing && !task.is_woken());
    assert!(rt; feed(&task, &mut queue)?);
    assert!(rt; poll_once(&task, &mut queue, b"b") == Gave::Chunk);
    assert!(rt; poll_once(&task, &mut queue, b"a") == Gave::Chunk);
    assert!(rt; poll_once(&task, &mut queue, b"") == Gave::CutOff);
    Ok(())
}

/// A queue that holds 32,768 bytes, as many as it takes before it pauses its feeder.
fn full(alloc: Global) -> Result<h1::Payload, Fail> {
    let mut queue = h1::Payload::create(alloc, false);
    let bytes = Bytes::from_vec(vec![in alloc; 0_u8; 32_768]?)?;
    queue.sender().feed_data(bytes)?;
    Ok(queue)
}

fn asks(task: &MockTask, queue: &mut h1::Payload) -> PayloadStatus {
    task.enter(|cx| queue.sender().need_read(cx))
}

#[test]
fn a_full_queue_pauses_its_feeder(rt: HostRuntime) -> Result<(), Fail> {
    let task = MockTask::new(&rt)?;
    let mut queue = full(rt.alloc())?;
    assert!(rt; asks(&task, &mut queue) == PayloadStatus::Pause && !task.is_woken());
    assert!(rt; poll_once(&task, &mut queue, &[0_u8; 32_768]) == Gave::Chunk);
    assert!(rt; asks(&task, &mut queue) == PayloadStatus::Read);
    queue.drop_receiver();
    assert!(rt; asks(&task, &mut queue) == PayloadStatus::Dropped);
    Ok(())
}

/// Whether trailers are there only once they were set, with the end of the body behind them.
fn gives_trailers(task: &MockTask, queue: &mut h1::Payload, trailers: HeaderMap) -> bool {
    let were_none = queue.trailers().is_none();
    queue.sender().set_trailers(trailers);
    queue.sender().feed_eof();
    queue.sender().close_sender();
    let has_ended = poll_once(task, queue, b"") == Gave::End;
    were_none && has_ended && queue.trailers().is_some()
}

#[test]
fn trailers_come_with_the_end(rt: HostRuntime) -> Result<(), Fail> {
    let task = MockTask::new(&rt)?;
    let mut queue = h1::Payload::create(rt.alloc(), false);
    assert!(rt; gives_trailers(&task, &mut queue, HeaderMap::new(rt.alloc())));
    Ok(())
}
