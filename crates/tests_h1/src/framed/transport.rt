//! The codec over a transport in memory: a request comes, and its answer leaves by short writes.
use crate::framed::{Server, has_sent, over_transport};
use bytes::Bytes;
use futures::task::Poll;
use futures::test::MockTask;
use h1_codec::Message;
use http_framing::BodySize;
use http_types::Response;
use std::alloc::Global;
use std::test::Fail;

// Whether the head of a request comes.
fn is_asked(task: &MockTask, framed: &mut Server) -> bool {
    matches!(
        task.enter(|cx| framed.next_item(cx)),
        Poll::Ready(Some(Ok(Message::Item(_))))
    )
}

// Answers with a body of two bytes: whether all is taken.
fn is_answered(framed: &mut Server, alloc: Global) -> bool {
    let head = Message::Item((Response::ok(alloc), BodySize::Sized(2)));
    let is_begun = framed.write(head).is_ok();
    let body = Message::Chunk(Some(Bytes::from_static(b"hi")));
    let is_filled = framed.write(body).is_ok();
    let is_ended = framed.write(Message::Chunk(None)).is_ok();
    is_begun && is_filled && is_ended
}

// Whether what is written waits for the transport.
fn waits(task: &MockTask, framed: &mut Server) -> bool {
    matches!(task.enter(|cx| framed.flush(cx)), Poll::Pending)
}

// Whether the transport takes the rest.
fn leaves(task: &MockTask, framed: &mut Server) -> bool {
    matches!(task.enter(|cx| framed.flush(cx)), Poll::Ready(Ok(())))
}

const ANSWER: &[u8] =
    b"HTTP/1.1 200 OK\r\ncontent-length: 2\r\ndate: Thu, 01 Jan 1970 00:00:00 GMT\r\n\r\nhi";

#[test]
fn an_answer_leaves_by_short_writes(rt: HostRuntime) -> Result<(), Fail> {
    let task = MockTask::new(&rt)?;
    let mut pieces = Vec::new(rt.alloc());
    pieces.push(Bytes::from_static(b"GET /a HTTP/1.1\r\n\r\n"))?;
    let mut framed = over_transport(rt.alloc(), pieces, &[5, 0, 40])?;
    assert!(rt; is_asked(&task, &mut framed));
    assert!(rt; is_answered(&mut framed, rt.alloc()));
    assert!(rt; waits(&task, &mut framed) && has_sent(&mut framed, b"HTTP/"));
    assert!(rt; leaves(&task, &mut framed) && has_sent(&mut framed, ANSWER));
    Ok(())
}
