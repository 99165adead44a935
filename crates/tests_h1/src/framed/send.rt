//! An answer that is sent over a transport in memory.
use crate::framed::{has_sent, over_transport};
use futures::task::Poll;
use futures::test::MockTask;
use h1_codec::send_response;
use http_types::Response;
use std::test::Fail;

// No request was decoded, so the connection closes after the answer.
const ANSWER: &[u8] =
    b"HTTP/1.1 200 OK\r\ncontent-length: 2\r\nconnection: close\r\ndate: Thu, 01 Jan 1970 00:00:00 GMT\r\n\r\nhi";

// The transport takes 5 bytes, then it is pending, then it takes 40 and the rest.
#[test]
fn an_answer_leaves_by_short_writes(rt: HostRuntime) -> Result<(), Fail> {
    let task = MockTask::new(&rt)?;
    let framed = over_transport(rt.alloc(), Vec::new(rt.alloc()), &[5, 0, 40])?;
    let answer = Response::ok(rt.alloc()).set_body("hi");
    let mut sending = send_response(rt.alloc(), framed, answer);
    let first = task.enter(|cx| sending.poll(cx));
    assert!(rt; matches!(first, Poll::Pending));
    if !sending.is_open() {
        return Err("closed".into());
    }
    let Poll::Ready(Ok(mut framed)) = task.enter(|cx| sending.poll(cx)) else {
        return Err("not sent".into());
    };
    assert!(rt; !sending.is_open() && framed.is_write_buf_empty());
    assert!(rt; has_sent(&mut framed, ANSWER));
    Ok(())
}
