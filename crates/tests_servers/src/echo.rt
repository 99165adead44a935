//! Echoes, by short writes, and a Close that was queued.
ghost use Rattle.ws_dispatcher.specs.Polls.{MayBePolled};
ghost use Rattle.tests_servers.specs.Calls.{answers_once};

use crate::services::{Ends, Served, sent, serve_text};
use futures::task::Poll;
use futures::test::MockTask;
use std::test::Fail;
use ws_dispatcher::inner;

/// A Ping of `p`, the text `Hello` and the two bytes 1, 2, as a client sends them: under the masks of RFC 6455, section
/// 5.7, and of zeros.
const THREE: &[u8] =
    b"\x89\x81\0\0\0\0p\x81\x85\x37\xfa\x21\x3d\x7f\x9f\x4d\x51\x58\x82\x82\0\0\0\0\x01\x02";

/// Their echoes.
const ECHOES: &[u8] = b"\x8a\x01p\x82\x05Hello\x82\x02\x01\x02";

/// Polls until it ends.
fn end_of(task: &MockTask, served: &mut Served) -> Result<Ends, Fail>
    requires open { MayBePolled answers_once served.old }
{
    for _ in 0..1000_u32 {
        if let Poll::Ready(ends) = task.poll(served) {
            return Ok(ends);
        }
        if !task.is_woken() {
            return Err(Fail::new("nobody wakes it"));
        }
    }
    Err(Fail::new("it does not end"))
}

#[test]
fn echoes_leave_by_short_writes(rt: HostRuntime) -> Result<(), Fail> {
    let task = MockTask::new(&rt)?;
    let room = [1_usize, 0, 2, 0, 0, 3].to_vec(rt.alloc())?;
    let mut served = serve_text(rt.alloc(), THREE, 5, room, Vec::new(rt.alloc()))?;
    assert!(rt; matches!(end_of(&task, &mut served)?, Ok(())));
    assert!(rt; sent(served, rt.alloc())?.as_slice() == ECHOES);
    Ok(())
}

#[test]
fn a_queued_close_ends_it_before_the_input_does(rt: HostRuntime) -> Result<(), Fail> {
    let task = MockTask::new(&rt)?;
    let mut served = serve_text(
        rt.alloc(),
        THREE,
        7,
        Vec::new(rt.alloc()),
        Vec::new(rt.alloc()),
    )?;
    served.send(Ok(inner::Message::Item(ws_frames::Message::Close(None))))?;
    served.send(Ok(inner::Message::Close))?;
    assert!(rt; served.queue_len() == 2);
    assert!(rt; matches!(end_of(&task, &mut served)?, Ok(())));
    assert!(rt; sent(served, rt.alloc())?.as_slice() == b"\x88\x00".as_slice());
    Ok(())
}
