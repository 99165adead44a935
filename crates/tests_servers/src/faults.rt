//! Transports that fail.
ghost use Rattle.ws_dispatcher.specs.Polls.{MayBePolled};
ghost use Rattle.tests_servers.specs.Calls.{answers_once};

use crate::services::{Ends, Served, sent, serve_text};
use futures::task::Poll;
use futures::test::MockTask;
use std::test::Fail;
use ws_dispatcher::DispatcherError;
use ws_frames::ProtocolError;

/// A Ping of `p`.
const PING: &[u8] = b"\x89\x81\0\0\0\0p";

/// Polls until it ends.
fn end_of(task: &MockTask, served: &mut Served) -> Result<Ends, Fail>
    requires open { MayBePolled answers_once served.old }
{
    for _ in 0..100_u32 {
        if let Poll::Ready(ends) = task.poll(served) {
            return Ok(ends);
        }
    }
    Err(Fail::new("it does not end"))
}

#[test]
fn each_failing_call_of_the_transport_ends_it(rt: HostRuntime) -> Result<(), Fail> {
    // The calls are a read, a write, a flush and the read of the end.
    for call in 0..4_usize {
        let task = MockTask::new(&rt)?;
        let fail = [call].to_vec(rt.alloc())?;
        let mut served = serve_text(rt.alloc(), PING, 100, Vec::new(rt.alloc()), fail)?;
        let ends = end_of(&task, &mut served)?;
        if call == 0 || call == 3 {
            assert!(rt; matches!(ends, Err(DispatcherError::Decoder(ProtocolError::Io))));
        } else {
            assert!(rt; matches!(ends, Err(DispatcherError::Encoder(ProtocolError::Io))));
        }
        let whole = sent(served, rt.alloc())?.as_slice() == b"\x8a\x01p".as_slice();
        assert!(rt; whole == (call > 1));
    }
    Ok(())
}
