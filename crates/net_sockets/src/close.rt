//! An end that loses no answer.
use crate::clock::uptime;
use std::io::Read;
use std::net::{Shutdown, TcpStream};
use std::time::{Clock, Duration};

/// How long, and for how many bytes, a socket is still read from after its last byte was written.
#[derive(Clone, Copy, Debug, PartialEq, Eq)]
pub struct Linger {
    /// Milliseconds.
    pub milliseconds: u64,

    /// Bytes.
    pub bytes: usize,
}

/// Ends the side that writes, and then reads and drops what the peer still sends, until it ends too or the bounds are
/// reached. Without this the system answers bytes that nobody reads by a reset (RFC 7230, section 6.6), and the peer may
/// never see the last answer.
pub fn close_orderly<R: Clock>(rt: &R, stream: &TcpStream, linger: Linger) {
    if stream.shutdown(Shutdown::Write).is_err() {
        return;
    }
    let _ = stream.set_nonblocking(false);
    let Some(start) = uptime(rt) else {
        return;
    };
    let mut reader = stream;
    let mut rest = [0u8; 4096];
    let mut bytes = 0;
    // Each turn reads at least one byte, so that they are no more than the bytes.
    for _ in 0..linger.bytes {
        let now = uptime(rt).unwrap_or(u64::MAX);
        let left = linger
            .milliseconds
            .saturating_sub(now.saturating_sub(start));
        if left == 0 || bytes >= linger.bytes {
            return;
        }
        let _ = stream.set_read_timeout(Some(Duration::from_millis(left)));
        match reader.read(&mut rest) {
            Ok(0) | Err(_) => return,
            Ok(count) => bytes = bytes.saturating_add(count),
        }
    }
}
