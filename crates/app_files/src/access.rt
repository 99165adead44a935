//! The line that each request gets on standard error.
use crate::reply::Sent;
use http_files::{json_text, line_text, log_time};
use http_types::{RequestHead, Version};
use serve_blocking::Incoming;
use std::alloc::{AllocError, Global};
use std::net::SocketAddr;
use std::time::Instant;

/// What such a line says.
#[derive(Clone, Copy)]
pub enum LineForm {
    /// The peer, the method, the target, the status and the bytes of the body.
    Short,

    /// The time, the peer, the method, the target, the version, the status, the bytes of the body and the milliseconds.
    Long,

    /// The same in JSON.
    Json,
}

/// Writes the line of a request that was begun at this time. What can't be written is left out.
pub fn tell(
    rt: HostRuntime,
    form: LineForm,
    request: &Incoming<'_>,
    sent: Sent,
    begun: Option<Instant>,
) -> Result<(), AllocError> {
    let line = match form {
        LineForm::Short => short_line(rt.alloc(), request, sent)?,
        LineForm::Long => long_line(rt.alloc(), request, sent, passed(&rt, begun))?,
        LineForm::Json => json_line(rt.alloc(), request, sent, passed(&rt, begun))?,
    };
    let _ = eprintln!(rt; "{line}");
    Ok(())
}

// How many milliseconds have passed, by the clock that isn't set.
fn passed(rt: &HostRuntime, begun: Option<Instant>) -> u128 {
    match begun {
        Some(begun) => begun.elapsed(rt).map_or(0, |passed| passed.as_millis()),
        None => 0,
    }
}

fn short_line(alloc: Global, request: &Incoming<'_>, sent: Sent) -> Result<String, AllocError> {
    let peer = peer_text(alloc, request.peer())?;
    let method = request.head().method.as_str();
    let target = line_text(alloc, request.target().as_slice())?;
    let (status, length) = (sent.status.as_u16(), sent.length);
    format!(in alloc; "{peer} {method} {target} {status} {length}")
}

fn long_line(
    alloc: Global,
    request: &Incoming<'_>,
    sent: Sent,
    passed: u128,
) -> Result<String, AllocError> {
    let time = time_text(alloc, request.moment())?;
    let peer = peer_text(alloc, request.peer())?;
    let method = request.head().method.as_str();
    let target = line_text(alloc, request.target().as_slice())?;
    let version = version_text(request.head());
    let (status, length) = (sent.status.as_u16(), sent.length);
    format!(in alloc; "{time} {peer} {method} {target} {version} {status} {length} {passed}")
}

fn json_line(
    alloc: Global,
    request: &Incoming<'_>,
    sent: Sent,
    passed: u128,
) -> Result<String, AllocError> {
    let time = time_text(alloc, request.moment())?;
    let peer = peer_text(alloc, request.peer())?;
    let method = json_text(alloc, request.head().method.as_str().as_bytes())?;
    let target = json_text(alloc, request.target().as_slice())?;
    let version = version_text(request.head());
    let (status, length) = (sent.status.as_u16(), sent.length);
    format!(in alloc;
        "{{\"time\":\"{time}\",\"peer\":\"{peer}\",\"method\":\"{method}\",\"target\":\"{target}\",\"version\":\"{version}\",\"status\":{status},\"bytes\":{length},\"milliseconds\":{passed}}}"
    )
}

// When a request came, or a dash where no clock tells it.
fn time_text(alloc: Global, moment: Option<u64>) -> Result<String, AllocError> {
    match moment {
        Some(moment) => log_time(alloc, moment),
        None => String::from_str(alloc, "-"),
    }
}

// Who sent a request, or a dash where that isn't known.
fn peer_text(alloc: Global, peer: Option<SocketAddr>) -> Result<String, AllocError> {
    match peer {
        Some(peer) => format!(in alloc; "{peer}"),
        None => String::from_str(alloc, "-"),
    }
}

fn version_text(head: &RequestHead) -> &'static str {
    if head.version == Version::HTTP_10 {
        "HTTP/1.0"
    } else {
        "HTTP/1.1"
    }
}
