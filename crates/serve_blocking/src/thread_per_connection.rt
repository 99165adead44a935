//! A server: a listener, and a thread for each connection.
use crate::connection::host_stream;
use crate::{Handler, Handlers, Limits};
use http_types::{NoMemory, ServiceConfig};
use net_sockets::{AcceptError, Accepted, Listener, uptime};
use std::alloc::{AllocError, Global};
use std::io::{Read, Write};
use std::net::{Net, Shutdown, SocketAddr, TcpListener, TcpStream};
use std::sync::Arc;
use std::sync::atomic::{AtomicU64, Ordering};
use std::thread;
use std::thread::Threads;
use std::time::{Clock, Duration};

/// How many milliseconds a server waits that has no descriptors left, and between two looks at its open connections.
const PAUSE: u64 = 20;

const BUSY: &[u8] =
    b"HTTP/1.1 503 Service Unavailable\r\ncontent-length: 0\r\nconnection: close\r\n\r\n";

/// How many connections are open.
#[derive(Drop)]
pub struct Running {
    open: Arc<AtomicU64>,
}

impl Running {
    /// How many connections are open.
    pub fn open(&self) -> u64 {
        self.open.load(Ordering::SeqCst)
    }
}

/// Accepts connections, and serves each in a thread of its own, until the handlers say that the server is to end. Then no
/// further one is accepted, and those that are open get time to end.
///
/// `accept` waits for a connection. So whoever ends the server makes one, as `wake` does; a thread that has served a
/// connection does so where its handler says that the server is to end.
pub fn host<R, M: Handlers>(
    rt: &R,
    alloc: Global,
    listener: &Listener,
    config: ServiceConfig,
    handlers: &mut M,
    limits: Limits,
) -> Result<(), NoMemory>
where
    R: Clock
        + Net<Stream = TcpStream, Listener = TcpListener>
        + Threads
        + Copy
        + Send
        + Drop
        + 'static,
{
    let running = Running {
        open: Arc::new(alloc, AtomicU64::new(0))?,
    };
    let address = listener.address();
    for _ in 0..u64::MAX {
        if handlers.is_ending() {
            break;
        }
        match listener.accept() {
            Ok(_) if handlers.is_ending() => break,
            Ok(accepted) if running.open() >= limits.connections => refuse(&accepted.stream),
            // A connection for which there is no memory or no thread is dropped, and the others go on.
            Ok(accepted) => {
                let _ = start(
                    rt, alloc, &running, accepted, address, config, handlers, limits,
                );
            }
            Err(AcceptError::Gone) => {}
            Err(AcceptError::NoDescriptors | AcceptError::Failed) => {
                thread::sleep(rt, Duration::from_millis(PAUSE));
            }
        }
    }
    await_end(rt, &running, limits.end);
    Ok(())
}

// Starts a thread for a connection.
fn start<R, M: Handlers>(
    rt: &R,
    alloc: Global,
    running: &Running,
    accepted: Accepted,
    address: Option<SocketAddr>,
    config: ServiceConfig,
    handlers: &mut M,
    limits: Limits,
) -> Result<(), NoMemory>
where
    R: Clock
        + Net<Stream = TcpStream, Listener = TcpListener>
        + Threads
        + Copy
        + Send
        + Drop
        + 'static,
{
    let Accepted { stream, peer } = accepted;
    let mut handler = handlers.handler(peer)?;
    let open = running.open.clone()?;
    let rt = *rt;
    let _ = open.fetch_add(1, Ordering::SeqCst);
    let started = thread::spawn(&rt, move || {
        let _ended = host_stream(
            &rt,
            alloc,
            &stream,
            Some(peer),
            config,
            limits,
            &mut handler,
        );
        let _ = open.fetch_sub(1, Ordering::SeqCst);
        if handler.is_ending() {
            wake(&rt, address);
        }
    });
    if started.is_err() {
        let _ = running.open.fetch_sub(1, Ordering::SeqCst);
        return Err(AllocError);
    }
    Ok(())
}

/// Connects to a listener's address and ends the connection at once, so that its `accept` returns.
pub fn wake<R: Net<Stream = TcpStream>>(rt: &R, address: Option<SocketAddr>) {
    if let Some(address) = address {
        let _ = TcpStream::connect(rt, address);
    }
}

// Waits until no connection is open, and at most so many milliseconds.
fn await_end<R: Clock>(rt: &R, running: &Running, limit: u64) {
    let start = uptime(rt).unwrap_or(0);
    for _ in 0..limit {
        let passed = uptime(rt).unwrap_or(u64::MAX).saturating_sub(start);
        if running.open() == 0 || passed >= limit {
            return;
        }
        thread::sleep(rt, Duration::from_millis(PAUSE));
    }
}

// Says that there are too many connections, and ends this one. What the peer has sent by now is read, so that it isn't
// answered by a reset.
fn refuse(stream: &TcpStream) {
    let mut both = stream;
    let mut rest = [0u8; 4096];
    if stream.set_nonblocking(true).is_ok() {
        let _ = both.write(BUSY);
        let _ = stream.shutdown(Shutdown::Write);
        let _ = both.read(&mut rest);
    }
}
