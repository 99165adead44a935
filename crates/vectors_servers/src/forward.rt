//! Exchanges through a forwarder, each whole and in pieces: what its owner does, and what goes to either side. A file has
//! blocks; the crate's page says what their lines mean.
mod replies;

use crate::forward::replies::put_replies;
use proxy::{Edge, Proxy, ProxyConfig, ServiceConfig};
use std::alloc::Global;
use std::net::{IpAddr, Ipv4Addr, SocketAddr};
use vectors::{CaseError, Cursor, PiecePlayer, Report, read_joined};

/// What is written where a call may not be made.
const MISPLACED: &str = "misplaced";

/// The longest pieces in which what is read is brought, besides whole.
const LONGEST_PIECE: usize = 8;

/// Plays exchanges through a forwarder.
#[derive(Clone, Copy, Debug)]
pub struct Forwards;

impl PiecePlayer for Forwards {
    fn kind(&self) -> &str {
        "exchanges"
    }

    /// A script with the line `whole` is played with all bytes of a line at once alone.
    fn longest_piece(&self, script: &[&[u8]]) -> usize {
        if script.iter().any(|line| *line == b"whole".as_slice()) {
            return 0;
        }
        LONGEST_PIECE
    }

    fn play(
        &self,
        alloc: Global,
        script: &[&[u8]],
        size: usize,
        found: &mut Report,
    ) -> Result<(), CaseError> {
        let config = ProxyConfig {
            connections: ServiceConfig::default(),
            edge: edge(alloc)?,
        };
        let mut proxy = Proxy::new(alloc, config);
        take_all(alloc, &mut proxy, script, size, found)
    }
}

// That of a client at port 4711 of 192.0.2.1, whose server is at port 81 of 127.0.0.1.
fn edge(alloc: Global) -> Result<Edge, CaseError> {
    let client = SocketAddr::new(IpAddr::V4(Ipv4Addr::new(192, 0, 2, 1)), 4711);
    let server = SocketAddr::new(IpAddr::V4(Ipv4Addr::new(127, 0, 0, 1)), 81);
    Edge::new(alloc, client, server).map_err(|_| CaseError::NoMemory)
}

// Does what the lines say, and writes what each gets.
fn take_all(
    alloc: Global,
    proxy: &mut Proxy,
    script: &[&[u8]],
    size: usize,
    found: &mut Report,
) -> Result<(), CaseError> {
    for line in script {
        take(alloc, proxy, line, size, found)?;
        found.put_text("\n");
    }
    Ok(())
}

// Does what the line says, and writes what that gets.
fn take(
    alloc: Global,
    proxy: &mut Proxy,
    line: &[u8],
    size: usize,
    found: &mut Report,
) -> Result<(), CaseError> {
    let mut cursor = Cursor::new(line);
    let word = cursor.word();
    cursor.pass_blanks();
    match word {
        b"client" => {
            let bytes = read_joined(alloc, &mut cursor)?;
            read_client(proxy, bytes.as_slice(), size, found);
        }
        b"server" => {
            let bytes = read_joined(alloc, &mut cursor)?;
            read_server(proxy, bytes.as_slice(), size, found);
        }
        b"replies" => noted(alloc, proxy, found),
        _ => return plain(proxy, word, found),
    }
    Ok(())
}

// The lines that have no words but their name.
fn plain(proxy: &mut Proxy, word: &[u8], found: &mut Report) -> Result<(), CaseError> {
    match word {
        b"whole" => found.put_text("done"),
        b"client-eof" => found.put_done(proxy.client_eof()),
        b"server-eof" => server_eof(proxy, found),
        b"connect" => connect(proxy, found),
        b"refuse" => refuse(proxy, found),
        b"sent" => sent(proxy, found),
        b"reply" => reply(proxy, found),
        b"state" => state(proxy, found),
        b"note" => note(proxy, found),
        _ => return Err(CaseError::Unreadable),
    }
    Ok(())
}

// `client "BYTES"`: bytes come from the client. Where its connection is to end, no more are brought.
fn read_client(proxy: &mut Proxy, bytes: &[u8], size: usize, found: &mut Report) {
    let mut rest = bytes;
    for _ in 0..bytes.len() {
        if rest.is_empty() {
            break;
        }
        let (piece, others) = rest.split_at(size.min(rest.len()));
        let Ok(count) = proxy.read_client(piece) else {
            return found.lose();
        };
        if proxy.closing().is_some() {
            return found.put_text("closing");
        }
        if count < piece.len() {
            return found.put_text("not all");
        }
        rest = others;
    }
    found.put_text("done");
}

// `server "BYTES"`: bytes come from the server. Where its connection is closed, no more are brought.
fn read_server(proxy: &mut Proxy, bytes: &[u8], size: usize, found: &mut Report) {
    let mut rest = bytes;
    for _ in 0..bytes.len() {
        if rest.is_empty() {
            break;
        }
        let (piece, others) = rest.split_at(size.min(rest.len()));
        let Ok(count) = proxy.read_server(piece) else {
            return found.lose();
        };
        if !proxy.has_server() {
            return found.put_text("closed");
        }
        if count < piece.len() {
            return found.put_text("not all");
        }
        rest = others;
    }
    found.put_text("done");
}

fn server_eof(proxy: &mut Proxy, found: &mut Report) {
    if !proxy.can_read_server() {
        return found.put_text(MISPLACED);
    }
    found.put_done(proxy.server_eof());
}

fn connect(proxy: &mut Proxy, found: &mut Report) {
    if !proxy.wants_server() {
        return found.put_text(MISPLACED);
    }
    found.put_done(proxy.connected());
}

fn refuse(proxy: &mut Proxy, found: &mut Report) {
    if !proxy.wants_server() {
        return found.put_text(MISPLACED);
    }
    found.put_done(proxy.refused());
}

// `sent`: all that waits towards the server is written.
fn sent(proxy: &mut Proxy, found: &mut Report) {
    found.put_quoted(proxy.server_front());
    if proxy.can_write_server() {
        let len = proxy.server_front().len();
        found.need(proxy.advance_server(len));
    }
}

// `reply`: all that waits towards the client is written.
fn reply(proxy: &mut Proxy, found: &mut Report) {
    found.put_quoted(proxy.client_front());
    if proxy.can_write_client() {
        let len = proxy.client_front().len();
        found.need(proxy.advance_client(len));
    }
}

// `note`: from now on replies are noted.
fn note(proxy: &mut Proxy, found: &mut Report) {
    proxy.note_replies();
    found.put_text("done");
}

// `replies`: those that were noted since the last such line.
fn noted(alloc: Global, proxy: &mut Proxy, found: &mut Report) {
    let replies = proxy.take_replies();
    put_replies(alloc, replies.as_slice(), found);
}

// `state`: whether a server connection is wanted, there, or there and idle; and whether the client's is to end.
fn state(proxy: &Proxy, found: &mut Report) {
    found.put_text(server_state(proxy));
    let is_closing = proxy.closing().is_some();
    found.put_text(if is_closing { " closing" } else { " open" });
}

fn server_state(proxy: &Proxy) -> &'static str {
    if proxy.wants_server() {
        return "wanted";
    }
    if proxy.is_reusable() {
        return "idle";
    }
    if proxy.has_server() {
        return "busy";
    }
    "none"
}
