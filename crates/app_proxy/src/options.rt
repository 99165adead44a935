//! The words that the program is started with.
use crate::limits::Limits;
use std::net::{IpAddr, Ipv4Addr, SocketAddr};
use thiserror::Error;

pub const VERSION: &str = "app_proxy 0.1.0";

pub const HELP: &str = "app_proxy PORT SERVER [OPTIONS]

A reverse proxy for HTTP/1: what clients ask on this port is asked of one server, and its answers go back.

  PORT             the port of this machine; 0: the system chooses one
  SERVER           the server's port on this machine, or its address and port, as 127.0.0.1:8080 or [::1]:8080
  --bind ADDRESS   the address to listen on, of IPv4 or IPv6: 127.0.0.1 by default, which only this machine reaches;
                   0.0.0.0 and :: are all
  --trust-forwarded
                   keep what clients say of earlier clients (X-Forwarded-For, X-Forwarded-Proto, X-Forwarded-Host and
                   Forwarded), behind another proxy; by default it is replaced
  --lax            take heads that RFC 9112 refuses, as those without Host
  --limit NAME=NUMBER
                   another limit than the default, once for each; times are in milliseconds
  --quiet          write no line for each reply
  --ignore-input   go on where the standard input ends, as that of a service does at once
  --help           print this and end
  --version        print the version and end

The limits, and their defaults:

  clients=10000    the most clients at once; fewer where the system gives too few descriptors, of which each has two
  kept=128         the most connections to the server that wait to be used again
  head=5000        how long a client's first head may take
  idle=5000        how long a client may send nothing before its next head
  stall=30000      in so long a client that is to send
  least=1024       has to send so many bytes
  reader=60000     how long a client may take nothing of what waits for it
  gone=2000        how long a client whose input has ended is waited for until its answer begins, since it may have gone
  server=60000     how long the server may move nothing while it is waited for
  drain=2000       how long the rest of a body is dropped behind a whole reply
  linger=2000      how long a client is waited for after the last byte was written
  end=10000        how long a connection that ends has for what is left to write
  reuse=4000       how long a connection to the server may be idle and still be used again

With 0 for head or end there is no such limit, and with idle=0 a connection ends behind its first reply.

It ends where the standard input ends. A request gets 501 where it can't be sent on (CONNECT, another protocol, a target of
another scheme than http), 502 where the server isn't to be had, answers badly or sends nothing for too long, and 400 or 431
where it is malformed or too large, or its Host or its target isn't one by RFC 9112. Messages are written anew from what was
read: no client makes the server see a request that wasn't one. The server is told the host, the client's address
(X-Forwarded-For, X-Forwarded-Proto, X-Forwarded-Host, Forwarded) and who passes the request on (Via), as a client is of an
answer.

For each reply a line is written: the client's address, the date, the request and the status.

It ends with status 0, 1 where the system fails to tell what is ready, 2 for words out of form, 4 where the address can't
be listened on, and 5 where memory runs out.";

/// What the program is to do.
pub enum Command<'a> {
    Help,
    Version,
    Serve(Options<'a>),
}

/// Where clients come, where the server is, and when the program ends.
#[derive(Clone, Copy)]
pub struct Options<'a> {
    pub port: u16,
    pub server: &'a str,
    pub address: &'a str,

    /// What clients say of earlier clients goes on.
    pub trusts_clients: bool,

    /// Heads are taken that RFC 9112 refuses.
    pub is_lax: bool,

    pub limits: Limits,

    /// No line is written for a client.
    pub is_quiet: bool,

    /// It goes on where the standard input ends.
    pub ignores_input: bool,
}

impl Options<'_> {
    /// The address of the server, if it is one.
    pub fn server_address(&self) -> Option<SocketAddr> {
        if let Ok(port) = self.server.parse::<u16>() {
            return Some(SocketAddr::new(IpAddr::V4(Ipv4Addr::LOCALHOST), port));
        }
        self.server.parse::<SocketAddr>().ok()
    }
}

/// What is wrong with the words.
#[derive(Clone, Copy, Debug, Error)]
pub enum UsageError {
    #[error("a port and a server are wanted")]
    TooFew,

    #[error("there are too many words")]
    TooMany,

    #[error("the port has to be a number of at most 65535")]
    Port,

    #[error("--bind wants an address")]
    Bind,

    #[error("--limit wants NAME=NUMBER")]
    Limit,

    #[error("there is no such option")]
    Option,
}

/// Reads the words, without the program's name.
pub fn read(words: &[String]) -> Result<Command<'_>, UsageError> {
    let mut port = None;
    let mut server = None;
    let mut address = None;
    let mut trusts_clients = false;
    let mut is_lax = false;
    let mut limits = Limits::new();
    let mut is_quiet = false;
    let mut ignores_input = false;
    let mut rest = words.iter();
    while let Some(word) = rest.next() {
        match word.as_str() {
            "--help" | "-h" => return Ok(Command::Help),
            "--version" => return Ok(Command::Version),
            "--trust-forwarded" => trusts_clients = true,
            "--lax" => is_lax = true,
            "--quiet" => is_quiet = true,
            "--ignore-input" => ignores_input = true,
            "--limit" => {
                let word = rest.next().ok_or(UsageError::Limit)?;
                if !limits.set(word.as_str()) {
                    return Err(UsageError::Limit);
                }
            }
            "--bind" => address = Some(rest.next().ok_or(UsageError::Bind)?.as_str()),
            option if option.starts_with('-') => return Err(UsageError::Option),
            text if port.is_none() => {
                port = Some(text.parse::<u16>().map_err(|_| UsageError::Port)?);
            }
            text if server.is_none() => server = Some(text),
            _ => return Err(UsageError::TooMany),
        }
    }
    let (Some(port), Some(server)) = (port, server) else {
        return Err(UsageError::TooFew);
    };
    Ok(Command::Serve(Options {
        port,
        server,
        address: address.unwrap_or("127.0.0.1"),
        trusts_clients,
        is_lax,
        limits,
        is_quiet,
        ignores_input,
    }))
}
