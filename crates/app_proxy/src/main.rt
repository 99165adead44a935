//! A reverse proxy for HTTP/1: `app_proxy PORT SERVER`.
#![tactic(auto)]

mod access;
mod flow;
mod limits;
mod line;
mod link;
mod options;
mod places;
mod pool;
mod server;
mod slot;
mod standing;
mod token;
mod upstream;

use crate::access::AccessLog;
use crate::limits::{Limits, descriptors};
use crate::options::{Command, HELP, Options, VERSION};
use crate::server::{ServeError, Server, Target};
use http_types::{KeepAlive, ServiceConfig, ServiceConfigBuilder};
use std::alloc::Global;
use std::io::ErrorKind;
use std::net::{SocketAddr, TcpListener};
use std::process::ExitCode;
use std::rt::Env;
use std::{env, io};

/// The words are out of form.
const USAGE: u8 = 2;

/// The address can't be listened on.
const NO_PORT: u8 = 4;

/// Memory has run out.
const NO_MEMORY: u8 = 5;

fn main(rt: HostRuntime) -> ExitCode {
    let alloc = rt.alloc();
    let words = match words(&rt) {
        Ok(words) => words,
        Err(error) if error.kind() == ErrorKind::OutOfMemory => return ExitCode::from(NO_MEMORY),
        // Words that can't be had are wrong words.
        Err(_) => Vec::new(alloc),
    };
    match options::read(&words) {
        Ok(Command::Help) => print(rt, HELP),
        Ok(Command::Version) => print(rt, VERSION),
        Ok(Command::Serve(options)) => open(rt, &options),
        Err(error) => {
            let _ = eprintln!(rt; "app_proxy: {error}; --help says more");
            ExitCode::from(USAGE)
        }
    }
}

fn print(rt: HostRuntime, text: &str) -> ExitCode {
    match println!(rt; "{text}") {
        Ok(()) => ExitCode::SUCCESS,
        Err(_) => ExitCode::FAILURE,
    }
}

// The program's arguments, without its name.
fn words(rt: &(impl Env + Alloc<A = Global>)) -> io::Result<Vec<String>> {
    Ok(env::args(rt)?.skip(1).collect(rt.alloc())?)
}

fn open(rt: HostRuntime, options: &Options<'_>) -> ExitCode {
    let Some(server) = options.server_address() else {
        let _ = eprintln!(rt;
            "app_proxy: the server has to be a port of this machine, or an address and a port as 127.0.0.1:8080"
        );
        return ExitCode::from(USAGE);
    };
    let Some((listener, at)) = listen(rt, options.address, options.port) else {
        return ExitCode::from(NO_PORT);
    };
    let _ = eprintln!(rt; "app_proxy: http://{at}/ goes to http://{server}/");
    match run(rt, options, listener, server) {
        Ok(()) => ExitCode::SUCCESS,
        Err(error) => {
            let _ = eprintln!(rt; "app_proxy: {error}");
            match error {
                ServeError::NoMemory => ExitCode::from(NO_MEMORY),
                ServeError::Poll => ExitCode::FAILURE,
            }
        }
    }
}

fn run(
    rt: HostRuntime,
    options: &Options<'_>,
    listener: TcpListener,
    server: SocketAddr,
) -> Result<(), ServeError> {
    let listener = mio::net::TcpListener::from_std(listener);
    let log = AccessLog::new(rt, options.is_quiet);
    let target = Target {
        server,
        trusts_clients: options.trusts_clients,
        is_lax: options.is_lax,
    };
    let mut limits = options.limits;
    if let Some(count) = descriptors(rt) {
        limits.fit(count);
    }
    let mut forwarder = Server::new(rt, config(&limits), listener, target, limits, log)?;
    forwarder.run(!options.ignores_input)
}

// The settings of each connection.
fn config(limits: &Limits) -> ServiceConfig {
    ServiceConfigBuilder::new()
        .client_request_timeout(limits.head)
        .keep_alive(KeepAlive::Timeout(limits.idle))
        .client_disconnect_timeout(limits.end)
        .build()
}

// A socket that listens and doesn't wait, and its address. Why there is none is said.
fn listen(rt: HostRuntime, address: &str, port: u16) -> Option<(TcpListener, SocketAddr)> {
    let error = match listener(rt, address, port) {
        Ok(found) => return Some(found),
        Err(error) => error,
    };
    let why = match error.kind() {
        ErrorKind::AddrInUse => "the port is taken",
        ErrorKind::AddrNotAvailable | ErrorKind::NotFound | ErrorKind::InvalidInput => {
            "this machine has no such address"
        }
        ErrorKind::PermissionDenied => "this port may not be taken by this program",
        _ => "the system refuses to listen there",
    };
    let _ = eprintln!(rt; "app_proxy: can't listen on {address}, port {port}: {why}");
    None
}

fn listener(rt: HostRuntime, address: &str, port: u16) -> io::Result<(TcpListener, SocketAddr)> {
    let listener = TcpListener::bind(&rt, (address, port))?;
    listener.set_nonblocking(true)?;
    let at = listener.local_addr()?;
    Ok((listener, at))
}
