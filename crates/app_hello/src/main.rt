//! A whole server: `POST /echo` is answered with the body that it brings, `/silent` not at all, and all else with a
//! greeting. It listens on the port that it is given, ends after so many connections, and serves so many at once, where a
//! third number is given: `app_hello PORT CONNECTIONS [AT_ONCE]`.
#![tactic(auto)]

mod hello;

use hello::Hellos;
use http_types::ServiceConfig;
use net_sockets::Listener;
use serve_blocking::{Limits, host};
use std::env;
use std::process::ExitCode;

fn main(rt: HostRuntime) -> ExitCode {
    let alloc = rt.alloc();
    let mut numbers = [0u64; 3];
    let Ok(words) = env::args(&rt) else {
        return ExitCode::FAILURE;
    };
    for (number, word) in numbers.iter_mut().zip(words.skip(1)) {
        *number = word.parse().unwrap_or(0);
    }
    let [port, connections, at_once] = numbers;
    let port = u16::try_from(port).unwrap_or(0);
    let Ok(listener) = Listener::bind(&rt, ("127.0.0.1", port)) else {
        return ExitCode::FAILURE;
    };
    let mut hellos = Hellos::new(alloc, connections);
    let config = ServiceConfig::default();
    let mut limits = Limits::default();
    if at_once > 0 {
        limits.connections = at_once;
    }
    match host(&rt, alloc, &listener, config, &mut hellos, limits) {
        Ok(()) => ExitCode::SUCCESS,
        Err(_) => ExitCode::FAILURE,
    }
}
