//! Serves one HTTP/1 connection over standard input and output: each request is answered with the body that it
//! brought. It shows a server's loop over a `Connection`. `app_echo MOMENT` has its clock stand at this moment, in
//! milliseconds since 1970.
#![tactic(auto)]

mod serve;
mod standing;

use h1_connection::{End, ServiceConfigBuilder, StdSink, StdSource};
use net_sockets::SystemClock;
use serve::ServeError;
use standing::StandingClock;
use std::env;
use std::process::ExitCode;
use std::rt::Env;

fn main(rt: HostRuntime) -> ExitCode {
    match run(rt) {
        Ok(_) => ExitCode::SUCCESS,
        Err(error) => {
            // Where it can't be said, the status still tells that the connection wasn't served to its end.
            let _ = eprintln!(rt; "app_echo: {error}");
            ExitCode::FAILURE
        }
    }
}

fn run(rt: HostRuntime) -> Result<End, ServeError> {
    let mut input = StdSource::new(rt.stdin());
    let mut output = StdSink::new(rt.stdout());
    let config = ServiceConfigBuilder::new().build();
    match named_moment(&rt) {
        Some(moment) => {
            let mut clock = StandingClock { moment };
            serve::serve(rt.alloc(), config, &mut input, &mut output, &mut clock)
        }
        None => {
            let mut clock = SystemClock::new(rt);
            serve::serve(rt.alloc(), config, &mut input, &mut output, &mut clock)
        }
    }
}

// The moment that the first argument names, where it is a number.
fn named_moment(rt: &HostRuntime) -> Option<u64> {
    let word = env::args(rt).ok()?.nth(1)?;
    word.parse().ok()
}
