//! A server over one board of counters: `app_counters PORT N POLLS`.
#![tactic(auto)]

ghost use Rattle.std.specs.Prelude.{◌≡◌};

mod clock;

use board_server::{GatedAcceptor, NoRecords, OpenGate, serve_run};
use clock::MachineClock;
use http_config::{Sink, StdSink};
use net_sockets::{Linger, TcpAcceptor};
use std::alloc::{AllocGlobal, Global};
use std::io::ErrorKind;
use std::marker::Brand;
use std::net::{Net, TcpListener, TcpStream};
use std::process::ExitCode;
use std::random::RandomSource;
use std::rt::Env;
use std::sync::Wait;
use std::sync::ledger::{Blank, Ledger};
use std::thread::Threads;
use std::time::Clock;
use std::{env, io};

/// How long a read or a write of a socket waits at most, in milliseconds.
const WAIT: u64 = 10;

/// What is still read after the last answer.
const LINGER: Linger = Linger {
    milliseconds: 2000,
    bytes: 65_536,
};

fn main(rt: HostRuntime) -> ExitCode {
    let words = match words(&rt) {
        Ok(words) => words,
        Err(error) if error.kind() == ErrorKind::OutOfMemory => return no_memory(&rt),
        // Words that aren't text are other words.
        Err(_) => Vec::new(rt.alloc()),
    };
    let mut output = StdSink::new(rt.stdout());
    let status = served::<Brand, _, _>(&rt, words.as_slice(), &mut output, Blank::new(65_536));
    ExitCode::from(status)
}

/// Runs over sockets and the machine's clock, and answers the status.
fn served<M, R, O>(rt: &R, words: &[String], output: &mut O, blank: Blank) -> u8
where
    M: Ledger + Send + Sync,
    R: Threads
        + Wait
        + RandomSource
        + AllocGlobal
        + Net<Stream = TcpStream, Listener = TcpListener>
        + Clock
        + Copy
        + Send
        + Sync
        + Drop,
    O: Sink,
    requires is_its_ledger { (blank.name ≡ M.name) × (blank.parts ≡ M.parts) }
    requires has_a_part_for_each_pass { M.parts ≡ 65536 }
{
    let ran = serve_run::<_, _, _, _, M, _, _, _, _>(
        rt,
        words,
        GatedAcceptor::new(TcpAcceptor::new(*rt, WAIT, LINGER)),
        MachineClock::new(*rt),
        &OpenGate,
        NoRecords,
        output,
        blank,
    );
    ran.status
}

// The status says it also where it can't be written.
fn no_memory(rt: &impl Print) -> ExitCode {
    let _ = println!(rt; "no memory");
    ExitCode::from(7)
}

// The program's arguments, without its name.
fn words(rt: &(impl Env + Alloc<A = Global>)) -> io::Result<Vec<String>> {
    Ok(env::args(rt)?.skip(1).collect(rt.alloc())?)
}
