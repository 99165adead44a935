//! The program but for `main`.
ghost use Rattle.std.specs.Prelude.{◌≡◌, ◌⊎◌, map, string_bytes};
ghost use Rattle.board_server.specs.ServerRuns.{SaysEnd, SaysAnswer, SaysTold};
ghost use Rattle.board_server.specs.Texts.{memory_text, unlike_text};
ghost use Rattle.board_server.specs.Writing.{Says};

use crate::acceptor_loop::serve;
use crate::report::print_report;
use crate::text::number_line;
use crate::visit::{Report, ServeFault};
use crate::words::read_words;
use crate::write::say;
use crate::{Gate, Recorders};
use h1_traced::Recorder;
use http_config::Sink;
use http_transport::{Acceptor, Clock, Transport};
use http_types::ServiceConfig;
use std::alloc::{AllocGlobal, Global};
use std::random::RandomSource;
use std::sync::Wait;
use std::sync::ledger::{Blank, Ledger};
use std::thread::Threads;

/// What came of a run: the status of the program, the acceptor, and what `serve` answered, where it was called.
#[derive(Drop)]
pub struct Run<D: Acceptor, Q: Recorders, M: Ledger> {
    /// The status of the program.
    pub status: u8,

    /// The acceptor.
    pub acceptor: D,

    /// What `serve` answered.
    pub end: Option<Result<Report<D::Conn, Q::Rec, M>, ServeFault<D::Conn, Q::Rec, M>>>,
}

/// Reads the words `PORT N POLLS`, opens the acceptor, serves with the settings that are the default, and writes the report.
/// With port 0 the system chooses one. `N` is at most 65536, and `POLLS` above 0.
///
/// The status is 0; 1 where the words are others, 2 where the acceptor failed, 3 where the journal isn't that of the passes, 5
/// where the sink failed, 7 where there was no memory. With each but 5 its text was written whole.
pub fn serve_run<D, K, G, Q, M, R, W, L, O>(
    rt: &R,
    words: &[String],
    acceptor: D,
    clock: K,
    gate: &G,
    recorders: Q,
    output: &mut O,
    blank: Blank,
) -> Run<D, Q, M>
where
    D: Acceptor<Conn = W>,
    W: Transport + Send,
    K: Clock + Copy + Send,
    G: Gate + Sync,
    Q: Recorders<Rec = L>,
    L: Recorder + Send,
    M: Ledger + Send + Sync,
    R: Threads + Wait + RandomSource + AllocGlobal + Sync,
    O: Sink,
    requires is_its_ledger { (blank.name ≡ M.name) × (blank.parts ≡ M.parts) }
    requires has_a_part_for_each_pass { M.parts ≡ 65536 }
    ensures end { SaysEnd (map (λ w. string_bytes w) words.now) (K.may_give clock) W.wiring L.noted (D.opening acceptor) (D.opening result.acceptor) result.end }
    ensures status { SaysAnswer (map (λ w. string_bytes w) words.now) result.end (D.opening acceptor) (D.opening result.acceptor) result.status (O.given output.old) (O.given output.new) (O.faults output.old) (O.faults output.new) }
{
    let Some(words) = read_words(words) else {
        return Run {
            status: say(output, b"usage: h1_serve PORT N POLLS\n", 1),
            acceptor,
            end: None,
        };
    };
    let mut acceptor = acceptor;
    if acceptor.open(words.port).is_err() {
        return Run {
            status: say(output, b"door fault\n", 2),
            acceptor,
            end: None,
        };
    }
    let ran = serve(
        rt,
        ServiceConfig::default(),
        acceptor,
        clock,
        gate,
        recorders,
        words.most,
        words.polls,
        blank,
    );
    let status = tell(rt.alloc(), &ran.end, output);
    Run {
        status,
        acceptor: ran.acceptor,
        end: Some(ran.end),
    }
}

/// Writes what came, and answers the status.
fn tell<W, L, M: Ledger, O: Sink>(
    alloc: Global,
    end: &Result<Report<W, L, M>, ServeFault<W, L, M>>,
    output: &mut O,
) -> u8
    ensures { SaysTold result end.now (O.given output.old) (O.given output.new) (O.faults output.old) (O.faults output.new) }
{
    match end {
        Ok(report) => print_report(alloc, report, output),
        Err(ServeFault::Acceptor(_)) => say(output, b"door fault\n", 2),
        Err(ServeFault::Unlike(differing)) => tell_unlike(alloc, differing.unlike.number, output),
        Err(ServeFault::NoMemory) => say(output, b"no memory\n", 7),
    }
}

/// Writes which pass has entries that aren't the journal's.
fn tell_unlike<O: Sink>(alloc: Global, number: u32, output: &mut O) -> u8
    ensures { Says result 3 (unlike_text number) (O.given output.old) (O.given output.new) (O.faults output.old) (O.faults output.new) ⊎ Says result 7 memory_text (O.given output.old) (O.given output.new) (O.faults output.old) (O.faults output.new) }
{
    match number_line(alloc, b"unlike ", u64::from(number)) {
        Ok(text) => say(output, text.as_slice(), 3),
        Err(_) => say(output, b"no memory\n", 7),
    }
}
