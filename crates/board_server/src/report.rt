//! The report of a board, written.
ghost use Rattle.board_server.specs.ServerRuns.{SaysReport};

use crate::text::report_text;
use crate::visit::Report;
use crate::write::say;
use http_config::Sink;
use std::alloc::Global;
use std::sync::ledger::Ledger;

/// Writes the line `calls C`, with the number of the journal's entries, and a line `NAME COUNT` for each name that the
/// journal speaks of, in the order of their bytes, with its counter.
///
/// It answers 0; or 5 where the sink failed; or 7 where there was no memory, and then it writes `no memory`.
pub fn print_report<W, L, M: Ledger, O: Sink>(
    alloc: Global,
    report: &Report<W, L, M>,
    output: &mut O,
) -> u8
    ensures { SaysReport report.now.board.journal result (O.given output.old) (O.given output.new) (O.faults output.old) (O.faults output.new) }
{
    match report_text(alloc, report.board.journal()) {
        Ok(text) => say(output, text.as_slice(), 0),
        Err(_) => say(output, b"no memory\n", 7),
    }
}
