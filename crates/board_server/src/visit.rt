//! What came of the connections of an acceptor.
use crate::{Recorders, ServeError};
use board::{Board, Carried, Unlike};
use http_transport::Acceptor;
use std::sync::ledger::Ledger;

/// A connection that was served.
#[derive(Drop)]
pub struct Visit<W, L> {
    /// The number of its pass.
    pub number: u32,

    /// How many calls of the board were made for it.
    pub calls: u64,

    /// Its transport.
    pub transport: W,

    /// Who noted its steps.
    pub recorder: L,

    /// How it ended.
    pub end: Result<(), ServeError>,
}

/// The board when all connections were served, and what came of each.
#[derive(Drop)]
pub struct Report<W, L, M: Ledger> {
    /// The board.
    pub board: Board<M>,

    /// What came of each connection.
    pub visits: Vec<Visit<W, L>>,
}

/// A board whose journal isn't that of the passes.
pub struct Differing<M: Ledger> {
    /// The board, its passes, and the number of one whose entries aren't the journal's.
    pub unlike: Unlike<M>,
}

impl<M: Ledger> Drop for Differing<M> {
    fn drop(self) {
        let Differing { unlike } = self;
        let Unlike {
            board,
            passes,
            number: _,
        } = unlike;
        let mut passes = passes;
        while let Some(pass) = passes.pop() {
            drop(Carried::new(pass));
        }
        passes.destroy_empty();
        drop(board);
    }
}

/// Why there is no report, or a shorter one.
#[derive(Drop)]
pub enum ServeFault<W, L, M: Ledger> {
    /// The acceptor failed. The connections before were served, and are reported.
    Acceptor(Report<W, L, M>),

    /// The journal isn't that of the passes.
    Unlike(Differing<M>),

    /// There was no memory.
    NoMemory,
}

/// What came of all: the acceptor, the recorders, and the report.
#[derive(Drop)]
pub struct Ran<D: Acceptor, Q: Recorders, M: Ledger> {
    /// The acceptor.
    pub acceptor: D,

    /// The recorders.
    pub recorders: Q,

    /// The report.
    pub end: Result<Report<D::Conn, Q::Rec, M>, ServeFault<D::Conn, Q::Rec, M>>,
}
