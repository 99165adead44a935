//! Many connections over one board.
ghost use Rattle.std.specs.Prelude.{◌≡◌, ◌+◌, ◌<◌, [], ◌∷◌, ◌++◌, IfOk, IfErr, IsOk, OnOk, OnErr, length};
ghost use Rattle.model_h1.specs.Answer.{AnswerHead, BodySize};
ghost use Rattle.model_h1.specs.Event as on;
ghost use Rattle.model_state.specs.Local.{allowed_by};
ghost use Rattle.h1_connection.specs.EventMeaning.{setting_of, event_of, SaysOutcome};
ghost use Rattle.h1_connection.specs.State.{IsAllowed, GoesOn, TakesNoMemory};
ghost use Rattle.board.specs.Table.{At, Moves, fresh_seat, asked_after, Handles, Fails, Steps};
ghost use Rattle.board.specs.declared.board.BoardError.TheVariants as board_error;

use crate::board::{Board, BoardError};
use crate::table_connection::TableConnection;
use h1_connection::{Event, Outcome};
use http_types::{NoMemory, ServiceConfig};
use std::alloc::Global;
use std::marker::Model;
use std::sync::ledger::Ledger;

/// Connections over one board, each with a pass of its own. Their numbers are those in which they were opened, from 0.
///
/// A clause sees it as the settings of its connections, its board, and each connection with its pass and what its last
/// head asks. A table that is dropped retires its passes.
pub struct Table<M: Ledger> {
    alloc: Global,
    config: ServiceConfig,
    board: Board<M>,
    seats: Vec<TableConnection<M>>,
}

impl<M: Ledger> Model for Table<M> {
    ghost use Rattle.board.specs.Table.{Tabled};

    ghost Value = { Tabled };

    ghost view = { λ t. record { settings = t.config; board = t.board; seats = t.seats.items } };
}

impl<M: Ledger> Table<M> {
    /// A table without a connection. It takes no memory.
    pub fn new(alloc: Global, config: ServiceConfig, board: Board<M>) -> Table<M>
        ensures { result ≡ record { settings = config; board = board; seats = [] } }
    {
        Table {
            alloc,
            config,
            board,
            seats: Vec::new(alloc),
        }
    }

    /// Opens a connection with a pass of its own, and tells its number. `BoardError::Full` comes exactly where the board
    /// made 65,536 passes.
    pub fn open(&mut self) -> Result<usize, BoardError>
        ensures opened { IfOk result (λ id. (id ≡ length self.old.seats) × (self.new.seats ≡ self.old.seats ++ fresh_seat self.old.settings self.old.board.passes.next ∷ [])) }
        ensures journal { self.new.board.journal ≡ self.old.board.journal }
        ensures passes { OnOk result (self.new.board.passes ≡ record { made = self.old.board.passes.made + 1; next = self.old.board.passes.next + 1; retired = self.old.board.passes.retired }) }
        ensures settings { self.new.settings ≡ self.old.settings }
        ensures err { OnErr result (self.new ≡ self.old) }
        ensures full { IfErr result (λ e. e ≡ board_error.Full → self.old.board.passes.next ≡ 65536) }
        ensures room { OnOk result (self.old.board.passes.next < 65536) }
        ensures no_memory { IfErr result (λ e. e ≡ board_error.NoMemory → self.old.board.passes.next < 65536) }
    {
        if self.board.is_full() {
            return Err(BoardError::Full);
        }
        self.seats.reserve(1)?;
        let id = self.seats.len();
        let pass = self.board.pass()?;
        self.seats
            .push_reserved(TableConnection::new(self.alloc, self.config, pass));
        Ok(id)
    }

    /// Whether the event may come next on a connection.
    pub fn allowed(&self, id: usize, event: &Event) -> bool
        requires is_open { id < length self.now.seats }
        ensures { At self.now id (λ seat. result ≡ allowed_by (setting_of seat.connection.settings) seat.connection.kept (event_of event.now)) }
    {
        self.seats[id].connection().allowed(event)
    }

    /// Whether a connection has an open request that may be answered.
    pub fn can_answer(&self, id: usize) -> bool
        requires is_open { id < length self.now.seats }
        ensures { At self.now id (λ seat. (head : AnswerHead) (size : BodySize) → result ≡ allowed_by (setting_of seat.connection.settings) seat.connection.kept (on.answer head size)) }
    {
        self.seats[id].connection().can_answer()
    }

    /// Takes in an event of one connection, and answers it as the tables do over what happened to that connection
    /// alone. The other connections and the board stay as they are. Out of memory, all is as before.
    pub fn step(&mut self, id: usize, event: &Event) -> Result<Outcome, NoMemory>
        requires is_open { id < length self.old.seats }
        requires may_come { At self.old id (λ seat. IsAllowed seat.connection (event_of event.now)) }
        ensures moves { IfOk result (λ outcome. Moves self.old id (Steps (event_of event.now) outcome) self.new) }
        ensures board { self.new.board ≡ self.old.board }
        ensures no_memory_needed { At self.old id (λ seat. TakesNoMemory seat.connection (event_of event.now) → IsOk result) }
        ensures err { OnErr result (self.new ≡ self.old) }
    {
        let seat = &mut self.seats[id];
        seat.step(event)
    }

    /// Answers the open request of one connection. Where its method is GET or POST and its path is a name, the board is
    /// called once with the connection's own pass, `Get` for GET and `Add` for POST, and the answer is 200 with the
    /// reply as `x-count`, or 503 where the pass is full. Else the board isn't called, and the answer is 404. No answer
    /// has a body; each tells the length 0. The other connections stay as they are.
    ///
    /// Out of memory, the connection is as before, and the board is as before or has this one call.
    pub fn handle(&mut self, id: usize) -> Result<Outcome, NoMemory>
        requires is_open { id < length self.old.seats }
        requires can_answer { At self.old id (λ seat. (head : AnswerHead) (size : BodySize) → IsAllowed seat.connection (on.answer head size)) }
        ensures done { IfOk result (λ outcome. outcome ≡ Outcome.Done) }
        ensures handles { OnOk result (Moves self.old id (Handles self.old.board self.new.board) self.new) }
        ensures err { OnErr result (Moves self.old id (Fails self.old.board self.new.board) self.new) }
    {
        let Table {
            alloc,
            board,
            seats,
            ..
        } = self;
        let seat = &mut seats[id];
        seat.handle(*alloc, board)?;
        Ok(Outcome::Done)
    }

    /// How many connections were opened.
    pub fn count(&self) -> usize
        ensures { result ≡ length self.now.seats }
    {
        self.seats.len()
    }

    /// The board.
    pub fn board(&self) -> &Board<M>
        ensures { result.now ≡ self.now.board }
    {
        &self.board
    }
}

impl<M: Ledger> Drop for Table<M> {
    fn drop(self) {
        let Table {
            alloc: _,
            config: _,
            board,
            seats,
        } = self;
        let mut board = board;
        let mut seats = seats;
        while let Some(seat) = seats.pop() {
            board.retire(seat.into_pass());
        }
        seats.destroy_empty();
    }
}
