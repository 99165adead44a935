//! A board that threads share.
ghost use Rattle.std.specs.Prelude.{◌≡◌, ◌<◌, ◌+◌, [], ◌∷◌, ◌++◌, IfOk, OnOk, OnErr, IfErr, length, vec_len};
ghost use Rattle.board.specs.Journal.{IsRight, entry};
ghost use Rattle.board.specs.Views.{Agrees, Differs, entries_held};
ghost use Rattle.board.specs.declared.board.BoardError.TheVariants as board_error;

use crate::board::{Board, BoardError};
use crate::command::{Command, CounterReply};
use crate::pass::Pass;
use crate::stock::Stock;
use std::marker::Model;
use std::sync::ledger::Ledger;
use std::sync::{Mutex, Wait};

/// A board that threads share. Beside its lock lie the parts of its ledger that no pass holds.
///
/// A clause sees it as its passes.
#[derive(Drop)]
pub struct Shared<M: Ledger> {
    board: Mutex<Board<M>>,
    stock: Stock<M>,
}

impl<M: Ledger> Model for Shared<M> {
    ghost use Rattle.board.specs.Views.{Passes};

    ghost Value = { Passes };

    ghost view = { λ s. s.stock };
}

impl<M: Ledger> Shared<M> {
    /// Puts a board under a lock. Passes are made before.
    pub fn from_board(board: Board<M>) -> Shared<M>
        ensures { result ≡ board.passes }
    {
        let mut board = board;
        let stock = board.stock.take();
        Shared {
            board: Mutex::new(board),
            stock,
        }
    }

    /// How many passes were made and not retired.
    pub fn made(&self) -> u32
        ensures { result ≡ self.now.made }
    {
        self.stock.made
    }

    /// `Board::call` under the lock, for which it may wait.
    pub fn call<R: Wait>(
        &self,
        rt: &R,
        pass: &mut Pass<M>,
        command: Command,
    ) -> Result<CounterReply, BoardError>
        ensures pass { IfOk result (λ r. pass.new.entries ≡ pass.old.entries ++ entry pass.old.number command r.0 ∷ []) }
        ensures number { pass.new.number ≡ pass.old.number }
        ensures err { OnErr result (pass.new ≡ pass.old) }
        ensures full { IfErr result (λ e. e ≡ board_error.Full → length pass.old.entries ≡ 1048576) }
        ensures room { OnOk result (length pass.old.entries < 1048576) }
        ensures no_memory { IfErr result (λ e. e ≡ board_error.NoMemory → length pass.old.entries < 1048576) }
    {
        self.board.lock(rt).call(pass, command)
    }

    /// The board, once all its passes are back and the entries of each are the journal's of its number, in order. They
    /// are compared without memory. Where they agree, that takes one walk over the journal; else a walk for each list.
    ///
    /// `Unlike` comes exactly where some list differs, and carries the board and the passes.
    pub fn close<R: Wait>(self, _rt: &R, passes: Vec<Pass<M>>) -> Result<Board<M>, Unlike<M>>
        requires are_all { vec_len passes ≡ self.made }
        ensures agrees { IfOk result (λ b. Agrees b.journal passes.items) }
        ensures right { IfOk result (λ b. IsRight b.journal) }
        ensures whole { IfOk result (λ b. length b.journal ≡ self.retired + entries_held passes.items) }
        ensures passes { IfOk result (λ b. b.passes ≡ record { made = 0; next = self.next; retired = length b.journal }) }
        ensures unlike { IfErr result (λ u. Differs u.board.journal u.passes.items u.number) }
        ensures kept { IfErr result (λ u. (u.passes.items ≡ passes.items) × (u.board.passes ≡ self) × IsRight u.board.journal) }
    {
        let mut board = self.into_board();
        let _right = board.journal();
        if let Some(number) = board.first_unlike(passes.as_slice()) {
            return Err(Unlike {
                board,
                passes,
                number,
            });
        }
        board.retire_all(passes);
        Ok(board)
    }

    /// The board that was under the lock. It waits for nobody.
    pub fn into_board(self) -> Board<M>
        ensures { result.passes ≡ self }
    {
        let Shared { board, stock } = self;
        let mut board = board.into_inner();
        board.stock = stock;
        board
    }
}

/// A pass whose list isn't that of the journal.
pub struct Unlike<M: Ledger> {
    /// The board.
    pub board: Board<M>,

    /// All its passes.
    pub passes: Vec<Pass<M>>,

    /// The number of a pass whose entries aren't the journal's of this number.
    pub number: u32,
}
