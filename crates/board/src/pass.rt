//! The right to call a board.
ghost use Rattle.std.specs.Prelude.{◌≡◌};

use crate::command::Entry;
use std::marker::Model;
use std::sync::ledger::{Ledger, Share};

/// The most entries that a pass has.
pub const MAX_ENTRIES: usize = 1_048_576;

/// The right to call one board, with the entries of its own calls. `Board::retire` or `Shared::close` takes it back.
/// It has no `Drop`, since the board counts its entries; only in a `Carried` it may be dropped.
///
/// A clause sees it as its number and its entries.
pub struct Pass<M: Ledger> {
    pub(crate) number: u32,
    pub(crate) entries: Vec<Entry>,
    pub(crate) part: Share<M>,
}

impl<M: Ledger> Model for Pass<M> {
    ghost use Rattle.board.specs.Views.{Held};
    ghost use Rattle.std.specs.Prelude.{◌≡◌, ◌≤◌, vec_len};

    ghost Value = { Held };

    ghost view = { λ p. record { number = p.number; entries = p.entries.items } };

    ghost invariant = { λ p. (p.part.parts ≡ 1) × (p.part.amount ≡ vec_len p.entries) × (vec_len p.entries ≤ 1048576) };
}

impl<M: Ledger> Pass<M> {
    /// Its number: how many passes its board had made before it.
    pub fn number(&self) -> u32
        ensures { result ≡ self.now.number }
    {
        self.number
    }

    /// The entries of its calls, in order.
    pub fn entries(&self) -> &[Entry]
        ensures { result.now ≡ self.now.entries }
    {
        self.entries.as_slice()
    }
}

/// A pass that a closure may hold, on its way to a thread or back. Where one is dropped, so is its pass with its part of
/// the ledger, and the board can't be closed any more, since `Shared::close` asks for all passes.
pub struct Carried<M: Ledger> {
    /// The pass.
    pub pass: Pass<M>,
}

impl<M: Ledger> Carried<M> {
    /// Packs a pass for its way.
    pub fn new(pass: Pass<M>) -> Carried<M>
        ensures { result.pass ≡ pass }
    {
        Carried { pass }
    }

    /// The pass again.
    pub fn into_pass(self) -> Pass<M>
        ensures { result ≡ self.pass }
    {
        let Carried { pass } = self;
        pass
    }
}

impl<M: Ledger> Drop for Carried<M> {
    fn drop(self) {
        let Carried { pass } = self;
        let Pass {
            number: _,
            entries: _,
            part: _,
        } = pass;
    }
}
