// The parts of a board's ledger that no pass holds.
ghost use Rattle.std.specs.Prelude.{◌≡◌};

use crate::compare::Cursor;
use std::marker::Model;
use std::sync::ledger::{Book, Ledger, Share};

/// The most passes that a board makes, which are the parts of its ledger.
pub const MAX_PASSES: u32 = 65_536;

/// The parts that no pass holds, with the entries of the retired passes for their amount.
#[derive(Drop)]
pub struct Stock<M: Ledger> {
    pub(crate) parts: Share<M>,

    // How many passes were made and not retired, and the number of the next one.
    pub(crate) made: u32,
    pub(crate) next: u32,

    // A place for the cursor of each pass that was made, so that comparing takes no memory.
    pub(crate) cursors: Vec<Option<Cursor>>,
}

impl<M: Ledger> Model for Stock<M> {
    ghost use Rattle.board.specs.Views.{Passes};
    ghost use Rattle.std.specs.Prelude.{◌≡◌, ◌+◌, ◌≤◌};

    ghost Value = { Passes };

    ghost view = { λ s. record { made = s.made; next = s.next; retired = s.parts.amount } };

    ghost invariant = { λ s. (s.parts.parts + s.made ≡ 65536) × (s.made ≤ s.next) × (s.next ≤ 65536) × (s.made ≡ s.next → s.parts.amount ≡ 0) × (M.parts ≡ 65536) };
}

impl<M: Ledger> Stock<M> {
    // Takes the stock away, and leaves one without a part, which makes no pass.
    pub(crate) fn take(&mut self) -> Stock<M>
        ensures taken { result ≡ self.old }
        ensures left { self.new ≡ record { made = 65536; next = 65536; retired = 0 } }
    {
        let parts = self.parts.empty();
        let left = Stock {
            parts,
            made: MAX_PASSES,
            next: MAX_PASSES,
            cursors: Vec::new(*self.cursors.allocator()),
        };
        std::mem::replace(self, left)
    }

    // With every part here, the amount is the book's total.
    pub(crate) fn audit(&mut self, book: &mut Book<M>)
        requires all_are_here { self.old.made ≡ 0 }
        ensures same { self.new ≡ self.old }
        ensures book { book.new.total ≡ book.old.total }
        ensures whole { self.old.retired ≡ book.old.total }
    {
        book.audit(&mut self.parts);
    }
}
