//! The board: counters, and the journal of all calls.
ghost use Rattle.std.specs.Prelude.{◌≡◌, ◌==◌, ◌<◌, ◌≤◌, ◌+◌, ◌^◌, ◌&&◌, if◌then◌else◌, ℕ, List, [], ◌∷◌, ◌++◌, IfOk, IfErr, IfNone, IfSome, OnOk, OnErr, length, vec_len};
ghost use Rattle.std.specs.BTreeMap as tree;
ghost use Rattle.std.specs.Cmp.Lexicographic.{slice_cmp};
ghost use Rattle.std.specs.Option.{unwrap_or};
ghost use Rattle.std.specs.Ordering.{nat_cmp};
ghost use Rattle.std.specs.Str.{bytes_eq};
ghost use Rattle.board.specs.Journal.{IsRight, entry, counter, reply_after, name_of, is_add};
ghost use Rattle.board.specs.Views.{Kept, Passes, Agrees, Differs, entries_held};
ghost use Rattle.board.specs.declared.board.BoardError.TheVariants as board_error;

use crate::command::{Command, CounterReply, Entry};
use crate::compare;
use crate::name::Name;
use crate::pass::{MAX_ENTRIES, Pass};
use crate::stock::{MAX_PASSES, Stock};
use std::alloc::{AllocError, Global};
use std::collections::BTreeMap;
use std::marker::Model;
use std::sync::ledger::{Blank, Book, Ledger};
use thiserror::Error;

/// Why a board refuses.
#[derive(Clone, Copy, Debug, PartialEq, Eq, Error)]
pub enum BoardError {
    /// The pass has 1,048,576 entries, or 65,536 passes were made.
    #[error("there is no room for more")]
    Full,

    /// There was no memory.
    #[error("no memory is left")]
    NoMemory,
}

impl From<AllocError> for BoardError {
    ghost from_gives = { λ _ error. error ≡ board_error.NoMemory };

    fn from(_error: AllocError) -> BoardError {
        BoardError::NoMemory
    }
}

/// Counters by name, and the journal of all calls that were answered. Who calls it has a pass of it.
///
/// A clause sees it as its journal and its passes.
#[derive(Drop)]
pub struct Board<M: Ledger> {
    pub(crate) journal: Vec<Entry>,
    pub(crate) counters: BTreeMap<Name, u64>,
    pub(crate) book: Book<M>,
    pub(crate) stock: Stock<M>,
}

impl<M: Ledger> Model for Board<M> {
    ghost Value = { Kept };

    ghost view = { λ b. record { journal = b.journal.items; passes = b.stock } };

    ghost invariant = { λ b. (b.book.total ≡ vec_len b.journal) × IsRight b.journal.items
        × ((name : List ℕ) → unwrap_or (tree.get (slice_cmp nat_cmp) b.counters name) 0 ≡ counter name b.journal.items) };
}

impl<M: Ledger> Board<M> {
    /// A board with no entry, over a new ledger of 65,536 parts. It takes no memory.
    pub fn new(alloc: Global, blank: Blank) -> Board<M>
        requires is_its_ledger { (blank.name ≡ M.name) × (blank.parts ≡ M.parts) }
        requires has_a_part_for_each_pass { M.parts ≡ 65536 }
        ensures journal { result.journal ≡ [] }
        ensures passes { result.passes ≡ record { made = 0; next = 0; retired = 0 } }
    {
        let (book, parts) = blank.open::<M>();
        Board {
            journal: Vec::new(alloc),
            counters: BTreeMap::new(alloc),
            book,
            stock: Stock {
                parts,
                made: 0,
                next: 0,
                cursors: Vec::new(alloc),
            },
        }
    }

    /// The entries of all calls, in order. Each reply is the one that the entries before it give.
    pub fn journal(&self) -> &[Entry]
        ensures journal { result.now ≡ self.now.journal }
        ensures right { IsRight self.now.journal }
    {
        self.journal.as_slice()
    }

    /// How many passes were made and not retired.
    pub fn made(&self) -> u32
        ensures { result ≡ self.now.passes.made }
    {
        self.stock.made
    }

    /// Whether 65,536 passes were made, retired ones too, so that it makes no more.
    pub fn is_full(&self) -> bool
        ensures value { result ≡ (self.now.passes.next == 65536) }
        ensures bound { self.now.passes.next ≤ 65536 }
    {
        self.stock.next == MAX_PASSES
    }

    /// A new pass. The first has the number 0, and each later one the next number, retired ones counted.
    ///
    /// `BoardError::Full` comes exactly where 65,536 were made.
    pub fn pass(&mut self) -> Result<Pass<M>, BoardError>
        ensures pass { IfOk result (λ p. (p.number ≡ self.old.passes.next) × (p.entries ≡ [])) }
        ensures journal { self.new.journal ≡ self.old.journal }
        ensures passes { OnOk result (self.new.passes ≡ record { made = self.old.passes.made + 1; next = self.old.passes.next + 1; retired = self.old.passes.retired }) }
        ensures err { OnErr result (self.new ≡ self.old) }
        ensures full { IfErr result (λ e. e ≡ board_error.Full → self.old.passes.next ≡ 65536) }
        ensures room { OnOk result (self.old.passes.next < 65536) }
        ensures no_memory { IfErr result (λ e. e ≡ board_error.NoMemory → self.old.passes.next < 65536) }
    {
        let alloc = *self.journal.allocator();
        let Stock {
            parts,
            made,
            next,
            cursors,
        } = &mut self.stock;
        if *next == MAX_PASSES {
            return Err(BoardError::Full);
        }
        cursors.reserve(1)?;
        cursors.push_reserved(None);
        let number = *next;
        let part = parts.split_off(1, 0);
        *made += 1;
        *next += 1;
        Ok(Pass {
            number,
            entries: Vec::new(alloc),
            part,
        })
    }

    /// Answers a command, and notes it in the journal and in the pass: `Get` is answered the counter of the name, `Add`
    /// the counter with one added. A counter that was never added to is 0.
    ///
    /// `BoardError::Full` comes exactly where the pass has 1,048,576 entries. After an error all is as before.
    pub fn call(&mut self, pass: &mut Pass<M>, command: Command) -> Result<CounterReply, BoardError>
        ensures journal { IfOk result (λ r. self.new.journal ≡ self.old.journal ++ entry pass.old.number command r.0 ∷ []) }
        ensures pass { IfOk result (λ r. pass.new.entries ≡ pass.old.entries ++ entry pass.old.number command r.0 ∷ []) }
        ensures number { pass.new.number ≡ pass.old.number }
        ensures passes { self.new.passes ≡ self.old.passes }
        ensures reply { IfOk result (λ r. r.0 ≡ reply_after self.old.journal command) }
        ensures right { IsRight self.old.journal × IsRight self.new.journal }
        ensures err { OnErr result ((self.new ≡ self.old) × (pass.new ≡ pass.old)) }
        ensures full { IfErr result (λ e. e ≡ board_error.Full → length pass.old.entries ≡ 1048576) }
        ensures room { OnOk result (length pass.old.entries < 1048576) }
        ensures no_memory { IfErr result (λ e. e ≡ board_error.NoMemory → length pass.old.entries < 1048576) }
    {
        let _right = self.journal();
        if pass.entries.len() == MAX_ENTRIES {
            return Err(BoardError::Full);
        }
        self.journal.reserve(1)?;
        pass.entries.reserve(1)?;
        let reply = answer(&mut self.counters, &command)?;
        let entry = Entry {
            pass: pass.number,
            command,
            reply: CounterReply(reply),
        };
        self.journal.push_reserved(entry.copy());
        pass.entries.push_reserved(entry);
        self.book.add(&mut pass.part, 1);
        Ok(CounterReply(reply))
    }

    /// Takes a pass back. Its entries stay in the journal, and its number isn't given again.
    pub fn retire(&mut self, pass: Pass<M>)
        ensures journal { self.new.journal ≡ self.old.journal }
        ensures passes { self.new.passes ≡ record { made = self.new.passes.made; next = self.old.passes.next; retired = self.old.passes.retired + length pass.entries } }
        ensures made { self.new.passes.made + 1 ≡ self.old.passes.made }
    {
        let Pass {
            number: _,
            entries: _,
            part,
        } = pass;
        let Stock { parts, made, .. } = &mut self.stock;
        parts.merge(part);
        *made -= 1;
    }

    // Takes all passes back.
    pub(crate) fn retire_all(&mut self, passes: Vec<Pass<M>>)
        requires are_all { vec_len passes ≡ self.old.passes.made }
        ensures journal { self.new.journal ≡ self.old.journal }
        ensures made { self.new.passes.made ≡ 0 }
        ensures next { self.new.passes.next ≡ self.old.passes.next }
        ensures retired { self.new.passes.retired ≡ self.old.passes.retired + entries_held passes.items }
        ensures whole { self.new.passes.retired ≡ length self.new.journal }
    {
        let mut passes = passes;
        while let Some(pass) = passes.pop() {
            self.retire(pass);
        }
        passes.destroy_empty();
        self.audit();
    }

    // With every part here, the retired passes had all entries of the journal.
    fn audit(&mut self)
        requires all_are_here { self.old.passes.made ≡ 0 }
        ensures same { self.new ≡ self.old }
        ensures whole { self.old.passes.retired ≡ length self.old.journal }
    {
        let Board { book, stock, .. } = self;
        stock.audit(book);
    }

    // The number of one of these passes whose entries aren't those of the journal, if there is one.
    pub(crate) fn first_unlike(&mut self, passes: &[Pass<M>]) -> Option<u32>
        ensures same { self.new ≡ self.old }
        ensures none { IfNone result (Agrees self.old.journal passes.now) }
        ensures some { IfSome result (λ number. Differs self.old.journal passes.now number) }
    {
        let Board { journal, stock, .. } = self;
        compare::first_unlike(journal.as_slice(), passes, stock.cursors.as_mut_slice())
    }
}

// Replies, and counts an `Add`.
fn answer(counters: &mut BTreeMap<Name, u64>, command: &Command) -> Result<u64, AllocError>
    requires has_room { (name : List ℕ) → unwrap_or (tree.get (slice_cmp nat_cmp) counters.old name) 0 < 2 ^ 63 }
    ensures reply { IfOk result (λ r. r ≡ unwrap_or (tree.get (slice_cmp nat_cmp) counters.old (name_of command.now)) 0 + (if is_add command.now then 1 else 0)) }
    ensures counted { OnOk result ((name : List ℕ) → unwrap_or (tree.get (slice_cmp nat_cmp) counters.new name) 0
        ≡ unwrap_or (tree.get (slice_cmp nat_cmp) counters.old name) 0 + (if is_add command.now && bytes_eq (name_of command.now) name then 1 else 0)) }
    ensures err { OnErr result ((name : List ℕ) → unwrap_or (tree.get (slice_cmp nat_cmp) counters.new name) 0 ≡ unwrap_or (tree.get (slice_cmp nat_cmp) counters.old name) 0) }
{
    match command {
        Command::Get(name) => Ok(counters.get(name).copied().unwrap_or(0)),
        Command::Add(name) => {
            let count = counters.get(name).copied().unwrap_or(0) + 1;
            counters.insert(*name, count)?;
            Ok(count)
        }
    }
}
