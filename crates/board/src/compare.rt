// Whether the passes' lists are the journal's.
ghost use Rattle.std.specs.Prelude.{◌≡◌, ◌≢◌, ◌<◌, List, [], ◌∷◌, ◌++◌, Some, IfNone, IfSome, IsTrue};
ghost use Rattle.std.specs.Bool.{Decides};
ghost use Rattle.std.specs.List.{slice_get};
ghost use Rattle.board.specs.Journal.{of_pass};
ghost use Rattle.board.specs.Views.{Agrees, Differs};
ghost use Rattle.board.specs.Cursors.{Stand, AreThrough};
ghost use Rattle.board.specs.declared.command.Entry.{Entry as Noted};
ghost use Rattle.board.specs.declared.compare.Cursor.{Cursor as Place};

use crate::command::Entry;
use crate::pass::Pass;
use std::sync::ledger::Ledger;

/// Where the pass of a number stands among those that are compared, and how many of its entries were found in the
/// journal so far.
#[derive(Clone, Copy)]
pub struct Cursor {
    pub(crate) at: usize,
    pub(crate) found: usize,
}

// The number of a pass whose entries aren't those of the journal, if there is one. One walk over the journal sees that
// there is none; only where it doesn't, the lists are compared one by one.
pub(crate) fn first_unlike<M: Ledger>(
    journal: &[Entry],
    passes: &[Pass<M>],
    cursors: &mut [Option<Cursor>],
) -> Option<u32>
    ensures none { IfNone result (Agrees journal.now passes.now) }
    ensures some { IfSome result (λ number. Differs journal.now passes.now number) }
{
    if are_alike(journal, passes, cursors) {
        return None;
    }
    first_unlike_list(journal, passes)
}

// Whether one walk over the journal finds all lists in it.
fn are_alike<M: Ledger>(
    journal: &[Entry],
    passes: &[Pass<M>],
    cursors: &mut [Option<Cursor>],
) -> bool
    ensures { IsTrue result → Agrees journal.now passes.now }
{
    set_out(passes, cursors);
    if !walk(journal, passes, cursors) {
        return false;
    }
    are_through(passes, cursors)
}

// Puts a cursor at the beginning of each list.
fn set_out<M: Ledger>(passes: &[Pass<M>], cursors: &mut [Option<Cursor>])
    ensures { Stand [] passes.now cursors.new }
{
    cursors.fill(None);
    for (at, pass) in passes.iter().enumerate() {
        let number = pass.number as usize;
        if number < cursors.len() {
            cursors[number] = Some(Cursor { at, found: 0 });
        }
    }
}

// Moves the cursors over the journal's entries.
fn walk<M: Ledger>(journal: &[Entry], passes: &[Pass<M>], cursors: &mut [Option<Cursor>]) -> bool
    requires set_out { Stand [] passes.now cursors.old }
    ensures { IsTrue result → Stand journal.now passes.now cursors.new }
{
    for entry in journal {
        if !find(entry, passes, cursors) {
            return false;
        }
    }
    true
}

// Moves the cursor of the entry's pass over it, if that pass is there.
fn find<M: Ledger>(entry: &Entry, passes: &[Pass<M>], cursors: &mut [Option<Cursor>]) -> bool
    ensures { (journal : List Noted) → Stand journal passes.now cursors.old → IsTrue result → Stand (journal ++ entry.now ∷ []) passes.now cursors.new }
{
    let Some(cursor) = cursor_of(cursors, entry.pass) else {
        return true;
    };
    let Some(pass) = passes.get(cursor.at) else {
        return false;
    };
    if !has_at(pass, cursor.found, entry) {
        return false;
    }
    cursors[entry.pass as usize] = Some(Cursor {
        at: cursor.at,
        found: cursor.found + 1,
    });
    true
}

// Whether all cursors are at the end of their lists.
fn are_through<M: Ledger>(passes: &[Pass<M>], cursors: &[Option<Cursor>]) -> bool
    ensures { IsTrue result → AreThrough passes.now cursors.now }
{
    for (at, pass) in passes.iter().enumerate() {
        let Some(cursor) = cursor_of(cursors, pass.number) else {
            return false;
        };
        if cursor.at != at || cursor.found != pass.entries.len() {
            return false;
        }
    }
    true
}

// The cursor of a number, if it has one.
fn cursor_of(cursors: &[Option<Cursor>], number: u32) -> Option<Cursor>
    ensures some { IfSome result (λ cursor. slice_get cursors.now number ≡ Some (Some cursor)) }
    ensures none { IfNone result ((cursor : Place) → slice_get cursors.now number ≢ Some (Some cursor)) }
{
    match cursors.get(number as usize) {
        Some(cursor) => *cursor,
        None => None,
    }
}

// Whether the pass has this entry at this place.
fn has_at<M: Ledger>(pass: &Pass<M>, index: usize, entry: &Entry) -> bool
    ensures there { IsTrue result → slice_get pass.now.entries index ≡ Some entry.now }
    ensures within { IsTrue result → index < 1048576 }
{
    match pass.entries.as_slice().get(index) {
        Some(own) => is_same(own, entry),
        None => false,
    }
}

// The number of a pass whose entries aren't those of the journal, if there is one, list by list.
fn first_unlike_list<M: Ledger>(journal: &[Entry], passes: &[Pass<M>]) -> Option<u32>
    ensures none { IfNone result (Agrees journal.now passes.now) }
    ensures some { IfSome result (λ number. Differs journal.now passes.now number) }
{
    for pass in passes {
        if !is_list_of(journal, pass.number, pass.entries.as_slice()) {
            return Some(pass.number);
        }
    }
    None
}

// Whether the journal's entries of a number are this list.
fn is_list_of(journal: &[Entry], number: u32, own: &[Entry]) -> bool
    ensures { Decides result (of_pass number journal.now ≡ own.now) }
{
    let mut next = 0;
    for entry in journal {
        if entry.pass == number {
            if next == own.len() || !is_same(&own[next], entry) {
                return false;
            }
            next += 1;
        }
    }
    next == own.len()
}

// Whether the entries are the same.
fn is_same(a: &Entry, b: &Entry) -> bool
    ensures { Decides result (a.now ≡ b.now) }
{
    a == b
}
