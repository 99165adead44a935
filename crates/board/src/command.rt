//! What is asked of a board, and what it notes.
ghost use Rattle.std.specs.Prelude.{◌≡◌};

use crate::Name;

/// What is asked of a board.
#[derive(Clone, Copy, Debug, PartialEq, Eq)]
pub enum Command {
    /// The counter of this name.
    Get(Name),

    /// To add one to the counter of this name.
    Add(Name),
}

/// What a command is answered: the value of its counter, with itself counted.
#[derive(Clone, Copy, Debug, PartialEq, Eq)]
pub struct CounterReply(pub u64);

/// A command that was answered.
#[derive(Clone, Copy, Debug, PartialEq, Eq)]
pub struct Entry {
    /// The number of the pass that gave the command.
    pub pass: u32,

    /// The command.
    pub command: Command,

    /// What it was answered.
    pub reply: CounterReply,
}

impl Command {
    // The same command.
    pub(crate) fn copy(&self) -> Command
        ensures { result ≡ self.now }
    {
        *self
    }
}

impl Entry {
    // The same entry.
    pub(crate) fn copy(&self) -> Entry
        ensures { result ≡ self.now }
    {
        *self
    }
}
