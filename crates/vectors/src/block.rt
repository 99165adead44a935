//! Blocks: what is done, and what has to come of it.
use crate::case::CaseError;
use crate::clear::{Form, put_clear};
use crate::report::Report;
use http_types::NoMemory;
use std::alloc::Global;

/// A block of a file, its lines read.
#[derive(Drop)]
pub struct Block<'a> {
    /// Its name.
    pub name: &'a [u8],

    /// What is done: the lines that begin with `> `, without that.
    pub script: Vec<&'a [u8]>,

    /// What has to come of it: the lines that begin with `< `, without that, their quoted bytes in one form, each with a
    /// line feed after it.
    pub expected: Report,
}

impl<'a> Block<'a> {
    /// The block of these lines, the first of which names it. Lines of neither beginning are passed over.
    ///
    /// `Unreadable` where a line of what has to come of it can't be read.
    pub fn read(alloc: Global, lines: &[&'a [u8]], form: Form) -> Result<Block<'a>, CaseError> {
        let Some((first, others)) = lines.split_first() else {
            return Err(CaseError::Unreadable);
        };
        let Some(name) = first.strip_prefix(b"== ") else {
            return Err(CaseError::Unreadable);
        };
        let mut block = Block {
            name,
            script: Vec::new(alloc),
            expected: Report::new(alloc),
        };
        block.take_all(alloc, others, form)?;
        Ok(block)
    }

    fn take_all(&mut self, alloc: Global, lines: &[&'a [u8]], form: Form) -> Result<(), CaseError> {
        for line in lines {
            self.take(alloc, line, form)?;
        }
        Ok(())
    }

    // Takes a line of what is done, or of what has to come of it.
    fn take(&mut self, alloc: Global, line: &'a [u8], form: Form) -> Result<(), CaseError> {
        if let Some(done) = line.strip_prefix(b"> ") {
            return Ok(keep(&mut self.script, done)?);
        }
        let Some(expected) = line.strip_prefix(b"< ") else {
            return Ok(());
        };
        put_clear(alloc, expected, form, &mut self.expected)?;
        self.expected.put(b'\n');
        Ok(())
    }

    /// Whether this is what has to come of the block. Where it isn't, it is written to `different`, after the name and
    /// how it was found.
    pub fn is_met(
        &self,
        found: &Report,
        how: &Report,
        different: &mut Report,
    ) -> Result<bool, NoMemory> {
        let bytes = found.whole()?;
        if bytes == self.expected.whole()? {
            return Ok(true);
        }
        different.put_all(self.name);
        different.put_all(how.whole()?);
        different.put_text(": found\n");
        different.put_all(bytes);
        Ok(false)
    }
}

fn keep<'a>(lines: &mut Vec<&'a [u8]>, line: &'a [u8]) -> Result<(), NoMemory> {
    Ok(lines.push(line)?)
}

/// Writes to `different` that the block of this name has a line that can't be read.
pub fn put_unreadable(name: &[u8], different: &mut Report) {
    different.put_all(name);
    different.put_text(": a line that can't be read\n");
}
