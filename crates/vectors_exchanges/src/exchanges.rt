//! Whole exchanges: scripts of connection events, each with the report that it has to get.
//!
//! A file has blocks. A line that begins with `==` begins one and names it; `> ` begins a line of its script, `< ` one of
//! its report; other lines are passed over. In both, bytes stand in double quotes where the script and the report have
//! them in hex, and `[..]*N` repeats what stands in the brackets.
use h1_replay::replay;
use std::alloc::{AllocError, AllocGlobal, Global};
use std::io;
use vectors::{Block, BlockPlayer, CaseError, Form, Report, put_clear, put_unreadable};

/// Plays exchanges.
#[derive(Clone, Copy, Debug)]
pub struct Exchanges;

impl<R: AllocGlobal> BlockPlayer<R> for Exchanges {
    fn kind(&self) -> &str {
        "exchanges"
    }

    fn form(&self) -> Form {
        Form::Hex
    }

    fn play_block(&self, rt: &R, block: &Block<'_>, different: &mut Report) -> io::Result<bool> {
        let alloc = rt.alloc();
        let mut script = Report::new(alloc);
        match put_script(alloc, block.script.as_slice(), &mut script) {
            Ok(()) => {
                let mut found = Report::new(alloc);
                found.put_all(replay(alloc, script.whole()?).text());
                Ok(block.is_met(&found, &Report::new(alloc), different)?)
            }
            Err(CaseError::NoMemory) => Err(io::Error::from(AllocError)),
            Err(CaseError::Unreadable) => {
                put_unreadable(block.name, different);
                Ok(false)
            }
        }
    }
}

// Puts the script of these lines: their quoted bytes in hex, each with a line feed after it.
fn put_script(alloc: Global, lines: &[&[u8]], script: &mut Report) -> Result<(), CaseError> {
    for line in lines {
        put_clear(alloc, line, Form::Hex, script)?;
        script.put_text("\n");
    }
    Ok(())
}
