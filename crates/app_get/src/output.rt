//! The file that bodies are written to.
ghost use Rattle.std.specs.Prelude.{◌≡◌, None};

use crate::error::GetError;
use http_types::{Failed, Sink, WriteSink};
use std::fs::File;

/// A file that is opened when its first byte comes.
#[derive(Drop)]
pub struct OutputFile<'a> {
    rt: HostRuntime,
    path: &'a str,

    // What stands in it was written before, and stays.
    is_begun: bool,
    file: Option<WriteSink<File>>,
    faults: u64,
}

impl<'a> OutputFile<'a> {
    /// The file of this path. Unless it is begun it is made anew.
    pub fn new(rt: HostRuntime, path: &'a str, is_begun: bool) -> OutputFile<'a> {
        OutputFile {
            rt,
            path,
            is_begun,
            file: None,
            faults: 0,
        }
    }

    /// Ends what is written. Of a whole answer a file of no bytes is made too. It says whether the file is begun.
    pub fn end(mut self, is_whole: bool) -> Result<bool, GetError> {
        if is_whole {
            self.open();
            if self.file.is_none() {
                return Err(GetError::Output);
            }
        }
        Ok(self.is_begun || self.file.is_some())
    }

    fn open(&mut self)
        ensures { self.new.faults ≡ self.old.faults }
    {
        if self.file.is_some() {
            return;
        }
        let opened = if self.is_begun {
            File::options().append(true).open(&self.rt, self.path)
        } else {
            File::create(&self.rt, self.path)
        };
        if let Ok(file) = opened {
            self.file = Some(WriteSink::new(file));
        }
    }
}

impl<'a> Sink for OutputFile<'a> {
    // What is in it isn't kept.
    ghost given = { λ _. None };

    ghost faults = { λ s. s.faults };

    fn write(&mut self, bytes: &[u8]) -> Result<usize, Failed> {
        self.open();
        let written = match &mut self.file {
            Some(file) => file.write(bytes),
            None => Err(Failed),
        };
        if written.is_err() {
            self.faults = self.faults.saturating_add(1);
        }
        written
    }
}
