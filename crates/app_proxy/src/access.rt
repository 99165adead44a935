//! A line for each reply.
use crate::line::{asked, line};
use httpdate::HttpDate;
use proxy_loop::{BegunReply, NoMemory};
use std::alloc::Global;
use std::net::SocketAddr;

/// So many bytes of lines are written at once.
const ENOUGH: usize = 8192;

/// The lines that aren't written yet.
#[derive(Drop)]
pub struct AccessLog {
    rt: HostRuntime,
    alloc: Global,
    is_quiet: bool,
    date: String,
    lines: String,
}

impl AccessLog {
    /// No lines. Where it is quiet there will be none.
    pub fn new(rt: HostRuntime, is_quiet: bool) -> AccessLog {
        let alloc = rt.alloc();
        AccessLog {
            rt,
            alloc,
            is_quiet,
            date: String::new(alloc),
            lines: String::new(alloc),
        }
    }

    pub fn is_quiet(&self) -> bool {
        self.is_quiet
    }

    /// The moment, in milliseconds since 1970.
    pub fn set_moment(&mut self, moment: u64) -> Result<(), NoMemory> {
        if self.is_quiet {
            return Ok(());
        }
        if let Ok(date) = HttpDate::from_unix_secs(moment / 1000) {
            self.date = httpdate::fmt_http_date(self.alloc, date)?;
        }
        Ok(())
    }

    /// Adds a line for each of these replies to a client.
    pub fn add(&mut self, peer: SocketAddr, replies: &[BegunReply]) -> Result<(), NoMemory> {
        for reply in replies {
            self.add_line(peer, reply)?;
        }
        if self.lines.len() >= ENOUGH {
            self.flush();
        }
        Ok(())
    }

    fn add_line(&mut self, peer: SocketAddr, reply: &BegunReply) -> Result<(), NoMemory> {
        let asked = asked(self.alloc, reply.request.as_ref())?;
        let status = reply.status.as_u16();
        let line = line(self.alloc, peer, &self.date, &asked, status)?;
        self.lines.push_str(&line)
    }

    /// Writes what was added.
    pub fn flush(&mut self) {
        if self.lines.is_empty() {
            return;
        }
        let lines = &self.lines;
        // A log that can't be written ends nothing.
        let _ = print!(self.rt; "{lines}");
        self.lines.clear();
    }
}
