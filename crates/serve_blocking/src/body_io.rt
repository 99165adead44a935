//! When bytes are read and written, and what time it is.
ghost use Rattle.std.specs.Prelude.{◌≡◌, ℕ, IsTrue, true, false, IfErr, IsOk, OnOk};
ghost use Rattle.model_h1.specs.Event as on;
ghost use Rattle.h1_connection.specs.State.{IsAllowed};
ghost use Rattle.serve_blocking.specs.Acts.{Does, IsFlushed, Waits, is_loss, where_may};
ghost use Rattle.serve_blocking.specs.Fails.{Fails, TimesOut};
ghost use Rattle.serve_blocking.specs.Served.{Follows, IsWritten};

use crate::pace::Pace;
use crate::{Body, HandleError};
use h1_connection::{Expiry, ReadFromError};
use net_sockets::{TimedSink, TimedSource};

/// How many milliseconds a read waits before the clock is looked at.
const SLICE: u64 = 1000;

impl<S: TimedSource, K: TimedSink> Body<S, K> {
    /// The moment in milliseconds after the start of 1970, where it is known: that of the connection's start, and what
    /// has passed since.
    pub(crate) fn moment(&self) -> Option<u64> {
        match (&self.start, self.source.uptime()) {
            (Some(start), Some(uptime)) => Some(start.moment_at(uptime)),
            _ => self.source.moment(),
        }
    }

    /// How many milliseconds have passed since an uptime, where both are known, and else 0.
    pub(crate) fn time_since(&self, begin: Option<u64>) -> u64 {
        match (begin, self.source.uptime()) {
            (Some(begin), Some(now)) => now.saturating_sub(begin),
            _ => 0,
        }
    }

    /// Tells the connection what time it is. It says whether no time has run out.
    pub(crate) fn tick(&mut self) -> Result<(), HandleError>
        ensures waits { Waits self.old self.new }
        ensures lost { IfErr result (λ e. is_loss e ≡ true) }
        ensures late { IfErr result (λ e. Fails ⊥ (TimesOut self.old self.new) e) }
    {
        let Some(moment) = self.moment() else {
            return Ok(());
        };
        if !self.connection.can_tick(moment) {
            return Ok(());
        }
        match self.note_moment(moment)? {
            Expiry::None | Expiry::Expired(_) => Ok(()),
            Expiry::Abandoned => Err(HandleError::Stalled),
        }
    }

    /// Reads what has come, or that nothing more does, or that time has passed. It says whether something has come.
    pub(crate) fn fill(&mut self) -> Result<bool, HandleError>
        ensures waits { Waits self.old self.new }
        ensures lost { IfErr result (λ e. is_loss e ≡ true) }
    {
        self.wait_for(self.patience());
        let (first, begin) = (self.taken, self.source.uptime());
        let came = self.read_once()?;
        let waited = self.time_since(begin);
        self.tick()?;
        self.note_read(waited, self.taken.saturating_sub(first))?;
        Ok(came)
    }

    /// Writes all that waits. While the peer takes nothing, what it sends is read, as far as there is room for it.
    pub(crate) fn flush(&mut self) -> Result<(), HandleError>
        ensures waits { Waits self.old self.new }
        ensures flushed { OnOk result (IsFlushed self.new.state) }
        ensures lost { IfErr result (λ e. is_loss e ≡ true) }
        ensures idle { IsFlushed self.old.state → IsOk result }
    {
        if !self.has_unwritten() {
            return Ok(());
        }
        for _ in 0..u64::MAX {
            self.write_once()?;
            if !self.has_unwritten() {
                return Ok(());
            }
        }
        Err(HandleError::Stalled)
    }

    // Writes once. Where the peer takes nothing, what it sends is read.
    fn write_once(&mut self) -> Result<(), HandleError>
        requires can_write { (count : ℕ) → IsAllowed self.old.state (on.write count) }
        ensures waits { Waits self.old self.new }
        ensures lost { IfErr result (λ e. is_loss e ≡ true) }
    {
        let begin = self.source.uptime();
        match self.write_stretch() {
            Ok(count) => self.note_write(self.time_since(begin), count as u64),
            Err(_) if self.sink.is_not_now() => {
                self.note_write(self.time_since(begin), 0)?;
                self.read_meanwhile()
            }
            Err(_) => Err(HandleError::Lost),
        }
    }

    /// Writes what the peer takes at once of what waits.
    pub(crate) fn flush_at_once(&mut self)
        ensures waits { Waits self.old self.new }
    {
        for _ in 0..u64::MAX {
            if !self.has_unwritten() {
                return;
            }
            if self.write_stretch().is_err() {
                return;
            }
        }
    }

    /// Writes what waits where it has to be written now: where the connection closes, and where no more may wait.
    pub(crate) fn flush_if_due(&mut self) -> Result<(), HandleError>
        ensures waits { Waits self.old self.new }
        ensures lost { IfErr result (λ e. is_loss e ≡ true) }
    {
        if self.connection.closing().is_some() || self.connection.write_room() == 0 {
            return self.flush();
        }
        Ok(())
    }

    // Whether something waits that may be written.
    fn has_unwritten(&self) -> bool
        ensures some { IsTrue result → (count : ℕ) → IsAllowed self.now.state (on.write count) }
        ensures none { result ≡ false → IsFlushed self.now.state }
        ensures idle { IsFlushed self.now.state → result ≡ false }
    {
        if self.connection.stretch().is_empty() {
            return false;
        }
        self.connection.can_write()
    }

    /// Where the server is to end, no further request is taken.
    pub(crate) fn drain_where(&mut self, is_ending: bool)
        ensures ends { is_ending ≡ true → Does (where_may self.old.state on.drain) self.old self.new }
        ensures stays { is_ending ≡ false → self.new ≡ self.old }
        ensures follows { Follows self.old self.new }
    {
        if !is_ending {
            return;
        }
        if !self.connection.can_drain() {
            return;
        }
        self.drain();
    }

    /// Whether all that was to be written was written.
    pub(crate) fn has_written_all(&self) -> bool
        ensures { IsTrue result → IsWritten self.now.state }
    {
        self.connection.buffered() == 0
    }

    // The peer took nothing for a while.
    fn read_meanwhile(&mut self) -> Result<(), HandleError>
        ensures waits { Waits self.old self.new }
        ensures lost { IfErr result (λ e. is_loss e ≡ true) }
    {
        self.tick()?;
        self.wait_for(0);
        let _came = self.read_once()?;
        self.wait_for(SLICE);
        Ok(())
    }

    // Reads once. It says whether something has come, be it the input's end or that no more may be held.
    fn read_once(&mut self) -> Result<bool, HandleError>
        ensures waits { Waits self.old self.new }
        ensures lost { IfErr result (λ e. is_loss e ≡ true) }
    {
        if !self.connection.can_read() {
            return Ok(true);
        }
        match self.read_bytes() {
            Ok(0) => self.end_input(),
            Ok(count) => self.taken = self.taken.saturating_add(count as u64),
            Err(ReadFromError::Full) => {}
            Err(ReadFromError::Failed) if self.source.is_not_now() => return Ok(false),
            Err(ReadFromError::Failed) => return Err(HandleError::Lost),
            Err(ReadFromError::NoMemory) => return Err(HandleError::NoMemory),
        }
        Ok(true)
    }

    // How many milliseconds to wait for the peer: until the next time runs out, and at most a slice.
    fn patience(&self) -> u64 {
        let (Some(deadline), Some(moment)) = (self.connection.deadline(), self.moment()) else {
            return SLICE;
        };
        deadline.saturating_sub(moment).clamp(1, SLICE)
    }

    // Tells the source how long it may wait, where it doesn't know.
    fn wait_for(&mut self, milliseconds: u64)
        ensures same { self.new ≡ self.old }
    {
        if self.waits != Some(milliseconds) {
            self.source.wait_at_most(milliseconds);
            self.waits = Some(milliseconds);
        }
    }

    // So many bytes came after so many milliseconds. Where a time of the config runs, that alone ends the connection.
    fn note_read(&mut self, waited: u64, count: u64) -> Result<(), HandleError>
        ensures same { self.new ≡ self.old }
        ensures lost { IfErr result (λ e. is_loss e ≡ true) }
    {
        if self.connection.deadline().is_some() {
            self.reads = Pace::new();
            return Ok(());
        }
        let limits = self.limits;
        if self.reads.note(waited, count, limits.stall, limits.least) {
            return Err(HandleError::Stalled);
        }
        Ok(())
    }

    // So many bytes were taken after so many milliseconds.
    fn note_write(&mut self, waited: u64, count: u64) -> Result<(), HandleError>
        ensures same { self.new ≡ self.old }
        ensures lost { IfErr result (λ e. is_loss e ≡ true) }
    {
        let limits = self.limits;
        if self.writes.note(waited, count, limits.stall, limits.least) {
            return Err(HandleError::Stalled);
        }
        Ok(())
    }
}
