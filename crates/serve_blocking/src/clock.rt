//! The time of a connection.
ghost use Rattle.std.specs.Prelude.{◌≡◌, ◌+◌, ◌-◌, min};
ghost use Rattle.serve_blocking.specs.Pace.{longest};

use net_sockets::TimedSource;

/// When a connection began, by both clocks, in milliseconds.
#[derive(Clone, Copy, Debug, PartialEq, Eq, Drop)]
pub struct Start {
    /// After the start of 1970.
    pub moment: u64,

    /// After some start, by a clock that isn't set.
    pub uptime: u64,
}

impl Start {
    /// Now, where the source knows both.
    pub fn of<S: TimedSource>(source: &S) -> Option<Start> {
        Some(Start {
            moment: source.moment()?,
            uptime: source.uptime()?,
        })
    }

    /// The moment at this uptime: the first one, and what has passed since. So a clock that is set changes nothing.
    pub fn moment_at(&self, uptime: u64) -> u64
        ensures { result ≡ min (self.now.moment + (uptime - self.now.uptime)) longest }
    {
        self.moment
            .saturating_add(uptime.saturating_sub(self.uptime))
    }
}
