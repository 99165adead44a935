//! For how long nothing may move.
ghost use Rattle.std.specs.Prelude.{◌≡◌, IfErr};
ghost use Rattle.app_get.specs.Patience.{left_of};

use crate::error::GetError;
use net_sockets::TimedSource;

/// For how many milliseconds nothing may move, and since when nothing did.
#[derive(Clone, Copy)]
pub struct Patience {
    wait: u64,
    since: u64,
}

impl Patience {
    /// From now on.
    pub fn begin<S: TimedSource>(source: &S, wait: u64) -> Patience
        ensures { result.wait ≡ wait }
    {
        Patience {
            wait,
            since: source.uptime().unwrap_or(0),
        }
    }

    /// Something has moved.
    pub fn renew<S: TimedSource>(&mut self, source: &S)
        ensures { self.new.wait ≡ self.old.wait }
    {
        self.since = source.uptime().unwrap_or(0);
    }

    /// How many milliseconds are left, one at least, or `Late`.
    pub fn left<S: TimedSource>(&self, source: &S) -> Result<u64, GetError>
        ensures { IfErr result (λ error. error ≡ GetError.Late) }
    {
        self.left_at(source.uptime().unwrap_or(0))
    }

    // The same at this moment.
    fn left_at(&self, now: u64) -> Result<u64, GetError>
        ensures { result ≡ left_of self.now.wait self.now.since now }
    {
        match self.wait.saturating_sub(now.saturating_sub(self.since)) {
            0 => Err(GetError::Late),
            left => Ok(left),
        }
    }
}
