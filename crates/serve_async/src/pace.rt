//! How fast bytes move on a connection while no time of its config runs.
ghost use Rattle.std.specs.Prelude.{◌≡◌};
ghost use Rattle.serve_async.specs.Pace.{is_idle, is_to_look, is_slow, seen_by, is_over, noted, next_note};

use crate::limits::Limits;

/// How many bytes had moved at the last poll; when one was last seen to have moved; and when it was last looked at how many
/// had, and how many had by then.
#[derive(Clone, Copy, Debug)]
pub struct Pace {
    moved: u64,
    seen: u64,
    looked: u64,
    counted: u64,
}

impl Pace {
    /// From this moment on, by which so many bytes have moved.
    pub fn new(moment: u64, moved: u64) -> Pace
        ensures { result ≡ record { moved = moved; seen = moment; looked = moment; counted = moved } }
    {
        Pace {
            moved,
            seen: moment,
            looked: moment,
            counted: moved,
        }
    }

    /// Notes that so many bytes have moved by this moment. It says whether the peer is to be given up: no byte has moved for
    /// `idle` milliseconds, or within `stall` milliseconds some have, but fewer than `least`.
    pub fn note(&mut self, moment: u64, moved: u64, limits: &Limits) -> bool
        ensures over { result ≡ is_over limits.now self.old moment moved }
        ensures noted { self.new ≡ noted limits.now self.old moment moved }
    {
        let is_idle = self.is_idle(moment, moved, limits);
        let seen = self.seen_by(moment, moved);
        if self.is_to_look(moment, limits) {
            let is_slow = self.is_slow(moved, limits);
            *self = Pace {
                moved,
                seen,
                looked: moment,
                counted: moved,
            };
            return is_idle || is_slow;
        }
        self.moved = moved;
        self.seen = seen;
        is_idle
    }

    /// When it is to be noted again at the latest.
    pub fn next(&self, limits: &Limits) -> u64
        ensures { result ≡ next_note limits.now self.now }
    {
        let idle = self.seen.saturating_add(limits.idle);
        idle.min(self.looked.saturating_add(limits.stall))
    }

    // No byte has moved since the last poll, and none for as long as may be.
    fn is_idle(&self, moment: u64, moved: u64, limits: &Limits) -> bool
        ensures { result ≡ is_idle limits.now self.now moment moved }
    {
        if moved > self.moved {
            return false;
        }
        limits.idle <= moment.saturating_sub(self.seen)
    }

    // It is time to look at how many have moved since the last look.
    fn is_to_look(&self, moment: u64, limits: &Limits) -> bool
        ensures { result ≡ is_to_look limits.now self.now moment }
    {
        limits.stall <= moment.saturating_sub(self.looked)
    }

    // Some have moved since then, but too few.
    fn is_slow(&self, moved: u64, limits: &Limits) -> bool
        ensures { result ≡ is_slow limits.now self.now moved }
    {
        if moved <= self.counted {
            return false;
        }
        moved.saturating_sub(self.counted) < limits.least
    }

    // When a byte was last seen to have moved.
    fn seen_by(&self, moment: u64, moved: u64) -> u64
        ensures { result ≡ seen_by self.now moment moved }
    {
        if moved <= self.moved {
            return self.seen;
        }
        moment
    }
}
