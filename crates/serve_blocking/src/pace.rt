//! How fast bytes move while they are waited for.
ghost use Rattle.std.specs.Prelude.{◌≡◌, ◌+◌, min};
ghost use Rattle.serve_blocking.specs.Pace.{longest, is_slow, goes_on};

/// How many bytes moved one way, and how many milliseconds were waited for them, since the last look.
#[derive(Clone, Copy, Debug, PartialEq, Eq, Drop)]
pub struct Pace {
    pub waited: u64,
    pub moved: u64,
}

impl Pace {
    /// Nothing has moved, and nothing was waited for.
    pub fn new() -> Pace
        ensures { result ≡ record { waited = 0; moved = 0 } }
    {
        Pace {
            waited: 0,
            moved: 0,
        }
    }

    /// So many bytes moved after so many milliseconds. It says whether the peer is too slow: once it was waited for
    /// `stall` milliseconds, fewer than `least` bytes have moved. Then both are counted anew.
    pub fn note(&mut self, waited: u64, moved: u64, stall: u64, least: u64) -> bool
        ensures slow { result ≡ is_slow stall least (min (self.old.waited + waited) longest) (min (self.old.moved + moved) longest) }
        ensures goes_on { self.new ≡ goes_on stall (min (self.old.waited + waited) longest) (min (self.old.moved + moved) longest) }
    {
        self.waited = self.waited.saturating_add(waited);
        self.moved = self.moved.saturating_add(moved);
        if self.waited < stall {
            return false;
        }
        let is_slow = self.moved < least;
        *self = Pace::new();
        is_slow
    }
}
