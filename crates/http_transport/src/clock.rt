//! What gives the time.
ghost use Rattle.std.specs.Prelude.{◌≡◌, ◌≤◌, ◌<◌, ℕ, Bool, true};
ghost use Rattle.model_h1.specs.Limits.{MAX_MOMENT};

/// What gives the time, in milliseconds since 1970.
pub trait Clock: Drop {
    /// The last moment that it gave, or 0.
    ghost last: { Self → ℕ };

    /// It may give this moment.
    ghost may_give: { Self → ℕ → Bool };

    /// The moment now: none below the last one, and none at or past 253402300800000, which is the year 10000.
    fn now_ms(&mut self) -> u64
        ensures last { result ≡ last self.new }
        ensures rises { last self.old ≤ result }
        ensures bound { result < MAX_MOMENT }
        ensures given { may_give self.old result ≡ true }
        ensures same { (moment : ℕ) → may_give self.new moment ≡ may_give self.old moment };
}
