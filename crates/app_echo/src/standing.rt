//! A clock that stands still.
use http_transport::Clock;

/// The last moment before the year 10000, in milliseconds since 1970.
const LAST_MOMENT: u64 = 253_402_300_799_999;

/// A clock that gives one moment again and again, so that a run can be repeated byte by byte.
#[derive(Drop)]
pub struct StandingClock {
    /// In milliseconds since 1970. From the year 10000 on it stands at the end of the year 9999.
    pub moment: u64,
}

impl Clock for StandingClock {
    ghost use Rattle.std.specs.Prelude.{min, nat_eq};
    ghost use Rattle.app_echo.specs.declared.standing.TheConstants.{LAST_MOMENT};

    ghost last = { λ clock. min clock.moment LAST_MOMENT };

    ghost may_give = { λ clock given. nat_eq given (min clock.moment LAST_MOMENT) };

    fn now_ms(&mut self) -> u64 {
        self.moment.min(LAST_MOMENT)
    }
}
