//! The machine's moment as a clock.
ghost use Rattle.std.specs.Prelude.{◌≡◌, ◌<◌, nat_lt};
ghost use Rattle.model_h1.specs.Limits.{MAX_MOMENT};

use crate::clock::moment;
use http_transport::Clock;
use std::time;

/// The last moment before the year 10000, in milliseconds since 1970.
const LAST_MOMENT: u64 = 253_402_300_799_999;

/// The moment that the machine's clock tells. Where that goes back, or tells nothing, it stands; and it stands at the
/// end of the year 9999.
#[derive(Drop)]
pub struct SystemClock<R> {
    rt: R,
    last: u64,
    ghost bound: { last < MAX_MOMENT },
}

impl<R: time::Clock> SystemClock<R> {
    ghost use Rattle.net_sockets.specs.Moments.{last_moment};

    /// A clock that has given no moment.
    pub fn new(rt: R) -> SystemClock<R>
        ensures fresh { last_moment result ≡ 0 }
    {
        SystemClock { rt, last: 0 }
    }
}

impl<R: time::Clock + Drop> Clock for SystemClock<R> {
    ghost use Rattle.net_sockets.specs.Moments.{last_moment};

    ghost last = { last_moment };

    ghost may_give = { λ _ given. nat_lt given MAX_MOMENT };

    fn now_ms(&mut self) -> u64 {
        let now = moment(&self.rt).unwrap_or(0).min(LAST_MOMENT);
        self.last = self.last.max(now);
        self.last
    }
}
