// The machine's moment.
ghost use Rattle.std.specs.Prelude.{◌≡◌, min, nat_lt};
ghost use Rattle.model_h1.specs.Limits.{MAX_MOMENT};

use http_transport::Clock;
use net_sockets::moment;
use std::time;

/// The last moment before the year 10000, in milliseconds since 1970.
const LAST_MOMENT: u64 = 253_402_300_799_999;

/// The moment that the machine's clock tells. Where that goes back, or tells nothing, it stands; and it stands at the
/// end of the year 9999. Each connection has a copy.
#[derive(Clone, Copy)]
pub struct MachineClock<R> {
    rt: R,
    last: u64,
}

impl<R: time::Clock> MachineClock<R> {
    /// A clock that has given no moment.
    pub fn new(rt: R) -> MachineClock<R> {
        MachineClock { rt, last: 0 }
    }
}

impl<R: time::Clock + Copy> Clock for MachineClock<R> {
    ghost last = { λ c. min c.last 253402300799999 };

    ghost may_give = { λ _ given. nat_lt given MAX_MOMENT };

    fn now_ms(&mut self) -> u64 {
        let now = moment(&self.rt).unwrap_or(0).min(LAST_MOMENT);
        self.last = self.last.max(now).min(LAST_MOMENT);
        self.last
    }
}
