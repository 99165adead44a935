//! The two clocks, in milliseconds.
use std::time::Clock;

/// The moment in milliseconds after the start of 1970, where the clock tells it. It may go back.
pub fn moment<R: Clock>(rt: &R) -> Option<u64> {
    let since = rt.since_1970().ok()?;
    u64::try_from(since.as_millis()).ok()
}

/// The milliseconds since some start, where the clock tells them. They don't go back.
pub fn uptime<R: Clock>(rt: &R) -> Option<u64> {
    let since = rt.monotonic().ok()?;
    u64::try_from(since.as_millis()).ok()
}
