// When the next time runs out.
ghost use Rattle.std.specs.Prelude.{◌≡◌, ◌&&◌, not, is_none, None, unwrap_or};
ghost use Rattle.std.specs.Option.{option_or};
ghost use Rattle.model_h1.specs.Deadline.{timeout_at, kept_until, still_comes};
ghost use Rattle.model_state.specs.Local.{closing_by};
ghost use Rattle.model_state.specs.Deadline.{abandoned_at, waits_for_first, waits_for_next, expires_at, times_out_at, deadline_by};
ghost use Rattle.h1_connection.specs.EventMeaning.{setting_of, keep_alive_of};
ghost use Rattle.h1_connection.specs.Parts.{kept_of, MayBeSearched};
ghost use Rattle.h1_connection.specs.Ticks.{clipped};

use crate::connection::allowed::MOMENTS_END;
use crate::connection::parts::Parts;
use http_types::{KeepAlive, ServiceConfig};

impl Parts {
    /// The least moment whose tick would tell that a time has run out, if there is one.
    pub fn deadline(&self, config: &ServiceConfig) -> Option<u64>
        requires { MayBeSearched self.now }
        ensures { result ≡ deadline_by (setting_of config.now) (kept_of self.now) }
    {
        if self.is_over {
            return None;
        }
        still_comes(self.clock.now(), self.times_out_at(config))
    }

    fn times_out_at(&self, config: &ServiceConfig) -> Option<u64>
        requires { MayBeSearched self.now }
        ensures { result ≡ clipped (times_out_at (setting_of config.now) (kept_of self.now) (closing_by (setting_of config.now) (kept_of self.now))) }
    {
        match self.closing(config) {
            Some(_) => self.abandoned_at(config),
            None => self.expires_at(config),
        }
    }

    // When bytes that the peer doesn't take are given up.
    fn abandoned_at(&self, config: &ServiceConfig) -> Option<u64>
        ensures { result ≡ clipped (abandoned_at (setting_of config.now) (kept_of self.now)) }
    {
        if self.output.is_empty() {
            return None;
        }
        match self.closing_tick() {
            Some(tick) => config.client_disconnect_deadline(tick),
            None => None,
        }
    }

    // The tick from which the end of a connection that closes counts.
    fn closing_tick(&self) -> Option<u64>
        ensures { result ≡ option_or (unwrap_or self.now.closing_since None) self.now.clock.first }
    {
        match self.closing_since {
            Some(Some(tick)) => Some(tick),
            _ => self.clock.first,
        }
    }

    // When the first head should have come, or the next request.
    fn expires_at(&self, config: &ServiceConfig) -> Option<u64>
        ensures { result ≡ clipped (expires_at (setting_of config.now) (kept_of self.now)) }
    {
        if self.waits_for_first() {
            return self.first_deadline(config);
        }
        if self.waits_for_next() {
            return kept_until(config.keep_alive(), self.completed_tick());
        }
        None
    }

    fn first_deadline(&self, config: &ServiceConfig) -> Option<u64>
        ensures { result ≡ clipped (timeout_at config.now.client_request_timeout self.now.clock.first) }
    {
        match self.clock.first {
            Some(tick) => config.client_request_deadline(tick),
            None => None,
        }
    }

    fn completed_tick(&self) -> Option<u64>
        ensures { result ≡ option_or self.now.clock.completed self.now.clock.first }
    {
        match self.clock.completed {
            Some(tick) => Some(tick),
            None => self.clock.first,
        }
    }

    // No head was handed out, and none is coming.
    fn waits_for_first(&self) -> bool
        ensures { result ≡ waits_for_first (kept_of self.now) }
    {
        self.exchange.is_none() && !self.input.is_coming()
    }

    // The last request is done with, and no byte of another one has come.
    fn waits_for_next(&self) -> bool
        ensures { result ≡ waits_for_next (kept_of self.now) }
    {
        let is_empty = self.input.len() == 0;
        self.has_done() && is_empty
    }
}

// Until when an idle connection is kept.
fn kept_until(keep_alive: KeepAlive, since: Option<u64>) -> Option<u64>
    ensures { result ≡ clipped (kept_until (keep_alive_of keep_alive) since) }
{
    let KeepAlive::Timeout(wait) = keep_alive else {
        return None;
    };
    match since {
        Some(tick) => tick.checked_add(wait),
        None if wait == 0 => Some(0),
        None => None,
    }
}

// The moment, but not before now, and none from the year 10000 on.
fn still_comes(now: u64, moment: Option<u64>) -> Option<u64>
    ensures { result ≡ still_comes now moment }
{
    match moment {
        Some(moment) if now.max(moment) < MOMENTS_END => Some(now.max(moment)),
        _ => None,
    }
}
