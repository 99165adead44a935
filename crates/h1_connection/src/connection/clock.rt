// The moments that a connection counts from, in milliseconds after the start of 1970.
ghost use Rattle.std.specs.Prelude.{◌≡◌, unwrap_or, Some};
ghost use Rattle.std.specs.Option.{option_or};
ghost use Rattle.model_h1.specs.OutcomeTable.{is_kept_too_long};
ghost use Rattle.h1_connection.specs.EventMeaning.{keep_alive_of};

use http_types::KeepAlive;

/// The moments of the first and of the last tick, and of the last one before the last answer was complete.
#[derive(Clone, Copy)]
pub struct Clock {
    pub first: Option<u64>,
    pub last: Option<u64>,
    pub completed: Option<u64>,
}

impl Clock {
    /// No tick came yet.
    pub fn new() -> Clock
        ensures { result ≡ record { first = None; last = None; completed = None } }
    {
        Clock {
            first: None,
            last: None,
            completed: None,
        }
    }

    /// The moment, which is 0 before the first tick.
    pub fn now(&self) -> u64
        ensures { result ≡ unwrap_or self.now.last 0 }
    {
        self.last.unwrap_or(0)
    }

    /// A tick came.
    pub fn advance(&mut self, moment: u64)
        ensures { self.new ≡ record self.old { first = option_or self.old.first (Some moment); last = Some moment } }
    {
        if self.first.is_none() {
            self.first = Some(moment);
        }
        self.last = Some(moment);
    }
}

/// Whether the time for which an idle connection is kept has run out.
pub fn is_kept_too_long(keep_alive: KeepAlive, since: u64, moment: u64) -> bool
    ensures { result ≡ is_kept_too_long (keep_alive_of keep_alive) since moment }
{
    let KeepAlive::Timeout(wait) = keep_alive else {
        return false;
    };
    match since.checked_add(wait) {
        Some(end) => end <= moment,
        None => false,
    }
}
