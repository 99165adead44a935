//! The law that a new connection with the usual settings takes what is generated.
ghost use Rattle.std.specs.Prelude.{◌≡◌, ℕ, ◌<◌, ◌^◌, List, map};
ghost use Rattle.http_config.specs.Config.{default_settings};
ghost use Rattle.h1_connection.specs.EventMeaning.{event_of};
ghost use Rattle.h1_connection.specs.Run.{AreAllowed};
ghost use Rattle.h1_connection.specs.declared.event.Event.{Event};
ghost use Rattle.h1_generated.specs.Generated.{generated};

/// Events that say what is generated of a seed are all allowed, so that `drive` refuses none of them.
pub fn generated_events_are_allowed()
    ensures { (events : List Event) (seed count : ℕ) → count < 2 ^ 64 → map event_of events ≡ generated seed count
        → AreAllowed default_settings events }
{}
