//! The laws of a whole run.
ghost use Rattle.std.specs.Prelude.{◌≡◌, List};
ghost use Rattle.http_config.specs.Config.{Settings};
ghost use Rattle.h1_connection.specs.Run.{IsWhole};
ghost use Rattle.h1_connection.specs.declared.event.Event.{Event};
ghost use Rattle.h1_connection.specs.declared.trace.Trace.{Trace};

/// The events fix the trace of a whole run.
pub fn whole_runs_are_one()
    ensures { (settings : Settings) (events : List Event) (a b : Trace) (x : IsWhole settings events a) (y : IsWhole settings events b) → x.model ≡ y.model }
{}
