//! A law of each forwarder.

ghost use Rattle.proxy.specs.declared.proxy.Proxy.{Proxy};
ghost use Rattle.proxy.specs.Runs.{IsUsable, IsAForwarder};
ghost use Rattle.proxy_loop.specs.History.{HasHistory};

/// What a `Forwarder` did is what a forwarder does (`proxy::laws::is_a_forwarder`), whatever calls were made: it always has a history, and that
/// is of events that may come, each with all that its call promises.
pub fn is_a_forwarder()
    ensures { (p : Proxy) (had : HasHistory p) → IsUsable p → IsAForwarder had.history p }
{}
