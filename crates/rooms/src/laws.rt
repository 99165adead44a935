//! What members are promised, of every run of a hub.
ghost use Rattle.std.specs.Prelude.{ℕ, List};
ghost use Rattle.http_config.specs.Config.{Settings};
ghost use Rattle.model_rooms.specs.Seen.{Seen};
ghost use Rattle.rooms.specs.Hub.{HubState, HubStands};
ghost use Rattle.rooms.specs.Run.{IsDriven};
ghost use Rattle.rooms.specs.Served.{IsServed};
ghost use Rattle.rooms.specs.declared.event.HubEvent.{HubEvent};
ghost use Rattle.rooms.specs.declared.driver.HubTrace.{HubTrace};

/// Each member is sent what the others said in its room while it was in, whole, once and in order. How much waits for it is
/// bounded.
pub fn each_member_is_served()
    ensures { (settings : Settings) (events : List HubEvent) (trace : HubTrace) (seen : List Seen) (i : ℕ)
        → IsDriven settings events trace seen → IsServed seen i }
{}

/// The same of every hub, at each moment: whoever feeds it from sockets, and gives it turns.
pub fn each_member_of_a_hub_is_served()
    ensures { (hub : HubState) (seen : List Seen) (i : ℕ) → HubStands hub seen → IsServed seen i }
{}
