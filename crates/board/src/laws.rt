//! What the contracts of a table's calls say of a whole run.
ghost use Rattle.std.specs.Prelude.{◌≡◌, ◌≤◌, ℕ, List, Some, length};
ghost use Rattle.std.specs.List.{slice_get};
ghost use Rattle.h1_connection.specs.State.{fresh_state};
ghost use Rattle.board.specs.Table.{Tabled, Seated};
ghost use Rattle.board.specs.TableRuns.{Turn, Runs, own_events, TakesIn};

/// However the calls for a table's connections are mixed, each connection takes in its own events and the answers to its
/// own requests, as it would alone. So does one that is opened on the way, from its beginning.
pub fn connections_are_apart()
    ensures those_there { (before after : Tabled) (turns : List Turn) (id : ℕ) (was : Seated) → Runs before turns after → slice_get before.seats id ≡ Some was
        → (now : Seated) × (slice_get after.seats id ≡ Some now) × TakesIn was.connection (own_events id turns) now.connection }
    ensures those_opened { (before after : Tabled) (turns : List Turn) (id : ℕ) (now : Seated) → Runs before turns after → length before.seats ≤ id → slice_get after.seats id ≡ Some now
        → TakesIn (fresh_state before.settings) (own_events id turns) now.connection }
{}
