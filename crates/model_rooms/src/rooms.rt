//! Laws of a hub: what holds after all that may happen to it.

ghost use Rattle.std.specs.Prelude.{◌≡◌, ◌≤◌, ◌+◌, ◌==◌, List, ◌∷◌, ◌++◌, ℕ, length, map, filter, Option, Some, IsFalse};
ghost use Rattle.std.specs.List.{AllByRecursion};
ghost use Rattle.model_h1.specs.Limits.{MAX_FRAME_HEAD};
ghost use Rattle.model_h1.specs.Setting.{Setting};
ghost use Rattle.model_h1.specs.Event.{Event};
ghost use Rattle.model_h1.specs.Sums.{request};
ghost use Rattle.model_h1.specs.Frame.{Frame};
ghost use Rattle.model_h1.specs.Past.{ParsedStep};
ghost use Rattle.model_h1.specs.Allowed.{is_over, is_allowed};
ghost use Rattle.model_h1.specs.Trace.{IsPastOf, IsAllowed, IsTrace};
ghost use Rattle.http_uri.specs.Grammar.{IsUriText};
ghost use Rattle.model_rooms.specs.Room.{parts_path, room_of};
ghost use Rattle.model_rooms.specs.Hub.{opens, Move, move_of};
ghost use Rattle.model_rooms.specs.Member.{MAX_WAITING, row_behind};
ghost use Rattle.model_rooms.specs.Seen.{Seen, row_of};
ghost use Rattle.model_rooms.specs.Turn.{tried, turn_event, asked_event};
ghost use Rattle.model_rooms.specs.Due.{messages, due_messages, due, sent_to, is_data, is_close};
ghost use Rattle.model_rooms.specs.Trace.{core_trace, IsTurnEvent, IsHubTrace};
ghost use Rattle.model_rooms.specs.Laws.{IsNoRefusal, IsPartOf};

/// The room of a target is the path of the parts that it is read as.
pub fn rooms_are_paths()
    ensures { (target : List ℕ) (scheme authority : Option (List ℕ)) (kept : List ℕ) → IsUriText target scheme authority kept
        → room_of target ≡ parts_path scheme kept }
{}

/// What happens to one connection of a hub is a trace of that connection.
pub fn cores_are_traces()
    ensures { (setting : Setting) (seen : List Seen) (i : ℕ) → IsHubTrace setting seen → IsTrace setting (core_trace i seen) }
{}

/// The events fix the trace: a hub to which the same happens answers the same, and has the same rows.
pub fn events_fix_the_trace()
    ensures { (setting : Setting) (a b : List Seen) → IsHubTrace setting a → IsHubTrace setting b
        → map (λ s. s.step.event) a ≡ map (λ s. s.step.event) b → a ≡ b }
{}

/// The event of a turn is allowed, unless the connection is over. The hold size is at least the bytes of a frame's head.
pub fn each_turn_is_allowed()
    ensures { (setting : Setting) (seen : List Seen) (i : ℕ) (event : Event) → MAX_FRAME_HEAD ≤ setting.hold_size → IsHubTrace setting seen
        → IsFalse (is_over (core_trace i seen)) → IsTurnEvent setting seen i event → IsAllowed setting (core_trace i seen) event }
{}

/// The rules of a turn are questions for what is allowed: whether the next request may be asked for, else whether an upgrade
/// that wasn't tried may be accepted, else whether an answer may come, else whether the first frame that waits may be sent.
/// The next frame is taken where none of them may.
pub fn a_turn_asks()
    ensures { (setting : Setting) (seen : List Seen) (i : ℕ) (past : List ParsedStep) (waiting : List Frame) → MAX_FRAME_HEAD ≤ setting.hold_size
        → IsHubTrace setting seen → IsFalse (is_over (core_trace i seen)) → IsPastOf setting (core_trace i seen) past
        → turn_event setting past waiting ≡ asked_event (is_allowed setting past) setting (tried (core_trace i seen)) waiting }
{}

/// No frame that a hub sends is refused: fragments of two messages never mix.
pub fn no_send_is_refused()
    ensures { (setting : Setting) (seen : List Seen) (i : ℕ) → IsHubTrace setting seen → AllByRecursion IsNoRefusal (core_trace i seen) }
{}

/// What was sent to a member of messages, and then what waits, is what is due to it: each message that another one said in
/// its room while it was in, whole, once, and in the order in which they were completed.
pub fn sent_and_waiting_are_due()
    ensures { (setting : Setting) (seen : List Seen) (i : ℕ) → IsHubTrace setting seen
        → filter is_data (sent_to i seen ++ (row_of i seen).waiting) ≡ due i seen }
{}

/// No waiting list has more than 1025 frames, and no member is sent more than one Close.
pub fn lists_are_bounded()
    ensures frames { (setting : Setting) (seen : List Seen) (i : ℕ) → IsHubTrace setting seen → length (row_of i seen).waiting ≤ MAX_WAITING + 1 }
    ensures closes { (setting : Setting) (seen : List Seen) (i : ℕ) → IsHubTrace setting seen
        → length (filter is_close (sent_to i seen ++ (row_of i seen).waiting)) ≤ 1 }
{}

/// Of what one member said, another one is due some, in the order in which it was said.
pub fn order_is_kept()
    ensures { (i j : ℕ) (seen : List Seen) → IsPartOf (filter (λ m. m.number == i) (due_messages j seen)) (filter (λ m. m.number == i) (messages seen)) }
{}

/// What a step makes of a member's row is said by that row and the row of the one that moves: a member that doesn't read
/// changes nothing for others. Opening a connection changes no row.
pub fn each_row_changes_alone()
    ensures moved { (setting : Setting) (s : Seen) (before : List Seen) (move : Move) (i : ℕ) → IsHubTrace setting (s ∷ before)
        → move_of s.step ≡ Some move → row_of i (s ∷ before)
        ≡ row_behind (request (core_trace move.number before)) s.closes move (row_of move.number before) i (row_of i before) }
    ensures opened { (s : Seen) (before : List Seen) (i : ℕ) → s.step.event ≡ opens → row_of i (s ∷ before) ≡ row_of i before }
{}
