//! What the steps of every run are together.
ghost use Rattle.std.specs.Prelude.{◌≡◌, ℕ, Bool, true, List, Result, Err};
ghost use Rattle.futures.specs.declared.task.Poll.{Poll};
ghost use Rattle.futures.specs.declared.task.Poll.TheVariants.{Ready};
ghost use Rattle.futures.specs.declared.task.context.Context.{Context};
ghost use Rattle.http_config.specs.declared.Failed.{Failed};
ghost use Rattle.http_types.specs.Request.{RequestParts};
ghost use Rattle.http_transport.specs.Wiring.{Wiring};
ghost use Rattle.model_h1.specs.Sums as sums;
ghost use Rattle.model_state.specs.Local.{is_exhausted};
ghost use Rattle.h1_connection.specs.EventMeaning.{setting_of};
ghost use Rattle.h1_traced.specs.Traced.{TracedView, TracedStands};
ghost use Rattle.ws_service.specs.declared.error.UpgradeError.{UpgradeError};
ghost use Rattle.ws_service.specs.declared.error.UpgradeError.TheVariants.{NotUpgraded};
ghost use Rattle.ws_service.specs.Stays.{IsLive};
ghost use Rattle.ws_service.specs.View.{View, Upgrading, closes, view_begun};
ghost use Rattle.ws_service.specs.Steps.{Step, IsStep, IsRun, read, told_end};
ghost use Rattle.ws_service.specs.Polls.{PollSays};
ghost use Rattle.ws_service.specs.Order.{KeepsOrder, StartsWith, AllAnswered};
ghost use Rattle.ws_service.specs.Traces.{IsNoted, AllNoted, AreTraces, NotesTrace};
ghost use Rattle.ws_service.specs.Causes.{HasCause, IsOneRun};

/// Over every run the service is called with the frames that came, in order and once each, and the last one may wait; each call
/// has one answer, but for the one in progress; what is sent are its answers, in order and once each, and the last one may wait. From
/// a new dispatcher on, the request that asked for the upgrade comes before all frames.
pub fn frames_go_in_order()
    ensures runs { (v w : View) (steps : List Step) → IsRun v steps w → KeepsOrder v steps w }
    ensures starts { (request : RequestParts Unit Unit) (traced : TracedView) (listening : Bool) (transport : Wiring) (service : Upgrading) (w : View) (steps : List Step)
        → IsRun (view_begun request traced listening transport service) steps w → StartsWith request steps w }
{}

/// The end of the input is told to the connection only where no whole frame is left of the bytes that came, nothing waits for the
/// service, no call is in progress, and no answer waits. So over every run from a new dispatcher on, each frame that came before it was
/// answered, and each answer was sent.
pub fn the_end_is_told_behind_all_frames()
    ensures left { (v w : View) (trace : List sums.Step) → TracedStands v.traced trace → IsStep v told_end w → is_exhausted v.traced.state.kept ≡ true }
    ensures answered { (request : RequestParts Unit Unit) (traced : TracedView) (listening : Bool) (transport : Wiring) (service : Upgrading) (v w : View) (steps : List Step)
        → IsRun (view_begun request traced listening transport service) steps v → IsStep v told_end w → AllAnswered request steps }
{}

/// Over every run in which memory doesn't run out, the steps of the connection that were noted are a trace of it, whatever came
/// before: its reads took what the transport gave, all of it and in order, and what the transport took is what was written. The frames
/// that the trace hands out came to the dispatcher, and the messages that it sends are those that the dispatcher sent, each in
/// order, and no other.
pub fn runs_are_traces()
    ensures { (v w : View) (steps : List Step) → AllNoted steps → IsRun v steps w → AreTraces v steps w }
{}

/// After the first step of a run in which memory runs out, what was noted is a trace of the connection still, whatever came
/// before.
pub fn runs_note_traces()
    ensures { (v u w : View) (steps : List Step) (step : Step) (trace : List sums.Step) → TracedStands v.traced trace → AllNoted steps → IsRun v steps u → ¬ IsNoted step → IsStep u step w → NotesTrace (setting_of u.traced.state.settings) w.traced.noted trace }
{}

/// A poll is one run of steps: the moment, the drain and the turns. Memory runs out in none of them, unless the poll answered
/// so.
pub fn polls_are_runs()
    ensures { (v w : View) (cx : Context) (moment : ℕ) (result : Poll (Result Unit UpgradeError)) → PollSays v w cx moment result → IsOneRun v w result }
{}

/// Each result of a poll has its cause. Ok comes only where the connection told its end, and the transport shows that it was shut
/// down; `Upgrade` only where the service's count of failures rose in this poll, and `Io` only where the transport's did;
/// `DisconnectTimeout` only where a moment abandoned the connection; `NotUpgraded` only where the connection isn't one that was
/// upgraded, or had ended before; `NoMemory` only where memory ran out in it or before.
pub fn polls_end_by_their_cause()
    ensures { (v w : View) (cx : Context) (moment : ℕ) (result : Result Unit UpgradeError) → PollSays v w cx moment (Ready result) → HasCause v w result }
{}

/// No byte is asked for while the connection closes.
pub fn nothing_is_read_while_it_closes()
    ensures { (v w : View) (came : List ℕ) (answer : Poll (Result ℕ Failed)) → closes v ≡ true → ¬ IsStep v (read came answer) w }
{}

/// A connection that speaks WebSocket stays so, over every run in which memory doesn't run out, and until the dispatcher has ended
/// something is allowed. So no poll over one answers `NotUpgraded`.
pub fn an_upgraded_connection_stays_so()
    ensures runs { (v w : View) (steps : List Step) (trace : List sums.Step) → TracedStands v.traced trace → AllNoted steps → IsRun v steps w → IsLive v → IsLive w }
    ensures polls { (v w : View) (cx : Context) (moment : ℕ) (trace : List sums.Step) → TracedStands v.traced trace → IsLive v → ¬ PollSays v w cx moment (Ready (Err NotUpgraded)) }
{}
