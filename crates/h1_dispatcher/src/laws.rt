//! What the steps of every run are together.
ghost use Rattle.std.specs.Prelude.{◌≡◌, ◌≤◌, ℕ, Bool, true, false, List, Option, Some, None, [], ◌∷◌, length, Result, Err};
ghost use Rattle.std.specs.List.{AllByRecursion};
ghost use Rattle.futures.specs.declared.task.Poll.TheVariants.{Ready};
ghost use Rattle.futures.specs.declared.task.context.Context.{Context};
ghost use Rattle.http_config.specs.Config.{Settings};
ghost use Rattle.http_types.specs.declared.error.DispatchError.{DispatchError};
ghost use Rattle.http_bodies.specs.Giving.{Giving, Piece};
ghost use Rattle.http_bodies.specs.declared.body.fault.BodyFault.TheVariants.{Body};
ghost use Rattle.http_services.specs.Serving.{Serving};
ghost use Rattle.http_transport.specs.Peer.{PeerAddress};
ghost use Rattle.http_transport.specs.Wiring.{Wiring};
ghost use Rattle.model_h1.specs.Sums as sums;
ghost use Rattle.model_state.specs.Local.{has_room};
ghost use Rattle.h1_connection.specs.EventMeaning.{setting_of};
ghost use Rattle.h1_connection.specs.State.{IsMarked, IsCounted};
ghost use Rattle.h1_traced.specs.Traced.{TracedStands};
ghost use Rattle.h1_connection.specs.declared.connection.heads.NextHead.{NextHead};
ghost use Rattle.h1_connection.specs.declared.connection.heads.NextHead.TheVariants.{Pending};
ghost use Rattle.h1_dispatcher.specs.View.{View, Asking, Answer, closes, has_write_room, HasNoByte, view_begun};
ghost use Rattle.h1_dispatcher.specs.Steps.{Step, IsStep, IsRun, Polls, Wants, next, pulled, replied, sent, stage_replied};
ghost use Rattle.h1_dispatcher.specs.Bounds.{HasRoomForAnswer, GrowsInRoom};
ghost use Rattle.h1_dispatcher.specs.Bodies.{SendsBody, OnlyEnds};
ghost use Rattle.h1_payload.specs.declared.pulled.Pulled.{Pulled};
ghost use Rattle.h1_connection.specs.Steps.{Pair};
ghost use Rattle.h1_dispatcher.specs.Feeds.{CameBody, body_after, HasBody, HasQueueBound};
ghost use Rattle.h1_dispatcher.specs.Memory.{TakesMemory};
ghost use Rattle.h1_dispatcher.specs.Order.{KeepsOrder, waits_in};
ghost use Rattle.h1_dispatcher.specs.Peers.{AreFrom, TellsPeer};
ghost use Rattle.h1_dispatcher.specs.Open.{IsTied, StaysTied};
ghost use Rattle.h1_dispatcher.specs.Traces.{IsNoted, AllNoted, AreTraces, NotesTrace};
ghost use Rattle.h1_dispatcher.specs.Acts.{Act, ActsSay, AreOneRun};
ghost use Rattle.h1_dispatcher.specs.Causes.{HasCause};
ghost use Rattle.h1_dispatcher.specs.Upgrades.{HoldsNone, AsksNoHold, StaysUnheld};
ghost use Rattle.h1_dispatcher.specs.Polls.{PollSays};

/// Polls one after another, with drains asked for between them, are one run of steps: the moment, the drain and the turns
/// of each. Memory runs out in none of its steps, unless a poll answered so. And unless one did, no answer of the service is
/// at hand after them that wasn't handed on to the connection: where the traced connection stands for a trace and none was at hand before.
pub fn polls_are_one_run()
    ensures { (v w : View) (acts : List Act) → ActsSay v acts w → AreOneRun v acts w }
{}

/// Where no byte is held, and some may be, no head is there: it would be pending if it were asked for, while the connection
/// doesn't close. So a poll that is pending needn't have asked.
pub fn no_head_comes_of_no_byte()
    ensures { (v w : View) (peer : PeerAddress) (head : NextHead) (trace : List sums.Step) → TracedStands v.traced trace → closes v ≡ false → HasNoByte v → IsStep v (next peer head) w → head ≡ Pending }
{}

/// Each result of a poll has its cause. Ok, `Parse`, `SlowRequestTimeout` and `Body` come only where the connection told such
/// an end, and the transport shows that it was shut down; `DisconnectTimeout` only where a moment abandoned the connection; `Io`
/// only where the transport's count of failures rose in this poll; `NoMemory` only where memory ran out in it or before. Of
/// `Parse` only `Header` and `TooLarge` come. No other error comes.
pub fn polls_end_by_their_cause()
    ensures { (v w : View) (cx : Context) (moment : ℕ) (result : Result Unit DispatchError) → PollSays v w cx moment (Ready result) → HasCause v w result }
{}

/// Over every run in which memory doesn't run out, the steps of the connection that were noted are a trace of it, whatever
/// came before: its reads took what the transport gave, all of it and in order, and what the transport took is what was written. The
/// heads that it hands out are those of the requests that came to the dispatcher, each its own, and behind each what it hands
/// out of its body is what came of that, all of it and in order.
/// Each answer that was handed on stands in that trace with its head and the size of its body, and behind it all that came
/// of the body, in order. Where the body bytes among those that wait, and the number of heads that were read ahead, are those
/// of the trace before, they are those of the longer trace; for a new dispatcher they are those of the empty one.
pub fn runs_are_traces()
    ensures runs { (v w : View) (steps : List Step) → AllNoted steps → IsRun v steps w → AreTraces v steps w }
    ensures marks { (transport : Wiring) (service : Serving Asking Answer Answer) (settings : Settings) (peer : PeerAddress) (noted : Option (List Pair)) (listens : Bool) → IsMarked (view_begun transport service settings peer noted listens).traced.state [] }
    ensures ahead { (transport : Wiring) (service : Serving Asking Answer Answer) (settings : Settings) (peer : PeerAddress) (noted : Option (List Pair)) (listens : Bool) → IsCounted (view_begun transport service settings peer noted listens).traced.state [] }
{}

/// After the first step of a run in which memory runs out, what was noted is a trace of the connection still, whatever came
/// before.
pub fn runs_note_traces()
    ensures { (v u w : View) (steps : List Step) (step : Step) (trace : List sums.Step) → TracedStands v.traced trace → AllNoted steps → IsRun v steps u → ¬ IsNoted step → IsStep u step w → NotesTrace (setting_of u.traced.state.settings) w.traced.noted trace }
{}

/// Where nobody listens, memory runs out only where it is taken: over every run, the first step in which it runs out is one of
/// an event that takes some, or bytes that came of a request's body were fed, or an answer's body was itself out of memory. It
/// doesn't run out for the input's end, the rest of a body that is dropped, a drain, or bytes that were written.
pub fn runs_lack_what_they_take()
    ensures { (v u w : View) (steps : List Step) (step : Step) → v.traced.listens ≡ false → AllNoted steps → IsRun v steps u → IsStep u step w → TakesMemory u step }
{}

/// Over every run requests are called, or refused, in the order in which their heads were handed out; the last one may
/// wait. Each has one answer, but for the one whose call is in progress. Answers are handed on in the order in which they
/// came, all of them; the last one may wait.
pub fn runs_keep_order()
    ensures { (v w : View) (steps : List Step) → IsRun v steps w → KeepsOrder v steps w }
{}

/// Over every run each request that comes, each that the service is called with, and the one that waits, also where it is held
/// back, has the address of the dispatcher's peer, which stays; where the one that waited before has it, and none waits for a
/// new dispatcher.
pub fn runs_tell_the_peer()
    ensures new { (transport : Wiring) (service : Serving Asking Answer Answer) (settings : Settings) (peer : PeerAddress) (noted : Option (List Pair)) (listens : Bool) → AreFrom peer (waits_in (view_begun transport service settings peer noted listens).stage) }
    ensures runs { (v w : View) (steps : List Step) → IsRun v steps w → AreFrom v.peer (waits_in v.stage) → TellsPeer v steps w }
{}

/// Over every run the body that goes out gives its chunks once and in order, up to the next answer; where its end was handed
/// on, it had no more to give. So it is for each answer that is handed on: its body is polled from then on, unless it has no
/// byte, and none is polled where none goes out. It is polled only where fewer bytes wait to be written than the settings'
/// write buffer size. Once it has failed the connection closes, and over every run in which memory doesn't run out all that
/// comes after is its end: what waits is written, and nothing is read, begun, answered or polled.
pub fn runs_send_bodies()
    ensures runs { (v w : View) (steps : List Step) → IsRun v steps w → SendsBody v.stage steps w }
    ensures answers { (v w : View) (answer : Answer) (steps : List Step) → IsRun v (replied answer ∷ steps) w → SendsBody (stage_replied answer.body answer.body.size) steps w }
    ensures bounded { (v : View) (left : Giving) (piece : Piece) → Polls v left piece → has_room (setting_of v.traced.state.settings) v.traced.state.kept ≡ true }
    ensures failed { (v w : View) (number : ℕ) (steps : List Step) (trace : List sums.Step) → TracedStands v.traced trace → AllNoted steps → IsRun v (sent (Ready (Some (Err (Body number)))) ∷ steps) w → OnlyEnds steps w }
{}

/// Over every run what was fed to the queue of a request's body is what came of the body, once and in order: as long as the
/// request waits for the service, or its call is in progress and its taking is known, what the call took and what waits are
/// together all bytes that came of the body since its head, and its fault, if that came once; and the queue has the body's end
/// and its trailers where those came. More of a body is asked for only where the queue wants it: the service hasn't dropped
/// it, and fewer than 32768 bytes wait beyond those that were put back. So over every run in which memory doesn't run out
/// fewer bytes wait there than that and as many as the connection may hold, and it holds no more than that. Over such a run a
/// body has one fault at most.
pub fn runs_feed_bodies()
    ensures runs { (v w : View) (steps : List Step) (body : CameBody) → IsRun v steps w → HasBody body v.stage v.queue → HasBody (body_after body steps) w.stage w.queue }
    ensures wanted { (v w : View) (piece : Pulled) → IsStep v (pulled piece) w → Wants v }
    ensures new { (transport : Wiring) (service : Serving Asking Answer Answer) (settings : Settings) (peer : PeerAddress) (noted : Option (List Pair)) (listens : Bool) (body : CameBody) → HasBody body (view_begun transport service settings peer noted listens).stage (view_begun transport service settings peer noted listens).queue × HasQueueBound (view_begun transport service settings peer noted listens) }
    ensures bound { (v w : View) (steps : List Step) (trace : List sums.Step) → TracedStands v.traced trace → AllNoted steps → IsRun v steps w → HasQueueBound v → HasQueueBound w }
    ensures once { (v w : View) (steps : List Step) (body : CameBody) (trace : List sums.Step) → TracedStands v.traced trace → AllNoted steps → IsRun v steps w → body.faults ≡ [] → length (body_after body steps).faults ≤ 1 }
    ensures held { (v : View) (trace : List sums.Step) → TracedStands v.traced trace → length v.traced.state.kept.unread ≤ v.traced.state.settings.h1_hold_size }
{}

/// Over every run in which memory doesn't run out, an open request without an answer waits for the service, or its call is
/// in progress, or its answer is to be handed on; and a request for which one of these holds is open and has no answer. The
/// body of an answer that isn't whole is at hand, and may be polled while the connection goes on, wherever there is room for
/// a piece of it. So it is for a new dispatcher whose recorder knows of no step.
pub fn runs_lose_no_request()
    ensures new { (transport : Wiring) (service : Serving Asking Answer Answer) (settings : Settings) (peer : PeerAddress) (listens : Bool) → IsTied (view_begun transport service settings peer None listens) × IsTied (view_begun transport service settings peer (Some []) listens) }
    ensures runs { (v w : View) (steps : List Step) → AllNoted steps → IsRun v steps w → IsTied v → StaysTied w }
{}

/// A head is asked for only where fewer bytes wait to be written than the settings' write buffer size. Over every run in
/// which memory doesn't run out, from a new dispatcher on, each step that lets more bytes wait comes where fewer wait than
/// that: so at most as many wait, and the text that one step adds, which is that of one answer's head, or of one piece of a
/// body, or of its end, or tells a client to go on. A moment may add the text of one answer of the connection's own, and then it closes.
pub fn runs_bound_output()
    ensures asked { (v w : View) (peer : PeerAddress) (head : NextHead) → IsStep v (next peer head) w → has_write_room v ≡ true }
    ensures new { (transport : Wiring) (service : Serving Asking Answer Answer) (settings : Settings) (peer : PeerAddress) (listens : Bool) → HasRoomForAnswer (view_begun transport service settings peer None listens) × HasRoomForAnswer (view_begun transport service settings peer (Some []) listens) }
    ensures runs { (v u w : View) (steps : List Step) (step : Step) → AllNoted steps → IsNoted step → HasRoomForAnswer v → IsRun v steps u → IsStep u step w → GrowsInRoom u step w }
{}

/// Over every run in which nobody asks that requests be held back, none is: so all that is said of requests that aren't held
/// back holds of each. So it is over polls and drains alone. A new dispatcher holds none back.
pub fn runs_hold_none_unasked()
    ensures new { (transport : Wiring) (service : Serving Asking Answer Answer) (settings : Settings) (peer : PeerAddress) (noted : Option (List Pair)) (listens : Bool) → HoldsNone (view_begun transport service settings peer noted listens) }
    ensures runs { (v w : View) (steps : List Step) → AllByRecursion AsksNoHold steps → IsRun v steps w → HoldsNone v → StaysUnheld w }
    ensures polls { (v w : View) (acts : List Act) → ActsSay v acts w → HoldsNone v → StaysUnheld w }
{}
