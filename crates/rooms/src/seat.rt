//! A connection of a hub.
ghost use Rattle.std.specs.Prelude.{◌≡◌, ◌≤◌, List, [], Some, None, option_map, is_some, true, false, IfOk, IsOk, OnOk, OnErr};
ghost use Rattle.std.specs.Option.{option_copied};
ghost use Rattle.model_h1.specs.Event as on;
ghost use Rattle.model_h1.specs.Frame as frames;
ghost use Rattle.model_h1.specs.Limits.{MAX_FRAME_HEAD};
ghost use Rattle.model_h1.specs.Sums.{Step};
ghost use Rattle.model_state.specs.Local.{closing_by};
ghost use Rattle.h1_connection.specs.EventMeaning.{setting_of, event_of, failing_of, SaysOutcome};
ghost use Rattle.h1_connection.specs.State.{IsAllowed, TakesNoMemory};
ghost use Rattle.ws_frames.specs.Sent.{message_says};
ghost use Rattle.h1_encoder.specs.Meaning.{answer_of};
ghost use Rattle.model_rooms.specs.Trace.{Closes};
ghost use Rattle.model_rooms.specs.Turn.{answer_head};
ghost use Rattle.rooms.specs.Seat.{fresh_seat, SeatStands, SeatGoesOn, refusal_after, room_after, gives_head};
ghost use Rattle.rooms.specs.Turn.{allows, socket_by, may_accept, answer_by, asked_by, IsAsked, AsksBy, TurnsBy, SendsBy};

use crate::kept::{keep_refusal, keep_room};
use bytes::Bytes;
use h1_connection::{
    BodySize, Boxed, Connection, Event, HandshakeError, Message, NoMemory, Outcome, ResponseHead,
    Sent, SentMessage, ServiceConfig,
};
use http_types::StatusCode;
use std::alloc::Global;
use std::marker::Model;
use ws_session::error_response;

// The most bytes of a frame's payload, where the hold size allows that, and the most bytes of a frame's head.
const MAX_PAYLOAD: usize = 65536;

const MAX_FRAME_HEAD: usize = 14;

/// What a turn did: the event of its connection, and what came of it.
#[derive(Debug, Drop)]
pub struct HubTurn {
    pub event: Event,
    pub outcome: Outcome,
}

/// A connection of a hub.
///
/// Once memory ran out it is of no use: the connection may have gone on without what is kept beside it.
///
/// A clause sees it as the connection, the check that its open request failed, and the room that its last request names.
#[derive(Drop)]
pub struct Seat {
    alloc: Global,
    connection: Connection,
    // The most bytes of a frame's payload.
    limit: usize,
    refusal: Option<HandshakeError>,
    room: Option<Bytes>,
}

impl Model for Seat {
    ghost use Rattle.std.specs.Prelude.{option_map};
    ghost use Rattle.h1_connection.specs.EventMeaning.{failing_of};
    ghost use Rattle.rooms.specs.Seat.{SeatState, IsUsable};

    ghost Value = { SeatState };

    ghost view = { λ s. record { connection = s.connection; refusal = option_map failing_of s.refusal; room = s.room } };

    ghost invariant = { λ s. IsUsable s.limit s.connection.settings };
}

impl Seat {
    /// A connection to which nothing has come yet. It takes no memory.
    pub fn new(alloc: Global, config: ServiceConfig) -> Seat
        ensures value { result ≡ fresh_seat config }
        ensures stands { SeatStands result [] }
    {
        let room = config.h1_hold_size() - MAX_FRAME_HEAD;
        Seat {
            alloc,
            connection: Connection::new(alloc, config),
            limit: MAX_PAYLOAD.min(room),
            refusal: None,
            room: None,
        }
    }

    /// The connection.
    pub fn connection(&self) -> &Connection
        ensures { result.now ≡ self.now.connection }
    {
        &self.connection
    }

    /// The room that the last request names: the path of its target.
    pub fn room(&self) -> Option<&Bytes>
        ensures { option_copied result ≡ self.now.room }
    {
        self.room.as_ref()
    }

    /// Whether the connection is to end.
    pub fn closes(&self) -> bool
        ensures value { result ≡ is_some (closing_by (setting_of self.now.connection.settings) self.now.connection.kept) }
        ensures traced { (trace : List Step) → SeatStands self.now trace → Closes (setting_of self.now.connection.settings) trace result }
    {
        self.connection.closing().is_some()
    }

    /// Takes in an event that is allowed, and answers it as the connection does. Where memory runs out nothing changes,
    /// unless the next request was asked for. An event for which the connection needs no memory needs none here.
    pub fn step(&mut self, event: &Event) -> Result<Outcome, NoMemory>
        requires allowed { IsAllowed self.old.connection (event_of event.now) }
        ensures stands { IfOk result (λ outcome. SeatGoesOn self.old (event_of event.now) (SaysOutcome outcome) self.new) }
        ensures settings { self.new.connection.settings ≡ self.old.connection.settings }
        ensures err { OnErr result ((trace : List Step) → SeatStands self.old trace → (event_of event.now ≡ on.next → ⊥) → self.new ≡ self.old) }
        ensures no_memory_needed { (trace : List Step) → SeatStands self.old trace → (event_of event.now ≡ on.next → ⊥)
            → TakesNoMemory self.old.connection (event_of event.now) → IsOk result }
    {
        let outcome = self.connection.step(event)?;
        self.note(event, &outcome)?;
        Ok(outcome)
    }

    // Keeps what an outcome tells of the request.
    fn note(&mut self, event: &Event, outcome: &Outcome) -> Result<(), NoMemory>
        ensures noted { OnOk result (self.new ≡ record self.old {
          refusal = refusal_after event.now outcome.now self.old.refusal;
          room = room_after outcome.now self.old.room;
        }) }
        ensures connection { self.new.connection ≡ self.old.connection }
        ensures err { OnErr result (gives_head outcome.now ≡ true) }
    {
        keep_refusal(&mut self.refusal, event, outcome);
        keep_room(self.alloc, &mut self.room, outcome)
    }

    /// Takes a turn, by the message that waits first: asks for the next request, accepts it as a WebSocket or answers it,
    /// sends that message, or takes the next frame, whichever the rules say. Where the connection is over there is no
    /// turn, nothing changes, and it takes no memory. For the event that is handed out, a text is copied.
    pub fn turn(&mut self, front: Option<&Message>) -> Result<Option<HubTurn>, NoMemory>
        ensures asked { IfOk result (λ turn. AsksBy self.old (option_map message_says (option_copied front.entry)) turn self.new) }
        ensures turned { IfOk result (λ turn. TurnsBy self.old (option_map message_says (option_copied front.entry)) turn self.new) }
        ensures no_memory_needed { IsAsked self.old.connection (asked_by self.old (option_map message_says (option_copied front.entry))) None → IsOk result }
        ensures settings { self.new.connection.settings ≡ self.old.connection.settings }
    {
        let Some(event) = self.turn_event(front)? else {
            return Ok(None);
        };
        let outcome = self.step(&event)?;
        Ok(Some(HubTurn { event, outcome }))
    }

    /// A turn that sends this message, which waits first. There is none where nothing may be sent: `turn` does then what the
    /// rules say. Unlike there, no event is handed out, so nothing is copied for it. Where memory runs out nothing changes.
    pub fn send_front(&mut self, front: &Message) -> Result<Option<Sent>, NoMemory>
        ensures turned { IfOk result (λ sent. SendsBy self.old (message_says front.now) sent self.new) }
        ensures settings { self.new.connection.settings ≡ self.old.connection.settings }
        ensures no_memory_needed { allows self.old (on.send frames.nop) ≡ false → IsOk result }
        ensures err { OnErr result (self.new ≡ self.old) }
    {
        if !self.connection.can_send() {
            return Ok(None);
        }
        let sent = self.connection.send(front)?;
        Ok(Some(sent))
    }

    // The event that the rules say, if it is allowed.
    fn turn_event(&self, front: Option<&Message>) -> Result<Option<Event>, NoMemory>
        ensures holds { MAX_FRAME_HEAD ≤ self.now.connection.settings.h1_hold_size }
        ensures asked { IfOk result (IsAsked self.now.connection (asked_by self.now (option_map message_says (option_copied front.entry)))) }
        ensures no_memory_needed { IsAsked self.now.connection (asked_by self.now (option_map message_says (option_copied front.entry))) None → IsOk result }
    {
        if self.connection.allowed(&Event::Next) {
            return Ok(Some(Event::Next));
        }
        if self.may_accept() {
            return Ok(Some(Event::Accept(self.limit)));
        }
        if self.connection.can_answer() {
            let event = self.answer()?;
            return Ok(Some(event));
        }
        self.socket_event(front)
    }

    // Whether the open request may be accepted, and wasn't refused.
    fn may_accept(&self) -> bool
        ensures { result ≡ may_accept self.now }
    {
        if self.refusal.is_some() {
            return false;
        }
        self.connection.can_accept(self.limit)
    }

    // The answer to a request that isn't accepted.
    fn answer(&self) -> Result<Event, NoMemory>
        ensures { IfOk result (λ event. event_of event ≡ answer_by self.now) }
    {
        let head = self.answer_head()?;
        let head = Boxed::new(self.alloc, head)?;
        Ok(Event::Answer(head, BodySize::ZERO))
    }

    // Its head.
    fn answer_head(&self) -> Result<ResponseHead, NoMemory>
        ensures { IfOk result (λ head. answer_of head ≡ answer_head self.now.refusal) }
    {
        let Some(error) = self.refusal else {
            return Ok(ResponseHead::new(self.alloc, StatusCode::NOT_FOUND));
        };
        let response = error_response(self.alloc, error)?;
        Ok(response.into_head())
    }

    // The event of a WebSocket: the message that waits first is sent where one may be, and else the next frame is taken.
    fn socket_event(&self, front: Option<&Message>) -> Result<Option<Event>, NoMemory>
        ensures asked { IfOk result (IsAsked self.now.connection (socket_by self.now (option_map message_says (option_copied front.entry)))) }
        ensures no_memory_needed { IsAsked self.now.connection (socket_by self.now (option_map message_says (option_copied front.entry))) None → IsOk result }
    {
        if let Some(message) = front {
            return self.send_event(message);
        }
        Ok(self.pull_event())
    }

    // The same where this message waits first.
    fn send_event(&self, message: &Message) -> Result<Option<Event>, NoMemory>
        ensures asked { IfOk result (IsAsked self.now.connection (socket_by self.now (Some (message_says message.now)))) }
        ensures no_memory_needed { IsAsked self.now.connection (socket_by self.now (Some (message_says message.now))) None → IsOk result }
    {
        if self.connection.can_send() {
            let copy = message.copy()?;
            return Ok(Some(Event::Send(SentMessage::new(copy))));
        }
        Ok(self.pull_event())
    }

    // The next frame, if it may be asked for.
    fn pull_event(&self) -> Option<Event>
        ensures { IsAsked self.now.connection on.pull result }
    {
        if self.connection.allowed(&Event::Pull) {
            return Some(Event::Pull);
        }
        None
    }
}
