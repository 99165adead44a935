//! A hub.
ghost use Rattle.std.specs.Prelude.{◌≡◌, ◌≤◌, ◌^◌, ◌-◌, ◌==◌, [], min, IfOk, IsOk, OnErr, length, map, slice_get, option_map};
ghost use Rattle.std.specs.Option.{option_copied};
ghost use Rattle.rooms.specs.Hub.{fresh_hub, hub_event_of, HubStands, HubSteps, RefusesAtOnce, buffered_of, HubOpens, HubFeeds, HubTurns, HubSends};
ghost use Rattle.h1_connection.specs.EventMeaning.{event_of};
ghost use Rattle.model_rooms.specs.Hub.{opens, feeds, turns};
ghost use Rattle.model_rooms.specs.Member.{member_at, byte_count};
ghost use Rattle.model_rooms.specs.Trace.{is_fed};

use crate::event::{HubEvent, HubOutcome};
use crate::moves::{follow, send_first, take_turn};
use crate::{HubTurn, Rooms, Seat};
use bytes::Bytes;
use h1_connection::{Boxed, Connection, Event, NoMemory, Outcome, Sent, ServiceConfig};
use std::alloc::Global;
use std::marker::Model;

// The most connections of a hub.
const MAX_CONNECTIONS: usize = 4096;

/// Connections with numbers from 0 on, and the members of their rooms. It reads and writes nothing itself.
///
/// Once memory ran out, a hub is of no use: a message may have come to some members and not to others.
///
/// A clause sees it as the settings of its connections, the connections, and the rows of the members.
#[derive(Drop)]
pub struct Hub {
    alloc: Global,
    config: ServiceConfig,
    seats: Vec<Seat>,
    rooms: Rooms,
}

impl Model for Hub {
    ghost use Rattle.rooms.specs.Hub.{HubState};

    ghost Value = { HubState };

    ghost view = { λ h. record { settings = h.config; seats = h.seats.items; members = h.rooms } };
}

impl Hub {
    /// A hub without a connection. It takes no memory.
    pub fn new(alloc: Global, config: ServiceConfig) -> Hub
        ensures value { result ≡ fresh_hub config }
        ensures stands { HubStands result [] }
    {
        Hub {
            alloc,
            config,
            seats: Vec::new(alloc),
            rooms: Rooms::new(alloc),
        }
    }

    /// How many connections were opened.
    pub fn len(&self) -> usize
        ensures { result ≡ length self.now.seats }
    {
        self.seats.len()
    }

    /// Whether none was opened.
    pub fn is_empty(&self) -> bool
        ensures { result ≡ (length self.now.seats == 0) }
    {
        self.len() == 0
    }

    /// The connection with this number, where it was opened: what waits to be written to it, and what may come.
    pub fn connection(&self, number: usize) -> Option<&Connection>
        ensures { option_copied result ≡ option_map (λ seat. seat.connection) (slice_get self.now.seats number) }
    {
        let seat = self.seats.get(number)?;
        Some(seat.connection())
    }

    /// How many frames wait to be sent to the member with this number; where it wasn't opened, none.
    pub fn waiting(&self, number: usize) -> usize
        ensures { result ≡ length (member_at number self.now.members).waiting }
    {
        if number >= self.rooms.len() {
            return 0;
        }
        self.rooms.waiting(number)
    }

    /// How many bytes of payload wait to be sent to the member with this number, and `usize::MAX` where they are more. It
    /// looks at each frame that waits.
    pub fn waiting_bytes(&self, number: usize) -> usize
        ensures { result ≡ min (byte_count (member_at number self.now.members).waiting) (2 ^ 64 - 1) }
    {
        if number >= self.rooms.len() {
            return 0;
        }
        self.rooms.waiting_bytes(number)
    }

    /// The bytes that wait to be written, of each connection by its number.
    pub fn buffered(&self) -> Result<Vec<Bytes>, NoMemory>
        ensures { IfOk result (λ buffered. buffered.items ≡ map buffered_of self.now.seats) }
    {
        let mut buffered = Vec::with_capacity(self.alloc, self.seats.len())?;
        for seat in &self.seats {
            let bytes = seat.connection().copy_buffered()?;
            buffered.push(bytes)?;
        }
        Ok(buffered)
    }

    /// Opens a connection, and tells its number; where 4096 were opened, there is none more. To refuse one takes no memory.
    pub fn open(&mut self) -> Result<Option<usize>, NoMemory>
        ensures opened { IfOk result (λ number. HubOpens self.old number self.new) }
        ensures no_memory_needed { RefusesAtOnce self.old opens result }
        ensures settings { self.new.settings ≡ self.old.settings }
    {
        let number = self.seats.len();
        if number >= MAX_CONNECTIONS {
            return Ok(None);
        }
        self.rooms.open()?;
        self.seats.push(Seat::new(self.alloc, self.config))?;
        Ok(Some(number))
    }

    /// Brings an event to the connection with this number. It is refused, and nothing changes, where that connection wasn't
    /// opened, where the event isn't one from outside, and where it isn't allowed. To refuse it takes no memory.
    pub fn feed(&mut self, number: usize, event: &Event) -> Result<Option<Outcome>, NoMemory>
        ensures fed { IfOk result (λ outcome. HubFeeds self.old number (event_of event.now) outcome self.new) }
        ensures no_memory_needed { RefusesAtOnce self.old (feeds number (event_of event.now)) result }
        ensures settings { self.new.settings ≡ self.old.settings }
    {
        if number >= self.seats.len() || number >= self.rooms.len() {
            return Ok(None);
        }
        if !is_fed(event) {
            return Ok(None);
        }
        let seat = &mut self.seats[number];
        if !seat.connection().allowed(event) {
            return Ok(None);
        }
        let outcome = seat.step(event)?;
        follow(&mut self.rooms, seat, number, event, &outcome)?;
        Ok(Some(outcome))
    }

    /// Gives the connection with this number a turn. There is none, nothing changes, and it takes no memory, where that
    /// connection wasn't opened or is over. A turn of one that closes ends it, so what waits for it is to be written before.
    pub fn turn(&mut self, number: usize) -> Result<Option<HubTurn>, NoMemory>
        ensures turned { IfOk result (λ turn. HubTurns self.old number turn self.new) }
        ensures no_memory_needed { RefusesAtOnce self.old (turns number) result }
        ensures settings { self.new.settings ≡ self.old.settings }
    {
        if number >= self.seats.len() || number >= self.rooms.len() {
            return Ok(None);
        }
        take_turn(&mut self.seats[number], &mut self.rooms, number)
    }

    /// A turn of the connection with this number that sends the message that waits first for it. There is none, and nothing
    /// changes, where no message waits or none may be sent: `turn` does then what the rules say. Unlike there, no event is
    /// handed out, so nothing is copied for it. Where memory runs out nothing changes.
    pub fn send_first(&mut self, number: usize) -> Result<Option<Sent>, NoMemory>
        ensures sent { IfOk result (λ sent. HubSends self.old number sent self.new) }
        ensures settings { self.new.settings ≡ self.old.settings }
        ensures err { OnErr result (self.new ≡ self.old) }
    {
        if number >= self.seats.len() || number >= self.rooms.len() {
            return Ok(None);
        }
        send_first(&mut self.seats[number], &mut self.rooms, number)
    }

    /// The same as these calls by an event as a value: `None` where it is refused, and then nothing changes.
    pub fn step(&mut self, event: &HubEvent) -> Result<Option<HubOutcome>, NoMemory>
        ensures steps { IfOk result (λ outcome. HubSteps self.old (hub_event_of event.now) outcome self.new) }
        ensures settings { self.new.settings ≡ self.old.settings }
    {
        match event {
            HubEvent::Open => self.step_open(),
            HubEvent::Feed(number, event) => self.step_feed(*number, event),
            HubEvent::Turn(number) => self.step_turn(*number),
        }
    }

    fn step_open(&mut self) -> Result<Option<HubOutcome>, NoMemory>
        ensures steps { IfOk result (λ outcome. HubSteps self.old opens outcome self.new) }
        ensures settings { self.new.settings ≡ self.old.settings }
    {
        let Some(number) = self.open()? else {
            return Ok(None);
        };
        Ok(Some(HubOutcome::Opened(number)))
    }

    fn step_feed(&mut self, number: usize, event: &Event) -> Result<Option<HubOutcome>, NoMemory>
        ensures steps { IfOk result (λ outcome. HubSteps self.old (feeds number (event_of event.now)) outcome self.new) }
        ensures settings { self.new.settings ≡ self.old.settings }
    {
        let Some(outcome) = self.feed(number, event)? else {
            return Ok(None);
        };
        let event = event.copy()?;
        let boxed = Boxed::new(self.alloc, outcome)?;
        Ok(Some(HubOutcome::Core(event, boxed)))
    }

    fn step_turn(&mut self, number: usize) -> Result<Option<HubOutcome>, NoMemory>
        ensures steps { IfOk result (λ outcome. HubSteps self.old (turns number) outcome self.new) }
        ensures settings { self.new.settings ≡ self.old.settings }
    {
        let Some(turn) = self.turn(number)? else {
            return Ok(None);
        };
        let HubTurn { event, outcome } = turn;
        let boxed = Boxed::new(self.alloc, outcome)?;
        Ok(Some(HubOutcome::Core(event, boxed)))
    }
}

/// Whether the event is one that comes from outside: bytes that were read, the input's end, bytes that are fetched for
/// writing, a moment, or a drain.
pub fn is_fed(event: &Event) -> bool
    ensures { result ≡ is_fed (event_of event.now) }
{
    match event {
        Event::Read(_) => true,
        Event::Eof => true,
        Event::Drain => true,
        Event::Write(_) => true,
        Event::Tick(_) => true,
        _ => false,
    }
}
