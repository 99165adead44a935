//! A hub that always has a history.
ghost use Rattle.std.specs.Prelude.{◌≡◌, ◌^◌, ◌-◌, [], min, IsTrue, IfOk, OnOk, OnErr, length, slice_get, option_map};
ghost use Rattle.std.specs.Option.{option_copied};
ghost use Rattle.h1_connection.specs.EventMeaning.{event_of};
ghost use Rattle.model_h1.specs.Event as on;
ghost use Rattle.rooms.specs.Hub.{fresh_hub, HubOpens, HubFeeds, HubTurns};
ghost use Rattle.model_rooms.specs.Member.{member_at, byte_count};
ghost use Rattle.app_chat.specs.House.{Tells};
ghost use Rattle.app_chat.specs.Moves.{Moves, Gives};

use bytes::Bytes;
use h1_connection::Connection;
use rooms::{Event, Hub, HubTurn, NoMemory, Outcome, ServiceConfig};
use std::alloc::Global;
use std::marker::Model;

/// A hub, of which it always holds that it stands for a trace of its own: nothing but the calls below changes it. Once
/// memory ran out in one of them it is a new hub, without a connection.
///
/// A clause sees it as its hub.
#[derive(Drop)]
pub struct House {
    alloc: Global,
    config: ServiceConfig,
    hub: Hub,
}

impl Model for House {
    ghost use Rattle.rooms.specs.Hub.{HubState};
    ghost use Rattle.app_chat.specs.House.{IsHouse};

    ghost Value = { HubState };

    ghost view = { λ h. h.hub };

    ghost invariant = { λ h. IsHouse h.config h.hub };
}

impl House {
    /// A hub to which nothing has come. It takes no memory.
    #[tactic(auto, using(crate::proofs::HouseLemmas::house_new))]
    pub fn new(alloc: Global, config: ServiceConfig) -> House
        ensures { result ≡ fresh_hub config }
    {
        House {
            alloc,
            config,
            hub: Hub::new(alloc, config),
        }
    }

    /// A new hub is begun, without a connection.
    #[tactic(auto, using(crate::proofs::HouseLemmas::house_new))]
    pub fn begin_anew(&mut self)
        ensures { self.new ≡ fresh_hub self.old.settings }
    {
        self.hub = Hub::new(self.alloc, self.config);
    }

    /// How many connections were opened.
    pub fn len(&self) -> usize
        ensures { result ≡ length self.now.seats }
    {
        self.hub.len()
    }

    /// The connection with this number, where it was opened.
    pub fn connection(&self, number: usize) -> Option<&Connection>
        ensures { option_copied result ≡ option_map (λ seat. seat.connection) (slice_get self.now.seats number) }
    {
        self.hub.connection(number)
    }

    /// How many frames wait for the member with this number.
    pub fn waiting(&self, number: usize) -> usize
        ensures { result ≡ length (member_at number self.now.members).waiting }
    {
        self.hub.waiting(number)
    }

    /// How many bytes of payload wait for the member with this number, and `usize::MAX` where they are more.
    pub fn waiting_bytes(&self, number: usize) -> usize
        ensures { result ≡ min (byte_count (member_at number self.now.members).waiting) (2 ^ 64 - 1) }
    {
        self.hub.waiting_bytes(number)
    }

    /// Opens a connection, and tells its number; where too many were opened, there is none more.
    #[tactic(auto, using(crate::proofs::HouseLemmas::house_opened))]
    pub fn open(&mut self) -> Result<Option<usize>, NoMemory>
        ensures opened { IfOk result (λ number. HubOpens self.old number self.new) }
        ensures err { OnErr result (self.new ≡ fresh_hub self.old.settings) }
    {
        match self.hub.open() {
            Ok(number) => Ok(number),
            Err(error) => {
                self.hub = Hub::new(self.alloc, self.config);
                Err(error)
            }
        }
    }

    // Brings an event to the connection with this number, unless it is refused.
    #[tactic(auto, using(crate::proofs::HouseLemmas::house_fed))]
    fn feed(&mut self, number: usize, event: &Event) -> Result<Option<Outcome>, NoMemory>
        ensures fed { IfOk result (λ outcome. HubFeeds self.old number (event_of event.now) outcome self.new) }
        ensures err { OnErr result (self.new ≡ fresh_hub self.old.settings) }
    {
        match self.hub.feed(number, event) {
            Ok(outcome) => Ok(outcome),
            Err(error) => {
                self.hub = Hub::new(self.alloc, self.config);
                Err(error)
            }
        }
    }

    /// Tells the connection with this number of bytes that came, and says whether it took all of them.
    #[tactic(auto, using(crate::proofs::HouseLemmas::took_all))]
    pub fn read(&mut self, number: usize, bytes: &[u8]) -> Result<bool, NoMemory>
        ensures { IfOk result (λ took. IsTrue took → Moves number self.old bytes.now [] self.new) }
    {
        let copy = Bytes::copy_from_slice(self.alloc, bytes)?;
        match self.feed(number, &Event::Read(copy))? {
            Some(Outcome::Took(count)) => Ok(count == bytes.len()),
            _ => Ok(false),
        }
    }

    /// Has the connection with this number give the first bytes that it has to write, at most so many. There is nothing
    /// where it may not write.
    #[tactic(auto, using(crate::proofs::HouseLemmas::gave_bytes))]
    pub fn write(&mut self, number: usize, limit: usize) -> Result<Option<Bytes>, NoMemory>
        ensures { IfOk result (λ bytes. Gives number self.old bytes self.new) }
    {
        match self.feed(number, &Event::Write(limit))? {
            Some(Outcome::Gave(bytes)) => Ok(Some(bytes)),
            _ => Ok(None),
        }
    }

    /// Tells the connection with this number that no more bytes come, where it may be told so.
    #[tactic(auto, using(crate::proofs::HouseLemmas::fed_quietly))]
    pub fn end_input(&mut self, number: usize) -> Result<(), NoMemory>
        ensures told { OnOk result (Tells number self.old on.eof self.new) }
        ensures moves { OnOk result (Moves number self.old [] [] self.new) }
    {
        self.feed(number, &Event::Eof)?;
        Ok(())
    }

    /// Tells the connection with this number that it is to end, where it may be told so.
    #[tactic(auto, using(crate::proofs::HouseLemmas::fed_quietly))]
    pub fn drain(&mut self, number: usize) -> Result<(), NoMemory>
        ensures told { OnOk result (Tells number self.old on.drain self.new) }
        ensures moves { OnOk result (Moves number self.old [] [] self.new) }
    {
        self.feed(number, &Event::Drain)?;
        Ok(())
    }

    /// Tells the connection with this number the moment, in milliseconds since 1970, where it may be told. It says whether
    /// the connection gives its peer up.
    #[tactic(auto, using(crate::proofs::HouseLemmas::fed_quietly))]
    pub fn tick(&mut self, number: usize, moment: u64) -> Result<bool, NoMemory>
        ensures told { OnOk result (Tells number self.old (on.tick moment) self.new) }
        ensures moves { OnOk result (Moves number self.old [] [] self.new) }
    {
        let outcome = self.feed(number, &Event::Tick(moment))?;
        Ok(matches!(outcome, Some(Outcome::Abandoned)))
    }

    /// Gives the connection with this number a turn, unless it is over.
    #[tactic(auto, using(crate::proofs::HouseLemmas::house_turned, crate::proofs::HouseLemmas::turned_quietly))]
    pub fn turn(&mut self, number: usize) -> Result<Option<HubTurn>, NoMemory>
        ensures turned { IfOk result (λ turn. HubTurns self.old number turn self.new) }
        ensures moves { OnOk result (Moves number self.old [] [] self.new) }
        ensures err { OnErr result (self.new ≡ fresh_hub self.old.settings) }
    {
        match self.hub.turn(number) {
            Ok(turn) => Ok(turn),
            Err(error) => {
                self.hub = Hub::new(self.alloc, self.config);
                Err(error)
            }
        }
    }
}
