//! A service over an upgraded connection, and what it keeps.
ghost use Rattle.std.specs.Prelude.{◌≡◌};
ghost use Rattle.model_state.specs.Deadline.{deadline_by};
ghost use Rattle.h1_connection.specs.EventMeaning.{setting_of};
ghost use Rattle.h1_traced.specs.Traced.{traced_of};
ghost use Rattle.ws_service.specs.View.{view_of, view_begun, with_drain, parts_of, MayBePolled};

use crate::error::UpgradeError;
use crate::item::UpgradeItem;
use h1_connection::{End, Message};
use h1_traced::{Recorder, Traced};
use http_services::Service;
use http_transport::Transport;
use http_types::{Error, Request};

mod begin;
mod poll;
mod read;
mod serve_frames;
mod upgrade_turns;
mod write;

/// How an upgraded connection has ended: nothing more is asked of it.
#[derive(Clone, Copy, Debug, PartialEq, Eq)]
pub enum Ending {
    /// It told its end, and the transport is to be shut down.
    Closed(End),

    /// The peer took too long to take what was left. The transport isn't shut down.
    Abandoned,

    /// Memory ran out. The transport isn't shut down: bytes that it took or gave may be lost.
    Broken,
}

/// How far the service is. One thing at a time: so items are asked in order, and so are answers sent.
#[derive(Drop)]
enum Work<C> {
    /// Nothing waits: the next frame may be asked for.
    Free,

    /// The service is to be called with this.
    Waiting(UpgradeItem),

    /// A call is in progress.
    Calling(C),

    /// This answer is to be sent, once there is room.
    Sending(Message),
}

/// A service over an upgraded connection. The parameters are the transport, the service and its call, and who notes the steps of
/// the connection.
///
/// The service is called with the request that asked for the upgrade, and then with each frame, one after another: the next
/// frame is asked for once the answer to the one before was sent. Each answer is a message; `Message::Nop` sends nothing. An
/// answer that waits for room is sent once fewer bytes wait to be written than the settings' write buffer size.
#[derive(Drop)]
pub struct UpgradeDispatcher<T, U, C, L> {
    traced: Traced<L>,
    transport: T,
    service: U,
    work: Work<C>,
    ending: Option<Ending>,
    is_draining: bool,
    is_input_ended: bool,
}

impl<T, U, L> UpgradeDispatcher<T, U, U::Call, L>
where
    T: Transport,
    U: Service<UpgradeItem, Response = Message, Error = Error, Lent = ()>,
    L: Recorder,
{
    /// Takes over a connection of which the upgrade that this request asked for was accepted. The answer that says so may
    /// wait to be written still, and so may bytes that came behind the request wait to be read as frames. It takes no memory.
    /// Over a connection that wasn't upgraded, or has ended, each poll fails with `NotUpgraded`.
    pub fn new(
        request: Request<(), ()>,
        traced: Traced<L>,
        transport: T,
        service: U,
    ) -> UpgradeDispatcher<T, U, U::Call, L>
        ensures view { view_of T.wiring U.served L.noted L.is_listening result ≡ view_begun request (traced_of L.noted L.is_listening traced) (L.is_listening traced.recorder) (T.wiring transport) (U.served service) }
        ensures open { MayBePolled U.calling result }
    {
        UpgradeDispatcher {
            traced,
            transport,
            service,
            work: Work::Waiting(UpgradeItem::Open(request)),
            ending: None,
            is_draining: false,
            is_input_ended: false,
        }
    }

    /// Has the connection end: an upgraded one drains at once. The next poll tells it so, unless it closes by then. The answers
    /// that were sent are written before. One that waits for room is given up, and so is one that the service hasn't given yet.
    pub fn drain(&mut self)
        ensures view { view_of T.wiring U.served L.noted L.is_listening self.new ≡ with_drain (view_of T.wiring U.served L.noted L.is_listening self.old) }
        ensures open { MayBePolled U.calling self.old → MayBePolled U.calling self.new }
    {
        self.is_draining = true;
    }

    /// The least moment at which a poll would tell that a time has run out, in milliseconds after the start of 1970; none
    /// where none would. Who polls it does so then, if the task isn't woken before.
    pub fn deadline(&self) -> Option<u64>
        ensures { result ≡ deadline_by (setting_of (view_of T.wiring U.served L.noted L.is_listening self.now).traced.state.settings) (view_of T.wiring U.served L.noted L.is_listening self.now).traced.state.kept }
    {
        self.traced.connection().deadline()
    }

    /// How the connection has ended, where it has.
    pub fn ending(&self) -> Option<Ending>
        ensures { result ≡ (view_of T.wiring U.served L.noted L.is_listening self.now).ending }
    {
        self.ending
    }

    /// The service.
    pub fn service(&self) -> &U
        ensures { U.served result.now ≡ (view_of T.wiring U.served L.noted L.is_listening self.now).service }
    {
        &self.service
    }

    /// The transport, the service, and who noted the steps. What waits, or a call in progress, is dropped.
    pub fn into_parts(self) -> (T, U, L)
        ensures { result ≡ parts_of self }
    {
        let (_connection, recorder) = self.traced.into_parts();
        (self.transport, self.service, recorder)
    }
}

/// What a turn came to.
#[derive(Drop)]
enum UpgradeTurn {
    /// A step was noted; another turn may do more.
    Counted,

    /// Nothing more can be done until the task is woken.
    Idle,

    /// The poll ends.
    Over(Result<(), UpgradeError>),
}
