// Clients that wait to be told to go on are held back for who polls, who lets them go on or turns their requests away.
ghost use Rattle.std.specs.Prelude.{◌≡◌, ◌&&◌, true};
ghost use Rattle.std.specs.Option.{option_copied};
ghost use Rattle.model_h1.specs.Event as on;
ghost use Rattle.h1_dispatcher.specs.View.{Asking, view_of, may_refuse, is_expecting, with_holds, with_leave, told_response, allows, MayBePolled};
ghost use Rattle.h1_dispatcher.specs.Steps.{IsStep, turned_away};
ghost use Rattle.h1_dispatcher.specs.Upgrades.{expecting_in};

use crate::dispatcher::{Dispatcher, Work};
use h1_traced::Recorder;
use http_bodies::MessageBody;
use http_services::Service;
use http_services::h1::Payload;
use http_transport::Transport;
use http_types::{Request, Response};

impl<T, S, L, B> Dispatcher<T, S, S::Call, L, B>
where
    T: Transport,
    S: Service<Request<(), ()>, Response = Response<B>, Error = Response<B>, Lent = Payload>,
    B: MessageBody,
    L: Recorder,
{
    /// From the next head on, holds requests back whose clients wait to be told to go on (`Expect: 100-continue`, RFC 7231,
    /// section 5.1.1), or holds none back. At first none is: each is told so.
    ///
    /// The client of a request that is held back is told nothing, and the request doesn't go to the service. Polls are
    /// pending, and read as far as the input may be held, until who polls lets it go on or turns it away, and polls again.
    pub fn hold_expects(&mut self, on: bool)
        ensures view { view_of T.wiring S.served S.calling B.gives L.noted L.is_listening self.new ≡ with_holds (view_of T.wiring S.served S.calling B.gives L.noted L.is_listening self.old).upgrades on (view_of T.wiring S.served S.calling B.gives L.noted L.is_listening self.old) }
        ensures open { MayBePolled S.calling self.old → MayBePolled S.calling self.new }
    {
        self.expects = on;
    }

    /// The request whose client is held back, once there is room for an answer to it: it may be let on or turned away.
    #[tactic(auto, using(crate::proofs::Held::expecting_off, crate::proofs::Held::expecting_none, crate::proofs::Held::expecting_some))]
    pub fn expecting(&self) -> Option<&Request<(), ()>>
        ensures { option_copied result ≡ expecting_in (view_of T.wiring S.served S.calling B.gives L.noted L.is_listening self.now) }
    {
        if !self.is_expecting() {
            return None;
        }
        match &self.work {
            Work::Free => None,
            Work::Waiting(request) => Some(request),
            Work::Calling(_) => None,
            Work::Replying(_) => None,
            Work::Sending(_) => None,
        }
    }

    /// Has the client that is held back go on: it is told so, and then its request goes to the service, or is held back for
    /// its upgrade.
    pub fn let_on(&mut self)
        ensures view { view_of T.wiring S.served S.calling B.gives L.noted L.is_listening self.new ≡ with_leave (view_of T.wiring S.served S.calling B.gives L.noted L.is_listening self.old) }
        ensures open { MayBePolled S.calling self.old → MayBePolled S.calling self.new }
    {
        self.is_checking = false;
    }

    // Whether the client of the last request is held back, and there is room for an answer.
    fn is_expecting(&self) -> bool
        ensures { result ≡ is_expecting (view_of T.wiring S.served S.calling B.gives L.noted L.is_listening self.now) }
    {
        if !self.work.is_waiting() {
            return false;
        }
        if !self.waits_for_leave() {
            return false;
        }
        self.can_refuse()
    }

    /// Whether a request is held back, for its client or since it asks for an upgrade, and may be turned away.
    pub fn can_refuse(&self) -> bool
        ensures { result ≡ may_refuse (view_of T.wiring S.served S.calling B.gives L.noted L.is_listening self.now) }
    {
        if self.ending.is_some() {
            return false;
        }
        if !self.is_held() {
            return false;
        }
        if !self.traced.connection().can_answer() {
            return false;
        }
        self.has_room()
    }

    /// Turns the request away that is held back: this is its answer, and the service isn't asked.
    pub fn refuse(&mut self, response: Response<B>)
        requires can_refuse { may_refuse (view_of T.wiring S.served S.calling B.gives L.noted L.is_listening self.old) ≡ true }
        ensures says { (request : Asking) × IsStep (view_of T.wiring S.served S.calling B.gives L.noted L.is_listening self.old) (turned_away request (told_response B.gives response)) (view_of T.wiring S.served S.calling B.gives L.noted L.is_listening self.new) }
        ensures open { MayBePolled S.calling self.new }
    {
        self.work = Work::Replying(response);
    }

    // Whether the client of the last request is to be held back, and waits to be told to go on.
    pub(super) fn waits_for_leave(&self) -> bool
        ensures { result ≡ ((view_of T.wiring S.served S.calling B.gives L.noted L.is_listening self.now).checking && allows (view_of T.wiring S.served S.calling B.gives L.noted L.is_listening self.now) on.send_continue) }
    {
        if !self.is_checking {
            return false;
        }
        self.traced.connection().can_continue()
    }
}
