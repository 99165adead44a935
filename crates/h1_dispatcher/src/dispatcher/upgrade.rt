// Requests that ask for an upgrade are held back for who polls, who accepts or declines them.
ghost use Rattle.std.specs.Prelude.{◌≡◌, ◌&&◌, None, true, false, IfOk, IsOk, option_map};
ghost use Rattle.std.specs.Option.{option_copied};
ghost use Rattle.futures.specs.Task.{IsArmed, Keeps};
ghost use Rattle.model_h1.specs.Event as on;
ghost use Rattle.h1_connection.specs.EventMeaning.{failing_of};
ghost use Rattle.h1_connection.specs.State.{TakesNoMemory};
ghost use Rattle.h1_dispatcher.specs.View.{view_of, stage_of, waiting, is_waiting, is_held, is_offered, may_accept, with_holds, with_release, allows, allows_answer, MayBePolled};
ghost use Rattle.h1_dispatcher.specs.Upgrades.{refusal_of, held_in, Accepts, AcceptSays};
ghost use Rattle.h1_dispatcher.specs.Polls.{OnIdle, ServeSays};

use crate::dispatcher::{Dispatcher, DispatcherTurn, Work};
use futures::task::Context;
use h1_connection::{Event, HandshakeError, NoMemory, Outcome};
use h1_traced::{Recorder, Traced};
use http_bodies::MessageBody;
use http_services::Service;
use http_services::h1::Payload;
use http_transport::Transport;
use http_types::{Request, Response};

/// A connection that was upgraded, with its transport: what the peer sent behind the request is held by the connection, and the
/// answer that upgrades it is to be written.
#[derive(Drop)]
pub struct Upgraded<T, S, L> {
    request: Request<(), ()>,
    traced: Traced<L>,
    transport: T,
    service: S,
}

impl<T, S, L> Upgraded<T, S, L> {
    /// The request that asked for the upgrade.
    pub fn request(&self) -> &Request<(), ()>
        ensures { result.now ≡ self.now.request }
    {
        &self.request
    }

    /// The request, the connection with who notes its steps, the transport, and the service.
    pub fn into_parts(self) -> (Request<(), ()>, Traced<L>, T, S)
        ensures { result ≡ (self.request, self.traced, self.transport, self.service) }
    {
        (self.request, self.traced, self.transport, self.service)
    }
}

/// What became of an upgrade.
#[derive(Drop)]
pub enum Accepting<T, S, C, L, B> {
    /// The connection speaks WebSocket.
    Done(Upgraded<T, S, L>),

    /// The request fails this check, and is held back still: it may be turned away, or declined.
    Refused(Dispatcher<T, S, C, L, B>, HandshakeError),
}

impl<T, S, L, B> Dispatcher<T, S, S::Call, L, B>
where
    T: Transport,
    S: Service<Request<(), ()>, Response = Response<B>, Error = Response<B>, Lent = Payload>,
    B: MessageBody,
    L: Recorder,
{
    /// From the next head on, holds requests back that ask for an upgrade, or holds none back. At first none is.
    ///
    /// A request that is held back doesn't go to the service, and nothing of what follows it is handed out. Polls are
    /// pending, and read as far as the input may be held, until who polls accepts it, declines it or turns it away
    /// ([`Dispatcher::refuse`]), and polls again. It asks for an upgrade by its body, which is raw: an `Upgrade` field, or the method CONNECT (RFC 7230, section 6.7; RFC 7231,
    /// section 4.3.6).
    pub fn hold_upgrades(&mut self, on: bool)
        ensures view { view_of T.wiring S.served S.calling B.gives L.noted L.is_listening self.new ≡ with_holds on (view_of T.wiring S.served S.calling B.gives L.noted L.is_listening self.old).expects (view_of T.wiring S.served S.calling B.gives L.noted L.is_listening self.old) }
        ensures open { MayBePolled S.calling self.old → MayBePolled S.calling self.new }
    {
        self.upgrades = on;
    }

    /// The request that is held back, once its client doesn't wait to be told to go on.
    #[tactic(auto, using(crate::proofs::Held::held_off, crate::proofs::Held::held_none, crate::proofs::Held::held_some))]
    pub fn held(&self) -> Option<&Request<(), ()>>
        ensures { option_copied result ≡ held_in (view_of T.wiring S.served S.calling B.gives L.noted L.is_listening self.now) }
    {
        if !self.is_offered() {
            return None;
        }
        match &self.work {
            Work::Free => None,
            Work::Waiting(request) => Some(request),
            Work::Calling(_) => None,
            Work::Replying(_) => None,
            Work::Sending(_) => None,
        }
    }

    /// Has the request that is held back go to the service.
    pub fn decline(&mut self)
        ensures view { view_of T.wiring S.served S.calling B.gives L.noted L.is_listening self.new ≡ with_release (view_of T.wiring S.served S.calling B.gives L.noted L.is_listening self.old) }
        ensures open { MayBePolled S.calling self.old → MayBePolled S.calling self.new }
    {
        self.is_holding = false;
    }

    /// Whether a request is held back, and may be accepted with this limit: its client doesn't wait to be told to go on, and
    /// as many bytes as a frame with such a payload has may be held.
    pub fn can_accept(&self, limit: usize) -> bool
        ensures { result ≡ may_accept (view_of T.wiring S.served S.calling B.gives L.noted L.is_listening self.now) limit }
    {
        if !self.is_offered() {
            return false;
        }
        self.traced.connection().can_accept(limit)
    }

    // Whether a request is held back, and its client doesn't wait to be told to go on.
    fn is_offered(&self) -> bool
        ensures { result ≡ is_offered (view_of T.wiring S.served S.calling B.gives L.noted L.is_listening self.now) }
    {
        if self.ending.is_some() {
            return false;
        }
        if !self.work.is_waiting() {
            return false;
        }
        if !self.asks_upgrade() {
            return false;
        }
        !self.traced.connection().can_continue()
    }

    /// Accepts that the request that is held back upgrades the connection to WebSocket (RFC 6455, section 4.2), of whose
    /// frames none has a payload of more than `limit` bytes, and hands the connection and its transport over. What waits to be
    /// written stands in the connection, with the answer that upgrades it at its end, and so does what the peer sent behind
    /// the request. A drain that was asked for since the last poll isn't told to the connection. A request that fails a check
    /// of the upgrade is held back still. On an error, which is that memory ran out for the upgrade, all is dropped.
    pub fn accept(self, limit: usize) -> Result<Accepting<T, S, S::Call, L, B>, NoMemory>
        requires open { MayBePolled S.calling self }
        requires can_accept { may_accept (view_of T.wiring S.served S.calling B.gives L.noted L.is_listening self) limit ≡ true }
        ensures says { IfOk result (AcceptSays T.wiring S.served S.calling B.gives L.noted L.is_listening (view_of T.wiring S.served S.calling B.gives L.noted L.is_listening self) limit) }
        ensures no_memory_needed { (view_of T.wiring S.served S.calling B.gives L.noted L.is_listening self).traced.listens ≡ false → TakesNoMemory (view_of T.wiring S.served S.calling B.gives L.noted L.is_listening self).traced.state (on.accept limit) → IsOk result }
    {
        let mut dispatcher = self;
        match dispatcher.step_accept(limit) {
            Ok(None) => Ok(Accepting::Done(dispatcher.hand_over())),
            Ok(Some(error)) => Ok(Accepting::Refused(dispatcher, error)),
            Err(error) => Err(error),
        }
    }

    // The upgrade comes to the connection.
    fn step_accept(&mut self, limit: usize) -> Result<Option<HandshakeError>, NoMemory>
        requires open { MayBePolled S.calling self.old }
        requires can_accept { may_accept (view_of T.wiring S.served S.calling B.gives L.noted L.is_listening self.old) limit ≡ true }
        ensures says { IfOk result (λ refusal. Accepts (view_of T.wiring S.served S.calling B.gives L.noted L.is_listening self.old) limit (view_of T.wiring S.served S.calling B.gives L.noted L.is_listening self.new) (option_map failing_of refusal)) }
        ensures no_memory_needed { (view_of T.wiring S.served S.calling B.gives L.noted L.is_listening self.old).traced.listens ≡ false → TakesNoMemory (view_of T.wiring S.served S.calling B.gives L.noted L.is_listening self.old).traced.state (on.accept limit) → IsOk result }
        ensures open { MayBePolled S.calling self.new }
    {
        match self.traced.step(&Event::Accept(limit)) {
            Ok(outcome) => Ok(refusal_in(&outcome)),
            Err(error) => Err(error),
        }
    }

    // The request that waits, with the connection, the transport and the service.
    fn hand_over(self) -> Upgraded<T, S, L>
        requires waits { is_waiting (stage_of S.calling B.gives self.work) ≡ true }
        ensures request { stage_of S.calling B.gives self.work ≡ waiting result.request }
        ensures traced { result.traced ≡ self.traced }
        ensures transport { result.transport ≡ self.transport }
        ensures service { result.service ≡ self.service }
    {
        let Dispatcher {
            traced,
            transport,
            service,
            work,
            ..
        } = self;
        let Work::Waiting(request) = work else {
            unreachable!()
        };
        Upgraded {
            request,
            traced,
            transport,
            service,
        }
    }

    /// Whether the request that waits is held back.
    pub(super) fn is_held(&self) -> bool
        ensures { result ≡ is_held (view_of T.wiring S.served S.calling B.gives L.noted L.is_listening self.now) }
    {
        if !self.work.is_waiting() {
            return false;
        }
        self.waits_for_leave() || self.asks_upgrade()
    }

    // Whether an upgrade of the last request is to be held back, and may be accepted.
    fn asks_upgrade(&self) -> bool
        ensures { result ≡ ((view_of T.wiring S.served S.calling B.gives L.noted L.is_listening self.now).holding && allows (view_of T.wiring S.served S.calling B.gives L.noted L.is_listening self.now) (on.accept 0)) }
    {
        if !self.is_holding {
            return false;
        }
        self.traced.connection().can_accept(0)
    }

    /// Tells the client of a request that is held back to go on, if it waits for that, isn't held back itself, and there is
    /// room; or else reads.
    pub(super) fn hold(&mut self, cx: &mut Context<'_>) -> DispatcherTurn
        requires open { MayBePolled S.calling self.old }
        requires running { self.old.ending ≡ None }
        requires allowed { allows_answer (view_of T.wiring S.served S.calling B.gives L.noted L.is_listening self.old) ≡ true }
        requires waits { is_waiting (stage_of S.calling B.gives self.old.work) ≡ true }
        requires held { is_held (view_of T.wiring S.served S.calling B.gives L.noted L.is_listening self.old) ≡ true }
        ensures says { ServeSays 4 (view_of T.wiring S.served S.calling B.gives L.noted L.is_listening self.old) (view_of T.wiring S.served S.calling B.gives L.noted L.is_listening self.new) result }
        ensures open { MayBePolled S.calling self.new }
        ensures registered { OnIdle result (IsArmed cx.new) }
        ensures kept { Keeps cx.old cx.new }
    {
        if self.waits_for_leave() {
            return self.wait_held(cx);
        }
        let has_room = self.has_room();
        if !has_room {
            return self.wait_held(cx);
        }
        let waits = self.traced.connection().can_continue();
        if waits {
            return self.tell_on();
        }
        self.wait_held(cx)
    }

    /// Reads, or asks for another poll where nothing may be read.
    fn wait_held(&mut self, cx: &mut Context<'_>) -> DispatcherTurn
        requires open { MayBePolled S.calling self.old }
        requires running { self.old.ending ≡ None }
        requires allowed { allows_answer (view_of T.wiring S.served S.calling B.gives L.noted L.is_listening self.old) ≡ true }
        requires waits { is_waiting (stage_of S.calling B.gives self.old.work) ≡ true }
        requires held { is_held (view_of T.wiring S.served S.calling B.gives L.noted L.is_listening self.old) ≡ true }
        ensures says { ServeSays 4 (view_of T.wiring S.served S.calling B.gives L.noted L.is_listening self.old) (view_of T.wiring S.served S.calling B.gives L.noted L.is_listening self.new) result }
        ensures open { MayBePolled S.calling self.new }
        ensures registered { OnIdle result (IsArmed cx.new) }
        ensures kept { Keeps cx.old cx.new }
    {
        self.read_alone(cx)
    }
}

/// Why an upgrade was refused, if it was.
fn refusal_in(outcome: &Outcome) -> Option<HandshakeError>
    ensures { option_map failing_of result ≡ refusal_of outcome.now }
{
    match outcome {
        Outcome::Took(_) => None,
        Outcome::Head(_) => None,
        Outcome::Bytes(_) => None,
        Outcome::Trailers(_) => None,
        Outcome::BodyEnd => None,
        Outcome::Frame(_) => None,
        Outcome::Pending => None,
        Outcome::Closed(_) => None,
        Outcome::Fault(_) => None,
        Outcome::Broken(_) => None,
        Outcome::Protocol(_) => None,
        Outcome::Refused(error) => Some(*error),
        Outcome::Gave(_) => None,
        Outcome::Expired(_) => None,
        Outcome::Abandoned => None,
        Outcome::Done => None,
    }
}
