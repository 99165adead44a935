//! A dispatcher, and what it keeps.
ghost use Rattle.std.specs.Prelude.{◌≡◌, ◌≤◌, ◌⊎◌, None, Some, List, [], IfOk, IsOk};
ghost use Rattle.model_h1.specs.Sums as sums;
ghost use Rattle.model_state.specs.Ahead.{IsAhead};
ghost use Rattle.model_state.specs.Deadline.{deadline_by};
ghost use Rattle.h1_connection.specs.EventMeaning.{setting_of};
ghost use Rattle.h1_connection.specs.State.{IsCounted};
ghost use Rattle.h1_traced.specs.Traced.{TracedStands};
ghost use Rattle.http_services.specs.Serving.{Calling};
ghost use Rattle.h1_dispatcher.specs.View.{Asking, view_of, view_begun, with_drain, parts_of, told_service, stage_of, is_busy, is_waiting, is_sending, MayBePolled};

use h1_connection::End;
use h1_traced::{Recorder, Traced};
use http_bodies::MessageBody;
use http_services::Service;
use http_services::h1::Payload;
use http_transport::Transport;
use http_types::{NoMemory, Request, Response, ServiceConfig};
use std::alloc::Global;
use std::net::SocketAddr;

mod answer;
mod begin;
mod check;
mod feed;
mod poll;
mod read;
mod send;
mod serve;
mod turns;
mod upgrade;
mod write;

pub use upgrade::{Accepting, Upgraded};

/// How a connection has ended: nothing more is asked of it.
#[derive(Clone, Copy, Debug, PartialEq, Eq)]
pub enum Ending {
    /// It told its end. The transport is to be shut down.
    Closed(End),

    /// The peer took too long to take what was left. The transport isn't shut down.
    Abandoned,

    /// Memory ran out. The transport isn't shut down, since what it took or gave may be lost.
    Broken,
}

/// How far the last request is: only one of these holds, so that no answer becomes that of another request.
#[derive(Drop)]
enum Work<C, B> {
    /// Nothing is left to do for it, or none has come.
    Free,

    /// The service is to be called with it.
    Waiting(Request<(), ()>),

    /// Its call is in progress.
    Calling(C),

    /// Its answer wasn't handed on yet.
    Replying(Response<B>),

    /// The answer's body goes out.
    Sending(B),
}

impl<C, B: MessageBody> Work<C, B> {
    /// Whether the service has a request to answer, or its answer or the body of that is to be handed on.
    fn is_busy(&self) -> bool
        ensures { (calls : C → Calling Asking) → result ≡ is_busy (stage_of calls B.gives self.now) }
    {
        match self {
            Work::Free => false,
            Work::Waiting(_) => true,
            Work::Calling(_) => true,
            Work::Replying(_) => true,
            Work::Sending(_) => true,
        }
    }

    /// Whether the request waits for the service.
    fn is_waiting(&self) -> bool
        ensures { (calls : C → Calling Asking) → result ≡ is_waiting (stage_of calls B.gives self.now) }
    {
        match self {
            Work::Free => false,
            Work::Waiting(_) => true,
            Work::Calling(_) => false,
            Work::Replying(_) => false,
            Work::Sending(_) => false,
        }
    }

    /// Whether the answer's body goes out.
    fn is_sending(&self) -> bool
        ensures { (calls : C → Calling Asking) → result ≡ is_sending (stage_of calls B.gives self.now) }
    {
        match self {
            Work::Free => false,
            Work::Waiting(_) => false,
            Work::Calling(_) => false,
            Work::Replying(_) => false,
            Work::Sending(_) => true,
        }
    }
}

/// A service over a transport, by one connection of HTTP/1: each request goes to the service, and its answer is written.
///
/// The parameters are the transport, the service and its call, the body of its answers, and who notes the steps of the
/// connection. Each request has the address of the peer. A piece of an answer's body is asked for once there is room for it. What comes of a request's body is fed to
/// a queue that is lent to the service's call, as long as that wants more; what is left of the body is dropped when the
/// request is answered.
#[derive(Drop)]
pub struct Dispatcher<T, S, C, L, B = ()> {
    alloc: Global,
    traced: Traced<L>,
    transport: T,
    peer: Option<SocketAddr>,
    service: S,
    queue: Payload,
    work: Work<C, B>,
    ending: Option<Ending>,
    is_draining: bool,
    upgrades: bool,
    expects: bool,
    is_holding: bool,
    is_checking: bool,
    has_filled_read: bool,
}

impl<T, S, L, B> Dispatcher<T, S, S::Call, L, B>
where
    T: Transport,
    S: Service<Request<(), ()>, Response = Response<B>, Error = Response<B>, Lent = Payload>,
    B: MessageBody,
    L: Recorder,
{
    /// A dispatcher of a connection to which nothing has come. Each request that the service is given has the address of this
    /// peer, or none where it isn't known. It takes no memory.
    pub fn new(
        alloc: Global,
        transport: T,
        service: S,
        config: ServiceConfig,
        peer: Option<SocketAddr>,
        recorder: L,
    ) -> Dispatcher<T, S, S::Call, L, B>
        ensures view { view_of T.wiring S.served S.calling B.gives L.noted L.is_listening result ≡ view_begun (T.wiring transport) (told_service B.gives (S.served service)) config peer (L.noted recorder) (L.is_listening recorder) }
        ensures transport { (parts_of result).0 ≡ transport }
        ensures stands { (L.noted recorder ≡ None) ⊎ (L.noted recorder ≡ Some []) → TracedStands (view_of T.wiring S.served S.calling B.gives L.noted L.is_listening result).traced [] }
        ensures open { MayBePolled S.calling result }
    {
        Dispatcher {
            alloc,
            traced: Traced::new(alloc, config, recorder),
            transport,
            peer,
            service,
            queue: Payload::create(alloc, true),
            work: Work::Free,
            ending: None,
            is_draining: false,
            upgrades: false,
            expects: false,
            is_holding: false,
            is_checking: false,
            has_filled_read: false,
        }
    }

    /// Has the connection end once no request is open. The next poll tells it so, where it doesn't close yet.
    pub fn drain(&mut self)
        ensures view { view_of T.wiring S.served S.calling B.gives L.noted L.is_listening self.new ≡ with_drain (view_of T.wiring S.served S.calling B.gives L.noted L.is_listening self.old) }
        ensures open { MayBePolled S.calling self.old → MayBePolled S.calling self.new }
    {
        self.is_draining = true;
    }

    /// The least moment at which a poll would tell that a time has run out, in milliseconds after the start of 1970, where
    /// one would. Who drives the dispatcher polls it then, if it isn't woken before.
    pub fn deadline(&self) -> Option<u64>
        ensures { result ≡ deadline_by (setting_of (view_of T.wiring S.served S.calling B.gives L.noted L.is_listening self.now).traced.state.settings) (view_of T.wiring S.served S.calling B.gives L.noted L.is_listening self.now).traced.state.kept }
    {
        self.traced.connection().deadline()
    }

    /// How many heads stand ahead of the request that was handed out last: at most 16. They count among the bytes that are
    /// held. None of them was read yet, so that it takes memory where there is one.
    pub fn ahead(&self) -> Result<usize, NoMemory>
        ensures value { IfOk result (λ count. count ≡ (view_of T.wiring S.served S.calling B.gives L.noted L.is_listening self.now).traced.state.ahead) }
        ensures most { IfOk result (λ count. count ≤ 16) }
        ensures traced { IfOk result (λ count. (trace : List sums.Step) → IsCounted (view_of T.wiring S.served S.calling B.gives L.noted L.is_listening self.now).traced.state trace
            → IsAhead (setting_of (view_of T.wiring S.served S.calling B.gives L.noted L.is_listening self.now).traced.state.settings) trace count) }
        ensures no_memory_needed { (view_of T.wiring S.served S.calling B.gives L.noted L.is_listening self.now).traced.state.ahead ≡ 0 → IsOk result }
    {
        self.traced.connection().ahead()
    }

    /// The address of the peer, where it is known.
    pub fn peer_addr(&self) -> Option<SocketAddr>
        ensures { result ≡ (view_of T.wiring S.served S.calling B.gives L.noted L.is_listening self.now).peer }
    {
        self.peer
    }

    /// The service.
    pub fn service(&self) -> &S
        ensures { told_service B.gives (S.served result.now) ≡ (view_of T.wiring S.served S.calling B.gives L.noted L.is_listening self.now).service }
    {
        &self.service
    }

    /// The transport, the service, and who noted the steps. A call in progress is dropped.
    pub fn into_parts(self) -> (T, S, L)
        ensures { result ≡ parts_of self }
    {
        let (_connection, recorder) = self.traced.into_parts();
        (self.transport, self.service, recorder)
    }
}

/// What a turn came to.
#[derive(Drop)]
enum DispatcherTurn {
    /// A step was noted; another turn may do more.
    Counted,

    /// Nothing more can be done until the task is woken.
    Idle,

    /// The poll ends.
    Over(Result<(), http_types::DispatchError>),
}
