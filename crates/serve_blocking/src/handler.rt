//! What a program has to say.
ghost use Rattle.std.specs.Prelude.{◌≡◌, false, Option, List, ◌∷◌, [], is_some};
ghost use Rattle.h1_decoder.specs.declared.decoder.HeadItem.{HeadItem};
ghost use Rattle.serve_blocking.specs.Judged.{doubt_if};
ghost use Rattle.serve_blocking.specs.Served.{Follows, Notes};

use crate::{Answer, Body, HandleError, Incoming};
use http_types::NoMemory;
use net_sockets::{TimedSink, TimedSource};
use std::net::SocketAddr;

/// What answers the requests of one connection, one after the other.
pub trait Handler {
    /// The requests that it was given, the oldest first, where it tells them.
    ghost handled: { Self → Option (List HeadItem) };

    /// Answers one request. Where it returns without an answer, one of status 500 is sent, and of status 400 after
    /// `BrokenBody`; where it returns inside an answer, that fails, and the connection ends.
    fn handle<S: TimedSource, K: TimedSink>(
        &mut self,
        request: &Incoming<'_>,
        body: &mut Body<S, K>,
        answer: Answer,
    ) -> Result<(), HandleError>
        requires unwanted { body.old.wanted ≡ false }
        requires doubted { body.old.closes ≡ is_some (doubt_if body.old.judges request.now) }
        ensures handled { Notes (handled self.old) (handled self.new) (request.now ∷ []) }
        ensures follows { Follows body.old body.new };

    /// Whether the server is to end. Then the connection takes no further request. It is asked at least once a second.
    fn is_ending(&self) -> bool {
        false
    }
}

/// What makes a handler for each connection.
pub trait Handlers {
    /// The handler of one connection, which goes to a thread of its own.
    type Handler: Handler + Send + Drop + 'static;

    /// A handler for a connection with this peer.
    fn handler(&mut self, peer: SocketAddr) -> Result<Self::Handler, NoMemory>;

    /// Whether the server is to end. Then no further connection is accepted.
    fn is_ending(&self) -> bool {
        false
    }
}
