//! What is answered to which request.
ghost use Rattle.std.specs.Prelude.{None};
ghost use Rattle.serve_blocking.specs.Served.{Follows};

use http_framing::BodyKind;
use http_types::{Method, NoMemory, ResponseHead, StatusCode};
use net_sockets::{TimedSink, TimedSource};
use serve_blocking::{Answer, Body, HandleError, Handler, Handlers, Incoming, Piece, Writer};
use std::alloc::Global;
use std::net::SocketAddr;

/// Makes the handlers of so many connections.
#[derive(Drop)]
pub struct Hellos {
    alloc: Global,
    left: u64,
}

/// Answers the requests of one connection.
#[derive(Drop)]
pub struct Hello {
    alloc: Global,
}

impl Hellos {
    pub fn new(alloc: Global, connections: u64) -> Hellos {
        Hellos {
            alloc,
            left: connections,
        }
    }
}

impl Handlers for Hellos {
    type Handler = Hello;

    fn handler(&mut self, _peer: SocketAddr) -> Result<Hello, NoMemory> {
        self.left = self.left.saturating_sub(1);
        Ok(Hello { alloc: self.alloc })
    }

    fn is_ending(&self) -> bool {
        self.left == 0
    }
}

impl Handler for Hello {
    // It keeps no list of its requests.
    ghost handled = { λ _. None };

    #[tactic(auto, using(serve_blocking::proofs::Followed::follows_none, serve_blocking::proofs::Followed::follows_then))]
    fn handle<S: TimedSource, K: TimedSink>(
        &mut self,
        request: &Incoming<'_>,
        body: &mut Body<S, K>,
        answer: Answer,
    ) -> Result<(), HandleError> {
        let head = ResponseHead::new(self.alloc, StatusCode::OK);
        let asked = request.head();
        if asked.method == Method::POST && asked.uri.path() == "/echo" {
            return echo(request, head, body, answer);
        }
        // Without an answer the client gets one of status 500.
        if asked.uri.path() == "/silent" {
            return Ok(());
        }
        answer.whole(body, head, b"hello\n")
    }
}

// Sends the request's body back, piece by piece as it comes.
#[tactic(auto, using(serve_blocking::proofs::Followed::follows_none, serve_blocking::proofs::Followed::follows_then))]
fn echo<S: TimedSource, K: TimedSink>(
    request: &Incoming<'_>,
    head: ResponseHead,
    body: &mut Body<S, K>,
    answer: Answer,
) -> Result<(), HandleError>
    ensures follows { Follows body.old body.new }
{
    let mut writer = begin(request, head, body, answer)?;
    for _ in 0..u64::MAX {
        match body.read() {
            Ok(Piece::Bytes(bytes)) => writer = writer.write(body, bytes.as_slice())?,
            Ok(Piece::Trailers(_) | Piece::End) => return writer.end(body),
            Err(error) => {
                writer.fail(body);
                return Err(error);
            }
        }
    }
    writer.end(body)
}

// Begins an answer as long as the request's body, or one of which nobody knows yet how long it is.
#[tactic(auto, using(serve_blocking::proofs::Followed::follows_none, serve_blocking::proofs::Followed::follows_then))]
fn begin<S: TimedSource, K: TimedSink>(
    request: &Incoming<'_>,
    head: ResponseHead,
    body: &mut Body<S, K>,
    answer: Answer,
) -> Result<Writer, HandleError>
    ensures follows { Follows body.old body.new }
{
    body.want()?;
    let length = match request.body() {
        BodyKind::None => Some(0),
        BodyKind::Length(length) => Some(length),
        BodyKind::Chunked | BodyKind::Raw => None,
    };
    if let Some(length) = length {
        return answer.sized(body, head, length);
    }
    answer.stream(body, head)
}
