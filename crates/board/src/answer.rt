// The answer to one request, by one call of the board.
ghost use Rattle.std.specs.Prelude.{◌≡◌, IfOk, OnErr};
ghost use Rattle.h1_encoder.specs.Meaning.{answer_of};
ghost use Rattle.board.specs.Table.{command_of, count_answer};
ghost use Rattle.board.specs.Answers.{Answered, MayHaveCalled};

use crate::gate::Gate;
use crate::{BoardError, Command, Name, Pass, Shared};
use http_types::{HeaderName, HeaderValue, NoMemory, Request, RequestHead, Response, StatusCode};
use std::alloc::{AllocError, Global};
use std::sync::Wait;
use std::sync::ledger::Ledger;

/// What a connection calls, besides its pass.
#[derive(Drop)]
pub(crate) struct Desk<'a, R, G, M: Ledger> {
    pub(crate) rt: &'a R,
    pub(crate) alloc: Global,
    pub(crate) shared: &'a Shared<M>,
    pub(crate) gate: &'a G,
    pub(crate) conn: usize,
}

impl<'a, R: Wait, G: Gate, M: Ledger> Desk<'a, R, G, M> {
    /// The answer to a request. Where its method is GET or POST and its path is a name, the board is called once, with
    /// this pass. Out of memory, the pass is as before or has grown by this one call.
    pub(crate) fn answer(
        &self,
        pass: &mut Pass<M>,
        request: &Request<(), ()>,
    ) -> Result<Response<()>, NoMemory>
        ensures answered { IfOk result (λ response. Answered pass.old.number (request.now, response) pass.old.entries pass.new.entries) }
        ensures err { OnErr result (MayHaveCalled pass.old.number (command_of request.now.head) pass.old.entries pass.new.entries) }
        ensures number { pass.new.number ≡ pass.old.number }
    {
        let Some(command) = command_in(request.head()) else {
            return Ok(Response::new(self.alloc, StatusCode::NOT_FOUND));
        };
        let call = pass.entries().len() as u64;
        self.gate.before(self.conn, call);
        let called = self.shared.call(self.rt, pass, command);
        self.gate.after(self.conn, call);
        match called {
            Ok(reply) => count_response(self.alloc, reply.0),
            Err(BoardError::Full) => {
                Ok(Response::new(self.alloc, StatusCode::SERVICE_UNAVAILABLE))
            }
            Err(BoardError::NoMemory) => Err(AllocError),
        }
    }
}

/// What a head asks of the board.
fn command_in(head: &RequestHead) -> Option<Command>
    ensures { result ≡ command_of head.now }
{
    let Ok(name) = Name::new(head.uri.path().as_bytes()) else {
        return None;
    };
    let method = head.method.as_str();
    if method == "GET" {
        Some(Command::Get(name))
    } else if method == "POST" {
        Some(Command::Add(name))
    } else {
        None
    }
}

/// 200 with the reply.
fn count_response(alloc: Global, reply: u64) -> Result<Response<()>, NoMemory>
    ensures { IfOk result (λ response. answer_of response.head ≡ count_answer reply) }
{
    let value = HeaderValue::from_u64(alloc, reply)?;
    let mut response = Response::new(alloc, StatusCode::OK);
    response
        .headers_mut()
        .append(HeaderName::from_static("x-count"), value)?;
    Ok(response)
}
