//! A service that answers as it was told.
ghost use Rattle.futures.specs.Poll.{OnPending};
ghost use Rattle.futures.specs.Task.{IsArmed, Keeps};
ghost use Rattle.http_services.specs.Lent.{LentBound, lent_of};

use crate::dispatch::body::{Page, Script, page};
use crate::dispatch::reply::{Kind, Reply};
use crate::dispatch::silence::Silence;
use futures::task::{Context, Poll};
use http_services::PlainService;
use http_services::h1::Payload;
use http_types::{ConnectionType, PayloadError, Request, Response, StatusCode};
use std::alloc::Global;
use std::mem;
use vectors::Report;

/// A call: its reply and its answer's body, how often it is still pending in each of both ways, and how many chunks it still
/// takes of its body.
#[derive(Drop)]
pub struct Coming {
    reply: Reply,
    script: Script,
    busy: usize,
    asleep: usize,
    reads: usize,
}

/// Answers the requests one after another by the replies, and those after them by 200.
#[derive(Drop)]
pub struct Scripted {
    alloc: Global,
    replies: Vec<Reply>,
    scripts: Vec<Option<Script>>,
    silence: Silence,
    next: usize,
    unready: usize,
    asked: Report,
    taken: Report,
    ends: Report,
}

impl Scripted {
    /// A service with these replies, and the bodies of their answers, that was asked nothing.
    pub fn new(
        alloc: Global,
        replies: Vec<Reply>,
        scripts: Vec<Option<Script>>,
        silence: Silence,
    ) -> Scripted {
        Scripted {
            alloc,
            replies,
            scripts,
            silence,
            next: 0,
            unready: 0,
            asked: Report::new(alloc),
            taken: Report::new(alloc),
            ends: Report::new(alloc),
        }
    }

    /// The methods and targets of the calls so far, with a blank before each word; the bytes that the calls took of their
    /// bodies; and how these ended, with a blank before each word.
    pub fn seen(&self) -> [&[u8]; 3] {
        [self.asked.so_far(), self.taken.so_far(), self.ends.so_far()]
    }

    /// Tells the report where memory ran out for one of these.
    pub fn tell(&self, report: &mut Report) {
        report.heed(&self.asked);
        report.heed(&self.taken);
        report.heed(&self.ends);
    }

    // The reply to the next request.
    fn reply(&self) -> Reply {
        match self.replies.get(self.next) {
            Some(reply) => *reply,
            None => Reply::plain(),
        }
    }

    // The body of the answer to the next request.
    fn script(&mut self) -> Script {
        let empty = Script::new(Vec::new(self.alloc), false);
        match self.scripts.get_mut(self.next) {
            Some(script) => mem::replace(script, None).unwrap_or(empty),
            None => empty,
        }
    }

    // Takes a chunk of a call's body, or its end or fault, where there is one. It is pending where there is none, and behind a
    // chunk.
    fn take(&mut self, call: &mut Coming, lent: &mut Payload, cx: &mut Context<'_>) -> Poll<()>
        ensures bound { LentBound (lent_of lent.old) (lent_of lent.new) }
        ensures registered { OnPending result (IsArmed cx.new) }
        ensures kept { Keeps cx.old cx.new }
    {
        match lent.poll_next(cx) {
            Poll::Pending => Poll::Pending,
            Poll::Ready(Some(Ok(chunk))) => {
                call.reads = call.reads.saturating_sub(1);
                self.taken.put_all(chunk.as_slice());
                cx.yield_now()
            }
            Poll::Ready(Some(Err(error))) => {
                call.reads = 0;
                self.ends.put_text(fault(error));
                Poll::Ready(())
            }
            Poll::Ready(None) => {
                call.reads = 0;
                put_end(lent, &mut self.ends);
                Poll::Ready(())
            }
        }
    }

    // The next request has its reply.
    fn pass(&mut self) {
        self.next = self.next.saturating_add(1);
        self.unready = 0;
    }
}

impl PlainService<Request<(), ()>> for Scripted {
    type Response = Response<Page>;

    type Error = Response<Page>;

    type Call = Coming;

    type Lent = Payload;

    fn poll_ready(&mut self, cx: &mut Context<'_>) -> Poll<Result<(), Response<Page>>> {
        let reply = self.reply();
        if self.unready < reply.unready {
            self.unready += 1;
            return cx.yield_now();
        }
        if reply.kind != Kind::Refuses {
            return Poll::Ready(Ok(()));
        }
        let script = self.script();
        self.pass();
        Poll::Ready(Err(response_of(self.alloc, reply, script)))
    }

    fn call(&mut self, req: Request<(), ()>) -> Coming {
        note(&req, &mut self.asked);
        let reply = self.reply();
        let busy = reply.busy;
        let asleep = reply.asleep;
        let reads = reply.reads;
        let script = self.script();
        self.pass();
        Coming {
            reply,
            script,
            busy,
            asleep,
            reads,
        }
    }

    fn poll_call(
        &mut self,
        call: &mut Coming,
        lent: &mut Payload,
        cx: &mut Context<'_>,
    ) -> Poll<Result<Response<Page>, Response<Page>>> {
        if call.reply.drops {
            lent.drop_receiver();
        }
        if call.asleep > 0 {
            call.asleep -= 1;
            return self.silence.poll(cx);
        }
        if call.reads > 0 && self.take(call, lent, cx).is_pending() {
            return Poll::Pending;
        }
        if call.busy > 0 {
            call.busy -= 1;
            return cx.yield_now();
        }
        let empty = Script::new(Vec::new(self.alloc), false);
        let script = mem::replace(&mut call.script, empty);
        let response = response_of(self.alloc, call.reply, script);
        if call.reply.kind == Kind::Errs {
            return Poll::Ready(Err(response));
        }
        Poll::Ready(Ok(response))
    }
}

// The answer that a reply says.
fn response_of(alloc: Global, reply: Reply, script: Script) -> Response<Page> {
    let mut response = Response::with_body(alloc, reply.status, page(reply.size, script));
    if reply.closes {
        response
            .head_mut()
            .set_connection_type(ConnectionType::Close);
    }
    response
}

/// An answer with this status and without a byte.
pub fn refusal(alloc: Global, status: StatusCode) -> Response<Page> {
    Response::with_body(
        alloc,
        status,
        page(Some(0), Script::new(Vec::new(alloc), false)),
    )
}

// Puts the request's method and target after the text.
fn note(req: &Request<(), ()>, asked: &mut Report) {
    asked.put_text(" ");
    asked.put_text(req.method().as_str());
    asked.put_text(" ");
    asked.put_text(req.path());
}

// The word for a body that can't be read further.
fn fault(error: PayloadError) -> &'static str {
    match error {
        PayloadError::Incomplete => " incomplete",
        PayloadError::EncodingCorrupted => " corrupted",
        _ => " an error that never comes",
    }
}

// Puts that a body has ended after the text, and how many trailers it had, if it had some.
fn put_end(lent: &Payload, ends: &mut Report) {
    if let Some(trailers) = lent.trailers() {
        ends.put_text(" trailers ");
        ends.put_decimal(trailers.len() as u64);
    }
    ends.put_text(" end");
}
