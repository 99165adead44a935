//! What was replied, for a log.
#![tactic(auto)]

ghost use Rattle.std.specs.Prelude.{OnOk};
ghost use Rattle.proxy.specs.Kept.{Goes};
ghost use Rattle.proxy.specs.Rests.{IsNoted};

use crate::proxy::{Proxy, Unsent};
use h1_connection::{HeadFault, NoMemory, RequestHead, StatusCode};
use std::alloc::Global;
use std::mem;

/// A reply that was begun.
#[derive(Drop)]
pub struct BegunReply {
    /// The head of its request, as it was sent on or would have been. There is none where no head could be read.
    pub request: Option<RequestHead>,
    pub status: StatusCode,
}

/// What is noted of replies.
#[derive(Drop)]
pub(crate) struct Notes {
    alloc: Global,
    is_on: bool,

    /// The request whose reply has not begun.
    request: Option<RequestHead>,
    replies: Vec<BegunReply>,
}

impl Notes {
    /// Nothing, and nothing is to be noted. It takes no memory.
    pub(crate) fn new(alloc: Global) -> Notes {
        Notes {
            alloc,
            is_on: false,
            request: None,
            replies: Vec::new(alloc),
        }
    }

    fn keep(&mut self, request: RequestHead) {
        if self.is_on {
            self.request = Some(request);
        }
    }

    fn begin(&mut self, status: StatusCode) -> Result<(), NoMemory> {
        if !self.is_on {
            return Ok(());
        }
        let request = self.request.take();
        self.replies.push(BegunReply { request, status })?;
        Ok(())
    }

    fn take(&mut self) -> Vec<BegunReply> {
        if self.replies.is_empty() {
            return Vec::new(self.alloc);
        }
        mem::replace(&mut self.replies, Vec::new(self.alloc))
    }
}

impl Proxy {
    /// From now on replies are noted. Who asks for that takes them after each event: an event begins some 700 at most.
    pub fn note_replies(&mut self)
        ensures goes { Goes self.old self.new }
        ensures noted { IsNoted self.old self.new }
    {
        self.notes.is_on = true;
    }

    /// The replies that were begun since they were last taken, in order.
    pub fn take_replies(&mut self) -> Vec<BegunReply>
        ensures goes { Goes self.old self.new }
        ensures noted { IsNoted self.old self.new }
    {
        self.notes.take()
    }

    // A reply to this request is to come.
    pub(crate) fn note_request(&mut self, request: RequestHead)
        ensures goes { Goes self.old self.new }
        ensures noted { IsNoted self.old self.new }
    {
        self.notes.keep(request);
    }

    // The same of a request that was to be sent on.
    pub(crate) fn note_unsent(&mut self, unsent: Option<Unsent>)
        ensures goes { Goes self.old self.new }
        ensures noted { IsNoted self.old self.new }
    {
        if let Some(unsent) = unsent {
            let Unsent { head, .. } = unsent;
            self.note_request(head);
        }
    }

    // A reply of this status has begun.
    pub(crate) fn note_reply(&mut self, status: StatusCode) -> Result<(), NoMemory>
        ensures goes { OnOk result (Goes self.old self.new) }
        ensures noted { OnOk result (IsNoted self.old self.new) }
    {
        self.notes.begin(status)?;
        Ok(())
    }

    // The client's connection has refused a head.
    pub(crate) fn note_fault(&mut self, fault: HeadFault) -> Result<(), NoMemory>
        ensures goes { OnOk result (Goes self.old self.new) }
        ensures noted { OnOk result (IsNoted self.old self.new) }
    {
        self.note_reply(status_of(fault))?;
        Ok(())
    }
}

// The status of the answer to a head that is none.
fn status_of(fault: HeadFault) -> StatusCode {
    match fault {
        HeadFault::Malformed => StatusCode::BAD_REQUEST,
        HeadFault::TooLarge => StatusCode::REQUEST_HEADER_FIELDS_TOO_LARGE,
    }
}
