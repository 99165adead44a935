// What comes of the answer.
ghost use Rattle.std.specs.Prelude.{◌≡◌, ◌≢◌, false, None, Some, codes, IsSome, IfOk, IfErr, OnErr, if◌then◌else◌};
ghost use Rattle.http_map.specs.HeaderMap.{get};
ghost use Rattle.h1_client.specs.Answers.{SaysNext};
ghost use Rattle.h1_client.specs.ClientMeaning.{setting_of};
ghost use Rattle.h1_client.specs.State.{IsAllowed};
ghost use Rattle.model_client.specs.ClientEvent as on;
ghost use Rattle.model_client.specs.ClientKept.{client_allows};
ghost use Rattle.model_client.specs.AnswerParse.{is_interim};
ghost use Rattle.app_get.specs.Exchange.{Goes, IsTaken, noted_by, led_by, is_unwanted, is_unread};
ghost use Rattle.app_get.specs.Failure.{Heard, Stops, is_heard, error_by};

use crate::error::GetError;
use crate::exchange::Exchange;
use crate::redirect::is_redirect;
use crate::show::{write_all, write_head};
use h1_client::{AnswerFault, BodyFault, ClientEnd, NextAnswer, Pulled, ResponseItem};
use http_header::LOCATION;
use http_types::{HeaderValue, NoMemory, ResponseHead, Sink, Source};
use net_sockets::{TimedSink, TimedSource};

/// What is wanted of an answer.
#[derive(Clone, Copy)]
pub struct Wanted {
    /// Its head is written too.
    pub head: bool,

    /// An answer of a status of 400 or above isn't wanted: its body isn't written.
    pub no_refusal: bool,

    /// Nor is a redirect.
    pub no_redirect: bool,
}

/// What was taken of an answer.
#[derive(Clone, Copy)]
pub enum Taken {
    /// A part.
    Part,

    /// Nothing: it needs bytes that haven't come.
    Nothing,

    /// The rest: the answer is whole. This is its status.
    Whole(u16),
}

impl<S: TimedSource + Drop, K: TimedSink + Drop, B: Source + Drop, O: Sink + Drop> Exchange<
    S,
    K,
    B,
    O,
> {
    /// Takes what comes next of the answer, and writes it out.
    pub(crate) fn take(&mut self) -> Result<Taken, GetError>
        ensures taken { IfOk result (λ taken. IsTaken taken self.old self.new) }
        ensures stops { IfErr result (λ error. Stops self.old self.new error) }
    {
        match self.status {
            Some(status) => self.take_body(status),
            None => self.take_head(),
        }
    }

    // An interim head is passed over (RFC 9110, section 15.2).
    fn take_head(&mut self) -> Result<Taken, GetError>
        requires { self.old.status ≡ None }
        ensures taken { IfOk result (λ taken. IsTaken taken self.old self.new) }
        ensures stops { IfErr result (λ error. Stops self.old self.new error) }
    {
        if !self.connection.can_next() {
            return Err(GetError::Lost);
        }
        match self.next_answer()? {
            NextAnswer::Answer(item) => self.show(&item),
            NextAnswer::Pending => Ok(Taken::Nothing),
            NextAnswer::Fault(AnswerFault::Malformed) => Err(GetError::BadHead),
            NextAnswer::Fault(AnswerFault::TooLarge) => Err(GetError::LongHead),
            NextAnswer::Closed(end) => Err(self.error_of(end)),
        }
    }

    // The next head, or that there is none. The status of one that isn't interim is noted, and where it leads.
    fn next_answer(&mut self) -> Result<NextAnswer, NoMemory>
        requires can_next { IsAllowed self.old.state on.next }
        requires none { self.old.status ≡ None }
        ensures heard { IfOk result (λ next. Heard self.old next self.new) }
        ensures err { OnErr result (self.new.out ≡ self.old.out) }
    {
        let next = self.connection.next()?;
        self.location = led(&next, self.location.take())?;
        self.status = noted(&next, self.status);
        Ok(next)
    }

    // Writes a head out, where that is wanted and it isn't interim.
    fn show(&mut self, item: &ResponseItem) -> Result<Taken, GetError>
        ensures part { IfOk result (λ taken. (taken ≡ Taken.Part) × Goes self.old self.new) }
        ensures stops { IfErr result (λ error. Stops self.old self.new error) }
    {
        // The status of an interim one isn't noted.
        if self.wanted.head && self.status.is_some() {
            write_head(self.alloc, item, &mut self.out)?;
        }
        Ok(Taken::Part)
    }

    // What comes next of the body. Nobody asked for another protocol.
    fn take_body(&mut self, status: u16) -> Result<Taken, GetError>
        requires { self.old.status ≡ Some status }
        ensures taken { IfOk result (λ taken. IsTaken taken self.old self.new) }
        ensures stops { IfErr result (λ error. Stops self.old self.new error) }
    {
        if status == 101 {
            return Err(GetError::Protocol);
        }
        if self.is_unwanted(status) {
            return Err(GetError::Unwanted);
        }
        if self.connection.can_pull() {
            self.pull()
        } else {
            self.finish(status)
        }
    }

    // Whether an answer of this status isn't wanted.
    fn is_unwanted(&self, status: u16) -> bool
        ensures { result ≡ is_unwanted self.now.wanted status }
    {
        (self.wanted.no_refusal && 400 <= status)
            || (self.wanted.no_redirect && is_redirect(status))
    }

    // Writes out what comes next of the body.
    fn pull(&mut self) -> Result<Taken, GetError>
        requires can_pull { IsAllowed self.old.state on.pull }
        requires noted { IsSome self.old.status }
        requires plain { self.old.status ≢ Some 101 }
        requires wanted { is_unread self.old ≡ false }
        ensures taken { IfOk result (λ taken. IsTaken taken self.old self.new) }
        ensures stops { IfErr result (λ error. Stops self.old self.new error) }
    {
        match self.connection.pull()? {
            Pulled::Bytes(bytes) => {
                write_all(&mut self.out, bytes.as_slice())?;
                Ok(Taken::Part)
            }
            Pulled::Trailers(_) => Ok(Taken::Part),
            Pulled::End => Ok(Taken::Part),
            Pulled::Broken(BodyFault::Corrupted) => Err(GetError::BadChunks),
            Pulled::Broken(BodyFault::Incomplete) => Err(GetError::Lost),
            Pulled::Pending => Ok(Taken::Nothing),
        }
    }

    // Nothing more is to be pulled: the answer is whole, unless the connection failed before it was.
    fn finish(&self, status: u16) -> Result<Taken, GetError>
        requires noted { self.now.status ≡ Some status }
        requires plain { status ≢ 101 }
        requires wanted { is_unwanted self.now.wanted status ≡ false }
        requires nothing_left { client_allows (setting_of self.now.state.settings) self.now.state.kept on.pull ≡ false }
        ensures taken { IfOk result (λ taken. IsTaken taken self.now self.now) }
        ensures stops { IfErr result (λ error. Stops self.now self.now error) }
    {
        match self.connection.closing() {
            None if self.connection.can_next() => Ok(Taken::Whole(status)),
            None => Err(GetError::Lost),
            Some(ClientEnd::Asked) => Ok(Taken::Whole(status)),
            Some(ClientEnd::Unasked) => Ok(Taken::Whole(status)),
            Some(ClientEnd::InputEnded) => Ok(Taken::Whole(status)),
            Some(ClientEnd::FailedRequest) => Err(GetError::ShortFile),
            Some(ClientEnd::BadAnswer) => Err(GetError::Lost),
            Some(ClientEnd::LargeAnswer) => Err(GetError::Lost),
            Some(ClientEnd::BrokenAnswer) => Err(GetError::Lost),
        }
    }

    // What the end of the connection means to an answer that isn't whole.
    pub(crate) fn error_of(&self, end: ClientEnd) -> GetError
        ensures { result ≡ error_by (is_heard self.now.begun self.now.status) end }
    {
        match end {
            ClientEnd::BadAnswer => GetError::BadHead,
            ClientEnd::LargeAnswer => GetError::LongHead,
            ClientEnd::FailedRequest => GetError::ShortFile,
            ClientEnd::BrokenAnswer => self.broken_off(),
            ClientEnd::Asked => self.broken_off(),
            ClientEnd::Unasked => self.broken_off(),
            ClientEnd::InputEnded => self.broken_off(),
        }
    }

    // The connection has ended: after something of an answer came, or before.
    fn broken_off(&self) -> GetError
        ensures { result ≡ (if is_heard self.now.begun self.now.status then GetError.Lost else GetError.Unanswered) }
    {
        if self.has_begun {
            return GetError::Lost;
        }
        if self.status.is_some() {
            GetError::Lost
        } else {
            GetError::Unanswered
        }
    }
}

// The Location of the last head.
fn led(next: &NextAnswer, before: Option<HeaderValue>) -> Result<Option<HeaderValue>, NoMemory>
    ensures { IfOk result (λ found. (out : on.ClientOutcome) → SaysNext next.now out → found ≡ led_by out before) }
{
    match next {
        NextAnswer::Answer(item) => location_in(&item.head),
        NextAnswer::Fault(_) => Ok(before),
        NextAnswer::Pending => Ok(before),
        NextAnswer::Closed(_) => Ok(before),
    }
}

// The Location of a head, the first where there are several.
fn location_in(head: &ResponseHead) -> Result<Option<HeaderValue>, NoMemory>
    ensures { IfOk result (λ found. found ≡ get head.now.headers (codes "location")) }
{
    match head.headers.get(LOCATION) {
        Some(value) => Ok(Some(value.clone()?)),
        None => Ok(None),
    }
}

// The status of the answer: that of the last head that isn't interim.
fn noted(next: &NextAnswer, before: Option<u16>) -> Option<u16>
    ensures { (out : on.ClientOutcome) → SaysNext next.now out → result ≡ noted_by out before }
{
    match next {
        NextAnswer::Answer(item) => {
            let status = item.head.status.as_u16();
            if is_interim(status) {
                before
            } else {
                Some(status)
            }
        }
        NextAnswer::Fault(_) => before,
        NextAnswer::Pending => before,
        NextAnswer::Closed(_) => before,
    }
}

// Whether the request waits on after a head of this status (RFC 9110, section 15.2).
fn is_interim(status: u16) -> bool
    ensures { result ≡ is_interim status }
{
    100 <= status && status < 200 && status != 101
}
