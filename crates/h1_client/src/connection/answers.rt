// The next answer.
ghost use Rattle.std.specs.Prelude.{◌≡◌, ◌≢◌, ◌∷◌, ◌||◌, ℕ, Bool, List, true, false, not, None, Some, bytes_eq, codes, drop, option_map, slice_range, IfOk, IsOk, OnOk, OnErr};
ghost use Rattle.http_framing.specs.Kinds.{kind_of};
ghost use Rattle.model_h1.specs.Request.{has_body};
ghost use Rattle.model_h1.specs.Setting.{Setting};
ghost use Rattle.model_state.specs.Kept.{rest_in, whole_rest};
ghost use Rattle.h1_decoder.specs.Refusal as decode;
ghost use Rattle.h1_decoder.specs.ResponseItem.{SaysAnswer};
ghost use Rattle.h1_client.specs.HeadMeaning.{fault_of};
ghost use Rattle.model_client.specs.AnswerReading.{Answer, answer_is, refused, IsAnswerReading, IsAnswerReadingWithin};
ghost use Rattle.model_client.specs.ClientEvent as on;
ghost use Rattle.model_client.specs.ClientKept.{Waiting, client_closing, is_free};
ghost use Rattle.model_client.specs.ClientStep.{behind_answer, behind_final, fault_end};
ghost use Rattle.h1_client.specs.Answers.{IsNexted, IsAnswered, IsBegun, NeedsNoMemory};
ghost use Rattle.h1_client.specs.Incoming.{place_in};
ghost use Rattle.h1_client.specs.ClientMeaning.{setting_of, end_of};
ghost use Rattle.h1_client.specs.Parts.{kept_of, IsFirst, IsSettledAs, IsSound};

use crate::connection::bodies::Reading;
use crate::connection::parts::Parts;
use crate::connection::queue::First;
use crate::{
    AnswerFault, BodyKind, ClientEnd, NextAnswer, ResponseItem, body_to, closes_after, fault_by,
    is_interim,
};
use h1_payload::Rest;
use http_types::{NoMemory, ParseError, ServiceConfig};
use std::alloc::Global;

impl Parts {
    /// Hands out the connection's end where it is to end, and else the next answer's head.
    pub fn next(&mut self, alloc: Global, config: &ServiceConfig) -> Result<NextAnswer, NoMemory>
        requires { IsSound self.old }
        ensures ok { IfOk result (λ next. IsNexted (setting_of config.now) self.old next self.new) }
        ensures sound { OnOk result (IsSound self.new) }
        ensures no_memory_needed { NeedsNoMemory (kept_of self.old) → IsOk result }
        ensures err { OnErr result (self.new ≡ self.old) }
    {
        if let Some(end) = self.closing() {
            self.is_over = true;
            return Ok(NextAnswer::Closed(end));
        }
        self.next_while_open(alloc, config)
    }

    // The next answer's head, where the connection doesn't close.
    fn next_while_open(
        &mut self,
        alloc: Global,
        config: &ServiceConfig,
    ) -> Result<NextAnswer, NoMemory>
        requires sound { IsSound self.old }
        requires runs { client_closing (kept_of self.old) ≡ None }
        ensures ok { IfOk result (λ next. IsNexted (setting_of config.now) self.old next self.new) }
        ensures sound { OnOk result (IsSound self.new) }
        ensures no_memory_needed { (kept_of self.old).is_coming ≡ false → IsOk result }
        ensures err { OnErr result (self.new ≡ self.old) }
    {
        let Some(place) = self.input.piece() else {
            return Ok(self.go_without(config));
        };
        self.next_found(alloc, config, place)
    }

    // The head that was found at this place, where somebody waits for it.
    fn next_found(
        &mut self,
        alloc: Global,
        config: &ServiceConfig,
        place: (usize, usize),
    ) -> Result<NextAnswer, NoMemory>
        requires sound { IsSound self.old }
        requires runs { client_closing (kept_of self.old) ≡ None }
        requires found { place_in self.old.input.piece ≡ Some place }
        ensures ok { IfOk result (λ next. IsNexted (setting_of config.now) self.old next self.new) }
        ensures sound { OnOk result (IsSound self.new) }
        ensures err { OnErr result (self.new ≡ self.old) }
    {
        let Some(first) = self.waiting.first() else {
            return Ok(NextAnswer::Pending);
        };
        match self
            .input
            .read_head(alloc, place.0, place.1, config.h1_hold_size())
        {
            Ok(item) => {
                self.hand_out(place.0, place.1, first, &item);
                Ok(NextAnswer::Answer(item))
            }
            Err(error) => Ok(NextAnswer::Fault(self.refuse(error)?)),
        }
    }

    // No whole head is there: no more bytes can be taken for one, or more may come.
    fn go_without(&mut self, config: &ServiceConfig) -> NextAnswer
        requires sound { IsSound self.old }
        requires runs { client_closing (kept_of self.old) ≡ None }
        requires none { place_in self.old.input.piece ≡ None }
        ensures ok { IsNexted (setting_of config.now) self.old result self.new }
        ensures sound { IsSound self.new }
    {
        if self.input.len() == config.h1_hold_size() {
            self.failed = Some(ClientEnd::LargeAnswer);
            return NextAnswer::Fault(AnswerFault::TooLarge);
        }
        NextAnswer::Pending
    }

    // The head that was found is refused, for this reason, unless memory ran out.
    fn refuse(&mut self, error: ParseError) -> Result<AnswerFault, NoMemory>
        ensures cause { IfOk result (λ fault. (error ≢ ParseError.NoMemory) × (fault_of fault ≡ decode.fault_of error)) }
        ensures ok { IfOk result (λ fault. (failed : ClientEnd) × (end_of failed ≡ fault_end (fault_of fault)) × (self.new ≡ record self.old { failed = Some failed })) }
        ensures err { OnErr result (self.new ≡ self.old) }
    {
        let fault = fault_by(error)?;
        self.failed = Some(end_by(fault));
        Ok(fault)
    }

    // The head is handed out.
    fn hand_out(&mut self, start: usize, end: usize, first: First, item: &ResponseItem)
        requires sound { IsSound self.old }
        requires runs { client_closing (kept_of self.old) ≡ None }
        requires found { place_in self.old.input.piece ≡ Some (start, end) }
        ensures handed { (a : Answer) (w : Waiting) (ws : List Waiting) → IsAnswerReading (slice_range self.old.input.unread start end) (answer_is a)
            → SaysAnswer item.now a → self.old.waiting ≡ w ∷ ws → IsFirst w first
            → IsSettledAs (behind_answer (kept_of self.old) (drop end self.old.input.unread) a w ws) self.new }
        ensures sound { (a : Answer) (w : Waiting) (ws : List Waiting) → IsAnswerReading (slice_range self.old.input.unread start end) (answer_is a)
            → SaysAnswer item.now a → self.old.waiting ≡ w ∷ ws → IsFirst w first → IsSound self.new }
    {
        self.input.pass_head(start, end);
        self.begin(first, item);
        self.settle();
    }

    // An interim answer leaves its request waiting.
    fn begin(&mut self, first: First, item: &ResponseItem)
        ensures { IsBegun self.old first item.now self.new }
    {
        if is_interim(item) {
            return;
        }
        self.answer(first, item);
    }

    // The first request waits no more, and its answer's body begins.
    fn answer(&mut self, first: First, item: &ResponseItem)
        ensures { IsAnswered self.old first item.now self.new }
    {
        let kind = body_to(first.is_head, item);
        let rest = self.whole_rest(kind);
        let follows = has_body(kind);
        let closes = closes_after(first.closes, first.is_head, item);
        let is_last = either(self.is_last, closes);
        self.waiting.pop();
        self.closes = closes;
        self.is_last = is_last;
        self.reading = Some(Reading {
            rest,
            is_done: !follows,
            was_dropped: false,
        });
    }

    // All of a body of this kind. Where the input has ended, one up to its end has ended if no byte is there.
    fn whole_rest(&self, kind: BodyKind) -> Rest
        ensures { result ≡ rest_in self.now.has_ended self.now.input.unread (whole_rest (kind_of kind)) }
    {
        let mut rest = Rest::whole(kind);
        if self.has_ended {
            self.input.end(&mut rest);
        }
        rest
    }
}

// Whether one of two holds.
fn either(first: bool, second: bool) -> bool
    ensures { result ≡ (first || second) }
{
    first || second
}

// Whether a body follows.
fn has_body(kind: BodyKind) -> bool
    ensures { result ≡ has_body (kind_of kind) }
{
    match kind {
        BodyKind::None => false,
        BodyKind::Length(_) | BodyKind::Chunked | BodyKind::Raw => true,
    }
}

// Why the connection closes after it.
fn end_by(fault: AnswerFault) -> ClientEnd
    ensures { end_of result ≡ fault_end (fault_of fault) }
{
    match fault {
        AnswerFault::Malformed => ClientEnd::BadAnswer,
        AnswerFault::TooLarge => ClientEnd::LargeAnswer,
    }
}
