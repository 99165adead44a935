//! A request that was sent on, and its reply.
#![tactic(auto)]

ghost use Rattle.std.specs.Prelude.{◌≡◌, ◌<◌, [], IsTrue, None, Some, true, false, length, OnOk, IfOk};
ghost use Rattle.proxy.specs.Sides.{SendsBody};
ghost use Rattle.proxy.specs.Wants.{IsTold};
ghost use Rattle.model_proxy.specs.Rests.{MAX_WAITING};
ghost use Rattle.proxy.specs.Kept.{Goes, GoesWith, HoldsNoRequest, Runs, GoesBroken};
ghost use Rattle.proxy.specs.Served.{Serving, GoesOnServing, HasNoReply, HasNoReplyTo};
ghost use Rattle.model_proxy.specs.Parts.{ends};
ghost use Rattle.proxy.specs.Fresh.{AddsBelow};
ghost use Rattle.proxy.specs.Replies.{refusal_part, may_keep, ReplyIsOver, marks_of, PutsLast, TurnReplies, Fails, Breaks, PassesBody, PassesHead, TakesAnswer};
ghost use Rattle.proxy.specs.Rests.{LeavesLess, Works, WorksBody};

use crate::downstream::{cut_reply, leave_body, next_bytes, put_end, put_head, put_piece};
use crate::proxy::{MAX_WAITING, Proxy, SentRequest};
use crate::upstream::{next_answer, next_piece, sends_body};
use h1_client::{ClientConnection, NextAnswer, ResponseItem};
use h1_connection::{BodySize, NoMemory, Pulled, StatusCode};
use proxy_heads::{AnswerUse, Refusal, answer_use, reply_head, reply_size, says_close};

impl Proxy {
    // What is there of its answer goes on, and else more of its body; where its server connection is gone, it fails.
    pub(crate) fn pass_on(&mut self, sent: SentRequest) -> Result<bool, NoMemory>
        requires runs { Runs sent self.old }
        ensures goes { OnOk result (Goes self.old self.new) }
        ensures works { IfOk result (λ more. Works more self.old self.new) }
        ensures serves { OnOk result (GoesOnServing self.old self.new) }
        ensures replies { OnOk result (TurnReplies self.old self.new) }
        ensures below { OnOk result (AddsBelow self.old.server self.new.server) }
    {
        match self.server.take() {
            Some(server) => {
                let more = self.pass(sent, server)?;
                Ok(more)
            }
            None => {
                self.fail(sent)?;
                Ok(true)
            }
        }
    }

    // What is there of its answer is passed on; else more of its body.
    fn pass(&mut self, sent: SentRequest, server: ClientConnection) -> Result<bool, NoMemory>
        requires runs { Runs sent self.old }
        ensures goes { OnOk result (GoesWith server self.old self.new) }
        ensures works { IfOk result (λ more. Works more (record self.old { server = Some server }) self.new) }
        ensures serves { OnOk result (GoesOnServing self.old self.new) }
        ensures replies { OnOk result (TurnReplies (record self.old { server = Some server }) self.new) }
        ensures below { OnOk result (AddsBelow (Some server) self.new.server) }
    {
        if sent.is_answered {
            let moved = self.pass_piece(sent, server)?;
            return Ok(moved);
        }
        let more = self.pass_answer(sent, server)?;
        Ok(more)
    }

    // The head of its answer is passed on, where it is there; else more of its body.
    fn pass_answer(&mut self, sent: SentRequest, server: ClientConnection) -> Result<bool, NoMemory>
        requires runs { Runs sent self.old }
        ensures goes { OnOk result (GoesWith server self.old self.new) }
        ensures works { IfOk result (λ more. sent.is_answered ≡ false → Works more (record self.old { server = Some server }) self.new) }
        ensures serves { OnOk result (sent.is_answered ≡ false → GoesOnServing self.old self.new) }
        ensures replies { OnOk result (sent.is_answered ≡ false → TurnReplies (record self.old { server = Some server }) self.new) }
        ensures below { OnOk result (AddsBelow (Some server) self.new.server) }
    {
        let mut server = server;
        match next_answer(&mut server)? {
            NextAnswer::Answer(item) => {
                self.take_answer(sent, server, item)?;
                Ok(true)
            }
            NextAnswer::Fault(_) => {
                self.fail(sent)?;
                Ok(true)
            }
            NextAnswer::Closed(_) => {
                self.fail(sent)?;
                Ok(true)
            }
            NextAnswer::Pending => {
                let more = self.pass_body(sent, server)?;
                Ok(more)
            }
        }
    }

    // The head of its answer has come.
    fn take_answer(
        &mut self,
        sent: SentRequest,
        server: ClientConnection,
        item: ResponseItem,
    ) -> Result<(), NoMemory>
        requires runs { Runs sent self.old }
        ensures goes { OnOk result (GoesWith server self.old self.new) }
        ensures works { OnOk result (LeavesLess 0 (record self.old { server = Some server }) self.new) }
        ensures serves { OnOk result (sent.is_answered ≡ false → GoesOnServing self.old self.new) }
        ensures replies { OnOk result (TakesAnswer sent server item self.old self.new) }
        ensures below { OnOk result (AddsBelow (Some server) self.new.server) }
    {
        match answer_use(&item) {
            AnswerUse::Refuse => {
                self.fail(sent)?;
                Ok(())
            }
            AnswerUse::PassOver => {
                self.server = Some(server);
                Ok(())
            }
            AnswerUse::PassOn => {
                self.pass_noted(sent, server, item)?;
                Ok(())
            }
        }
    }

    // It is passed on, and that is noted.
    fn pass_noted(
        &mut self,
        sent: SentRequest,
        server: ClientConnection,
        item: ResponseItem,
    ) -> Result<(), NoMemory>
        requires runs { Runs sent self.old }
        ensures goes { OnOk result (GoesWith server self.old self.new) }
        ensures works { OnOk result (LeavesLess 0 (record self.old { server = Some server }) self.new) }
        ensures serves { OnOk result (HasNoReplyTo sent.is_head self.old → IsTold self.old.client → Serving self.new) }
        ensures replies { OnOk result (PassesHead sent server item self.old.client self.new) }
        ensures below { OnOk result (AddsBelow (Some server) self.new.server) }
    {
        let status = status_of(&item);
        self.pass_head(sent, server, item)?;
        self.note_reply(status)?;
        Ok(())
    }

    fn pass_head(
        &mut self,
        sent: SentRequest,
        server: ClientConnection,
        item: ResponseItem,
    ) -> Result<(), NoMemory>
        requires runs { Runs sent self.old }
        ensures goes { OnOk result (GoesWith server self.old self.new) }
        ensures works { OnOk result (LeavesLess 0 (record self.old { server = Some server }) self.new) }
        ensures serves { OnOk result (HasNoReplyTo sent.is_head self.old → IsTold self.old.client → Serving self.new) }
        ensures replies { OnOk result (PassesHead sent server item self.old.client self.new) }
        ensures below { OnOk result (AddsBelow (Some server) self.new.server) }
    {
        let size = reply_size(sent.is_head, &item);
        let sent = answered(sent, says_close(&item));
        self.sent = Some(sent);
        let head = reply_head(self.alloc, item)?;
        if !size.is_eof() {
            put_head(&mut self.client, &head, size)?;
            self.server = Some(server);
            return Ok(());
        }
        leave_body(&mut self.client);
        put_head(&mut self.client, &head, size)?;
        self.part(sent, server);
        Ok(())
    }

    // More of the answer's body is passed on, where there is room for it; else more of the request's.
    fn pass_piece(&mut self, sent: SentRequest, server: ClientConnection) -> Result<bool, NoMemory>
        requires runs { Runs sent self.old }
        ensures goes { OnOk result (GoesWith server self.old self.new) }
        ensures works { IfOk result (λ more. sent.is_answered ≡ true → Works more (record self.old { server = Some server }) self.new) }
        ensures serves { OnOk result (sent.is_answered ≡ true → GoesOnServing self.old self.new) }
        ensures replies { OnOk result (sent.is_answered ≡ true → TurnReplies (record self.old { server = Some server }) self.new) }
        ensures below { OnOk result (AddsBelow (Some server) self.new.server) }
    {
        if !self.client.can_chunk() {
            let moved = self.pass_body(sent, server)?;
            return Ok(moved);
        }
        let mut server = server;
        match next_piece(&mut server)? {
            Pulled::Bytes(bytes) => {
                put_piece(&mut self.client, bytes)?;
                self.server = Some(server);
                Ok(true)
            }
            Pulled::Trailers(_) => {
                self.server = Some(server);
                Ok(true)
            }
            Pulled::End => {
                self.end_reply(sent, server)?;
                Ok(true)
            }
            Pulled::Broken(_) => {
                self.fail(sent)?;
                Ok(true)
            }
            Pulled::Pending => {
                let more = self.pass_body(sent, server)?;
                Ok(more)
            }
        }
    }

    // All of the answer was passed on.
    fn end_reply(&mut self, sent: SentRequest, server: ClientConnection) -> Result<(), NoMemory>
        requires runs { Runs sent self.old }
        ensures goes { OnOk result (GoesWith server self.old self.new) }
        ensures works { OnOk result (LeavesLess 0 (record self.old { server = Some server; sent = None }) self.new) }
        ensures serves { OnOk result (sent.is_answered ≡ true → GoesOnServing self.old self.new) }
        ensures replies { OnOk result (PutsLast [] ends self.old.client self.new.client) }
        ensures over { OnOk result (ReplyIsOver sent.is_whole sent.closes server self.new) }
        ensures below { OnOk result (AddsBelow (Some server) self.new.server) }
    {
        leave_body(&mut self.client);
        put_end(&mut self.client)?;
        self.part(sent, server);
        Ok(())
    }

    // The reply is complete. The server connection is kept where both sides are whole and it goes on.
    fn part(&mut self, sent: SentRequest, server: ClientConnection)
        requires runs { Runs sent self.old }
        ensures goes { GoesWith server self.old self.new }
        ensures works { LeavesLess 0 (record self.old { server = Some server; sent = None }) self.new }
        ensures serves { GoesOnServing (record self.old { sent = None }) self.new }
        ensures client { self.new.client ≡ self.old.client }
        ensures over { ReplyIsOver sent.is_whole sent.closes server self.new }
        ensures below { AddsBelow (Some server) self.new.server }
    {
        self.sent = None;
        if may_keep(sent, &server) {
            self.server = Some(server);
            return;
        }
        self.server = None;
    }

    // More of the request's body goes towards the server.
    fn pass_body(&mut self, sent: SentRequest, server: ClientConnection) -> Result<bool, NoMemory>
        requires runs { Runs sent self.old }
        ensures goes { OnOk result (GoesWith server self.old self.new) }
        ensures works { IfOk result (λ more. WorksBody sent server more self.old self.new) }
        ensures serves { OnOk result (GoesOnServing self.old self.new) }
        ensures replies { OnOk result (PassesBody sent server self.old.client self.new) }
        ensures below { OnOk result (AddsBelow (Some server) self.new.server) }
    {
        if !may_send(sent, &server) {
            self.server = Some(server);
            return Ok(false);
        }
        let mut server = server;
        match next_bytes(&mut self.client)? {
            Pulled::Bytes(bytes) => {
                server.chunk(bytes.as_slice())?;
                self.server = Some(server);
                Ok(true)
            }
            Pulled::Trailers(_) => {
                self.server = Some(server);
                Ok(true)
            }
            Pulled::End => {
                server.end_body()?;
                self.server = Some(server);
                self.sent = Some(whole(sent));
                Ok(true)
            }
            Pulled::Broken(_) => {
                self.break_body(sent, server)?;
                Ok(true)
            }
            Pulled::Pending => {
                self.server = Some(server);
                Ok(false)
            }
        }
    }

    // The request's body is broken. Where its answer is under way, that goes on; else the client gets 400, and the server
    // connection is closed.
    fn break_body(&mut self, sent: SentRequest, server: ClientConnection) -> Result<(), NoMemory>
        requires runs { Runs sent self.old }
        ensures goes { OnOk result (GoesBroken sent server self.old self.new) }
        ensures works { OnOk result (sent.is_whole ≡ false → sent.is_broken ≡ false → LeavesLess 1 (record self.old { server = Some server }) self.new) }
        ensures serves { OnOk result (GoesOnServing self.old self.new) }
        ensures replies { OnOk result (Breaks sent.is_answered sent server self.old.client self.new) }
        ensures below { OnOk result (AddsBelow (Some server) self.new.server) }
    {
        if sent.is_answered {
            self.server = Some(server);
            self.sent = Some(broken(sent));
            return Ok(());
        }
        self.server = None;
        self.sent = None;
        self.reply(Refusal::BrokenBody)?;
        Ok(())
    }

    // The answer is bad, and its server connection is closed: the client gets 502, or where a head was passed on, a reply
    // that is cut.
    fn fail(&mut self, sent: SentRequest) -> Result<(), NoMemory>
        requires unsent { self.old.unsent ≡ None }
        ensures goes { OnOk result (Goes (record self.old { server = None }) self.new) }
        ensures works { OnOk result (LeavesLess 0 (record self.old { server = None; sent = None }) self.new) }
        ensures serves { OnOk result (GoesOnServing (record self.old { sent = Some sent }) self.new) }
        ensures replies { OnOk result (Fails sent.is_answered self.old.client self.new) }
    {
        self.server = None;
        self.sent = None;
        if sent.is_answered {
            cut_reply(&mut self.client);
            return Ok(());
        }
        self.reply(Refusal::NoAnswer)?;
        Ok(())
    }

    // A reply of the forwarder's own.
    pub(crate) fn reply(&mut self, refusal: Refusal) -> Result<(), NoMemory>
        ensures goes { OnOk result (Goes self.old self.new) }
        ensures works { OnOk result (LeavesLess 0 self.old self.new) }
        ensures serves { OnOk result (HoldsNoRequest self.old → HasNoReply self.old → Serving self.new) }
        ensures replies { OnOk result (PutsLast [] (refusal_part refusal) self.old.client self.new.client) }
        ensures idle { OnOk result (HoldsNoRequest self.old → HoldsNoRequest self.new) }
        ensures server { OnOk result (self.new.server ≡ self.old.server) }
    {
        leave_body(&mut self.client);
        let head = refusal.head(self.alloc);
        put_head(&mut self.client, &head, BodySize::Sized(0))?;
        self.note_reply(refusal.status())?;
        Ok(())
    }
}

fn status_of(item: &ResponseItem) -> StatusCode {
    item.head.status
}

// The head of its answer was passed on.
fn answered(sent: SentRequest, closes: bool) -> SentRequest
    ensures same { result ≡ record sent { is_answered = true; closes = closes } }
    ensures whole { result.is_whole ≡ sent.is_whole }
    ensures broken { result.is_broken ≡ sent.is_broken }
    ensures marks { marks_of result ≡ record { is_head = sent.is_head; is_answered = true; closes = closes } }
{
    SentRequest {
        is_answered: true,
        closes,
        ..sent
    }
}

// The end of its body was sent on.
fn whole(sent: SentRequest) -> SentRequest
    ensures same { result ≡ record sent { is_whole = true } }
    ensures whole { result.is_whole ≡ true }
    ensures broken { result.is_broken ≡ sent.is_broken }
    ensures marks { marks_of result ≡ marks_of sent }
{
    SentRequest {
        is_whole: true,
        ..sent
    }
}

// Its body broke.
fn broken(sent: SentRequest) -> SentRequest
    ensures same { result ≡ record sent { is_broken = true } }
    ensures whole { result.is_whole ≡ sent.is_whole }
    ensures broken { result.is_broken ≡ true }
    ensures marks { marks_of result ≡ marks_of sent }
{
    SentRequest {
        is_broken: true,
        ..sent
    }
}

// Whether the server connection may serve another request: both messages are whole, and it goes on.
fn may_keep(sent: SentRequest, server: &ClientConnection) -> bool
    ensures whole { IsTrue result → sent.is_whole ≡ true }
    ensures keeps { result ≡ may_keep sent.is_whole sent.closes server.now }
{
    if !sent.is_whole {
        return false;
    }
    if sent.closes {
        return false;
    }
    server.closing().is_none()
}

// Whether more of the request's body may be sent on: never where 32768 bytes wait towards the server.
fn may_send(sent: SentRequest, server: &ClientConnection) -> bool
    ensures sends { IsTrue result → SendsBody server.now }
    ensures more { IsTrue result → (sent.is_whole ≡ false) × (sent.is_broken ≡ false) }
    ensures room { IsTrue result → length server.now.kept.buffered < MAX_WAITING }
    ensures none { result ≡ false → sent.is_whole ≡ false → sent.is_broken ≡ false → length server.now.kept.buffered < MAX_WAITING → SendsBody server.now → ⊥ }
{
    if sent.is_whole {
        return false;
    }
    if sent.is_broken {
        return false;
    }
    if server.front().len() >= MAX_WAITING {
        return false;
    }
    sends_body(server)
}
