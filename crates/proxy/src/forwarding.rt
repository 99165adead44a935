//! What a forwarder does of its own between two events, turn by turn.
#![tactic(auto)]

ghost use Rattle.std.specs.Prelude.{◌≡◌, ◌+◌, ◌*◌, ◌||◌, IsTrue, None, Some, true, false, not, is_some, OnOk, IfOk, IsOk};
ghost use Rattle.proxy.specs.Sides.{ServerStays};
ghost use Rattle.proxy.specs.Kept.{Goes, GoesUnsent, HoldsNoRequest, is_closing};
ghost use Rattle.proxy.specs.Served.{GoesOnServing};
ghost use Rattle.h1_client.specs.State as servers;
ghost use Rattle.model_client.specs.ClientKept.{client_closing};
ghost use Rattle.proxy.specs.Fresh.{is_used, is_server_used, IsToldTime, SendsOrWaits, SendsWhereItCan, ClosesOver, BeginsWhereItMay, AddsBelow, SendsBelow};
ghost use Rattle.proxy.specs.Replies.{KeepsIdle, TurnReplies, HasReplied};
ghost use Rattle.proxy.specs.Rests.{may_begin, is_over, may_turn, Settles, Works, Turns, IsNotToEnd};

use crate::downstream::next_head;
use crate::proxy::{MAX_WAITING, Proxy, Unsent};
use crate::upstream::{ask, tick_server};
use h1_client::ClientConnection;
use h1_connection::{NextHead, NoMemory};

impl Proxy {
    /// Makes turns until none is possible. Where none may be made it takes no memory.
    pub(crate) fn settle(&mut self) -> Result<(), NoMemory>
        ensures goes { OnOk result (Goes self.old self.new) }
        ensures rests { OnOk result (Settles self.old self.new) }
        ensures serves { OnOk result (GoesOnServing self.old self.new) }
        ensures replies { OnOk result (HasReplied self.old self.new) }
        ensures no_memory_needed { may_turn self.old ≡ false → IsOk result }
    {
        for turn in 0..self.most_turns() {
            let more = self.turn()?;
            if !more {
                return Ok(());
            }
        }
        Ok(())
    }

    // No more turns are possible one after another: 32 for each byte that may be held of a side, and 8.
    fn most_turns(&self) -> usize
        ensures { result ≡ 32 * self.now.config.connections.h1_hold_size + 8 }
    {
        32 * self.config.connections.h1_hold_size() + 8
    }

    // The first turn that is possible; whether there was one.
    fn turn(&mut self) -> Result<bool, NoMemory>
        ensures goes { OnOk result (Goes self.old self.new) }
        ensures works { IfOk result (λ more. Turns more self.old self.new) }
        ensures serves { OnOk result (GoesOnServing self.old self.new) }
        ensures replies { OnOk result (TurnReplies self.old self.new) }
        ensures begins { OnOk result (BeginsWhereItMay self.old self.new) }
        ensures sends { OnOk result (SendsWhereItCan self.old self.new) }
        ensures keeps { OnOk result (KeepsIdle self.old self.new) }
        ensures no_memory_needed { may_turn self.old ≡ false → IsOk result }
        ensures below { OnOk result (SendsBelow self.old self.new) }
    {
        if self.is_still() {
            return Ok(false);
        }
        match self.unsent.take() {
            Some(unsent) => {
                let more = self.send(unsent)?;
                Ok(more)
            }
            None => {
                let more = self.go_on()?;
                Ok(more)
            }
        }
    }

    // No turn is possible: enough waits towards the client, or towards a server that goes on where no request is under way
    // whose answer may come; or the client's connection is to end.
    fn is_still(&self) -> bool
        ensures { result ≡ not (may_turn self.now) }
    {
        if self.client.buffered() >= MAX_WAITING {
            return true;
        }
        if !self.may_begin() {
            return true;
        }
        self.is_closing()
    }

    // A request that is under way may be answered. Else one may be begun where there is room towards the server, and a
    // server connection that is to end may be closed, whatever waits there.
    fn may_begin(&self) -> bool
        ensures { result ≡ (may_begin self.now.sent self.now.server || is_over self.now.server) }
    {
        if self.sent.is_some() {
            return true;
        }
        match &self.server {
            Some(server) => server.front().len() < MAX_WAITING || server.closing().is_some(),
            None => true,
        }
    }

    // Sends a request on, where there is a server connection.
    fn send(&mut self, unsent: Unsent) -> Result<bool, NoMemory>
        ensures goes { OnOk result (GoesUnsent unsent self.old self.new) }
        ensures works { IfOk result (λ more. Works more (record self.old { unsent = Some unsent }) self.new) }
        ensures serves { OnOk result (GoesOnServing (record self.old { unsent = Some unsent }) self.new) }
        ensures replies { OnOk result (TurnReplies (record self.old { unsent = Some unsent }) self.new) }
        ensures sends { OnOk result (SendsOrWaits unsent (record self.old { unsent = Some unsent }) self.new) }
        ensures closes { OnOk result (ClosesOver (record self.old { unsent = Some unsent }) self.new) }
        ensures below { OnOk result (self.old.sent ≡ None → may_turn self.old ≡ true → AddsBelow self.old.server self.new.server) }
    {
        if self.is_server_used() {
            self.server = None;
            self.unsent = Some(unsent);
            return Ok(true);
        }
        let Some(mut server) = self.server.take() else {
            self.unsent = Some(unsent);
            return Ok(false);
        };
        self.tell_time(&mut server);
        if ask(&mut server, &unsent.head, unsent.size)? {
            self.server = Some(server);
            self.sent = Some(unsent.sent);
            self.unsent = None;
            self.note_unsent(Some(unsent));
            return Ok(true);
        }
        self.unsent = Some(unsent);
        Ok(true)
    }

    // The server connection closes: it has ended, or bytes came that no request asked for.
    fn is_server_over(&self) -> bool
        ensures some { IsTrue result → is_some self.now.server ≡ true }
        ensures over { IsTrue result → (s : servers.State) × (self.now.server ≡ Some s) × (is_some (client_closing s.kept) ≡ true) }
        ensures is { result ≡ is_over self.now.server }
        ensures goes_on { result ≡ false → IsNotToEnd self.now.server }
    {
        match &self.server {
            Some(server) => server.closing().is_some(),
            None => false,
        }
    }

    // It closes, or something of an earlier answer is to come: then no request is sent on there.
    fn is_server_used(&self) -> bool
        ensures { result ≡ is_server_used self.now.server }
    {
        match &self.server {
            Some(server) => !has_read_all(server),
            None => false,
        }
    }

    fn tell_time(&self, server: &mut ClientConnection)
        ensures stays { ServerStays server.old server.new }
        ensures told { IsToldTime self.now.moment server.old server.new }
        ensures waits { server.new.kept.buffered ≡ server.old.kept.buffered }
    {
        if let Some(moment) = self.moment {
            tick_server(server, moment);
        }
    }

    // No request waits, and the client's connection isn't to end.
    fn go_on(&mut self) -> Result<bool, NoMemory>
        requires unsent { self.old.unsent ≡ None }
        requires going { is_closing self.old ≡ false }
        ensures goes { OnOk result (Goes self.old self.new) }
        ensures works { IfOk result (λ more. Works more self.old self.new) }
        ensures serves { OnOk result (GoesOnServing self.old self.new) }
        ensures replies { OnOk result (TurnReplies self.old self.new) }
        ensures keeps { OnOk result (KeepsIdle self.old self.new) }
        ensures closes { OnOk result (ClosesOver self.old self.new) }
        ensures below { OnOk result (AddsBelow self.old.server self.new.server) }
    {
        match self.sent {
            Some(sent) => {
                let more = self.pass_on(sent)?;
                Ok(more)
            }
            None => {
                let more = self.begin()?;
                Ok(more)
            }
        }
    }

    // No request is under way: the server connection is idle.
    fn begin(&mut self) -> Result<bool, NoMemory>
        requires idle { HoldsNoRequest self.old }
        requires going { is_closing self.old ≡ false }
        ensures goes { OnOk result (Goes self.old self.new) }
        ensures works { IfOk result (λ more. Works more self.old self.new) }
        ensures serves { OnOk result (GoesOnServing self.old self.new) }
        ensures replies { OnOk result (TurnReplies self.old self.new) }
        ensures keeps { OnOk result (KeepsIdle self.old self.new) }
        ensures closes { OnOk result (ClosesOver self.old self.new) }
        ensures below { OnOk result (AddsBelow self.old.server self.new.server) }
    {
        if self.is_server_over() {
            self.server = None;
            return Ok(true);
        }
        let more = self.take_head()?;
        Ok(more)
    }

    // The next request's head; the server connection, if there is one, isn't to end.
    fn take_head(&mut self) -> Result<bool, NoMemory>
        requires idle { HoldsNoRequest self.old }
        requires going { is_closing self.old ≡ false }
        requires goes_on { IsNotToEnd self.old.server }
        ensures goes { OnOk result (Goes self.old self.new) }
        ensures works { IfOk result (λ more. Works more self.old self.new) }
        ensures serves { OnOk result (GoesOnServing self.old self.new) }
        ensures replies { OnOk result (TurnReplies self.old self.new) }
        ensures keeps { OnOk result (KeepsIdle self.old self.new) }
        ensures below { OnOk result (AddsBelow self.old.server self.new.server) }
    {
        match next_head(&mut self.client)? {
            NextHead::Head(item) => {
                self.open(item)?;
                Ok(true)
            }
            NextHead::Fault(fault) => {
                self.note_fault(fault)?;
                Ok(true)
            }
            NextHead::Pending => Ok(false),
            NextHead::Closed(_) => Ok(false),
        }
    }
}

// Whether nothing of an earlier answer is to come, and no byte came that no request asked for.
fn has_read_all(server: &ClientConnection) -> bool
    ensures { result ≡ not (is_used server.now) }
{
    if server.closing().is_some() {
        return false;
    }
    if server.waiting() != 0 {
        return false;
    }
    server.can_next()
}
