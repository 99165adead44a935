//! The calls of a connection to a server, each where it is allowed.
#![tactic(auto, using(crate::proofs::Sides::server_same))]

ghost use Rattle.std.specs.Prelude.{◌≡◌, false, IsTrue, IfOk, OnOk, option_map};
ghost use Rattle.h1_encoder.specs.Meaning.{size_of};
ghost use Rattle.h1_client.specs.ClientMeaning.{request_of, end_of};
ghost use Rattle.proxy.specs.Sides.{ServerStays, KeepsTime, IsToldMoment, MayAsk, SendsBody};
ghost use Rattle.proxy.specs.Leaves.{LeavesAnswer, LeavesPiece};
ghost use Rattle.proxy.specs.Puts.{HandsAnswer, HandsPiece, CannotPull, IsReadUp, is_sound, is_plain};

use h1_client::{BodyFault, ClientConnection, ClientEnd, NextAnswer, Pulled};
use http_framing::BodySize;
use http_types::{NoMemory, RequestHead};

/// Tells it the time.
pub fn tick_server(server: &mut ClientConnection, moment: u64)
    ensures stays { ServerStays server.old server.new }
    ensures told { IsToldMoment moment server.old server.new }
    ensures waits { server.new.kept.buffered ≡ server.old.kept.buffered }
{
    if !server.can_tick(moment) {
        return;
    }
    server.tick(moment);
}

/// Sends the head of a request on; whether it may be sent there.
pub fn ask(
    server: &mut ClientConnection,
    head: &RequestHead,
    size: BodySize,
) -> Result<bool, NoMemory>
    ensures { IfOk result (λ asked. MayAsk asked (request_of head.now) (size_of size) server.old server.new) }
{
    if !server.can_ask(head, size) {
        return Ok(false);
    }
    server.ask(head, size)?;
    Ok(true)
}

/// Whether a piece of the body that is sent may come, and its end.
pub fn sends_body(server: &ClientConnection) -> bool
    ensures sends { IsTrue result → SendsBody server.now }
    ensures none { result ≡ false → SendsBody server.now → ⊥ }
{
    if !server.can_chunk() {
        return false;
    }
    server.can_end_body()
}

/// The next answer's head. One that can't be asked for, since an earlier one isn't read to its end, counts as one that won't come.
pub fn next_answer(server: &mut ClientConnection) -> Result<NextAnswer, NoMemory>
    ensures stays { OnOk result (ServerStays server.old server.new) }
    ensures time { OnOk result (KeepsTime server.old server.new) }
    ensures leaves { IfOk result (λ next. LeavesAnswer next server.old server.new) }
    ensures hands { IfOk result (λ next. HandsAnswer next server.old server.new) }
    ensures waits { OnOk result (server.new.kept.buffered ≡ server.old.kept.buffered) }
{
    if !server.can_next() {
        return Ok(NextAnswer::Closed(ClientEnd::BrokenAnswer));
    }
    let next = server.next()?;
    Ok(next)
}

/// More of the answer's body: its end where the answer has none, or it was read before, and else a fault where no more can be asked for.
pub fn next_piece(server: &mut ClientConnection) -> Result<Pulled, NoMemory>
    ensures stays { OnOk result (ServerStays server.old server.new) }
    ensures time { OnOk result (KeepsTime server.old server.new) }
    ensures leaves { IfOk result (λ pulled. LeavesPiece pulled server.old server.new) }
    ensures hands { IfOk result (λ pulled. HandsPiece pulled server.old server.new) }
    ensures waits { OnOk result (server.new.kept.buffered ≡ server.old.kept.buffered) }
{
    if !server.can_pull() {
        return Ok(last_piece(server));
    }
    let pulled = server.pull()?;
    Ok(pulled)
}

// What is told where no more of the answer's body can be asked for: its end where it was read, and else a fault.
fn last_piece(server: &ClientConnection) -> Pulled
    ensures leaves { LeavesPiece result server.now server.now }
    ensures hands { CannotPull server.now → HandsPiece result server.now server.now }
{
    if is_read_up(server) {
        return Pulled::End;
    }
    Pulled::Broken(BodyFault::Incomplete)
}

// Whether the last answer is read to its end.
fn is_read_up(server: &ClientConnection) -> bool
    ensures read { IsTrue result → IsReadUp server.now }
    ensures unread { result ≡ false → IsReadUp server.now → ⊥ }
{
    if !server.can_next() {
        return false;
    }
    is_sound(server.closing())
}

// Whether no fault brings the connection's end.
fn is_sound(end: Option<ClientEnd>) -> bool
    ensures { result ≡ is_sound (option_map end_of end) }
{
    match end {
        None => true,
        Some(end) => is_plain(end),
    }
}

fn is_plain(end: ClientEnd) -> bool
    ensures { result ≡ is_plain (end_of end) }
{
    match end {
        ClientEnd::BadAnswer => false,
        ClientEnd::LargeAnswer => false,
        ClientEnd::BrokenAnswer => false,
        ClientEnd::FailedRequest => false,
        ClientEnd::Asked => true,
        ClientEnd::Unasked => true,
        ClientEnd::InputEnded => true,
    }
}
