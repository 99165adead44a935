//! The calls of the client's connection, each where it is allowed.
#![tactic(auto, using(crate::proofs::Sides::client_same))]

ghost use Rattle.std.specs.Prelude.{IfOk, OnOk};
ghost use Rattle.model_h1.specs.Event as on;
ghost use Rattle.proxy.specs.Sides.{ClientBrings, BringsNext, BringsPulled};
ghost use Rattle.h1_encoder.specs.Meaning.{answer_of, size_of};
ghost use Rattle.proxy.specs.Leaves.{LeavesNext, LeavesPulled};
ghost use Rattle.proxy.specs.Wants.{Wants, WantsTheSame, WantsNext, HasHead, HasEnd, TellsToContinue};
ghost use Rattle.model_proxy.specs.Parts.{begins, continues, ends, breaks_off, goes_on};
ghost use Rattle.proxy.specs.Puts.{MayLeave, MayPut, HandsNext, HandsPulled};

use h1_connection::{BodySize, Bytes, Connection, NextHead, NoMemory, Pulled, ResponseHead};

/// The next request's head.
pub fn next_head(client: &mut Connection) -> Result<NextHead, NoMemory>
    ensures brings { IfOk result (λ next. BringsNext next client.old client.new) }
    ensures leaves { IfOk result (λ next. LeavesNext next client.old client.new) }
    ensures wants { IfOk result (λ next. Wants (WantsNext next) client.old client.new) }
    ensures hands { IfOk result (λ next. HandsNext next client.old client.new) }
{
    if !client.can_next() {
        return Ok(NextHead::Pending);
    }
    let next = client.next()?;
    Ok(next)
}

/// More of the request's body.
pub fn next_bytes(client: &mut Connection) -> Result<Pulled, NoMemory>
    ensures brings { IfOk result (λ pulled. BringsPulled pulled client.old client.new) }
    ensures leaves { IfOk result (λ pulled. LeavesPulled pulled client.old client.new) }
    ensures wants { OnOk result (Wants WantsTheSame client.old client.new) }
    ensures hands { IfOk result (λ pulled. HandsPulled pulled client.old client.new) }
{
    if !client.can_pull() {
        return Ok(Pulled::Pending);
    }
    let pulled = client.pull()?;
    Ok(pulled)
}

/// The rest of the request's body isn't wanted.
pub fn leave_body(client: &mut Connection)
    ensures brings { ClientBrings on.done client.old client.new }
    ensures wants { Wants WantsTheSame client.old client.new }
    ensures puts { MayLeave client.old client.new }
{
    if !client.can_pull() {
        return;
    }
    client.drop_body();
}

/// Tells the client to go on, where it waits for that.
pub fn tell_to_continue(client: &mut Connection) -> Result<(), NoMemory>
    ensures brings { OnOk result (ClientBrings on.done client.old client.new) }
    ensures wants { OnOk result (Wants WantsTheSame client.old client.new) }
    ensures told { OnOk result (Wants TellsToContinue client.old client.new) }
    ensures puts { OnOk result (MayPut goes_on client.old client.new) }
{
    if !client.can_continue() {
        return Ok(());
    }
    client.send_continue()?;
    Ok(())
}

/// The head of a reply.
pub fn put_head(
    client: &mut Connection,
    head: &ResponseHead,
    size: BodySize,
) -> Result<(), NoMemory>
    ensures brings { OnOk result (ClientBrings on.done client.old client.new) }
    ensures wants { OnOk result (Wants (HasHead (size_of size)) client.old client.new) }
    ensures puts { OnOk result (MayPut (begins (record { head = answer_of head.now; size = size_of size })) client.old client.new) }
{
    if !client.can_answer() {
        return Ok(());
    }
    client.answer(head, size)?;
    Ok(())
}

/// A piece of its body.
pub fn put_piece(client: &mut Connection, bytes: Bytes) -> Result<(), NoMemory>
    ensures brings { OnOk result (ClientBrings on.done client.old client.new) }
    ensures wants { OnOk result (Wants WantsTheSame client.old client.new) }
    ensures puts { OnOk result (MayPut (continues bytes) client.old client.new) }
{
    if !client.can_chunk() {
        return Ok(());
    }
    client.chunk_bytes(bytes)?;
    Ok(())
}

/// The end of its body.
pub fn put_end(client: &mut Connection) -> Result<(), NoMemory>
    ensures brings { OnOk result (ClientBrings on.done client.old client.new) }
    ensures wants { OnOk result (Wants HasEnd client.old client.new) }
    ensures puts { OnOk result (MayPut ends client.old client.new) }
{
    if !client.can_end_answer() {
        return Ok(());
    }
    client.end_answer()?;
    Ok(())
}

/// Its body is cut.
pub fn cut_reply(client: &mut Connection)
    ensures brings { ClientBrings on.done client.old client.new }
    ensures wants { Wants HasEnd client.old client.new }
    ensures puts { MayPut breaks_off client.old client.new }
{
    if !client.can_end_answer() {
        return;
    }
    client.fail_answer();
}
