//! What may happen to a connection that is served, each with what it leaves.
ghost use Rattle.std.specs.Prelude.{◌≡◌, [], ◌∷◌, ℕ, Bool, not, IfOk, OnOk, OnErr};
ghost use Rattle.std.specs.Io.KnownBytes.{IsAtEnd};
ghost use Rattle.h1_encoder.specs.Meaning.{answer_of, size_of};
ghost use Rattle.model_h1.specs.Event as on;
ghost use Rattle.model_h1.specs.Request.{has_body};
ghost use Rattle.http_framing.specs.Kinds.{kind_of};
ghost use Rattle.h1_connection.specs.State.{IsAllowed, IsNextAllowed};
ghost use Rattle.h1_connection.specs.Ticks.{expiry_of};
ghost use Rattle.serve_blocking.specs.Acts.{Does, Drops, Pulls, Waits, given_behind, step};
ghost use Rattle.serve_blocking.specs.Served.{Adds, Follows, HandsOut, given_after};

use crate::Body;
use h1_connection::{Expiry, NextKind, Pulled, ReadFromError};
use h1_decoder::{HeadItem, HeadRoom};
use http_framing::{BodyKind, BodySize};
use http_types::{Failed, NoMemory, ResponseHead};
use net_sockets::{TimedSink, TimedSource};

impl<S: TimedSource, K: TimedSink> Body<S, K> {
    /// A moment has come.
    pub(crate) fn note_moment(&mut self, moment: u64) -> Result<Expiry, NoMemory>
        requires can_tick { IsAllowed self.old.state (on.tick moment) }
        ensures waits { Waits self.old self.new }
        ensures ticks { IfOk result (λ expiry. Adds (on.tick moment) (expiry_of expiry) self.old self.new) }
    {
        let expiry = self.connection.tick(moment)?;
        Ok(expiry)
    }

    /// Bytes are read from the source; 0 is its end.
    pub(crate) fn read_bytes(&mut self) -> Result<usize, ReadFromError>
        requires can_read { IsAllowed self.old.state (on.read []) }
        ensures waits { Waits self.old self.new }
        ensures end { IfOk result (λ count. count ≡ 0 → (self.new.state ≡ self.old.state) × IsAtEnd self.new.left) }
    {
        let count = self.connection.read_from(&mut self.source)?;
        Ok(count)
    }

    /// The source has ended.
    pub(crate) fn end_input(&mut self)
        requires can_read { IsAllowed self.old.state on.eof }
        requires at_end { IsAtEnd self.old.left }
        ensures waits { Waits self.old self.new }
    {
        self.connection.eof();
    }

    /// The first bytes that wait are written into the sink. It says how many.
    pub(crate) fn write_stretch(&mut self) -> Result<usize, Failed>
        requires can_write { (count : ℕ) → IsAllowed self.old.state (on.write count) }
        ensures waits { Waits self.old self.new }
    {
        let count = self.sink.write(self.connection.stretch())?;
        self.connection.advance(count);
        Ok(count)
    }

    /// The next request is handed out, or that there is none.
    pub(crate) fn next_head(
        &mut self,
        item: &mut HeadItem,
        room: &mut HeadRoom,
    ) -> Result<NextKind, NoMemory>
        requires can_next { IsNextAllowed self.old.state }
        ensures hands_out { IfOk result (λ kind. HandsOut self.old self.new kind item.new) }
        ensures err { OnErr result (self.new ≡ self.old) }
    {
        let kind = self.connection.next_into(item, room)?;
        self.has_ended = is_given_after(kind, item, self.has_ended);
        Ok(kind)
    }

    /// What comes next of the open request's body.
    pub(crate) fn pull(&mut self) -> Result<Pulled, NoMemory>
        requires can_pull { IsAllowed self.old.state on.pull }
        requires can_drop { IsAllowed self.old.state on.drop_body }
        ensures pulls { IfOk result (λ answer. Pulls answer self.old self.new) }
        ensures drops { Drops self.old self.new }
        ensures ended { IfOk result (λ answer. self.new.ended ≡ given_behind answer self.old.ended) }
        ensures wanted { self.new.wanted ≡ self.old.wanted }
        ensures err { OnErr result (self.new ≡ self.old) }
    {
        let pulled = self.connection.pull()?;
        self.has_ended = is_given_behind(&pulled, self.has_ended);
        Ok(pulled)
    }

    /// The client gets leave to send its body.
    pub(crate) fn send_continue(&mut self) -> Result<(), NoMemory>
        requires can_continue { IsAllowed self.old.state on.send_continue }
        ensures does { OnOk result (Does (step on.send_continue ∷ []) self.old self.new) }
        ensures wanted { self.new.wanted ≡ self.old.wanted }
        ensures err { OnErr result (self.new ≡ self.old) }
    {
        self.connection.send_continue()?;
        Ok(())
    }

    /// An answer begins.
    pub(crate) fn begin_answer(
        &mut self,
        head: &ResponseHead,
        size: BodySize,
    ) -> Result<(), NoMemory>
        requires can_answer { IsAllowed self.old.state (on.answer (answer_of head.now) (size_of size)) }
        ensures adds { OnOk result (Adds (on.answer (answer_of head.now) (size_of size)) on.done self.old self.new) }
        ensures err { OnErr result (self.new ≡ self.old) }
    {
        self.connection.answer(head, size)?;
        Ok(())
    }

    /// Bytes of the answer's body are handed in.
    pub(crate) fn hand_in(&mut self, bytes: &[u8]) -> Result<(), NoMemory>
        requires can_chunk { IsAllowed self.old.state (on.chunk bytes.now) }
        ensures adds { OnOk result (Adds (on.chunk bytes.now) on.done self.old self.new) }
        ensures err { OnErr result (self.new ≡ self.old) }
    {
        self.connection.chunk(bytes)?;
        Ok(())
    }

    /// The answer's body is whole.
    pub(crate) fn end_answer(&mut self) -> Result<(), NoMemory>
        requires can_end_answer { IsAllowed self.old.state on.body_end }
        ensures adds { OnOk result (Adds on.body_end on.done self.old self.new) }
        ensures err { OnErr result (self.new ≡ self.old) }
    {
        self.connection.end_answer()?;
        Ok(())
    }

    /// The answer's body can't be completed.
    pub(crate) fn break_answer(&mut self)
        requires can_end_answer { IsAllowed self.old.state on.body_error }
        ensures adds { Adds on.body_error on.done self.old self.new }
    {
        self.connection.fail_answer();
    }

    /// No further request is to be taken.
    pub(crate) fn drain(&mut self)
        requires can_drain { IsAllowed self.old.state on.drain }
        ensures adds { Adds on.drain on.done self.old self.new }
    {
        self.connection.drain();
    }
}

// Whether nothing is left to be given of the last request's body, once this was told of the next request.
fn is_given_after(kind: NextKind, item: &HeadItem, before: bool) -> bool
    ensures { result ≡ given_after kind item.now before }
{
    match kind {
        NextKind::Head => has_no_body(item.body),
        NextKind::Fault(_) | NextKind::Pending | NextKind::Closed(_) => before,
    }
}

fn has_no_body(kind: BodyKind) -> bool
    ensures { result ≡ not (has_body (kind_of kind)) }
{
    match kind {
        BodyKind::None => true,
        BodyKind::Length(_) | BodyKind::Chunked | BodyKind::Raw => false,
    }
}

// Whether nothing is left to be given of a body, once this was pulled.
fn is_given_behind(pulled: &Pulled, before: bool) -> bool
    ensures { result ≡ given_behind pulled.now before }
{
    match pulled {
        Pulled::Trailers(_) | Pulled::End => true,
        Pulled::Bytes(_) | Pulled::Broken(_) | Pulled::Pending => before,
    }
}
