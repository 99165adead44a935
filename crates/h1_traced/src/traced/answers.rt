// The answer to the open request.
ghost use Rattle.std.specs.Prelude.{◌≡◌, Option, true, false, IfOk, OnOk, OnErr, IsOk};
ghost use Rattle.h1_encoder.specs.Meaning.{answer_of, size_of};
ghost use Rattle.model_h1.specs.Event as on;
ghost use Rattle.h1_connection.specs.State.{IsAllowed, Is};
ghost use Rattle.h1_connection.specs.Unsent.{SendsNoPiece, SendsNoEnd};
ghost use Rattle.h1_traced.specs.Traced.{traced_of, TracedSteps, TracedFails};

use crate::Recorder;
use crate::notes::{Bare, note_answer, note_bare, note_made};
use crate::traced::Traced;
use h1_connection::{BodySize, Bytes, Event, NoMemory, Outcome, ResponseHead};
use std::alloc::Global;

impl<L: Recorder> Traced<L> {
    /// Answers the open request with this head, and with a body of this size. The head is copied for a recorder that
    /// listens.
    pub fn answer(&mut self, head: &ResponseHead, size: BodySize) -> Result<(), NoMemory>
        requires can_answer { IsAllowed self.old.connection (on.answer (answer_of head.now) (size_of size)) }
        ensures stands { OnOk result (TracedSteps (traced_of L.noted L.is_listening self.old) (on.answer (answer_of head.now) (size_of size)) (Is on.done) (traced_of L.noted L.is_listening self.new)) }
        ensures settings { self.new.connection.settings ≡ self.old.connection.settings }
        ensures err { OnErr result (TracedFails (traced_of L.noted L.is_listening self.old) (on.answer (answer_of head.now) (size_of size)) (traced_of L.noted L.is_listening self.new)) }
        ensures listening { L.is_listening self.new.recorder ≡ L.is_listening self.old.recorder }
    {
        self.connection.answer(head, size)?;
        note_answer(&mut self.recorder, self.alloc, head, size)
    }

    /// The next bytes of the answer's body.
    pub fn chunk(&mut self, bytes: Bytes) -> Result<(), NoMemory>
        requires can_chunk { IsAllowed self.old.connection (on.chunk bytes) }
        ensures stands { OnOk result (TracedSteps (traced_of L.noted L.is_listening self.old) (on.chunk bytes) (Is on.done) (traced_of L.noted L.is_listening self.new)) }
        ensures settings { self.new.connection.settings ≡ self.old.connection.settings }
        ensures err { OnErr result (TracedFails (traced_of L.noted L.is_listening self.old) (on.chunk bytes) (traced_of L.noted L.is_listening self.new)) }
        ensures listening { L.is_listening self.new.recorder ≡ L.is_listening self.old.recorder }
        ensures no_memory_needed { L.is_listening self.old.recorder ≡ false → SendsNoPiece self.old.connection.kept bytes → IsOk result }
    {
        if self.recorder.listens() {
            return self.chunk_noted(bytes);
        }
        self.connection.chunk_bytes(bytes)
    }

    // The piece of a recorder that listens, which is given it too.
    fn chunk_noted(&mut self, bytes: Bytes) -> Result<(), NoMemory>
        requires can_chunk { IsAllowed self.old.connection (on.chunk bytes) }
        requires heard { L.is_listening self.old.recorder ≡ true }
        ensures stands { OnOk result (TracedSteps (traced_of L.noted L.is_listening self.old) (on.chunk bytes) (Is on.done) (traced_of L.noted L.is_listening self.new)) }
        ensures settings { self.new.connection.settings ≡ self.old.connection.settings }
        ensures err { OnErr result (TracedFails (traced_of L.noted L.is_listening self.old) (on.chunk bytes) (traced_of L.noted L.is_listening self.new)) }
        ensures listening { L.is_listening self.new.recorder ≡ L.is_listening self.old.recorder }
    {
        let noted = bytes.clone()?;
        self.connection.chunk_bytes(bytes)?;
        note_made(&mut self.recorder, Event::Chunk(noted), Outcome::Done)
    }

    /// The answer's body is whole.
    pub fn end_answer(&mut self) -> Result<(), NoMemory>
        requires can_end_answer { IsAllowed self.old.connection on.body_end }
        ensures stands { OnOk result (TracedSteps (traced_of L.noted L.is_listening self.old) on.body_end (Is on.done) (traced_of L.noted L.is_listening self.new)) }
        ensures settings { self.new.connection.settings ≡ self.old.connection.settings }
        ensures err { OnErr result (TracedFails (traced_of L.noted L.is_listening self.old) on.body_end (traced_of L.noted L.is_listening self.new)) }
        ensures listening { L.is_listening self.new.recorder ≡ L.is_listening self.old.recorder }
        ensures no_memory_needed { L.is_listening self.old.recorder ≡ false → SendsNoEnd self.old.connection.kept → IsOk result }
    {
        self.connection.end_answer()?;
        note_bare(&mut self.recorder, Bare::BodyEnd)
    }

    /// The answer's body can't be completed: the connection closes.
    pub fn fail_answer(&mut self) -> Result<(), NoMemory>
        requires can_end_answer { IsAllowed self.old.connection on.body_error }
        ensures stands { OnOk result (TracedSteps (traced_of L.noted L.is_listening self.old) on.body_error (Is on.done) (traced_of L.noted L.is_listening self.new)) }
        ensures settings { self.new.connection.settings ≡ self.old.connection.settings }
        ensures err { OnErr result (TracedFails (traced_of L.noted L.is_listening self.old) on.body_error (traced_of L.noted L.is_listening self.new)) }
        ensures listening { L.is_listening self.new.recorder ≡ L.is_listening self.old.recorder }
        ensures no_memory_needed { L.is_listening self.old.recorder ≡ false → IsOk result }
    {
        self.connection.fail_answer();
        note_bare(&mut self.recorder, Bare::BodyError)
    }
}
