// The body of the open request.
ghost use Rattle.std.specs.Prelude.{◌≡◌, Option, false, IfOk, OnOk, OnErr, IsOk};
ghost use Rattle.model_h1.specs.Event as on;
ghost use Rattle.h1_payload.specs.Rests.{SaysPulled};
ghost use Rattle.h1_connection.specs.Pulls.{IsLightPull};
ghost use Rattle.h1_connection.specs.State.{IsAllowed, Is};
ghost use Rattle.h1_traced.specs.Traced.{traced_of, TracedSteps, TracedFails};

use crate::Recorder;
use crate::notes::{Bare, note_bare, note_pull};
use crate::traced::Traced;
use h1_connection::{NoMemory, Pulled};
use std::alloc::Global;

impl<L: Recorder> Traced<L> {
    /// Takes what comes next of the open request's body.
    pub fn pull(&mut self) -> Result<Pulled, NoMemory>
        requires can_pull { IsAllowed self.old.connection on.drop_body }
        ensures stands { IfOk result (λ pulled. TracedSteps (traced_of L.noted L.is_listening self.old) on.pull (SaysPulled pulled) (traced_of L.noted L.is_listening self.new)) }
        ensures settings { self.new.connection.settings ≡ self.old.connection.settings }
        ensures err { OnErr result (TracedFails (traced_of L.noted L.is_listening self.old) on.pull (traced_of L.noted L.is_listening self.new)) }
        ensures listening { L.is_listening self.new.recorder ≡ L.is_listening self.old.recorder }
        ensures no_memory_needed { L.is_listening self.old.recorder ≡ false → IsLightPull self.old.connection.kept → IsOk result }
    {
        let pulled = self.connection.pull()?;
        note_pull(&mut self.recorder, pulled)
    }

    /// The rest of the open request's body isn't wanted.
    pub fn drop_body(&mut self) -> Result<(), NoMemory>
        requires can_pull { IsAllowed self.old.connection on.drop_body }
        ensures stands { OnOk result (TracedSteps (traced_of L.noted L.is_listening self.old) on.drop_body (Is on.done) (traced_of L.noted L.is_listening self.new)) }
        ensures settings { self.new.connection.settings ≡ self.old.connection.settings }
        ensures err { OnErr result (TracedFails (traced_of L.noted L.is_listening self.old) on.drop_body (traced_of L.noted L.is_listening self.new)) }
        ensures listening { L.is_listening self.new.recorder ≡ L.is_listening self.old.recorder }
        ensures no_memory_needed { L.is_listening self.old.recorder ≡ false → IsOk result }
    {
        self.connection.drop_body();
        note_bare(&mut self.recorder, Bare::DropBody)
    }

    /// Tells the client of the open request to go on, which waits for leave to send its body (RFC 7231, section 5.1.1).
    pub fn send_continue(&mut self) -> Result<(), NoMemory>
        requires can_continue { IsAllowed self.old.connection on.send_continue }
        ensures stands { OnOk result (TracedSteps (traced_of L.noted L.is_listening self.old) on.send_continue (Is on.done) (traced_of L.noted L.is_listening self.new)) }
        ensures settings { self.new.connection.settings ≡ self.old.connection.settings }
        ensures err { OnErr result (TracedFails (traced_of L.noted L.is_listening self.old) on.send_continue (traced_of L.noted L.is_listening self.new)) }
        ensures listening { L.is_listening self.new.recorder ≡ L.is_listening self.old.recorder }
    {
        self.connection.send_continue()?;
        note_bare(&mut self.recorder, Bare::Continue)
    }
}
