// The bodies of answers.
ghost use Rattle.std.specs.Prelude.{◌≡◌, ◌&&◌, ◌||◌, not, true, false, None, Some, if◌then◌else◌, option_map, IfOk, IsOk, OnOk, OnErr};
ghost use Rattle.std.specs.Option.{option_or};
ghost use Rattle.model_h1.specs.Setting.{Setting};
ghost use Rattle.model_state.specs.Body.{pass_rest};
ghost use Rattle.model_state.specs.Kept.{is_nothing, rest_in};
ghost use Rattle.model_state.specs.Pull.{IsPull};
ghost use Rattle.model_state.specs.Pull as pulls;
ghost use Rattle.h1_payload.specs.Fitting.{Fits};
ghost use Rattle.h1_payload.specs.Rests.{IsPulled, IsLight};
ghost use Rattle.model_client.specs.ClientEvent as on;
ghost use Rattle.model_client.specs.ClientKept.{is_free};
ghost use Rattle.model_client.specs.ClientStep.{dropping, is_broken, pass};
ghost use Rattle.h1_client.specs.Bodies.{ended_reading, dropped_reading, is_dropped_in, passed_is_done, passed_breaks, tells_done, breaks_body, failing, IsPassedBody, IsPulledFrom, IsPulledIn, IsLightPull};
ghost use Rattle.h1_client.specs.Parts.{kept_of, reading_of, MayBeSearched, IsSound, Steps};

use crate::ClientEnd;
use crate::connection::input::Input;
use crate::connection::parts::Parts;
use h1_payload::{Pulled, Rest, RestKind};
use http_types::NoMemory;

/// The body of the last answer: what is left of it, whether its end or its fault was told, and whether its rest isn't
/// wanted.
#[derive(Drop)]
pub struct Reading {
    pub rest: Rest,
    pub is_done: bool,
    pub was_dropped: bool,
}

impl Reading {
    /// Takes what comes next of the body.
    fn pull(&mut self, input: &mut Input, has_ended: bool) -> Result<Pulled, NoMemory>
        requires unsearched { input.old.piece ≡ None }
        ensures pulled { IfOk result (λ answer. (p : pulls.Pulled) → IsPull has_ended self.old.rest input.old.unread p
            → IsPulledFrom self.old p answer self.new input.new) }
        ensures piece { input.new.piece ≡ None }
        ensures no_memory_needed { (p : pulls.Pulled) → IsPull has_ended self.old.rest input.old.unread p → IsLight self.old.rest p.outcome p.rest → IsOk result }
        ensures err { OnErr result ((self.new ≡ self.old) × (input.new ≡ input.old)) }
    {
        let pulled = input.pull(&mut self.rest, has_ended)?;
        self.is_done = tells_done(&pulled);
        Ok(pulled)
    }

    // Whether its rest is wanted, or done with.
    fn is_wanted(&self) -> bool
        ensures { result ≡ (not self.now.was_dropped || self.now.is_done) }
    {
        !self.was_dropped || self.is_done
    }

    /// Passes what has come of a body that isn't wanted, and says whether it ends without its end.
    fn pass(&mut self, input: &mut Input, has_ended: bool) -> bool
        requires { input.old.piece ≡ None }
        ensures rest { self.new ≡ record self.old {
          rest = (pass_rest has_ended self.old.rest input.old.unread).rest;
          is_done = passed_is_done has_ended (pass_rest has_ended self.old.rest input.old.unread).rest;
        } }
        ensures input { input.new ≡ record { unread = (pass_rest has_ended self.old.rest input.old.unread).unread; piece = None } }
        ensures breaks { result ≡ passed_breaks has_ended (pass_rest has_ended self.old.rest input.old.unread).rest }
    {
        input.pass(&mut self.rest, has_ended);
        let is_nothing = self.rest.is_nothing();
        let is_broken = is_broken(&self.rest);
        self.is_done = is_nothing || is_broken || has_ended;
        is_broken || (has_ended && !is_nothing)
    }
}

impl Parts {
    /// Takes what comes next of the last answer's body.
    pub fn pull(&mut self) -> Result<Pulled, NoMemory>
        requires sound { IsSound self.old }
        requires busy { is_free (kept_of self.old) ≡ false }
        requires wanted { is_dropped_in self.old.reading ≡ false }
        ensures ok { IfOk result (λ answer. (setting : Setting) → IsPulledIn setting self.old answer self.new) }
        ensures sound { OnOk result (IsSound self.new) }
        ensures no_memory_needed { IsLightPull (kept_of self.old) → IsOk result }
        ensures err { OnErr result (self.new ≡ self.old) }
    {
        let Some(body) = &mut self.reading else {
            return Ok(Pulled::Pending);
        };
        let pulled = body.pull(&mut self.input, self.has_ended)?;
        self.fail_where(breaks_body(&pulled), ClientEnd::BrokenAnswer);
        self.settle();
        Ok(pulled)
    }

    /// The rest of the last answer's body isn't wanted.
    pub fn drop_body(&mut self)
        requires { IsSound self.old }
        ensures ok { (setting : Setting) → Steps setting self.old on.drop_body on.done self.new }
        ensures sound { IsSound self.new }
    {
        self.set_dropped();
        self.pass_body();
        self.settle();
    }

    fn set_dropped(&mut self)
        ensures { self.new ≡ record self.old { reading = dropped_reading self.old.reading } }
    {
        if let Some(body) = &mut self.reading {
            body.was_dropped = true;
        }
    }

    /// With the input the last answer's body ends, where it is raw and no byte is left.
    pub fn end_body_of_answer(&mut self)
        ensures { self.new ≡ record self.old { reading = ended_reading self.old.input.unread self.old.reading } }
    {
        if let Some(body) = &mut self.reading {
            self.input.end(&mut body.rest);
        }
    }

    /// Passes what has come of a body that isn't wanted.
    pub fn pass_body(&mut self)
        requires { MayBeSearched self.old }
        ensures { IsPassedBody self.old self.new }
    {
        let Some(body) = &mut self.reading else {
            return;
        };
        if body.is_wanted() {
            return;
        }
        if body.pass(&mut self.input, self.has_ended) {
            self.fail_where(true, ClientEnd::BrokenAnswer);
        }
    }

    /// Where this holds the connection ends so, unless it already ends by a fault.
    pub fn fail_where(&mut self, fails: bool, end: ClientEnd)
        ensures { self.new ≡ record self.old { failed = failing fails end self.old.failed } }
    {
        if !fails {
            return;
        }
        if self.failed.is_none() {
            self.failed = Some(end);
        }
    }
}

// Whether the end or the fault of the body is told.
fn tells_done(pulled: &Pulled) -> bool
    ensures { result ≡ tells_done pulled.now }
{
    matches!(pulled, Pulled::End | Pulled::Broken(_))
}

// Whether its fault is.
fn breaks_body(pulled: &Pulled) -> bool
    ensures { result ≡ breaks_body pulled.now }
{
    matches!(pulled, Pulled::Broken(_))
}

// Whether the body has broken the grammar of chunks.
fn is_broken(rest: &Rest) -> bool
    ensures { result ≡ is_broken rest.now }
{
    match rest.kind() {
        RestKind::Broken => true,
        RestKind::Nothing | RestKind::Raw | RestKind::Fixed | RestKind::Chunks => false,
    }
}
