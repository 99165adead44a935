// The step that a call was, for a recorder that listens.
ghost use Rattle.std.specs.Prelude.{◌≡◌, false, [], ◌∷◌, IfOk, OnOk, OnErr, IsOk};
ghost use Rattle.http_bodies.specs.Told.{Grows};
ghost use Rattle.h1_connection.specs.declared.event.Event.TheVariants as came;
ghost use Rattle.h1_connection.specs.declared.event.Outcome.TheVariants as out;
ghost use Rattle.h1_traced.specs.Outcomes.{bare_event, next_outcome, pulled_outcome, tick_outcome};

use crate::Recorder;
use crate::outcomes::{outcome_of_next, outcome_of_pull, outcome_of_tick};
use h1_connection::{
    BodySize, Boxed, Bytes, Event, Expiry, NextHead, NoMemory, Outcome, Pulled, ResponseHead,
};
use std::alloc::Global;

/// An event that brings nothing, and that is done as soon as it comes.
#[derive(Clone, Copy)]
pub(crate) enum Bare {
    Eof,
    DropBody,
    Continue,
    BodyEnd,
    BodyError,
    Drain,
}

impl Bare {
    fn event(self) -> Event
        ensures { result ≡ bare_event self }
    {
        match self {
            Bare::Eof => Event::Eof,
            Bare::DropBody => Event::DropBody,
            Bare::Continue => Event::Continue,
            Bare::BodyEnd => Event::BodyEnd,
            Bare::BodyError => Event::BodyError,
            Bare::Drain => Event::Drain,
        }
    }
}

/// The event came, and this was answered, which it gives back.
pub(crate) fn note_step<L: Recorder>(
    recorder: &mut L,
    event: &Event,
    outcome: Outcome,
) -> Result<Outcome, NoMemory>
    ensures same { IfOk result (λ given. given ≡ outcome) }
    ensures ok { OnOk result (Grows (L.noted recorder.old) (L.noted recorder.new) (record { event = event.now; outcome = outcome } ∷ [])) }
    ensures err { OnErr result (Grows (L.noted recorder.old) (L.noted recorder.new) []) }
    ensures listening { L.is_listening recorder.new ≡ L.is_listening recorder.old }
    ensures no_memory_needed { L.is_listening recorder.old ≡ false → IsOk result }
{
    if !recorder.listens() {
        return Ok(outcome);
    }
    recorder.note(event, &outcome)?;
    Ok(outcome)
}

/// An event and its outcome that were made for a recorder that listens.
pub(crate) fn note_made<L: Recorder>(
    recorder: &mut L,
    event: Event,
    outcome: Outcome,
) -> Result<(), NoMemory>
    ensures ok { OnOk result (Grows (L.noted recorder.old) (L.noted recorder.new) (record { event = event; outcome = outcome } ∷ [])) }
    ensures err { OnErr result (Grows (L.noted recorder.old) (L.noted recorder.new) []) }
    ensures listening { L.is_listening recorder.new ≡ L.is_listening recorder.old }
{
    recorder.note(&event, &outcome)
}

/// An event came that brings nothing.
pub(crate) fn note_bare<L: Recorder>(recorder: &mut L, bare: Bare) -> Result<(), NoMemory>
    ensures ok { OnOk result (Grows (L.noted recorder.old) (L.noted recorder.new) (record { event = bare_event bare; outcome = out.Done } ∷ [])) }
    ensures err { OnErr result (Grows (L.noted recorder.old) (L.noted recorder.new) []) }
    ensures listening { L.is_listening recorder.new ≡ L.is_listening recorder.old }
    ensures no_memory_needed { L.is_listening recorder.old ≡ false → IsOk result }
{
    if !recorder.listens() {
        return Ok(());
    }
    note_made(recorder, bare.event(), Outcome::Done)
}

/// Bytes were read, of which so many were taken. They are copied.
pub(crate) fn note_read<L: Recorder>(
    recorder: &mut L,
    alloc: Global,
    bytes: &[u8],
    count: usize,
) -> Result<(), NoMemory>
    ensures ok { OnOk result (Grows (L.noted recorder.old) (L.noted recorder.new) (record { event = came.Read bytes.now; outcome = out.Took count } ∷ [])) }
    ensures err { OnErr result (Grows (L.noted recorder.old) (L.noted recorder.new) []) }
    ensures listening { L.is_listening recorder.new ≡ L.is_listening recorder.old }
{
    if !recorder.listens() {
        return Ok(());
    }
    let event = Event::Read(Bytes::copy_from_slice(alloc, bytes)?);
    note_made(recorder, event, Outcome::Took(count))
}

/// The next head was asked for, and this came, which it gives back. A head is copied.
pub(crate) fn note_next<L: Recorder>(recorder: &mut L, next: NextHead) -> Result<NextHead, NoMemory>
    ensures same { IfOk result (λ given. given ≡ next) }
    ensures ok { OnOk result (Grows (L.noted recorder.old) (L.noted recorder.new) (record { event = came.Next; outcome = next_outcome next } ∷ [])) }
    ensures err { OnErr result (Grows (L.noted recorder.old) (L.noted recorder.new) []) }
    ensures listening { L.is_listening recorder.new ≡ L.is_listening recorder.old }
    ensures no_memory_needed { L.is_listening recorder.old ≡ false → IsOk result }
{
    if !recorder.listens() {
        return Ok(next);
    }
    let outcome = outcome_of_next(&next)?;
    note_made(recorder, Event::Next, outcome)?;
    Ok(next)
}

/// More of a body was asked for, and this came, which it gives back. Trailers are copied.
pub(crate) fn note_pull<L: Recorder>(recorder: &mut L, pulled: Pulled) -> Result<Pulled, NoMemory>
    ensures same { IfOk result (λ given. given ≡ pulled) }
    ensures ok { OnOk result (Grows (L.noted recorder.old) (L.noted recorder.new) (record { event = came.Pull; outcome = pulled_outcome pulled } ∷ [])) }
    ensures err { OnErr result (Grows (L.noted recorder.old) (L.noted recorder.new) []) }
    ensures listening { L.is_listening recorder.new ≡ L.is_listening recorder.old }
    ensures no_memory_needed { L.is_listening recorder.old ≡ false → IsOk result }
{
    if !recorder.listens() {
        return Ok(pulled);
    }
    let outcome = outcome_of_pull(&pulled)?;
    note_made(recorder, Event::Pull, outcome)?;
    Ok(pulled)
}

/// A moment came.
pub(crate) fn note_tick<L: Recorder>(
    recorder: &mut L,
    moment: u64,
    expiry: Expiry,
) -> Result<(), NoMemory>
    ensures ok { OnOk result (Grows (L.noted recorder.old) (L.noted recorder.new) (record { event = came.Tick moment; outcome = tick_outcome expiry } ∷ [])) }
    ensures err { OnErr result (Grows (L.noted recorder.old) (L.noted recorder.new) []) }
    ensures listening { L.is_listening recorder.new ≡ L.is_listening recorder.old }
    ensures no_memory_needed { L.is_listening recorder.old ≡ false → IsOk result }
{
    if !recorder.listens() {
        return Ok(());
    }
    note_made(recorder, Event::Tick(moment), outcome_of_tick(expiry))
}

/// The open request was answered. The head is copied.
pub(crate) fn note_answer<L: Recorder>(
    recorder: &mut L,
    alloc: Global,
    head: &ResponseHead,
    size: BodySize,
) -> Result<(), NoMemory>
    ensures ok { OnOk result (Grows (L.noted recorder.old) (L.noted recorder.new) (record { event = came.Answer head.now size; outcome = out.Done } ∷ [])) }
    ensures err { OnErr result (Grows (L.noted recorder.old) (L.noted recorder.new) []) }
    ensures listening { L.is_listening recorder.new ≡ L.is_listening recorder.old }
{
    if !recorder.listens() {
        return Ok(());
    }
    let event = Event::Answer(Boxed::new(alloc, head.copy()?)?, size);
    note_made(recorder, event, Outcome::Done)
}
