// Events as values: each is taken in by the call of its kind.
ghost use Rattle.std.specs.Prelude.{◌≡◌, IfOk, IsOk, OnErr};
ghost use Rattle.model_h1.specs.Event as on;
ghost use Rattle.h1_payload.specs.Rests.{SaysPulled};
ghost use Rattle.h1_connection.specs.EventMeaning.{event_of, SaysOutcome};
ghost use Rattle.h1_connection.specs.Frames.{accepted_of, SaysFrame, IsPulledNamed, SaysSent};
ghost use Rattle.h1_connection.specs.Heads.{SaysNext};
ghost use Rattle.h1_connection.specs.Pulls.{IsLightPull};
ghost use Rattle.h1_connection.specs.Ticks.{expiry_of};
ghost use Rattle.h1_connection.specs.State.{IsAllowed, GoesOn, TakesNoMemory};

use crate::connection::{Accepted, Connection, Expiry, NextHead, PulledFrame, Sent};
use crate::{Event, Outcome, ReceivedFrame};
use h1_payload::Pulled;
use http_types::NoMemory;

impl Connection {
    /// Takes in an event that is allowed, and answers it as the tables do. Where memory runs out, the connection is as
    /// before.
    pub fn step(&mut self, event: &Event) -> Result<Outcome, NoMemory>
        requires allowed { IsAllowed self.old (event_of event.now) }
        ensures stands { IfOk result (λ outcome. GoesOn self.old (event_of event.now) (SaysOutcome outcome) self.new) }
        ensures settings { self.new.settings ≡ self.old.settings }
        ensures no_memory_needed { TakesNoMemory self.old (event_of event.now) → IsOk result }
        ensures err { OnErr result (self.new ≡ self.old) }
    {
        match event {
            Event::Read(bytes) => Ok(Outcome::Took(self.read(bytes.as_slice())?)),
            Event::Eof => {
                self.eof();
                Ok(Outcome::Done)
            }
            Event::Next => Ok(outcome_of_next(self.ask()?)),
            Event::Pull => self.step_pull(),
            Event::DropBody => {
                self.drop_body();
                Ok(Outcome::Done)
            }
            Event::Continue => {
                self.send_continue()?;
                Ok(Outcome::Done)
            }
            Event::Answer(head, size) => {
                self.answer(head.get(), *size)?;
                Ok(Outcome::Done)
            }
            Event::Chunk(bytes) => {
                self.chunk(bytes.as_slice())?;
                Ok(Outcome::Done)
            }
            Event::BodyEnd => {
                self.end_answer()?;
                Ok(Outcome::Done)
            }
            Event::BodyError => {
                self.fail_answer();
                Ok(Outcome::Done)
            }
            Event::Write(limit) => Ok(Outcome::Gave(self.write(*limit)?)),
            Event::Tick(moment) => Ok(outcome_of_tick(self.tick(*moment)?)),
            Event::Drain => {
                self.drain();
                Ok(Outcome::Done)
            }
            Event::Accept(limit) => Ok(outcome_of_accept(self.accept(*limit)?)),
            Event::Send(message) => Ok(outcome_of_send(self.send(message.get())?)),
        }
    }

    // A pull, of a frame on a WebSocket and else of a body.
    fn step_pull(&mut self) -> Result<Outcome, NoMemory>
        requires { IsAllowed self.old on.pull }
        ensures stands { IfOk result (λ outcome. GoesOn self.old on.pull (SaysOutcome outcome) self.new) }
        ensures settings { self.new.settings ≡ self.old.settings }
        ensures no_memory_needed { IsLightPull self.old.kept → IsOk result }
        ensures err { OnErr result (self.new ≡ self.old) }
    {
        if self.can_pull_frame() {
            let pulled = self.pull_frame()?;
            return Ok(outcome_of_frame(pulled));
        }
        let pulled = self.pull()?;
        Ok(outcome_of_pull(pulled))
    }
}

// The outcome of an event that asks for the next head.
fn outcome_of_next(next: NextHead) -> Outcome
    ensures { (out : on.Outcome) → SaysNext next out → SaysOutcome result out }
{
    match next {
        NextHead::Head(item) => Outcome::Head(item),
        NextHead::Fault(fault) => Outcome::Fault(fault),
        NextHead::Pending => Outcome::Pending,
        NextHead::Closed(end) => Outcome::Closed(end),
    }
}

// The outcome of a pull.
fn outcome_of_pull(pulled: Pulled) -> Outcome
    ensures { (out : on.Outcome) → SaysPulled pulled out → SaysOutcome result out }
{
    match pulled {
        Pulled::Bytes(bytes) => Outcome::Bytes(bytes),
        Pulled::Trailers(trailers) => Outcome::Trailers(trailers),
        Pulled::End => Outcome::BodyEnd,
        Pulled::Broken(fault) => Outcome::Broken(fault),
        Pulled::Pending => Outcome::Pending,
    }
}

// The outcome of a pull on a WebSocket.
fn outcome_of_frame(pulled: PulledFrame) -> Outcome
    requires { IsPulledNamed pulled }
    ensures { (out : on.Outcome) → SaysFrame pulled out → SaysOutcome result out }
{
    match pulled {
        PulledFrame::Frame(frame) => Outcome::Frame(ReceivedFrame::new(frame)),
        PulledFrame::Protocol(error) => Outcome::Protocol(error),
        PulledFrame::Pending => Outcome::Pending,
    }
}

// The outcome of an upgrade.
fn outcome_of_accept(accepted: Accepted) -> Outcome
    ensures { (out : on.Outcome) → out ≡ accepted_of accepted → SaysOutcome result out }
{
    match accepted {
        Accepted::Done => Outcome::Done,
        Accepted::Refused(error) => Outcome::Refused(error),
    }
}

// The outcome of a message.
fn outcome_of_send(sent: Sent) -> Outcome
    ensures { (out : on.Outcome) → SaysSent sent out → SaysOutcome result out }
{
    match sent {
        Sent::Done => Outcome::Done,
        Sent::Protocol(error) => Outcome::Protocol(error),
    }
}

// The outcome of a tick.
fn outcome_of_tick(expiry: Expiry) -> Outcome
    ensures { (out : on.Outcome) → out ≡ expiry_of expiry → SaysOutcome result out }
{
    match expiry {
        Expiry::None => Outcome::Done,
        Expiry::Expired(end) => Outcome::Expired(end),
        Expiry::Abandoned => Outcome::Abandoned,
    }
}
