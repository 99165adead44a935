// What each event does to the parts, but for heads, bodies and answers.
ghost use Rattle.std.specs.Prelude.{◌≡◌, ◌≢◌, ◌≤◌, ◌<◌, ◌↔◌, ℕ, List, false, length, IfOk, IfErr, OnOk, OnErr, IsOk, IsErrOf, take, drop, min};
ghost use Rattle.std.specs.Io.KnownBytes.{Consumes, Keeps, IsAtEnd};
ghost use Rattle.http_config.specs.Causes.{Rose, counted, IsAsked};
ghost use Rattle.model_h1.specs.Event as on;
ghost use Rattle.model_state.specs.Kept.{is_free};
ghost use Rattle.model_state.specs.Runs.{runs_behind};
ghost use Rattle.h1_connection.specs.Parts.{kept_of, ended_exchange, dropped, with_continue, IsSound, Steps, StepsIn};

use crate::connection::READ_SIZE;
use crate::connection::parts::Parts;
use crate::{End, ReadFromError};
use bytes::Bytes;
use http_types::{NoMemory, ServiceConfig, Source};

impl Parts {
    /// Takes the bytes that there is room for, and says how many.
    pub fn read(&mut self, config: &ServiceConfig, bytes: &[u8]) -> Result<usize, NoMemory>
        requires { IsSound config.now self.old }
        ensures ok { IfOk result (λ count. Steps config.now self.old (on.read bytes.now) (on.took count) self.new) }
        ensures marks { OnOk result (self.new.output.marks ≡ self.old.output.marks) }
        ensures ahead { self.new.input.ahead ≡ self.old.input.ahead }
        ensures sound { OnOk result (IsSound config.now self.new) }
        ensures err { OnErr result (self.new ≡ self.old) }
    {
        let count = self.input.take(bytes, config.h1_hold_size())?;
        self.pass_body();
        self.settle(config);
        Ok(count)
    }

    /// Takes bytes that are read from the source, and says how many came.
    pub fn read_from<S: Source>(
        &mut self,
        config: &ServiceConfig,
        source: &mut S,
    ) -> Result<usize, ReadFromError>
        requires { IsSound config.now self.old }
        ensures ok { IfOk result (λ count. (bytes : List ℕ) × (length bytes ≡ count) × Consumes (S.left source.old) (S.left source.new) bytes
            × StepsIn config.now self.old bytes self.new) }
        ensures marks { OnOk result (self.new.output.marks ≡ self.old.output.marks) }
        ensures ahead { self.new.input.ahead ≡ self.old.input.ahead }
        ensures bound { IfOk result (λ count. count ≤ READ_SIZE) }
        ensures end { IfOk result (λ count. count ≡ 0 → (self.new ≡ self.old) × IsAtEnd (S.left source.new)) }
        ensures sound { OnOk result (IsSound config.now self.new) }
        ensures full { IsErrOf result ReadFromError.Full ↔ config.now.h1_hold_size ≤ length self.old.input.unread }
        ensures failed { IsErrOf result ReadFromError.Failed → Rose (S.faults source.old) (S.faults source.new) }
        ensures left { IsErrOf result ReadFromError.Failed → Keeps (S.left source.old) (S.left source.new) }
        ensures unasked { IfErr result (λ e. e ≢ ReadFromError.Failed → source.new ≡ source.old) }
        ensures faults { S.faults source.old ≤ S.faults source.new }
        ensures quiet { OnOk result (S.faults source.new ≡ S.faults source.old) }
        ensures fault { IsErrOf result ReadFromError.Failed → S.faults source.new ≡ counted (S.faults source.old) }
        ensures asked { OnOk result (IsAsked (S.calls source.old) (S.calls source.new)) }
        ensures failed_asked { IsErrOf result ReadFromError.Failed → IsAsked (S.calls source.old) (S.calls source.new) }
        ensures err { OnErr result (self.new ≡ self.old) }
    {
        let came = self.input.read_from(source, config.h1_hold_size())?;
        if came == 0 {
            return Ok(0);
        }
        self.pass_body();
        self.settle(config);
        Ok(came)
    }

    /// The peer sends no more bytes.
    pub fn eof(&mut self, config: &ServiceConfig)
        requires { IsSound config.now self.old }
        ensures ok { Steps config.now self.old on.eof on.done self.new }
        ensures marks { self.new.output.marks ≡ self.old.output.marks }
        ensures ahead { self.new.input.ahead ≡ self.old.input.ahead }
        ensures sound { IsSound config.now self.new }
    {
        self.has_ended = true;
        self.end_request_body();
        self.pass_body();
        self.settle(config);
    }

    // With the input the open request's body ends, where it is raw and no byte is left.
    fn end_request_body(&mut self)
        ensures { self.new ≡ record self.old { exchange = ended_exchange self.old.input.unread self.old.exchange } }
    {
        if let Some(exchange) = &mut self.exchange {
            exchange.rest.end(&self.input);
        }
    }

    /// The connection is to end soon.
    pub fn drain(&mut self, config: &ServiceConfig)
        requires { IsSound config.now self.old }
        ensures ok { Steps config.now self.old on.drain on.done self.new }
        ensures marks { self.new.output.marks ≡ self.old.output.marks }
        ensures ahead { self.new.input.ahead ≡ self.old.input.ahead }
        ensures sound { IsSound config.now self.new }
    {
        self.is_draining = true;
        self.note(config);
    }

    /// The answer's body can't be completed.
    pub fn fail_answer(&mut self, config: &ServiceConfig)
        requires { IsSound config.now self.old }
        ensures ok { Steps config.now self.old on.body_error on.done self.new }
        ensures marks { self.new.output.marks ≡ self.old.output.marks }
        ensures ahead { self.new.input.ahead ≡ self.old.input.ahead }
        ensures sound { IsSound config.now self.new }
    {
        self.failed = Some(End::Body);
        self.note(config);
    }

    /// The rest of the open request's body isn't wanted.
    pub fn drop_body(&mut self, config: &ServiceConfig)
        requires { IsSound config.now self.old }
        ensures ok { Steps config.now self.old on.drop_body on.done self.new }
        ensures marks { self.new.output.marks ≡ self.old.output.marks }
        ensures ahead { self.new.input.ahead ≡ self.old.input.ahead }
        ensures sound { IsSound config.now self.new }
    {
        self.set_dropped();
        self.note(config);
    }

    fn set_dropped(&mut self)
        ensures { self.new ≡ record self.old { exchange = dropped self.old.exchange } }
    {
        if let Some(exchange) = &mut self.exchange {
            exchange.was_dropped = true;
        }
    }

    /// Tells the client of the open request to go on.
    pub fn send_continue(&mut self, config: &ServiceConfig) -> Result<(), NoMemory>
        requires { IsSound config.now self.old }
        ensures ok { OnOk result (Steps config.now self.old on.send_continue on.done self.new) }
        ensures marks { OnOk result (self.new.output.marks ≡ self.old.output.marks) }
        ensures ahead { self.new.input.ahead ≡ self.old.input.ahead }
        ensures sound { OnOk result (IsSound config.now self.new) }
        ensures err { OnErr result (self.new ≡ self.old) }
    {
        if self.exchange.is_none() {
            return Ok(());
        }
        self.output.put_interim()?;
        self.set_had_continue();
        Ok(())
    }

    fn set_had_continue(&mut self)
        ensures { self.new ≡ record self.old { exchange = with_continue self.old.exchange } }
    {
        if let Some(exchange) = &mut self.exchange {
            exchange.had_continue = true;
        }
    }

    /// Gives the first bytes that are to be written, at most so many.
    pub fn give(&mut self, config: &ServiceConfig, limit: usize) -> Result<Bytes, NoMemory>
        requires { IsSound config.now self.old }
        ensures ok { IfOk result (λ bytes. Steps config.now self.old (on.write limit) (on.gave bytes) self.new) }
        ensures marks { IfOk result (λ bytes. self.new.output.marks ≡ runs_behind (length bytes) self.old.output.marks) }
        ensures ahead { self.new.input.ahead ≡ self.old.input.ahead }
        ensures sound { OnOk result (IsSound config.now self.new) }
        ensures none { length (take limit (kept_of self.old).buffered) ≡ 0 → IsOk result }
        ensures err { OnErr result (self.new ≡ self.old) }
    {
        self.output.give(limit)
    }

    /// Moves the first bytes that are to be written to the front of the room, as many as fit, and says how many.
    pub fn write_into(&mut self, config: &ServiceConfig, room: &mut [u8]) -> usize
        requires { IsSound config.now self.old }
        ensures ok { Steps config.now self.old (on.write (length room.old)) (on.gave (take (length room.old) (kept_of self.old).buffered)) self.new }
        ensures marks { self.new.output.marks ≡ runs_behind (length (take (length room.old) (kept_of self.old).buffered)) self.old.output.marks }
        ensures ahead { self.new.input.ahead ≡ self.old.input.ahead }
        ensures count { result ≡ min (length room.old) (length (kept_of self.old).buffered) }
        ensures given { take result room.new ≡ take (length room.old) (kept_of self.old).buffered }
        ensures rest { drop result room.new ≡ drop result room.old }
        ensures sound { IsSound config.now self.new }
    {
        self.output.give_into(room)
    }

    /// Lets the first bytes go that were to be written.
    pub fn advance(&mut self, config: &ServiceConfig, count: usize)
        requires sound { IsSound config.now self.old }
        requires fits { count ≤ length (kept_of self.old).buffered }
        ensures ok { Steps config.now self.old (on.write count) (on.gave (take count (kept_of self.old).buffered)) self.new }
        ensures marks { self.new.output.marks ≡ runs_behind (length (take count (kept_of self.old).buffered)) self.old.output.marks }
        ensures ahead { self.new.input.ahead ≡ self.old.input.ahead }
        ensures sound { IsSound config.now self.new }
    {
        self.output.advance(count);
    }
}
