// What an answer, a piece of its body and its end do to the parts.
ghost use Rattle.std.specs.Prelude.{◌≡◌, true, None, option_map, IsOk, OnOk, OnErr};
ghost use Rattle.std.specs.Option.{option_or};
ghost use Rattle.h1_encoder.specs.Meaning.{answer_of, size_of, model_shape};
ghost use Rattle.model_h1.specs.Setting.{keeps};
ghost use Rattle.model_h1.specs.Answer as answers;
ghost use Rattle.model_h1.specs.End as ends;
ghost use Rattle.model_h1.specs.Event as on;
ghost use Rattle.model_h1.specs.Closing.{end_where};
ghost use Rattle.model_state.specs.Local.{waits_for_answer};
ghost use Rattle.model_state.specs.Body.{passing};
ghost use Rattle.model_state.specs.Reply.{stated, short_end};
ghost use Rattle.model_state.specs.After.{marks_after};
ghost use Rattle.h1_connection.specs.EventMeaning.{setting_of, end_of, keep_alive_of};
ghost use Rattle.h1_connection.specs.Unsent.{SendsNoPiece, SendsNoEnd};
ghost use Rattle.h1_connection.specs.Parts.{kept_of, HasNoneBehind, asked_in, sending_in, replied, completed, IsSettled, IsSound, Steps};

use crate::End;
use crate::connection::exchange::{Reply, Sending};
use crate::connection::parts::Parts;
use bytes::Bytes;
use h1_encoder::{Asked, Shape, shape_of, type_of};
use http_framing::BodySize;
use http_types::{ConnectionType, KeepAlive, NoMemory, ResponseHead, ServiceConfig};

impl Parts {
    /// Answers the open request.
    pub fn answer(
        &mut self,
        config: &ServiceConfig,
        head: &ResponseHead,
        size: BodySize,
    ) -> Result<(), NoMemory>
        requires sound { IsSound config.now self.old }
        requires waits { waits_for_answer (kept_of self.old) ≡ true }
        ensures ok { OnOk result (Steps config.now self.old (on.answer (answer_of head.now) (size_of size)) on.done self.new) }
        ensures marks { OnOk result (self.new.output.marks ≡ self.old.output.marks) }
        ensures ahead { self.new.input.ahead ≡ self.old.input.ahead }
        ensures sound { OnOk result (IsSound config.now self.new) }
        ensures err { OnErr result (self.new ≡ self.old) }
    {
        let Some(asked) = self.asked() else {
            return Ok(());
        };
        let connection = type_of(
            keeps(config.keep_alive()),
            self.is_draining,
            asked,
            head,
            size,
        );
        self.output
            .put_head(asked, head, size, connection, self.clock.now())?;
        if is_at_once(size) {
            self.complete(config, connection);
        } else {
            let shape = shape_of(asked, head, size);
            self.set_reply(Reply::Sending(Sending {
                shape,
                connection,
                missing: stated(shape),
            }));
        }
        Ok(())
    }

    /// Puts a piece of an answer's body behind the others.
    pub fn chunk(&mut self, config: &ServiceConfig, bytes: &[u8]) -> Result<(), NoMemory>
        requires { IsSound config.now self.old }
        ensures ok { OnOk result (Steps config.now self.old (on.chunk bytes.now) on.done self.new) }
        ensures marks { OnOk result (self.new.output.marks ≡ marks_after (kept_of self.old) (on.chunk bytes.now) on.done self.old.output.marks) }
        ensures ahead { self.new.input.ahead ≡ self.old.input.ahead }
        ensures sound { OnOk result (IsSound config.now self.new) }
        ensures no_memory_needed { SendsNoPiece (kept_of self.old) bytes.now → IsOk result }
        ensures err { OnErr result (self.new ≡ self.old) }
    {
        let Some(asked) = self.asked() else {
            return Ok(());
        };
        let Some(sending) = self.sending() else {
            return Ok(());
        };
        self.output
            .put_piece(asked, sending.shape, sending.missing, bytes)?;
        self.set_reply(Reply::Sending(Sending {
            shape: sending.shape,
            connection: sending.connection,
            missing: sending.missing.saturating_sub(bytes.len() as u64),
        }));
        Ok(())
    }

    /// Puts a piece of an answer's body behind the others, without a copy where it is large.
    pub fn chunk_bytes(&mut self, config: &ServiceConfig, bytes: Bytes) -> Result<(), NoMemory>
        requires { IsSound config.now self.old }
        ensures ok { OnOk result (Steps config.now self.old (on.chunk bytes) on.done self.new) }
        ensures marks { OnOk result (self.new.output.marks ≡ marks_after (kept_of self.old) (on.chunk bytes) on.done self.old.output.marks) }
        ensures ahead { self.new.input.ahead ≡ self.old.input.ahead }
        ensures sound { OnOk result (IsSound config.now self.new) }
        ensures no_memory_needed { SendsNoPiece (kept_of self.old) bytes → IsOk result }
        ensures err { OnErr result (self.new ≡ self.old) }
    {
        let Some(asked) = self.asked() else {
            return Ok(());
        };
        let Some(sending) = self.sending() else {
            return Ok(());
        };
        let missing = sending.missing.saturating_sub(bytes.len() as u64);
        self.output
            .put_shared(asked, sending.shape, sending.missing, bytes)?;
        self.set_reply(Reply::Sending(Sending {
            shape: sending.shape,
            connection: sending.connection,
            missing,
        }));
        Ok(())
    }

    /// The answer's body is whole.
    pub fn end_answer(&mut self, config: &ServiceConfig) -> Result<(), NoMemory>
        requires { IsSound config.now self.old }
        ensures ok { OnOk result (Steps config.now self.old on.body_end on.done self.new) }
        ensures marks { OnOk result (self.new.output.marks ≡ self.old.output.marks) }
        ensures ahead { self.new.input.ahead ≡ self.old.input.ahead }
        ensures sound { OnOk result (IsSound config.now self.new) }
        ensures no_memory_needed { SendsNoEnd (kept_of self.old) → IsOk result }
        ensures err { OnErr result (self.new ≡ self.old) }
    {
        let Some(asked) = self.asked() else {
            return Ok(());
        };
        let Some(sending) = self.sending() else {
            return Ok(());
        };
        self.output.put_end(asked, sending.shape)?;
        self.note_short(asked, sending);
        self.complete(config, sending.connection);
        Ok(())
    }

    // The body was ended with bytes of its stated length missing.
    fn note_short(&mut self, asked: Asked, sending: Sending)
        ensures failed { option_map end_of self.new.failed
            ≡ option_or (short_end asked (model_shape sending.shape) sending.missing) (option_map end_of self.old.failed) }
        ensures parts { self.new ≡ record self.old { failed = self.new.failed } }
    {
        if is_short(asked, sending) {
            self.failed = Some(End::BodyShort);
        }
    }

    // The answer is complete: the rest of its request's body is passed.
    fn complete(&mut self, config: &ServiceConfig, connection: ConnectionType)
        requires unsearched { self.old.input.piece ≡ None }
        requires behind { HasNoneBehind (kept_of self.old) self.old.input.ahead }
        ensures settled { IsSettled (setting_of config.now) (passing (kept_of (completed connection self.old))) self.new }
        ensures output { self.new.output ≡ self.old.output }
        ensures ahead { self.new.input.ahead ≡ self.old.input.ahead }
    {
        self.set_reply(Reply::Answered(connection));
        self.clock.completed = self.clock.last;
        self.pass_body();
        self.settle(config);
    }

    // What an answer needs of the last request.
    fn asked(&self) -> Option<Asked>
        ensures { result ≡ asked_in self.now.exchange }
    {
        match &self.exchange {
            Some(exchange) => Some(exchange.request.asked),
            None => None,
        }
    }

    // The body that is going out.
    fn sending(&self) -> Option<Sending>
        ensures { result ≡ sending_in self.now.exchange }
    {
        match &self.exchange {
            Some(exchange) => exchange.sending(),
            None => None,
        }
    }

    fn set_reply(&mut self, reply: Reply)
        ensures { self.new ≡ record self.old { exchange = replied reply self.old.exchange } }
    {
        if let Some(exchange) = &mut self.exchange {
            exchange.reply = reply;
        }
    }
}

// Whether answers may leave the connection open.
fn keeps(keep_alive: KeepAlive) -> bool
    ensures { result ≡ keeps (keep_alive_of keep_alive) }
{
    match keep_alive {
        KeepAlive::Timeout(_) | KeepAlive::Os => true,
        KeepAlive::Disabled => false,
    }
}

// Whether no byte of a body follows the head.
fn is_at_once(size: BodySize) -> bool
    ensures { result ≡ answers.is_at_once (size_of size) }
{
    size.is_eof()
}

// How many bytes a shape states.
fn stated(shape: Shape) -> u64
    ensures { result ≡ stated (model_shape shape) }
{
    match shape {
        Shape::Length(length) => length,
        _ => 0,
    }
}

// Whether bytes of a stated length are missing, where a body goes out at all.
fn is_short(asked: Asked, sending: Sending) -> bool
    ensures { end_where result ends.body_short ≡ short_end asked (model_shape sending.shape) sending.missing }
{
    let Shape::Length(_) = sending.shape else {
        return false;
    };
    !asked.is_head() && 0 < sending.missing
}
