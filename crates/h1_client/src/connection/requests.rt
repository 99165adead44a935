// Requests, and their bodies.
ghost use Rattle.std.specs.Prelude.{◌≡◌, IsTrue, codes, nat_lt, option_map, IsOk, OnOk, OnErr};
ghost use Rattle.h1_encoder.specs.Meaning.{headers_of, model_shape, size_of};
ghost use Rattle.model_h1.specs.Answer as answers;
ghost use Rattle.model_h1.specs.AnswerText.{end_text};
ghost use Rattle.model_h1.specs.LengthTable.{is_there, values_of};
ghost use Rattle.model_h1.specs.Setting.{Setting};
ghost use Rattle.model_state.specs.Reply.{stated};
ghost use Rattle.model_client.specs.RequestText.{asked_shape};
ghost use Rattle.model_client.specs.ClientEvent as on;
ghost use Rattle.model_client.specs.ClientKept.{waiting_of, is_last};
ghost use Rattle.model_client.specs.ClientStep.{begun_body, piece_of};
ghost use Rattle.h1_encoder.specs.RequestMeaning.{has_text};
ghost use Rattle.h1_client.specs.ClientMeaning.{request_of};
ghost use Rattle.h1_client.specs.Requests.{SendsNoPiece, SendsNoEnd};
ghost use Rattle.h1_client.specs.Parts.{kept_of, sending_of, IsSound, Steps};

use crate::ClientEnd;
use crate::connection::parts::Parts;
use crate::connection::queue::Waiting;
use h1_encoder::Shape;
use http_framing::BodySize;
use http_types::header::UPGRADE;
use http_types::{ConnectionType, NoMemory, RequestHead};

/// The body of a request that is going out.
#[derive(Clone, Copy)]
pub struct Sending {
    pub shape: Shape,

    /// How many bytes of a stated length are missing.
    pub missing: u64,
}

impl Parts {
    /// Asks a request.
    pub fn ask(&mut self, head: &RequestHead, size: BodySize) -> Result<(), NoMemory>
        requires sound { IsSound self.old }
        requires version { IsTrue (has_text head.now.version) }
        ensures ok { OnOk result ((setting : Setting) → Steps setting self.old (on.ask (request_of head.now) (size_of size)) on.done self.new) }
        ensures sound { OnOk result (IsSound self.new) }
        ensures err { OnErr result (self.new ≡ self.old) }
    {
        let closes = is_last(head);
        let waiting = Waiting::new(head.method.clone()?, closes);
        let before = self.output.len();
        self.output.put_head(head, size, self.moment)?;
        if let Err(error) = self.waiting.push(waiting) {
            self.output.truncate(before);
            return Err(error);
        }
        self.sending = begun(size);
        self.is_last = self.is_last || closes;
        Ok(())
    }

    /// Puts a piece of a request's body after the others.
    pub fn chunk(&mut self, bytes: &[u8]) -> Result<(), NoMemory>
        requires { IsSound self.old }
        ensures ok { OnOk result ((setting : Setting) → Steps setting self.old (on.chunk bytes.now) on.done self.new) }
        ensures sound { OnOk result (IsSound self.new) }
        ensures no_memory_needed { SendsNoPiece (kept_of self.old).sending bytes.now → IsOk result }
        ensures err { OnErr result (self.new ≡ self.old) }
    {
        let Some(sending) = self.sending else {
            return Ok(());
        };
        self.output
            .put_piece(sending.shape, sending.missing, bytes)?;
        self.sending = Some(Sending {
            shape: sending.shape,
            missing: sending.missing.saturating_sub(bytes.len() as u64),
        });
        Ok(())
    }

    /// The request's body is whole. One that lacks bytes of its stated length has failed.
    pub fn end_body(&mut self) -> Result<(), NoMemory>
        requires { IsSound self.old }
        ensures ok { OnOk result ((setting : Setting) → Steps setting self.old on.body_end on.done self.new) }
        ensures sound { OnOk result (IsSound self.new) }
        ensures no_memory_needed { SendsNoEnd (kept_of self.old).sending → IsOk result }
        ensures err { OnErr result (self.new ≡ self.old) }
    {
        let Some(sending) = self.sending else {
            return Ok(());
        };
        self.output.put_end(sending.shape)?;
        self.sending = None;
        self.fail_where(is_short(sending.missing), ClientEnd::FailedRequest);
        Ok(())
    }

    /// The request's body can't be completed.
    pub fn fail_body(&mut self)
        requires { IsSound self.old }
        ensures ok { (setting : Setting) → Steps setting self.old on.body_error on.done self.new }
        ensures sound { IsSound self.new }
    {
        self.sending = None;
        self.fail_where(true, ClientEnd::FailedRequest);
    }
}

// Whether no other request may follow this one: it asks that the connection closes, or for another protocol.
fn is_last(head: &RequestHead) -> bool
    ensures { result ≡ (waiting_of (request_of head.now)).closes }
{
    let keeps = head.connection_type() == ConnectionType::KeepAlive;
    !keeps || asks_for_another(head)
}

// Whether it has a line of the name Upgrade (RFC 9110, section 7.8).
fn asks_for_another(head: &RequestHead) -> bool
    ensures { result ≡ is_there (values_of (codes "upgrade") (headers_of head.now.headers)) }
{
    // Called for its clause alone: a map has a value for each of its names.
    let _valid = head.headers.len();
    !head.headers.get_all(UPGRADE).as_slice().is_empty()
}

// The body of a request, unless it has none or ended with the head.
fn begun(size: BodySize) -> Option<Sending>
    ensures { option_map sending_of result ≡ begun_body (size_of size) }
{
    if size.is_eof() {
        return None;
    }
    let shape = shape_of(size);
    Some(Sending {
        shape,
        missing: stated(shape),
    })
}

/// How a body of this size goes out (RFC 7230, section 3.3).
pub fn shape_of(size: BodySize) -> Shape
    ensures { model_shape result ≡ asked_shape (size_of size) }
{
    match size {
        BodySize::None | BodySize::Sized(0) => Shape::None,
        BodySize::Sized(length) => Shape::Length(length),
        BodySize::Stream => Shape::Chunked,
    }
}

// Whether bytes of a stated length are missing.
fn is_short(missing: u64) -> bool
    ensures { result ≡ nat_lt 0 missing }
{
    0 < missing
}

// How many bytes a shape states.
fn stated(shape: Shape) -> u64
    ensures { result ≡ stated (model_shape shape) }
{
    match shape {
        Shape::Length(length) => length,
        Shape::None | Shape::Chunked | Shape::Raw => 0,
    }
}
