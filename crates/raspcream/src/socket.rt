//! A server's side once it was upgraded to WebSocket.
ghost use Rattle.std.specs.Prelude.{◌≡◌, ◌≤◌, ℕ, [], length, string_bytes, option_map, IfOk, IfErr, OnOk, OnErr, IsUtf8};
ghost use Rattle.model_h1.specs.Frame as frames;
ghost use Rattle.ws_frames.specs.Close.{reason_says};
ghost use Rattle.ws_frames.specs.Codec.{item_says, frame_says};
ghost use Rattle.ws_frames.specs.Sent.{message_says};
ghost use Rattle.h1_connection.specs.EventMeaning.{failing_of};
ghost use Rattle.raspcream.specs.Named.{IsPlainOpcode, IsCloseText, IsSendable};
ghost use Rattle.raspcream.specs.Numbers.{accepted_kind, frame_kind, sent_kind, rule_said, check_said};
ghost use Rattle.raspcream.specs.Refused.{FailsBy, MayRefuse};
ghost use Rattle.raspcream.specs.Served.{IsMessageOf, HasAccepted, HasFramed, HasSent};
ghost use Rattle.raspcream.specs.Shown.{ShowsAccepted, ShowsFrame, ShowsPulledFrame, ShowsSent};
ghost use Rattle.raspcream.specs.declared.op.Op.TheVariants as asks;
ghost use Rattle.raspcream.specs.declared.reply.TheConstants.{MAX_FIELDS};

use crate::pointers::span_of;
use crate::reply::{DONE, FRAME, Failure, PENDING, PROTOCOL, REFUSED, Reply, tell};
use crate::server::Server;
use bytes::Bytes;
use h1_connection::{
    Accepted, CloseCode, CloseReason, Frame, HandshakeError, Item, Message, ProtocolError,
    PulledFrame, Sent,
};
use std::alloc::Global;

/// A broken rule, as a number.
pub fn rule_number(error: ProtocolError) -> u32
    ensures { result ≡ rule_said error }
{
    match error {
        ProtocolError::UnmaskedFrame => 1,
        ProtocolError::MaskedFrame => 2,
        ProtocolError::InvalidOpcode(_) => 3,
        ProtocolError::InvalidReservedBits => 4,
        ProtocolError::InvalidLength(_) => 5,
        ProtocolError::BadOpCode => 6,
        ProtocolError::Overflow => 7,
        ProtocolError::ContinuationNotStarted => 8,
        ProtocolError::ContinuationStarted => 9,
        ProtocolError::ContinuationFragment(_) => 10,
        ProtocolError::Io => 11,
        ProtocolError::NoMemory => 12,
    }
}

fn check_number(error: HandshakeError) -> u32
    ensures { result ≡ check_said (failing_of error) }
{
    match error {
        HandshakeError::GetMethodRequired => 1,
        HandshakeError::NoWebsocketUpgrade => 2,
        HandshakeError::NoConnectionUpgrade => 3,
        HandshakeError::NoVersionHeader => 4,
        HandshakeError::UnsupportedVersion => 5,
        HandshakeError::BadWebsocketKey => 6,
    }
}

/// A frame: its kind in `minor`, its payload in `bytes`. Of a Close the code in `number`, 0 for none.
fn tell_frame(frame: &Frame, out: &mut Reply)
    ensures kind { out.new.kind ≡ out.old.kind }
    ensures shown { ShowsFrame (frame_says frame.now) out.new }
    ensures count { out.new.count ≡ out.old.count }
{
    match frame {
        Frame::Text(payload) => tell_payload(out, 1, 0, payload.as_slice()),
        Frame::Binary(payload) => tell_payload(out, 2, 0, payload.as_slice()),
        Frame::Ping(payload) => tell_payload(out, 9, 0, payload.as_slice()),
        Frame::Pong(payload) => tell_payload(out, 10, 0, payload.as_slice()),
        Frame::Continuation(item) => tell_item(item, out),
        Frame::Close(reason) => tell_close(reason, out),
    }
}

// An opcode, a code and a payload.
fn tell_payload(out: &mut Reply, opcode: u32, code: u64, payload: &[u8])
    ensures opcode { out.new.minor ≡ opcode }
    ensures code { out.new.number ≡ code }
    ensures payload { out.new.bytes.len ≡ length payload.now }
    ensures kind { out.new.kind ≡ out.old.kind }
    ensures count { out.new.count ≡ out.old.count }
{
    out.minor = opcode;
    out.number = code;
    out.bytes = span_of(payload);
}

fn tell_item(item: &Item, out: &mut Reply)
    ensures kind { out.new.kind ≡ out.old.kind }
    ensures shown { ShowsFrame (item_says item.now) out.new }
    ensures count { out.new.count ≡ out.old.count }
{
    match item {
        Item::FirstText(payload) => tell_payload(out, 17, 0, payload.as_slice()),
        Item::FirstBinary(payload) => tell_payload(out, 18, 0, payload.as_slice()),
        Item::Continue(payload) => tell_payload(out, 16, 0, payload.as_slice()),
        Item::Last(payload) => tell_payload(out, 0, 0, payload.as_slice()),
    }
}

fn tell_close(reason: &Option<CloseReason>, out: &mut Reply)
    ensures kind { out.new.kind ≡ out.old.kind }
    ensures shown { ShowsFrame (frames.close (option_map reason_says reason.now)) out.new }
    ensures count { out.new.count ≡ out.old.count }
{
    match reason {
        Some(reason) => tell_reason(reason, out),
        None => tell_payload(out, 8, 0, b""),
    }
}

fn tell_reason(reason: &CloseReason, out: &mut Reply)
    ensures kind { out.new.kind ≡ out.old.kind }
    ensures shown { ShowsFrame (frames.close (Some (reason_says reason.now))) out.new }
    ensures count { out.new.count ≡ out.old.count }
{
    let code = u64::from(u16::from(reason.code));
    match &reason.description {
        Some(text) => tell_payload(out, 8, code, text.as_bytes()),
        None => tell_payload(out, 8, code, b""),
    }
}

fn copied(alloc: Global, input: &[u8]) -> Result<Bytes, Failure>
    ensures ok { IfOk result (λ bytes. bytes ≡ input.now) }
    ensures why { IfErr result (FailsBy ⊥) }
{
    match Bytes::copy_from_slice(alloc, input) {
        Ok(bytes) => Ok(bytes),
        Err(_) => Err(Failure::NoMemory),
    }
}

fn text_of(alloc: Global, input: &[u8]) -> Result<String, Failure>
    ensures ok { IfOk result (λ text. string_bytes text ≡ input.now) }
    ensures why { IfErr result (FailsBy (¬ (IsUtf8 input.now))) }
{
    let Ok(text) = str::from_utf8(input) else {
        return Err(Failure::Invalid);
    };
    match String::from_str(alloc, text) {
        Ok(text) => Ok(text),
        Err(_) => Err(Failure::NoMemory),
    }
}

/// The message that C names: `kind` as in a reply, and for a Close its code.
fn message_of(alloc: Global, kind: u32, code: u64, input: &[u8]) -> Result<Message, Failure>
    ensures ok { IfOk result (λ message. IsMessageOf kind code input.now (message_says message)) }
    ensures why { IfErr result (FailsBy (¬ (IsSendable kind code input.now))) }
{
    if kind == 1 {
        return text_message(alloc, input);
    }
    if kind == 8 {
        return close_of(alloc, code, input);
    }
    bytes_message(alloc, kind, input)
}

fn text_message(alloc: Global, input: &[u8]) -> Result<Message, Failure>
    ensures ok { IfOk result (λ message. message_says message ≡ frames.frame (frames.text input.now)) }
    ensures why { IfErr result (FailsBy (¬ (IsUtf8 input.now))) }
{
    match text_of(alloc, input) {
        Ok(words) => Ok(Message::Text(words)),
        Err(failure) => Err(failure),
    }
}

// One of bytes without a rule of their own.
fn bytes_message(alloc: Global, kind: u32, input: &[u8]) -> Result<Message, Failure>
    ensures ok { IfOk result (λ message. (code : ℕ) → IsMessageOf kind code input.now (message_says message)) }
    ensures why { IfErr result (FailsBy (¬ (IsPlainOpcode kind))) }
{
    match kind {
        2 => Ok(Message::Binary(copied(alloc, input)?)),
        9 => Ok(Message::Ping(copied(alloc, input)?)),
        10 => Ok(Message::Pong(copied(alloc, input)?)),
        17 => Ok(Message::Continuation(Item::FirstText(copied(alloc, input)?))),
        18 => Ok(Message::Continuation(Item::FirstBinary(copied(alloc, input)?))),
        16 => Ok(Message::Continuation(Item::Continue(copied(alloc, input)?))),
        0 => Ok(Message::Continuation(Item::Last(copied(alloc, input)?))),
        _ => Err(Failure::Invalid),
    }
}

fn close_of(alloc: Global, code: u64, input: &[u8]) -> Result<Message, Failure>
    ensures ok { IfOk result (λ message. IsMessageOf 8 code input.now (message_says message)) }
    ensures why { IfErr result (FailsBy (¬ (IsCloseText code input.now))) }
{
    if code == 0 {
        return Ok(Message::Close(None));
    }
    let Ok(code) = u16::try_from(code) else {
        return Err(Failure::Invalid);
    };
    let description = if input.is_empty() {
        None
    } else {
        Some(text_of(alloc, input)?)
    };
    Ok(Message::Close(Some(CloseReason {
        code: CloseCode::from(code),
        description,
    })))
}

/// How a handshake is answered.
fn tell_accepted(accepted: Accepted, out: &mut Reply)
    ensures kind { out.new.kind ≡ accepted_kind accepted }
    ensures shown { ShowsAccepted accepted out.new }
    ensures few { out.old.count ≤ MAX_FIELDS → out.new.count ≤ MAX_FIELDS }
{
    match accepted {
        Accepted::Done => tell(out, DONE, 0),
        Accepted::Refused(error) => tell(out, REFUSED, check_number(error)),
    }
}

/// Whether a message goes out.
fn tell_sent(sent: Sent, out: &mut Reply)
    ensures kind { out.new.kind ≡ sent_kind sent }
    ensures shown { ShowsSent sent out.new }
    ensures few { out.old.count ≤ MAX_FIELDS → out.new.count ≤ MAX_FIELDS }
{
    match sent {
        Sent::Done => tell(out, DONE, 0),
        Sent::Protocol(error) => tell(out, PROTOCOL, rule_number(error)),
    }
}

// Keeps what came, and tells it.
fn keep_pulled_frame(place: &mut Option<Frame>, pulled: PulledFrame, out: &mut Reply)
    ensures kind { out.new.kind ≡ frame_kind pulled }
    ensures shown { ShowsPulledFrame pulled out.new }
    ensures few { out.old.count ≤ MAX_FIELDS → out.new.count ≤ MAX_FIELDS }
{
    match pulled {
        PulledFrame::Frame(frame) => keep_frame(place, frame, out),
        PulledFrame::Protocol(error) => tell(out, PROTOCOL, rule_number(error)),
        PulledFrame::Pending => tell(out, PENDING, 0),
    }
}

// Spans are taken once the frame lies where it stays.
fn keep_frame(place: &mut Option<Frame>, frame: Frame, out: &mut Reply)
    ensures kind { out.new.kind ≡ 13 }
    ensures shown { ShowsFrame (frame_says frame) out.new }
    ensures few { out.old.count ≤ MAX_FIELDS → out.new.count ≤ MAX_FIELDS }
{
    let frame = place.insert(frame);
    out.kind = FRAME;
    tell_frame(frame, out);
}

impl Server {
    /// The open request upgrades the connection.
    pub fn accept(&mut self, limit: u64, out: &mut Reply) -> Result<(), Failure>
        ensures stands { OnOk result (HasAccepted limit out.new self.old self.new) }
        ensures kept { OnErr result (self.new ≡ self.old) }
        ensures refused { IfErr result (MayRefuse asks.Accept 0 limit [] self.old) }
        ensures quiet { OnErr result (out.new ≡ out.old) }
        ensures few { out.old.count ≤ MAX_FIELDS → out.new.count ≤ MAX_FIELDS }
    {
        let Ok(length) = usize::try_from(limit) else {
            return Err(Failure::Invalid);
        };
        if !self.connection.can_accept(length) {
            return Err(Failure::Misplaced);
        }
        let Ok(accepted) = self.connection.accept(length) else {
            return Err(Failure::NoMemory);
        };
        tell_accepted(accepted, out);
        Ok(())
    }

    /// The next frame.
    pub fn frame(&mut self, out: &mut Reply) -> Result<(), Failure>
        ensures stands { OnOk result (HasFramed out.new self.old self.new) }
        ensures kept { OnErr result (self.new ≡ self.old) }
        ensures refused { IfErr result (MayRefuse asks.Frame 0 0 [] self.old) }
        ensures quiet { OnErr result (out.new ≡ out.old) }
        ensures few { out.old.count ≤ MAX_FIELDS → out.new.count ≤ MAX_FIELDS }
    {
        if !self.connection.can_pull_frame() {
            return Err(Failure::Misplaced);
        }
        let Ok(pulled) = self.connection.pull_frame() else {
            return Err(Failure::NoMemory);
        };
        keep_pulled_frame(&mut self.frame, pulled, out);
        Ok(())
    }

    /// A message is sent.
    pub fn send(
        &mut self,
        kind: u32,
        code: u64,
        input: &[u8],
        out: &mut Reply,
    ) -> Result<(), Failure>
        ensures stands { OnOk result (HasSent kind code input.now out.new self.old self.new) }
        ensures kept { OnErr result (self.new ≡ self.old) }
        ensures refused { IfErr result (MayRefuse asks.Send kind code input.now self.old) }
        ensures quiet { OnErr result (out.new ≡ out.old) }
        ensures few { out.old.count ≤ MAX_FIELDS → out.new.count ≤ MAX_FIELDS }
    {
        if !self.connection.can_send() {
            return Err(Failure::Misplaced);
        }
        let message = message_of(self.alloc, kind, code, input)?;
        let Ok(sent) = self.connection.send(&message) else {
            return Err(Failure::NoMemory);
        };
        tell_sent(sent, out);
        Ok(())
    }
}
