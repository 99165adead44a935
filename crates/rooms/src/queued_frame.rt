//! Frames that wait to be sent.
ghost use Rattle.std.specs.Prelude.{◌≡◌, [], ◌∷◌, ℕ, true, false, List, Some, None, IfOk, option_map, if◌then◌else◌};
ghost use Rattle.std.specs.Str.{is_utf8};
ghost use Rattle.model_h1.specs.Frame as model;
ghost use Rattle.ws_frames.specs.Close.{reason_says};
ghost use Rattle.ws_frames.specs.Codec.{item_says};
ghost use Rattle.ws_frames.specs.Sent.{message_says};
ghost use Rattle.ws_frames.specs.Protocol.{close_number};
ghost use Rattle.model_rooms.specs.Member.{payload, close_with, is_text};
ghost use Rattle.rooms.specs.QueuedFrames.{frame_in, SendsFrame};

use bytes::Bytes;
use std::alloc::Global;
use std::marker::Model;
use std::rc::Rc;
use ws_frames::{CloseCode, CloseReason, Item, Message, NoMemory};

/// A frame that waits to be sent. A clause sees the frame. Its copies share one message.
#[derive(Drop)]
pub struct QueuedFrame {
    message: Rc<Message>,
}

impl Model for QueuedFrame {
    ghost use Rattle.model_h1.specs.Frame.{Frame};
    ghost use Rattle.ws_frames.specs.Sent.{message_says};
    ghost use Rattle.rooms.specs.QueuedFrames.{frame_in, SendsFrame};

    ghost Value = { Frame };

    ghost view = { λ l. frame_in (message_says l.message.value) };

    ghost invariant = { λ l. SendsFrame (message_says l.message.value) };
}

impl QueuedFrame {
    // A line of a message that sends a frame.
    fn of(alloc: Global, message: Message) -> Result<QueuedFrame, NoMemory>
        requires { SendsFrame (message_says message) }
        ensures { IfOk result (λ line. line ≡ frame_in (message_says message)) }
    {
        let message = Rc::new(alloc, message)?;
        Ok(QueuedFrame { message })
    }

    // A text, unless it isn't UTF-8.
    pub(crate) fn text(alloc: Global, bytes: &[u8]) -> Result<Option<QueuedFrame>, NoMemory>
        ensures { IfOk result (λ line. line ≡ (if is_utf8 bytes.now then Some (model.text bytes.now) else None)) }
    {
        let Ok(text) = str::from_utf8(bytes) else {
            return Ok(None);
        };
        let text = String::from_str(alloc, text)?;
        let line = QueuedFrame::of(alloc, Message::Text(text))?;
        Ok(Some(line))
    }

    // Other bytes.
    pub(crate) fn binary(alloc: Global, payload: Bytes) -> Result<QueuedFrame, NoMemory>
        ensures { IfOk result (λ line. line ≡ model.binary payload) }
    {
        QueuedFrame::of(alloc, Message::Binary(payload))
    }

    // A part of a message.
    pub(crate) fn item(alloc: Global, item: Item) -> Result<QueuedFrame, NoMemory>
        ensures { IfOk result (λ line. line ≡ item_says item) }
    {
        QueuedFrame::of(alloc, Message::Continuation(item))
    }

    // The answer to a Ping.
    pub(crate) fn pong(alloc: Global, payload: Bytes) -> Result<QueuedFrame, NoMemory>
        ensures { IfOk result (λ line. line ≡ model.pong payload) }
    {
        QueuedFrame::of(alloc, Message::Pong(payload))
    }

    // A Close.
    pub(crate) fn close(alloc: Global, reason: Option<CloseReason>) -> Result<QueuedFrame, NoMemory>
        ensures { IfOk result (λ line. line ≡ model.close (option_map reason_says reason)) }
    {
        QueuedFrame::of(alloc, Message::Close(reason))
    }

    // A Close with this code and no text.
    pub(crate) fn close_for(alloc: Global, code: CloseCode) -> Result<QueuedFrame, NoMemory>
        ensures { IfOk result (λ line. line ≡ close_with (close_number code)) }
    {
        let reason = CloseReason {
            code,
            description: None,
        };
        QueuedFrame::close(alloc, Some(reason))
    }

    /// The message that sends the frame.
    pub fn message(&self) -> &Message
        ensures { message_says result.now ≡ model.frame self.now }
    {
        self.message.as_ref()
    }

    /// The same line. The message is shared, not copied.
    pub fn share(&self) -> Result<QueuedFrame, NoMemory>
        ensures { IfOk result (λ line. line ≡ self.now) }
    {
        let message = self.message.clone()?;
        Ok(QueuedFrame { message })
    }

    // The payload of a frame of a message, and none of a Close.
    pub(crate) fn payload(&self) -> &[u8]
        ensures { result.now ≡ payload self.now }
    {
        match self.message.as_ref() {
            Message::Text(text) => text.as_bytes(),
            Message::Binary(payload) => payload.as_slice(),
            Message::Continuation(item) => payload_of_item(item),
            Message::Ping(payload) => payload.as_slice(),
            Message::Pong(payload) => payload.as_slice(),
            Message::Close(_) => &[],
            Message::Nop => &[],
        }
    }

    // Whether it is a text, or the first fragment of one.
    pub(crate) fn begins_text(&self) -> bool
        ensures { result ≡ is_text (self.now ∷ []) }
    {
        matches!(
            self.message.as_ref(),
            Message::Text(_) | Message::Continuation(Item::FirstText(_))
        )
    }
}

// The payload of a fragment.
fn payload_of_item(item: &Item) -> &[u8]
    ensures { result.now ≡ payload (item_says item.now) }
{
    match item {
        Item::FirstText(payload) => payload.as_slice(),
        Item::FirstBinary(payload) => payload.as_slice(),
        Item::Continue(payload) => payload.as_slice(),
        Item::Last(payload) => payload.as_slice(),
    }
}
