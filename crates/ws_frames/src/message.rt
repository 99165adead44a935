//! What is received, and what is sent.
ghost use Rattle.std.specs.Prelude.{◌≡◌, IfOk};
ghost use Rattle.ws_frames.specs.Copies.{IsFrameCopy, IsMessageCopy};

use crate::NoMemory;
use crate::proto::{CloseReason, copy_reason};
use bytes::Bytes;

/// A part of a message in fragments (RFC 6455, section 5.4).
#[derive(Debug, PartialEq, Eq, Drop)]
pub enum Item {
    /// The first fragment of a text.
    FirstText(Bytes),
    /// The first fragment of other bytes.
    FirstBinary(Bytes),
    /// One that is neither the first nor the last.
    Continue(Bytes),
    /// The last fragment.
    Last(Bytes),
}

impl Item {
    /// An equal fragment, as `clone` gives it too.
    pub fn copy(&self) -> Result<Item, NoMemory>
        ensures { IfOk result (λ copy. copy ≡ self.now) }
    {
        match self {
            Item::FirstText(payload) => Ok(Item::FirstText(payload.clone()?)),
            Item::FirstBinary(payload) => Ok(Item::FirstBinary(payload.clone()?)),
            Item::Continue(payload) => Ok(Item::Continue(payload.clone()?)),
            Item::Last(payload) => Ok(Item::Last(payload.clone()?)),
        }
    }
}

impl Clone for Item {
    ghost is_clone = { λ item copy. copy ≡ item };

    fn clone(&self) -> Result<Item, NoMemory> {
        self.copy()
    }
}

/// What was received. A text is not tested for UTF-8.
#[derive(Debug, PartialEq, Eq, Drop)]
pub enum Frame {
    /// A text.
    Text(Bytes),
    /// Other bytes.
    Binary(Bytes),
    /// A part of a message.
    Continuation(Item),
    /// It asks for a Pong of the same payload.
    Ping(Bytes),
    /// It answers a Ping.
    Pong(Bytes),
    /// The peer closes.
    Close(Option<CloseReason>),
}

impl Frame {
    /// An equal frame, as `clone` gives it too.
    pub fn copy(&self) -> Result<Frame, NoMemory>
        ensures { IfOk result (λ copy. IsFrameCopy copy self.now) }
    {
        match self {
            Frame::Text(payload) => Ok(Frame::Text(payload.clone()?)),
            Frame::Binary(payload) => Ok(Frame::Binary(payload.clone()?)),
            Frame::Continuation(item) => Ok(Frame::Continuation(item.copy()?)),
            Frame::Ping(payload) => Ok(Frame::Ping(payload.clone()?)),
            Frame::Pong(payload) => Ok(Frame::Pong(payload.clone()?)),
            Frame::Close(reason) => Ok(Frame::Close(copy_reason(reason)?)),
        }
    }
}

impl Clone for Frame {
    ghost is_clone = { λ frame copy. IsFrameCopy copy frame };

    fn clone(&self) -> Result<Frame, NoMemory> {
        self.copy()
    }
}

/// What is sent.
#[derive(Debug, PartialEq, Eq, Drop)]
pub enum Message {
    /// A text.
    Text(String),
    /// Other bytes.
    Binary(Bytes),
    /// A part of a message.
    Continuation(Item),
    /// It asks for a Pong of the same payload.
    Ping(Bytes),
    /// It answers a Ping.
    Pong(Bytes),
    /// This end closes.
    Close(Option<CloseReason>),
    /// Nothing is sent.
    Nop,
}

impl Message {
    /// An equal message, as `clone` gives it too.
    pub fn copy(&self) -> Result<Message, NoMemory>
        ensures { IfOk result (λ copy. IsMessageCopy copy self.now) }
    {
        match self {
            Message::Text(text) => Ok(Message::Text(text.clone()?)),
            Message::Binary(payload) => Ok(Message::Binary(payload.clone()?)),
            Message::Continuation(item) => Ok(Message::Continuation(item.copy()?)),
            Message::Ping(payload) => Ok(Message::Ping(payload.clone()?)),
            Message::Pong(payload) => Ok(Message::Pong(payload.clone()?)),
            Message::Close(reason) => Ok(Message::Close(copy_reason(reason)?)),
            Message::Nop => Ok(Message::Nop),
        }
    }
}

impl Clone for Message {
    ghost is_clone = { λ message copy. IsMessageCopy copy message };

    fn clone(&self) -> Result<Message, NoMemory> {
        self.copy()
    }
}
