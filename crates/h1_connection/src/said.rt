//! Messages and frames as events and outcomes keep them.
ghost use Rattle.std.specs.Prelude.{◌≡◌, IfOk};
ghost use Rattle.ws_frames.specs.Codec.{frame_says, IsNamed};
ghost use Rattle.ws_frames.specs.Sent.{message_says};

use http_types::NoMemory;
use std::marker::Model;
use ws_frames::{Frame, Message};

/// A message that is to be sent. A clause sees what it says.
#[derive(Debug, Drop)]
pub struct SentMessage {
    message: Message,
}

impl Model for SentMessage {
    ghost use Rattle.model_h1.specs.Frame.{Message as Said};
    ghost use Rattle.ws_frames.specs.Sent.{message_says};

    ghost Value = { Said };

    ghost view = { λ m. message_says m.message };
}

impl SentMessage {
    /// The message.
    pub fn new(message: Message) -> SentMessage
        ensures { result ≡ message_says message }
    {
        SentMessage { message }
    }

    /// The message.
    pub fn get(&self) -> &Message
        ensures { message_says result.now ≡ self.now }
    {
        &self.message
    }

    /// A message that says the same. Its bytes are shared, not copied, but for a text.
    pub fn copy(&self) -> Result<SentMessage, NoMemory>
        ensures { IfOk result (λ copy. copy ≡ self.now) }
    {
        let message = self.message.copy()?;
        Ok(SentMessage { message })
    }
}

/// A frame that was received. A clause sees what it says. A Close has the code that its number names.
#[derive(Debug, Drop)]
pub struct ReceivedFrame {
    frame: Frame,
}

impl Model for ReceivedFrame {
    ghost use Rattle.model_h1.specs.Frame.{Frame as Said};
    ghost use Rattle.ws_frames.specs.Codec.{frame_says, IsNamed};

    ghost Value = { Said };

    ghost view = { λ f. frame_says f.frame };

    ghost invariant = { λ f. IsNamed f.frame };
}

impl ReceivedFrame {
    /// The frame.
    pub(crate) fn new(frame: Frame) -> ReceivedFrame
        requires { IsNamed frame }
        ensures { result ≡ frame_says frame }
    {
        ReceivedFrame { frame }
    }

    /// The frame.
    pub fn get(&self) -> &Frame
        ensures says { frame_says result.now ≡ self.now }
        ensures named { IsNamed result.now }
    {
        &self.frame
    }

    /// A frame that says the same. Its bytes are shared, not copied, but for a text.
    #[tactic(auto, using(crate::proofs::NamedLemmas::copy_named))]
    pub fn copy(&self) -> Result<ReceivedFrame, NoMemory>
        ensures { IfOk result (λ copy. copy ≡ self.now) }
    {
        let frame = self.frame.copy()?;
        Ok(ReceivedFrame { frame })
    }
}
