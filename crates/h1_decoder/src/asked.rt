//! What a connection wants of a head that was read: what its answer needs, and what comes behind it.
ghost use Rattle.std.specs.Prelude.{◌≡◌, ℕ, List};
ghost use Rattle.h1_decoder.specs.HeadItem.{SaysHead, connection_type_of};
ghost use Rattle.model_h1.specs.Answer.{asked_of};
ghost use Rattle.model_h1.specs.Request.{Head, head_is, has_body};
ghost use Rattle.model_h1.specs.RequestHead.{IsReading};

use crate::decoder::HeadItem;
use http_framing::BodyKind;
use http_types::{ConnectionType, Version};

impl HeadItem {
    /// The minor number of the version: 0 or 1 (RFC 7230, section 2.6).
    pub fn minor(&self) -> u8
        ensures { (piece : List ℕ) (h : Head) → IsReading piece (head_is h) → SaysHead self.now h
            → result ≡ (asked_of h).minor }
    {
        if self.head.version < Version::HTTP_11 {
            0
        } else {
            1
        }
    }

    /// Whether the method is HEAD, whose answer has no body (RFC 7231, section 4.3.2).
    pub fn is_head(&self) -> bool
        ensures { (h : Head) → SaysHead self.now h → result ≡ (asked_of h).is_head }
    {
        let method = self.head.method.as_str();
        method.len() == 4 && method == "HEAD"
    }

    /// Whether the body is raw: all that follows the head.
    pub fn is_raw(&self) -> bool
        ensures { (h : Head) → SaysHead self.now h → result ≡ (asked_of h).is_raw }
    {
        matches!(self.body, BodyKind::Raw)
    }

    /// What the request asks of its connection: what the last Connection line says, if it is one of
    /// three words, or what its version keeps to (RFC 7230, section 6.3).
    pub fn connection_type(&self) -> ConnectionType
        ensures { (piece : List ℕ) (h : Head) → IsReading piece (head_is h) → SaysHead self.now h
            → result ≡ connection_type_of (asked_of h).connection }
    {
        self.head.connection_type()
    }

    /// Whether there is a body behind the head, if only one without bytes.
    pub fn has_body(&self) -> bool
        ensures { (h : Head) → SaysHead self.now h → result ≡ has_body h.body }
    {
        !matches!(self.body, BodyKind::None)
    }

    /// Whether the client waits for leave to send the body (RFC 7231, section 5.1.1).
    pub fn expects_continue(&self) -> bool
        ensures { (h : Head) → SaysHead self.now h → result ≡ h.expects }
    {
        self.head.expect()
    }
}
