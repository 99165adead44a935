//! What is wrong with a head that was read.
ghost use Rattle.std.specs.Prelude.{◌≡◌};
ghost use Rattle.h1_strict.specs.Judgement.{status_of};

use http_types::StatusCode;
use thiserror::Error;

/// What RFC 9110 and RFC 9112 refuse, or read in another way, in a head that was read. They are judged in this order.
#[derive(Clone, Copy, Debug, PartialEq, Eq, Error)]
pub enum HeadDoubt {
    /// HTTP/1.1 without a Host.
    #[error("Host is missing (RFC 9112, section 3.2)")]
    HostMissing,

    /// More than one Host line.
    #[error("more than one Host (RFC 9112, section 3.2)")]
    HostRepeated,

    /// A Host that is no host with or without a port.
    #[error("Host is invalid (RFC 9112, section 3.2; RFC 9110, section 7.2)")]
    HostInvalid,

    /// A Host other than the authority of an absolute target.
    #[error("Host is other than the target's (RFC 9112, section 3.2)")]
    HostOther,

    /// A target whose form doesn't fit its method, that names no host where it has an authority, or that has a fragment.
    #[error("the target's form doesn't fit the method (RFC 9112, section 3.2)")]
    TargetForm,

    /// A CONNECT whose body has a length or comes in chunks.
    #[error("a body with CONNECT (RFC 9110, section 9.3.6)")]
    ConnectBody,

    /// A WebSocket that is asked for below HTTP/1.1.
    #[error("an upgrade below HTTP/1.1 (RFC 9110, section 7.8)")]
    UpgradeVersion,

    /// A WebSocket that is asked for, and no Connection line lists `upgrade`.
    #[error("an upgrade that Connection doesn't list (RFC 9110, section 7.8)")]
    UpgradeOption,

    /// A WebSocket is asked for by another method than GET, or with a length above 0, so that what is read as its body
    /// isn't what other readers take for it.
    #[error("a body with an upgrade (RFC 9112, section 6.3)")]
    UpgradeBody,

    /// A Connection line lists `close`, and the connection isn't taken to close: the word is one of several, or not
    /// on the last line.
    #[error("close among other options of Connection (RFC 9112, section 9.6)")]
    CloseAmongOthers,

    /// The same of `upgrade`.
    #[error("upgrade among other options of Connection (RFC 9110, section 7.6.1)")]
    UpgradeAmongOthers,
}

impl HeadDoubt {
    /// The status of the answer that refuses the head, after which the connection closes: 400. None where the head is
    /// right: then it is answered, and the connection closes after the answer.
    pub fn status(&self) -> Option<StatusCode>
        ensures { result ≡ status_of self.now }
    {
        match self {
            HeadDoubt::CloseAmongOthers | HeadDoubt::UpgradeAmongOthers => None,
            _ => Some(StatusCode::BAD_REQUEST),
        }
    }
}
