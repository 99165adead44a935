//! What heads of both kinds have in common.
ghost use Rattle.std.specs.Prelude.{◌≡◌};
ghost use Rattle.std.specs.Borrow.{sem};
ghost use Rattle.http_types.specs.Flags.{type_of_flags, with_type};
ghost use Rattle.http_types.specs.ConnectionType.{IsTypeOf};

use crate::Version;
use std::marker::Model;

/// What a message asks of its connection.
#[derive(Clone, Copy, Debug, PartialEq, Eq)]
pub enum ConnectionType {
    /// Close it after this exchange.
    Close,
    /// Keep it for a further one.
    KeepAlive,
    /// Change it to another protocol (RFC 7230, section 6.7).
    Upgrade,
}

/// The head of a message.
pub trait Head {
    // The head without its headers and marks.
    ghost cleared: { Self → Self };

    /// Takes away the headers and the marks, and nothing else. It takes no memory.
    fn clear(&mut self)
        ensures { self.new ≡ cleared self.old };
}

/// A message without its body: its head.
#[derive(Debug, Drop)]
pub struct Message<T> {
    head: T,
}

impl<T> Model for Message<T> {
    ghost Value = { T };

    ghost view = { λ m. m.head };
}

impl<T: Head> Message<T> {
    ghost use Rattle.http_types.specs.MessageLends.{lends_head};

    /// The message with this head.
    pub fn new(head: T) -> Self
        ensures { result ≡ head }
    {
        Message { head }
    }

    /// Its head.
    pub fn head(&self) -> &T
        ensures { result.now ≡ self.now }
    {
        &self.head
    }

    /// Its head, for writing.
    pub fn head_mut(&mut self) -> &mut T
        ensures* writes_back { sem 𝓛 (lends_head T.row self.entry result) }
        ensures value { result.now ≡ self.old }
    {
        &mut self.head
    }

    /// Its head alone.
    pub fn into_head(self) -> T
        ensures { result ≡ self }
    {
        let Message { head } = self;
        head
    }
}

impl<T: Head> From<T> for Message<T> {
    ghost use Rattle.std.specs.Prelude.{◌≡◌};

    ghost from_gives = { λ head message. message ≡ head };

    fn from(head: T) -> Self {
        Message::new(head)
    }
}

/// Marks of a head that are no field and no header of it.
#[derive(Clone, Copy, Debug, PartialEq, Eq)]
pub(crate) struct Flags {
    pub(crate) close: bool,
    pub(crate) keep_alive: bool,
    pub(crate) upgrade: bool,
    pub(crate) expect: bool,
    pub(crate) no_chunking: bool,
    pub(crate) in_camel_case: bool,
}

impl Flags {
    /// No mark.
    pub(crate) const EMPTY: Flags = Flags {
        close: false,
        keep_alive: false,
        upgrade: false,
        expect: false,
        no_chunking: false,
        in_camel_case: false,
    };

    /// Adds the mark of a type. No mark is taken away.
    pub(crate) fn set_connection_type(&mut self, ctype: ConnectionType)
        ensures { self.new ≡ with_type self.old ctype }
    {
        match ctype {
            ConnectionType::Close => self.close = true,
            ConnectionType::KeepAlive => self.keep_alive = true,
            ConnectionType::Upgrade => self.upgrade = true,
        }
    }

    /// The first of Close, KeepAlive and Upgrade whose mark is set.
    pub(crate) fn conn_type(self) -> Option<ConnectionType>
        ensures { result ≡ type_of_flags self }
    {
        if self.close {
            Some(ConnectionType::Close)
        } else if self.keep_alive {
            Some(ConnectionType::KeepAlive)
        } else if self.upgrade {
            Some(ConnectionType::Upgrade)
        } else {
            None
        }
    }

    /// The type of a head of this version with these marks.
    pub(crate) fn connection_type(self, version: Version) -> ConnectionType
        ensures { IsTypeOf self version result }
    {
        match self.conn_type() {
            Some(ctype) => ctype,
            None if version < Version::HTTP_11 => ConnectionType::Close,
            None => ConnectionType::KeepAlive,
        }
    }
}
