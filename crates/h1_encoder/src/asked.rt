//! What an answer needs of its request.
ghost use Rattle.std.specs.Prelude.{◌≡◌, ◌≤◌};
ghost use Rattle.h1_encoder.specs.Meaning.{model_type, minor_of};

use http_types::{ConnectionType, Version};
use std::marker::Model;

/// What an answer needs of its request: its version, whether it is HEAD, whether its body is raw, and what
/// it asks of the connection. A contract sees the definitions' record.
#[derive(Clone, Copy, Debug)]
pub struct Asked {
    minor: u8,
    is_head: bool,
    is_raw: bool,
    connection: ConnectionType,
}

impl Model for Asked {
    ghost use Rattle.std.specs.Prelude.{◌≤◌};
    ghost use Rattle.model_h1.specs.Answer as answers;

    ghost Value = { answers.Asked };

    ghost use Rattle.h1_encoder.specs.Meaning.{model_type};
    ghost use Rattle.h1_decoder.specs.HeadItem.{connection_type_of};

    ghost view = { λ a. record {
      minor = a.minor;
      is_head = a.is_head;
      is_raw = a.is_raw;
      connection = model_type a.connection;
    } };

    ghost invariant = { λ a. a.minor ≤ 1 };

    ghost inverse = { λ a. record {
      minor = a.minor;
      is_head = a.is_head;
      is_raw = a.is_raw;
      connection = connection_type_of a.connection;
    } };
}

impl Asked {
    /// What is asked by a request of this version: HTTP/1.1 and above are answered in HTTP/1.1, others in
    /// HTTP/1.0 (RFC 7230, section 2.6).
    pub fn new(version: Version, is_head: bool, is_raw: bool, connection: ConnectionType) -> Asked
        ensures { result ≡ record {
          minor = minor_of version;
          is_head = is_head;
          is_raw = is_raw;
          connection = model_type connection;
        } }
    {
        let minor = if version < Version::HTTP_11 { 0 } else { 1 };
        Asked {
            minor,
            is_head,
            is_raw,
            connection,
        }
    }

    /// The minor number of the answer's version.
    pub fn minor(&self) -> u8
        ensures value { result ≡ self.now.minor }
        ensures bound { result ≤ 1 }
    {
        self.minor
    }

    /// Whether the request is HEAD, so that its answer is a head alone.
    pub fn is_head(&self) -> bool
        ensures { result ≡ self.now.is_head }
    {
        self.is_head
    }

    /// Whether the request's body is raw: it goes on to the end of the input.
    pub fn is_raw(&self) -> bool
        ensures { result ≡ self.now.is_raw }
    {
        self.is_raw
    }

    /// What the request asks of the connection.
    pub fn connection(&self) -> ConnectionType
        ensures { model_type result ≡ self.now.connection }
    {
        self.connection
    }
}
