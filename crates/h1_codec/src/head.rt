//! The next head of an answer.
ghost use Rattle.std.specs.Prelude.{◌≡◌, ◌≢◌, OnErr, Err};
ghost use Rattle.http_types.specs.declared.error.ParseError.TheVariants as errors;
ghost use Rattle.h1_codec.specs.Light.{NeedsNoMemory};
ghost use Rattle.http_types.specs.Flags.{type_of_flags};
ghost use Rattle.h1_codec.specs.ClientState.{answered, passes_on, client_standing};
ghost use Rattle.h1_codec.specs.ClientAnswers.{IsHeaded, IsHeadStep};

use crate::client_state::Client;
use crate::{ClientError, next_head};
use bytes::BytesMut;
use h1_decoder::ResponseItem;
use http_types::{ConnectionType, ResponseHead};

impl Client {
    /// The next head, where no body is open. Its body is then open.
    pub(crate) fn decode_head(
        &mut self,
        src: &mut BytesMut,
    ) -> Result<Option<ResponseItem>, ClientError>
        ensures headed { IsHeaded self.old src.old.items result self.new src.new.items }
        ensures step { IsHeadStep self.old src.old.items result self.new src.new.items }
        ensures no_memory_needed { NeedsNoMemory (client_standing self.old) src.old.items → result ≢ Err (ClientError.Parse errors.NoMemory) }
    {
        if self.body.is_some() {
            return Err(ClientError::Misplaced);
        }
        match next_head(
            &mut self.heads,
            &mut self.body,
            &mut self.trailers,
            self.is_head,
            src,
        ) {
            Ok(Some(item)) => {
                self.connection = answered(item.head.conn_type(), self.connection);
                self.passes_on = passes_on(&item.head);
                Ok(Some(item))
            }
            Ok(None) => Ok(None),
            Err(error) => Err(ClientError::Parse(error)),
        }
    }
}

/// What becomes of the connection: what the answer says, unless it only keeps it.
fn answered(said: Option<ConnectionType>, asked: ConnectionType) -> ConnectionType
    ensures { result ≡ answered said asked }
{
    match said {
        Some(ConnectionType::Close) => ConnectionType::Close,
        Some(ConnectionType::Upgrade) => ConnectionType::Upgrade,
        Some(ConnectionType::KeepAlive) => asked,
        None => asked,
    }
}

/// Whether the connection passes on to another protocol (RFC 7230, section 6.7).
fn passes_on(head: &ResponseHead) -> bool
    ensures { result ≡ passes_on head.now }
{
    head.status.as_u16() == 101
}
