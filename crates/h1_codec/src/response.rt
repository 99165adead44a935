//! An answer that is sent over the framed transport of a server.
ghost use Rattle.std.specs.Prelude.{◌≡◌, true, Some};
ghost use Rattle.h1_codec.specs.SentMessages.{is_open, message_view, view_begun};

use crate::{Codec, SendMessage};
use http_bodies::MessageBody;
use http_transport::{Framed, Transport};
use http_types::Response;
use std::alloc::Global;

/// An answer that is sent. The parameters are the transport and the body.
pub type SendResponse<T, B> = SendMessage<T, Codec, Response<()>, B>;

/// This answer, over this transport: it is framed for the request that the codec decoded last, or that `Codec::set_context`
/// names. Nothing is written yet, and no memory is taken.
pub fn send_response<T, B>(
    alloc: Global,
    framed: Framed<T, Codec>,
    response: Response<B>,
) -> SendMessage<T, Codec, Response<()>, B>
where
    T: Transport,
    B: MessageBody,
    ensures view { message_view T.wiring B.gives result ≡ Some (view_begun T.wiring B.gives framed (record { head = response.head; body = tt }) response.body) }
    ensures open { is_open result ≡ true }
{
    let (head, body) = response.into_parts();
    SendMessage::new(alloc, framed, head, body)
}
