//! A dispatcher of WebSocket frames.
ghost use Rattle.std.specs.Prelude.{◌≡◌, ℕ, List, [], true, false};
ghost use Rattle.ws_frames.specs.CodecState.{codec_server, codec_limit, codec_reading, codec_sending, with_reading};
ghost use Rattle.ws_frames.specs.Framing.{Reads, Writes, Forbids};
ghost use Rattle.ws_frames.specs.declared.error.ProtocolError.TheVariants as errors;
ghost use Rattle.ws_dispatcher.specs.Order.{KeepsReading};
ghost use Rattle.ws_dispatcher.specs.View.{view_of, view_begun};
ghost use Rattle.ws_dispatcher.specs.Polls.{MayBePolled};
ghost use Rattle.ws_dispatcher.specs.Steps.{Unwritten};

use crate::inner;
use http_services::Service;
use http_transport::{Framed, Transport};
use rand_core::Rng;
use std::alloc::Global;
use ws_frames::{Codec, Frame, Message, NoWords, ProtocolError};

/// A service over the frames of a WebSocket, as a server (RFC 6455): each frame that is read goes to it, and its answers
/// are written. The parameters are the service and its call, the transport, and why the service fails.
pub type Dispatcher<S, C, T, E> = inner::Dispatcher<S, C, T, Codec<NoWords>, Frame, Message, E>;

/// A dispatcher over this transport, whose codec takes payloads of at most 65536 bytes. It takes no memory.
pub fn over_transport<S, T>(
    alloc: Global,
    io: T,
    service: S,
) -> inner::Dispatcher<S, S::Call, T, Codec<NoWords>, Frame, Message, S::Error>
where
    T: Transport,
    S: Service<Frame, Response = Message, Lent = ()>,
    ensures view { (codec : Codec NoWords) × (codec_server codec ≡ true) × (codec_limit codec ≡ 65536) × (codec_reading codec ≡ false) × (codec_sending codec ≡ false)
        × (view_of T.wiring S.served result ≡ view_begun T.wiring (record { io = io; codec = codec; unread = []; unsent = [] }) (S.served service) []) }
    ensures open { MayBePolled S.calling result }
{
    inner::Dispatcher::new(alloc, Framed::new(alloc, io, Codec::new()), service)
}

/// A codec of frames that has written a message reads as before.
pub fn writing_leaves_what_is_read<R: Rng>()
    ensures { KeepsReading (Reads {R = R}) (Writes R.stream) }
{}

/// A codec of frames that has read, and keeps what it has beside its reading, writes as before, and reads on after that.
pub fn reading_leaves_what_is_written<R: Rng>()
    ensures { (before after new : Codec R) (message : Message) (text : List ℕ)
        → with_reading false after ≡ with_reading false before → Writes R.stream before message text new
        → Writes R.stream after message text (with_reading (codec_reading after) new) }
{}

/// A codec of frames that can't write a message never answers that a transport failed.
pub fn no_message_fails_the_transport<R: Rng>()
    ensures { (error : ProtocolError) (old new : Codec R) (message : Message)
        → Unwritten (Forbids {R = R}) (λ e. e ≡ errors.NoMemory) (λ e before after. after ≡ before) error old message new → ¬ (error ≡ errors.Io) }
{}
