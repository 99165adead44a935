//! A service of frames, over a transport in memory.
ghost use Rattle.std.specs.Prelude.{IfOk};
ghost use Rattle.ws_dispatcher.specs.Polls.{MayBePolled};
ghost use Rattle.tests_servers.specs.Calls.{answers_once};

use bytes::Bytes;
use http_services::{FnService, Handler};
use http_transport::{Framed, MemTransport};
use std::alloc::{AllocError, Global};
use std::test::Fail;
use ws_dispatcher::{DispatcherError, inner, ws};
use ws_frames::{Codec, Frame, Message, NoWords};

/// Sends back each payload, and closes where the peer does.
#[derive(Drop)]
pub(crate) struct Echo;

impl Handler<Frame> for Echo {
    type Response = Message;

    type Error = ();

    fn handle(&mut self, req: Frame) -> Result<Message, ()> {
        match req {
            Frame::Text(payload) => Ok(Message::Binary(payload)),
            Frame::Binary(payload) => Ok(Message::Binary(payload)),
            Frame::Continuation(item) => Ok(Message::Continuation(item)),
            Frame::Ping(payload) => Ok(Message::Pong(payload)),
            Frame::Pong(_) => Ok(Message::Nop),
            Frame::Close(reason) => Ok(Message::Close(reason)),
        }
    }
}

pub(crate) type Service = FnService<Echo, ()>;

pub(crate) type Served = ws::Dispatcher<Service, Option<Frame>, MemTransport, ()>;

/// Why a dispatcher of an echo ends.
pub(crate) type Ends = Result<(), DispatcherError<()>>;

/// An echo over a transport that gives this text in pieces of so many bytes, of which there is at least one.
pub(crate) fn serve_text(
    alloc: Global,
    text: &'static [u8],
    size: usize,
    room: Vec<usize>,
    fail: Vec<usize>,
) -> Result<Served, AllocError>
    ensures { IfOk result (MayBePolled answers_once) }
{
    let mut pieces = Vec::new(alloc);
    let mut rest = Bytes::from_static(text);
    for _ in 0..text.len() {
        if rest.is_empty() {
            break;
        }
        let count = rest.len().min(size.max(1));
        pieces.push(rest.split_to(count)?)?;
    }
    Ok(over(alloc, MemTransport::new(alloc, pieces, room, fail)))
}

/// An echo over this transport.
pub(crate) fn over(alloc: Global, transport: MemTransport) -> Served
    ensures { MayBePolled answers_once result }
{
    ws::over_transport(alloc, transport, FnService::new(Echo))
}

/// What was sent.
pub(crate) fn sent(served: Served, alloc: Global) -> Result<Vec<u8>, Fail> {
    let (mut framed, _service) = served.into_parts();
    Ok(framed.io_mut().sent().to_vec(alloc)?)
}
