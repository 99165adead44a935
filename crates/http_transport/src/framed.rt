//! Items over a transport.
ghost use Rattle.std.specs.Prelude.{◌≡◌, ◌≤◌, ◌↔◌, ◌++◌, ℕ, List, [], IsTrue, OnOk, OnErr, IfOk, IfErr, IfSome, length};
ghost use Rattle.std.specs.Borrow.{sem};
ghost use Rattle.futures.specs.Task.{IsArmed, Keeps};
ghost use Rattle.futures.specs.Poll.{IfReady, OnPending};
ghost use Rattle.http_transport.specs.Items.{ItemSays};
ghost use Rattle.http_transport.specs.Flushes.{Flushes};

mod error;
mod flush;
mod read;

use crate::Transport;
use bytes::BytesMut;
pub use error::FramedError;
use futures::task::{Context, Poll};
use http_config::Failed;
use http_framing::{Decoder, Encoder};
use std::alloc::Global;
use std::marker::Model;

/// From so many bytes on the write buffer is full.
const FULL: usize = 8192;

/// Items over a transport: it decodes what the transport gives, and buffers what is written until it is flushed.
///
/// A clause sees it as the record of the transport, the codec, the bytes that were read and not decoded, and those that were
/// written and not sent.
#[derive(Drop)]
pub struct Framed<T, U> {
    io: T,
    codec: U,
    unread: BytesMut,
    unsent: BytesMut,
}

impl<T, U> Model for Framed<T, U> {
    ghost use Rattle.http_transport.specs.Parts.{Parts};

    ghost Value = { Parts T U };

    ghost view = { λ f. record { io = f.io; codec = f.codec; unread = f.unread.items; unsent = f.unsent.items } };
}

impl<T: Transport, U> Framed<T, U> {
    ghost use Rattle.http_transport.specs.Lends.{lends_io, lends_codec};

    /// Items of this codec over this transport. It takes no memory.
    pub fn new(alloc: Global, io: T, codec: U) -> Framed<T, U>
        ensures { result ≡ record { io = io; codec = codec; unread = []; unsent = [] } }
    {
        Framed {
            io,
            codec,
            unread: BytesMut::new(alloc),
            unsent: BytesMut::new(alloc),
        }
    }

    /// Whether nothing waits to be sent.
    pub fn is_write_buf_empty(&self) -> bool
        ensures { IsTrue result ↔ (self.now.unsent ≡ []) }
    {
        self.unsent.is_empty()
    }

    /// Whether 8192 bytes or more wait to be sent.
    pub fn is_write_buf_full(&self) -> bool
        ensures { IsTrue result ↔ (8192 ≤ length self.now.unsent) }
    {
        self.unsent.len() >= FULL
    }

    /// The codec, for writing.
    pub fn codec_mut(&mut self) -> &mut U
        ensures* writes_back { sem 𝓛 (lends_codec T.row U.row self.entry result) }
        ensures value { result.now ≡ self.old.codec }
    {
        &mut self.codec
    }

    /// The transport, for writing.
    pub fn io_mut(&mut self) -> &mut T
        ensures* writes_back { sem 𝓛 (lends_io T.row U.row self.entry result) }
        ensures value { result.now ≡ self.old.io }
    {
        &mut self.io
    }

    /// Writes an item after what is buffered, or nothing: then the codec refuses it, or there was no memory, and the codec
    /// is as it says that its error leaves it.
    pub fn write<I>(&mut self, item: I) -> Result<(), U::Error>
    where
        U: Encoder<I>,
        ensures ok { OnOk result ((text : List ℕ) × (self.new.unsent ≡ self.old.unsent ++ text) × U.writes self.old.codec item text self.new.codec) }
        ensures err { OnErr result (self.new.unsent ≡ self.old.unsent) }
        ensures refused { IfErr result (λ e. ¬ (U.lacks e) → U.refuses e self.old.codec item) }
        ensures lacking { IfErr result (λ e. U.lacks e → self.new.codec ≡ self.old.codec) }
        ensures left { IfErr result (λ e. U.leaves e self.old.codec self.new.codec) }
        ensures unread { self.new.unread ≡ self.old.unread }
        ensures io { self.new.io ≡ self.old.io }
    {
        self.codec.encode(item, &mut self.unsent)
    }

    /// Gives the transport what is buffered, and then flushes it. What it took leaves the buffer, also at an error.
    ///
    /// It is pending where the transport is, or where it took at least 64 bytes: then the task is woken.
    pub fn flush(&mut self, cx: &mut Context<'_>) -> Poll<Result<(), Failed>>
        ensures says { Flushes (T.wiring self.old.io) (T.wiring self.new.io) cx.new.is_woken self.old.unsent self.new.unsent result }
        ensures codec { self.new.codec ≡ self.old.codec }
        ensures unread { self.new.unread ≡ self.old.unread }
        ensures registered { OnPending result (IsArmed cx.new) }
        ensures kept { Keeps cx.old cx.new }
    {
        flush::flush(&mut self.io, &mut self.unsent, cx)
    }
}

impl<T: Transport, U: Decoder> Framed<T, U> {
    /// The next item, or nothing once the input has ended and holds no further item. What was read and not decoded
    /// stays, at each answer, as does what the codec keeps beside its reading. An item is as the codec says that its
    /// items are.
    ///
    /// It is pending where the bytes hold no item yet and the transport is pending, or where at least 64 bytes came: then
    /// the task is woken.
    pub fn next_item(
        &mut self,
        cx: &mut Context<'_>,
    ) -> Poll<Option<Result<U::Item, FramedError<U::Error>>>>
        ensures says { ItemSays U.reads U.given U.nothing U.breaks U.lacks U.seen U.leaves (T.wiring self.old.io) (T.wiring self.new.io) cx.new.is_woken
            self.old.codec self.old.unread self.new.codec self.new.unread result }
        ensures holds { IfReady result (λ answer. IfSome answer (λ read. IfOk read U.holds)) }
        ensures beside { U.beside self.new.codec ≡ U.beside self.old.codec }
        ensures unsent { self.new.unsent ≡ self.old.unsent }
        ensures registered { OnPending result (IsArmed cx.new) }
        ensures kept { Keeps cx.old cx.new }
    {
        read::next_item(&mut self.io, &mut self.codec, &mut self.unread, cx)
    }
}
