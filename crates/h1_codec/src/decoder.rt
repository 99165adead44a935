//! The decoder of messages.
ghost use Rattle.std.specs.Prelude.{◌≡◌, ◌↔◌, ℕ, List, ◌++◌, Ok, Err, None, length, IfOk, IfErr, OnOk, OnErr, IfSome};
ghost use Rattle.http_config.specs.declared.hold_size.TheConstants.{DEFAULT_HOLD_SIZE};
ghost use Rattle.http_framing.specs.AnyPieces.{GoesOn, in_front};
ghost use Rattle.h1_decoder.specs.Refusal.{UnlessNoMemory, fault_of};
ghost use Rattle.h1_codec.specs.Kind.{says_fault};
ghost use Rattle.h1_codec.specs.Heads.{HasSeen, IsWaiting, IsTooLong, IsItemOf, IsNextItem, RefusesNext, Stops, refused, Heads, Reads, given};

use crate::next_message::{Next, find_next};
use crate::payload_type::PayloadType;
use crate::read_head::ReadHead;
use bytes::{Bytes, BytesMut};
use h1_decoder::HeadScanner;
use http_config::DEFAULT_HOLD_SIZE;
use http_framing::Decoder;
use http_types::ParseError;
use std::alloc::Global;
use std::marker::{Model, PhantomData};

/// Reads the heads of messages from bytes that come in pieces, each with what reads the body after it. `T` says which
/// messages: requests are `HeadItem`s, answers `ResponseItem`s. Of an answer it gives the body that its lines frame: whoever
/// asked by HEAD reads none.
///
/// A clause sees it as its limit, and how far it searched for the next head.
#[derive(Debug, Drop)]
pub struct MessageDecoder<T> {
    limit: usize,
    scanner: HeadScanner,
    of: PhantomData<T>,
}

impl<T> Model for MessageDecoder<T> {
    ghost use Rattle.h1_codec.specs.Heads.{Search};

    ghost Value = { Search };

    ghost view = { λ d. record { limit = d.limit; position = d.scanner } };
}

impl<T> MessageDecoder<T> {
    /// A decoder of heads that end within 131072 bytes.
    pub fn new() -> Self
        ensures limit { result.limit ≡ DEFAULT_HOLD_SIZE }
        ensures seen { (bytes : List ℕ) → HasSeen result bytes }
    {
        MessageDecoder::with_limit(DEFAULT_HOLD_SIZE)
    }

    /// A decoder of heads that end within `limit` bytes, counted from the end of the message before, with the empty lines
    /// in front of a head.
    pub fn with_limit(limit: usize) -> Self
        ensures limit { result.limit ≡ limit }
        ensures seen { (bytes : List ℕ) → HasSeen result bytes }
    {
        MessageDecoder {
            limit,
            scanner: HeadScanner::new(),
            of: PhantomData,
        }
    }
}

impl<T: ReadHead> MessageDecoder<T> {
    /// The next head, once it is whole, with what reads the body after it. The head is taken off the front of
    /// `src`, with the empty lines before it. Its bytes are copied once, so that a refusal leaves `src`, and so that what
    /// keeps the head doesn't keep the read buffer.
    ///
    /// `None` comes exactly where `src` has no whole head and fewer bytes than the limit. The first of these that holds
    /// is the error: `ParseError::TooLarge`, there are as many bytes as the limit and no head ends within the first so
    /// many, or it has more than 96 header lines; and else what `T::read_head` refuses, in its order. The only other
    /// error is `NoMemory`. An error changes nothing.
    ///
    /// After a `None` the next call goes on in the same bytes, with any others after them, and looks only at these.
    /// Where other bytes stand there in place of those that it has seen, the answer says nothing. After a head it has
    /// seen nothing: whatever was taken of the bytes in between, as the body, the next call finds the next head.
    pub fn decode(&mut self, src: &mut BytesMut) -> Result<Option<(T, PayloadType)>, ParseError>
        ensures none { HasSeen self.old src.old.items → ((result ≡ Ok None) ↔ IsWaiting self.old.limit src.old.items) }
        ensures item { HasSeen self.old src.old.items → IfOk result (λ answer. IfSome answer (IsNextItem T.kind self.old.limit src.old.items src.new.items)) }
        ensures too_long { HasSeen self.old src.old.items → IsTooLong self.old.limit src.old.items → result ≡ Err ParseError.TooLarge }
        ensures cause { HasSeen self.old src.old.items → IfErr result (λ e. UnlessNoMemory e (RefusesNext T.kind e self.old.limit src.old.items)) }
        ensures fault { HasSeen self.old src.old.items → IfErr result (λ e. UnlessNoMemory e (Stops T.kind self.old.limit src.old.items (refused (fault_of e)))) }
        ensures goes_on { IfOk result (λ answer. GoesOn (Reads T.kind) given self.old src.old.items (in_front (Reads T.kind) given answer) self.new src.new.items) }
        ensures waits { result ≡ Ok None → src.new ≡ src.old }
        ensures limit { self.new.limit ≡ self.old.limit }
        ensures all_seen { result ≡ Ok None → self.new.position.scanned ≡ length src.new.items }
        ensures anew { IfOk result (λ answer. IfSome answer (λ _. (bytes : List ℕ) → HasSeen self.new bytes)) }
        ensures seen { OnOk result (HasSeen self.old src.old.items → (more : List ℕ) → HasSeen self.new (src.new.items ++ more)) }
        ensures err { OnErr result ((self.new ≡ self.old) × (src.new ≡ src.old)) }
    {
        match find_next(self.limit, self.scanner, src.as_slice()) {
            Next::Head(start, end) => {
                let item = read_item(*src.allocator(), &src.as_slice()[start..end])?;
                src.advance(end);
                self.scanner = HeadScanner::new();
                Ok(Some(item))
            }
            Next::Waits(scanner) => {
                self.scanner = scanner;
                Ok(None)
            }
            Next::TooLong => Err(ParseError::TooLarge),
        }
    }
}

/// What the head says that the bytes are, and what reads the body after it.
fn read_item<T: ReadHead>(alloc: Global, piece: &[u8]) -> Result<(T, PayloadType), ParseError>
    ensures item { IfOk result (IsItemOf T.kind piece.now) }
    ensures fault { IfErr result (λ e. UnlessNoMemory e (T.kind.reads piece.now (says_fault (fault_of e)))) }
    ensures cause { IfErr result (λ e. UnlessNoMemory e (T.kind.refuses e piece.now)) }
{
    let Ok(piece) = Bytes::copy_from_slice(alloc, piece) else {
        return Err(ParseError::NoMemory);
    };
    let item = T::read_head(alloc, piece)?;
    let payload = PayloadType::of(item.body_kind());
    Ok((item, payload))
}

impl<T: ReadHead> Decoder for MessageDecoder<T> {
    ghost use Rattle.std.specs.Prelude.{⊤};
    ghost use Rattle.h1_codec.specs.Heads.{no_heads, Breaks, LeftAfter};
    ghost use Rattle.http_types.specs.declared.error.ParseError.TheVariants as errors;

    type Item = (T, PayloadType);

    type Error = ParseError;

    ghost Said = { Heads T };

    ghost reads = { Reads T.kind };

    ghost given = { given };

    ghost nothing = { no_heads };

    ghost breaks = { Breaks };

    ghost lacks = { λ error. error ≡ errors.NoMemory };

    ghost seen = { HasSeen };

    ghost leaves = { LeftAfter };

    ghost holds = { λ _. ⊤ };

    ghost Beside = { Unit };

    ghost beside = { λ _. tt };

    fn decode(&mut self, src: &mut BytesMut) -> Result<Option<(T, PayloadType)>, ParseError> {
        MessageDecoder::decode(self, src)
    }
}
