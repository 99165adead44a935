//! A request that came.
ghost use Rattle.std.specs.Prelude.{◌≡◌};

use bytes::Bytes;
use h1_decoder::HeadItem;
use http_framing::BodyKind;
use http_types::RequestHead;
use std::marker::Model;
use std::net::SocketAddr;

/// A request that came: its head, who sent it, and when. Its body is read from `Body`. A clause sees it as its head.
#[derive(Drop)]
pub struct Incoming<'a> {
    item: &'a HeadItem,
    peer: Option<SocketAddr>,
    moment: Option<u64>,
}

impl<'a> Model for Incoming<'a> {
    ghost use Rattle.h1_decoder.specs.declared.decoder.HeadItem.{HeadItem};

    ghost Value = { HeadItem };

    ghost view = { λ r. r.item.now };
}

impl<'a> Incoming<'a> {
    pub(crate) fn new(
        item: &'a HeadItem,
        peer: Option<SocketAddr>,
        moment: Option<u64>,
    ) -> Incoming<'a>
        ensures { result ≡ item.now }
    {
        Incoming { item, peer, moment }
    }

    /// The method, the target, the version and the headers.
    pub fn head(&self) -> &'a RequestHead
        ensures { result.now ≡ self.now.head }
    {
        &self.item.head
    }

    /// The request target as the head spells it (RFC 7230, section 5.3).
    pub fn target(&self) -> &'a Bytes
        ensures { result.now ≡ self.now.target }
    {
        &self.item.target
    }

    /// Where the body ends (RFC 7230, section 3.3.3).
    pub fn body(&self) -> BodyKind
        ensures { result ≡ self.now.body }
    {
        self.item.body
    }

    /// The address of who sent it, where it is known.
    pub fn peer(&self) -> Option<SocketAddr> {
        self.peer
    }

    /// When it was handed out, in milliseconds after the start of 1970, where the clock tells it.
    pub fn moment(&self) -> Option<u64> {
        self.moment
    }
}
