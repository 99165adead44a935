//! What gathers a body without a limit.
ghost use Rattle.std.specs.Prelude.{◌≡◌, None};

use crate::body::gatherer::Gatherer;
use std::marker::Model;

/// Gathers the bytes of a body.
#[derive(Drop)]
pub struct ToBytes<B> {
    pub(crate) gatherer: Gatherer<B>,
    ghost no_limit: { gatherer.limit ≡ None },
}

impl<B> Model for ToBytes<B> {
    ghost use Rattle.http_bodies.specs.Gather.{Gathering, gathering_of};

    ghost Value = { Gathering B };

    ghost view = { λ t. gathering_of t.gatherer };
}
