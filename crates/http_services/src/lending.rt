//! What a service is lent while a call of it is in progress.
ghost use Rattle.std.specs.Prelude.{◌≡◌};
ghost use Rattle.http_services.specs.Lent.{Lent};

use crate::h1::Payload;

/// What a service is lent: the queue of its request's body, or nothing.
pub trait Lending: Drop {
    /// The bytes and the error that wait, whether the end was fed, the trailers, and how many bytes were put back.
    ghost lent: { Self → Lent };

    /// How many bytes were put back, up to 2^64 - 1.
    fn put_back(&self) -> u64
        ensures { result ≡ (lent self.now).put_back };
}

impl Lending for () {
    ghost use Rattle.http_services.specs.Lent.{nothing_lent};

    ghost lent = { λ _. nothing_lent };

    fn put_back(&self) -> u64 {
        0
    }
}

impl Lending for Payload {
    ghost use Rattle.http_services.specs.Lent.{lent_of};

    ghost lent = { lent_of };

    fn put_back(&self) -> u64 {
        self.put_back()
    }
}
