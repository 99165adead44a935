//! A text by which a name is looked up, in any case and without memory.
ghost use Rattle.std.specs.Prelude.{◌≡◌, nat_eq};
ghost use Rattle.std.specs.Ordering.{on};
ghost use Rattle.std.specs.Hash as fed;
ghost use Rattle.std.specs.Cmp.Lexicographic.{pointwise, nat_list_eq_equiv};
ghost use Rattle.std.specs.Cmp.Rules.{comparing, hashing};
ghost use Rattle.std.proofs.Common.{rules};
ghost use Rattle.http_header.specs.Token.{lowercase};

use http_header::HeaderName;
use indexmap::Equivalent;
use std::hash::{Hash, Hasher};

/// Stands for the name that has these bytes in lower case.
#[derive(Clone, Copy)]
pub(crate) struct AnyCase<'a> {
    pub(crate) bytes: &'a [u8],
}

impl<'a> PartialEq for AnyCase<'a> {
    ghost eq = { on (λ q. lowercase q.bytes.now) (pointwise nat_eq) };

    ghost laws = { Prim.search (comparing, rules) };

    fn eq(&self, other: &AnyCase<'a>) -> bool {
        self.bytes.eq_ignore_ascii_case(other.bytes)
    }
}

impl<'a> Eq for AnyCase<'a> {
    ghost laws = { Prim.search (comparing, rules) };
}

// It is hashed as the name is: the length, and then each byte, in lower case.
impl<'a> Hash for AnyCase<'a> {
    ghost hash_input = { λ q. fed.slice fed.u8 (lowercase q.bytes.now) };

    ghost respects_eq = { Prim.search (hashing, rules) };

    fn hash<H: Hasher>(&self, state: &mut H) {
        state.write_usize(self.bytes.len());
        for b in self.bytes {
            state.write_u8(b.to_ascii_lowercase());
        }
    }
}

impl<'a> Equivalent<HeaderName> for AnyCase<'a> {
    ghost equivalent = { λ q name. pointwise nat_eq (lowercase q.bytes.now) name };

    ghost respects_hash = { Prim.search (hashing, rules) };

    ghost respects_eq = { λ q x y. nat_list_eq_equiv.congr (lowercase q.bytes.now) x y };

    fn equivalent(&self, name: &HeaderName) -> bool {
        self.bytes.eq_ignore_ascii_case(name.as_bytes())
    }
}
