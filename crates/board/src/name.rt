//! Names of counters.
ghost use Rattle.std.specs.Prelude.{◌≡◌, ◌↔◌, ◌≤◌, ◌-◌, ◌++◌, length, replicate, IfOk, IsErr, Some, refl, nat_eq};
ghost use Rattle.std.specs.Ordering.{nat_cmp};
ghost use Rattle.std.specs.Cmp.{partial_equiv_from_equiv};
ghost use Rattle.std.specs.Cmp.Lexicographic.{pointwise, slice_cmp, nat_list_eq_equiv, nat_list_cmp_total, texts_po, texts_ties};
ghost use Rattle.board.specs.Name.{IsName};

use std::cmp::Ordering;
use std::marker::Model;
use thiserror::Error;

/// The most bytes that a name has.
pub const MAX_NAME_LEN: usize = 64;

/// Why bytes are no name.
#[derive(Clone, Copy, Debug, PartialEq, Eq, Error)]
pub enum NameError {
    /// There is no byte, or there are more than `MAX_NAME_LEN`.
    #[error("a name has 1 to 64 bytes")]
    Length,
}

/// The name of a counter: 1 to 64 bytes, which stand in the value itself, so that a copy takes no memory.
///
/// A clause sees it as its bytes.
#[derive(Clone, Copy, Debug)]
pub struct Name {
    bytes: [u8; 64],
    len: u8,
}

impl Model for Name {
    ghost use Rattle.std.specs.Prelude.{◌≡◌, ◌<◌, ◌≤◌, ◌-◌, ◌++◌, ℕ, List, length, take, drop, replicate};
    ghost use Rattle.board.specs.Name.{take_and_pad};

    ghost Value = { List ℕ };

    ghost view = { λ n. take n.len n.bytes };

    ghost invariant = { λ n. (0 < n.len) × (n.len ≤ 64) × (length n.bytes ≡ 64) × (drop n.len n.bytes ≡ replicate (64 - n.len) 0) };

    ghost inverse = { λ name. record { bytes = name ++ replicate (64 - length name) 0; len = length name } };

    ghost inverse_ok = { λ n h i. record {
      bytes = (take_and_pad n.len n.bytes h.1 h.2 h.3).0 i;
      len = (take_and_pad n.len n.bytes h.1 h.2 h.3).1 i;
    } };
}

impl Name {
    /// The name of these bytes. `NameError::Length` comes exactly where there is none or where there are more than 64.
    pub fn new(bytes: &[u8]) -> Result<Name, NameError>
        ensures ok { IfOk result (λ name. name ≡ bytes.now) }
        ensures length { IsErr result ↔ ¬ (IsName bytes.now) }
    {
        let count = bytes.len();
        if count == 0 || count > MAX_NAME_LEN {
            return Err(NameError::Length);
        }
        Ok(Name {
            bytes: padded(bytes),
            len: count as u8,
        })
    }

    /// Its bytes, of which there are 1 to 64.
    pub fn as_bytes(&self) -> &[u8]
        ensures value { result.now ≡ self.now }
        ensures valid { IsName self.now }
    {
        &self.bytes[..usize::from(self.len)]
    }
}

// The bytes, with zeros after them.
fn padded(bytes: &[u8]) -> [u8; 64]
    requires fits { length bytes.now ≤ 64 }
    ensures { result ≡ bytes.now ++ replicate (64 - length bytes.now) 0 }
{
    let mut place = [0; 64];
    place[..bytes.len()].copy_from_slice(bytes);
    place
}

impl PartialEq for Name {
    ghost eq = { pointwise nat_eq };

    ghost laws = { partial_equiv_from_equiv nat_list_eq_equiv };

    fn eq(&self, other: &Name) -> bool {
        self.as_bytes() == other.as_bytes()
    }
}

impl Eq for Name {
    ghost laws = { nat_list_eq_equiv };
}

impl PartialOrd for Name {
    ghost partial_cmp = { λ a b. Some (slice_cmp nat_cmp a b) };

    ghost laws = { texts_po };

    fn partial_cmp(&self, other: &Name) -> Option<Ordering> {
        Some(self.cmp(other))
    }
}

impl Ord for Name {
    ghost cmp = { slice_cmp nat_cmp };

    ghost total = { nat_list_cmp_total };

    ghost matches_partial_cmp = { λ a b. refl };

    ghost matches_eq = { texts_ties };

    fn cmp(&self, other: &Name) -> Ordering {
        self.as_bytes().cmp(other.as_bytes())
    }
}
