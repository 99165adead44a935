//! The marks that were seen in a list of few names.
ghost use Rattle.std.specs.Prelude.{◌≡◌, ◌%◌, ℕ, false, true};
ghost use Rattle.std.specs.Int.{bit_at};

/// Marks, by a bit for all those that are the same by 64: a mark whose bit isn't set was not seen.
#[derive(Clone, Copy, Debug)]
pub(crate) struct Seen {
    bits: u64,
}

impl Seen {
    /// No mark.
    pub(super) fn none() -> Seen {
        Seen { bits: 0 }
    }

    /// Whether the mark may be there: if not, it is not.
    #[inline(always)]
    pub(super) fn may_have(self, mark: u64) -> bool
        ensures { result ≡ false → bit_at self.bits (mark % 64) ≡ 0 }
    {
        (self.bits >> (mark % 64)) & 1 == 1
    }

    /// The same marks with one more.
    #[inline(always)]
    pub(super) fn with(self, mark: u64) -> Seen
        ensures kept { (k : ℕ) → bit_at self.bits k ≡ 1 → bit_at result.bits k ≡ 1 }
        ensures added { bit_at result.bits (mark % 64) ≡ 1 }
    {
        Seen {
            bits: self.bits | (1 << (mark % 64)),
        }
    }
}
