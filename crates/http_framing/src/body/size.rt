//! How large a body is.
ghost use Rattle.std.specs.Prelude.{◌≡◌, ◌⊎◌, ◌↔◌, IsTrue};

/// The size of a body, in bytes.
#[derive(Clone, Copy, Debug, PartialEq, Eq)]
pub enum BodySize {
    /// There is no body, and no length is told.
    None,
    /// So many bytes.
    Sized(u64),
    /// As many as come.
    Stream,
}

impl BodySize {
    /// A body of no bytes, whose length is told.
    pub const ZERO: Self = Self::Sized(0);

    /// Whether no byte comes.
    pub fn is_eof(&self) -> bool
        ensures { IsTrue result ↔ ((self.now ≡ BodySize.None) ⊎ (self.now ≡ BodySize.Sized 0)) }
    {
        matches!(self, BodySize::None | BodySize::Sized(0))
    }
}
