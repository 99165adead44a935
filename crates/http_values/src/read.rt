//! Reading a value from its text.
ghost use Rattle.std.specs.Prelude.{◌≡◌, ◌↔◌, ℕ, List, IfOk, IsErrOf, string_bytes};
ghost use Rattle.http_values.specs.AnyText.{IsAnyText};

use std::alloc::{AllocError, Global};
use thiserror::Error;

/// Why a text gave no value.
#[derive(Clone, Copy, Debug, PartialEq, Eq, Error)]
pub enum ReadError {
    /// The text is that of no value.
    #[error("the text is that of no value")]
    Invalid,
    /// The allocator had no memory.
    #[error("no memory is left")]
    NoMemory,
}

impl From<AllocError> for ReadError {
    ghost use Rattle.std.specs.Prelude.{◌≡◌};
    ghost use Rattle.http_values.specs.declared.read.ReadError.TheVariants.{NoMemory};

    ghost from_gives = { λ _ e. e ≡ NoMemory };

    fn from(_e: AllocError) -> ReadError {
        ReadError::NoMemory
    }
}

/// What is read from text.
pub trait FromText: Drop {
    // The text is that of the value.
    ghost reads: { List ℕ → Self → Type 0 };
    // The text is that of some value.
    ghost is_text: { List ℕ → Type 0 };

    /// The value of the text. `Invalid` comes exactly where the text is that of no value.
    fn from_text(alloc: Global, s: &str) -> Result<Self, ReadError>
        ensures ok { IfOk result (λ value. reads s.now value) }
        ensures readable { IfOk result (λ _. is_text s.now) }
        ensures invalid { IsErrOf result ReadError.Invalid ↔ ¬ (is_text s.now) };
}

impl FromText for String {
    ghost reads = { λ text value. string_bytes value ≡ text };

    ghost is_text = { IsAnyText };

    /// A copy of the text. Each text is that of a value.
    fn from_text(alloc: Global, s: &str) -> Result<String, ReadError> {
        Ok(String::from_str(alloc, s)?)
    }
}
