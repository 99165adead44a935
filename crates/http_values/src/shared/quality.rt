//! Qualities.
ghost use Rattle.std.specs.Prelude.{◌≡◌, ◌↔◌, ◌<◌, ◌≤◌, ℕ, refl, MatchOption, MatchResult, IfOk, IsErr, Some};
ghost use Rattle.std.specs.Prelude.{IsTrue, List};
ghost use Rattle.std.specs.Char.{is_ascii_digit};
ghost use Rattle.http_values.specs.Quality.{IsQualityText, ArePlaces, places_thousandths, quality_text};
ghost use Rattle.http_values.specs.Quality as spec;

use std::marker::Model;
use std::{fmt, str};
use thiserror::Error;

/// How much an item is wanted, in thousandths: the q-value of RFC 7231, section 5.3.1. Qualities
/// order by their thousandths.
#[derive(Clone, Copy, Debug, PartialEq, Eq, PartialOrd, Ord)]
pub struct Quality {
    thousandths: u16,
}

impl Model for Quality {
    ghost Value = { ℕ };

    ghost view = { λ q. q.thousandths };

    ghost inverse = { λ n. record { thousandths = n } };

    ghost invariant = { λ q. q.thousandths ≤ 1000 };
}

/// The number of thousandths is above 1000.
#[derive(Clone, Copy, Debug, PartialEq, Eq, Error)]
#[error("quality out of bounds")]
pub struct QualityOutOfBounds;

impl Quality {
    /// The greatest quality, which an item without a q-value has.
    pub const MAX: Quality = Quality { thousandths: 1000 };

    /// The least quality above zero.
    pub const MIN: Quality = Quality { thousandths: 1 };

    /// The quality of what is not wanted at all.
    pub const ZERO: Quality = Quality { thousandths: 0 };

    /// The quality in thousandths.
    pub fn thousandths(self) -> u16
        ensures value { result ≡ self }
        ensures most { result ≤ 1000 }
    {
        self.thousandths
    }
}

impl Default for Quality {
    ghost is_default = { λ q. q ≡ 1000 };

    /// The greatest quality.
    fn default() -> Quality {
        Quality::MAX
    }
}

impl TryFrom<u16> for Quality {
    ghost use Rattle.std.specs.Prelude.{◌≡◌, ◌<◌, ◌≤◌, MatchResult};

    type Error = QualityOutOfBounds;

    ghost try_from_gives = { λ n r. MatchResult r (λ q. (q ≡ n) × (n ≤ 1000)) (λ _. 1000 < n) };

    /// The quality of so many thousandths. The error comes exactly above 1000.
    fn try_from(thousandths: u16) -> Result<Quality, QualityOutOfBounds> {
        if thousandths <= 1000 {
            Ok(Quality { thousandths })
        } else {
            Err(QualityOutOfBounds)
        }
    }
}

/// The quality of so many thousandths, or `None` exactly where they are more than 1000.
pub fn q(thousandths: u16) -> Option<Quality>
    ensures { MatchOption result (1000 < thousandths) (λ quality. (quality ≡ thousandths) × (thousandths ≤ 1000)) }
{
    Quality::try_from(thousandths).ok()
}

// What a digit says.
fn digit(byte: u8) -> Option<u16>
    ensures { MatchOption result (¬ (IsTrue (is_ascii_digit byte))) (λ n. IsTrue (is_ascii_digit byte) × (n ≡ spec.digit byte) × (n ≤ 9)) }
{
    if byte.is_ascii_digit() {
        Some(u16::from(byte - b'0'))
    } else {
        None
    }
}

// The thousandths that three places after the point say.
fn places(digits: &[u8]) -> Option<u16>
    ensures { MatchOption result (¬ (ArePlaces digits.now)) (λ n. ArePlaces digits.now × (n ≡ places_thousandths digits.now) × (n ≤ 999)) }
{
    match digits {
        [] => Some(0),
        [a] => Some(digit(*a)? * 100),
        [a, b] => Some(digit(*a)? * 100 + digit(*b)? * 10),
        [a, b, c] => Some(digit(*a)? * 100 + digit(*b)? * 10 + digit(*c)?),
        _ => None,
    }
}

/// Reads a q-value: a digit, perhaps a point, and at most three digits after it. There is none
/// where the text is no such one, or says more than 1.
pub(crate) fn read_quality(text: &[u8]) -> Option<Quality>
    ensures { MatchOption result ((n : ℕ) → ¬ (IsQualityText text.now n)) (λ n. IsQualityText text.now n) }
{
    match text {
        [whole] => q(digit(*whole)? * 1000),
        [whole, b'.', rest @ ..] => q(digit(*whole)? * 1000 + places(rest)?),
        _ => None,
    }
}

impl fmt::Display for Quality {
    ghost use Rattle.std.specs.Prelude.{Some};
    ghost use Rattle.http_values.specs.Quality.{quality_text};

    ghost output = { λ q. Some (quality_text q) };

    fn fmt<W: fmt::Write>(&self, f: &mut fmt::Formatter<W>) -> fmt::Result {
        let n = self.thousandths;
        if n == 0 {
            return f.write_str("0");
        }
        if n == 1000 {
            return f.write_str("1");
        }
        let (a, b, c) = ((n / 100) as u8, (n / 10 % 10) as u8, (n % 10) as u8);
        let text = [b'0', b'.', b'0' + a, b'0' + b, b'0' + c];
        let len = if c != 0 {
            5
        } else if b != 0 {
            4
        } else {
            3
        };
        f.write_str(str::from_utf8(&text[..len]).map_err(|_| fmt::Error)?)
    }
}

/// A text is that of one quality at most.
pub fn quality_is_unique()
    ensures { (text : List ℕ) (m n : ℕ) → IsQualityText text m → IsQualityText text n → m ≡ n }
{}

/// What a quality prints is read as that quality.
pub fn printed_quality_is_read()
    ensures { (n : ℕ) → n ≤ 1000 → IsQualityText (quality_text n) n }
{}
