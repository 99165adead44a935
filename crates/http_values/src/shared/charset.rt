//! Character sets.
ghost use Rattle.std.specs.Prelude.{◌≡◌, ◌↔◌, ℕ, List, Some, MatchOption, IfOk, OnErr, IsOk, IsErrOf, map, string_bytes};
ghost use Rattle.std.specs.Char.{to_ascii_uppercase};
ghost use Rattle.http_values.specs.AnyText.{IsAnyText};
ghost use Rattle.http_values.specs.declared.shared.charset.Charset.{Charset as Set};
ghost use Rattle.http_values.specs.Charset.{IsKnown, IsNamed, IsNoneOf, IsCharsetText, SameCharset, charset_text, latin_labels, asian_labels, other_labels};

use crate::read::{FromText, ReadError};
use std::alloc::{AllocError, Global};
use std::fmt;

/// A character set, by its registered label (RFC 2978).
#[allow(non_camel_case_types)]
#[derive(Debug, Drop, PartialEq, Eq)]
pub enum Charset {
    /// US-ASCII
    Us_Ascii,
    /// ISO-8859-1
    Iso_8859_1,
    /// ISO-8859-2
    Iso_8859_2,
    /// ISO-8859-3
    Iso_8859_3,
    /// ISO-8859-4
    Iso_8859_4,
    /// ISO-8859-5
    Iso_8859_5,
    /// ISO-8859-6
    Iso_8859_6,
    /// ISO-8859-7
    Iso_8859_7,
    /// ISO-8859-8
    Iso_8859_8,
    /// ISO-8859-9
    Iso_8859_9,
    /// ISO-8859-10
    Iso_8859_10,
    /// Shift-JIS
    Shift_Jis,
    /// EUC-JP
    Euc_Jp,
    /// ISO-2022-KR
    Iso_2022_Kr,
    /// EUC-KR
    Euc_Kr,
    /// ISO-2022-JP
    Iso_2022_Jp,
    /// ISO-2022-JP-2
    Iso_2022_Jp_2,
    /// ISO-8859-6-E
    Iso_8859_6_E,
    /// ISO-8859-6-I
    Iso_8859_6_I,
    /// ISO-8859-8-E
    Iso_8859_8_E,
    /// ISO-8859-8-I
    Iso_8859_8_I,
    /// GB2312
    Gb2312,
    /// Big5
    Big5,
    /// KOI8-R
    Koi8_R,
    /// Another set, by its label in upper case.
    Ext(String),
}

impl Charset {
    // The label.
    fn label(&self) -> &str
        ensures { result.now ≡ charset_text self.now }
    {
        match self {
            Charset::Us_Ascii => "US-ASCII",
            Charset::Iso_8859_1 => "ISO-8859-1",
            Charset::Iso_8859_2 => "ISO-8859-2",
            Charset::Iso_8859_3 => "ISO-8859-3",
            Charset::Iso_8859_4 => "ISO-8859-4",
            Charset::Iso_8859_5 => "ISO-8859-5",
            Charset::Iso_8859_6 => "ISO-8859-6",
            Charset::Iso_8859_7 => "ISO-8859-7",
            Charset::Iso_8859_8 => "ISO-8859-8",
            Charset::Iso_8859_9 => "ISO-8859-9",
            Charset::Iso_8859_10 => "ISO-8859-10",
            Charset::Shift_Jis => "Shift-JIS",
            Charset::Euc_Jp => "EUC-JP",
            Charset::Iso_2022_Kr => "ISO-2022-KR",
            Charset::Euc_Kr => "EUC-KR",
            Charset::Iso_2022_Jp => "ISO-2022-JP",
            Charset::Iso_2022_Jp_2 => "ISO-2022-JP-2",
            Charset::Iso_8859_6_E => "ISO-8859-6-E",
            Charset::Iso_8859_6_I => "ISO-8859-6-I",
            Charset::Iso_8859_8_E => "ISO-8859-8-E",
            Charset::Iso_8859_8_I => "ISO-8859-8-I",
            Charset::Gb2312 => "GB2312",
            Charset::Big5 => "Big5",
            Charset::Koi8_R => "KOI8-R",
            Charset::Ext(label) => label.as_str(),
        }
    }

    /// An equal set, as `clone` gives it too. That of a known set takes no memory.
    pub fn copy(&self) -> Result<Charset, AllocError>
        ensures same { IfOk result (λ copy. SameCharset self.now copy) }
        ensures no_memory_needed { IsKnown self.now → IsOk result }
    {
        Ok(match self {
            Charset::Us_Ascii => Charset::Us_Ascii,
            Charset::Iso_8859_1 => Charset::Iso_8859_1,
            Charset::Iso_8859_2 => Charset::Iso_8859_2,
            Charset::Iso_8859_3 => Charset::Iso_8859_3,
            Charset::Iso_8859_4 => Charset::Iso_8859_4,
            Charset::Iso_8859_5 => Charset::Iso_8859_5,
            Charset::Iso_8859_6 => Charset::Iso_8859_6,
            Charset::Iso_8859_7 => Charset::Iso_8859_7,
            Charset::Iso_8859_8 => Charset::Iso_8859_8,
            Charset::Iso_8859_9 => Charset::Iso_8859_9,
            Charset::Iso_8859_10 => Charset::Iso_8859_10,
            Charset::Shift_Jis => Charset::Shift_Jis,
            Charset::Euc_Jp => Charset::Euc_Jp,
            Charset::Iso_2022_Kr => Charset::Iso_2022_Kr,
            Charset::Euc_Kr => Charset::Euc_Kr,
            Charset::Iso_2022_Jp => Charset::Iso_2022_Jp,
            Charset::Iso_2022_Jp_2 => Charset::Iso_2022_Jp_2,
            Charset::Iso_8859_6_E => Charset::Iso_8859_6_E,
            Charset::Iso_8859_6_I => Charset::Iso_8859_6_I,
            Charset::Iso_8859_8_E => Charset::Iso_8859_8_E,
            Charset::Iso_8859_8_I => Charset::Iso_8859_8_I,
            Charset::Gb2312 => Charset::Gb2312,
            Charset::Big5 => Charset::Big5,
            Charset::Koi8_R => Charset::Koi8_R,
            Charset::Ext(label) => Charset::Ext(label.clone()?),
        })
    }
}

impl Clone for Charset {
    ghost is_clone = { λ set copy. SameCharset set copy };

    fn clone(&self) -> Result<Charset, AllocError> {
        self.copy()
    }
}

// The set of ISO 8859 or of ASCII that the text names.
fn latin(text: &str) -> Option<Charset>
    ensures { MatchOption result (IsNoneOf text.now latin_labels) (λ set. IsKnown set × IsNamed text.now (charset_text set)) }
{
    if text.eq_ignore_ascii_case("US-ASCII") {
        Some(Charset::Us_Ascii)
    } else if text.eq_ignore_ascii_case("ISO-8859-1") {
        Some(Charset::Iso_8859_1)
    } else if text.eq_ignore_ascii_case("ISO-8859-2") {
        Some(Charset::Iso_8859_2)
    } else if text.eq_ignore_ascii_case("ISO-8859-3") {
        Some(Charset::Iso_8859_3)
    } else if text.eq_ignore_ascii_case("ISO-8859-4") {
        Some(Charset::Iso_8859_4)
    } else if text.eq_ignore_ascii_case("ISO-8859-5") {
        Some(Charset::Iso_8859_5)
    } else if text.eq_ignore_ascii_case("ISO-8859-6") {
        Some(Charset::Iso_8859_6)
    } else if text.eq_ignore_ascii_case("ISO-8859-7") {
        Some(Charset::Iso_8859_7)
    } else if text.eq_ignore_ascii_case("ISO-8859-8") {
        Some(Charset::Iso_8859_8)
    } else if text.eq_ignore_ascii_case("ISO-8859-9") {
        Some(Charset::Iso_8859_9)
    } else if text.eq_ignore_ascii_case("ISO-8859-10") {
        Some(Charset::Iso_8859_10)
    } else {
        None
    }
}

// The Asian set that the text names.
fn asian(text: &str) -> Option<Charset>
    ensures { MatchOption result (IsNoneOf text.now asian_labels) (λ set. IsKnown set × IsNamed text.now (charset_text set)) }
{
    if text.eq_ignore_ascii_case("Shift-JIS") {
        Some(Charset::Shift_Jis)
    } else if text.eq_ignore_ascii_case("EUC-JP") {
        Some(Charset::Euc_Jp)
    } else if text.eq_ignore_ascii_case("ISO-2022-KR") {
        Some(Charset::Iso_2022_Kr)
    } else if text.eq_ignore_ascii_case("EUC-KR") {
        Some(Charset::Euc_Kr)
    } else if text.eq_ignore_ascii_case("ISO-2022-JP") {
        Some(Charset::Iso_2022_Jp)
    } else if text.eq_ignore_ascii_case("ISO-2022-JP-2") {
        Some(Charset::Iso_2022_Jp_2)
    } else if text.eq_ignore_ascii_case("GB2312") {
        Some(Charset::Gb2312)
    } else if text.eq_ignore_ascii_case("Big5") {
        Some(Charset::Big5)
    } else {
        None
    }
}

// The set of the others that the text names.
fn other(text: &str) -> Option<Charset>
    ensures { MatchOption result (IsNoneOf text.now other_labels) (λ set. IsKnown set × IsNamed text.now (charset_text set)) }
{
    if text.eq_ignore_ascii_case("ISO-8859-6-E") {
        Some(Charset::Iso_8859_6_E)
    } else if text.eq_ignore_ascii_case("ISO-8859-6-I") {
        Some(Charset::Iso_8859_6_I)
    } else if text.eq_ignore_ascii_case("ISO-8859-8-E") {
        Some(Charset::Iso_8859_8_E)
    } else if text.eq_ignore_ascii_case("ISO-8859-8-I") {
        Some(Charset::Iso_8859_8_I)
    } else if text.eq_ignore_ascii_case("KOI8-R") {
        Some(Charset::Koi8_R)
    } else {
        None
    }
}

impl FromText for Charset {
    ghost reads = { IsCharsetText };

    ghost is_text = { IsAnyText };

    /// Reads a label, in either case. One that is not known is kept in upper case; a known one takes no memory.
    fn from_text(alloc: Global, s: &str) -> Result<Charset, ReadError>
        ensures ok { IfOk result (λ set. IsCharsetText s.now set) }
        ensures readable { IfOk result (λ _. IsAnyText s.now) }
        ensures invalid { IsErrOf result ReadError.Invalid ↔ ¬ (IsAnyText s.now) }
        ensures no_memory_needed { OnErr result (IsNoneOf s.now latin_labels × IsNoneOf s.now asian_labels × IsNoneOf s.now other_labels) }
    {
        if let Some(set) = latin(s) {
            return Ok(set);
        }
        if let Some(set) = asian(s) {
            return Ok(set);
        }
        if let Some(set) = other(s) {
            return Ok(set);
        }
        let mut label = String::from_str(alloc, s)?;
        label.make_ascii_uppercase();
        Ok(Charset::Ext(label))
    }
}

impl fmt::Display for Charset {
    ghost output = { λ set. Some (charset_text set) };

    fn fmt<W: fmt::Write>(&self, f: &mut fmt::Formatter<W>) -> fmt::Result {
        f.write_str(self.label())
    }
}

/// A set that is read prints the text, but for the case of its letters. So a text names one set.
pub fn charset_keeps_its_label()
    ensures { (text : List ℕ) (set : Set) → IsCharsetText text set → IsNamed text (charset_text set) }
{}

/// The label of a known set is read as that set.
pub fn known_label_is_read()
    ensures { (set : Set) → IsKnown set → IsCharsetText (charset_text set) set }
{}
