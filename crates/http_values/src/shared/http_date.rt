//! Dates.
ghost use Rattle.std.specs.Prelude.{◌≡◌, ◌↔◌, ◌<◌, ◌≤◌, ℕ, List, Some, MatchOption, IfOk, IfErr, IsErrOf};
ghost use Rattle.http_header.specs.FieldValue.{FieldValue, plain_value};
ghost use Rattle.httpdate.specs.Date.{IsDateText};
ghost use Rattle.http_values.specs.declared.shared.http_date.HttpDate.{HttpDate as Date};
ghost use Rattle.http_values.specs.HttpDate.{unix_secs, http_date_text, IsHttpDateText};

use crate::read::{FromText, ReadError};
use http_types::HeaderValue;
use http_types::header::{TryIntoHeaderValue, ValueError, value_of_bytes};
use std::alloc::Global;
use std::fmt::{self, Display};

/// A second from 1970 to 9999, as header fields write it (RFC 7231, section 7.1.1.1). Dates order
/// as time does.
#[derive(Clone, Copy, Debug, PartialEq, Eq, PartialOrd, Ord)]
pub struct HttpDate {
    date: httpdate::HttpDate,
}

impl HttpDate {
    /// The date so many seconds after the start of 1970, or `None` exactly from the year 10000 on.
    pub fn from_unix_secs(secs: u64) -> Option<HttpDate>
        ensures { MatchOption result (253402300800 ≤ secs) (λ d. (unix_secs d ≡ secs) × (secs < 253402300800)) }
    {
        match httpdate::HttpDate::from_unix_secs(secs) {
            Ok(date) => Some(HttpDate { date }),
            Err(_) => None,
        }
    }

    /// The seconds since the start of 1970.
    pub fn unix_secs(&self) -> u64
        ensures value { result ≡ unix_secs self.now }
        ensures bound { result < 253402300800 }
    {
        self.date.unix_secs()
    }
}

// The date that an ASCII text shows.
fn read_date(text: &[u8]) -> Option<HttpDate>
    ensures { MatchOption result ((d : Date) → ¬ (IsDateText text.now d.date)) (λ d. IsDateText text.now d.date) }
{
    match httpdate::HttpDate::parse_ascii(text) {
        Ok(date) => Some(HttpDate { date }),
        Err(_) => None,
    }
}

impl FromText for HttpDate {
    ghost reads = { IsHttpDateText };

    ghost is_text = { λ text. (d : Date) × IsHttpDateText text d };

    /// Reads a date in any of the three formats, with white space around it. No memory is needed.
    fn from_text(_alloc: Global, s: &str) -> Result<HttpDate, ReadError>
        ensures ok { IfOk result (λ date. IsHttpDateText s.now date) }
        ensures readable { IfOk result (λ _. (d : Date) × IsHttpDateText s.now d) }
        ensures invalid { IsErrOf result ReadError.Invalid ↔ ¬ ((d : Date) × IsHttpDateText s.now d) }
        ensures no_memory_needed { IfErr result (λ e. e ≡ ReadError.Invalid) }
    {
        if !s.is_ascii() {
            return Err(ReadError::Invalid);
        }
        match read_date(s.trim().as_bytes()) {
            Some(date) => Ok(date),
            None => Err(ReadError::Invalid),
        }
    }
}

impl fmt::Display for HttpDate {
    ghost output = { λ d. Some (http_date_text d) };

    fn fmt<W: fmt::Write>(&self, f: &mut fmt::Formatter<W>) -> fmt::Result {
        self.date.fmt(f)
    }
}

impl TryIntoHeaderValue for HttpDate {
    ghost field_value = { λ d. plain_value (http_date_text d) };

    fn try_into_value(self, alloc: Global) -> Result<HeaderValue, ValueError> {
        value_of_bytes(alloc, &self.date.to_bytes())
    }
}

/// A text shows one second at most.
pub fn http_date_is_unique()
    ensures { (text : List ℕ) (a b : Date) → IsHttpDateText text a → IsHttpDateText text b → unix_secs a ≡ unix_secs b }
{}

/// What a date prints shows that date.
pub fn printed_date_shows_it()
    ensures { (d : Date) → IsDateText (http_date_text d) d.date }
{}

/// What a date prints is read as that date.
pub fn printed_date_is_read()
    ensures { (d : Date) → IsHttpDateText (http_date_text d) d }
{}
