//! Values of header fields, after the module `header` of actix-http: each with the text that stands for it.
//!
//! A value is read by [`FromText::from_text`] and printed by `Display`. What a text stands for is a relation of
//! `specs/`, written from the standard's grammar; a reader answers a value of that relation, and `Invalid` exactly where
//! there is none. The laws beside the values say that a text stands for one value, and that what is printed is read as
//! the same value again.
//!
//! A worked example: the text of an item with a quality.
//!
//! ```
//! let item = QualityItem::<String>::from_text(alloc, "gzip;q=0.30")?;
//! // item.item is `gzip`, item.quality is q(300)
//! let text = item.to_string(alloc)?;
//! // text is `gzip; q=0.3`
//! let refused = QualityItem::<String>::from_text(alloc, "gzip;q=1.5");
//! // Err(ReadError::Invalid): a q-value says at most 1
//! ```
#![tactic(auto)]

mod header;
mod read;
mod shared;
mod utils;

pub use header::{Header, get_header, mime_type};
pub use read::{FromText, ReadError};
pub use shared::{
    Charset, ContentEncoding, ContentEncodingParseError, ExtendedValue, HttpDate, LanguageTag,
    Mime, Quality, QualityItem, QualityOutOfBounds, parse_extended_value, q,
};
pub use utils::{
    fmt_comma_delimited, from_comma_delimited, from_one_raw_str, http_percent_encode, itoa_fmt,
};
