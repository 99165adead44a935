//! Values that many header fields share.
pub(crate) mod charset;
pub(crate) mod content_encoding;
pub(crate) mod extended;
pub(crate) mod http_date;
pub(crate) mod language_tag;
pub(crate) mod mime;
pub(crate) mod printed;
pub(crate) mod quality;
pub(crate) mod quality_item;

pub use charset::Charset;
pub use content_encoding::{ContentEncoding, ContentEncodingParseError};
pub use extended::{ExtendedValue, parse_extended_value};
pub use http_date::HttpDate;
pub use language_tag::LanguageTag;
pub use mime::Mime;
pub use quality::{Quality, QualityOutOfBounds, q};
pub use quality_item::QualityItem;
