//! Texts of values: each is read, said by its parts and printed again.
use http_types::{HeaderValue, NoMemory, ParseError};
use http_values::{
    Charset, ContentEncoding, ExtendedValue, FromText, HttpDate, LanguageTag, Mime, Quality,
    QualityItem, ReadError, fmt_comma_delimited, from_comma_delimited, from_one_raw_str,
    http_percent_encode, parse_extended_value, q,
};
use std::alloc::Global;
use std::fmt::{self, Display};
use vectors::{Case, Report};

#[derive(Drop)]
struct Escaped<'a>(&'a [u8]);

impl fmt::Display for Escaped<'_> {
    fn fmt<W: fmt::Write>(&self, f: &mut fmt::Formatter<W>) -> fmt::Result {
        http_percent_encode(f, self.0)
    }
}

/// `quality N`: the quality of so many thousandths, printed.
pub fn quality(alloc: Global, case: &Case<'_>, found: &mut Report) -> Result<bool, NoMemory> {
    match quality_of(case, 0) {
        Some(quality) => found.quote_printed(alloc, &quality),
        None => found.put_text("none"),
    }
    Ok(true)
}

#[derive(Drop)]
struct Listed<'a>(&'a [Quality]);

impl fmt::Display for Listed<'_> {
    fn fmt<W: fmt::Write>(&self, f: &mut fmt::Formatter<W>) -> fmt::Result {
        fmt_comma_delimited(f, self.0)
    }
}

/// `qualities N ..`: qualities of so many thousandths, in one list.
pub fn qualities(alloc: Global, case: &Case<'_>, found: &mut Report) -> Result<bool, NoMemory> {
    let mut all = Vec::new(alloc);
    for index in 0..case.arguments.len() {
        let Some(quality) = quality_of(case, index) else {
            return Ok(false);
        };
        all.push(quality)?;
    }
    found.quote_printed(alloc, &Listed(all.as_slice()));
    Ok(true)
}

fn quality_of(case: &Case<'_>, index: usize) -> Option<Quality> {
    let thousandths = case.number(index)?;
    if thousandths > 65535 {
        return None;
    }
    q(thousandths as u16)
}

/// `item TEXT`: an item with its quality: the item, the thousandths, and the text that it prints.
pub fn item(alloc: Global, case: &Case<'_>, found: &mut Report) -> Result<bool, NoMemory> {
    let Some(text) = case.text(0) else {
        return Ok(false);
    };
    match QualityItem::<String>::from_text(alloc, text) {
        Ok(read) => put_item(alloc, &read, found),
        Err(error) => put_refusal(error, found),
    }
    Ok(true)
}

fn put_item(alloc: Global, read: &QualityItem<String>, found: &mut Report) {
    found.put_quoted(read.item.as_bytes());
    found.put_text(" ");
    found.put_decimal(u64::from(read.quality.thousandths()));
    found.put_text(" ");
    found.quote_printed(alloc, read);
}

/// `texts VALUE ..`: the items of header values that are lists of texts.
pub fn texts(alloc: Global, case: &Case<'_>, found: &mut Report) -> Result<bool, NoMemory> {
    put_list::<String>(alloc, case, found)
}

/// `codings VALUE ..`: the content codings that header values list, without those that are unknown.
pub fn codings(alloc: Global, case: &Case<'_>, found: &mut Report) -> Result<bool, NoMemory> {
    put_list::<ContentEncoding>(alloc, case, found)
}

fn put_list<T: FromText + Display>(
    alloc: Global,
    case: &Case<'_>,
    found: &mut Report,
) -> Result<bool, NoMemory> {
    let Some(values) = header_values(alloc, case)? else {
        return Ok(false);
    };
    let read: Result<Vec<T>, ParseError> = from_comma_delimited(alloc, values.iter());
    match read {
        Ok(items) => {
            for (index, item) in items.iter().enumerate() {
                if index > 0 {
                    found.put_text(" ");
                }
                found.quote_printed(alloc, item);
            }
        }
        Err(ParseError::NoMemory) => found.lose(),
        Err(_) => found.put_text("invalid"),
    }
    Ok(true)
}

fn header_values(alloc: Global, case: &Case<'_>) -> Result<Option<Vec<HeaderValue>>, NoMemory> {
    let mut values = Vec::new(alloc);
    for argument in case.arguments.iter() {
        match http_types::header::value_of_bytes(alloc, argument.as_slice()) {
            Ok(value) => values.push(value)?,
            Err(_) => return Ok(None),
        }
    }
    Ok(Some(values))
}

/// `coding VALUE` or `coding`: the content coding that a single header value names.
pub fn coding(alloc: Global, case: &Case<'_>, found: &mut Report) -> Result<bool, NoMemory> {
    let Some(values) = header_values(alloc, case)? else {
        return Ok(false);
    };
    let read: Result<ContentEncoding, ParseError> = from_one_raw_str(alloc, values.first());
    match read {
        Ok(coding) => found.quote_printed(alloc, &coding),
        Err(ParseError::NoMemory) => found.lose(),
        Err(_) => found.put_text("invalid"),
    }
    Ok(true)
}

/// `escape BYTES`: the bytes with delimiters escaped.
pub fn escape(alloc: Global, case: &Case<'_>, found: &mut Report) -> Result<bool, NoMemory> {
    found.quote_printed(alloc, &Escaped(case.argument(0)));
    Ok(true)
}

/// `charset TEXT`: the label of the character set.
pub fn charset(alloc: Global, case: &Case<'_>, found: &mut Report) -> Result<bool, NoMemory> {
    put_read::<Charset>(alloc, case, found)
}

/// `tag TEXT`: the language tag, printed.
pub fn tag(alloc: Global, case: &Case<'_>, found: &mut Report) -> Result<bool, NoMemory> {
    put_read::<LanguageTag>(alloc, case, found)
}

fn put_read<T: FromText + Display>(
    alloc: Global,
    case: &Case<'_>,
    found: &mut Report,
) -> Result<bool, NoMemory> {
    let Some(text) = case.text(0) else {
        return Ok(false);
    };
    match T::from_text(alloc, text) {
        Ok(value) => found.quote_printed(alloc, &value),
        Err(error) => put_refusal(error, found),
    }
    Ok(true)
}

/// `date TEXT`: seconds since the start of 1970, and the date as it prints.
pub fn date(alloc: Global, case: &Case<'_>, found: &mut Report) -> Result<bool, NoMemory> {
    let Some(text) = case.text(0) else {
        return Ok(false);
    };
    match HttpDate::from_text(alloc, text) {
        Ok(date) => {
            found.put_decimal(date.unix_secs());
            found.put_text(" ");
            found.quote_printed(alloc, &date);
        }
        Err(error) => put_refusal(error, found),
    }
    Ok(true)
}

/// `extended TEXT`: the character set, the bytes, and the text that the value and its copy print.
pub fn extended(alloc: Global, case: &Case<'_>, found: &mut Report) -> Result<bool, NoMemory> {
    let Some(text) = case.text(0) else {
        return Ok(false);
    };
    match parse_extended_value(alloc, text) {
        Ok(value) => put_extended(alloc, &value, found),
        Err(ParseError::NoMemory) => found.lose(),
        Err(_) => found.put_text("invalid"),
    }
    Ok(true)
}

fn put_extended(alloc: Global, value: &ExtendedValue, found: &mut Report) {
    found.quote_printed(alloc, &value.charset);
    found.put_text(" ");
    found.put_quoted(value.value.as_slice());
    found.put_text(" ");
    match value.copy() {
        Ok(copy) => found.quote_printed(alloc, &copy),
        Err(_) => found.lose(),
    }
}

/// `media-type TEXT NAME`: type, subtype, the parameter of the name, and the media type as it prints.
pub fn media_type(alloc: Global, case: &Case<'_>, found: &mut Report) -> Result<bool, NoMemory> {
    let (Some(text), Some(name)) = (case.text(0), case.text(1)) else {
        return Ok(false);
    };
    match Mime::from_text(alloc, text) {
        Ok(mime) => put_mime(alloc, &mime, name, found),
        Err(error) => put_refusal(error, found),
    }
    Ok(true)
}

/// The parts of a media type.
pub fn put_mime(alloc: Global, mime: &Mime, name: &str, found: &mut Report) {
    found.put_quoted(mime.type_().as_bytes());
    found.put_text(" ");
    found.put_quoted(mime.subtype().as_bytes());
    found.put_text(" ");
    match mime.get_param(name) {
        Some(value) => found.put_quoted(value.as_bytes()),
        None => found.put_text("none"),
    }
    found.put_text(" ");
    found.quote_printed(alloc, mime);
}

fn put_refusal(error: ReadError, found: &mut Report) {
    match error {
        ReadError::Invalid => found.put_text("invalid"),
        ReadError::NoMemory => found.lose(),
    }
}
