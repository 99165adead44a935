//! Reading and printing what header fields hold.
ghost use Rattle.std.specs.Prelude.{◌≡◌, ◌↔◌, ◌⊎◌, ℕ, List, IfOk, IfErr, IsErrOf, OnOk};
ghost use Rattle.std.specs.Option.{option_copied};
ghost use Rattle.std.specs.Fmt.{WritesOnOk};
ghost use Rattle.percent_encoding.specs.Percent as percent;
ghost use Rattle.std.specs.Prelude.{◌++◌, ◌<◌};
ghost use Rattle.percent_encoding.specs.AsciiSet.{contains};
ghost use Rattle.http_values.specs.Escapes.{is_escaped};
ghost use Rattle.std.specs.Borrow.{Bor};
ghost use Rattle.std.specs.Iterator.{IsFinite, Drains, Yields};
ghost use Rattle.std.specs.Fmt.{DisplaysOnOk};
ghost use Rattle.http_header.specs.FieldValue.{FieldValue};
ghost use Rattle.http_values.specs.CommaList.{comma_parts, values_parts, AreRead, AreTexts, AreOfSameTexts, later_output, list_output};
ghost use Rattle.http_values.specs.OneValue.{HasReading};

use crate::read::{FromText, ReadError};
use http_types::{HeaderValue, ParseError};
use percent_encoding::{AsciiSet, CONTROLS, ascii_set, percent_encode};
use std::alloc::Global;
use std::fmt::{self, Display};

/// The ASCII bytes that are escaped in the value of an extended parameter (RFC 5987, section
/// 3.2.1): the controls, the blank and the delimiters.
pub(crate) const HTTP_VALUE: AsciiSet = ascii_set!(
    CONTROLS
        .add(b' ')
        .add(b'"')
        .add(b'%')
        .add(b'\'')
        .add(b'(')
        .add(b')')
        .add(b'*')
        .add(b',')
        .add(b'/')
        .add(b':')
        .add(b';')
        .add(b'<')
        .add(b'-')
        .add(b'>')
        .add(b'?')
        .add(b'[')
        .add(b'\\')
        .add(b']')
        .add(b'{')
        .add(b'}')
);

/// Reads the text of a header's single value. `Header` comes exactly where there is no value, or
/// it has a byte that is neither a tab nor visible ASCII nor a blank, or is empty, or is the text
/// of nothing that is read.
pub fn from_one_raw_str<T: FromText>(
    alloc: Global,
    val: Option<&HeaderValue>,
) -> Result<T, ParseError>
    ensures ok { IfOk result (λ value. HasReading (λ text. T.reads text value) (option_copied val.entry)) }
    ensures header { IsErrOf result ParseError.Header ↔ ¬ (HasReading T.is_text (option_copied val.entry)) }
    ensures err { IfErr result (λ e. (e ≡ ParseError.Header) ⊎ (e ≡ ParseError.NoMemory)) }
{
    let Some(value) = val else {
        return Err(ParseError::Header);
    };
    let Ok(text) = value.to_str() else {
        return Err(ParseError::Header);
    };
    if text.is_empty() {
        return Err(ParseError::Header);
    }
    match T::from_text(alloc, text) {
        Ok(value) => Ok(value),
        Err(ReadError::Invalid) => Err(ParseError::Header),
        Err(ReadError::NoMemory) => Err(ParseError::NoMemory),
    }
}

// Reads the items of one text behind those that are there.
fn read_list<T: FromText>(alloc: Global, text: &str, items: &mut Vec<T>) -> Result<(), ParseError>
    ensures ok { OnOk result ((added : List T) × AreRead T.is_text T.reads (comma_parts text.now) added × (items.new.items ≡ items.old.items ++ added)) }
    ensures err { IfErr result (λ e. e ≡ ParseError.NoMemory) }
{
    for part in text.split(',') {
        let trimmed = part.trim();
        if trimmed.is_empty() {
            continue;
        }
        match T::from_text(alloc, trimmed) {
            Ok(item) => {
                if items.push(item).is_err() {
                    return Err(ParseError::NoMemory);
                }
            }
            Err(ReadError::Invalid) => {}
            Err(ReadError::NoMemory) => return Err(ParseError::NoMemory),
        }
    }
    Ok(())
}

/// Reads the items of all values of a header, each a list with commas (RFC 7230, section 7). Parts
/// that are empty or the text of nothing that is read are passed over. `Header` comes where a
/// value has a byte that is neither a tab nor visible ASCII nor a blank.
pub fn from_comma_delimited<'a, I: Iterator<Item = &'a HeaderValue>, T: FromText>(
    alloc: Global,
    all: I,
) -> Result<Vec<T>, ParseError>
    requires can { I.can_next all }
    requires ends { IsFinite (I.remaining all) }
    ensures ok { IfOk result (λ items. (values : List (Bor FieldValue)) × Drains I.next_gives all values × AreTexts values
        × AreRead T.is_text T.reads (values_parts values) items.items) }
    ensures header { IsErrOf result ParseError.Header → (values : List (Bor FieldValue)) × (rest : I) × Yields I.next_gives all values rest × ¬ (AreTexts values) }
    ensures err { IfErr result (λ e. (e ≡ ParseError.Header) ⊎ (e ≡ ParseError.NoMemory)) }
{
    let mut items = Vec::new(alloc);
    for value in all {
        let Ok(text) = value.to_str() else {
            return Err(ParseError::Header);
        };
        read_list(alloc, text, &mut items)?;
    }
    Ok(items)
}

// Writes each part behind a comma and a blank.
fn fmt_later<W: fmt::Write, T: fmt::Display>(f: &mut fmt::Formatter<W>, parts: &[T]) -> fmt::Result
    ensures { DisplaysOnOk W.write_str_gives f.old result (later_output T.output parts.now) f.new }
{
    for part in parts {
        f.write_str(", ")?;
        part.fmt(f)?;
    }
    Ok(())
}

/// Writes the parts with a comma and a blank between them.
pub fn fmt_comma_delimited<W: fmt::Write, T: fmt::Display>(
    f: &mut fmt::Formatter<W>,
    parts: &[T],
) -> fmt::Result
    ensures { DisplaysOnOk W.write_str_gives f.old result (list_output T.output parts.now) f.new }
{
    let Some((first, later)) = parts.split_first() else {
        return Ok(());
    };
    first.fmt(f)?;
    fmt_later(f, later)
}

/// Writes bytes as the value of an extended parameter has them (RFC 5987, section 3.2.1): a byte
/// that is no letter, digit or one of ``!#$&+.=@^_`|~`` as `%` and two hexadecimal digits.
pub fn http_percent_encode<W: fmt::Write>(f: &mut fmt::Formatter<W>, bytes: &[u8]) -> fmt::Result
    ensures { WritesOnOk W.write_str_gives f.old result (percent.percent_encode HTTP_VALUE bytes.now) f.new }
{
    percent_encode(bytes, HTTP_VALUE).fmt(f)
}

/// Writes an integer in decimal.
pub fn itoa_fmt<W: fmt::Write, V: itoa::Integer>(wr: &mut W, value: V) -> fmt::Result
    ensures { OnOk result (W.write_str_gives wr.old (V.text value) wr.new) }
{
    let mut buffer = itoa::Buffer::new();
    wr.write_str(buffer.format(value))
}

/// Of the ASCII bytes the controls, the blank and the delimiters are escaped, and no other.
pub fn escaped_bytes()
    ensures { (b : ℕ) → b < 128 → contains HTTP_VALUE b ≡ is_escaped b }
{}

/// The parts of a list say one list of items: two readings are as long as each other, and their
/// items at each place are those of one text.
pub fn list_is_unique<T: FromText>()
    ensures { ((text : List ℕ) (item : T) → T.reads text item → T.is_text text)
        → (parts : List (List ℕ)) (xs ys : List T) → AreRead T.is_text T.reads parts xs → AreRead T.is_text T.reads parts ys → AreOfSameTexts T.reads xs ys }
{}
