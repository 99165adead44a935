//! Header values as texts.
ghost use Rattle.std.specs.Prelude.{◌≡◌, option_copied};
ghost use Rattle.http_types.specs.HttpMessage.{begins_with, has_word, text_of, first_text, media_type};

use crate::{HeaderMap, HeaderName, HeaderValue};

// The first value of the name, where it is there and is a text.
pub(crate) fn first_text(headers: &HeaderMap, name: HeaderName) -> Option<&str>
    ensures { option_copied result ≡ first_text headers.now name }
{
    match headers.get(name) {
        Some(value) => text_of(value),
        None => None,
    }
}

// The value as a text, where all of its bytes are visible ASCII, spaces and tabs.
pub(crate) fn text_of(value: &HeaderValue) -> Option<&str>
    ensures { option_copied result ≡ text_of value.now.bytes }
{
    value.to_str().ok()
}

// What stands before the first semicolon, without the white space around it.
pub(crate) fn media_type(text: &str) -> &str
    ensures { result.now ≡ media_type text.now }
{
    match text.split_once(';') {
        Some((front, _)) => front.trim(),
        None => text.trim(),
    }
}

/// Whether the word stands somewhere in the text, whatever the case of both.
pub fn has_word(text: &[u8], word: &[u8]) -> bool
    ensures { result ≡ has_word word.now text.now }
{
    let mut rest = text;
    while let Some((_, tail)) = rest.split_first() {
        if begins_with(rest, word) {
            return true;
        }
        rest = tail;
    }
    begins_with(rest, word)
}

// Whether the text begins with the word, whatever the case of both.
fn begins_with(text: &[u8], word: &[u8]) -> bool
    ensures { result ≡ begins_with word.now text.now }
{
    let front = &text[..word.len().min(text.len())];
    front.eq_ignore_ascii_case(word)
}
