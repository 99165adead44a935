//! Words in lists with commas (RFC 9110, section 5.6.1).
ghost use Rattle.std.specs.Prelude.{◌≡◌, ◌≤◌, ℕ, length};
ghost use Rattle.httparse.specs.Grammar.{is_ows, skip_ows};
ghost use Rattle.h1_strict.specs.Options.{begins_with, is_element_end, begins_with_element, has_later_element, has_element, lists};

use http_header::HeaderValue;

/// Whether one of the lines has the word as an element.
pub(crate) fn lists(values: &[HeaderValue], word: &[u8]) -> bool
    ensures { result ≡ lists word.now values.now }
{
    let mut rest = values;
    while let Some((value, tail)) = rest.split_first() {
        if has_element(value.as_bytes(), word) {
            return true;
        }
        rest = tail;
    }
    false
}

/// Whether an element of the list is the word, whatever the case of both.
fn has_element(text: &[u8], word: &[u8]) -> bool
    ensures { result ≡ has_element word.now text.now }
{
    begins_with_element(text, word) || has_later_element(text, word)
}

/// Whether an element that follows a comma is the word.
fn has_later_element(text: &[u8], word: &[u8]) -> bool
    ensures { result ≡ has_later_element word.now text.now }
{
    let mut rest = text;
    while let Some((byte, tail)) = rest.split_first() {
        if *byte == b',' && begins_with_element(tail, word) {
            return true;
        }
        rest = tail;
    }
    false
}

/// Whether the first element is the word.
fn begins_with_element(text: &[u8], word: &[u8]) -> bool
    ensures { result ≡ begins_with_element word.now text.now }
{
    let text = skip_white_space(text);
    if !begins_with(text, word) {
        return false;
    }
    is_element_end(&text[word.len().min(text.len())..])
}

/// The text from its first byte on that is no white space.
fn skip_white_space(text: &[u8]) -> &[u8]
    ensures { result.now ≡ skip_ows text.now }
{
    let mut rest = text;
    while let Some((byte, tail)) = rest.split_first() {
        if !is_white_space(*byte) {
            return rest;
        }
        rest = tail;
    }
    rest
}

/// Whether only white space stands before the next comma, or before the end where there is none.
fn is_element_end(text: &[u8]) -> bool
    ensures { result ≡ is_element_end text.now }
{
    let mut rest = text;
    while let Some((byte, tail)) = rest.split_first() {
        if *byte == b',' {
            return true;
        }
        if !is_white_space(*byte) {
            return false;
        }
        rest = tail;
    }
    true
}

/// Whether the text begins with the word, whatever the case of both.
fn begins_with(text: &[u8], word: &[u8]) -> bool
    ensures { result ≡ begins_with word.now text.now }
{
    let front = &text[..word.len().min(text.len())];
    front.eq_ignore_ascii_case(word)
}

/// A blank or a tab.
fn is_white_space(byte: u8) -> bool
    ensures { result ≡ is_ows byte }
{
    byte == b' ' || byte == b'\t'
}
