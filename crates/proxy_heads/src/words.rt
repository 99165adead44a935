//! Words of lists with commas (RFC 7230, section 7).
ghost use Rattle.std.specs.Prelude.{◌≡◌, ◌∷◌, [], ◌<◌, length, reverse, bytes_eq, MatchOption};
ghost use Rattle.std.specs.List.{position};
ghost use Rattle.httparse.specs.Grammar.{is_ows, skip_ows, trim_ows};
ghost use Rattle.http_header.specs.Token.{lowercase};
ghost use Rattle.model_proxy.specs.HopNames.{words_in, is_among};
ghost use Rattle.proxy_heads.specs.Words.{is_comma, word_of, listed_words};

use http_header::HeaderValue;

/// Whether one of the values lists the word, which is in lower case.
pub(crate) fn lists(values: &[HeaderValue], word: &[u8]) -> bool
    requires { lowercase word.now ≡ word.now }
    ensures { result ≡ is_among word.now (listed_words values.now) }
{
    let mut rest = values;
    while let Some((value, tail)) = rest.split_first() {
        if has_word(value.as_bytes(), word) {
            return true;
        }
        rest = tail;
    }
    false
}

// Whether the list has the word.
fn has_word(list: &[u8], word: &[u8]) -> bool
    requires { lowercase word.now ≡ word.now }
    ensures { result ≡ is_among word.now (words_in list.now) }
{
    let mut rest = list;
    while let Some((first, others)) = split_at_comma(rest) {
        if is_word(first, word) {
            return true;
        }
        rest = others;
    }
    is_word(rest, word)
}

// Whether the text is the word, whatever its case.
fn is_word(text: &[u8], word: &[u8]) -> bool
    requires { lowercase word.now ≡ word.now }
    ensures { result ≡ bytes_eq word.now (word_of text.now) }
{
    trimmed(text).eq_ignore_ascii_case(word)
}

/// The bytes before the first comma of the list, which are its first word, and those behind it.
pub(crate) fn split_at_comma(list: &[u8]) -> Option<(&[u8], &[u8])>
    ensures { MatchOption result (words_in list.now ≡ word_of list.now ∷ [])
        (λ parts. (length parts.1.now < length list.now) × (words_in list.now ≡ word_of parts.0.now ∷ words_in parts.1.now)) }
{
    match first_comma(list) {
        Some(at) => {
            let (first, behind) = list.split_at(at);
            Some((first, &behind[1..]))
        }
        None => None,
    }
}

fn first_comma(list: &[u8]) -> Option<usize>
    ensures { result ≡ position is_comma list.now }
{
    list.iter().position(|byte| *byte == b',')
}

/// The text without the white space around it.
pub(crate) fn trimmed(text: &[u8]) -> &[u8]
    ensures { result.now ≡ trim_ows text.now }
{
    without_last(without_first(text))
}

// The text from its first byte on that is no white space.
fn without_first(text: &[u8]) -> &[u8]
    ensures { result.now ≡ skip_ows text.now }
{
    let mut rest = text;
    while let Some((byte, tail)) = rest.split_first() {
        if !is_white_space(*byte) {
            return rest;
        }
        rest = tail;
    }
    rest
}

// The text up to its last byte that is no white space.
fn without_last(text: &[u8]) -> &[u8]
    ensures { result.now ≡ reverse (skip_ows (reverse text.now)) }
{
    let mut rest = text;
    while let Some((byte, front)) = rest.split_last() {
        if !is_white_space(*byte) {
            return rest;
        }
        rest = front;
    }
    rest
}

// A blank or a tab.
fn is_white_space(byte: u8) -> bool
    ensures { result ≡ is_ows byte }
{
    byte == b' ' || byte == b'\t'
}
