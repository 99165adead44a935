//! What the values of the lines say that frame a body or ask something of the connection
//! (RFC 7230, sections 3.3 and 6.1). Values come as a head's reading gives them, without the white
//! space around them.
ghost use Rattle.std.specs.Prelude.{◌≡◌, option_map};
ghost use Rattle.http_header.specs.Token.{lowercase};
ghost use Rattle.httparse.specs.Grammar.{trim_ows};
ghost use Rattle.model_h1.specs.LengthTable.{length_value, named_type, says};
ghost use Rattle.h1_decoder.specs.HeadItem.{connection_type_of};

use http_types::ConnectionType;

/// The number of bytes that a Content-Length spells (RFC 7230, section 3.3.2): digits alone, at
/// least one, below 2^64.
pub fn content_length(value: &[u8]) -> Option<u64>
    ensures { result ≡ length_value value.now }
{
    if value.is_empty() {
        return None;
    }
    let mut length = 0u64;
    for byte in value {
        if !byte.is_ascii_digit() {
            return None;
        }
        length = length
            .checked_mul(10)?
            .checked_add(u64::from(*byte - b'0'))?;
    }
    Some(length)
}

/// The connection type that a value names, if it is one of three words (RFC 7230, section 6.1).
pub(crate) fn connection_type(value: &[u8]) -> Option<ConnectionType>
    requires { trim_ows value.now ≡ value.now }
    ensures { result ≡ option_map connection_type_of (named_type value.now) }
{
    if is_word(value, b"close") {
        Some(ConnectionType::Close)
    } else if is_word(value, b"keep-alive") {
        Some(ConnectionType::KeepAlive)
    } else if is_word(value, b"upgrade") {
        Some(ConnectionType::Upgrade)
    } else {
        None
    }
}

/// Whether a value is this word, which is in lower case, whatever the value's case.
pub(crate) fn is_word(value: &[u8], word: &[u8]) -> bool
    requires trimmed { trim_ows value.now ≡ value.now }
    requires lower { lowercase word.now ≡ word.now }
    ensures { result ≡ says value.now word.now }
{
    value.eq_ignore_ascii_case(word)
}
