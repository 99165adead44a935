//! Texts of hosts (RFC 9110, section 7.2).
ghost use Rattle.std.specs.Prelude.{◌≡◌, ◌==◌};
ghost use Rattle.std.specs.List.{list_any};
ghost use Rattle.h1_strict.specs.Host.{is_mark, is_name_byte, begins_with_hex, is_port, is_named_host, is_address_byte, is_port_part, is_address_host, is_bracketed, is_host, has_port};

/// Whether the text is a host, with or without a port, and no port alone.
pub fn is_host(text: &[u8]) -> bool
    ensures { result ≡ is_host text.now }
{
    match text.split_first() {
        None => true,
        Some((b'[', rest)) => is_bracketed(rest),
        Some((b':', _)) => false,
        Some(_) => is_named_host(text),
    }
}

/// Whether a host with digits after its last colon, which isn't its first byte, is there.
pub(crate) fn has_port(text: &[u8]) -> bool
    ensures { result ≡ has_port text.now }
{
    match (text.first(), text.last()) {
        (Some(first), Some(last)) => *first != b':'
            && has_byte(text, b':')
            && last.is_ascii_digit(),
        _ => false,
    }
}

/// Whether the byte stands in the text.
pub(crate) fn has_byte(text: &[u8], byte: u8) -> bool
    ensures { result ≡ list_any (λ b. b == byte) text.now }
{
    let mut rest = text;
    while let Some((first, tail)) = rest.split_first() {
        if *first == byte {
            return true;
        }
        rest = tail;
    }
    false
}

fn is_named_host(text: &[u8]) -> bool
    ensures { result ≡ is_named_host text.now }
{
    let mut rest = text;
    while let Some((byte, tail)) = rest.split_first() {
        if *byte == b':' {
            return is_port(tail);
        }
        if !is_name_byte(*byte) && !(*byte == b'%' && begins_with_hex(tail)) {
            return false;
        }
        rest = tail;
    }
    true
}

fn is_bracketed(text: &[u8]) -> bool
    ensures { result ≡ is_bracketed text.now }
{
    match text.split_first() {
        None => false,
        Some((b']', _)) => false,
        Some(_) => is_address_host(text),
    }
}

fn is_address_host(text: &[u8]) -> bool
    ensures { result ≡ is_address_host text.now }
{
    let mut rest = text;
    while let Some((byte, tail)) = rest.split_first() {
        if *byte == b']' {
            return is_port_part(tail);
        }
        if !is_address_byte(*byte) {
            return false;
        }
        rest = tail;
    }
    false
}

fn is_port_part(text: &[u8]) -> bool
    ensures { result ≡ is_port_part text.now }
{
    match text.split_first() {
        None => true,
        Some((byte, rest)) => *byte == b':' && is_port(rest),
    }
}

fn is_port(text: &[u8]) -> bool
    ensures { result ≡ is_port text.now }
{
    let mut rest = text;
    while let Some((byte, tail)) = rest.split_first() {
        if !byte.is_ascii_digit() {
            return false;
        }
        rest = tail;
    }
    true
}

fn begins_with_hex(text: &[u8]) -> bool
    ensures { result ≡ begins_with_hex text.now }
{
    match text {
        [first, second, ..] => first.is_ascii_hexdigit() && second.is_ascii_hexdigit(),
        _ => false,
    }
}

fn is_name_byte(byte: u8) -> bool
    ensures { result ≡ is_name_byte byte }
{
    byte.is_ascii_alphanumeric() || is_mark(byte)
}

fn is_mark(byte: u8) -> bool
    ensures { result ≡ is_mark byte }
{
    matches!(
        byte,
        b'!' | b'$'
            | b'&'
            | b'\''
            | b'('
            | b')'
            | b'*'
            | b'+'
            | b','
            | b'-'
            | b'.'
            | b';'
            | b'='
            | b'_'
            | b'~'
    )
}

fn is_address_byte(byte: u8) -> bool
    ensures { result ≡ is_address_byte byte }
{
    byte.is_ascii_hexdigit() || byte == b':' || byte == b'.'
}
