//! The types that a name may have in a look-up.
ghost use Rattle.std.specs.Prelude.{◌≡◌, ℕ, List, string_bytes};
ghost use Rattle.http_header.specs.Token.{lowercase};

use http_header::HeaderName;

/// A type that names a header: a `HeaderName`, or a text in upper or lower case.
/// A text that is no header name is found in no map.
pub trait AsHeaderName: Drop {
    // The bytes as they are written.
    ghost text: { Self → List ℕ };

    // The bytes in lower case, as a map has its names.
    ghost name: { Self → List ℕ };

    /// The bytes as they are written.
    fn as_name_bytes(&self) -> &[u8]
        ensures value { result.now ≡ text self.now }
        ensures lowered { lowercase result.now ≡ name self.now };
}

impl AsHeaderName for HeaderName {
    ghost text = { λ key. key };

    ghost name = { λ key. key };

    fn as_name_bytes(&self) -> &[u8] {
        self.as_bytes()
    }
}

impl AsHeaderName for &HeaderName {
    ghost text = { λ key. key.now };

    ghost name = { λ key. key.now };

    fn as_name_bytes(&self) -> &[u8] {
        (*self).as_bytes()
    }
}

impl AsHeaderName for &str {
    ghost text = { λ key. key.now };

    ghost name = { λ key. lowercase key.now };

    fn as_name_bytes(&self) -> &[u8] {
        self.as_bytes()
    }
}

impl AsHeaderName for String {
    ghost text = { string_bytes };

    ghost name = { λ key. lowercase (string_bytes key) };

    fn as_name_bytes(&self) -> &[u8] {
        self.as_bytes()
    }
}

impl AsHeaderName for &String {
    ghost text = { λ key. string_bytes key.now };

    ghost name = { λ key. lowercase (string_bytes key.now) };

    fn as_name_bytes(&self) -> &[u8] {
        self.as_bytes()
    }
}
