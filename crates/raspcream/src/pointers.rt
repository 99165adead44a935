//! Where a slice starts, for C.
ghost use Rattle.std.specs.Prelude.{◌≡◌, length};

/// The first byte's place.
pub fn start(s: &[u8]) -> *const u8 {
    s.as_ptr()
}

/// Bytes that are the library's, and stand until the next call on the handle.
#[repr(C)]
#[derive(Clone, Copy)]
pub struct Span {
    pub at: *const u8,
    pub len: usize,
}

/// A header line.
#[repr(C)]
#[derive(Clone, Copy)]
pub struct Header {
    pub name: Span,
    pub value: Span,
}

/// These bytes.
pub fn span_of(s: &[u8]) -> Span
    ensures { result.len ≡ length s.now }
{
    Span {
        at: start(s),
        len: s.len(),
    }
}
