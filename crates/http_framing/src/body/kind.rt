//! Where the body of a message ends.

/// Where the body of a message ends (RFC 7230, section 3.3.3).
#[derive(Clone, Copy, Debug, PartialEq, Eq)]
pub enum BodyKind {
    /// There is no body.
    None,

    /// The body has this many bytes.
    Length(u64),

    /// The body comes in chunks (RFC 7230, section 4.1).
    Chunked,

    /// The body is all that follows.
    Raw,
}
