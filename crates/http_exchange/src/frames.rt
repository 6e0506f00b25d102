//! How the end of a body is told (RFC 9112 6.3).

/// How the bytes of a body are framed.
#[derive(Clone, Copy, Debug, PartialEq, Eq)]
pub enum BodyFrame {
    /// There is no body.
    Empty,
    /// The body is so many bytes (Content-Length).
    Length(u64),
    /// The body comes in chunks (RFC 9112 7.1).
    Chunked,
    /// The body runs to the end of the input.
    ToEnd,
}
