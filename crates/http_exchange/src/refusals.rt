//! What is refused in a recording of exchanges.

/// The kind of a refusal. Each has a place: the first byte of the head, or for a chunk the byte itself.
#[derive(Clone, Copy, Debug, PartialEq, Eq)]
pub enum BadKind {
    /// The bytes up to the end of a head are no head, or one with more than 128 fields (RFC 9112 2 to 5).
    BadHead,
    /// A request has a body: a Transfer-Encoding field, or a Content-Length that isn't `0`.
    RequestBody,
    /// The value of a request's Orb-Media field is no decimal number of 1 to 19 digits.
    BadMediaId,
    /// A response is interim: its status is 100 to 199 (RFC 9110 15.2).
    Interim,
    /// A response's Transfer-Encoding and Content-Length fields give no framing (RFC 9112 6.1 to 6.3).
    BadFraming,
    /// A byte of a chunked body that no chunked body has there (RFC 9112 7.1).
    BadChunk,
}
