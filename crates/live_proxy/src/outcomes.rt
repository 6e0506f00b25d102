//! How the calls of a proxy end.

use http_exchange::BadKind;

/// Why a request is refused, or none came.
#[derive(Clone, Copy, Debug, PartialEq, Eq)]
pub enum ProxyRefusal {
    /// Its head is longer than 65,536 bytes.
    HeadLimit,
    /// The client ended before the end of the head.
    Cut,
    /// Its head is no request head, says that it has a body, or has a bad media id.
    Bad { kind: BadKind },
    /// Its target isn't absolute with the scheme `http`, has user information, a fragment or no host, or its port is no number
    /// from 1 to 65,535.
    BadTarget,
    /// The table of media states has no room for its id.
    MediaFull,
    /// The client failed.
    ReadFault,
    /// There is no memory for it.
    NoMemory,
}

/// How answering a request ended.
#[derive(Clone, Copy, Debug, PartialEq, Eq)]
pub enum ProxyOutcome {
    /// The exchange is whole.
    Done,
    /// The response is bad.
    Bad { kind: BadKind },
    /// Upstream ended before the end of the response.
    Cut,
    /// The head of the response is longer than 65,536 bytes.
    HeadLimit,
    /// The response goes on past the 2^62 bytes that are taken of one.
    Endless,
    /// Upstream failed.
    PeerFault,
    /// The client failed.
    WriteFault,
}
