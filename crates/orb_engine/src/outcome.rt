//! How a run over a recording ends.
use http_exchange::BadKind;

/// How a run ended. A place is that of a byte of the recording, counted from 0.
#[derive(Clone, Copy, Debug, PartialEq, Eq)]
pub enum EngineOutcome {
    /// The recording ended after a whole exchange, or was empty.
    Done,
    /// The recording is bad at this place.
    Bad { kind: BadKind, place: u64 },
    /// The recording ended inside the exchange that begins at this place.
    Cut { place: u64 },
    /// The head that begins at this place is longer than a head may be.
    HeadLimit { place: u64 },
    /// The request at this place has a new media id, and there is no room for it.
    MediaFull { place: u64 },
    /// The input goes on past the last byte that one run takes.
    Endless,
    /// The source failed.
    ReadFault,
    /// The sink failed.
    WriteFault,
}
