//! How a run ends.

use http_exchange::BadKind;

/// How a run over a response ends.
#[derive(Clone, Copy, Debug, PartialEq, Eq)]
pub enum TypeOutcome {
    /// The input was read to its end, and the type was written.
    Done,
    /// The head is refused.
    Bad {
        /// What for.
        kind: BadKind,
    },
    /// The input ends before the head does.
    Cut,
    /// The first 65,536 bytes hold no end of a head.
    HeadLimit,
    /// 2^62 bytes were taken, and more came.
    Endless,
    /// A pull failed.
    ReadFault,
    /// A push failed.
    WriteFault,
}
