//! What a response is judged by, how far the judgement is, and how it ends.
use crate::rules::Rule;
use media_state::MediaState;

/// The rules that judge.
#[derive(Clone, Copy, Debug, PartialEq, Eq)]
pub enum Policy {
    /// Opaque Response Blocking.
    Orb,
    /// Cross-Origin Read Blocking, which came before it.
    Corb,
}

/// How far a response is judged.
#[derive(Clone, Copy, Debug, PartialEq, Eq)]
pub enum Progress {
    /// No rule that allows is known for good.
    Open,
    /// A rule that allows is known for good: the body may be passed on.
    Allowed,
}

/// How a response is judged.
#[derive(Clone, Copy, Debug, PartialEq, Eq)]
pub struct Verdict {
    /// The rule that decides.
    pub rule: Rule,
    /// Whether it allows the response.
    pub allow: bool,
    /// The state of the request's media resource after the response.
    pub state: MediaState,
}
