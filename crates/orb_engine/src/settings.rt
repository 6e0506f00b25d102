//! What an engine is to do.
use response_rules::Policy;

/// What is written of a recording.
#[derive(Clone, Copy, Debug, PartialEq, Eq)]
pub enum Job {
    /// The responses that are allowed, and a reply in the place of each other.
    Filter,
    /// A line for each exchange.
    Explain,
}

/// How a recording is judged, and what is written of it.
#[derive(Clone, Copy, Debug, PartialEq, Eq)]
pub struct Settings {
    /// What is written.
    pub job: Job,
    /// The rules that judge.
    pub policy: Policy,
    /// How many bytes of a body are read for a script.
    pub limit: u64,
}
