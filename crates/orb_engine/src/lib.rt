//! The engine: a recording of HTTP/1.1 exchanges, read exchange by exchange, judged, and written on.
//!
//! `specs/Recording` says which bytes are a recording: whole exchanges one after the other, and a tail that may
//! go on to be one or is refused. `specs/Ends` says where it ends, `specs/Outputs` what is written of it, and
//! `specs/Counts` which exchanges are counted: all over the whole list of bytes. Its laws (`laws`) are what
//! a caller needs besides: bytes are one recording, a refusal stands, output only grows, and where nothing fails
//! a run over a whole recording is `Done` (`specs/Complete`).
//!
//! An [`Engine`] takes a recording in pieces, cut anywhere, or runs over a source and a sink. After each
//! piece the sink has all output that the bytes so far settle. It takes memory only when it is opened.
//!
//! `engine` has the public calls, `engine/states` what it reads next and each step from there on, and
//! `engine/runs` whole runs. Heads are gathered and read by `exchanges`. What is written goes through `writer`,
//! which lets `worker` filter or explain, and gathers short outputs. `progress` counts.
#![tactic(auto)]

mod engine;
mod laws;
mod lines;
mod outcome;
mod progress;
mod settings;
#[cfg(test)]
mod tests;
mod worker;
mod writer;

pub use engine::Engine;
pub use laws::{completeness, one_recording, output_grows, refusal_stays};
pub use outcome::EngineOutcome;
pub use settings::{Job, Settings};
