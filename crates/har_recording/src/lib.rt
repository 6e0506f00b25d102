//! HAR logs as recordings of HTTP/1.1.
//!
//! [`to_recording`] reads a log (HTTP Archive 1.2, softwareishard.com/blog/har-12-spec) and writes its exchanges one after
//! the other, as `orb_engine` reads them. `specs/Log` says what a log has to have, over the JSON values of `serde_json`, and
//! `specs/Recorded` what is written of it. `entries` reads one entry, `messages` writes it, `logs` goes through them all.
//! What is written are whole exchanges (`specs/Whole`, [`recordings_are_whole`]).
#![tactic(auto)]

mod entries;
mod laws;
mod logs;
mod messages;
#[cfg(test)]
mod tests;

pub use laws::recordings_are_whole;
pub use logs::{HarError, to_recording};
