//! The type that a browser takes a response for: its computed type, by the head and the first bytes of the body.
//!
//! WHATWG MIME Sniffing 7 gives the rules; they are taken as a profile, in which RAR archives, feeds and `audio/basic` are
//! left out. `specs/Rules` has them as a list of which the first that applies decides, `specs/Unknown` those of a body of
//! which nothing is stated, and `specs/Computed` says what the computed type is. [`computed`] gives it of a head
//! that was read.
//!
//! A [`TypeRun`] reads a response from a source and writes its type: `specs/Inputs` says which inputs it takes, and
//! `specs/Answers` what its answers say. Only [`TypeRun::open`] takes memory.
#![tactic(auto)]

mod answer;
mod computing;
mod laws;
mod names;
mod outcome;
mod plain;
mod rules;
mod run;
#[cfg(test)]
mod tests;
mod unknown;
mod writing;

pub use answer::Computed;
pub use computing::computed;
pub use laws::{one_answer, one_type};
pub use outcome::TypeOutcome;
pub use run::TypeRun;
