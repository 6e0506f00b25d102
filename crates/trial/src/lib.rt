//! The recording of the program's self-test, and a source of it.
//!
//! `specs/Trials` says which bytes it is: exchanges that are numbered on from a seed, of eight kinds in turn, whose
//! bodies go up to 8,072 bytes. `specs/Texts` has the texts of bodies in chunks. The law
//! [`is_whole_recording`] says that they are a whole recording of that many exchanges.
//!
//! A [`TrialSource`] gives these bytes. It writes one exchange at a time into an array of its own: `numbered` by the
//! number, `heads` the two heads, `bodies` the body.
#![tactic(auto)]

mod bodies;
mod heads;
mod kinds;
mod laws;
mod numbered;
mod source;
#[cfg(test)]
mod tests;

pub use laws::is_whole_recording;
pub use source::TrialSource;
