//! The body of one response, held back until it is known whether it may go out.
//!
//! A [`Filter`] reads a body in pieces, cut anywhere, and asks a `Decider` of `response_rules`. Once a rule
//! that allows is known, the head, what was held and all that follows go out at once; once nothing can allow
//! the response, nothing is held any more, and at the end a reply with status 403 stands in its place.
//! `specs/Responses` says what goes out of a response, whole or not, and how much is held. A body that
//! came in chunks goes out in chunks of 1,024 bytes (`http_exchange::Framer`). No call after [`Filter::open`] takes
//! memory.
#![tactic(auto)]

mod filtering;
mod judging;
mod laws;
mod phases;
mod pushing;
mod replying;
#[cfg(test)]
mod tests;
mod writing;

pub use filtering::Filter;
pub use laws::{held_is_bounded, held_text_is_silent, output_grows, output_is_short};
pub use pushing::WriteFault;
pub use writing::Pushes;
