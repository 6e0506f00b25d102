//! Field values of a head: joined, cut into parts, and read for the MIME type that they state.
//!
//! [`Fields`] are spans of a head. [`Scratch::join`] puts the values of one name together, as RFC 9110
//! 5.3 lets a recipient do, and [`parts`] cuts them again at the commas outside of quoted strings
//! (WHATWG Fetch 2.2). Over these stand [`nosniff`], [`coded`], and the MIME type of Content-Type:
//! [`extract_essence`] finds its type and subtype, and [`extract_mime`] makes the whole record.
//!
//! `specs/Fields` and `specs/Joined` define the fields and their values, `specs/Parts` the parts,
//! `specs/Questions` the two questions, and `specs/Extracted` the MIME type that fields state. Only
//! [`Scratch::open`] and [`extract_mime`] take memory.
#![tactic(auto)]

mod cut;
#[cfg(test)]
mod examples;
mod extraction;
mod fields;
mod questions;
mod run;
mod scratch;
mod split;

pub use cut::{one_cut, parts};
pub use extraction::{extract_essence, extract_mime, one_extracted};
pub use fields::{FieldSpan, Fields};
pub use questions::{coded, nosniff};
pub use scratch::Scratch;
pub use split::Parts;
