//! The state of media resources that are fetched a range at a time: whether a response is the first
//! of its resource, which range it says that it is, and a table of the states by id.
//!
//! `specs/Range` defines which range a Content-Range value stands for (RFC 9110 14.4, as a profile:
//! the unit `bytes` and numbers that fit 64 bits), and `specs/Table` what the table is: a finite map
//! of at most 4,096 ids. Only [`MediaTable::open`] takes memory.
#![tactic(auto)]

mod ranges;
mod states;
mod table;

pub use ranges::{ContentRange, one_range, range_is_computed, read_content_range};
pub use states::{MediaState, after};
pub use table::{Full, MediaTable};
