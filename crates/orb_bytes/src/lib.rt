//! Bytes as HTTP and MIME read them: classes, ASCII case, trimming, quoted strings, decimal and hexadecimal numbers,
//! rows of masked bytes; and appending them.
//!
//! `specs/` holds the definitions that every crate above cites: `Bytes` the classes, `Trim` what
//! a text is without the ends, `Quoted` quoted strings, `Decimal` numbers, and `Fields` the fields of a head by their
//! names. Nothing takes memory but [`read_quoted`] and [`append_quoted`], and nothing else fails but [`read_decimal`].
#![tactic(auto)]

mod appending;
mod classes;
mod hex_digits;
mod laws;
mod letters;
mod numbers;
mod quoted;
mod row_sets;
mod rows;
mod slices;
mod trimming;
mod walks;

pub use appending::{append, extend};
pub use classes::{
    is_http_ws, is_quoted_token, is_space_byte, is_tab_or_space, is_tag_end, is_token,
};
pub use hex_digits::hexadecimal;
pub use laws::{closed_rows_stay, masked_is_by_place};
pub use letters::{eq_ignore_case, lower};
pub use numbers::{decimal, read_decimal};
pub use quoted::{append_quoted, read_quoted};
pub use rows::{Row, begins_masked, first_row};
pub use slices::{first_bytes, last_bytes};
pub use trimming::{
    trim_http_ws, trim_http_ws_end, trim_http_ws_start, trim_start, trim_tab_or_space,
    trim_whitespace_start,
};
pub use walks::Walk;
