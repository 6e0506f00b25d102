//! Text: the characters that bytes are, and the classes of characters that scripts tell apart.
//!
//! `specs/Decoding` defines the characters of bytes as UTF-8, and `specs/Classes` the classes. A
//! broken sequence reads as one U+FFFD for each of its bytes, so that what a byte reads as never
//! hangs on more than the three bytes after it. Only [`decode_slice`] takes memory.
#![tactic(auto)]

mod classes;
mod decoder;
mod decoding;
mod laws;
mod runs;

pub use classes::{CharClass, class_of};
pub use decoder::Decoder;
pub use decoding::{NoMemory, decode_slice};
pub use laws::{all_but_three_bytes_are_given, classes_are_sets, text_reads_as_written};
pub use runs::run_length;
