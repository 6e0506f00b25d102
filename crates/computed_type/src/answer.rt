//! What the computed type is.

use mime_types::Essence;

/// The type that a browser takes a response for.
#[derive(Clone, Copy, Debug)]
pub enum Computed<'a> {
    /// The one that the head states, as it writes it: its letters have either case.
    Supplied(Essence<'a>),
    /// The one with this essence, `type/subtype` in ASCII lowercase.
    Known(&'static [u8]),
}
