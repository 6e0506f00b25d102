//! The parts of a value, one after the other.
//!
//! One look at each byte is enough: whether a comma cuts hangs on the bytes before it by three
//! states alone, outside of a quoted string, inside of one, and after a `\` in one.
ghost use Rattle.std.specs.Prelude.{◌≡◌, ◌∷◌};
ghost use Rattle.std.specs.Option.{option_copied};
ghost use Rattle.header_values.specs.Cuts.{state_after, is_cut, cut_from, cuts_left};

use orb_bytes::trim_tab_or_space;

/// Where a byte of a value stands.
#[derive(Clone, Copy)]
enum State {
    /// Outside of the quoted strings.
    Outside,
    /// In a quoted string.
    Inside,
    /// After a `\` in a quoted string.
    Escaped,
}

impl State {
    /// Where the byte after this one stands.
    fn after(self, b: u8) -> State
        ensures { result ≡ state_after self b }
    {
        match (self, b) {
            (State::Outside, b'"') | (State::Escaped, _) => State::Inside,
            (State::Outside, _) | (State::Inside, b'"') => State::Outside,
            (State::Inside, b'\\') => State::Escaped,
            (State::Inside, _) => State::Inside,
        }
    }

    /// Whether this byte ends a part.
    fn cuts(self, b: u8) -> bool
        ensures { result ≡ is_cut self b }
    {
        matches!(self, State::Outside) && b == b','
    }
}

/// The parts of a value, in order, each without tabs and spaces at its ends.
///
/// [`parts`](crate::parts) makes it.
#[derive(Clone, Copy, Debug)]
pub struct Parts<'a> {
    pub(crate) rest: Option<&'a [u8]>,
}

impl<'a> Iterator for Parts<'a> {
    ghost use Rattle.std.specs.Iterator.{YieldsFirstBy, item_count};
    ghost use Rattle.header_values.specs.Cuts.{parts_left};

    type Item = &'a [u8];

    ghost next_gives = { YieldsFirstBy (λ part. part.now) parts_left };

    ghost remaining = { item_count parts_left };

    fn next(&mut self) -> Option<&'a [u8]> {
        let (part, rest) = split_part(self.rest?);
        self.rest = rest;
        Some(trim_tab_or_space(part))
    }
}

/// The text before the first comma outside of the quoted strings, and the text after it; without
/// such a comma the whole text, and `None`.
fn split_part(text: &[u8]) -> (&[u8], Option<&[u8]>)
    ensures { cut_from State.Outside text.now ≡ result.0.now ∷ cuts_left (option_copied result.1) }
{
    let mut state = State::Outside;
    for (i, b) in text.iter().enumerate() {
        if state.cuts(*b) {
            return (&text[..i], Some(&text[i + 1..]));
        }
        state = state.after(*b);
    }
    (text, None)
}
