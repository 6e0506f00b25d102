//! Runs of characters that leave a lexer as it is.
//!
//! Most characters of a script stand in names, white space, comments and strings, where a lexer stays in
//! its state. A run of them is found by one look-up a byte, in a table for each of these states.
ghost use Rattle.std.specs.Prelude.{◌≡◌, ◌<◌, ◌&&◌, ℕ, Bool, false};
ghost use Rattle.std.specs.Char.{is_ascii};
ghost use Rattle.es5_lexer.specs.Characters.{is_part};
ghost use Rattle.text_stream.specs.Runs.{is_in};
ghost use Rattle.es5_lexer.specs.Runs.{stays};

use crate::places::{Place, Quote, TextPlace};
use crate::states::State;

const T: bool = true;

const F: bool = false;

/// The ASCII characters that leave the state as it is, where a name has all the letters that are kept of
/// it or hasn't: white space between tokens, and what a comment, a string or a long name goes on with.
pub(crate) fn staying(state: State, is_full: bool) -> &'static [bool; 256]
    ensures { (c : ℕ) → c < 256 → is_in result.now c ≡ stays state is_full c }
{
    match state {
        State::Start => &SPACES,
        State::Slash => &NOTHING,
        State::LineComment => &LINE_COMMENT,
        State::BlockComment(star) => in_block(star),
        State::Token(place) => in_token(place, is_full),
    }
}

/// In a comment of several lines, after a `*` or not.
fn in_block(star: bool) -> &'static [bool; 256]
    ensures { (full : Bool) (c : ℕ) → c < 256 → is_in result.now c ≡ stays (State.BlockComment star) full c }
{
    if star { &NOTHING } else { &BLOCK_COMMENT }
}

/// In a token.
fn in_token(place: Place, is_full: bool) -> &'static [bool; 256]
    ensures { (c : ℕ) → c < 256 → is_in result.now c ≡ stays (State.Token place) is_full c }
{
    match place {
        Place::Name => in_name(is_full),
        Place::Text(quote, place) => in_text(quote, place),
        Place::Escape(_, _) => &NOTHING,
        Place::Mark(_) => &NOTHING,
        Place::Number(_) => &NOTHING,
        Place::Pattern(_) => &NOTHING,
        Place::Dead => &NOTHING,
    }
}

/// In a name.
fn in_name(is_full: bool) -> &'static [bool; 256]
    ensures { (c : ℕ) → c < 256 → is_in result.now c ≡ stays (State.Token Place.Name) is_full c }
{
    if is_full { &NAME_PARTS } else { &NOTHING }
}

/// Whether the byte is an ASCII character that goes on with a name.
#[inline]
pub(crate) fn is_name_part(b: u8) -> bool
    ensures { result ≡ (is_ascii b && is_part b) }
{
    NAME_PARTS[usize::from(b)]
}

/// In a string.
fn in_text(quote: Quote, place: TextPlace) -> &'static [bool; 256]
    ensures { (full : Bool) (c : ℕ) → c < 256 → is_in result.now c ≡ stays (State.Token (Place.Text quote place)) full c }
{
    match place {
        TextPlace::Chars => quoted(quote),
        TextPlace::TextEscape => &NOTHING,
        TextPlace::Cr => &NOTHING,
        TextPlace::Hex(_) => &NOTHING,
        TextPlace::End => &NOTHING,
    }
}

/// After a whole character of a string.
fn quoted(quote: Quote) -> &'static [bool; 256]
    ensures { (full : Bool) (c : ℕ) → c < 256 → is_in result.now c ≡ stays (State.Token (Place.Text quote TextPlace.Chars)) full c }
{
    match quote {
        Quote::Double => &DOUBLE_QUOTED,
        Quote::Single => &SINGLE_QUOTED,
    }
}

/// White space that ends no line.
static SPACES: [bool; 256] = [
    F, F, F, F, F, F, F, F, F, T, F, T, T, F, F, F, F, F, F, F, F, F, F, F, F, F, F, F, F, F, F, F,
    T, F, F, F, F, F, F, F, F, F, F, F, F, F, F, F, F, F, F, F, F, F, F, F, F, F, F, F, F, F, F, F,
    F, F, F, F, F, F, F, F, F, F, F, F, F, F, F, F, F, F, F, F, F, F, F, F, F, F, F, F, F, F, F, F,
    F, F, F, F, F, F, F, F, F, F, F, F, F, F, F, F, F, F, F, F, F, F, F, F, F, F, F, F, F, F, F, F,
    F, F, F, F, F, F, F, F, F, F, F, F, F, F, F, F, F, F, F, F, F, F, F, F, F, F, F, F, F, F, F, F,
    F, F, F, F, F, F, F, F, F, F, F, F, F, F, F, F, F, F, F, F, F, F, F, F, F, F, F, F, F, F, F, F,
    F, F, F, F, F, F, F, F, F, F, F, F, F, F, F, F, F, F, F, F, F, F, F, F, F, F, F, F, F, F, F, F,
    F, F, F, F, F, F, F, F, F, F, F, F, F, F, F, F, F, F, F, F, F, F, F, F, F, F, F, F, F, F, F, F,
];

/// What goes on with a name.
static NAME_PARTS: [bool; 256] = [
    F, F, F, F, F, F, F, F, F, F, F, F, F, F, F, F, F, F, F, F, F, F, F, F, F, F, F, F, F, F, F, F,
    F, F, F, F, T, F, F, F, F, F, F, F, F, F, F, F, T, T, T, T, T, T, T, T, T, T, F, F, F, F, F, F,
    F, T, T, T, T, T, T, T, T, T, T, T, T, T, T, T, T, T, T, T, T, T, T, T, T, T, T, F, F, F, F, T,
    F, T, T, T, T, T, T, T, T, T, T, T, T, T, T, T, T, T, T, T, T, T, T, T, T, T, T, F, F, F, F, F,
    F, F, F, F, F, F, F, F, F, F, F, F, F, F, F, F, F, F, F, F, F, F, F, F, F, F, F, F, F, F, F, F,
    F, F, F, F, F, F, F, F, F, F, F, F, F, F, F, F, F, F, F, F, F, F, F, F, F, F, F, F, F, F, F, F,
    F, F, F, F, F, F, F, F, F, F, F, F, F, F, F, F, F, F, F, F, F, F, F, F, F, F, F, F, F, F, F, F,
    F, F, F, F, F, F, F, F, F, F, F, F, F, F, F, F, F, F, F, F, F, F, F, F, F, F, F, F, F, F, F, F,
];

/// What goes on with a comment of one line.
static LINE_COMMENT: [bool; 256] = [
    T, T, T, T, T, T, T, T, T, T, F, T, T, F, T, T, T, T, T, T, T, T, T, T, T, T, T, T, T, T, T, T,
    T, T, T, T, T, T, T, T, T, T, T, T, T, T, T, T, T, T, T, T, T, T, T, T, T, T, T, T, T, T, T, T,
    T, T, T, T, T, T, T, T, T, T, T, T, T, T, T, T, T, T, T, T, T, T, T, T, T, T, T, T, T, T, T, T,
    T, T, T, T, T, T, T, T, T, T, T, T, T, T, T, T, T, T, T, T, T, T, T, T, T, T, T, T, T, T, T, T,
    F, F, F, F, F, F, F, F, F, F, F, F, F, F, F, F, F, F, F, F, F, F, F, F, F, F, F, F, F, F, F, F,
    F, F, F, F, F, F, F, F, F, F, F, F, F, F, F, F, F, F, F, F, F, F, F, F, F, F, F, F, F, F, F, F,
    F, F, F, F, F, F, F, F, F, F, F, F, F, F, F, F, F, F, F, F, F, F, F, F, F, F, F, F, F, F, F, F,
    F, F, F, F, F, F, F, F, F, F, F, F, F, F, F, F, F, F, F, F, F, F, F, F, F, F, F, F, F, F, F, F,
];

/// What goes on with a comment of several lines, and neither ends a line nor may begin its end.
static BLOCK_COMMENT: [bool; 256] = [
    T, T, T, T, T, T, T, T, T, T, F, T, T, F, T, T, T, T, T, T, T, T, T, T, T, T, T, T, T, T, T, T,
    T, T, T, T, T, T, T, T, T, T, F, T, T, T, T, T, T, T, T, T, T, T, T, T, T, T, T, T, T, T, T, T,
    T, T, T, T, T, T, T, T, T, T, T, T, T, T, T, T, T, T, T, T, T, T, T, T, T, T, T, T, T, T, T, T,
    T, T, T, T, T, T, T, T, T, T, T, T, T, T, T, T, T, T, T, T, T, T, T, T, T, T, T, T, T, T, T, T,
    F, F, F, F, F, F, F, F, F, F, F, F, F, F, F, F, F, F, F, F, F, F, F, F, F, F, F, F, F, F, F, F,
    F, F, F, F, F, F, F, F, F, F, F, F, F, F, F, F, F, F, F, F, F, F, F, F, F, F, F, F, F, F, F, F,
    F, F, F, F, F, F, F, F, F, F, F, F, F, F, F, F, F, F, F, F, F, F, F, F, F, F, F, F, F, F, F, F,
    F, F, F, F, F, F, F, F, F, F, F, F, F, F, F, F, F, F, F, F, F, F, F, F, F, F, F, F, F, F, F, F,
];

/// What stands for itself in a string in double quotes.
static DOUBLE_QUOTED: [bool; 256] = [
    T, T, T, T, T, T, T, T, T, T, F, T, T, F, T, T, T, T, T, T, T, T, T, T, T, T, T, T, T, T, T, T,
    T, T, F, T, T, T, T, T, T, T, T, T, T, T, T, T, T, T, T, T, T, T, T, T, T, T, T, T, T, T, T, T,
    T, T, T, T, T, T, T, T, T, T, T, T, T, T, T, T, T, T, T, T, T, T, T, T, T, T, T, T, F, T, T, T,
    T, T, T, T, T, T, T, T, T, T, T, T, T, T, T, T, T, T, T, T, T, T, T, T, T, T, T, T, T, T, T, T,
    F, F, F, F, F, F, F, F, F, F, F, F, F, F, F, F, F, F, F, F, F, F, F, F, F, F, F, F, F, F, F, F,
    F, F, F, F, F, F, F, F, F, F, F, F, F, F, F, F, F, F, F, F, F, F, F, F, F, F, F, F, F, F, F, F,
    F, F, F, F, F, F, F, F, F, F, F, F, F, F, F, F, F, F, F, F, F, F, F, F, F, F, F, F, F, F, F, F,
    F, F, F, F, F, F, F, F, F, F, F, F, F, F, F, F, F, F, F, F, F, F, F, F, F, F, F, F, F, F, F, F,
];

/// The same in single quotes.
static SINGLE_QUOTED: [bool; 256] = [
    T, T, T, T, T, T, T, T, T, T, F, T, T, F, T, T, T, T, T, T, T, T, T, T, T, T, T, T, T, T, T, T,
    T, T, T, T, T, T, T, F, T, T, T, T, T, T, T, T, T, T, T, T, T, T, T, T, T, T, T, T, T, T, T, T,
    T, T, T, T, T, T, T, T, T, T, T, T, T, T, T, T, T, T, T, T, T, T, T, T, T, T, T, T, F, T, T, T,
    T, T, T, T, T, T, T, T, T, T, T, T, T, T, T, T, T, T, T, T, T, T, T, T, T, T, T, T, T, T, T, T,
    F, F, F, F, F, F, F, F, F, F, F, F, F, F, F, F, F, F, F, F, F, F, F, F, F, F, F, F, F, F, F, F,
    F, F, F, F, F, F, F, F, F, F, F, F, F, F, F, F, F, F, F, F, F, F, F, F, F, F, F, F, F, F, F, F,
    F, F, F, F, F, F, F, F, F, F, F, F, F, F, F, F, F, F, F, F, F, F, F, F, F, F, F, F, F, F, F, F,
    F, F, F, F, F, F, F, F, F, F, F, F, F, F, F, F, F, F, F, F, F, F, F, F, F, F, F, F, F, F, F, F,
];

/// Where each character counts.
static NOTHING: [bool; 256] = [
    F, F, F, F, F, F, F, F, F, F, F, F, F, F, F, F, F, F, F, F, F, F, F, F, F, F, F, F, F, F, F, F,
    F, F, F, F, F, F, F, F, F, F, F, F, F, F, F, F, F, F, F, F, F, F, F, F, F, F, F, F, F, F, F, F,
    F, F, F, F, F, F, F, F, F, F, F, F, F, F, F, F, F, F, F, F, F, F, F, F, F, F, F, F, F, F, F, F,
    F, F, F, F, F, F, F, F, F, F, F, F, F, F, F, F, F, F, F, F, F, F, F, F, F, F, F, F, F, F, F, F,
    F, F, F, F, F, F, F, F, F, F, F, F, F, F, F, F, F, F, F, F, F, F, F, F, F, F, F, F, F, F, F, F,
    F, F, F, F, F, F, F, F, F, F, F, F, F, F, F, F, F, F, F, F, F, F, F, F, F, F, F, F, F, F, F, F,
    F, F, F, F, F, F, F, F, F, F, F, F, F, F, F, F, F, F, F, F, F, F, F, F, F, F, F, F, F, F, F, F,
    F, F, F, F, F, F, F, F, F, F, F, F, F, F, F, F, F, F, F, F, F, F, F, F, F, F, F, F, F, F, F, F,
];
