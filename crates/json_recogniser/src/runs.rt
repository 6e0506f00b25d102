//! Runs of bytes that a machine passes at once.
//!
//! Most bytes of real texts stand in strings, in white space and in numbers. A run in a string or in white space is found by
//! a table, a look-up a byte; a number is read along its own parts.
ghost use Rattle.std.specs.Prelude.{◌≡◌, ◌≤◌, ◌++◌, ℕ, List, true, length, take, get_or, IfSome, ◌∷◌, ◌<◌};
ghost use Rattle.std.specs.List.{list_all};
ghost use Rattle.std.specs.Char.{is_ascii};
ghost use Rattle.json_recogniser.specs.declared.states.Container.{Container as AContainer};
ghost use Rattle.json_recogniser.specs.Grammar.{is_unescaped};
ghost use Rattle.json_recogniser.specs.Runs.{is_plain};
ghost use Rattle.json_recogniser.specs.Residuals.{residual, residual_of_number, after_string_residual};

use crate::states::{Part, Role, State};
use text_stream::run_length;

/// Where the state leads by ASCII characters at the beginning of the piece that open and close nothing, and how many these
/// are.
#[inline]
pub fn pass(state: State, piece: &[u8]) -> (State, usize)
    ensures within { result.1 ≤ length piece.now }
    ensures ascii { list_all is_ascii (take result.1 piece.now) ≡ true }
    ensures goes { (marks : List AContainer) (text : List ℕ) → residual result.0 marks text ≡ residual state marks (take result.1 piece.now ++ text) }
{
    match state {
        State::Text(role) => pass_text(role, piece),
        State::Number(part) => pass_number(part, piece),
        State::Colon => pass_colon(piece),
        State::Value | State::First | State::Item | State::After => (
            state,
            run_length(&SPACES, piece),
        ),
        State::Escape(_) | State::Hex(_, _) | State::Word(_) | State::Dead => (state, 0),
    }
}

/// In a string: what stands for itself, and the quotation mark after it.
fn pass_text(role: Role, piece: &[u8]) -> (State, usize)
    ensures within { result.1 ≤ length piece.now }
    ensures ascii { list_all is_ascii (take result.1 piece.now) ≡ true }
    ensures goes { (marks : List AContainer) (text : List ℕ) → residual result.0 marks text ≡ residual (State.Text role) marks (take result.1 piece.now ++ text) }
{
    let run = plain_length(piece);
    if run < piece.len() && piece[run] == b'"' {
        let (state, more) = after_text(role, piece.split_at(run + 1).1);
        (state, run + 1 + more)
    } else {
        (State::Text(role), run)
    }
}

/// How many ASCII characters at the beginning of the piece stand for themselves in a string.
fn plain_length(piece: &[u8]) -> usize
    ensures within { result ≤ length piece.now }
    ensures plain { list_all is_plain (take result piece.now) ≡ true }
{
    run_length(&PLAIN, piece)
}

/// After a string: the colon, if that was a name.
fn after_text(role: Role, piece: &[u8]) -> (State, usize)
    ensures within { result.1 ≤ length piece.now }
    ensures ascii { list_all is_ascii (take result.1 piece.now) ≡ true }
    ensures goes { (marks : List AContainer) (text : List ℕ) → residual result.0 marks text ≡ after_string_residual role marks (take result.1 piece.now ++ text) }
{
    match role {
        Role::Name => pass_colon(piece),
        Role::Value => (State::After, 0),
    }
}

/// After a name: the colon.
fn pass_colon(piece: &[u8]) -> (State, usize)
    ensures within { result.1 ≤ length piece.now }
    ensures ascii { list_all is_ascii (take result.1 piece.now) ≡ true }
    ensures goes { (marks : List AContainer) (text : List ℕ) → residual result.0 marks text ≡ residual State.Colon marks (take result.1 piece.now ++ text) }
{
    match piece {
        [b':', ..] => (State::Value, 1),
        _ => (State::Colon, 0),
    }
}

/// In a number: its further characters.
fn pass_number(part: Part, piece: &[u8]) -> (State, usize)
    ensures within { result.1 ≤ length piece.now }
    ensures ascii { list_all is_ascii (take result.1 piece.now) ≡ true }
    ensures goes { (marks : List AContainer) (text : List ℕ) → residual result.0 marks text ≡ residual (State.Number part) marks (take result.1 piece.now ++ text) }
{
    let mut part = part;
    let mut count = 0;
    'number: while count < piece.len() {
        match next_part(part, piece[count]) {
            Some(next) => part = next,
            None => return (State::Number(part), count),
        }
        count += 1;
    }
    (State::Number(part), count)
}

/// The part of a number that goes on by the byte.
fn next_part(part: Part, b: u8) -> Option<Part>
    ensures { IfSome result (λ next. (is_ascii b ≡ true)
        × ((marks : List AContainer) (text : List ℕ) → residual_of_number next marks text ≡ residual_of_number part marks (b ∷ text))) }
{
    match (part, b) {
        (Part::Integer, b'0'..=b'9') => Some(Part::Integer),
        (Part::Point | Part::Fraction, b'0'..=b'9') => Some(Part::Fraction),
        (Part::Zero | Part::Integer, b'.') => Some(Part::Point),
        (Part::Minus, b'0') => Some(Part::Zero),
        (Part::Minus, b'1'..=b'9') => Some(Part::Integer),
        (Part::Zero | Part::Integer | Part::Fraction, b'e' | b'E') => Some(Part::E),
        (Part::E, b'+' | b'-') => Some(Part::Sign),
        (Part::E | Part::Sign | Part::Exponent, b'0'..=b'9') => Some(Part::Exponent),
        _ => None,
    }
}

/// How many bytes at the beginning of the piece stand for themselves in a string, those from 128 on among them.
pub fn text_length(piece: &[u8]) -> usize
    ensures within { result ≤ length piece.now }
    ensures plain { list_all is_unescaped (take result piece.now) ≡ true }
    ensures ends { result < length piece.now → get_or piece.now result 0 < 128 }
{
    run_length(&TEXT, piece)
}

const T: bool = true;

const F: bool = false;

/// The ASCII characters that stand for themselves in a string (RFC 8259 section 7), 32 in a row.
static PLAIN: [bool; 256] = [
    F, F, F, F, F, F, F, F, F, F, F, F, F, F, F, F, F, F, F, F, F, F, F, F, F, F, F, F, F, F, F, F,
    T, T, F, T, T, T, T, T, T, T, T, T, T, T, T, T, T, T, T, T, T, T, T, T, T, T, T, T, T, T, T, T,
    T, T, T, T, T, T, T, T, T, T, T, T, T, T, T, T, T, T, T, T, T, T, T, T, T, T, T, T, F, T, T, T,
    T, T, T, T, T, T, T, T, T, T, T, T, T, T, T, T, T, T, T, T, T, T, T, T, T, T, T, T, T, T, T, T,
    F, F, F, F, F, F, F, F, F, F, F, F, F, F, F, F, F, F, F, F, F, F, F, F, F, F, F, F, F, F, F, F,
    F, F, F, F, F, F, F, F, F, F, F, F, F, F, F, F, F, F, F, F, F, F, F, F, F, F, F, F, F, F, F, F,
    F, F, F, F, F, F, F, F, F, F, F, F, F, F, F, F, F, F, F, F, F, F, F, F, F, F, F, F, F, F, F, F,
    F, F, F, F, F, F, F, F, F, F, F, F, F, F, F, F, F, F, F, F, F, F, F, F, F, F, F, F, F, F, F, F,
];

/// The same, and the bytes from 128 on.
static TEXT: [bool; 256] = [
    F, F, F, F, F, F, F, F, F, F, F, F, F, F, F, F, F, F, F, F, F, F, F, F, F, F, F, F, F, F, F, F,
    T, T, F, T, T, T, T, T, T, T, T, T, T, T, T, T, T, T, T, T, T, T, T, T, T, T, T, T, T, T, T, T,
    T, T, T, T, T, T, T, T, T, T, T, T, T, T, T, T, T, T, T, T, T, T, T, T, T, T, T, T, F, T, T, T,
    T, T, T, T, T, T, T, T, T, T, T, T, T, T, T, T, T, T, T, T, T, T, T, T, T, T, T, T, T, T, T, T,
    T, T, T, T, T, T, T, T, T, T, T, T, T, T, T, T, T, T, T, T, T, T, T, T, T, T, T, T, T, T, T, T,
    T, T, T, T, T, T, T, T, T, T, T, T, T, T, T, T, T, T, T, T, T, T, T, T, T, T, T, T, T, T, T, T,
    T, T, T, T, T, T, T, T, T, T, T, T, T, T, T, T, T, T, T, T, T, T, T, T, T, T, T, T, T, T, T, T,
    T, T, T, T, T, T, T, T, T, T, T, T, T, T, T, T, T, T, T, T, T, T, T, T, T, T, T, T, T, T, T, T,
];

/// White space (RFC 8259 section 2).
static SPACES: [bool; 256] = [
    F, F, F, F, F, F, F, F, F, T, T, F, F, T, F, F, F, F, F, F, F, F, F, F, F, F, F, F, F, F, F, F,
    T, F, F, F, F, F, F, F, F, F, F, F, F, F, F, F, F, F, F, F, F, F, F, F, F, F, F, F, F, F, F, F,
    F, F, F, F, F, F, F, F, F, F, F, F, F, F, F, F, F, F, F, F, F, F, F, F, F, F, F, F, F, F, F, F,
    F, F, F, F, F, F, F, F, F, F, F, F, F, F, F, F, F, F, F, F, F, F, F, F, F, F, F, F, F, F, F, F,
    F, F, F, F, F, F, F, F, F, F, F, F, F, F, F, F, F, F, F, F, F, F, F, F, F, F, F, F, F, F, F, F,
    F, F, F, F, F, F, F, F, F, F, F, F, F, F, F, F, F, F, F, F, F, F, F, F, F, F, F, F, F, F, F, F,
    F, F, F, F, F, F, F, F, F, F, F, F, F, F, F, F, F, F, F, F, F, F, F, F, F, F, F, F, F, F, F, F,
    F, F, F, F, F, F, F, F, F, F, F, F, F, F, F, F, F, F, F, F, F, F, F, F, F, F, F, F, F, F, F, F,
];
