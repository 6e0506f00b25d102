//! What a character leads to, from each state.
//!
//! Each function is a part of the machine, and its contract is the whole truth of it: after the step there may come exactly
//! what may come after the character before it.
ghost use Rattle.std.specs.Prelude.{◌≡◌, ◌∷◌, ℕ, suc, List, Some};
ghost use Rattle.json_recogniser.specs.declared.states.Container.{Container as AContainer};
ghost use Rattle.json_recogniser.specs.Grammar.{is_white_space};
ghost use Rattle.json_recogniser.specs.Reading.{after_escape};
ghost use Rattle.json_recogniser.specs.Residuals.{residual, residual_of_text, residual_of_number, residual_of_word, moved, mark_of};
ghost use Rattle.json_recogniser.specs.Residuals.{value_residual, name_residual, first_residual, item_residual, colon_residual, after_residual, after_hexes};

use crate::states::{Container, Letters, Move, Part, Role, State, Step};

/// The state with the same marks.
fn stay(state: State) -> Step
    ensures { result ≡ record { state = state; marks = Move.Stay } }
{
    Step {
        state,
        marks: Move::Stay,
    }
}

/// After an opening bracket.
fn opening(container: Container) -> Step
    ensures { result ≡ record { state = State.First; marks = Move.Open container } }
{
    Step {
        state: State::First,
        marks: Move::Open(container),
    }
}

/// After a closing bracket.
fn closing() -> Step
    ensures { result ≡ record { state = State.After; marks = Move.Close } }
{
    Step {
        state: State::After,
        marks: Move::Close,
    }
}

fn is_white_space(c: char) -> bool
    ensures { result ≡ is_white_space c }
{
    matches!(c, ' ' | '\t' | '\n' | '\r')
}

/// What the character leads to; `mark` is that of the innermost array or object.
pub fn next(state: State, mark: Option<Container>, c: char) -> Step
    ensures { (marks : List AContainer) (text : List ℕ) → mark ≡ mark_of marks → moved result marks text ≡ residual state marks (c ∷ text) }
{
    match state {
        State::Value => at_value(c),
        State::First => at_first(mark, c),
        State::Item => at_item(mark, c),
        State::Colon => at_colon(c),
        State::After => after_value(mark, c),
        State::Text(role) => in_text(role, c),
        State::Escape(role) => in_escape(role, c),
        State::Hex(role, more) => in_hex(role, more, c),
        State::Number(part) => in_number(part, mark, c),
        State::Word(letters) => in_word(letters, c),
        State::Dead => stay(State::Dead),
    }
}

fn at_value(c: char) -> Step
    ensures { (marks : List AContainer) (text : List ℕ) → moved result marks text ≡ value_residual marks (c ∷ text) }
{
    match c {
        ' ' | '\t' | '\n' | '\r' => stay(State::Value),
        '[' => opening(Container::Array),
        '{' => opening(Container::Object),
        '"' => stay(State::Text(Role::Value)),
        '-' => stay(State::Number(Part::Minus)),
        '0' => stay(State::Number(Part::Zero)),
        '1'..='9' => stay(State::Number(Part::Integer)),
        'f' => stay(State::Word(Letters::Alse)),
        'n' => stay(State::Word(Letters::Ull)),
        't' => stay(State::Word(Letters::Rue)),
        _ => stay(State::Dead),
    }
}

/// At a name of an object.
fn at_name(c: char) -> Step
    ensures { (marks : List AContainer) (text : List ℕ) → moved result (Container.Object ∷ marks) text ≡ name_residual (Container.Object ∷ marks) (c ∷ text) }
{
    if is_white_space(c) {
        return stay(State::Item);
    }
    match c {
        '"' => stay(State::Text(Role::Name)),
        _ => stay(State::Dead),
    }
}

fn at_first(mark: Option<Container>, c: char) -> Step
    ensures { (marks : List AContainer) (text : List ℕ) → mark ≡ mark_of marks → moved result marks text ≡ first_residual marks (c ∷ text) }
{
    if is_white_space(c) {
        return stay(State::First);
    }
    match (mark, c) {
        (Some(Container::Array), ']') | (Some(Container::Object), '}') => closing(),
        _ => at_item(mark, c),
    }
}

fn at_item(mark: Option<Container>, c: char) -> Step
    ensures { (marks : List AContainer) (text : List ℕ) → mark ≡ mark_of marks → moved result marks text ≡ item_residual marks (c ∷ text) }
{
    match mark {
        Some(container) => match container {
            Container::Array => at_value(c),
            Container::Object => at_name(c),
        },
        None => stay(State::Dead),
    }
}

fn at_colon(c: char) -> Step
    ensures { (marks : List AContainer) (text : List ℕ) → moved result marks text ≡ colon_residual marks (c ∷ text) }
{
    match c {
        ' ' | '\t' | '\n' | '\r' => stay(State::Colon),
        ':' => stay(State::Value),
        _ => stay(State::Dead),
    }
}

fn after_value(mark: Option<Container>, c: char) -> Step
    ensures { (marks : List AContainer) (text : List ℕ) → mark ≡ mark_of marks → moved result marks text ≡ after_residual marks (c ∷ text) }
{
    match (mark, c) {
        (_, ' ' | '\t' | '\n' | '\r') => stay(State::After),
        (Some(_), ',') => stay(State::Item),
        (Some(Container::Array), ']') | (Some(Container::Object), '}') => closing(),
        _ => stay(State::Dead),
    }
}

fn in_text(role: Role, c: char) -> Step
    ensures { (marks : List AContainer) (text : List ℕ) → moved result marks text ≡ residual_of_text role marks (Some (c ∷ text)) }
{
    if c == '"' {
        return match role {
            Role::Name => stay(State::Colon),
            Role::Value => stay(State::After),
        };
    }
    if c == '\\' {
        return stay(State::Escape(role));
    }
    if c < ' ' {
        stay(State::Dead)
    } else {
        stay(State::Text(role))
    }
}

fn in_escape(role: Role, c: char) -> Step
    ensures { (marks : List AContainer) (text : List ℕ) → moved result marks text ≡ residual_of_text role marks (after_escape (c ∷ text)) }
{
    match c {
        'u' => stay(State::Hex(role, 3)),
        '"' | '\\' | '/' | 'b' | 'f' | 'n' | 'r' | 't' => stay(State::Text(role)),
        _ => stay(State::Dead),
    }
}

fn in_hex(role: Role, more: u8, c: char) -> Step
    ensures { (marks : List AContainer) (text : List ℕ) → moved result marks text ≡ residual_of_text role marks (after_hexes (suc more) (c ∷ text)) }
{
    if !c.is_ascii_hexdigit() {
        stay(State::Dead)
    } else if more == 0 {
        stay(State::Text(role))
    } else {
        stay(State::Hex(role, more - 1))
    }
}

fn in_number(part: Part, mark: Option<Container>, c: char) -> Step
    ensures { (marks : List AContainer) (text : List ℕ) → mark ≡ mark_of marks → moved result marks text ≡ residual_of_number part marks (c ∷ text) }
{
    match (part, c) {
        (Part::Minus, '0') => stay(State::Number(Part::Zero)),
        (Part::Minus, '1'..='9') | (Part::Integer, '0'..='9') => stay(State::Number(Part::Integer)),
        (Part::Zero | Part::Integer, '.') => stay(State::Number(Part::Point)),
        (Part::Point | Part::Fraction, '0'..='9') => stay(State::Number(Part::Fraction)),
        (Part::Zero | Part::Integer | Part::Fraction, 'e' | 'E') => stay(State::Number(Part::E)),
        (Part::E, '+' | '-') => stay(State::Number(Part::Sign)),
        (Part::E | Part::Sign | Part::Exponent, '0'..='9') => stay(State::Number(Part::Exponent)),
        (Part::Minus | Part::Point | Part::E | Part::Sign, _) => stay(State::Dead),
        (Part::Zero | Part::Integer | Part::Fraction | Part::Exponent, _) => after_value(mark, c),
    }
}

fn in_word(letters: Letters, c: char) -> Step
    ensures { (marks : List AContainer) (text : List ℕ) → moved result marks text ≡ residual_of_word letters marks (c ∷ text) }
{
    match (letters, c) {
        (Letters::Alse, 'a') => stay(State::Word(Letters::Lse)),
        (Letters::Lse, 'l') => stay(State::Word(Letters::Se)),
        (Letters::Se, 's') => stay(State::Word(Letters::E)),
        (Letters::Rue, 'r') => stay(State::Word(Letters::Ue)),
        (Letters::Ue, 'u') => stay(State::Word(Letters::E)),
        (Letters::Ull, 'u') => stay(State::Word(Letters::Ll)),
        (Letters::Ll, 'l') => stay(State::Word(Letters::L)),
        (Letters::E, 'e') | (Letters::L, 'l') => stay(State::After),
        _ => stay(State::Dead),
    }
}
