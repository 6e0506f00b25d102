//! Where a lexer stands that is fed characters (ECMA-262 5.1, section 7).
//!
//! A token goes on as long as it can, so the character after it ends it; that character then begins
//! what follows. A slash is kept until the character after it comes: only then it is known whether
//! a comment begins, and how the grammar of programs wants the slash read.
ghost use Rattle.std.specs.Prelude.{◌≡◌, ℕ, List, ◌==◌, ◌&&◌, Bool, true, false, is_some};
ghost use Rattle.es5_lexer.specs.Texts.{ended_by};
ghost use Rattle.es5_lexer.specs.Places.{ended, is_dead, next};
ghost use Rattle.es5_lexer.specs.Residuals.{Steps, Ends, EndsAs, Leads, is_in_name, is_dead_state};

use crate::characters::{is_line_end, is_space};
use crate::places::{Kind, Place};
use crate::tokens::Goal;

/// Where a lexer stands.
#[derive(Clone, Copy)]
pub(crate) enum State {
    /// Between tokens and comments.
    Start,
    /// After a slash that may begin a comment, a regular expression or a division.
    Slash,
    /// In a comment of one line.
    LineComment,
    /// In a comment of several lines, after a `*` or not.
    BlockComment(bool),
    /// In a token, or where none begins.
    Token(Place),
}

/// What a character does.
#[derive(Clone, Copy)]
pub(crate) struct Step {
    /// The token that has ended before it.
    pub(crate) given: Option<Kind>,
    /// Where the lexer stands after it.
    pub(crate) state: State,
    /// Whether a line has ended since the last token.
    pub(crate) newline: bool,
}

impl State {
    /// After one character more.
    pub(crate) fn step(self, newline: bool, goal: Goal, c: char) -> Step
        ensures steps { (read : List ℕ) → Steps self read newline goal c result.given result.state result.newline }
        ensures leads { Leads self goal c result.given result.state }
    {
        match self {
            State::Start => {
                let (state, newline) = begin(newline, goal, c);
                Step {
                    given: None,
                    state,
                    newline,
                }
            }
            State::Slash => past_slash(newline, goal, c),
            State::LineComment => in_line(newline, goal, c),
            State::BlockComment(star) => in_block(star, newline, goal, c),
            State::Token(place) => in_token(place, newline, goal, c),
        }
    }

    /// Whether the text may end here, a slash read by the goal, and its last token if that ends here.
    pub(crate) fn end(self, goal: Goal) -> (bool, Option<Kind>)
        ensures ends { (read : List ℕ) (newline : Bool) → Ends self read newline goal result.0 result.1 }
        ensures kind { EndsAs self goal result.0 result.1 }
    {
        match self {
            State::Start => (true, None),
            State::LineComment => (true, None),
            State::BlockComment(_) => (false, None),
            State::Slash => end_of_token(Place::past_slash(goal)),
            State::Token(place) => end_of_token(place),
        }
    }

    /// Whether a name stands here, or what may become one.
    pub(crate) fn is_in_name(self) -> bool
        ensures { result ≡ is_in_name self }
    {
        matches!(self, State::Token(Place::Name | Place::Escape(_, _)))
    }

    /// Whether no text goes on from here.
    pub(crate) fn is_dead(self) -> bool
        ensures { result ≡ is_dead_state self }
    {
        match self {
            State::Token(place) => place.is_dead(),
            _ => false,
        }
    }
}

/// After a character that ends no token and is in none: where the lexer stands, and whether a line has
/// ended.
fn begin(newline: bool, goal: Goal, c: char) -> (State, bool)
    ensures steps { (read : List ℕ) → Steps State.Start read newline goal c None result.0 result.1 }
    ensures leads { Leads State.Start goal c None result.0 }
{
    if is_line_end(c) {
        (State::Start, true)
    } else if is_space(c) {
        (State::Start, newline)
    } else if c == '/' {
        (State::Slash, newline)
    } else {
        (State::Token(Place::first(goal, c)), newline)
    }
}

/// After a slash and one character more.
fn past_slash(newline: bool, goal: Goal, c: char) -> Step
    ensures steps { (read : List ℕ) → Steps State.Slash read newline goal c result.given result.state result.newline }
    ensures leads { Leads State.Slash goal c result.given result.state }
{
    if c == '/' {
        Step {
            given: None,
            state: State::LineComment,
            newline,
        }
    } else if c == '*' {
        Step {
            given: None,
            state: State::BlockComment(false),
            newline,
        }
    } else {
        in_token(Place::past_slash(goal), newline, goal, c)
    }
}

/// In a comment of one line, and one character more.
fn in_line(newline: bool, goal: Goal, c: char) -> Step
    ensures steps { (read : List ℕ) → Steps State.LineComment read newline goal c result.given result.state result.newline }
    ensures leads { Leads State.LineComment goal c result.given result.state }
{
    if is_line_end(c) {
        between(State::Start, true)
    } else {
        between(State::LineComment, newline)
    }
}

/// In a comment of several lines, and one character more.
fn in_block(star: bool, newline: bool, goal: Goal, c: char) -> Step
    ensures steps { (read : List ℕ) → Steps (State.BlockComment star) read newline goal c result.given result.state result.newline }
    ensures leads { Leads (State.BlockComment star) goal c result.given result.state }
{
    if closes(star, c) {
        between(State::Start, newline)
    } else {
        between(State::BlockComment(c == '*'), ended_by(newline, c))
    }
}

/// Whether the character ends a comment of several lines.
fn closes(star: bool, c: char) -> bool
    ensures { result ≡ (star && (c == 47)) }
{
    star && c == '/'
}

/// Whether a line has ended, by what was so before the character.
fn ended_by(newline: bool, c: char) -> bool
    ensures { result ≡ ended_by newline c }
{
    if is_line_end(c) { true } else { newline }
}

/// No token has ended.
fn between(state: State, newline: bool) -> Step
    ensures { result ≡ record { given = None; state = state; newline = newline } }
{
    Step {
        given: None,
        state,
        newline,
    }
}

/// In a token, and one character more: the token goes on, or it ends before the character, or no token
/// begins where it began.
fn in_token(place: Place, newline: bool, goal: Goal, c: char) -> Step
    ensures steps { (read : List ℕ) → Steps (State.Token place) read newline goal c result.given result.state result.newline }
    ensures leads { Leads (State.Token place) goal c result.given result.state }
{
    let next = place.next(c);
    if !next.is_dead() {
        between(State::Token(next), newline)
    } else if let Some(kind) = place.ended() {
        past_token(kind, place, newline, goal, c)
    } else {
        dead(place.before_escape())
    }
}

/// After a whole token that doesn't go on by the character.
fn past_token(kind: Kind, place: Place, newline: bool, goal: Goal, c: char) -> Step
    requires ended { ended place ≡ Some kind }
    requires dead { is_dead (next place c) ≡ true }
    ensures steps { (read : List ℕ) → Steps (State.Token place) read newline goal c result.given result.state result.newline }
    ensures leads { Leads (State.Token place) goal c result.given result.state }
{
    if kind.bars(c) {
        dead(None)
    } else {
        let (state, newline) = begin(false, goal, c);
        Step {
            given: Some(kind),
            state,
            newline,
        }
    }
}

/// Where no token begins, after the last one.
fn dead(given: Option<Kind>) -> Step
    ensures { result ≡ record { given = given; state = State.Token Place.Dead; newline = false } }
{
    Step {
        given,
        state: State::Token(Place::Dead),
        newline: false,
    }
}

/// The end in a token.
fn end_of_token(place: Place) -> (bool, Option<Kind>)
    ensures whole { result.0 ≡ is_some (ended place) }
    ensures kind { result.0 ≡ true → result.1 ≡ ended place }
{
    match place.ended() {
        Some(kind) => (true, Some(kind)),
        None => (false, place.before_escape()),
    }
}
