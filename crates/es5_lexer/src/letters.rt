//! What is kept of a name while it is read (ECMA-262 5.1, sections 7.6 and 7.6.1).
//!
//! No reserved word has more than ten letters. So eleven of a name's letters, and whether one of them is
//! written by an escape, tell its token.
ghost use Rattle.std.specs.Prelude.{◌≡◌, ℕ, List, IsTrue, false, ◌||◌, [], not, nat_lt, length};
ghost use Rattle.std.specs.Char.{is_ascii};
ghost use Rattle.es5_lexer.specs.Characters.{is_part};
ghost use Rattle.es5_lexer.specs.Letters.{kept_letter, with_letter, letter, ends_escape, token_of_letters, HeardAt};
ghost use Rattle.es5_lexer.specs.Names.{IsName, name_token};
ghost use Rattle.es5_lexer.specs.Residuals.{Leads, own, own_after};
ghost use Rattle.es5_lexer.specs.declared.tokens.Goal.{Goal};

use crate::characters::escaped;
use crate::names::name_token;
use crate::places::{Kind, Place, Seen};
use crate::states::State;
use crate::tokens::{Goal, Token};
use arrayvec::ArrayVec;

/// The letters of a name.
#[derive(Drop)]
pub(crate) struct Letters {
    /// The first eleven.
    letters: ArrayVec<u8, 11>,
    /// Whether one is written by an escape.
    escapes: bool,
}

impl Letters {
    /// None.
    pub(crate) fn new() -> Letters
        ensures letters { result.letters.items ≡ [] }
        ensures escapes { result.escapes ≡ false }
    {
        Letters {
            letters: ArrayVec::new(),
            escapes: false,
        }
    }

    /// The token of the name.
    pub(crate) fn token(&self) -> Token
        ensures { result ≡ token_of_letters self.now.escapes self.now.letters.items }
    {
        name_token(self.escapes, self.letters.as_slice())
    }

    /// Those of a whole name.
    pub(crate) fn of_name(text: &[char]) -> Letters
        requires { IsName text.now }
        ensures { token_of_letters result.escapes result.letters.items ≡ name_token text.now }
    {
        let mut letters = Letters::new();
        let [first, others @ ..] = text else {
            return letters;
        };
        letters.begin(*first);
        let mut place = Place::first(Goal::Div, *first);
        let mut rest = others;
        'name: while let [c, others @ ..] = rest {
            letters.read(place, *c);
            place = place.next(*c);
            rest = others;
        }
        letters
    }

    /// Whether all the letters that are kept of a name are there.
    pub(crate) fn is_full(&self) -> bool
        ensures { result ≡ not (nat_lt (length self.now.letters.items) 11) }
    {
        self.letters.is_full()
    }

    /// The name goes on with the part.
    #[inline]
    pub(crate) fn read_part(&mut self, b: u8)
        requires ascii { IsTrue (is_ascii b) }
        requires part { IsTrue (is_part b) }
        ensures letters { self.new.letters.items ≡ with_letter self.old.letters.items (letter Place.Name b) }
        ensures escapes { self.new.escapes ≡ self.old.escapes }
    {
        if !self.is_full() {
            self.letters.push(b);
        }
    }

    /// Follows a lexer from a state to the one after the character.
    pub(crate) fn follow(&mut self, before: State, given: Option<Kind>, after: State, c: char)
        ensures { (goal : Goal) (read : List ℕ) → Leads before goal c given after → HeardAt self.old before (own before read) → HeardAt self.new after (own_after given (own before read) c) }
    {
        if !after.is_in_name() {
            return;
        }
        match before {
            State::Token(place) if given.is_none() => self.read(place, c),
            _ => self.begin(c),
        }
    }

    /// A name begins with the character.
    fn begin(&mut self, c: char)
        ensures letters { self.new.letters.items ≡ with_letter [] (letter Place.Name c) }
        ensures escapes { self.new.escapes ≡ false }
    {
        *self = Letters::new();
        self.read(Place::Name, c);
    }

    /// The name goes on with the character after the place.
    fn read(&mut self, place: Place, c: char)
        ensures letters { self.new.letters.items ≡ with_letter self.old.letters.items (letter place c) }
        ensures escapes { self.new.escapes ≡ (self.old.escapes || ends_escape place) }
    {
        if let Some(letter) = letter(place, c) {
            self.push(letter);
        }
        if ends_escape(place) {
            self.escapes = true;
        }
    }

    /// One letter more, where room is left.
    fn push(&mut self, c: char)
        ensures letters { self.new.letters.items ≡ with_letter self.old.letters.items (Some c) }
        ensures escapes { self.new.escapes ≡ self.old.escapes }
    {
        if !self.letters.is_full() {
            self.letters.push(kept_letter(c));
        }
    }
}

/// The letter as it is kept: one beyond ASCII stands in no word.
fn kept_letter(c: char) -> u8
    ensures { result ≡ kept_letter c }
{
    if c.is_ascii() { c as u8 } else { 0xFF }
}

/// The letter of a name that is whole with the character after the place.
fn letter(place: Place, c: char) -> Option<char>
    ensures { result ≡ letter place c }
{
    match place {
        Place::Name => plain_letter(c),
        Place::Escape(_, Seen::ThreeDigits(a, b, d)) => {
            escaped(char::from(a), char::from(b), char::from(d), c)
        }
        _ => None,
    }
}

/// The character, unless it begins an escape.
fn plain_letter(c: char) -> Option<char>
    ensures { result ≡ letter Place.Name c }
{
    if c == '\\' { None } else { Some(c) }
}

/// Whether an escape is whole with the character after the place.
fn ends_escape(place: Place) -> bool
    ensures { result ≡ ends_escape place }
{
    matches!(place, Place::Escape(_, Seen::ThreeDigits(_, _, _)))
}
