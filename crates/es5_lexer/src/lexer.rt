//! Tokens of a text that comes in pieces (ECMA-262 5.1, section 7).
//!
//! A [`Lexer`] is fed one character after another, each with the goal that the grammar of programs has
//! then, and gives each token once the character after it has come. It is of a fixed size: the state
//! (`states`) has its place in a token, and of a name eleven letters are kept (`letters`).
ghost use Rattle.std.specs.Prelude.{◌≡◌, ◌≤◌, ℕ, true, List, [], ◌∷◌, ◌++◌, length, take, IsTrue, ◌↔◌};
ghost use Rattle.std.specs.List.{list_all, prefix_len};
ghost use Rattle.std.specs.Char.{is_ascii};
ghost use Rattle.es5_lexer.specs.Texts.{Mark, mark, chars, Lexes, EndWithin};
ghost use Rattle.es5_lexer.specs.Suits.{Suits};
ghost use Rattle.es5_lexer.specs.Begins.{Begins};
ghost use Rattle.es5_lexer.specs.Lexing.{HasRead};
ghost use Rattle.es5_lexer.specs.Runs.{passes};
ghost use Rattle.es5_lexer.specs.Letters.{token_of_kind, given_lexemes};
ghost use Rattle.es5_lexer.specs.declared.tokens.Goal.{Goal};
ghost use Rattle.es5_lexer.specs.declared.tokens.Lexeme.{Lexeme};

use crate::letters::Letters;
use crate::places::{Kind, Place};
use crate::runs::{is_name_part, staying};
use crate::states::{State, Step};
use crate::tokens::{Goal, Lexeme, Token};
use arrayvec::ArrayVec;
use text_stream::run_length;

/// Reads a text a character at a time.
#[derive(Drop)]
pub struct Lexer {
    state: State,
    /// Whether a line has ended since the last token.
    newline: bool,
    /// Of the name at hand, if one is.
    letters: Letters,
}

impl Lexer {
    /// Before the first character.
    pub fn new() -> Lexer
        ensures { HasRead result [] [] }
    {
        Lexer {
            state: State::Start,
            newline: false,
            letters: Letters::new(),
        }
    }

    /// Reads one character more, and appends to `out` the token that has ended before it, if one has. A
    /// slash is kept until the next character, whose goal says how it is read; no other goal counts. All
    /// tokens that end before this character have been given then.
    pub fn feed_char(&mut self, goal: Goal, c: char, out: &mut ArrayVec<Lexeme, 2>)
        requires { out.old.items ≡ [] }
        ensures reads { (m : List Mark) (given : List Lexeme) → HasRead self.old m given → HasRead self.new (m ++ mark goal c ∷ []) (given ++ out.new.items) }
        ensures at_least { (m : List Mark) (given : List Lexeme) → HasRead self.old m given → (w : List Mark) (end : Goal) (tokens : List Lexeme) → EndWithin m (mark goal c ∷ w) end tokens → (others : List Lexeme) × (given ++ out.new.items ≡ tokens ++ others) }
        ensures asks { (m : List Mark) (given : List Lexeme) → HasRead self.old m given → (other : Goal) (w : List Mark) (end : Goal) (tokens : List Lexeme) → Lexes (m ++ mark other c ∷ w) end tokens → Suits given goal tokens → Lexes (m ++ mark goal c ∷ w) end tokens }
    {
        let before = self.state;
        let Step {
            given,
            state,
            newline,
        } = before.step(self.newline, goal, c);
        self.give(given, out);
        self.letters.follow(before, given, state, c);
        self.state = state;
        self.newline = newline;
    }

    /// Whether the text may end here, and appends to `out` the last token, if it ends here: a slash that is
    /// kept is read by the goal.
    pub fn finish(&self, goal: Goal, out: &mut ArrayVec<Lexeme, 2>) -> bool
        requires { out.old.items ≡ [] }
        ensures gives { (m : List Mark) (given : List Lexeme) → HasRead self.now m given → IsTrue result → Lexes m goal (given ++ out.new.items) }
        ensures exact { (m : List Mark) (given tokens : List Lexeme) → HasRead self.now m given → Lexes m goal tokens → IsTrue result × (tokens ≡ given ++ out.new.items) }
        ensures asks { (m : List Mark) (given : List Lexeme) → HasRead self.now m given → (other : Goal) (tokens : List Lexeme) → Lexes m other tokens → Suits given goal tokens → Lexes m goal tokens }
    {
        let (whole, given) = self.state.end(goal);
        self.give(given, out);
        whole
    }

    /// Whether no text that begins with the characters read has tokens: whatever comes, `finish` will
    /// answer no. While they end in an escape of a name or of flags that isn't whole, its digits don't
    /// count.
    pub fn is_dead(&self) -> bool
        ensures { (m : List Mark) (given : List Lexeme) → HasRead self.now m given → IsTrue result ↔ (Begins m → ⊥) }
    {
        self.state.is_dead()
    }

    /// How many bytes at the beginning of the piece are ASCII characters that leave the lexer as it is, under
    /// whatever goals, up to the first that isn't one: most of white space, comments, strings and long
    /// names. They have been read then without being fed.
    pub fn run_length(&self, piece: &[u8]) -> usize
        ensures longest { result ≡ prefix_len (passes self.now) piece.now }
        ensures within { result ≤ length piece.now }
        ensures ascii { list_all is_ascii (take result piece.now) ≡ true }
        ensures reads { (m : List Mark) (given : List Lexeme) → HasRead self.now m given → (q : List Mark) → chars q ≡ take result piece.now → HasRead self.now (m ++ q) given }
        ensures at_least { (m : List Mark) (given : List Lexeme) → HasRead self.now m given → (q : List Mark) (last : Mark) → chars (q ++ last ∷ []) ≡ take result piece.now → (w : List Mark) (end : Goal) (tokens : List Lexeme) → EndWithin (m ++ q) (last ∷ w) end tokens → (others : List Lexeme) × (given ≡ tokens ++ others) }
        ensures asks { (m : List Mark) (given : List Lexeme) → HasRead self.now m given → (p q w : List Mark) → chars p ≡ take result piece.now → chars q ≡ take result piece.now → (end : Goal) (tokens : List Lexeme) → Lexes (m ++ (p ++ w)) end tokens → Lexes (m ++ (q ++ w)) end tokens }
    {
        run_length(staying(self.state, self.letters.is_full()), piece)
    }

    /// Reads the bytes at the beginning of the piece that are ASCII characters and, under whatever goals, neither end a token
    /// nor begin one: those that leave the lexer as it is, or the parts of a name. Says how many these are.
    #[inline]
    pub fn feed_run(&mut self, piece: &[u8]) -> usize
        ensures within { result ≤ length piece.now }
        ensures ascii { list_all is_ascii (take result piece.now) ≡ true }
        ensures reads { (m : List Mark) (given : List Lexeme) → HasRead self.old m given → (q : List Mark) → chars q ≡ take result piece.now → HasRead self.new (m ++ q) given }
        ensures at_least { (m : List Mark) (given : List Lexeme) → HasRead self.old m given → (q : List Mark) (last : Mark) → chars (q ++ last ∷ []) ≡ take result piece.now → (w : List Mark) (end : Goal) (tokens : List Lexeme) → EndWithin (m ++ q) (last ∷ w) end tokens → (others : List Lexeme) × (given ≡ tokens ++ others) }
        ensures asks { (m : List Mark) (given : List Lexeme) → HasRead self.old m given → (p q w : List Mark) → chars p ≡ take result piece.now → chars q ≡ take result piece.now → (end : Goal) (tokens : List Lexeme) → Lexes (m ++ (p ++ w)) end tokens → Lexes (m ++ (q ++ w)) end tokens }
    {
        match self.state {
            State::Token(Place::Name) => self.feed_parts(piece),
            _ => self.run_length(piece),
        }
    }

    /// Reads the parts of a name at the beginning of the piece, and says how many these are.
    fn feed_parts(&mut self, piece: &[u8]) -> usize
        requires { self.old.state ≡ State.Token Place.Name }
        ensures within { result ≤ length piece.now }
        ensures ascii { list_all is_ascii (take result piece.now) ≡ true }
        ensures reads { (m : List Mark) (given : List Lexeme) → HasRead self.old m given → (q : List Mark) → chars q ≡ take result piece.now → HasRead self.new (m ++ q) given }
        ensures asks { (m : List Mark) (given : List Lexeme) → HasRead self.old m given → (p q w : List Mark) → chars p ≡ take result piece.now → chars q ≡ take result piece.now → (end : Goal) (tokens : List Lexeme) → Lexes (m ++ (p ++ w)) end tokens → Lexes (m ++ (q ++ w)) end tokens }
    {
        let mut count = 0;
        'parts: while count < piece.len() && is_name_part(piece[count]) {
            self.letters.read_part(piece[count]);
            count += 1;
        }
        count
    }

    /// Appends a token that has ended.
    fn give(&self, kind: Option<Kind>, out: &mut ArrayVec<Lexeme, 2>)
        requires { out.old.items ≡ [] }
        ensures { out.new.items ≡ given_lexemes self.now.letters kind self.now.newline }
    {
        if let Some(kind) = kind {
            out.push(Lexeme {
                token: self.token_of(kind),
                newline: self.newline,
            });
        }
    }

    /// The token of the kind, a name by its letters.
    fn token_of(&self, kind: Kind) -> Token
        ensures { result ≡ token_of_kind self.now.letters kind }
    {
        match kind {
            Kind::Name => self.letters.token(),
            Kind::Punct(p) => Token::Punct(p),
            Kind::Number => Token::Number,
            Kind::Text => Token::Text,
            Kind::Pattern => Token::Pattern,
        }
    }
}
