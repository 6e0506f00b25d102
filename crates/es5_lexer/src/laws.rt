//! Laws of the definitions.
ghost use Rattle.std.specs.Prelude.{◌≡◌, ℕ, List, [], ◌∷◌, ◌++◌, ◌↔◌};
ghost use Rattle.es5_lexer.specs.Texts.{Mark, Lexes, EndWithin, LexesEither, HasReading, IsNextToken};
ghost use Rattle.es5_lexer.specs.declared.tokens.Goal.{Goal};
ghost use Rattle.es5_lexer.specs.declared.tokens.Lexeme.{Lexeme};
ghost use Rattle.es5_lexer.specs.Lexing.{HasRead};
ghost use Rattle.es5_lexer.specs.declared.lexer.Lexer.{Lexer};

/// Under given goals a text has at most one list of tokens.
pub fn one_list_of_tokens()
    ensures { (w : List Mark) (end : Goal) (s t : List Lexeme) → Lexes w end s → Lexes w end t → s ≡ t }
{}

/// Under a given goal there is at most one next token, and it ends at one place.
pub fn one_next_token()
    ensures token { (g : Goal) (u : List ℕ) (x y : Lexeme) (v w : List ℕ) → IsNextToken g u x v → IsNextToken g u y w → x ≡ y }
    ensures rest { (g : Goal) (u : List ℕ) (x y : Lexeme) (v w : List ℕ) → IsNextToken g u x v → IsNextToken g u y w → v ≡ w }
{}

/// A text with these tokens, each slash read in either way, is one with these tokens under some goals.
pub fn either_reading()
    ensures { (u : List ℕ) (tokens : List Lexeme) → LexesEither u tokens ↔ HasReading u tokens }
{}

/// A lexer has given all tokens that end before the last character it has read, in any text that goes on
/// from there.
pub fn ended_tokens_are_given()
    ensures { (lexer : Lexer) (m : List Mark) (last : Mark) (given : List Lexeme) → HasRead lexer (m ++ last ∷ []) given → (w : List Mark) (end : Goal) (tokens : List Lexeme) → EndWithin m (last ∷ w) end tokens → (others : List Lexeme) × (given ≡ tokens ++ others) }
{}

/// What a lexer gave is a prefix of the tokens of every text that goes on from what it has read.
pub fn given_tokens_stay()
    ensures { (lexer : Lexer) (m : List Mark) (given : List Lexeme) → HasRead lexer m given → (w : List Mark) (end : Goal) (tokens : List Lexeme) → Lexes (m ++ w) end tokens → (others : List Lexeme) × (tokens ≡ given ++ others) }
{}
