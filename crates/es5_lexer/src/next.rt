//! Tokens on a slice of characters (ECMA-262 5.1, section 7): the plain form.
ghost use Rattle.std.specs.Prelude.{◌≡◌, ◌≤◌, false, List, ℕ, drop, length, IfSome, IfNone, IsTrue, ◌↔◌, None, []};
ghost use Rattle.es5_lexer.specs.Names.{IsName};
ghost use Rattle.es5_lexer.specs.Tokens.{may_precede};
ghost use Rattle.es5_lexer.specs.Texts.{IsNextToken, Lexes, read_by};
ghost use Rattle.es5_lexer.specs.Reading.{leading_trivium, Passes, token_of, token_at};
ghost use Rattle.es5_lexer.specs.declared.tokens.Lexeme.{Lexeme};
ghost use Rattle.es5_lexer.specs.declared.tokens.Goal.{Goal};

use crate::letters::Letters;
use crate::longest::{Longest, longest_token};
use crate::places::Kind;
use crate::slices::{after, last};
use crate::tokens::{Goal, Lexeme, Token};
use crate::trivia::leading_trivium;

/// The first token at or after the place, and the place after it, where a slash is read by the goal;
/// `None` exactly where no token begins there, be it that only trivia are left.
pub fn next_token(text: &[char], place: usize, goal: Goal) -> Option<(Lexeme, usize)>
    requires { place ≤ length text.now }
    ensures within { IfSome result (λ found. found.1 ≤ length text.now) }
    ensures found { IfSome result (λ found. IsNextToken goal (drop place text.now) found.0 (drop found.1 text.now)) }
    ensures none { IfNone result ((x : Lexeme) (rest : List ℕ) → IsNextToken goal (drop place text.now) x rest → ⊥) }
{
    let (newline, rest) = after_trivia(after(text, place));
    let Some((token, left)) = token_at(rest, goal) else {
        return None;
    };
    Some((Lexeme { token, newline }, text.len() - left))
}

/// Whether all from the place on is trivia: white space, line terminators and comments.
pub fn rest_is_trivia(text: &[char], place: usize) -> bool
    requires { place ≤ length text.now }
    ensures { (g : Goal) → IsTrue result ↔ Lexes (read_by g (drop place text.now)) g [] }
{
    let (_, rest) = after_trivia(after(text, place));
    rest.is_empty()
}

/// What stands after the trivia at the beginning, and whether a line has ended in them.
fn after_trivia(text: &[char]) -> (bool, &[char])
    ensures passes { Passes false text.now result.0 result.1.now }
    ensures ends { leading_trivium result.1.now ≡ None }
{
    let mut rest = text;
    let mut newline = false;
    'trivia: while let Some(trivium) = leading_trivium(rest) {
        if trivium.ends_line {
            newline = true;
        }
        rest = last(rest, trivium.left);
    }
    (newline, rest)
}

/// The token at the beginning, and how many characters stand after it.
fn token_at(text: &[char], goal: Goal) -> Option<(Token, usize)>
    ensures value { result ≡ token_at goal text.now }
{
    let Some(Longest { kind, left }) = longest_token(goal, text) else {
        return None;
    };
    let (prefix, rest) = text.split_at(text.len() - left);
    if may_precede(kind, rest) {
        Some((token_of(kind, prefix), left))
    } else {
        None
    }
}

/// The token of this text.
fn token_of(kind: Kind, text: &[char]) -> Token
    requires { kind ≡ Kind.Name → IsName text.now }
    ensures { result ≡ token_of kind text.now }
{
    match kind {
        Kind::Name => Letters::of_name(text).token(),
        Kind::Punct(p) => Token::Punct(p),
        Kind::Number => Token::Number,
        Kind::Text => Token::Text,
        Kind::Pattern => Token::Pattern,
    }
}

/// Whether a token of the kind may stand before this.
fn may_precede(kind: Kind, rest: &[char]) -> bool
    ensures { (u : List ℕ) → result ≡ may_precede (token_of kind u) rest.now }
{
    match rest {
        [c, ..] => !kind.bars(*c),
        [] => true,
    }
}
