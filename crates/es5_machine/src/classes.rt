//! The sets of tokens that the grammar names, and single tokens (ECMA-262 5.1, sections 7.9, 11 and 12).
ghost use Rattle.std.specs.Prelude.{◌≡◌};
ghost use Rattle.es5_trees.specs.Words as words;
ghost use Rattle.es5_trees.specs.Endings as endings;
ghost use Rattle.es5_trees.specs.Good.{may_stand};
ghost use Rattle.es5_machine.specs.Classes as classes;
ghost use Rattle.es5_machine.specs.Classes.{ending_of};

use crate::states::Ended;
use es5_lexer::{Punct, Token, Word};

/// Identifier.
pub(crate) fn is_ident(token: Token) -> bool
    ensures { result ≡ words.is_ident token }
{
    matches!(token, Token::Ident | Token::Get | Token::Set)
}

/// IdentifierName: an identifier or a word.
pub(crate) fn is_name(token: Token) -> bool
    ensures { result ≡ words.is_name token }
{
    matches!(token, Token::Word(_) | Token::EscapedWord) || is_ident(token)
}

/// PropertyName.
pub(crate) fn is_key(token: Token) -> bool
    ensures { result ≡ words.is_key token }
{
    matches!(token, Token::Number | Token::Text) || is_name(token)
}

/// A token that is a PrimaryExpression.
pub(crate) fn is_atom(token: Token) -> bool
    ensures { result ≡ words.is_atom token }
{
    match token {
        Token::Number | Token::Text | Token::Pattern => true,
        Token::Ident | Token::Get | Token::Set => true,
        Token::Word(word) => matches!(word, Word::This | Word::Null | Word::True | Word::False),
        _ => false,
    }
}

/// `++` and `--`.
pub(crate) fn is_update(mark: Punct) -> bool
    ensures { result ≡ words.is_update mark }
{
    matches!(mark, Punct::PlusPlus | Punct::MinusMinus)
}

/// An operator of UnaryExpression.
pub(crate) fn is_prefix(token: Token) -> bool
    ensures { result ≡ words.is_prefix token }
{
    match token {
        Token::Word(word) => matches!(word, Word::Delete | Word::Void | Word::Typeof),
        Token::Punct(mark) => is_prefix_mark(mark),
        _ => false,
    }
}

fn is_prefix_mark(mark: Punct) -> bool
    ensures { result ≡ words.is_prefix (Token.Punct mark) }
{
    match mark {
        Punct::Plus | Punct::Minus | Punct::Tilde | Punct::Not => true,
        Punct::PlusPlus | Punct::MinusMinus => true,
        _ => false,
    }
}

/// AssignmentOperator, and `=`.
pub(crate) fn is_assign(mark: Punct) -> bool
    ensures { result ≡ words.is_assign mark }
{
    match mark {
        Punct::Assign | Punct::PlusAssign | Punct::MinusAssign | Punct::StarAssign => true,
        Punct::SlashAssign | Punct::PercentAssign | Punct::ShiftLeftAssign => true,
        Punct::ShiftRightAssign | Punct::ShiftRightZeroAssign | Punct::AndAssign => true,
        Punct::OrAssign | Punct::XorAssign => true,
        _ => false,
    }
}

/// A binary operator.
pub(crate) fn is_binary(token: Token) -> bool
    ensures { result ≡ words.is_binary token }
{
    match token {
        Token::Punct(mark) => is_binary_mark(mark),
        Token::Word(word) => matches!(word, Word::In | Word::Instanceof),
        _ => false,
    }
}

fn is_binary_mark(mark: Punct) -> bool
    ensures { result ≡ words.is_binary (Token.Punct mark) }
{
    match mark {
        Punct::OrOr | Punct::AndAnd | Punct::Or | Punct::Xor | Punct::And => true,
        Punct::Equal | Punct::NotEqual | Punct::SameEqual | Punct::NotSame => true,
        Punct::Less | Punct::Greater | Punct::LessEqual | Punct::GreaterEqual => true,
        Punct::ShiftLeft | Punct::ShiftRight | Punct::ShiftRightZero => true,
        Punct::Plus | Punct::Minus | Punct::Star | Punct::Slash | Punct::Percent => true,
        _ => false,
    }
}

/// The operator `in`.
pub(crate) fn is_in(token: Token) -> bool
    ensures { result ≡ words.is_in token }
{
    matches!(token, Token::Word(Word::In))
}

/// Whether the operator may stand where `in` may or may not.
pub(crate) fn may_stand(with_in: bool, token: Token) -> bool
    ensures { result ≡ may_stand with_in token }
{
    with_in || !is_in(token)
}

/// The tokens before which no semicolon is left out, whatever line they stand on.
pub(crate) fn is_held(ended: Ended, token: Token) -> bool
    ensures { result ≡ endings.is_held (ending_of ended) token }
{
    match ended {
        Ended::ByOperand => begins_suffix(token) || continues(token),
        Ended::ByUpdate => continues(token),
        Ended::ByName => is_held_by_name(token),
        Ended::ByWord => is_semicolon(token),
    }
}

fn is_held_by_name(token: Token) -> bool
    ensures { result ≡ endings.is_held (ending_of Ended.ByName) token }
{
    match token {
        Token::Punct(mark) => matches!(mark, Punct::Semicolon | Punct::Assign | Punct::Comma),
        _ => false,
    }
}

/// `(`, `[` and `.`.
fn begins_suffix(token: Token) -> bool
    ensures { result ≡ endings.begins_suffix token }
{
    match token {
        Token::Punct(mark) => matches!(mark, Punct::LeftParen | Punct::LeftBracket | Punct::Dot),
        _ => false,
    }
}

/// `;`, `,`, `?`, an operator, and each token that begins with a slash.
fn continues(token: Token) -> bool
    ensures { result ≡ endings.continues token }
{
    match token {
        Token::Punct(mark) => continues_mark(mark),
        Token::Pattern => true,
        _ => is_binary(token),
    }
}

fn continues_mark(mark: Punct) -> bool
    ensures { result ≡ endings.continues (Token.Punct mark) }
{
    match mark {
        Punct::Semicolon | Punct::Comma | Punct::Question => true,
        _ => is_binary_mark(mark) || is_assign(mark),
    }
}

/// `}`
pub(crate) fn is_right_brace(token: Token) -> bool
    ensures { result ≡ endings.is_right_brace token }
{
    matches!(token, Token::Punct(Punct::RightBrace))
}

/// `?`
pub(crate) fn is_question(token: Token) -> bool
    ensures { result ≡ classes.is_question token }
{
    matches!(token, Token::Punct(Punct::Question))
}

/// `;`
pub(crate) fn is_semicolon(token: Token) -> bool
    ensures { result ≡ classes.is_semicolon token }
{
    matches!(token, Token::Punct(Punct::Semicolon))
}

/// `:`
pub(crate) fn is_colon(token: Token) -> bool
    ensures { result ≡ classes.is_colon token }
{
    matches!(token, Token::Punct(Punct::Colon))
}

/// `,`
pub(crate) fn is_comma(token: Token) -> bool
    ensures { result ≡ classes.is_comma token }
{
    matches!(token, Token::Punct(Punct::Comma))
}

/// `=`
pub(crate) fn is_equals(token: Token) -> bool
    ensures { result ≡ classes.is_equals token }
{
    matches!(token, Token::Punct(Punct::Assign))
}

/// `(`
pub(crate) fn is_left_paren(token: Token) -> bool
    ensures { result ≡ classes.is_left_paren token }
{
    matches!(token, Token::Punct(Punct::LeftParen))
}

/// `)`
pub(crate) fn is_right_paren(token: Token) -> bool
    ensures { result ≡ classes.is_right_paren token }
{
    matches!(token, Token::Punct(Punct::RightParen))
}

/// `{`
pub(crate) fn is_left_brace(token: Token) -> bool
    ensures { result ≡ classes.is_left_brace token }
{
    matches!(token, Token::Punct(Punct::LeftBrace))
}

/// `else`
pub(crate) fn is_else(token: Token) -> bool
    ensures { result ≡ classes.is_else token }
{
    matches!(token, Token::Word(Word::Else))
}

/// `while`
pub(crate) fn is_while(token: Token) -> bool
    ensures { result ≡ classes.is_while token }
{
    matches!(token, Token::Word(Word::While))
}

/// `finally`
pub(crate) fn is_finally(token: Token) -> bool
    ensures { result ≡ classes.is_finally token }
{
    matches!(token, Token::Word(Word::Finally))
}

/// `case`
pub(crate) fn is_case(token: Token) -> bool
    ensures { result ≡ classes.is_case token }
{
    matches!(token, Token::Word(Word::Case))
}

/// `default`
pub(crate) fn is_default(token: Token) -> bool
    ensures { result ≡ classes.is_default token }
{
    matches!(token, Token::Word(Word::Default))
}

/// `function`
pub(crate) fn is_function(token: Token) -> bool
    ensures { result ≡ classes.is_function token }
{
    matches!(token, Token::Word(Word::Function))
}
