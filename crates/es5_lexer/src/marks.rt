//! Punctuators (ECMA-262 5.1, section 7.7), a character at a time: each beginning of one is one.
ghost use Rattle.std.specs.Prelude.{◌≡◌};
ghost use Rattle.es5_lexer.specs.Places.{mark, longer, by_equals};

use crate::tokens::Punct;

/// The punctuator that is this character alone, division apart.
pub(crate) fn mark(c: char) -> Option<Punct>
    ensures { result ≡ mark c }
{
    match c {
        '{' => Some(Punct::LeftBrace),
        '}' => Some(Punct::RightBrace),
        '(' => Some(Punct::LeftParen),
        ')' => Some(Punct::RightParen),
        '[' => Some(Punct::LeftBracket),
        ']' => Some(Punct::RightBracket),
        '.' => Some(Punct::Dot),
        ';' => Some(Punct::Semicolon),
        ',' => Some(Punct::Comma),
        '<' => Some(Punct::Less),
        '>' => Some(Punct::Greater),
        '+' => Some(Punct::Plus),
        '-' => Some(Punct::Minus),
        '*' => Some(Punct::Star),
        '%' => Some(Punct::Percent),
        '&' => Some(Punct::And),
        '|' => Some(Punct::Or),
        '^' => Some(Punct::Xor),
        '!' => Some(Punct::Not),
        '~' => Some(Punct::Tilde),
        '?' => Some(Punct::Question),
        ':' => Some(Punct::Colon),
        '=' => Some(Punct::Assign),
        _ => None,
    }
}

/// The punctuator that the character makes of this one.
pub(crate) fn longer(p: Punct, c: char) -> Option<Punct>
    ensures { result ≡ longer p c }
{
    match p {
        Punct::Less if c == '<' => Some(Punct::ShiftLeft),
        Punct::Greater if c == '>' => Some(Punct::ShiftRight),
        Punct::ShiftRight if c == '>' => Some(Punct::ShiftRightZero),
        Punct::Plus if c == '+' => Some(Punct::PlusPlus),
        Punct::Minus if c == '-' => Some(Punct::MinusMinus),
        Punct::And if c == '&' => Some(Punct::AndAnd),
        Punct::Or if c == '|' => Some(Punct::OrOr),
        _ if c == '=' => by_equals(p),
        _ => None,
    }
}

/// The punctuator that `=` makes of this one.
fn by_equals(p: Punct) -> Option<Punct>
    ensures { result ≡ by_equals p }
{
    match p {
        Punct::Less => Some(Punct::LessEqual),
        Punct::Greater => Some(Punct::GreaterEqual),
        Punct::Assign => Some(Punct::Equal),
        Punct::Not => Some(Punct::NotEqual),
        Punct::Equal => Some(Punct::SameEqual),
        Punct::NotEqual => Some(Punct::NotSame),
        Punct::Plus => Some(Punct::PlusAssign),
        Punct::Minus => Some(Punct::MinusAssign),
        Punct::Star => Some(Punct::StarAssign),
        Punct::Percent => Some(Punct::PercentAssign),
        Punct::ShiftLeft => Some(Punct::ShiftLeftAssign),
        Punct::ShiftRight => Some(Punct::ShiftRightAssign),
        Punct::ShiftRightZero => Some(Punct::ShiftRightZeroAssign),
        Punct::And => Some(Punct::AndAssign),
        Punct::Or => Some(Punct::OrAssign),
        Punct::Xor => Some(Punct::XorAssign),
        Punct::Slash => Some(Punct::SlashAssign),
        _ => None,
    }
}
