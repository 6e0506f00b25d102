//! Texts with their tokens, through [`next_token`] and [`rest_is_trivia`].
use crate::Token::{EscapedWord, Get, Ident, Number, Pattern, Punct, Set, Text, Word};
use crate::{Goal, Lexeme, Punct as P, Token, Word as W, next_token, rest_is_trivia};
use std::alloc::{AllocError, Global};
use std::test::Fail;

/// Texts whose slashes are divisions.
pub(crate) const DIVIDING: [(&str, &[Token]); 117] = [
    (
        "{ 1 2 } 3",
        &[
            Punct(P::LeftBrace),
            Number,
            Number,
            Punct(P::RightBrace),
            Number,
        ],
    ),
    (
        "a\n/b/.c",
        &[
            Ident,
            Punct(P::Slash),
            Ident,
            Punct(P::Slash),
            Punct(P::Dot),
            Ident,
        ],
    ),
    ("let x = 1", &[Ident, Ident, Punct(P::Assign), Number]),
    ("", &[]),
    (
        "a/b/c",
        &[Ident, Punct(P::Slash), Ident, Punct(P::Slash), Ident],
    ),
    (
        "a /= b / c",
        &[Ident, Punct(P::SlashAssign), Ident, Punct(P::Slash), Ident],
    ),
    ("a / /**/ b", &[Ident, Punct(P::Slash), Ident]),
    ("1..a", &[Number, Punct(P::Dot), Ident]),
    ("010", &[Number]),
    ("\"\\9\"", &[Text]),
    ("va\\u0072", &[EscapedWord]),
    ("\\u0067et", &[Ident]),
    ("get", &[Get]),
    ("set", &[Set]),
    (
        "{ } ( ) [ ] . ; , < > <= >= == != === !==",
        &[
            Punct(P::LeftBrace),
            Punct(P::RightBrace),
            Punct(P::LeftParen),
            Punct(P::RightParen),
            Punct(P::LeftBracket),
            Punct(P::RightBracket),
            Punct(P::Dot),
            Punct(P::Semicolon),
            Punct(P::Comma),
            Punct(P::Less),
            Punct(P::Greater),
            Punct(P::LessEqual),
            Punct(P::GreaterEqual),
            Punct(P::Equal),
            Punct(P::NotEqual),
            Punct(P::SameEqual),
            Punct(P::NotSame),
        ],
    ),
    (
        "+ - * % ++ -- << >> >>> & | ^ ! ~ && || ? :",
        &[
            Punct(P::Plus),
            Punct(P::Minus),
            Punct(P::Star),
            Punct(P::Percent),
            Punct(P::PlusPlus),
            Punct(P::MinusMinus),
            Punct(P::ShiftLeft),
            Punct(P::ShiftRight),
            Punct(P::ShiftRightZero),
            Punct(P::And),
            Punct(P::Or),
            Punct(P::Xor),
            Punct(P::Not),
            Punct(P::Tilde),
            Punct(P::AndAnd),
            Punct(P::OrOr),
            Punct(P::Question),
            Punct(P::Colon),
        ],
    ),
    (
        "= += -= *= %= <<= >>= >>>= &= |= ^= / /=",
        &[
            Punct(P::Assign),
            Punct(P::PlusAssign),
            Punct(P::MinusAssign),
            Punct(P::StarAssign),
            Punct(P::PercentAssign),
            Punct(P::ShiftLeftAssign),
            Punct(P::ShiftRightAssign),
            Punct(P::ShiftRightZeroAssign),
            Punct(P::AndAssign),
            Punct(P::OrAssign),
            Punct(P::XorAssign),
            Punct(P::Slash),
            Punct(P::SlashAssign),
        ],
    ),
    ("a>>>=b", &[Ident, Punct(P::ShiftRightZeroAssign), Ident]),
    ("a>>>b", &[Ident, Punct(P::ShiftRightZero), Ident]),
    ("a>>=b", &[Ident, Punct(P::ShiftRightAssign), Ident]),
    ("a>>b", &[Ident, Punct(P::ShiftRight), Ident]),
    ("a<<=b", &[Ident, Punct(P::ShiftLeftAssign), Ident]),
    ("a===b", &[Ident, Punct(P::SameEqual), Ident]),
    ("a!==b", &[Ident, Punct(P::NotSame), Ident]),
    (
        "a====b",
        &[Ident, Punct(P::SameEqual), Punct(P::Assign), Ident],
    ),
    (
        "a!====b",
        &[Ident, Punct(P::NotSame), Punct(P::Equal), Ident],
    ),
    ("a+++b", &[Ident, Punct(P::PlusPlus), Punct(P::Plus), Ident]),
    (
        "a---b",
        &[Ident, Punct(P::MinusMinus), Punct(P::Minus), Ident],
    ),
    ("a&&&b", &[Ident, Punct(P::AndAnd), Punct(P::And), Ident]),
    ("a|||b", &[Ident, Punct(P::OrOr), Punct(P::Or), Ident]),
    (
        "a>=>b",
        &[Ident, Punct(P::GreaterEqual), Punct(P::Greater), Ident],
    ),
    ("!!a", &[Punct(P::Not), Punct(P::Not), Ident]),
    ("a=>b", &[Ident, Punct(P::Assign), Punct(P::Greater), Ident]),
    (
        "break case catch continue debugger default delete do else finally for function",
        &[
            Word(W::Break),
            Word(W::Case),
            Word(W::Catch),
            Word(W::Continue),
            Word(W::Debugger),
            Word(W::Default),
            Word(W::Delete),
            Word(W::Do),
            Word(W::Else),
            Word(W::Finally),
            Word(W::For),
            Word(W::Function),
        ],
    ),
    (
        "if in instanceof new return switch this throw try typeof var void while with",
        &[
            Word(W::If),
            Word(W::In),
            Word(W::Instanceof),
            Word(W::New),
            Word(W::Return),
            Word(W::Switch),
            Word(W::This),
            Word(W::Throw),
            Word(W::Try),
            Word(W::Typeof),
            Word(W::Var),
            Word(W::Void),
            Word(W::While),
            Word(W::With),
        ],
    ),
    (
        "class const enum export extends import super null true false",
        &[
            Word(W::Class),
            Word(W::Const),
            Word(W::Enum),
            Word(W::Export),
            Word(W::Extends),
            Word(W::Import),
            Word(W::Super),
            Word(W::Null),
            Word(W::True),
            Word(W::False),
        ],
    ),
    (
        "Break breaks let static yield async of undefined NaN",
        &[
            Ident, Ident, Ident, Ident, Ident, Ident, Ident, Ident, Ident,
        ],
    ),
    (
        "instanceofs instanceo ins in",
        &[Ident, Ident, Ident, Word(W::In)],
    ),
    ("getter gets sets setter", &[Ident, Ident, Ident, Ident]),
    (
        "$ _ $a _1 a$ a1 a_b",
        &[Ident, Ident, Ident, Ident, Ident, Ident, Ident],
    ),
    (
        "\u{E9}t\u{E9} \u{5D0} \u{4E2D}\u{6587} \u{16EE} \u{2160}",
        &[Ident, Ident, Ident, Ident, Ident],
    ),
    (
        "a\u{301} a\u{903} a\u{660} a\u{203F}",
        &[Ident, Ident, Ident, Ident],
    ),
    ("a\u{200C}\u{200D}b", &[Ident]),
    ("\\u0061", &[Ident]),
    ("a\\u0062c", &[Ident]),
    ("\\u0024", &[Ident]),
    ("a\\u0030", &[Ident]),
    ("a\\u0301", &[Ident]),
    ("\\u0069f", &[EscapedWord]),
    ("i\\u0066", &[EscapedWord]),
    ("\\u0069\\u0066", &[EscapedWord]),
    ("\\u0066unction", &[EscapedWord]),
    ("s\\u0065t", &[Ident]),
    ("g\\u0065ts", &[Ident]),
    ("tru\\u0065", &[EscapedWord]),
    ("\\u4E2D\\u6587", &[Ident]),
    ("0", &[Number]),
    ("7", &[Number]),
    ("19", &[Number]),
    ("1000000", &[Number]),
    ("0.", &[Number]),
    ("1.", &[Number]),
    ("0.5", &[Number]),
    ("12.34", &[Number]),
    (".5", &[Number]),
    (".007", &[Number]),
    ("1e5", &[Number]),
    ("1E5", &[Number]),
    ("1e+5", &[Number]),
    ("1e-5", &[Number]),
    ("1.e5", &[Number]),
    ("1.5E-10", &[Number]),
    (".5e1", &[Number]),
    ("0e0", &[Number]),
    ("0x0", &[Number]),
    ("0XfF", &[Number]),
    ("0x1.5", &[Number, Number]),
    ("010.5", &[Number, Number]),
    ("1.5.5", &[Number, Number]),
    ("01.a", &[Number, Punct(P::Dot), Ident]),
    ("00", &[Number]),
    ("0777", &[Number]),
    ("1 .a", &[Number, Punct(P::Dot), Ident]),
    ("a.b", &[Ident, Punct(P::Dot), Ident]),
    ("a..b", &[Ident, Punct(P::Dot), Punct(P::Dot), Ident]),
    (
        "a...b",
        &[Ident, Punct(P::Dot), Punct(P::Dot), Punct(P::Dot), Ident],
    ),
    ("-1", &[Punct(P::Minus), Number]),
    ("1-1", &[Number, Punct(P::Minus), Number]),
    ("1+.5", &[Number, Punct(P::Plus), Number]),
    ("\"\" ''", &[Text, Text]),
    ("\"a\" 'a'", &[Text, Text]),
    ("\"'\" '\"'", &[Text, Text]),
    ("\"\\\"\" '\\''", &[Text, Text]),
    ("\"\\n\\t\\b\\v\\f\\r\\0\\\\\"", &[Text]),
    ("\"\\x41\\u0041\"", &[Text]),
    ("\"\\a\\8\\q\"", &[Text]),
    ("\"a\\\nb\"", &[Text]),
    ("\"a\\\rb\"", &[Text]),
    ("\"a\\\r\nb\"", &[Text]),
    ("\"a\\\u{2028}b\\\u{2029}c\"", &[Text]),
    ("\"// /* */\"", &[Text]),
    ("\"\u{1F600}\"", &[Text]),
    ("\"a\"\"b\"", &[Text, Text]),
    ("\"a\"in b", &[Text, Word(W::In), Ident]),
    ("// a", &[]),
    ("a // b\nc", &[Ident, Ident]),
    ("/**/", &[]),
    ("/***/", &[]),
    ("/*/*/", &[]),
    ("/* * / */a", &[Ident]),
    ("a/**/b", &[Ident, Ident]),
    ("/* // */a", &[Ident]),
    ("// /* \n*/", &[Punct(P::Star), Punct(P::Slash)]),
    ("/* \u{1F600} */ a", &[Ident]),
    ("a\u{A0}b\u{FEFF}c\u{2003}d", &[Ident, Ident, Ident, Ident]),
    ("\ta\u{B}b\u{C}c", &[Ident, Ident, Ident]),
    ("a\u{2028}b\u{2029}c", &[Ident, Ident, Ident]),
];

/// Texts whose slashes begin regular expressions.
pub(crate) const MATCHING: [(&str, &[Token]); 22] = [
    ("a/b/c", &[Ident, Pattern]),
    ("/a/", &[Pattern]),
    ("/a/gi", &[Pattern]),
    ("/a/g\\u0069", &[Pattern]),
    ("/[/]/", &[Pattern]),
    ("/[]/", &[Pattern]),
    ("/[\\]/]/", &[Pattern]),
    ("/\\//", &[Pattern]),
    ("/\\[/", &[Pattern]),
    ("/a*/", &[Pattern]),
    ("/=/", &[Pattern]),
    ("/=a/ + 1", &[Pattern, Punct(P::Plus), Number]),
    ("/(/", &[Pattern]),
    ("/\u{1F600}/", &[Pattern]),
    ("/a/.b", &[Pattern, Punct(P::Dot), Ident]),
    ("/a//b/", &[Pattern, Pattern]),
    ("x = /a/", &[Ident, Punct(P::Assign), Pattern]),
    ("// /a/\n/b/", &[Pattern]),
    ("/**//a/", &[Pattern]),
    ("/\"/", &[Pattern]),
    ("/a/in b", &[Pattern, Ident]),
    ("/a/ in b", &[Pattern, Word(W::In), Ident]),
];

/// Texts that have no token after these, and more than trivia: slashes are divisions.
pub(crate) const DIVIDING_STOPS: [(&str, &[Token]); 37] = [
    ("08", &[]),
    ("09.5", &[]),
    ("3in", &[]),
    ("0x", &[]),
    ("0xg", &[]),
    ("1e", &[]),
    ("1e+", &[]),
    (".5a", &[]),
    ("3$", &[]),
    ("3\\u0061", &[]),
    ("0b1", &[]),
    ("a 3b", &[Ident]),
    ("1.5e1x", &[]),
    ("0x1g", &[]),
    ("\"a", &[]),
    ("\"a\nb\"", &[]),
    ("'a\u{2028}'", &[]),
    ("\"\\x4\"", &[]),
    ("\"\\u004\"", &[]),
    ("\"a'", &[]),
    ("/*", &[]),
    ("a/*", &[Ident]),
    ("a/* * /", &[Ident]),
    ("#", &[]),
    ("@a", &[]),
    ("`a`", &[]),
    ("a\\1", &[Ident]),
    ("a\\", &[Ident]),
    ("if\\u00", &[Word(W::If)]),
    ("\\u0030", &[]),
    ("a\\u002D", &[Ident]),
    ("\\uD800", &[]),
    ("\\u{61}", &[]),
    ("\u{10400}", &[]),
    ("a\u{10400}", &[Ident]),
    ("\\x61", &[]),
    ("a\u{0}b", &[Ident]),
];

/// The same, where slashes begin regular expressions.
pub(crate) const MATCHING_STOPS: [(&str, &[Token]); 9] = [
    ("/", &[]),
    ("/a", &[]),
    ("/a\n/", &[]),
    ("/\\\n/", &[]),
    ("/[/", &[]),
    ("/[\n]/", &[]),
    ("/*/", &[]),
    ("/a/\\u002D", &[Pattern]),
    ("a/b", &[Ident]),
];

/// Texts, and before which of their tokens a line has ended.
pub(crate) const NEWLINES: [(&str, &[bool]); 15] = [
    ("a b", &[false, false]),
    ("a\nb", &[false, true]),
    ("\na", &[true]),
    ("a\rb", &[false, true]),
    ("a\u{2028}b", &[false, true]),
    ("a\u{2029}b", &[false, true]),
    ("a/*\n*/b", &[false, true]),
    ("a/* */b", &[false, false]),
    ("a// b\nc", &[false, true]),
    ("a/*\n*/b c", &[false, true, false]),
    ("a\n\n b /**/ c", &[false, true, false]),
    ("\"a\\\nb\" c", &[false, false]),
    ("a /*\r\n*/ /**/ b", &[false, true]),
    ("// a", &[]),
    ("a\u{B}b", &[false, false]),
];

/// The tokens of the text up to the first place where none begins, and whether only trivia are left.
pub(crate) fn lexed(
    alloc: Global,
    text: &str,
    goal: Goal,
) -> Result<(Vec<Lexeme>, bool), AllocError> {
    let chars: Vec<char> = text.chars().collect(alloc)?;
    let mut found = Vec::new(alloc);
    let mut place = 0;
    for _ in 0..=chars.len() {
        if place > chars.len() {
            break;
        }
        let Some((lexeme, end)) = next_token(&chars, place, goal) else {
            break;
        };
        found.push(lexeme)?;
        place = end;
    }
    let whole = place <= chars.len() && rest_is_trivia(&chars, place);
    Ok((found, whole))
}

/// Whether the text has these tokens, and then only trivia or not.
fn has(
    alloc: Global,
    text: &str,
    goal: Goal,
    want: &[Token],
    whole: bool,
) -> Result<bool, AllocError> {
    let (found, is_whole) = lexed(alloc, text, goal)?;
    let same = found.len() == want.len()
        && found
            .iter()
            .zip(want.iter())
            .all(|(x, token)| x.token == *token);
    Ok(same && is_whole == whole)
}

#[test]
fn texts_have_their_tokens(rt: HostRuntime) -> Result<(), Fail> {
    for (text, want) in &DIVIDING {
        assert!(rt; has(rt.alloc(), text, Goal::Div, want, true)?, "{text}");
    }
    for (text, want) in &MATCHING {
        assert!(rt; has(rt.alloc(), text, Goal::RegExp, want, true)?, "{text}");
    }
    Ok(())
}

#[test]
fn no_token_begins_where_none_is(rt: HostRuntime) -> Result<(), Fail> {
    for (text, want) in &DIVIDING_STOPS {
        assert!(rt; has(rt.alloc(), text, Goal::Div, want, false)?, "{text}");
    }
    for (text, want) in &MATCHING_STOPS {
        assert!(rt; has(rt.alloc(), text, Goal::RegExp, want, false)?, "{text}");
    }
    Ok(())
}

#[test]
fn flags_say_where_lines_end(rt: HostRuntime) -> Result<(), Fail> {
    for (text, want) in &NEWLINES {
        let (found, whole) = lexed(rt.alloc(), text, Goal::Div)?;
        assert!(rt; whole, "{text}");
        assert_eq!(rt; found.len(), want.len(), "{text}");
        for (lexeme, newline) in found.iter().zip(want.iter()) {
            assert_eq!(rt; lexeme.newline, *newline, "{text}");
        }
    }
    Ok(())
}
