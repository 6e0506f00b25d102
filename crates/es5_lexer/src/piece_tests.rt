//! The same texts as for the slice form, through [`Lexer`], with runs found in pieces of several sizes.
use crate::Goal::{Div as D, RegExp as R};
use crate::Token::{Ident, Number, Pattern, Punct, Text, Word};
use crate::tests::{DIVIDING, DIVIDING_STOPS, MATCHING, MATCHING_STOPS, NEWLINES, lexed};
use crate::{Goal, Lexeme, Lexer, Punct as P, Token, Word as W};
use arrayvec::ArrayVec;
use std::alloc::{AllocError, Global};
use std::test::Fail;

/// The sizes of pieces; the last is longer than each text.
const SIZES: [usize; 5] = [1, 2, 3, 7, 1_000];

/// Scripts, and how many tokens they have under one goal throughout.
const SCRIPTS: [(&str, Goal, usize); 12] = [
    ("a=1", D, 3),
    ("{ 1\n2 } 3", D, 5),
    ("a = b\n++c", D, 5),
    ("a++\n(b)", D, 5),
    ("a = b + c\n(d + e).print()", D, 14),
    ("var a\n(b)", D, 5),
    ("return\na + b", D, 4),
    ("for (a; b\n)", D, 6),
    ("if (a > b)\nelse c = d", D, 10),
    ("let x = 1", D, 4),
    ("if(a)b;", D, 6),
    ("else if(a)b;", D, 7),
];

/// Texts whose characters, and whose end, come with goals of their own: each slash is read by the goal of the
/// character after it.
const READINGS: [(&str, &[Goal], &[Token]); 8] = [
    ("a/b", &[R, R, D, R], &[Ident, Punct(P::Slash), Ident]),
    ("/a/", &[D, R, D, D], &[Pattern]),
    ("a/", &[R, R, D], &[Ident, Punct(P::Slash)]),
    (
        "a/=b",
        &[R, R, D, R, R],
        &[Ident, Punct(P::SlashAssign), Ident],
    ),
    ("/=/", &[D, R, D, D], &[Pattern]),
    (
        "a /b/ c",
        &[R, R, R, D, R, D, R, R],
        &[Ident, Punct(P::Slash), Ident, Punct(P::Slash), Ident],
    ),
    ("a//b", &[R, R, R, R, R], &[Ident]),
    ("a/**/b", &[R, D, R, R, R, R, R], &[Ident, Ident]),
];

/// Texts cut in every place, and their tokens, slashes read as regular expressions.
const CUTS: [(&str, &[Token]); 8] = [
    ("\\u0061", &[Ident]),
    ("/* **/a", &[Ident]),
    ("/*/*/a", &[Ident]),
    ("\"a\\\r\nb\"", &[Text]),
    ("1.5e-10", &[Number]),
    ("instanceof", &[Word(W::Instanceof)]),
    ("instanceofs", &[Ident]),
    ("/[/]\\//g\\u0069", &[Pattern]),
];

/// Texts under a goal, and whether a lexer is dead after them.
const DEATHS: [(&str, Goal, bool); 14] = [
    ("", D, false),
    ("\\uE", D, false),
    ("\\uE000", D, true),
    ("a\\u200", D, false),
    ("a\\u200C", D, false),
    ("a\\u2000", D, true),
    ("3\\", D, true),
    ("a\\1", D, true),
    ("/a/g\\", R, false),
    ("/a/g\\u0", R, false),
    ("\"a\\u00", D, false),
    ("\"a\\uZ", D, true),
    ("3in", D, true),
    ("#", D, true),
];

/// What a lexer gives of a text under a goal, fed in pieces of this size, and whether the text may end.
fn fed(
    alloc: Global,
    text: &str,
    goal: Goal,
    size: usize,
) -> Result<(Vec<Lexeme>, bool), AllocError> {
    let chars: Vec<char> = text.chars().collect(alloc)?;
    let mut bytes: Vec<u8> = Vec::new(alloc);
    for c in &chars {
        bytes.push(if c.is_ascii() { *c as u8 } else { 0xFF })?;
    }
    let mut lexer = Lexer::new();
    let mut found = Vec::new(alloc);
    let mut place = 0usize;
    for _ in 0..=chars.len() {
        let end = bytes.len().min(place.saturating_add(size));
        place = place.saturating_add(lexer.run_length(bytes.get(place..end).unwrap_or(&[])));
        let Some(c) = chars.get(place) else { break };
        take(&mut lexer, goal, *c, &mut found)?;
        place = place.saturating_add(1);
    }
    let mut out = ArrayVec::new();
    let whole = lexer.finish(goal, &mut out);
    found.extend_from_slice(out.as_slice())?;
    Ok((found, whole))
}

/// Feeds one character.
fn take(lexer: &mut Lexer, goal: Goal, c: char, found: &mut Vec<Lexeme>) -> Result<(), AllocError> {
    let mut out = ArrayVec::new();
    lexer.feed_char(goal, c, &mut out);
    found.extend_from_slice(out.as_slice())
}

/// What a lexer gives of a text whose characters and end come with these goals.
fn read(alloc: Global, text: &str, goals: &[Goal]) -> Result<(Vec<Lexeme>, bool), AllocError> {
    let mut lexer = Lexer::new();
    let mut found = Vec::new(alloc);
    for (c, goal) in text.chars().zip(goals.iter()) {
        take(&mut lexer, *goal, c, &mut found)?;
    }
    let mut out = ArrayVec::new();
    let last = goals.last().copied().unwrap_or(Goal::Div);
    let whole = lexer.finish(last, &mut out);
    found.extend_from_slice(out.as_slice())?;
    Ok((found, whole))
}

/// Whether these are the tokens.
fn are(found: &[Lexeme], want: &[Token]) -> bool {
    found.len() == want.len()
        && found
            .iter()
            .zip(want.iter())
            .all(|(x, token)| x.token == *token)
}

/// Whether the lexer agrees with the table and with the slice form, in each size of pieces.
fn agrees(
    alloc: Global,
    text: &str,
    goal: Goal,
    want: &[Token],
    whole: bool,
) -> Result<bool, AllocError> {
    let (slice, _) = lexed(alloc, text, goal)?;
    for size in SIZES {
        let (found, ends) = fed(alloc, text, goal, size)?;
        if !are(&found, want) || ends != whole || found.as_slice() != slice.as_slice() {
            return Ok(false);
        }
    }
    Ok(true)
}

#[test]
fn pieces_have_the_tokens_of_the_whole(rt: HostRuntime) -> Result<(), Fail> {
    for (text, want) in &DIVIDING {
        assert!(rt; agrees(rt.alloc(), text, D, want, true)?, "{text}");
    }
    for (text, want) in &MATCHING {
        assert!(rt; agrees(rt.alloc(), text, R, want, true)?, "{text}");
    }
    for (text, want) in &CUTS {
        assert!(rt; agrees(rt.alloc(), text, R, want, true)?, "{text}");
    }
    Ok(())
}

#[test]
fn pieces_stop_where_the_whole_does(rt: HostRuntime) -> Result<(), Fail> {
    for (text, want) in &DIVIDING_STOPS {
        assert!(rt; agrees(rt.alloc(), text, D, want, false)?, "{text}");
    }
    for (text, want) in &MATCHING_STOPS {
        assert!(rt; agrees(rt.alloc(), text, R, want, false)?, "{text}");
    }
    Ok(())
}

#[test]
fn scripts_and_flags_in_pieces(rt: HostRuntime) -> Result<(), Fail> {
    for (text, goal, count) in &SCRIPTS {
        for size in SIZES {
            let (found, whole) = fed(rt.alloc(), text, *goal, size)?;
            assert!(rt; whole, "{text}");
            assert_eq!(rt; found.len(), *count, "{text}");
        }
    }
    for (text, want) in &NEWLINES {
        let (found, whole) = fed(rt.alloc(), text, D, 3)?;
        assert!(rt; whole, "{text}");
        for (lexeme, newline) in found.iter().zip(want.iter()) {
            assert_eq!(rt; lexeme.newline, *newline, "{text}");
        }
    }
    Ok(())
}

#[test]
fn a_slash_is_read_by_the_next_goal(rt: HostRuntime) -> Result<(), Fail> {
    for (text, goals, want) in &READINGS {
        let (found, whole) = read(rt.alloc(), text, goals)?;
        assert!(rt; whole && are(&found, want), "{text}");
    }
    Ok(())
}

#[test]
fn a_lexer_dies_where_no_text_goes_on(rt: HostRuntime) -> Result<(), Fail> {
    for (text, goal, dead) in &DEATHS {
        let mut lexer = Lexer::new();
        for c in text.chars() {
            let mut out = ArrayVec::new();
            lexer.feed_char(*goal, c, &mut out);
        }
        assert_eq!(rt; lexer.is_dead(), *dead, "{text}");
    }
    Ok(())
}
