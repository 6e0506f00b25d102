//! Texts, lexed under the machine's goals, and what the machine says of them; bytes, and whether they are scripts.
use crate::{Machine, ScriptTest};
use es5_lexer::{next_token, rest_is_trivia};
use std::alloc::{AllocError, Global};
use std::test::Fail;

/// What the machine is to say of a text.
#[derive(Clone, Copy, Debug, PartialEq, Eq)]
enum Verdict {
    /// It is a script.
    Script,
    /// It is none, but what follows may save it.
    Alive,
    /// The token of this number, counted from 1, is the first that nothing can save.
    DeadAt(usize),
    /// It was asked before a token whether it would live, and answered wrongly.
    Misjudged,
}

use Verdict::{Alive, DeadAt, Misjudged, Script};

/// Pieces, each so many times, that make a text.
type Pieces = &'static [(usize, &'static str)];

static ROWS: [(Pieces, Verdict); 75] = [
    // expressions
    (&[(1, "a = b ? c : d = e;")], Script),
    (&[(1, "new new a(b)(c).d;")], Script),
    (&[(1, "[,,a,,];")], Script),
    (&[(1, "({a:1,})[b]++;")], Script),
    (&[(1, "({1:a,\"s\":b,if:c})")], Script),
    (&[(1, "x = { get get() { return\n} , set: 1 }")], Script),
    (&[(1, "a + b = c;")], DeadAt(4)),
    (&[(1, "a ? b = c;")], DeadAt(6)),
    (&[(1, "++a++ = b;")], DeadAt(4)),
    (&[(1, "a b;")], DeadAt(2)),
    (&[(1, "x=function 1(){}")], DeadAt(4)),
    // headers
    (&[(1, "for (a in b);")], Script),
    (&[(1, "for (a ? b in c : d;;);")], Script),
    (&[(1, "for ([a in b];;);")], Script),
    (&[(1, "for (var a = b in c);")], Script),
    (&[(1, "for (var a = b ? c in d : e in f);")], Script),
    (&[(1, "for (a + b in c);")], DeadAt(6)),
    (&[(1, "for (a = b in c;;);")], DeadAt(6)),
    (&[(1, "for (var a, b in c);")], DeadAt(7)),
    (&[(1, "for (a; b\n)")], DeadAt(6)),
    // statements
    (&[(1, "")], Script),
    (&[(1, "{};")], Script),
    (&[(1, "[1,2]")], Script),
    (&[(1, "a=1")], Script),
    (&[(1, "a: b: for (;;) continue\na")], Script),
    (&[(1, "if (a) do if (b) c; while (d); else e")], Script),
    (&[(1, "get\n:")], Alive),
    (&[(1, "{ function f() {} }")], DeadAt(2)),
    (&[(1, "{\"a\":1}")], DeadAt(3)),
    (&[(1, "if (a) b else c")], DeadAt(6)),
    (&[(1, "if (a > b)\nelse c = d")], DeadAt(7)),
    (&[(1, "let x = 1")], DeadAt(2)),
    (&[(1, "break 1")], DeadAt(2)),
    (&[(1, "continue \"a\"")], DeadAt(2)),
    (&[(1, "throw\na")], DeadAt(2)),
    // semicolons that are left out
    (&[(1, "a\n()")], Script),
    (&[(1, "{ 1\n2 } 3")], Script),
    (&[(1, "{ 1 2 } 3")], DeadAt(3)),
    (&[(1, "a = b\n++c")], Script),
    (&[(1, "a++\n(b)")], Script),
    (&[(1, "a = b + c\n(d + e).print()")], Script),
    (&[(1, "var a\n(b)")], Script),
    (&[(1, "return\na + b")], Script),
    (&[(1, "do ; while (a)\nb")], Script),
    (&[(1, "do ; while (a) b")], DeadAt(7)),
    // slashes
    (&[(1, "if (a) /b/.c; else d / e / f")], Script),
    (&[(1, "if (a) /b/.c")], Script),
    (&[(1, "var a\n/x/")], Script),
    (&[(1, "break\n/x/")], Script),
    (&[(1, "debugger\n/x/")], Script),
    (&[(1, "a++\n/x/")], Alive),
    (&[(1, "a\n/b/.c")], DeadAt(5)),
    (&[(1, "var /x/")], DeadAt(2)),
    // depth
    (&[(1024, "("), (1, "0"), (1024, ")")], Script),
    (&[(1025, "("), (1, "0"), (1025, ")")], DeadAt(1025)),
    (&[(1024, "(")], Alive),
    (&[(1024, "("), (1, "function")], Alive),
    (&[(1024, "("), (1, "function f(")], DeadAt(1027)),
    (&[(1024, "["), (1, "0"), (1024, "]")], Script),
    (&[(1025, "["), (1, "0"), (1025, "]")], DeadAt(1025)),
    (&[(1024, "if(a)"), (1, "b;")], Script),
    (&[(1025, "if(a)"), (1, "b;")], DeadAt(4098)),
    (&[(1024, "a?"), (1, "b"), (1024, ":c")], Script),
    (&[(1025, "a?"), (1, "b"), (1025, ":c")], DeadAt(2050)),
    (&[(1024, "do "), (1, ";"), (1024, "while(0);")], Script),
    (
        &[(1025, "do "), (1, ";"), (1025, "while(0);")],
        DeadAt(1025),
    ),
    (&[(1022, "{"), (1, "do{}while(a)"), (1022, "}")], Script),
    (
        &[(1023, "{"), (1, "do{}while(a)"), (1023, "}")],
        DeadAt(1025),
    ),
    (&[(1025, "a?b:"), (1, "c?d:e")], Script),
    (&[(5000, "a?b:"), (1, "c")], Script),
    (&[(1, "if(a)b;"), (5000, "else if(a)b;")], Script),
    // length
    (&[(1_000_000, "a")], Script),
    (&[(1, "/*"), (1_000_000, " "), (1, "*/")], Script),
    (&[(1, "/*"), (1_000_000, " ")], Alive),
    (&[(1, "a=\""), (1_000_000, "a"), (1, "\"")], Script),
];

/// The characters of the pieces.
fn text_of(alloc: Global, pieces: Pieces) -> Result<Vec<char>, AllocError> {
    let mut text = Vec::new(alloc);
    for (times, piece) in pieces {
        for _ in 0..*times {
            for c in piece.chars() {
                text.push(c)?;
            }
        }
    }
    Ok(text)
}

/// What the machine says of the text.
fn verdict_of(text: &[char]) -> Verdict {
    let mut machine = Machine::new();
    let mut place = 0;
    for count in 0..=text.len() {
        if machine.is_dead() {
            return DeadAt(count);
        }
        if place > text.len() {
            break;
        }
        let Some((lexeme, end)) = next_token(text, place, machine.goal()) else {
            break;
        };
        let lives = machine.would_live(lexeme.token, lexeme.newline);
        machine.step(lexeme.token, lexeme.newline);
        if lives == machine.is_dead() {
            return Misjudged;
        }
        place = end;
    }
    let whole = place <= text.len() && rest_is_trivia(text, place);
    if whole && machine.finish() {
        Script
    } else {
        Alive
    }
}

#[test]
fn texts_have_their_verdicts(rt: HostRuntime) -> Result<(), Fail> {
    for (row, (pieces, want)) in ROWS.iter().enumerate() {
        let text = text_of(rt.alloc(), pieces)?;
        assert_eq!(rt; verdict_of(&text), *want, "row {row}");
    }
    Ok(())
}

/// Whether the bytes are a script, fed in parts of at most so many.
fn is_script(bytes: &[u8], size: usize) -> bool {
    let mut test = ScriptTest::new();
    if size > 0 {
        for part in bytes.chunks(size) {
            test.feed(part);
        }
    }
    test.finish()
}

#[test]
fn scripts_are_told_in_pieces(rt: HostRuntime) -> Result<(), Fail> {
    for (row, (pieces, want)) in ROWS.iter().enumerate() {
        let mut bytes = Vec::new(rt.alloc());
        for (times, piece) in *pieces {
            for _ in 0..*times {
                bytes.extend_from_slice(piece.as_bytes())?;
            }
        }
        for size in [1, 100] {
            assert_eq!(rt;
                is_script(&bytes, size),
                *want == Script,
                "row {row} by {size}"
            );
        }
    }
    Ok(())
}

/// Bytes, and whether they are a script.
const BYTES: [(&[u8], bool); 10] = [
    (b"\xEF\xBB\xBFa=1", true),
    (b"\xEF\xBB", false),
    (b"a=\"\xFF\"", true),
    (b"a=\xFF", false),
    (b"a\xE2\x80\xA8b", true),
    (b"a\xE2\x80", false),
    (b"a//\xE2\x80", true),
    (b"\"\xE2\x80\xA8\"", false),
    (b"\xD0\xB0=\xD0\xB0/1", true),
    (b"{\"a\":1}", false),
];

#[test]
fn bytes_are_scripts_by_their_characters(rt: HostRuntime) {
    for (bytes, want) in BYTES {
        for size in [1, 100] {
            assert_eq!(rt; is_script(bytes, size), want, "{bytes:?} by {size}");
        }
    }
}

/// Bytes, and whether a test is dead after them.
const DEATHS: [(&[u8], bool); 7] = [
    (b"", false),
    (b"a b", false),
    (b"a b ", true),
    (b"a=\"\n", true),
    (b"/*", false),
    (b"@", true),
    (b"[1,2]}\n", true),
];

#[test]
fn a_test_is_dead_for_good(rt: HostRuntime) {
    for (bytes, dead) in DEATHS {
        let mut test = ScriptTest::new();
        test.feed(bytes);
        assert_eq!(rt; test.is_dead(), dead, "{bytes:?}");
        test.feed(b";");
        assert!(rt; !dead || test.is_dead(), "{bytes:?} for good");
    }
}
