//! Texts that are JSON, and texts that miss it by one rule.
use crate::json_test::JsonTest;
use std::alloc::{AllocError, Global};
use std::test::Fail;

/// JSON texts.
const TEXTS: [&str; 60] = [
    "null",
    "true",
    "false",
    " null ",
    "\t1\n",
    "\r\n\"\"\r\n",
    " \t\n\r[ \t\n\r] \t\n\r",
    "0",
    "-0",
    "7",
    "10",
    "-12",
    "123456789012345678901234567890",
    "0.0",
    "-0.5",
    "10.25",
    "1e0",
    "1E5",
    "1e+7",
    "1e-7",
    "-0.5e+7",
    "1.5E-30",
    "0E+00",
    "1e007",
    "-9.99e99",
    r#""""#,
    r#""a""#,
    r#"" ""#,
    r#""\"""#,
    r#""\\""#,
    r#""\/""#,
    r#""\b\f\n\r\t""#,
    r#""\u0041""#,
    r#""\uD83D\uDE00""#,
    r#""\uDEAD""#,
    r#""\u00ff\uABcd""#,
    "\"\u{7F}\u{80}\"",
    "\"\u{2028}\u{2029}\"",
    "\"\u{10FFFF}\"",
    "\"\u{FEFF}\"",
    r#""'""#,
    "[]",
    "[ ]",
    "[0]",
    "[1,2]",
    "[ 1 , 2 ]",
    "[[]]",
    "[[],[]]",
    r#"["a",null,{}]"#,
    "[-1,[2,[3]]]",
    "[1,1]",
    "{}",
    "{ }",
    r#"{"a":1}"#,
    r#"{ "a" : 1 }"#,
    r#"{"a":1,"b":2}"#,
    r#"{"a":1,"a":2}"#,
    r#"{"":{}}"#,
    r#"{"\u0061":[{}]}"#,
    r#"[{"a":{"b":[]}}]"#,
];

/// Texts that break one rule of the grammar each.
const NEAR_MISSES: [&str; 60] = [
    "",
    " ",
    "1 2",
    "{}{}",
    "nul",
    "nulls",
    "Null",
    "tru e",
    "undefined",
    "NaN",
    "-",
    "+1",
    "01",
    "-01",
    "1.",
    ".5",
    "-.5",
    "1.e5",
    "1e",
    "1e+",
    "1.5.5",
    "0x10",
    "--1",
    "- 1",
    "1 e5",
    "\u{661}",
    r#"""#,
    r#""a"#,
    "'a'",
    "\"\t\"",
    "\"\n\"",
    "\"\u{1F}\"",
    r#""\"#,
    r#""\""#,
    r#""\a""#,
    r#""\x41""#,
    r#""\u12""#,
    r#""\u12G4""#,
    r#""a"b""#,
    "[",
    "[1",
    "[1,]",
    "[,1]",
    "[1,,2]",
    "[1 2]",
    "[1}",
    "[1]]",
    r#"{"a"}"#,
    r#"{"a":}"#,
    r#"{"a":1,}"#,
    "{a:1}",
    "{1:1}",
    r#"{"a" 1}"#,
    r#"{"a":1 "b":2}"#,
    r#"{"a":1]"#,
    "1\u{FEFF}",
    "\u{A0}1",
    "\u{B}1",
    "1\u{2028}",
    "1//",
];

/// So many times the opening text, the middle, and so many times the closing one.
fn nested(
    alloc: Global,
    levels: usize,
    opening: &str,
    middle: &str,
    closing: &str,
) -> Result<String, AllocError> {
    let mut text = String::new(alloc);
    for _ in 0..levels {
        text.push_str(opening)?;
    }
    text.push_str(middle)?;
    for _ in 0..levels {
        text.push_str(closing)?;
    }
    Ok(text)
}

/// Bytes that aren't all ASCII, and whether they are JSON.
const BYTES: [(&[u8], bool); 14] = [
    (b"\xEF\xBB\xBF1", true),
    (b"\xEF\xBB\xBF\xEF\xBB\xBF1", false),
    (b"\xEF\xBB1", false),
    (b"\"\xEF\xBB\xBF\"", true),
    (b"\"\xF0\x9F\x98\x80\"", true),
    // a broken sequence in a string is U+FFFD
    (b"\"\x80\"", true),
    (b"[\"\xF0\x9F\x98\"]", true),
    (b"{\"\xE2\x80\":\"\xFF\"}", true),
    (b"\"\xF0\x9F", false),
    (b"1\x80", false),
    (b"[1,2]", true),
    (b"{\"a\":1}", true),
    (b"-0.5e+7", true),
    (b"", false),
];

/// The answer of a test that is fed the bytes in pieces of so many.
fn fed(bytes: &[u8], size: usize) -> bool {
    let mut test = JsonTest::new();
    if size > 0 {
        for piece in bytes.chunks(size) {
            test.feed(piece);
        }
    }
    test.finish()
}

/// Whether the answer is the same in each cutting.
fn in_each_cutting(bytes: &[u8], answer: bool) -> bool {
    let whole = bytes.len().max(1);
    [1, 2, 3, 7, whole]
        .iter()
        .all(|size| fed(bytes, *size) == answer)
}

#[test]
fn json_texts_are_recognised(rt: HostRuntime) {
    for text in TEXTS {
        assert!(rt; in_each_cutting(text.as_bytes(), true), "{text:?}");
    }
}

#[test]
fn near_misses_are_refused(rt: HostRuntime) {
    for text in NEAR_MISSES {
        assert!(rt; in_each_cutting(text.as_bytes(), false), "{text:?}");
    }
}

#[test]
fn broken_sequences_are_read(rt: HostRuntime) {
    for (bytes, answer) in BYTES {
        assert!(rt; in_each_cutting(bytes, answer), "{bytes:?}");
    }
}

/// What opens a level, what stands in the innermost, what closes one, and how many levels the middle has itself.
const LEVELS: [(&str, &str, &str, usize); 5] = [
    ("[", "0", "]", 0),
    ("{\"a\":", "0", "}", 0),
    ("[ ", "", " ]", 0),
    ("[0,", "[]", ",0]", 1),
    ("{\"a\":0,\"b\":", "{}", "}", 1),
];

#[test]
fn a_text_has_at_most_1024_levels(rt: HostRuntime) -> Result<(), Fail> {
    for (opening, middle, closing, more) in LEVELS {
        let text = nested(rt.alloc(), 1024 - more, opening, middle, closing)?;
        assert!(rt;
            in_each_cutting(text.as_bytes(), true),
            "1,024 times {opening}"
        );
        let text = nested(rt.alloc(), 1025 - more, opening, middle, closing)?;
        assert!(rt;
            in_each_cutting(text.as_bytes(), false),
            "1,025 times {opening}"
        );
    }
    Ok(())
}

#[test]
fn arrays_beside_one_another_are_no_levels(rt: HostRuntime) -> Result<(), Fail> {
    let mut text = String::new(rt.alloc());
    text.push_str("[[]")?;
    for _ in 0..3000 {
        text.push_str(",[]")?;
    }
    text.push_str("]")?;
    assert!(rt; in_each_cutting(text.as_bytes(), true));
    Ok(())
}

/// Bytes, and whether a test is dead after them.
const DEATHS: [(&[u8], bool); 12] = [
    (b"", false),
    (b"[1,", false),
    (b"{\"a\\u00", false),
    (b"tru", false),
    (b"1 ", false),
    (b"01", true),
    (b"truE", true),
    (b"[1,]", true),
    (b"{1", true),
    (b"\"\x1f", true),
    (b"\"\\u00g", true),
    (b"[]]", true),
];

#[test]
fn a_test_is_dead_once_nothing_can_follow(rt: HostRuntime) {
    for (bytes, dead) in DEATHS {
        let mut test = JsonTest::new();
        test.feed(bytes);
        assert_eq!(rt; test.is_dead(), dead, "{bytes:?}");
        test.feed(b" ");
        assert!(rt; !dead || test.is_dead(), "{bytes:?} for good");
    }
}
