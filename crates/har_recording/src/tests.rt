//! Logs through [`to_recording`], with the recordings that are owed; and what `serde_json` and `base64` take.
use crate::{HarError, to_recording};
use std::alloc::{AllocError, Global};
use std::process::Abort;
use std::test::Fail;

/// The parts of one entry in JSON: method, request headers, status, response headers, content; and the recording, or
/// none where the entry isn't whole.
type Row = (
    &'static str,
    &'static str,
    &'static str,
    &'static str,
    &'static str,
    Option<&'static str>,
);

const NO_CORS: &str = r#"{"name":"Sec-Fetch-Mode","value":"no-cors"}"#;

const EMPTY: &str = "GET / HTTP/1.1\r\n\r\nHTTP/1.1 200 OK\r\nContent-Length: 0\r\n\r\n";

const ROWS: &[Row] = &[
    (
        r#""GET""#,
        NO_CORS,
        "200",
        r#"{"name":"Content-Type","value":"text/html"},{"name":"X-Content-Type-Options","value":"nosniff"}"#,
        r#"{"text":"<p>"}"#,
        Some(
            "GET / HTTP/1.1\r\nSec-Fetch-Mode: no-cors\r\n\r\nHTTP/1.1 200 OK\r\nContent-Type: text/html\r\nX-Content-Type-Options: nosniff\r\nContent-Length: 3\r\n\r\n<p>",
        ),
    ),
    (
        r#""GET""#,
        r#"{"name":":authority","value":"a.test"},{"name":"Sec-Fetch-Mode","value":"no-cors"}"#,
        "200",
        "",
        r#"{"text":"R0lGODlh","encoding":"base64"}"#,
        Some(
            "GET / HTTP/1.1\r\nSec-Fetch-Mode: no-cors\r\n\r\nHTTP/1.1 200 OK\r\nContent-Length: 6\r\n\r\nGIF89a",
        ),
    ),
    // headers that are dropped
    (
        r#""GET""#,
        r#"{"name":"","value":"a"},{"name":"a b","value":"a"},{"name":"ü","value":"a"},{"name":"A","value":"\n"},{"name":"B","value":"\u007f"}"#,
        "200",
        r#"{"name":"content-length","value":"7"},{"name":"TRANSFER-ENCODING","value":"chunked"},{"name":"Content-encoding","value":"br"},{"name":"orb-media","value":"1"}"#,
        "{}",
        Some(EMPTY),
    ),
    // headers that are kept
    (
        r#""GET""#,
        r#"{"name":"A","value":""},{"name":"B","value":"\t ~ü"},{"name":"Content-Length-","value":"1"}"#,
        "200",
        "",
        "{}",
        Some(
            "GET / HTTP/1.1\r\nA: \r\nB: \t ~ü\r\nContent-Length-: 1\r\n\r\nHTTP/1.1 200 OK\r\nContent-Length: 0\r\n\r\n",
        ),
    ),
    // no body is sent to HEAD, and with 204 and 304
    (
        r#""HEAD""#,
        "",
        "599",
        "",
        r#"{"text":"abc"}"#,
        Some("HEAD / HTTP/1.1\r\n\r\nHTTP/1.1 599 OK\r\nContent-Length: 3\r\n\r\n"),
    ),
    (
        r#""head""#,
        "",
        "204",
        "",
        r#"{"text":"abc"}"#,
        Some("head / HTTP/1.1\r\n\r\nHTTP/1.1 204 OK\r\nContent-Length: 3\r\n\r\n"),
    ),
    (
        r#""head""#,
        "",
        "304",
        "",
        r#"{"text":"abc","encoding":"Base64"}"#,
        Some("head / HTTP/1.1\r\n\r\nHTTP/1.1 304 OK\r\nContent-Length: 3\r\n\r\n"),
    ),
    (
        r#""head""#,
        "",
        "205",
        "",
        r#"{"text":"é"}"#,
        Some("head / HTTP/1.1\r\n\r\nHTTP/1.1 205 OK\r\nContent-Length: 2\r\n\r\né"),
    ),
    // statuses that stand for nothing
    (r#""GET""#, "", "0", "", "{}", Some("")),
    (r#""GET""#, "", "199", "", "{}", Some("")),
    (r#""GET""#, "", "600", "", "{}", Some("")),
    (r#""GET""#, "", "999", "", "{}", Some("")),
    (
        r#""GET""#,
        "",
        "0",
        "",
        r#"{"text":"!","encoding":"base64"}"#,
        None,
    ),
    // what isn't whole
    (r#""""#, "", "200", "", "{}", None),
    (r#""G T""#, "", "200", "", "{}", None),
    ("1", "", "200", "", "{}", None),
    (r#""GET""#, r#"{"name":"A"}"#, "200", "", "{}", None),
    (
        r#""GET""#,
        "",
        "200",
        r#"{"name":1,"value":""}"#,
        "{}",
        None,
    ),
    (r#""GET""#, "", "1000", "", "{}", None),
    (r#""GET""#, "", "-1", "", "{}", None),
    (r#""GET""#, "", r#""200""#, "", "{}", None),
    (r#""GET""#, "", "200", "", "[]", None),
    (r#""GET""#, "", "200", "", r#"{"text":null}"#, None),
    (r#""GET""#, "", "200", "", r#"{"encoding":1}"#, None),
    (r#""GET""#, "", "200", "", r#"{"encoding":"base64"}"#, None),
    // a status has to be kept as an unsigned integer: without a fraction, an exponent or a sign
    (r#""GET""#, "", "200.0", "", "{}", None),
    (r#""GET""#, "", "2e2", "", "{}", None),
    (r#""GET""#, "", "-0", "", "{}", None),
    // of two members of one name the last counts
    (
        r#""GET""#,
        "",
        r#"1000,"status":200"#,
        "",
        "{}",
        Some(EMPTY),
    ),
    (r#""GET""#, "", r#"200,"status":1000"#, "", "{}", None),
    // Base64 without padding, with white space, with bits left over, and of nothing
    (
        r#""GET""#,
        "",
        "200",
        "",
        r#"{"text":"YQ","encoding":"base64"}"#,
        None,
    ),
    (
        r#""GET""#,
        "",
        "200",
        "",
        r#"{"text":"YWJj\nYWJj","encoding":"base64"}"#,
        None,
    ),
    (
        r#""GET""#,
        "",
        "200",
        "",
        r#"{"text":"YR==","encoding":"base64"}"#,
        None,
    ),
    (
        r#""GET""#,
        "",
        "200",
        "",
        r#"{"text":"","encoding":"base64"}"#,
        Some(EMPTY),
    ),
];

/// Whole texts, and the recordings, or the entries that are refused.
const TEXTS: &[(&[u8], Result<&str, u64>)] = &[
    (b"{}", Err(0)),
    (b"", Err(0)),
    (b"[]", Err(0)),
    (br#"{"log":[]}"#, Err(0)),
    (br#"{"log":{"entries":{}}}"#, Err(0)),
    (br#"{"log":{"entries":[]}}"#, Ok("")),
    (br#"{"log":{"entries":[1]}}"#, Err(1)),
    (
        br#"{"log":{"entries":[{"request":{"method":"A","headers":[]},"response":{"status":0,"headers":[],"content":{}}},1]}}"#,
        Err(2),
    ),
    // one byte order mark is dropped
    (b"\xEF\xBB\xBF{\"log\":{\"entries\":[]}}", Ok("")),
    (
        b"\xEF\xBB\xBF\xEF\xBB\xBF{\"log\":{\"entries\":[]}}",
        Err(0),
    ),
    // the last of two members counts
    (br#"{"log":1,"log":{"entries":[1],"entries":[]}}"#, Ok("")),
    (br#"{"log":{"entries":[]},"log":1}"#, Err(0)),
    // a number that no float has, and the greatest
    (br#"{"log":{"entries":[]},"a":1e400}"#, Err(0)),
    (br#"{"log":{"entries":[1e400]}}"#, Err(0)),
    (br#"{"log":{"entries":[]},"a":1e308}"#, Ok("")),
    // half of a surrogate pair, and both
    (br#"{"log":{"entries":[]},"a":"\ud83d"}"#, Err(0)),
    (br#"{"log":{"entries":[]},"a":"\ude00"}"#, Err(0)),
    (br#"{"log":{"entries":[]},"a":"\ud83d\ude00"}"#, Ok("")),
    // bytes that aren't UTF-8
    (b"{\"log\":{\"entries\":[]},\"a\":\"\xFF\"}", Err(0)),
];

fn is_owed(made: &Result<Vec<u8>, HarError>, owed: Result<&str, u64>) -> bool {
    match (made, owed) {
        (Ok(made), Ok(owed)) => made.as_slice() == owed.as_bytes(),
        (Err(HarError::NotHar { entry }), Err(owed)) => *entry == owed,
        _ => false,
    }
}

fn entry_text(alloc: Global, row: &Row) -> Result<String, AllocError> {
    let (method, sent, status, headers, content, _) = row;
    format!(in alloc;
        "{{\"request\":{{\"method\":{method},\"headers\":[{sent}]}},\"response\":{{\"status\":{status},\"headers\":[{headers}],\"content\":{content}}}}}"
    )
}

/// A log that has the entry twice.
fn twice(alloc: Global, row: &Row) -> Result<String, AllocError> {
    let entry = entry_text(alloc, row)?;
    format!(in alloc; "{{\"log\":{{\"entries\":[{entry},{entry}]}}}}")
}

fn owed_of(alloc: Global, row: &Row) -> Result<Option<String>, AllocError> {
    match row.5 {
        Some(text) => Ok(Some(format!(in alloc; "{text}{text}")?)),
        None => Ok(None),
    }
}

fn is_made(rt: &impl Abort, alloc: Global, row: &Row) -> Result<(), Fail> {
    let text = twice(alloc, row)?;
    let made = to_recording(alloc, text.as_bytes());
    match owed_of(alloc, row)? {
        Some(owed) => assert!(rt; is_owed(&made, Ok(owed.as_str())), "{text}"),
        None => assert!(rt; is_owed(&made, Err(1)), "{text}"),
    }
    Ok(())
}

#[test]
fn entries_are_recorded(rt: HostRuntime) -> Result<(), Fail> {
    for row in ROWS {
        is_made(&rt, rt.alloc(), row)?;
    }
    Ok(())
}

#[test]
fn texts_are_read(rt: HostRuntime) {
    for (text, owed) in TEXTS {
        assert!(rt; is_owed(&to_recording(rt.alloc(), text), *owed), "{text:?}");
    }
}

/// A log beside arrays that nest so deep within its object.
fn nested(alloc: Global, depth: usize) -> Result<Vec<u8>, AllocError> {
    let mut text = Vec::new(alloc);
    text.extend_from_slice(br#"{"log":{"entries":[]},"a":"#)?;
    for _ in 0..depth {
        text.push(b'[')?;
    }
    for _ in 0..depth {
        text.push(b']')?;
    }
    text.push(b'}')?;
    Ok(text)
}

/// With the object itself 127 levels are taken.
#[test]
fn nesting_is_bounded(rt: HostRuntime) -> Result<(), Fail> {
    for (depth, owed) in [(126, Ok("")), (127, Err(0))] {
        let text = nested(rt.alloc(), depth)?;
        assert!(rt;
            is_owed(&to_recording(rt.alloc(), text.as_slice()), owed),
            "{depth}"
        );
    }
    Ok(())
}
