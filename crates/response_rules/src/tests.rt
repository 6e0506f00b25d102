//! Responses through a [`Decider`], in pieces, with what the tables of the rules owe each.
ghost use Rattle.std.specs.Prelude.{◌≡◌, ◌≤◌, ◌++◌, ℕ, List};
ghost use Rattle.response_rules.specs.Heads.{Case};
ghost use Rattle.response_rules.specs.Reads.{HasRead};

use crate::{Decider, Policy, Progress, Rule, Verdict};
use header_values::{FieldSpan, Fields, Scratch};
use media_state::MediaState;
use media_state::MediaState::{Initial, Na, Subsequent};
use std::alloc::Global;
use std::process::Abort;
use std::test::Fail;

const LIMIT: u64 = 8_388_608;

type Field = (&'static str, &'static str);

/// Bytes, each part so often.
type Body = &'static [(u32, &'static [u8])];

/// State of the media resource, status, fields and body of a response to an opaque request, and the rule that decides it.
type Row = (MediaState, u16, &'static [Field], Body, &'static str);

/// A limit, a body of no type that the rules know, and the rule.
type Text = (u64, Body, &'static str);

const OCTETS: Field = ("Content-Type", "application/octet-stream");

const CSS: Field = ("Content-Type", "text/css");

const CSV: Field = ("Content-Type", "text/csv");

const HTML: Field = ("Content-Type", "text/html");

const JSON: Field = ("Content-Type", "application/json");

const OGG: Field = ("Content-Type", "application/ogg");

const PLAIN: Field = ("Content-Type", "text/plain");

const SVG: Field = ("Content-Type", "image/svg+xml");

const XML: Field = ("Content-Type", "a/b+xml");

const NOSNIFF: Field = ("X-Content-Type-Options", "nosniff");

const GZIP: Field = ("Content-Encoding", "gzip");

const FIRST: Field = ("Content-Range", "bytes 0-1023/9000");

const LATER: Field = ("Content-Range", "bytes 1-1024/9000");

const LONGER: Field = ("Content-Range", "bytes 1-1024/9001");

const UNKNOWN: Field = ("Content-Range", "bytes 0-1023/*");

/// The state of a media resource of which parts were let through that didn't state its length.
const SEEN: MediaState = Subsequent { complete: None };

/// The state of one that is of 9,000 bytes.
const KNOWN: MediaState = Subsequent {
    complete: Some(9000),
};

const X: Body = &[(1, b"x")];

const GIF: Body = &[(1, b"GIF89a")];

const OGGS: Body = &[(1, b"OggS\0")];

const LONG_OGGS: Body = &[(1, b"OggS\0"), (1019, b"\0")];

/// A response that the rule decides, and one that differs in a field or a byte.
const BY_HEAD: [Row; 30] = [
    (Na, 200, &[CSS], X, "safelisted"),
    (Na, 200, &[SVG, NOSNIFF], X, "safelisted"),
    (Na, 200, &[CSS, GZIP], X, "safelisted"),
    (Na, 200, &[CSV], X, "never-sniffed"),
    (Na, 200, &[("Content-Type", "text/csz")], X, "script"),
    (Na, 206, &[HTML, FIRST], X, "partial-blocklisted"),
    (Na, 200, &[HTML, FIRST], X, "script"),
    (Na, 206, &[PLAIN, FIRST], X, "script"),
    (Na, 200, &[PLAIN, NOSNIFF], X, "nosniff-blocklisted"),
    (Na, 200, &[HTML, NOSNIFF], &[], "nosniff-blocklisted"),
    (
        Na,
        200,
        &[("Content-Type", "a/b+json"), NOSNIFF],
        X,
        "nosniff-blocklisted",
    ),
    (
        Na,
        200,
        &[("Content-Type", "a/json"), NOSNIFF],
        X,
        "nosniff",
    ),
    (Na, 200, &[PLAIN], X, "script"),
    (SEEN, 200, &[], X, "subsequent"),
    (Initial, 200, &[], X, "media-expected"),
    (Na, 206, &[LATER], X, "bad-range"),
    (Initial, 206, &[OGG, LATER], LONG_OGGS, "bad-range"),
    (Na, 206, &[("Content-Range", "bytes 0-2/2")], X, "bad-range"),
    (Na, 206, &[], X, "bad-range"),
    (Na, 206, &[FIRST], X, "untyped"),
    (Na, 200, &[LATER], X, "untyped"),
    (Na, 200, &[GZIP], X, "coded"),
    (Na, 200, &[OCTETS, GZIP], &[(1, b"[1, 2]")], "coded"),
    (Na, 200, &[("Content-Encoding", "identity")], X, "untyped"),
    (Na, 200, &[("Content-Type", "*/*")], X, "untyped"),
    (Na, 200, &[OCTETS, NOSNIFF], X, "nosniff"),
    (
        Na,
        200,
        &[OCTETS, ("X-Content-Type-Options", "x, nosniff")],
        X,
        "script",
    ),
    (Na, 300, &[OCTETS], X, "not-ok"),
    (Na, 299, &[OCTETS], X, "script"),
    (Na, 199, &[OCTETS], X, "not-ok"),
];

/// A response to a request for media, and the state that it leaves.
const BY_LENGTH: [(Row, MediaState); 14] = [
    ((Initial, 206, &[OGG, FIRST], LONG_OGGS, "media"), KNOWN),
    ((Initial, 206, &[OGG, UNKNOWN], OGGS, "media"), SEEN),
    ((Initial, 200, &[OGG, FIRST], OGGS, "media"), SEEN),
    ((SEEN, 206, &[LATER], X, "subsequent"), KNOWN),
    ((SEEN, 206, &[UNKNOWN], X, "subsequent"), SEEN),
    ((SEEN, 200, &[LATER], X, "subsequent"), SEEN),
    ((KNOWN, 206, &[LATER], X, "subsequent"), KNOWN),
    ((KNOWN, 206, &[LONGER], X, "range-mismatch"), KNOWN),
    ((KNOWN, 206, &[LONGER, GZIP], OGGS, "range-mismatch"), KNOWN),
    ((KNOWN, 200, &[LONGER], X, "subsequent"), KNOWN),
    ((KNOWN, 206, &[UNKNOWN], X, "subsequent"), KNOWN),
    ((KNOWN, 206, &[], X, "subsequent"), KNOWN),
    (
        (
            KNOWN,
            206,
            &[HTML, NOSNIFF, LONGER],
            X,
            "partial-blocklisted",
        ),
        KNOWN,
    ),
    (
        (
            KNOWN,
            206,
            &[PLAIN, NOSNIFF, LONGER],
            X,
            "nosniff-blocklisted",
        ),
        KNOWN,
    ),
];

const MP4: Field = ("Content-Type", "video/mp4");

const WEBM: &[u8] = b"\x1a\x45\xdf\xa3\x9f\x42\x82\x84webm";

const FRAME: &[u8] = b"\xff\xfb\x90\0";

const BY_WINDOW: [Row; 24] = [
    (Na, 200, &[], OGGS, "media-unexpected"),
    (Na, 206, &[OGG, FIRST], LONG_OGGS, "media-unexpected"),
    (Na, 200, &[], &[(1, b"OggS\x01")], "untyped"),
    (Initial, 404, &[], OGGS, "media-status"),
    (Initial, 201, &[], OGGS, "media-status"),
    (Initial, 200, &[], OGGS, "media"),
    (Initial, 200, &[], &[(1, b"OggS")], "media-expected"),
    (Initial, 200, &[], GIF, "media-expected"),
    (
        Initial,
        200,
        &[MP4],
        &[(1, b"\0\0\x04\x04ftypmp42"), (4988, b"\0")],
        "media-expected",
    ),
    (
        Initial,
        200,
        &[MP4],
        &[(1, b"\0\0\x04\0ftypmp42"), (4988, b"\0")],
        "media",
    ),
    (
        Initial,
        200,
        &[],
        &[(1, FRAME), (413, b"\0"), (1, FRAME)],
        "media",
    ),
    (
        Initial,
        200,
        &[],
        &[(1, FRAME), (413, b"\0"), (1, b"\xff\xfb\x90")],
        "media-expected",
    ),
    (
        Initial,
        200,
        &[],
        &[(1, b"\xff\xfb\x92\0"), (413, b"\0"), (1, FRAME)],
        "media-expected",
    ),
    (Initial, 200, &[], &[(1, WEBM)], "media"),
    (Na, 200, &[], GIF, "image"),
    (Na, 404, &[], GIF, "image"),
    (Na, 200, &[OCTETS, NOSNIFF], GIF, "image"),
    (Na, 404, &[], &[(1, b"GIF88a")], "not-ok"),
    (Na, 200, &[], X, "untyped"),
    (Na, 200, &[("Content-Type", "image/avif")], X, "typed-media"),
    (Na, 200, &[("Content-Type", "images/avif")], X, "script"),
    (
        Na,
        200,
        &[OCTETS],
        &[(1, b"GIF89a"), (200_000, b"\0")],
        "image",
    ),
    (Na, 200, &[], &[(1024, b" "), (1, b"GIF89a")], "untyped"),
    (
        Na,
        200,
        &[OCTETS],
        &[(1024, b" "), (1, b"GIF89a")],
        "script",
    ),
];

const BY_TEXT: [Text; 32] = [
    (LIMIT, &[], "script"),
    (LIMIT, &[(1, b"[1, 2]")], "json"),
    (LIMIT, &[(1, b"{\"a\":1}")], "not-script"),
    (LIMIT, &[(1, b"a=1")], "script"),
    (LIMIT, &[(1, b"{ 1 2 } 3")], "not-script"),
    (LIMIT, &[(1, b"{ 1\n2 } 3")], "script"),
    (LIMIT, &[(1, b"a = b\n++c")], "script"),
    (LIMIT, &[(1, b"a++\n(b)")], "script"),
    (LIMIT, &[(1, b"a = b + c\n(d + e).print()")], "script"),
    (LIMIT, &[(1, b"var a\n(b)")], "script"),
    (LIMIT, &[(1, b"return\na + b")], "script"),
    (LIMIT, &[(1, b"for (a; b\n)")], "not-script"),
    (LIMIT, &[(1, b"if (a > b)\nelse c = d")], "not-script"),
    (LIMIT, &[(1, b"a\n/b/.c")], "not-script"),
    (LIMIT, &[(1, b"let x = 1")], "not-script"),
    (LIMIT, &[(1, b"if (a) /b/.c; else d / e / f")], "script"),
    (LIMIT, &[(1024, b"["), (1, b"0"), (1024, b"]")], "json"),
    (
        LIMIT,
        &[(1025, b"["), (1, b"0"), (1025, b"]")],
        "not-script",
    ),
    (LIMIT, &[(1, b"if(a)b;"), (5000, b"else if(a)b;")], "script"),
    (LIMIT, &[(1, b"\xef\xbb\xbf[1]")], "json"),
    (LIMIT, &[(2, b"\xef\xbb\xbf"), (1, b"[1]")], "script"),
    (LIMIT, &[(2000, b" "), (1, b"[1]")], "json"),
    (LIMIT, &[(2000, b" "), (1, b"[1] 2")], "not-script"),
    (1024, &[(512, b"x;")], "script"),
    (1024, &[(512, b"x;"), (1, b" ")], "body-limit"),
    (1024, &[(1, b"1 2"), (1021, b" ")], "not-script"),
    (1024, &[(1, b"1 2"), (1022, b" ")], "body-limit"),
    (1024, &[(1, b"[1]"), (1021, b" ")], "json"),
    (1024, &[(1, b"[1]"), (1022, b" ")], "body-limit"),
    (3, &[(1, b"a=1")], "script"),
    (2, &[(1, b"a=1")], "body-limit"),
    (0, &[(1, b"x")], "body-limit"),
];

const BY_CORB: [Row; 29] = [
    (Na, 200, &[CSS], X, "corb-safelisted"),
    (Na, 200, &[CSV], X, "corb-never-sniffed"),
    (Na, 206, &[HTML], X, "corb-partial"),
    (Na, 206, &[PLAIN], X, "corb-partial"),
    (Na, 206, &[OCTETS], X, "corb-unprotected"),
    (KNOWN, 206, &[OCTETS, LONGER], X, "corb-unprotected"),
    (Na, 200, &[XML, NOSNIFF], X, "corb-nosniff"),
    (Na, 200, &[PLAIN, NOSNIFF], X, "corb-nosniff"),
    (Na, 200, &[OCTETS, NOSNIFF], X, "corb-unprotected"),
    (Na, 200, &[HTML, GZIP], X, "corb-coded"),
    (Na, 200, &[], &[(1, b")]}'")], "corb-breaker"),
    (Na, 200, &[], &[(1, b"for(;;);")], "corb-breaker"),
    (
        Na,
        200,
        &[OCTETS, GZIP],
        &[(1, b")]}'")],
        "corb-unprotected",
    ),
    (Na, 200, &[HTML], &[(1, b"<!-- x --> <HTML>")], "corb-html"),
    (Na, 200, &[PLAIN], &[(1, b"<br>")], "corb-html"),
    (Na, 200, &[HTML], &[(1, b"<br")], "corb-unconfirmed"),
    (Na, 200, &[HTML], &[(1, b"<!--><p> ")], "corb-unconfirmed"),
    (Na, 200, &[XML], &[(1, b" <?xml")], "corb-xml"),
    (Na, 200, &[PLAIN], &[(1, b"<?xml")], "corb-xml"),
    (Na, 200, &[HTML], &[(1, b"<?xml")], "corb-unconfirmed"),
    (Na, 200, &[JSON], &[(1, b"{\"a\\\"b\":")], "corb-json"),
    (Na, 200, &[PLAIN], &[(1, b"{\"a\" : 1}")], "corb-json"),
    (Na, 200, &[HTML], &[(1, b"{\"a\" : 1}")], "corb-unconfirmed"),
    (
        Na,
        200,
        &[OCTETS],
        &[(1, b"{\"a\" : 1}")],
        "corb-unprotected",
    ),
    (
        Na,
        200,
        &[],
        &[(1, b"GIF89a"), (2000, b"\0")],
        "corb-unprotected",
    ),
    (Na, 200, &[PLAIN], &[(1, b"hello")], "corb-text"),
    (Na, 404, &[HTML], &[(1, b"hello")], "corb-unconfirmed"),
    (Na, 200, &[HTML], &[(1020, b" "), (1, b"<br>")], "corb-html"),
    (
        Na,
        200,
        &[HTML],
        &[(1021, b" "), (1, b"<br>")],
        "corb-unconfirmed",
    ),
];

/// The bytes of the parts.
fn bytes_of(alloc: Global, body: Body) -> Result<Vec<u8>, Fail> {
    let mut bytes = Vec::new(alloc);
    for (count, part) in body {
        for _ in 0..*count {
            bytes.extend_from_slice(part)?;
        }
    }
    Ok(bytes)
}

/// A head with a line `name: value` for each field, and where the fields stand in it.
fn case_of(alloc: Global, fields: &[Field]) -> Result<(Vec<u8>, Vec<FieldSpan>), Fail> {
    let mut head = Vec::new(alloc);
    let mut spans = Vec::new(alloc);
    for (name, value) in fields {
        let name_start = head.len();
        head.extend_from_slice(name.as_bytes())?;
        let name_end = head.len();
        head.extend_from_slice(b": ")?;
        let value_start = head.len();
        head.extend_from_slice(value.as_bytes())?;
        let value_end = head.len();
        head.extend_from_slice(b"\r\n")?;
        spans.push(FieldSpan {
            name_start,
            name_end,
            value_start,
            value_end,
        })?;
    }
    Ok((head, spans))
}

/// Feeds the body in pieces of that size.
fn feed_in_pieces(decider: &mut Decider, body: &[u8], size: usize)
    requires { 1 ≤ size }
    ensures { (h : Case) (m : List ℕ) → HasRead decider.old h m → HasRead decider.new h (m ++ body.now) }
{
    let mut rest = body;
    'pieces: while !rest.is_empty() {
        let (piece, others) = rest.split_at(size.min(rest.len()));
        let _progress = decider.feed(piece);
        rest = others;
    }
}

/// The verdict on a response whose body comes in pieces of that size.
fn judge(
    alloc: Global,
    policy: Policy,
    limit: u64,
    row: &Row,
    opaque: bool,
    size: usize,
) -> Result<Verdict, Fail>
    requires { 1 ≤ size }
{
    let (state, status, fields, body, _) = *row;
    let (head, spans) = case_of(alloc, fields)?;
    let fields = Fields::of(&head, &spans).ok_or("fields of the head")?;
    let mut scratch = Scratch::open(alloc, head.len())?;
    let body = bytes_of(alloc, body)?;
    let mut decider = Decider::new(policy, state, opaque, status, &fields, &mut scratch, limit);
    feed_in_pieces(&mut decider, &body, size);
    Ok(decider.finish())
}

fn check(
    rt: &impl Abort,
    alloc: Global,
    policy: Policy,
    limit: u64,
    row: &Row,
    left: MediaState,
) -> Result<(), Fail> {
    let (_, _, _, _, rule) = *row;
    for size in [1, 7, 4_194_304] {
        let verdict = judge(alloc, policy, limit, row, true, size)?;
        assert_eq!(rt; verdict.rule.name(), rule.as_bytes(), "{rule}");
        assert_eq!(rt; verdict.allow, verdict.rule.allows(), "{rule}");
        assert_eq!(rt; verdict.state, left, "{rule}");
    }
    let passed = judge(alloc, policy, limit, row, false, 1)?;
    assert_eq!(rt; passed.rule, Rule::NotOpaque, "{rule}");
    Ok(())
}

#[test]
fn first_rule_that_holds_decides(rt: HostRuntime) -> Result<(), Fail> {
    for row in BY_HEAD {
        check(&rt, rt.alloc(), Policy::Orb, LIMIT, &row, row.0)?;
    }
    for (row, left) in BY_LENGTH {
        check(&rt, rt.alloc(), Policy::Orb, LIMIT, &row, left)?;
    }
    for row in BY_WINDOW {
        let left = if row.4 == "media" { SEEN } else { row.0 };
        check(&rt, rt.alloc(), Policy::Orb, LIMIT, &row, left)?;
    }
    Ok(())
}

#[test]
fn text_is_judged_whole(rt: HostRuntime) -> Result<(), Fail> {
    for (limit, body, rule) in BY_TEXT {
        check(
            &rt,
            rt.alloc(),
            Policy::Orb,
            limit,
            &(Na, 200, &[OCTETS], body, rule),
            Na,
        )?;
    }
    Ok(())
}

#[test]
fn corb_has_rules_of_its_own(rt: HostRuntime) -> Result<(), Fail> {
    for row in BY_CORB {
        check(&rt, rt.alloc(), Policy::Corb, LIMIT, &row, row.0)?;
    }
    Ok(())
}

/// A piece, and the progress after it, whether the response is hopeless then, and whether it is read as text.
type Step = (Body, Progress, bool, bool);

const OPEN: Progress = Progress::Open;

const SENT: Progress = Progress::Allowed;

const IMAGE: [Step; 2] = [
    (&[(1, b"GIF89a"), (1017, b"\0")], OPEN, false, false),
    (&[(1, b"\0")], SENT, false, false),
];

const ALIVE: [Step; 2] = [
    (&[(1, b"if (a) /b/.c"), (1011, b" ")], OPEN, false, false),
    (&[(9, b" ")], OPEN, false, true),
];

const TWO_NAMES: [Step; 2] = [
    (&[(1, b"a b"), (1020, b" ")], OPEN, false, false),
    (&[(1, b" ")], OPEN, true, true),
];

const OBJECT: [Step; 2] = [
    (&[(1, b"{\"a\":1"), (1019, b" ")], OPEN, true, true),
    (&[(1, b"}")], OPEN, true, true),
];

const TOO_LONG: [Step; 2] = [
    (&[(1024, b"x;")], OPEN, false, true),
    (&[(1, b";")], OPEN, true, true),
];

const TYPED: [Step; 2] = [
    (&[(1023, b"x")], OPEN, false, false),
    (&[(1, b"x")], OPEN, true, false),
];

const STYLE: [Step; 2] = [(&[], SENT, false, false), (X, SENT, false, false)];

const CODED: [Step; 2] = [
    (&[], OPEN, true, false),
    (&[(2000, b"x")], OPEN, true, false),
];

const STEPS: [(Field, [Step; 2]); 8] = [
    (OCTETS, IMAGE),
    (OCTETS, ALIVE),
    (OCTETS, TWO_NAMES),
    (OCTETS, OBJECT),
    (OCTETS, TOO_LONG),
    (("Content-Type", "video/x"), TYPED),
    (CSS, STYLE),
    (GZIP, CODED),
];

#[test]
fn judgement_goes_on_with_the_body(rt: HostRuntime) -> Result<(), Fail> {
    for (field, steps) in STEPS {
        let (head, spans) = case_of(rt.alloc(), &[field])?;
        let fields = Fields::of(&head, &spans).ok_or("fields of the head")?;
        let mut scratch = Scratch::open(rt.alloc(), head.len())?;
        let mut decider = Decider::new(Policy::Orb, Na, true, 200, &fields, &mut scratch, 2048);
        for (body, progress, hopeless, text) in steps {
            let piece = bytes_of(rt.alloc(), body)?;
            assert_eq!(rt; decider.feed(&piece), progress, "{field:?}");
            assert_eq!(rt; decider.progress(), progress, "{field:?}");
            assert_eq!(rt; decider.is_hopeless(), hopeless, "{field:?}");
            assert_eq!(rt; decider.in_text(), text, "{field:?}");
        }
    }
    Ok(())
}
