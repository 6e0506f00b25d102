//! Responses through a [`Filter`], in pieces, with what a sink got and how much was held.
ghost use Rattle.std.specs.Prelude.{◌≡◌, ◌≤◌, IfOk, OnOk};
ghost use Rattle.body_filter.specs.Reads.{CanFeed, IsMadeFor, limit_of};

use crate::{Filter, WriteFault};
use header_values::{FieldSpan, Fields, Scratch};
use media_state::MediaState;
use orb_io::MemorySink;
use response_rules::{Decider, Policy, Rule, Verdict};
use std::alloc::Global;
use std::test::Fail;

const LIMIT: u64 = 2048;

/// The bytes of some fields, and where these stand.
type Head = (&'static [u8], &'static [FieldSpan]);

/// Bytes, each part so often.
type Bytes = &'static [(u32, &'static [u8])];

/// The fields of a response, whether the request is opaque, whether the body comes in chunks, the body, the rule that
/// decides, and what goes out.
type Row = (Head, bool, bool, Bytes, Rule, Bytes);

/// The fields of a response, whether the request is opaque, whether the body comes in chunks, and the body; and of each
/// piece how long it is, what is held after it, and how much went out.
type Steps = (Head, bool, bool, Bytes, &'static [(usize, usize, usize)]);

/// No fields.
const BARE: Head = (b"", &[]);

/// Plain text.
const PLAIN: Head = (
    b"Content-Type: text/plain\r\n",
    &[FieldSpan {
        name_start: 0,
        name_end: 12,
        value_start: 14,
        value_end: 24,
    }],
);

/// HTML that isn't to be guessed.
const HTML: Head = (
    b"Content-Type: text/html\r\nX-Content-Type-Options: nosniff\r\n",
    &[
        FieldSpan {
            name_start: 0,
            name_end: 12,
            value_start: 14,
            value_end: 23,
        },
        FieldSpan {
            name_start: 25,
            name_end: 47,
            value_start: 49,
            value_end: 56,
        },
    ],
);

const HEAD: &[u8] = b"HTTP/1.1 200 OK\r\n\r\n";

const PNG: &[u8] = b"\x89PNG\r\n\x1a\n";

const REPLY: &[u8] =
    b"HTTP/1.1 403 Forbidden\r\nContent-Length: 0\r\nOrb-Rule: nosniff-blocklisted\r\n\r\n";

const LONG_REPLY: &[u8] =
    b"HTTP/1.1 403 Forbidden\r\nContent-Length: 0\r\nOrb-Rule: body-limit\r\n\r\n";

const JSON_REPLY: &[u8] = b"HTTP/1.1 403 Forbidden\r\nContent-Length: 0\r\nOrb-Rule: json\r\n\r\n";

const TEXT_REPLY: &[u8] =
    b"HTTP/1.1 403 Forbidden\r\nContent-Length: 0\r\nOrb-Rule: not-script\r\n\r\n";

/// Longer than the limit, and than two chunks.
const LONG: Bytes = &[(2049, b"x")];

/// An image of 2,008 bytes.
const IMAGE: Bytes = &[(1, PNG), (2000, b"x")];

const ROWS: [Row; 13] = [
    (
        BARE,
        false,
        false,
        LONG,
        Rule::NotOpaque,
        &[(1, HEAD), (2049, b"x")],
    ),
    (BARE, false, true, LONG, Rule::NotOpaque, CHUNKS),
    (
        BARE,
        false,
        true,
        &[(1024, b"x")],
        Rule::NotOpaque,
        ONE_CHUNK,
    ),
    (
        BARE,
        false,
        true,
        &[(1019, b"x")],
        Rule::NotOpaque,
        SHORT_CHUNK,
    ),
    (BARE, false, false, &[], Rule::NotOpaque, &[(1, HEAD)]),
    (
        BARE,
        true,
        false,
        IMAGE,
        Rule::Image,
        &[(1, HEAD), (1, PNG), (2000, b"x")],
    ),
    (
        BARE,
        true,
        false,
        &[(1, PNG)],
        Rule::Image,
        &[(1, HEAD), (1, PNG)],
    ),
    (BARE, true, true, LONG, Rule::Untyped, CHUNKS),
    (
        PLAIN,
        true,
        false,
        LONG,
        Rule::BodyLimit,
        &[(1, LONG_REPLY)],
    ),
    (
        PLAIN,
        true,
        false,
        &[(2048, b"x")],
        Rule::Script,
        &[(1, HEAD), (2048, b"x")],
    ),
    (
        PLAIN,
        true,
        false,
        &[(1, b"[1]")],
        Rule::Json,
        &[(1, JSON_REPLY)],
    ),
    (
        PLAIN,
        true,
        true,
        &[(1, b"a b")],
        Rule::NotScript,
        &[(1, TEXT_REPLY)],
    ),
    (
        HTML,
        true,
        false,
        LONG,
        Rule::NosniffBlocklisted,
        &[(1, REPLY)],
    ),
];

/// The head and the long body in chunks.
const CHUNKS: Bytes = &[
    (1, HEAD),
    (1, b"400\r\n"),
    (1024, b"x"),
    (1, b"\r\n400\r\n"),
    (1024, b"x"),
    (1, b"\r\n1\r\nx\r\n0\r\n\r\n"),
];

/// The head and a body that fills a chunk.
const ONE_CHUNK: Bytes = &[
    (1, HEAD),
    (1, b"400\r\n"),
    (1024, b"x"),
    (1, b"\r\n0\r\n\r\n"),
];

/// The head and a body that fills none.
const SHORT_CHUNK: Bytes = &[
    (1, HEAD),
    (1, b"3fb\r\n"),
    (1019, b"x"),
    (1, b"\r\n0\r\n\r\n"),
];

const HELD: [Steps; 7] = [
    (
        BARE,
        false,
        false,
        LONG,
        &[(0, 0, 19), (1, 0, 20), (1023, 0, 1043), (1025, 0, 2068)],
    ),
    (
        BARE,
        false,
        true,
        LONG,
        &[(0, 0, 19), (1023, 1023, 19), (1, 0, 1050), (1025, 1, 2081)],
    ),
    (
        BARE,
        true,
        false,
        &[(1, PNG), (2041, b"x")],
        &[(8, 8, 0), (1015, 1023, 0), (1, 0, 1043), (1025, 0, 2068)],
    ),
    (
        BARE,
        true,
        true,
        LONG,
        &[(1, 1, 0), (1022, 1023, 0), (2, 1, 1050), (1024, 1, 2081)],
    ),
    (
        PLAIN,
        true,
        false,
        LONG,
        &[(1024, 1024, 0), (1023, 2047, 0), (1, 2048, 0), (1, 0, 0)],
    ),
    (
        PLAIN,
        true,
        false,
        &[(1, b"x x "), (2000, b"x")],
        &[(512, 512, 0), (512, 0, 0), (512, 0, 0)],
    ),
    (
        HTML,
        true,
        false,
        LONG,
        &[(0, 0, 0), (1, 0, 0), (1023, 0, 0), (1025, 0, 0)],
    ),
];

/// The bytes of the parts.
fn bytes_of(alloc: Global, parts: Bytes) -> Result<Vec<u8>, Fail> {
    let mut bytes = Vec::new(alloc);
    for (count, part) in parts {
        for _ in 0..*count {
            bytes.extend_from_slice(part)?;
        }
    }
    Ok(bytes)
}

/// What judges a response with these fields, whose request is opaque or not.
fn decider(alloc: Global, head: Head, opaque: bool) -> Result<Decider, Fail>
    ensures { IfOk result (λ d. IsMadeFor d LIMIT) }
{
    let fields = Fields::of(head.0, head.1).ok_or("fields of the head")?;
    let mut scratch = Scratch::open(alloc, fields.head.len())?;
    Ok(Decider::new(
        Policy::Orb,
        MediaState::Na,
        opaque,
        200,
        &fields,
        &mut scratch,
        LIMIT,
    ))
}

/// Feeds the body in pieces of that size, or of 1.
fn feed_in_pieces(
    filter: &mut Filter,
    body: &[u8],
    size: usize,
    sink: &mut MemorySink,
) -> Result<(), WriteFault>
    requires { CanFeed filter.old }
    ensures can { OnOk result (CanFeed filter.new) }
    ensures limit { limit_of filter.new ≡ limit_of filter.old }
{
    let mut rest = body;
    'pieces: while !rest.is_empty() {
        let (piece, after) = rest.split_at(size.max(1).min(rest.len()));
        filter.feed(piece, sink)?;
        rest = after;
    }
    Ok(())
}

/// Whether after each piece of the body so much is held, and so much went out. A row is how long
/// the piece is, and these two.
fn steps(
    filter: &mut Filter,
    body: &[u8],
    pieces: &[(usize, usize, usize)],
    sink: &mut MemorySink,
) -> Result<bool, WriteFault>
    requires { CanFeed filter.old }
{
    let mut rest = body;
    for (size, held, put) in pieces {
        let (piece, after) = rest.split_at((*size).min(rest.len()));
        filter.feed(piece, sink)?;
        if filter.held() != *held || sink.bytes().len() != *put {
            return Ok(false);
        }
        rest = after;
    }
    Ok(true)
}

/// A whole response, with its body in pieces of that size.
fn pass(
    filter: &mut Filter,
    decider: Decider,
    chunked: bool,
    body: &[u8],
    size: usize,
    sink: &mut MemorySink,
) -> Result<Verdict, WriteFault>
    requires { IsMadeFor decider (limit_of filter.old) }
    ensures { limit_of filter.new ≡ limit_of filter.old }
{
    begin(filter, decider, chunked, sink)?;
    feed_in_pieces(filter, body, size, sink)?;
    filter.end(sink)
}

fn begin(
    filter: &mut Filter,
    decider: Decider,
    chunked: bool,
    sink: &mut MemorySink,
) -> Result<(), WriteFault>
    requires { IsMadeFor decider (limit_of filter.old) }
    ensures can { OnOk result (CanFeed filter.new) }
    ensures limit { limit_of filter.new ≡ limit_of filter.old }
{
    filter.begin(decider, HEAD, chunked, sink)
}

#[test]
fn allowed_bodies_go_out_and_blocked_ones_dont(rt: HostRuntime) -> Result<(), Fail> {
    let alloc = rt.alloc();
    for (fields, opaque, chunked, body, rule, put) in ROWS {
        let body = bytes_of(alloc, body)?;
        let put = bytes_of(alloc, put)?;
        for size in [1, 7, 4096] {
            let mut filter = Filter::open(alloc, LIMIT)?;
            let mut sink = MemorySink::open(alloc, 4096, Vec::new(alloc))?;
            let decider = decider(alloc, fields, opaque)?;
            let verdict = pass(&mut filter, decider, chunked, &body, size, &mut sink)?;
            assert_eq!(rt; verdict.rule, rule, "{rule:?}");
            assert_eq!(rt; sink.bytes(), put.as_slice(), "{rule:?}");
        }
    }
    Ok(())
}

#[test]
fn held_bytes_are_counted(rt: HostRuntime) -> Result<(), Fail> {
    let alloc = rt.alloc();
    for (fields, opaque, chunked, body, pieces) in HELD {
        let body = bytes_of(alloc, body)?;
        let mut filter = Filter::open(alloc, LIMIT)?;
        assert_eq!(rt; filter.held(), 0);
        let mut sink = MemorySink::open(alloc, 4096, Vec::new(alloc))?;
        let decider = decider(alloc, fields, opaque)?;
        begin(&mut filter, decider, chunked, &mut sink)?;
        let steps = steps(&mut filter, &body, pieces, &mut sink)?;
        assert!(rt; steps, "{pieces:?}");
    }
    Ok(())
}

#[test]
fn chunks_go_out_eight_by_a_push(rt: HostRuntime) -> Result<(), Fail> {
    let alloc = rt.alloc();
    let body = bytes_of(alloc, &[(9217, b"x")])?;
    // the push that fails, and how much went out before it: the head, eight chunks, one more
    for (fails, put) in [(0, 0), (1, 19), (2, 8267), (3, 9298)] {
        let mut filter = Filter::open(alloc, LIMIT)?;
        let mut sink = MemorySink::open(alloc, 16384, [fails].to_vec(alloc)?)?;
        let decider = decider(alloc, BARE, false)?;
        let verdict = pass(&mut filter, decider, true, &body, 9217, &mut sink);
        assert_eq!(rt; verdict, Err(WriteFault));
        assert_eq!(rt; sink.bytes().len(), put);
    }
    Ok(())
}

/// The push that fails, the room of the sink, and what it got.
const FAULTS: [(u64, usize, &[u8]); 4] = [
    (0, 64, b""),
    (1, 64, HEAD),
    (2, 64, b"HTTP/1.1 200 OK\r\n\r\nabcd"),
    (9, 25, b"HTTP/1.1 200 OK\r\n\r\nabcdef"),
];

#[test]
fn a_fault_leaves_a_prefix_and_a_filter_that_begins_anew(rt: HostRuntime) -> Result<(), Fail> {
    let alloc = rt.alloc();
    for (fails, room, want) in FAULTS {
        let mut filter = Filter::open(alloc, LIMIT)?;
        let mut sink = MemorySink::open(alloc, room, [fails].to_vec(alloc)?)?;
        let first = pass(
            &mut filter,
            decider(alloc, BARE, false)?,
            false,
            b"abcdefgh",
            4,
            &mut sink,
        );
        assert_eq!(rt; first, Err(WriteFault));
        assert_eq!(rt; sink.bytes(), want);
        let mut other = MemorySink::open(alloc, 128, Vec::new(alloc))?;
        let second = pass(
            &mut filter,
            decider(alloc, HTML, true)?,
            false,
            b"abcd",
            4,
            &mut other,
        )?;
        assert_eq!(rt; second.rule, Rule::NosniffBlocklisted);
        assert_eq!(rt; other.bytes(), REPLY);
    }
    Ok(())
}
