//! Recordings at the limits of a head, its fields and a chunk's size, and one past them.

use super::{REQUEST, joined, repeated, settings};
use crate::{Engine, EngineOutcome, Job};
use http_exchange::BadKind;
use orb_io::{MemorySink, MemorySource};
use response_rules::Policy;
use std::alloc::Global;
use std::process::Abort;
use std::test::Fail;

/// A response as a text, another so many times, and a third; the answer to the request and it, and whether it goes out.
type Row = (
    &'static [u8],
    (usize, &'static [u8]),
    &'static [u8],
    EngineOutcome,
    bool,
);

use EngineOutcome::{Bad, Cut, Done, HeadLimit};

const STYLE: &[u8] = b"HTTP/1.1 200 OK\r\nContent-Type: text/css\r\nContent-Length: 0\r\n";

const STYLE_X: &[u8] = b"HTTP/1.1 200 OK\r\nContent-Type: text/css\r\nContent-Length: 0\r\nX: ";

const CHUNKED: &[u8] = b"HTTP/1.1 200 OK\r\nTransfer-Encoding: chunked\r\n\r\n";

static ROWS: [Row; 6] = [
    // a head of 65,536 bytes, and one more
    (STYLE_X, (65_469, b"a"), b"\r\n\r\n", Done, true),
    (
        STYLE_X,
        (65_470, b"a"),
        b"\r\n\r\n",
        HeadLimit { place: 43 },
        false,
    ),
    // 128 fields, and one more
    (STYLE, (126, b"X: a\r\n"), b"\r\n", Done, true),
    (
        STYLE,
        (127, b"X: a\r\n"),
        b"\r\n",
        Bad {
            kind: BadKind::BadHead,
            place: 43,
        },
        false,
    ),
    // a size of 15 digits, and one more
    (CHUNKED, (15, b"f"), b"\r\n", Cut { place: 0 }, false),
    (
        CHUNKED,
        (16, b"f"),
        b"\r\n",
        Bad {
            kind: BadKind::BadChunk,
            place: 105,
        },
        false,
    ),
];

/// What the engine answers over the recording, in pieces of that size, and the sink after that.
fn run(
    alloc: Global,
    engine: &mut Engine,
    recording: Vec<u8>,
    piece: usize,
) -> Result<(EngineOutcome, MemorySink), Fail> {
    let mut source = MemorySource::new(recording, piece.max(1), Vec::new(alloc));
    let mut sink = MemorySink::open(alloc, 65_536, Vec::new(alloc))?;
    let outcome = engine.run(&mut source, &mut sink);
    Ok((outcome, sink))
}

/// Runs the row in pieces of that size.
fn owes(
    rt: &impl Abort,
    alloc: Global,
    engine: &mut Engine,
    row: &Row,
    piece: usize,
) -> Result<(), Fail> {
    let (first, (times, text), last, owed, goes_out) = *row;
    let response = joined(alloc, &[first, &repeated(alloc, text, times)?, last])?;
    let recording = joined(alloc, &[REQUEST, &response])?;
    let (outcome, sink) = run(alloc, engine, recording, piece)?;
    assert_eq!(rt; outcome, owed, "{times} times {text:?}");
    let written = if goes_out { response.as_slice() } else { &[] };
    assert!(rt; sink.bytes() == written, "{times} times {text:?}");
    Ok(())
}

#[test]
fn limits_hold_from_both_sides(rt: HostRuntime) -> Result<(), Fail> {
    let mut engine = Engine::open(rt.alloc(), settings(Job::Filter, Policy::Orb))?;
    for row in &ROWS {
        for piece in [1, 7, 131_072] {
            owes(&rt, rt.alloc(), &mut engine, row, piece)?;
        }
    }
    Ok(())
}
