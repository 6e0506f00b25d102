//! A recording of four exchanges where the input ends, a pull fails, a push fails, or the sink has no room, at each place
//! in turn, all with one engine.

use super::{JPEG, REPLY, REQUEST, joined, repeated, settings};
use crate::{Engine, EngineOutcome, Job};
use orb_io::{MemorySink, MemorySource};
use response_rules::Policy;
use std::alloc::Global;
use std::process::Abort;
use std::test::Fail;

const SCRIPT: &[u8] =
    b"HTTP/1.1 200 OK\r\nContent-Type: text/javascript\r\nContent-Length: 2\r\n\r\nx;";

const UNSNIFFED: &[u8] =
    b"HTTP/1.1 200 OK\r\nContent-Type: text/html\r\nX-Content-Type-Options: nosniff\r\nContent-Length: 1\r\n\r\nx";

const ASSIGNMENT: &[u8] =
    b"HTTP/1.1 200 OK\r\nContent-Type: application/octet-stream\r\nContent-Length: 3\r\n\r\na=1";

/// How many bytes the recording has.
const ALL_READ: usize = 2674;

/// How many are written of it.
const ALL_WRITTEN: usize = 2374;

/// The places after whole exchanges.
static ENDS: [usize; 5] = [0, 114, 254, 2550, ALL_READ];

/// How many bytes are written once so many are read: a script after its head, the reply after a page, an image in chunks
/// from its window on, an assignment after its end.
static OWED: [(usize, usize); 8] = [
    (112, 69),
    (113, 70),
    (114, 71),
    (254, 147),
    (1458, 1251),
    (2542, 2282),
    (2550, 2293),
    (ALL_READ, ALL_WRITTEN),
];

/// An image of 2,049 bytes in chunks of 100 and one of 49.
fn sent_image(alloc: Global) -> Result<Vec<u8>, Fail> {
    let zeros = repeated(alloc, b"\0", 97)?;
    let first = joined(alloc, &[b"64\r\n\xff\xd8\xff", &zeros])?;
    let zeros = repeated(alloc, b"\0", 100)?;
    let chunk = joined(alloc, &[b"\r\n64\r\n", &zeros])?;
    let others = repeated(alloc, &chunk, 19)?;
    let zeros = repeated(alloc, b"\0", 49)?;
    let last = joined(alloc, &[b"\r\n31\r\n", &zeros, b"\r\n0\r\n\r\n"])?;
    joined(alloc, &[JPEG, &first, &others, &last])
}

/// The same, as it is written.
fn written_image(alloc: Global) -> Result<Vec<u8>, Fail> {
    let zeros = repeated(alloc, b"\0", 1021)?;
    let first = joined(alloc, &[b"400\r\n\xff\xd8\xff", &zeros])?;
    let zeros = repeated(alloc, b"\0", 1024)?;
    let second = joined(alloc, &[b"\r\n400\r\n", &zeros])?;
    joined(alloc, &[JPEG, &first, &second, b"\r\n1\r\n\0\r\n0\r\n\r\n"])
}

/// A recording, and what is written of it.
#[derive(Drop)]
struct Sample {
    recording: Vec<u8>,
    output: Vec<u8>,
}

/// A script, a page that isn't to be sniffed, an image in chunks, and an assignment.
fn made(alloc: Global) -> Result<Sample, Fail> {
    let image = sent_image(alloc)?;
    let first = joined(
        alloc,
        &[REQUEST, SCRIPT, REQUEST, UNSNIFFED, REQUEST, &image],
    )?;
    let recording = joined(alloc, &[&first, REQUEST, ASSIGNMENT])?;
    let image = written_image(alloc)?;
    let output = joined(alloc, &[SCRIPT, REPLY, &image, ASSIGNMENT])?;
    Ok(Sample { recording, output })
}

/// How a run ends over an input of so many bytes of the recording.
fn end_after(read: usize) -> EngineOutcome {
    let mut first = 0;
    for &end in &ENDS {
        if end == read {
            return EngineOutcome::Done;
        }
        if end < read {
            first = end;
        }
    }
    EngineOutcome::Cut {
        place: first as u64,
    }
}

/// How many bytes are written where so many are read.
fn written_after(read: usize) -> usize {
    let mut count = 0;
    for &(place, written) in &OWED {
        if place <= read {
            count = written;
        }
    }
    count
}

/// The pulls and pushes that fail, how many bytes a pull gives, and how many the sink takes.
#[derive(Clone, Copy)]
struct Outside<'t> {
    pulls: &'t [u64],
    pushes: &'t [u64],
    piece: usize,
    room: usize,
}

const CALM: Outside<'static> = Outside {
    pulls: &[],
    pushes: &[],
    piece: 4096,
    room: 4096,
};

/// What the engine answers over the bytes, and the sink after that.
fn run(
    alloc: Global,
    engine: &mut Engine,
    bytes: &[u8],
    outside: Outside<'_>,
) -> Result<(EngineOutcome, MemorySink), Fail> {
    let pulls = outside.pulls.to_vec(alloc)?;
    let pushes = outside.pushes.to_vec(alloc)?;
    let mut source = MemorySource::new(bytes.to_vec(alloc)?, outside.piece.max(1), pulls);
    let mut sink = MemorySink::open(alloc, outside.room, pushes)?;
    let outcome = engine.run(&mut source, &mut sink);
    Ok((outcome, sink))
}

/// Runs over so many first bytes: this answer is owed, and so many first bytes of the output.
fn owes(
    rt: &impl Abort,
    alloc: Global,
    engine: &mut Engine,
    sample: &Sample,
    read: usize,
    outside: Outside<'_>,
    owed: (EngineOutcome, usize),
) -> Result<(), Fail> {
    let bytes = sample.recording.get(..read).unwrap_or(&[]);
    let (outcome, sink) = run(alloc, engine, bytes, outside)?;
    assert_eq!(rt; outcome, owed.0, "{read} bytes");
    assert_eq!(rt;
        Some(sink.bytes()),
        sample.output.get(..owed.1),
        "{read} bytes"
    );
    Ok(())
}

#[test]
fn an_input_ends_after_each_byte(rt: HostRuntime) -> Result<(), Fail> {
    let alloc = rt.alloc();
    let sample = made(alloc)?;
    let mut engine = Engine::open(alloc, settings(Job::Filter, Policy::Orb))?;
    for read in 0..=ALL_READ {
        let owed = (end_after(read), written_after(read));
        owes(&rt, alloc, &mut engine, &sample, read, CALM, owed)?;
    }
    Ok(())
}

/// Lets the pull of that number fail, in pieces of that size.
fn pull_fails(
    rt: &impl Abort,
    alloc: Global,
    engine: &mut Engine,
    sample: &Sample,
    piece: usize,
    call: usize,
) -> Result<(), Fail> {
    let read = call.saturating_mul(piece).min(ALL_READ);
    let outside = Outside {
        pulls: &[call as u64],
        piece,
        ..CALM
    };
    let owed = (EngineOutcome::ReadFault, written_after(read));
    owes(rt, alloc, engine, sample, ALL_READ, outside, owed)
}

#[test]
fn each_pull_fails(rt: HostRuntime) -> Result<(), Fail> {
    let alloc = rt.alloc();
    let sample = made(alloc)?;
    let mut engine = Engine::open(alloc, settings(Job::Filter, Policy::Orb))?;
    // the bytes of a piece, and the number of the last pull, which would tell the end
    for (piece, last) in [(1, ALL_READ), (7, 382)] {
        for call in 0..=last {
            pull_fails(&rt, alloc, &mut engine, &sample, piece, call)?;
        }
    }
    Ok(())
}

/// Lets the push of that number fail, in pieces of that size: whether there is one.
fn push_fails(
    rt: &impl Abort,
    alloc: Global,
    engine: &mut Engine,
    sample: &Sample,
    piece: usize,
    call: u64,
) -> Result<bool, Fail> {
    let outside = Outside {
        pushes: &[call],
        piece,
        ..CALM
    };
    let (outcome, sink) = run(alloc, engine, &sample.recording, outside)?;
    let is_there = outcome == EngineOutcome::WriteFault;
    assert!(rt; is_there || outcome == EngineOutcome::Done, "push {call}");
    assert!(rt; sample.output.starts_with(sink.bytes()), "push {call}");
    assert_eq!(rt; is_there, sink.bytes().len() < ALL_WRITTEN, "push {call}");
    Ok(is_there)
}

/// Lets each push fail in turn, in pieces of that size: how many there are.
fn pushes_fail(
    rt: &impl Abort,
    alloc: Global,
    engine: &mut Engine,
    sample: &Sample,
    piece: usize,
) -> Result<u64, Fail> {
    for call in 0..4096 {
        if !push_fails(rt, alloc, engine, sample, piece, call)? {
            return Ok(call);
        }
    }
    Ok(4096)
}

#[test]
fn each_push_fails(rt: HostRuntime) -> Result<(), Fail> {
    let alloc = rt.alloc();
    let sample = made(alloc)?;
    let mut engine = Engine::open(alloc, settings(Job::Filter, Policy::Orb))?;
    for piece in [1, 7, 4096] {
        let count = pushes_fail(&rt, alloc, &mut engine, &sample, piece)?;
        assert!(rt; 0 < count && count < 4096, "{count} pushes by {piece}");
    }
    Ok(())
}

#[test]
fn the_sink_has_each_room(rt: HostRuntime) -> Result<(), Fail> {
    let alloc = rt.alloc();
    let sample = made(alloc)?;
    let mut engine = Engine::open(alloc, settings(Job::Filter, Policy::Orb))?;
    for room in 0..ALL_WRITTEN {
        let outside = Outside { room, ..CALM };
        let full = (EngineOutcome::WriteFault, room);
        owes(&rt, alloc, &mut engine, &sample, ALL_READ, outside, full)?;
        // the first exchange alone, into a new sink
        let done = (EngineOutcome::Done, 71);
        owes(&rt, alloc, &mut engine, &sample, 114, CALM, done)?;
    }
    Ok(())
}
