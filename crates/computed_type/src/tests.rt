//! Responses and their computed types, and how runs end.
ghost use Rattle.std.specs.Prelude.{◌≤◌};

use crate::{TypeOutcome, TypeRun};
use http_exchange::BadKind;
use orb_io::{MemorySink, MemorySource};
use std::alloc::Global;
use std::test::Fail;

const PNG: &[u8] = b"\x89PNG\r\n\x1a\n";

/// Fields, the body, and the computed type.
type Typed = (&'static [u8], &'static [u8], &'static [u8]);

const STATED: &[Typed] = &[
    // a type that states nothing
    (
        b"Content-Type: Unknown/unknown\r\n",
        b"%PDF-1",
        b"application/pdf\n",
    ),
    (
        b"Content-Type: application/unknown\r\n",
        b"GIF89a",
        b"image/gif\n",
    ),
    (b"Content-Type: text\r\n", b"<p>", b"text/html\n"),
    // nosniff, and rules of the body that need it not
    (
        b"X-Content-Type-Options: nosniff\r\n",
        b" <P >x",
        b"text/plain\n",
    ),
    (
        b"X-Content-Type-Options: nosniff\r\n",
        b"%PDF-1",
        b"text/plain\n",
    ),
    (
        b"X-Content-Type-Options: nosniff\r\n",
        b"<?xml",
        b"text/plain\n",
    ),
    (b"X-Content-Type-Options: nosniff\r\n", PNG, b"image/png\n"),
    (
        b"Content-Type: text/plain\r\nX-Content-Type-Options: nosniff\r\n",
        b"\0",
        b"text/plain\n",
    ),
    (
        b"Content-Type: image/gif\r\nX-Content-Type-Options: nosniff\r\n",
        PNG,
        b"image/gif\n",
    ),
    // what servers write without knowing the type
    (
        b"Content-Type: text/plain\r\n",
        b"\0",
        b"application/octet-stream\n",
    ),
    (b"Content-Type: text/plain\r\n", b"<p>", b"text/plain\n"),
    (
        b"Content-Type: text/plain\r\n",
        b"\xfe\xff\0",
        b"text/plain\n",
    ),
    (
        b"Content-Type: text/plain; charset=ISO-8859-1\r\n",
        b"\0",
        b"application/octet-stream\n",
    ),
    (
        b"Content-Type: text/plain; charset=iso-8859-1\r\n",
        b"\x1f",
        b"application/octet-stream\n",
    ),
    (
        b"Content-Type: text/plain; charset=UTF-8\r\n",
        b"\x0b",
        b"application/octet-stream\n",
    ),
    (
        b"Content-Type: text/plain; charset=utf-8\r\n",
        b"\0",
        b"text/plain\n",
    ),
    (
        b"Content-Type: text/plain\r\nContent-Type: text/plain\r\n",
        b"\0",
        b"text/plain\n",
    ),
    // XML and HTML
    (b"Content-Type: Image/SVG+xml\r\n", PNG, b"image/svg+xml\n"),
    (b"Content-Type: text/html; a=b\r\n", PNG, b"text/html\n"),
    // images, audio and video
    (b"Content-Type: image/gif\r\n", PNG, b"image/png\n"),
    (b"Content-Type: image/gif\r\n", b"ID3", b"image/gif\n"),
    (b"Content-Type: VIDEO/x\r\n", b"ID3", b"audio/mpeg\n"),
    (b"Content-Type: audio/x\r\n", PNG, b"audio/x\n"),
    (
        b"Content-Type: application/ogg\r\n",
        b"MThd\0\0\0\x06",
        b"audio/midi\n",
    ),
    // any other
    (
        b"Content-Type: application/JSON\r\n",
        PNG,
        b"application/json\n",
    ),
];

/// The same of responses that state no type.
const UNSTATED: &[Typed] = &[
    (b"", b" <P >x", b"text/html\n"),
    (b"", b"\t<!-- x", b"text/html\n"),
    (b"", b"<!--x", b"text/plain\n"),
    (b"", b"<!DOCTYPE html>", b"text/html\n"),
    (b"", b"\n<?xml", b"text/xml\n"),
    (b"", b"%PDF-1", b"application/pdf\n"),
    (b"", b" %PDF-1", b"text/plain\n"),
    (b"", b"%!PS-Adobe-3", b"application/postscript\n"),
    (b"", b"\xfe\xff\0", b"text/plain\n"),
    (b"", b"\xff\xfe\0", b"text/plain\n"),
    (b"", b"\xef\xbb\xbf\0", b"text/plain\n"),
    (b"", b"\0\0\x01\0", b"image/x-icon\n"),
    (b"", b"RIFF\0\0\0\0WAVE", b"audio/wave\n"),
    (b"", b"\x1f\x8b\x08", b"application/x-gzip\n"),
    (b"", b"PK\x03\x04", b"application/zip\n"),
    (b"", b"PK\t\n\x0c\r\x1b", b"text/plain\n"),
    (b"", b"PK\x03", b"application/octet-stream\n"),
    (b"", b"", b"text/plain\n"),
];

fn joined(alloc: Global, parts: &[&[u8]]) -> Result<Vec<u8>, Fail> {
    let mut all = Vec::new(alloc);
    for part in parts {
        all.extend_from_slice(part)?;
    }
    Ok(all)
}

/// Runs over the input in pieces of that size; the pulls of these numbers fail, and the sink has so much room.
fn run_over(
    alloc: Global,
    input: &[u8],
    piece: usize,
    fails: Vec<u64>,
    room: usize,
) -> Result<(TypeOutcome, MemorySink), Fail>
    requires { 1 ≤ piece }
{
    let mut run = TypeRun::open(alloc)?;
    let mut source = MemorySource::new(joined(alloc, &[input])?, piece, fails);
    let mut sink = MemorySink::open(alloc, room, Vec::new(alloc))?;
    let outcome = run.run(&mut source, &mut sink);
    Ok((outcome, sink))
}

#[test]
fn types_are_computed_in_every_cutting(rt: HostRuntime) -> Result<(), Fail> {
    let alloc = rt.alloc();
    for rows in [STATED, UNSTATED] {
        for (fields, body, essence) in rows {
            let input = joined(alloc, &[b"HTTP/1.1 200 OK\r\n", fields, b"\r\n", body])?;
            for piece in [1, 8192] {
                let (outcome, sink) = run_over(alloc, &input, piece, Vec::new(alloc), 64)?;
                assert_eq!(rt; outcome, TypeOutcome::Done, "{body:?}");
                assert_eq!(rt; sink.bytes(), *essence, "{body:?}");
            }
        }
    }
    Ok(())
}

const HEAD: &[u8] = b"HTTP/1.1 200 OK\r\n\r\n";

/// An input, as a text that stands so many times and another after it, the number of the pull that fails, how much room
/// the sink has, and what is answered and written.
type Ended = (
    &'static [u8],
    usize,
    &'static [u8],
    u64,
    usize,
    TypeOutcome,
    &'static [u8],
);

const ENDED: &[Ended] = &[
    (b"", 0, b"", 9, 64, TypeOutcome::Cut, b""),
    (b"", 0, b"HTTP/1.1 200 OK\r\n", 9, 64, TypeOutcome::Cut, b""),
    (b"a", 65_535, b"", 9, 64, TypeOutcome::Cut, b""),
    (b"a", 65_536, b"", 9, 64, TypeOutcome::HeadLimit, b""),
    (
        b"a",
        1,
        b"\r\n\r\n",
        9,
        64,
        TypeOutcome::Bad {
            kind: BadKind::BadHead,
        },
        b"",
    ),
    (
        b"",
        0,
        b"HTTP/1.1 101 A\r\n\r\n",
        9,
        64,
        TypeOutcome::Bad {
            kind: BadKind::Interim,
        },
        b"",
    ),
    (HEAD, 1, b"x", 0, 64, TypeOutcome::ReadFault, b""),
    (HEAD, 1, b"x", 1, 64, TypeOutcome::ReadFault, b""),
    (HEAD, 1, b"x", 9, 5, TypeOutcome::WriteFault, b"text/"),
    (HEAD, 1, b"x", 9, 10, TypeOutcome::WriteFault, b"text/plain"),
];

#[test]
fn runs_end_as_the_input_does(rt: HostRuntime) -> Result<(), Fail> {
    let alloc = rt.alloc();
    for (text, times, after, fails, room, owed, writes) in ENDED {
        let mut input = Vec::new(alloc);
        for _ in 0..*times {
            input.extend_from_slice(text)?;
        }
        input.extend_from_slice(after)?;
        let mut numbers = Vec::new(alloc);
        numbers.push(*fails)?;
        let (outcome, sink) = run_over(alloc, &input, 8192, numbers, *room)?;
        assert_eq!(rt; outcome, *owed, "{after:?}");
        assert_eq!(rt; sink.bytes(), *writes, "{after:?}");
    }
    Ok(())
}

#[test]
fn only_the_window_is_looked_at(rt: HostRuntime) -> Result<(), Fail> {
    let alloc = rt.alloc();
    for (letters, essence) in [
        (1023, b"application/octet-stream\n".as_slice()),
        (1024, b"text/plain\n"),
    ] {
        let mut input = joined(alloc, &[HEAD])?;
        for _ in 0..letters {
            input.extend_from_slice(b"a")?;
        }
        input.extend_from_slice(b"\0")?;
        let (outcome, sink) = run_over(alloc, &input, 100, Vec::new(alloc), 64)?;
        assert_eq!(rt; outcome, TypeOutcome::Done);
        assert_eq!(rt; sink.bytes(), essence, "{letters}");
    }
    Ok(())
}
