//! Recordings through an [`Engine`], with what is owed of them, in pieces and at each pull of a link.
ghost use Rattle.std.specs.Prelude.{◌≡◌, ◌≤◌, ◌+◌, ◌-◌, ◌^◌, Some, None, length};
ghost use Rattle.std.proofs.Common.{refl, ap, ◌∙◌};
ghost use Rattle.std.proofs.Math.Nat.{min-le_right as min_le_right};
ghost use Rattle.orb_io.specs.Told.{told_bytes};
ghost use Rattle.orb_engine.specs.Runs.{taken_by, CanFeed};

mod faults;
mod limits;

use crate::{Engine, EngineOutcome, Job, Settings};
use orb_bytes::decimal;
use orb_io::{Duplex, Failed, MemoryLink, MemorySink, MemorySource, Sink, Source};
use response_rules::Policy;
use std::alloc::Global;
use std::process::Abort;
use std::test::Fail;

const REQUEST: &[u8] = b"GET / HTTP/1.1\r\nSec-Fetch-Mode: no-cors\r\n\r\n";

const AUDIO: &[u8] =
    b"GET / HTTP/1.1\r\nSec-Fetch-Mode: no-cors\r\nSec-Fetch-Dest: audio\r\nOrb-Media: 7\r\n\r\n";

const PNG: &[u8] =
    b"HTTP/1.1 200 OK\r\nContent-Type: image/png\r\nContent-Length: 8\r\n\r\n\x89PNG\r\n\x1a\n";

/// A response without the last byte of its body.
const HTML: &[u8] =
    b"HTTP/1.1 200 OK\r\nContent-Type: text/html\r\nX-Content-Type-Options: nosniff\r\nContent-Length: 4\r\n\r\n<p>";

const OGG: &[u8] =
    b"HTTP/1.1 206 Partial Content\r\nContent-Range: bytes 0-4/9\r\nContent-Length: 5\r\n\r\nOggS\0";

const LATER: &[u8] =
    b"HTTP/1.1 206 Partial Content\r\nContent-Range: bytes 5-8/9\r\nContent-Length: 4\r\n\r\nabcd";

const REPLY: &[u8] =
    b"HTTP/1.1 403 Forbidden\r\nContent-Length: 0\r\nOrb-Rule: nosniff-blocklisted\r\n\r\n";

const GIF: &[u8] = b"HTTP/1.1 200 OK\r\nContent-Length: 2097158\r\n\r\n";

const JPEG: &[u8] =
    b"HTTP/1.1 200 OK\r\nContent-Type: image/jpeg\r\nTransfer-Encoding: chunked\r\n\r\n";

fn settings(job: Job, policy: Policy) -> Settings
    ensures { result.limit ≡ 1024 }
{
    Settings {
        job,
        policy,
        limit: 1024,
    }
}

fn joined(alloc: Global, parts: &[&[u8]]) -> Result<Vec<u8>, Fail> {
    let mut all = Vec::new(alloc);
    for part in parts {
        all.extend_from_slice(part)?;
    }
    Ok(all)
}

/// Feeds the recording in pieces of that size.
fn feed_in_pieces(
    engine: &mut Engine,
    recording: &[u8],
    size: usize,
    sink: &mut MemorySink,
) -> Option<EngineOutcome>
    requires can { CanFeed engine.old }
    requires few { taken_by engine.old + length recording.now ≤ 2 ^ 62 }
    requires some { 1 ≤ size }
    ensures { result ≡ None → CanFeed engine.new }
{
    let mut rest = recording;
    'pieces: while !rest.is_empty() {
        let (piece, after) = rest.split_at(size.min(rest.len()));
        if let Some(outcome) = engine.feed(piece, sink) {
            return Some(outcome);
        }
        rest = after;
    }
    None
}

/// A whole recording, in pieces of that size.
fn pass(engine: &mut Engine, recording: &[u8], size: usize, sink: &mut MemorySink) -> EngineOutcome
    requires few { length recording.now ≤ 2 ^ 62 }
    requires some { 1 ≤ size }
{
    engine.start();
    match feed_in_pieces(engine, recording, size, sink) {
        Some(outcome) => outcome,
        None => engine.end(sink),
    }
}

/// The parts of a recording, what is done, the end, how many were allowed and blocked, and what is written.
type Passed = (
    &'static [&'static [u8]],
    Job,
    EngineOutcome,
    (u64, u64),
    &'static [&'static [u8]],
);

static PASSED: [Passed; 4] = [
    (
        &[REQUEST, PNG, REQUEST, HTML, b"x"],
        Job::Filter,
        EngineOutcome::Done,
        (1, 1),
        &[PNG, REPLY],
    ),
    (
        &[REQUEST, PNG, REQUEST, HTML, b"x"],
        Job::Explain,
        EngineOutcome::Done,
        (1, 1),
        &[b"1 allow image na 8\n2 block nosniff-blocklisted na 4\n"],
    ),
    (
        &[REQUEST, PNG, REQUEST, HTML],
        Job::Filter,
        EngineOutcome::Cut { place: 114 },
        (1, 0),
        &[PNG],
    ),
    (
        &[AUDIO, OGG, AUDIO, LATER],
        Job::Explain,
        EngineOutcome::Done,
        (2, 0),
        &[b"1 allow media subsequent:9 5\n2 allow subsequent subsequent:9 4\n"],
    ),
];

/// The same, of a recording of at most 1,024 bytes, and the sink after it.
fn pass_all(
    alloc: Global,
    engine: &mut Engine,
    recording: &[u8],
    size: usize,
) -> Result<(EngineOutcome, MemorySink), Fail> {
    let mut sink = MemorySink::open(alloc, 1024, Vec::new(alloc))?;
    let first = recording.get(..1024).unwrap_or(recording);
    let outcome = pass(engine, first, size.max(1), &mut sink);
    Ok((outcome, sink))
}

/// A run over the recording, and the sink after it.
fn run_all(
    alloc: Global,
    engine: &mut Engine,
    recording: Vec<u8>,
) -> Result<(EngineOutcome, MemorySink), Fail> {
    let mut source = MemorySource::new(recording, 50, Vec::new(alloc));
    let mut sink = MemorySink::open(alloc, 1024, Vec::new(alloc))?;
    let outcome = engine.run(&mut source, &mut sink);
    Ok((outcome, sink))
}

/// Passes the row in pieces of that size.
fn passes(
    rt: &impl Abort,
    alloc: Global,
    engine: &mut Engine,
    row: &Passed,
    size: usize,
) -> Result<(), Fail> {
    let (parts, job, owed, counts, writes) = *row;
    let recording = joined(alloc, parts)?;
    let want = joined(alloc, writes)?;
    let (outcome, sink) = pass_all(alloc, engine, &recording, size)?;
    assert_eq!(rt; outcome, owed, "{job:?}");
    assert_eq!(rt; (engine.allowed(), engine.blocked()), counts, "{job:?}");
    assert_eq!(rt; sink.bytes(), want.as_slice(), "{job:?}");
    Ok(())
}

/// Runs the row.
fn runs(rt: &impl Abort, alloc: Global, engine: &mut Engine, row: &Passed) -> Result<(), Fail> {
    let (parts, job, owed, _, writes) = *row;
    let recording = joined(alloc, parts)?;
    let want = joined(alloc, writes)?;
    let (outcome, sink) = run_all(alloc, engine, recording)?;
    assert_eq!(rt; outcome, owed, "{job:?}");
    assert_eq!(rt; sink.bytes(), want.as_slice(), "{job:?}");
    Ok(())
}

#[test]
fn exchanges_are_filtered_and_explained_in_every_cutting(rt: HostRuntime) -> Result<(), Fail> {
    let alloc = rt.alloc();
    for row in &PASSED {
        let mut engine = Engine::open(alloc, settings(row.1, Policy::Orb))?;
        for size in [1, 7, 1024] {
            passes(&rt, alloc, &mut engine, row, size)?;
        }
        runs(&rt, alloc, &mut engine, row)?;
    }
    Ok(())
}

const UNKNOWN: &[u8] = b"Content-Type: application/octet-stream\r\n";

const PAGE: &[u8] = b"Content-Type: text/html\r\n";

const TEXT: &[u8] = b"Content-Type: text/plain\r\n";

/// A response that is judged: the rules, the fields but for the length, the body as a text that stands so many times and another
/// after it, and the line.
type Judged = (
    Policy,
    &'static [u8],
    &'static [u8],
    usize,
    &'static [u8],
    &'static [u8],
);

static JUDGED: [Judged; 8] = [
    (
        Policy::Orb,
        UNKNOWN,
        b"",
        0,
        b"{\"a\":1}",
        b"1 block not-script na 7\n",
    ),
    (
        Policy::Orb,
        UNKNOWN,
        b"",
        0,
        b"{ 1\n2 } 3",
        b"1 allow script na 9\n",
    ),
    (
        Policy::Orb,
        UNKNOWN,
        b"x;",
        512,
        b"",
        b"1 allow script na 1024\n",
    ),
    (
        Policy::Orb,
        UNKNOWN,
        b"x;",
        512,
        b" ",
        b"1 block body-limit na 1025\n",
    ),
    (
        Policy::Corb,
        PAGE,
        b"",
        0,
        b"<!-- x --> <HTML>",
        b"1 block corb-html na 17\n",
    ),
    (
        Policy::Corb,
        TEXT,
        b"",
        0,
        b"{\"a\" : 1}",
        b"1 block corb-json na 9\n",
    ),
    (
        Policy::Corb,
        b"",
        b"",
        0,
        b")]}'",
        b"1 block corb-breaker na 4\n",
    ),
    (
        Policy::Corb,
        PAGE,
        b"",
        0,
        b"hello",
        b"1 allow corb-unconfirmed na 5\n",
    ),
];

/// The text so many times.
fn repeated(alloc: Global, text: &[u8], times: usize) -> Result<Vec<u8>, Fail> {
    let mut all = Vec::new(alloc);
    for _ in 0..times {
        all.extend_from_slice(text)?;
    }
    Ok(all)
}

/// What is explained of a response with such fields and such a body, in pieces of that size.
fn explain(
    alloc: Global,
    policy: Policy,
    fields: &[u8],
    body: &[u8],
    piece: usize,
) -> Result<(EngineOutcome, MemorySink), Fail>
    requires { 1 ≤ piece }
{
    let size = decimal(body.len() as u64);
    let recording = joined(
        alloc,
        &[
            REQUEST,
            b"HTTP/1.1 200 OK\r\n",
            fields,
            b"Content-Length: ",
            size.as_slice(),
            b"\r\n\r\n",
            body,
        ],
    )?;
    let mut engine = Engine::open(alloc, settings(Job::Explain, policy))?;
    let mut source = MemorySource::new(recording, piece, Vec::new(alloc));
    let mut sink = MemorySink::open(alloc, 64, Vec::new(alloc))?;
    let outcome = engine.run(&mut source, &mut sink);
    Ok((outcome, sink))
}

/// Judges the response in pieces of that size.
fn judge(rt: &impl Abort, alloc: Global, row: &Judged, piece: usize) -> Result<(), Fail> {
    let (policy, fields, text, times, rest, line) = *row;
    let first = repeated(alloc, text, times)?;
    let body = joined(alloc, &[&first, rest])?;
    let (outcome, sink) = explain(alloc, policy, fields, &body, piece.max(1))?;
    assert_eq!(rt; outcome, EngineOutcome::Done);
    assert_eq!(rt; sink.bytes(), line, "in pieces of {piece}");
    Ok(())
}

#[test]
fn responses_are_judged_by_the_policy_up_to_the_limit(rt: HostRuntime) -> Result<(), Fail> {
    for row in &JUDGED {
        judge(&rt, rt.alloc(), row, 1)?;
        judge(&rt, rt.alloc(), row, 4096)?;
    }
    Ok(())
}

/// How many bytes are owed where so many have been read, until the next row: `put`, and where the body flows
/// each byte read since.
#[derive(Clone, Copy)]
struct Owed {
    read: usize,
    put: usize,
    flows: bool,
}

fn owed_after(rows: &[Owed], read: usize) -> usize {
    let mut put = 0;
    for row in rows {
        if row.read <= read {
            let since = if row.flows { read - row.read } else { 0 };
            put = row.put.saturating_add(since);
        }
    }
    put
}

/// A link that sees at each pull whether as much was put as is owed of what was read.
#[derive(Drop)]
struct WatchedLink {
    link: MemoryLink,
    owed: &'static [Owed],
    read: usize,
    exact: bool,
}

impl Source for WatchedLink {
    ghost left = { λ s. Some s.link.source.rest };

    ghost faults = { λ s. s.link.source.faults };

    ghost kept = { λ s t. t.link.sink ≡ s.link.sink };

    ghost kept_reflexive = { λ _. refl };

    ghost kept_transitive = { λ _ _ _ p q. q ∙ p };

    fn pull(&mut self, buf: &mut [u8]) -> Result<usize, Failed> {
        let put = self.link.sink().bytes().len();
        self.exact = self.exact && buf.len() == 8192 && put == owed_after(self.owed, self.read);
        let pulled = self.link.pull(buf);
        if let Ok(count) = pulled {
            self.read = self.read.saturating_add(count);
        }
        pulled
    }
}

impl Sink for WatchedLink {
    ghost told = { λ s. told_bytes s.link.sink.bytes };

    ghost faults = { λ s. s.link.sink.faults };

    ghost kept = { λ s t. t.link.source ≡ s.link.source };

    ghost told_agrees = { λ s. record {
      number = refl;
      fits = min_le_right (length s.link.sink.bytes) (2 ^ 64 - 1);
    } };

    ghost kept_reflexive = { λ _. refl };

    ghost kept_transitive = { λ _ _ _ p q. q ∙ p };

    fn push(&mut self, piece: &[u8]) -> Result<(), Failed> {
        self.link.push(piece)
    }
}

impl Duplex for WatchedLink {
    ghost pull_leaves_told = { λ _ _ same. ap (λ k. told_bytes k.bytes) same };

    ghost pull_leaves_faults = { λ _ _ same. ap (λ k. k.faults) same };

    ghost push_leaves_left = { λ _ _ same. ap (λ k. Some k.rest) same };

    ghost push_leaves_faults = { λ _ _ same. ap (λ k. k.faults) same };
}

/// What an engine answers over a link whose pulls give at most so many bytes, and the link after that.
fn run_watched(
    alloc: Global,
    job: Job,
    recording: Vec<u8>,
    piece: usize,
    owed: &'static [Owed],
) -> Result<(EngineOutcome, WatchedLink), Fail>
    requires { 1 ≤ piece }
{
    let sink = MemorySink::open(alloc, recording.len(), Vec::new(alloc))?;
    let mut link = WatchedLink {
        link: MemoryLink::new(MemorySource::new(recording, piece, Vec::new(alloc)), sink),
        owed,
        read: 0,
        exact: true,
    };
    let mut engine = Engine::open(alloc, settings(job, Policy::Orb))?;
    let outcome = engine.run_link(&mut link);
    Ok((outcome, link))
}

/// A recording of one response whose body is sent in chunks of one byte.
fn in_chunks_of_one(alloc: Global, body: &[u8]) -> Result<Vec<u8>, Fail> {
    let mut recording = joined(alloc, &[REQUEST, JPEG])?;
    for byte in body {
        recording.extend_from_slice(&[b'1', b'\r', b'\n', *byte, b'\r', b'\n'])?;
    }
    recording.extend_from_slice(b"0\r\n\r\n")?;
    Ok(recording)
}

const LONG_IMAGE_LINE: &[u8] = b"1 allow image na 2097158\n";

/// What is owed of a long image at each pull: from the window on its bytes where it is filtered, and its line
/// after its last byte where it is explained.
static LONG_IMAGE: [(Job, &[Owed]); 2] = [
    (
        Job::Filter,
        &[Owed {
            read: 1111,
            put: 1068,
            flows: true,
        }],
    ),
    (
        Job::Explain,
        &[Owed {
            read: 2_097_245,
            put: 25,
            flows: false,
        }],
    ),
];

/// Runs the job with pulls of at most so many bytes, at each of which what is owed was put.
fn watch(
    rt: &impl Abort,
    alloc: Global,
    job: Job,
    recording: Vec<u8>,
    piece: usize,
    owed: &'static [Owed],
    want: &[u8],
) -> Result<(), Fail> {
    let (outcome, link) = run_watched(alloc, job, recording, piece.max(1), owed)?;
    assert_eq!(rt; outcome, EngineOutcome::Done);
    assert!(rt; link.exact, "{job:?} in pieces of {piece}");
    assert!(rt;
        link.link.sink().bytes() == want,
        "{job:?} in pieces of {piece}"
    );
    Ok(())
}

/// Runs the job over a long image, with pulls of at most so many bytes.
fn watch_long_image(
    rt: &impl Abort,
    alloc: Global,
    job: Job,
    piece: usize,
    owed: &'static [Owed],
) -> Result<(), Fail> {
    let zeros = vec![in alloc; 0u8; 2_097_152]?;
    let response = joined(alloc, &[GIF, b"GIF89a", &zeros])?;
    let recording = joined(alloc, &[REQUEST, &response])?;
    match job {
        Job::Filter => watch(rt, alloc, job, recording, piece, owed, &response),
        Job::Explain => watch(rt, alloc, job, recording, piece, owed, LONG_IMAGE_LINE),
    }
}

#[test]
fn a_long_image_goes_out_from_its_window_on(rt: HostRuntime) -> Result<(), Fail> {
    for piece in [1, 7, 100, 4_194_304] {
        for (job, owed) in &LONG_IMAGE {
            watch_long_image(&rt, rt.alloc(), *job, piece, *owed)?;
        }
    }
    Ok(())
}

#[test]
fn chunks_of_one_byte_go_out_in_chunks_of_1024(rt: HostRuntime) -> Result<(), Fail> {
    const OWED: &[Owed] = &[
        Owed {
            read: 6258,
            put: 1104,
            flows: false,
        },
        Owed {
            read: 12402,
            put: 2135,
            flows: false,
        },
        Owed {
            read: 12415,
            put: 2146,
            flows: false,
        },
    ];
    let alloc = rt.alloc();
    let zeros = vec![in alloc; 0u8; 1024]?;
    let fewer = vec![in alloc; 0u8; 1021]?;
    let first = joined(alloc, &[b"\xff\xd8\xff", &fewer])?;
    let body = joined(alloc, &[&first, &zeros, b"\0"])?;
    let want = joined(
        alloc,
        &[
            JPEG,
            b"400\r\n",
            &first,
            b"\r\n400\r\n",
            &zeros,
            b"\r\n1\r\n\0\r\n0\r\n\r\n",
        ],
    )?;
    for piece in [1, 7, 100, 4_194_304] {
        let recording = in_chunks_of_one(alloc, &body)?;
        watch(&rt, alloc, Job::Filter, recording, piece, OWED, &want)?;
    }
    Ok(())
}

/// A response that is filtered: its head, its body as a text and another after it so many times, what is written where
/// that isn't the response itself, and what is owed at each pull.
type Watched = (
    &'static [u8],
    &'static [u8],
    &'static [u8],
    usize,
    Option<&'static [u8]>,
    &'static [Owed],
);

/// An image goes out from its window on. Of a coded body nothing goes out, and the reply after its last byte. A body that is
/// read as text waits for its end, and longer than the limit for its reply.
static WATCHED: [Watched; 4] = [
    (
        b"HTTP/1.1 200 OK\r\nContent-Length: 20006\r\n\r\n",
        b"GIF89a",
        b"\0",
        20_000,
        None,
        &[Owed {
            read: 1109,
            put: 1066,
            flows: true,
        }],
    ),
    (
        b"HTTP/1.1 200 OK\r\nContent-Encoding: gzip\r\nContent-Length: 20006\r\n\r\n",
        b"GIF89a",
        b"\0",
        20_000,
        Some(b"HTTP/1.1 403 Forbidden\r\nContent-Length: 0\r\nOrb-Rule: coded\r\n\r\n"),
        &[Owed {
            read: 20_115,
            put: 62,
            flows: false,
        }],
    ),
    (
        b"HTTP/1.1 200 OK\r\nContent-Type: application/octet-stream\r\nContent-Length: 1024\r\n\r\n",
        b"",
        b"x;",
        512,
        None,
        &[Owed {
            read: 1148,
            put: 1105,
            flows: false,
        }],
    ),
    (
        b"HTTP/1.1 200 OK\r\nContent-Type: application/octet-stream\r\nContent-Length: 1026\r\n\r\n",
        b"",
        b"x;",
        513,
        Some(b"HTTP/1.1 403 Forbidden\r\nContent-Length: 0\r\nOrb-Rule: body-limit\r\n\r\n"),
        &[Owed {
            read: 1150,
            put: 67,
            flows: false,
        }],
    ),
];

/// Filters the response, with pulls of at most 100 bytes.
fn filter_watched(rt: &impl Abort, alloc: Global, row: &Watched) -> Result<(), Fail> {
    let (head, first, text, times, reply, owed) = *row;
    let rest = repeated(alloc, text, times)?;
    let response = joined(alloc, &[head, first, &rest])?;
    let recording = joined(alloc, &[REQUEST, &response])?;
    match reply {
        Some(reply) => watch(rt, alloc, Job::Filter, recording, 100, owed, reply),
        None => watch(rt, alloc, Job::Filter, recording, 100, owed, &response),
    }
}

#[test]
fn what_is_owed_was_put_at_each_pull(rt: HostRuntime) -> Result<(), Fail> {
    for row in &WATCHED {
        filter_watched(&rt, rt.alloc(), row)?;
    }
    Ok(())
}
