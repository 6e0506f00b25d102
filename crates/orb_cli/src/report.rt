//! What the program says of an outcome.
ghost use Rattle.std.specs.Prelude.{◌≡◌, ◌≤◌, length};
ghost use Rattle.orb_cli.specs.Report.{status_of, kind_name, line_of, line_text, line_text_at, serve_status_of, serve_line_of, client_status_of, refusal_status_of, answer_status_of};

use crate::outcome::{ClientOutcome, Outcome, ServeOutcome};
use arrayvec::ArrayVec;
use http_exchange::BadKind;
use live_proxy::{ProxyOutcome, ProxyRefusal};
use orb_bytes::{decimal, extend};

impl Outcome {
    /// The program's status: 0 where all went well.
    pub fn status(&self) -> u8
        ensures { result ≡ status_of self.now }
    {
        match self {
            Outcome::Done => 0,
            Outcome::Usage => 1,
            Outcome::Bad { .. } => 2,
            Outcome::Cut { .. } => 3,
            Outcome::HeadLimit { .. }
            | Outcome::MediaFull { .. }
            | Outcome::Endless
            | Outcome::HarLimit => 4,
            Outcome::ReadFault => 5,
            Outcome::WriteFault => 6,
            Outcome::NoMemory => 7,
            Outcome::NotHar { .. } => 9,
        }
    }
}

/// The line for standard error, with its line feed: empty where all went well.
pub fn outcome_line(outcome: &Outcome) -> ArrayVec<u8, 96>
    ensures { result.items ≡ line_of outcome.now }
{
    match outcome {
        Outcome::Done => ArrayVec::new(),
        Outcome::Usage => line(b"words refused"),
        Outcome::Bad { kind, place } => line_at(name(*kind), *place),
        Outcome::Cut { place } => line_at(b"cut", *place),
        Outcome::HeadLimit { place } => line_at(b"head limit", *place),
        Outcome::MediaFull { place } => line_at(b"media full", *place),
        Outcome::Endless => line(b"endless"),
        Outcome::ReadFault => line(b"read fault"),
        Outcome::WriteFault => line(b"write fault"),
        Outcome::NoMemory => line(b"no memory"),
        Outcome::NotHar { entry } => line_at(b"not har", *entry),
        Outcome::HarLimit => line(b"har limit"),
    }
}

impl ServeOutcome {
    /// The program's status where it served connections: 0 where all went well.
    pub fn status(&self) -> u8
        ensures { result ≡ serve_status_of self.now }
    {
        match self {
            ServeOutcome::Done => 0,
            ServeOutcome::Usage => 1,
            ServeOutcome::BindFault | ServeOutcome::AcceptFault => 5,
            ServeOutcome::WriteFault => 6,
            ServeOutcome::NoMemory => 7,
        }
    }
}

impl ClientOutcome {
    /// The status in the log of a proxy: 0 where the exchange is whole.
    pub fn status(&self) -> u8
        ensures { result ≡ client_status_of self.now }
    {
        match self {
            ClientOutcome::Refused(refusal) => refusal_status(*refusal),
            ClientOutcome::Unreached => 5,
            ClientOutcome::Answered(outcome) => answer_status(*outcome),
        }
    }
}

fn refusal_status(refusal: ProxyRefusal) -> u8
    ensures { result ≡ refusal_status_of refusal }
{
    match refusal {
        ProxyRefusal::Bad { .. } | ProxyRefusal::BadTarget => 2,
        ProxyRefusal::Cut => 3,
        ProxyRefusal::HeadLimit | ProxyRefusal::MediaFull => 4,
        ProxyRefusal::ReadFault => 5,
        ProxyRefusal::NoMemory => 7,
    }
}

fn answer_status(outcome: ProxyOutcome) -> u8
    ensures { result ≡ answer_status_of outcome }
{
    match outcome {
        ProxyOutcome::Done => 0,
        ProxyOutcome::Bad { .. } => 2,
        ProxyOutcome::Cut => 3,
        ProxyOutcome::HeadLimit | ProxyOutcome::Endless => 4,
        ProxyOutcome::PeerFault => 5,
        ProxyOutcome::WriteFault => 6,
    }
}

/// The line for standard error where the program served connections, with its line feed: empty where all went well.
pub fn serve_outcome_line(outcome: &ServeOutcome) -> ArrayVec<u8, 96>
    ensures { result.items ≡ serve_line_of outcome.now }
{
    match outcome {
        ServeOutcome::Done => ArrayVec::new(),
        ServeOutcome::Usage => line(b"words refused"),
        ServeOutcome::BindFault => line(b"bind fault"),
        ServeOutcome::AcceptFault => line(b"accept fault"),
        ServeOutcome::WriteFault => line(b"write fault"),
        ServeOutcome::NoMemory => line(b"no memory"),
    }
}

/// The word for what is bad.
fn name(kind: BadKind) -> &'static [u8]
    ensures value { result.now ≡ kind_name kind }
    ensures short { length result.now ≤ 16 }
{
    match kind {
        BadKind::BadHead => b"bad-head",
        BadKind::RequestBody => b"request-body",
        BadKind::BadMediaId => b"bad-media-id",
        BadKind::Interim => b"interim",
        BadKind::BadFraming => b"bad-framing",
        BadKind::BadChunk => b"bad-chunk",
    }
}

/// A line of the program's name and a text.
fn line(text: &[u8]) -> ArrayVec<u8, 96>
    requires { length text.now ≤ 60 }
    ensures { result.items ≡ line_text text.now }
{
    let mut line = ArrayVec::new();
    extend(&mut line, b"orb: ");
    extend(&mut line, text);
    extend(&mut line, b"\n");
    line
}

/// The same with a place after the text.
fn line_at(text: &[u8], place: u64) -> ArrayVec<u8, 96>
    requires { length text.now ≤ 16 }
    ensures { result.items ≡ line_text_at text.now place }
{
    let mut line = ArrayVec::new();
    extend(&mut line, b"orb: ");
    extend(&mut line, text);
    extend(&mut line, b" at ");
    extend(&mut line, decimal(place).as_slice());
    extend(&mut line, b"\n");
    line
}
