//! The program: standard input and standard output under [`orb_cli::run`], and sockets under [`orb_cli::serve`] and
//! [`orb_cli::proxy`] where the first word is `serve` or `proxy`. The line of the outcome goes to standard error, and the
//! program ends with its status.
#![tactic(auto)]

use orb_cli::{Outcome, ServeOutcome, outcome_line, proxy, run, serve, serve_outcome_line};
use orb_io::{StdSink, StdSource, TcpDialing, TcpListening};
use std::env;
use std::io::{self, ErrorKind, Write};
use std::process::ExitCode;

fn main(rt: HostRuntime) -> ExitCode {
    match words(&rt) {
        Ok(words) => match words.first().map(|word| word.as_str()) {
            Some("serve") => serve_words(&rt, words.as_slice()),
            Some("proxy") => proxy_words(&rt, words.as_slice()),
            _ => run_words(&rt, words.as_slice()),
        },
        Err(outcome) => end(&rt, outcome_line(&outcome).as_slice(), outcome.status()),
    }
}

/// The words of the command line without the program's name. Words that aren't text are refused.
fn words(rt: &HostRuntime) -> Result<Vec<String>, Outcome> {
    let args = env::args(rt).map_err(|e| match e.kind() {
        ErrorKind::OutOfMemory => Outcome::NoMemory,
        _ => Outcome::Usage,
    })?;
    args.skip(1)
        .collect(rt.alloc())
        .map_err(|_| Outcome::NoMemory)
}

fn run_words(rt: &HostRuntime, words: &[String]) -> ExitCode {
    let mut input = StdSource::new(rt.reader());
    let mut output = StdSink::new(io::writer(rt));
    let outcome = run(rt.alloc(), words, &mut input, &mut output);
    end(rt, outcome_line(&outcome).as_slice(), outcome.status())
}

fn serve_words(rt: &HostRuntime, words: &[String]) -> ExitCode {
    let mut listener = TcpListening::new(rt);
    let mut log = StdSink::new(io::writer(rt));
    end_serving(rt, serve(rt.alloc(), words, &mut listener, &mut log))
}

fn proxy_words(rt: &HostRuntime, words: &[String]) -> ExitCode {
    let mut listener = TcpListening::new(rt);
    let mut dialer = TcpDialing::new(rt);
    let mut log = StdSink::new(io::writer(rt));
    end_serving(
        rt,
        proxy(rt.alloc(), words, &mut listener, &mut dialer, &mut log),
    )
}

/// Ends where connections were served.
fn end_serving(rt: &HostRuntime, outcome: ServeOutcome) -> ExitCode {
    end(
        rt,
        serve_outcome_line(&outcome).as_slice(),
        outcome.status(),
    )
}

/// Says the line, and gives the status to end with. Where standard error can't be written, the status alone tells.
fn end(rt: &HostRuntime, line: &[u8], status: u8) -> ExitCode {
    let _ = rt.stderr().write_all(line);
    ExitCode::from(status)
}
