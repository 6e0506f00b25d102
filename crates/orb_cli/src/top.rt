//! The top call.
ghost use Rattle.std.specs.Prelude.{[], map, string_bytes};
ghost use Rattle.orb_io.specs.Told.{Gives};
ghost use Rattle.orb_cli.specs.Answer.{Answers, Ran, HasCauses};

use crate::commands::settings;
use crate::har_word::har;
use crate::judging::judge;
use crate::mime_word::mime;
use crate::outcome::Outcome;
use crate::trial_word::trial;
use crate::type_word::tell_type;
use command_line::{Command, Refused, read_words};
use orb_io::{Sink, Source};
use std::alloc::Global;

/// Runs a command line over a source and a sink.
///
/// The words `filter` and `explain`, with the options `--policy` and `--limit`, and `mime` with a text that doesn't begin with
/// `-`, are taken ([`command_line`] says exactly which). `filter` and `explain` read a recording of HTTP exchanges from
/// the source. `filter` writes each response that is allowed to the sink, and a reply in the place of each other; `explain`
/// writes a line for each exchange. `har` reads a HAR log and writes these lines of the recording that it stands for. `type` reads
/// a response, and writes the type that a browser takes it for. `mime` reads nothing and writes the MIME type of the text in a
/// line; `trial` reads nothing, and writes what the filter makes of a recording of its own. The answer is where the input ends, or why it was not read or written whole ([`Outcome`]). A fault is answered only where the source or the
/// sink had one. Want of memory is answered only with nothing written, and with nothing read but for a HAR log.
pub fn run<I: Source, O: Sink>(
    alloc: Global,
    words: &[String],
    input: &mut I,
    output: &mut O,
) -> Outcome
    ensures ran { Gives (O.told output.old) (O.told output.new) []
        (Ran (Answers (map string_bytes words.now)) (I.left input.old) (I.left input.new) result) }
    ensures causes { HasCauses (I.faults input.old) (I.faults input.new)
        (O.faults output.old) (O.faults output.new) result }
{
    let command = match read_words(alloc, words) {
        Ok(command) => command,
        Err(Refused::Usage) => return Outcome::Usage,
        Err(Refused::NoMemory) => return Outcome::NoMemory,
    };
    match command {
        Command::Judge { job, policy, limit } => {
            judge(alloc, settings(job, policy, limit), input, output)
        }
        Command::Mime(text) => mime(alloc, text, output),
        Command::Trial { seed, count } => trial(alloc, seed, count, output),
        Command::Har => har(alloc, input, output),
        Command::Type => tell_type(alloc, input, output),
        Command::Serve { .. } | Command::Proxy { .. } => Outcome::Usage,
    }
}
