//! The word `har`: a HAR log, whose recording is judged.
ghost use Rattle.std.specs.Prelude.{◌≡◌, ◌≤◌, ◌^◌, ℕ, List, [], true, length};
ghost use Rattle.orb_io.specs.Told.{Loses, Gives};
ghost use Rattle.orb_io.specs.Calls.{Acts};
ghost use Rattle.orb_engine.specs.Reads.{HaltCause};
ghost use Rattle.orb_engine.specs.Runs.{settings_of};
ghost use Rattle.orb_cli.specs.Outcomes.{outcome_of};
ghost use Rattle.orb_cli.specs.Answer.{Ran, HasCauses};
ghost use Rattle.orb_cli.specs.Har.{log_settings, IsHarAnswer, IsWholeAnswer, ReadsLog, LogCauses, AddsPiece};

use crate::commands::settings;
use crate::outcome::Outcome;
use command_line::{DEFAULT_LIMIT, Job, Policy};
use har_recording::{HarError, to_recording};
use orb_engine::{Engine, EngineOutcome};
use orb_io::{Failed, MOST_OF_A_RUN, NoMemory, Sink, Source};
use std::alloc::Global;

/// The most bytes of a HAR log: 64 MiB.
pub const MOST_OF_A_LOG: usize = 67_108_864;

/// The most bytes that one pull gives.
const PULL: usize = 8192;

/// Reads a HAR log to its end, and writes the lines of the word `explain` of the recording that it stands for.
pub(crate) fn har<I: Source, O: Sink>(alloc: Global, input: &mut I, output: &mut O) -> Outcome
    ensures ran { Gives (O.told output.old) (O.told output.new) []
        (Ran IsHarAnswer (I.left input.old) (I.left input.new) result) }
    ensures causes { HasCauses (I.faults input.old) (I.faults input.new)
        (O.faults output.old) (O.faults output.new) result }
{
    match read_log(alloc, input) {
        Ok(text) => judge_log(alloc, text.as_slice(), output),
        Err(outcome) => outcome,
    }
}

/// The input to its end. Answers `HarLimit` where it is longer than a log may be, `ReadFault` only where the source's count
/// of faults rose, and `NoMemory`.
fn read_log<I: Source>(alloc: Global, input: &mut I) -> Result<Vec<u8>, Outcome>
    ensures read { (read : List ℕ) × Loses (I.left input.old) (I.left input.new) read
        × ReadsLog (λ text. text.items) read (I.left input.new) result }
    ensures causes { LogCauses (I.faults input.old) (I.faults input.new) result }
{
    let mut text = Vec::new(alloc);
    let mut room = [0u8; PULL];
    'pulls: loop {
        match input.pull(&mut room) {
            Ok(0) => return Ok(text),
            Ok(count) => match add_piece(&mut text, &room[..count]) {
                Ok(()) => {}
                Err(refused) => return Err(refused),
            },
            Err(Failed) => return Err(Outcome::ReadFault),
        }
    }
}

/// Adds a piece to what was read of a log, or answers `HarLimit` or `NoMemory`.
fn add_piece(text: &mut Vec<u8>, piece: &[u8]) -> Result<(), Outcome>
    requires fits { length text.old.items ≤ 67108864 }
    requires few { length piece.now ≤ 8192 }
    ensures { AddsPiece text.old.items text.new.items piece.now result }
{
    if text.len() + piece.len() > MOST_OF_A_LOG {
        return Err(Outcome::HarLimit);
    }
    match text.extend_from_slice(piece) {
        Ok(()) => Ok(()),
        Err(_) => Err(Outcome::NoMemory),
    }
}

/// Writes the lines of the recording that a log stands for.
fn judge_log<O: Sink>(alloc: Global, text: &[u8], output: &mut O) -> Outcome
    requires { length text.now ≤ 67108864 }
    ensures wrote { Gives (O.told output.old) (O.told output.new) [] (λ wrote. IsHarAnswer text.now true wrote result) }
    ensures causes { (n : ℕ) → HasCauses n n (O.faults output.old) (O.faults output.new) result }
{
    match to_recording(alloc, text) {
        Ok(recording) => judge_whole(alloc, recording.as_slice(), output),
        Err(HarError::NotHar { entry }) => Outcome::NotHar { entry },
        Err(HarError::NoMemory) => Outcome::NoMemory,
    }
}

/// Writes the lines of a recording. For one that is longer than a run takes there is no memory.
fn judge_whole<O: Sink>(alloc: Global, recording: &[u8], output: &mut O) -> Outcome
    ensures wrote { Gives (O.told output.old) (O.told output.new) []
        (IsWholeAnswer log_settings recording.now result) }
    ensures causes { (n : ℕ) → HasCauses n n (O.faults output.old) (O.faults output.new) result }
{
    if recording.len() as u64 > MOST_OF_A_RUN {
        return Outcome::NoMemory;
    }
    match Engine::open(alloc, settings(Job::Explain, Policy::Orb, DEFAULT_LIMIT)) {
        Ok(mut engine) => Outcome::from(run_whole(&mut engine, recording, output)),
        Err(NoMemory) => Outcome::NoMemory,
    }
}

/// Takes a recording in one piece, and its end.
fn run_whole<O: Sink>(engine: &mut Engine, recording: &[u8], output: &mut O) -> EngineOutcome
    requires { length recording.now ≤ 2 ^ 62 }
    ensures { Acts O.Sink (HaltCause result) output.old output.new (λ told told'.
        Gives told told' [] (IsWholeAnswer (settings_of engine.old) recording.now (outcome_of result))) }
{
    engine.start();
    match engine.feed(recording, output) {
        Some(outcome) => outcome,
        None => engine.end(output),
    }
}
