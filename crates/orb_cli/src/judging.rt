//! The words `filter` and `explain`: a recording from a source to a sink.
ghost use Rattle.std.specs.Prelude.{◌≤◌, []};
ghost use Rattle.orb_io.specs.Told.{Gives};
ghost use Rattle.orb_cli.specs.Answer.{Ran, IsJudgeAnswer, HasCauses};

use crate::outcome::Outcome;
use orb_engine::{Engine, Settings};
use orb_io::{NoMemory, Sink, Source};
use std::alloc::Global;

/// Judges a recording by the settings, and writes what they ask for. All memory is taken before the first pull.
pub fn judge<I: Source, O: Sink>(
    alloc: Global,
    settings: Settings,
    input: &mut I,
    output: &mut O,
) -> Outcome
    requires low { 1024 ≤ settings.limit }
    requires high { settings.limit ≤ 268435456 }
    ensures ran { Gives (O.told output.old) (O.told output.new) []
        (Ran (IsJudgeAnswer settings) (I.left input.old) (I.left input.new) result) }
    ensures causes { HasCauses (I.faults input.old) (I.faults input.new)
        (O.faults output.old) (O.faults output.new) result }
{
    match Engine::open(alloc, settings) {
        Ok(mut engine) => Outcome::from(engine.run(input, output)),
        Err(NoMemory) => Outcome::NoMemory,
    }
}
