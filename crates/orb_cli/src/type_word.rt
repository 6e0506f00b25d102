//! The word `type`: the computed type of a response.
ghost use Rattle.std.specs.Prelude.{[]};
ghost use Rattle.orb_io.specs.Told.{Gives};
ghost use Rattle.orb_cli.specs.Answer.{Ran, HasCauses};
ghost use Rattle.orb_cli.specs.Typed.{IsTypeAnswer};

use crate::outcome::Outcome;
use computed_type::TypeRun;
use orb_io::{NoMemory, Sink, Source};
use std::alloc::Global;

/// Reads a response head and then its body, as it is, to the end of the input, and writes the type that a browser takes it
/// for. The places of its answers are 0.
pub(crate) fn tell_type<I: Source, O: Sink>(alloc: Global, input: &mut I, output: &mut O) -> Outcome
    ensures ran { Gives (O.told output.old) (O.told output.new) []
        (Ran IsTypeAnswer (I.left input.old) (I.left input.new) result) }
    ensures causes { HasCauses (I.faults input.old) (I.faults input.new)
        (O.faults output.old) (O.faults output.new) result }
{
    match TypeRun::open(alloc) {
        Ok(mut run) => Outcome::from(run.run(input, output)),
        Err(NoMemory) => Outcome::NoMemory,
    }
}
