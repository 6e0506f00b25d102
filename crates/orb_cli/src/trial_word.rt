//! The word `trial`: the engine over a made-up recording, and how that went in a line.
ghost use Rattle.std.specs.Prelude.{◌≡◌, ◌≤◌, ◌^◌, ℕ, []};
ghost use Rattle.orb_io.specs.Told.{Gives};
ghost use Rattle.orb_io.specs.Calls.{Acts};
ghost use Rattle.orb_engine.specs.Reads.{HaltCause};
ghost use Rattle.orb_engine.specs.Runs.{settings_of};
ghost use Rattle.orb_cli.specs.Trial.{TrialAnswers, trial_line, trial_settings};
ghost use Rattle.orb_cli.specs.Answer.{IsTrialAnswer, HasCauses};

use crate::commands::settings;
use crate::outcome::Outcome;
use arrayvec::ArrayVec;
use command_line::{DEFAULT_LIMIT, Job, Policy};
use orb_bytes::{decimal, extend};
use orb_engine::{Engine, EngineOutcome};
use orb_io::{CountingSink, Failed, NoMemory, Sink, push_nonempty};
use std::alloc::Global;
use trial::TrialSource;

/// Runs the engine over the recording of the self-test: so many exchanges, whose numbers go on from the seed.
///
/// It answers `Done`, or `WriteFault` only where the sink failed, and takes no memory.
pub fn trial_run<O: Sink>(
    engine: &mut Engine,
    seed: u64,
    count: u64,
    output: &mut O,
) -> EngineOutcome
    requires seed { seed ≤ 10 ^ 18 }
    requires count { count ≤ 1000000 }
    ensures acts { Acts O.Sink (HaltCause result) output.old output.new (λ told told'.
        Gives told told' [] (TrialAnswers result engine.new (settings_of engine.old) seed count)) }
    ensures settings { settings_of engine.new ≡ settings_of engine.old }
{
    let mut source = TrialSource::new(seed, count);
    engine.run(&mut source, output)
}

/// Runs the self-test with the settings of the word `filter` alone into a sink that counts, and writes its line.
pub(crate) fn trial<O: Sink>(alloc: Global, seed: u64, count: u64, output: &mut O) -> Outcome
    requires seed { seed ≤ 10 ^ 18 }
    requires count { count ≤ 1000000 }
    ensures wrote { Gives (O.told output.old) (O.told output.new) [] (IsTrialAnswer seed count [] result) }
    ensures causes { (n : ℕ) → HasCauses n n (O.faults output.old) (O.faults output.new) result }
{
    let mut engine = match Engine::open(alloc, settings(Job::Filter, Policy::Orb, DEFAULT_LIMIT)) {
        Ok(engine) => engine,
        Err(NoMemory) => return Outcome::NoMemory,
    };
    let mut written = CountingSink::new();
    match trial_run(&mut engine, seed, count, &mut written) {
        EngineOutcome::Done => {}
        _ => unreachable!(),
    }
    let line = line(count, engine.allowed(), engine.blocked(), written.count());
    match push_nonempty(line.as_slice(), output) {
        Ok(()) => Outcome::Done,
        Err(Failed) => Outcome::WriteFault,
    }
}

/// The line of a self-test.
#[tactic(auto, unfolding(crate::specs::Trial::trial_line))]
fn line(exchanges: u64, allowed: u64, blocked: u64, written: u64) -> ArrayVec<u8, 128>
    ensures { result.items ≡ trial_line exchanges allowed blocked written }
{
    let mut line = ArrayVec::new();
    extend(&mut line, b"exchanges ");
    extend(&mut line, decimal(exchanges).as_slice());
    extend(&mut line, b" allow ");
    extend(&mut line, decimal(allowed).as_slice());
    extend(&mut line, b" block ");
    extend(&mut line, decimal(blocked).as_slice());
    extend(&mut line, b" written ");
    extend(&mut line, decimal(written).as_slice());
    extend(&mut line, b"\n");
    line
}

#[cfg(test)]
mod tests {
    use super::*;
    use orb_io::MemorySink;
    use std::test::Fail;

    /// How many bytes are written of each kind, where each size from 0 to 1,008 comes once.
    const WRITTEN: [u64; 8] = [
        1_091_186, 76_684, 556_891, 4_157_952, 61_549, 67_603, 597_062, 624_310,
    ];

    #[test]
    fn an_exchange_of_each_kind_is_written(rt: HostRuntime) -> Result<(), Fail> {
        let alloc = rt.alloc();
        let mut engine = Engine::open(alloc, settings(Job::Filter, Policy::Orb, DEFAULT_LIMIT))?;
        let mut sink = MemorySink::open(alloc, 1000, Vec::new(alloc))?;
        let outcome = trial_run(&mut engine, 0, 8, &mut sink);
        assert_eq!(rt; outcome, EngineOutcome::Done);
        assert_eq!(rt; sink.bytes().len(), 646);
        assert_eq!(rt; (engine.allowed(), engine.blocked()), (5, 3));
        Ok(())
    }

    #[test]
    fn each_kind_writes_so_much(rt: HostRuntime) -> Result<(), Fail> {
        let mut engine = Engine::open(
            rt.alloc(),
            settings(Job::Filter, Policy::Orb, DEFAULT_LIMIT),
        )?;
        let mut written = [0u64; 8];
        let mut counts = (0u64, 0u64);
        for number in 0..8072u64 {
            let mut sink = CountingSink::new();
            let outcome = trial_run(&mut engine, number, 1, &mut sink);
            assert_eq!(rt; outcome, EngineOutcome::Done);
            let kind = (number % 8) as usize;
            written[kind] = written[kind].saturating_add(sink.count());
            counts = (
                counts.0.saturating_add(engine.allowed()),
                counts.1.saturating_add(engine.blocked()),
            );
        }
        assert_eq!(rt; written, WRITTEN);
        assert_eq!(rt; counts, (5045, 3027));
        Ok(())
    }
}
