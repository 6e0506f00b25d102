//! A whole run over a recording.
ghost use Rattle.std.specs.Prelude.{◌≡◌, ◌≤◌, ◌<◌, ◌+◌, ◌^◌, ◌++◌, ℕ, List, [], Some, None, length};
ghost use Rattle.std.specs.Result.{ForOk};
ghost use Rattle.orb_io.specs.Told.{Gives};
ghost use Rattle.orb_engine.specs.declared.settings.Settings.{Settings};
ghost use Rattle.orb_engine.specs.declared.outcome.EngineOutcome.{EngineOutcome};
ghost use Rattle.orb_engine.specs.Runs.{settings_of, taken_by, HasRead, CanFeed, Ran, RunCauses};
ghost use Rattle.orb_engine.specs.Turns.{piece_of, is_ended, TurnAnswers, TurnCausesAfter};
ghost use Rattle.orb_engine.specs.Steps.{Goes};

use super::Engine;
use crate::outcome::EngineOutcome;
use orb_io::{Duplex, Failed, MOST_OF_A_RUN, Sink, Source, pull_within};

/// The most bytes that one pull gives.
const PULL: usize = 8192;

impl Engine {
    /// One recording, from a source to a sink, beginning with no media states. It takes no memory.
    pub fn run<I: Source, O: Sink>(&mut self, input: &mut I, output: &mut O) -> EngineOutcome
        ensures ran { Gives (O.told output.old) (O.told output.new) []
            (Ran result self.new (settings_of self.old) (I.left input.old) (I.left input.new)) }
        ensures causes { RunCauses result (I.faults input.old) (I.faults input.new)
            (O.faults output.old) (O.faults output.new) }
        ensures source { I.kept input.old input.new }
        ensures sink { O.kept output.old output.new }
        ensures settings { settings_of self.new ≡ settings_of self.old }
    {
        self.start();
        let mut room = [0u8; PULL];
        'pulls: loop {
            let pulled = pull_within(input, &mut room, self.progress.taken());
            if let Some(outcome) = self.turn(pulled, &room, output) {
                return outcome;
            }
        }
    }

    /// The same, from and to one object.
    pub fn run_link<K: Duplex>(&mut self, link: &mut K) -> EngineOutcome
        ensures ran { Gives (K.told link.old) (K.told link.new) []
            (Ran result self.new (settings_of self.old) (K.left link.old) (K.left link.new)) }
        ensures causes { RunCauses result (K.Source.faults link.old) (K.Source.faults link.new)
            (K.Sink.faults link.old) (K.Sink.faults link.new) }
        ensures settings { settings_of self.new ≡ settings_of self.old }
    {
        self.start();
        let mut room = [0u8; PULL];
        'pulls: loop {
            let pulled = pull_within(link, &mut room, self.progress.taken());
            if let Some(outcome) = self.turn(pulled, &room, link) {
                return outcome;
            }
        }
    }

    /// Takes what a pull gave into the room: `None` where the run goes on, and else how it ends.
    fn turn<O: Sink>(
        &mut self,
        pulled: Result<usize, Failed>,
        room: &[u8],
        output: &mut O,
    ) -> Option<EngineOutcome>
        requires can { CanFeed self.old }
        requires within { ForOk pulled (λ n. n ≤ length room.now) }
        requires room { taken_by self.old ≤ 2 ^ 62 }
        requires few { ForOk pulled (λ n. taken_by self.old < 2 ^ 62 → taken_by self.old + n ≤ 2 ^ 62) }
        ensures goes { Goes O.Sink (TurnCausesAfter pulled result) output.old output.new
            (HasRead self.old) (λ s m. TurnAnswers result self.new s (m ++ piece_of pulled room.now) (is_ended pulled)) }
        ensures settings { settings_of self.new ≡ settings_of self.old }
        ensures total { (o : EngineOutcome) → result ≡ Some o → (o ≡ EngineOutcome.Endless → ⊥)
            → taken_by self.old + length (piece_of pulled room.now) ≤ 2 ^ 62 }
        ensures more { result ≡ None → taken_by self.old < taken_by self.new }
        ensures fits { result ≡ None → taken_by self.new ≤ 2 ^ 62 }
    {
        match pulled {
            Ok(0) => Some(self.end(output)),
            Ok(_) if self.progress.taken() == MOST_OF_A_RUN => Some(EngineOutcome::Endless),
            Ok(count) => self.feed(&room[..count], output),
            Err(_) => Some(EngineOutcome::ReadFault),
        }
    }
}
