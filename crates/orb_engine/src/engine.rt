//! The engine: a recording, exchange by exchange.

mod runs;
mod states;

use crate::outcome::EngineOutcome;
use crate::progress::Progress;
use crate::settings::Settings;
use crate::writer::Writer;
use exchanges::HeadRoom;
use media_state::MediaTable;
use orb_io::{NoMemory, Sink};
pub(crate) use states::Asked;
use states::State;
use std::alloc::Global;

/// Filters or explains recordings, one at a time.
#[derive(Drop)]
pub struct Engine {
    media: MediaTable,
    head: HeadRoom,
    writer: Writer,
    state: State,
    progress: Progress,
}

impl Engine {
    ghost use Rattle.std.specs.Prelude.{◌≡◌, ◌≤◌, ◌+◌, ◌^◌, ◌++◌, ℕ, List, [], length, Bool, true, IfOk, IsSome, None};
    ghost use Rattle.orb_engine.specs.Steps.{Goes};
    ghost use Rattle.orb_engine.specs.Reads.{Reads, Stops, Halts, HaltCause, HaltCauseAfter};
    ghost use Rattle.orb_engine.specs.declared.settings.Settings.{Settings};
    ghost use Rattle.orb_engine.specs.Runs.{settings_of, taken_by, allowed_by, blocked_by, HasRead, CanFeed, IsSpent, FeedAnswers, FeedCauses, EndsAs};

    /// An engine for these settings, whose limit is from 1,024 to 268,435,456. It takes all memory that it will
    /// use: for `Filter` the limit and less than 1 MiB besides, for `Explain` less than 1 MiB.
    pub fn open(alloc: Global, settings: Settings) -> Result<Engine, NoMemory>
        requires low { 1024 ≤ settings.limit }
        requires high { settings.limit ≤ 268435456 }
        ensures settings { IfOk result (λ e. settings_of e ≡ settings) }
        ensures allowed { IfOk result (λ e. allowed_by e ≡ 0) }
        ensures blocked { IfOk result (λ e. blocked_by e ≡ 0) }
        ensures spent { IfOk result IsSpent }
    {
        let media = MediaTable::open(alloc)?;
        let head = HeadRoom::open(alloc)?;
        let writer = Writer::open(alloc, settings)?;
        Ok(Engine {
            media,
            head,
            writer,
            state: State::Idle,
            progress: Progress::START,
        })
    }

    /// Begins a recording, with no media states. What came before is dropped.
    pub fn start(&mut self)
        ensures reads { HasRead self.new (settings_of self.old) [] [] }
        ensures settings { settings_of self.new ≡ settings_of self.old }
        ensures taken { taken_by self.new ≡ 0 }
    {
        self.media.clear();
        self.head.clear();
        self.writer.clear();
        self.state = State::RequestHead;
        self.progress = Progress::START;
    }

    /// Takes the next bytes of the recording, and pushes all output that they settle. `None` exactly where the
    /// recording of the bytes so far is still open and the sink took all; else the outcome, after which the engine
    /// takes only a new beginning. It never answers `Done`, `Cut`, `Endless` or `ReadFault`.
    pub fn feed<O: Sink>(&mut self, piece: &[u8], output: &mut O) -> Option<EngineOutcome>
        requires can { CanFeed self.old }
        requires few { taken_by self.old + length piece.now ≤ 2 ^ 62 }
        ensures goes { Goes O.Sink (FeedCauses result) output.old output.new
            (HasRead self.old) (λ s m. FeedAnswers result self.new s (m ++ piece.now)) }
        ensures settings { settings_of self.new ≡ settings_of self.old }
        ensures taken { result ≡ None → taken_by self.new ≡ taken_by self.old + length piece.now }
        ensures spent { IsSome result → IsSpent self.new }
    {
        match self.take_all(piece, output) {
            Ok(()) => self.flush_open(output),
            Err(stop) => Some(self.settle(stop, output)),
        }
    }

    /// Ends the recording: where it ends, or `WriteFault`.
    pub fn end<O: Sink>(&mut self, output: &mut O) -> EngineOutcome
        requires { CanFeed self.old }
        ensures goes { Goes O.Sink (HaltCause result) output.old output.new
            (HasRead self.old) (λ s m. EndsAs result self.new s m true) }
        ensures settings { settings_of self.new ≡ settings_of self.old }
        ensures spent { IsSpent self.new }
    {
        let stop = self.finish(output);
        self.settle(stop, output)
    }

    /// How many whole exchanges of the recording were allowed; 0 before the first.
    pub fn allowed(&self) -> u64
        ensures { result ≡ allowed_by self.now }
    {
        self.progress.allowed()
    }

    /// How many were blocked.
    pub fn blocked(&self) -> u64
        ensures { result ≡ blocked_by self.now }
    {
        self.progress.blocked()
    }

    /// Pushes what was gathered, where the recording is open.
    fn flush_open<O: Sink>(&mut self, output: &mut O) -> Option<EngineOutcome>
        ensures goes { Goes O.Sink (FeedCauses result) output.old output.new
            (λ s m given. Reads self.old s m given × (self.old.progress.taken ≤ 2 ^ 62)) (FeedAnswers result self.new) }
        ensures settings { settings_of self.new ≡ settings_of self.old }
        ensures taken { self.new.progress.taken ≡ self.old.progress.taken }
        ensures idle { IsSome result → self.new.state ≡ State.Idle }
    {
        match self.writer.flush(output) {
            Ok(()) => {
                self.progress.commit();
                None
            }
            Err(_) => {
                self.progress.roll_back();
                self.state = State::Idle;
                Some(EngineOutcome::WriteFault)
            }
        }
    }

    /// Pushes what was gathered where the recording stops so.
    fn settle<O: Sink>(&mut self, stop: EngineOutcome, output: &mut O) -> EngineOutcome
        ensures goes { (ended : Bool) → Goes O.Sink (HaltCauseAfter stop result) output.old output.new
            (λ s m. Halts stop self.old s m ended) (λ s m. EndsAs result self.new s m ended) }
        ensures settings { settings_of self.new ≡ settings_of self.old }
        ensures idle { self.new.state ≡ State.Idle }
    {
        self.state = State::Idle;
        match stop {
            EngineOutcome::WriteFault => {
                self.progress.roll_back();
                EngineOutcome::WriteFault
            }
            _ => self.flush_stop(stop, output),
        }
    }

    /// The same, where the sink has not failed.
    fn flush_stop<O: Sink>(&mut self, stop: EngineOutcome, output: &mut O) -> EngineOutcome
        requires { stop ≡ EngineOutcome.WriteFault → ⊥ }
        ensures goes { (ended : Bool) → Goes O.Sink (HaltCauseAfter stop result) output.old output.new
            (λ s m. Stops stop self.old s m ended) (λ s m. EndsAs result self.new s m ended) }
        ensures settings { settings_of self.new ≡ settings_of self.old }
        ensures state { self.new.state ≡ self.old.state }
    {
        match self.writer.flush(output) {
            Ok(()) => stop,
            Err(_) => {
                self.progress.roll_back();
                EngineOutcome::WriteFault
            }
        }
    }
}
