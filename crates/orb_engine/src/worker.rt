//! The work on one response: to filter it, or to tell its verdict.
ghost use Rattle.std.specs.Prelude.{◌≡◌, ◌≤◌, ◌+◌, ◌*◌, ◌++◌, ℕ, List, [], ◌∷◌, length};
ghost use Rattle.orb_io.specs.Told.{Delivers};
ghost use Rattle.orb_io.specs.Calls.{Calls};
ghost use Rattle.response_rules.specs.Heads.{Case};
ghost use Rattle.response_rules.specs.Reads.{HasRead as DeciderHasRead, IsVerdict};
ghost use Rattle.body_filter.specs.Responses.{Response, response_of};

use crate::lines::line;
use crate::settings::{Job, Settings};
use body_filter::{Filter, Pushes, WriteFault};
use orb_io::{NoMemory, Sink};
use response_rules::{Decider, Facts, Verdict};
use std::alloc::Global;

/// What works on responses, one at a time.
#[derive(Drop)]
pub(crate) enum Worker {
    /// Passes on what is allowed.
    Filters(Filter),
    /// Writes a line for each response.
    Explains(Decider),
}

impl Worker {
    ghost use Rattle.std.specs.Prelude.{IfOk};
    ghost use Rattle.orb_engine.specs.declared.settings.Settings.{Settings};
    ghost use Rattle.orb_engine.specs.Outputs.{written_so_far, written_whole};
    ghost use Rattle.orb_engine.specs.Workers.{IsWorkerFor, AreFactsFor, Works, held_by};

    /// One that does the job of the settings.
    pub(crate) fn open(alloc: Global, settings: Settings) -> Result<Worker, NoMemory>
        requires low { 1024 ≤ settings.limit }
        requires high { settings.limit ≤ 268435456 }
        ensures { IfOk result (λ w. IsWorkerFor w settings) }
    {
        match settings.job {
            Job::Filter => match Filter::open(alloc, settings.limit) {
                Ok(filter) => Ok(Worker::Filters(filter)),
                Err(_) => Err(NoMemory),
            },
            Job::Explain => Ok(Worker::Explains(Decider::idle())),
        }
    }

    /// Begins a response with these facts.
    pub(crate) fn begin<O: Sink>(
        &mut self,
        facts: Facts,
        head: &[u8],
        chunked: bool,
        sink: &mut O,
    ) -> Result<(), WriteFault>
        requires short { length head.now ≤ 65536 }
        requires made { (s : Settings) × (h : Case) × IsWorkerFor self.old s × AreFactsFor facts s h }
        ensures calls { Calls O.Sink result sink.old sink.new (λ told told'.
            (s : Settings) (h : Case) → IsWorkerFor self.old s → AreFactsFor facts s h
            → Delivers result told told' [] (written_so_far s.job (response_of h head.now chunked) [])
            (λ _. Works self.new s (response_of h head.now chunked) [])) }
        ensures worker { (s : Settings) → IsWorkerFor self.old s → IsWorkerFor self.new s }
    {
        match self {
            Worker::Filters(filter) => filter.begin_with(facts, head, chunked, sink),
            Worker::Explains(decider) => {
                decider.begin(facts);
                Ok(())
            }
        }
    }

    /// Reads the next piece of its body, and pushes chunks in this way.
    pub(crate) fn feed<O: Sink>(
        &mut self,
        body: &[u8],
        pushes: Pushes,
        sink: &mut O,
    ) -> Result<(), WriteFault>
        requires { (s : Settings) × (x : Response) × (m : List ℕ) × Works self.old s x m }
        ensures calls { Calls O.Sink result sink.old sink.new (λ told told'.
            (s : Settings) (x : Response) (m : List ℕ) → Works self.old s x m
            → Delivers result told told' (written_so_far s.job x m) (written_so_far s.job x (m ++ body.now))
            (λ _. Works self.new s x (m ++ body.now))) }
        ensures worker { (s : Settings) → IsWorkerFor self.old s → IsWorkerFor self.new s }
    {
        match self {
            Worker::Filters(filter) => filter.feed_by(body, pushes, sink),
            Worker::Explains(decider) => {
                let _progress = decider.feed(body);
                Ok(())
            }
        }
    }

    /// Ends its body, which is so long; it is the exchange with that number.
    pub(crate) fn end<O: Sink>(
        &mut self,
        number: u64,
        size: u64,
        sink: &mut O,
    ) -> Result<Verdict, WriteFault>
        requires { (s : Settings) × (x : Response) × (m : List ℕ) × Works self.old s x m }
        ensures calls { Calls O.Sink result sink.old sink.new (λ told told'.
            (s : Settings) (x : Response) (m : List ℕ) → Works self.old s x m → size ≡ length m
            → Delivers result told told' (written_so_far s.job x m) (written_whole s.job number x m)
            (λ v. IsVerdict x.judged m v)) }
        ensures short { (s : Settings) (x : Response) (m : List ℕ) → Works self.old s x m → size ≡ length m
            → length (written_whole s.job number x m) ≤ length (written_so_far s.job x m) + length x.bytes + 2 * held_by self.old + 128 }
        ensures worker { (s : Settings) → IsWorkerFor self.old s → IsWorkerFor self.new s }
    {
        match self {
            Worker::Filters(filter) => filter.end(sink),
            Worker::Explains(decider) => {
                let verdict = decider.finish();
                match sink.push(line(number, verdict.rule, verdict.state, size).as_slice()) {
                    Ok(()) => Ok(verdict),
                    Err(_) => Err(WriteFault),
                }
            }
        }
    }

    /// How many bytes of its body are held back. A further piece writes at most the head, and twice what is held and the
    /// piece.
    pub(crate) fn held(&self) -> usize
        ensures value { result ≡ held_by self.now }
        ensures most { result ≤ 268435456 }
        ensures feeds { (s : Settings) (x : Response) (m p : List ℕ) → Works self.now s x m
            → length (written_so_far s.job x (m ++ p)) ≤ length (written_so_far s.job x m) + length x.bytes + 2 * (held_by self.now + length p) }
    {
        match self {
            Worker::Filters(filter) => filter.held(),
            Worker::Explains(_) => 0,
        }
    }
}
