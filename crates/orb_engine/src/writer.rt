//! The work on one response, with what it writes gathered.
//!
//! What a piece of a response can let out goes to the outbox where it fits there, and else to the sink itself, after
//! what was gathered: so short exchanges, and the chunks of a pull, go out many in one push, and a long piece of a body goes
//! straight through.
ghost use Rattle.std.specs.Prelude.{◌≡◌, ◌≤◌, ◌+◌, ◌*◌, ◌^◌, ◌++◌, ℕ, List, [], length};
ghost use Rattle.orb_io.specs.Told.{Gives, Delivers};
ghost use Rattle.orb_io.specs.Calls.{Calls};
ghost use Rattle.orb_engine.specs.Workers.{IsWorkerFor};
ghost use Rattle.orb_engine.specs.WorkerLaws.{IsWorkerFor-prop};
ghost use Rattle.response_rules.specs.Heads.{Case};
ghost use Rattle.response_rules.specs.Reads.{IsVerdict};
ghost use Rattle.body_filter.specs.Responses.{Response, response_of};

use crate::settings::Settings;
use crate::worker::Worker;
use body_filter::{Pushes, WriteFault};
use orb_io::{Failed, NoMemory, Outbox, Sink, push_nonempty};
use response_rules::{Facts, Verdict};
use std::alloc::Global;

/// Works on responses, one at a time, and gathers what they write.
#[derive(Drop)]
pub(crate) struct Writer {
    pub(crate) settings: Settings,
    worker: Worker,
    outbox: Outbox,
    // How long the head of the response is, and its body so far.
    head: u64,
    body: u64,
    ghost short: { head ≤ 65536 },
    ghost few: { body ≤ 2 ^ 62 },
    ghost worker_for: { IsWorkerFor worker settings } by { IsWorkerFor-prop worker settings },
}

impl Writer {
    ghost use Rattle.std.specs.Prelude.{IfOk, OnErr};
    ghost use Rattle.orb_engine.specs.declared.settings.Settings.{Settings};
    ghost use Rattle.orb_io.specs.Outboxes.{empty_outbox};
    ghost use Rattle.orb_engine.specs.Outputs.{written_so_far, written_whole};
    ghost use Rattle.orb_engine.specs.Workers.{AreFactsFor, Works, held_by};
    ghost use Rattle.orb_engine.specs.Writing.{IsWriterFor, WriterReads, CanGoOn, Passes, IsSameBut, box_of, gathered_by, body_of};

    /// One whose worker does the job of the settings.
    pub(crate) fn open(alloc: Global, settings: Settings) -> Result<Writer, NoMemory>
        requires low { 1024 ≤ settings.limit }
        requires high { settings.limit ≤ 268435456 }
        ensures { IfOk result (λ w. w.settings ≡ settings) }
    {
        let worker = Worker::open(alloc, settings)?;
        let outbox = Outbox::open(alloc)?;
        Ok(Writer {
            settings,
            worker,
            outbox,
            head: 0,
            body: 0,
        })
    }

    /// Drops what was gathered.
    pub(crate) fn clear(&mut self)
        ensures empty { box_of self.new ≡ empty_outbox }
        ensures same { IsSameBut self.old self.new }
    {
        self.outbox.clear();
    }

    /// Pushes what was gathered.
    pub(crate) fn flush<O: Sink>(&mut self, output: &mut O) -> Result<(), WriteFault>
        ensures calls { Calls O.Sink result output.old output.new (λ told told'.
            (given : List ℕ) → Delivers result told told' given (given ++ gathered_by self.old) (λ _. box_of self.new ≡ empty_outbox)) }
        ensures same { IsSameBut self.old self.new }
    {
        match push_nonempty(self.outbox.as_slice(), output) {
            Ok(()) => {
                self.outbox.clear();
                Ok(())
            }
            Err(Failed) => Err(WriteFault),
        }
    }

    /// Begins a response with these facts.
    pub(crate) fn begin<O: Sink>(
        &mut self,
        facts: Facts,
        head: &[u8],
        chunked: bool,
        output: &mut O,
    ) -> Result<(), WriteFault>
        requires short { length head.now ≤ 65536 }
        requires made { (s : Settings) × (h : Case) × IsWriterFor self.old s × AreFactsFor facts s h }
        ensures calls { Calls O.Sink result output.old output.new (λ told told'.
            (s : Settings) (h : Case) (given : List ℕ) → IsWriterFor self.old s → AreFactsFor facts s h
            → Gives told told' given (Passes result self.new
            ((given ++ gathered_by self.old) ++ written_so_far s.job (response_of h head.now chunked) [])
            (λ _. WriterReads self.new s (response_of h head.now chunked) []))) }
        ensures settings { self.new.settings ≡ self.old.settings }
    {
        self.head = head.len() as u64;
        self.body = 0;
        if self.outbox.has_room(self.head) {
            match self.worker.begin(facts, head, chunked, &mut self.outbox) {
                Ok(()) => Ok(()),
                Err(_) => unreachable!(),
            }
        } else {
            match self.flush(output) {
                Ok(()) => self.worker.begin(facts, head, chunked, output),
                Err(fault) => Err(fault),
            }
        }
    }

    /// Reads the next piece of its body.
    pub(crate) fn feed<O: Sink>(&mut self, body: &[u8], output: &mut O) -> Result<(), WriteFault>
        requires can { CanGoOn self.old }
        requires few { body_of self.old + length body.now ≤ 2 ^ 62 }
        ensures calls { Calls O.Sink result output.old output.new (λ told told'.
            (s : Settings) (x : Response) (m given before : List ℕ) → WriterReads self.old s x m
            → given ++ gathered_by self.old ≡ before ++ written_so_far s.job x m
            → Gives told told' given (Passes result self.new
            (before ++ written_so_far s.job x (m ++ body.now)) (λ _. WriterReads self.new s x (m ++ body.now)))) }
        ensures settings { self.new.settings ≡ self.old.settings }
    {
        self.body += body.len() as u64;
        if self.outbox.has_room(self.most(body.len())) {
            match self.worker.feed(body, Pushes::Parts, &mut self.outbox) {
                Ok(()) => Ok(()),
                Err(_) => unreachable!(),
            }
        } else {
            match self.flush(output) {
                Ok(()) => self.worker.feed(body, Pushes::Batches, output),
                Err(fault) => Err(fault),
            }
        }
    }

    /// Ends its body; it is the exchange with that number.
    pub(crate) fn end<O: Sink>(
        &mut self,
        number: u64,
        output: &mut O,
    ) -> Result<Verdict, WriteFault>
        requires { CanGoOn self.old }
        ensures calls { Calls O.Sink result output.old output.new (λ told told'.
            (s : Settings) (x : Response) (m given before : List ℕ) → WriterReads self.old s x m
            → given ++ gathered_by self.old ≡ before ++ written_so_far s.job x m
            → Gives told told' given (Passes result self.new
            (before ++ written_whole s.job number x m) (λ v. IsVerdict x.judged m v × IsWriterFor self.new s))) }
        ensures settings { self.new.settings ≡ self.old.settings }
    {
        if self.outbox.has_room(self.most(0)) {
            match self.worker.end(number, self.body, &mut self.outbox) {
                Ok(verdict) => Ok(verdict),
                Err(_) => unreachable!(),
            }
        } else {
            match self.flush(output) {
                Ok(()) => self.worker.end(number, self.body, output),
                Err(fault) => Err(fault),
            }
        }
    }

    /// The most bytes that a piece of this length can let out, and the end of the response after it.
    fn most(&self, piece: usize) -> u64
        requires head { self.now.head ≤ 65536 }
        requires few { piece ≤ 2 ^ 62 }
        ensures value { result ≡ self.now.head + 2 * (held_by self.now.worker + piece) + 128 }
        ensures feeds { (s : Settings) (x : Response) (m p : List ℕ) → Works self.now.worker s x m → self.now.head ≡ length x.bytes
            → length p ≡ piece → length (written_so_far s.job x (m ++ p)) ≤ length (written_so_far s.job x m) + result }
    {
        self.head + 2 * (self.worker.held() as u64 + piece as u64) + 128
    }
}
