//! A body held back, passed on or dropped.
ghost use Rattle.std.specs.Prelude.{◌≤◌, vec_len, vec_capacity};

use crate::judging::{Judgement, judge, read_on};
use crate::phases::{Phase, idle_at_fault};
use crate::pushing::{WriteFault, put_bytes};
use crate::replying::put_reply;
use crate::writing::{Pushes, put_last, put_piece, put_whole, release};
use http_exchange::Framer;
use orb_bytes::append;
use orb_io::{NoMemory, Sink};
use response_rules::{Decider, Facts, Verdict};
use std::alloc::Global;

/// The most bytes of a head.
const HEAD: usize = 65_536;

/// Holds back the body of one response at a time until it is known whether it may go out. Once nothing can allow it,
/// what is held is dropped, and the rest only read for the rule.
#[derive(Drop)]
pub struct Filter {
    limit: usize,
    phase: Phase,
    // The one of the response that comes, which begins anew with each.
    decider: Decider,
    framer: Framer,
    head: Vec<u8>,
    held: Vec<u8>,
    ghost window: { 1024 ≤ limit },
    ghost high: { limit ≤ 268435456 },
    ghost fits: { vec_len held ≤ limit },
    ghost room: { limit ≤ vec_capacity held },
    ghost head_room: { 65536 ≤ vec_capacity head },
}

impl Filter {
    ghost use Rattle.std.specs.Prelude.{◌≡◌, ℕ, ◌+◌, ◌*◌, ◌++◌, List, [], length, IfOk, OnOk, OnErr};
    ghost use Rattle.orb_io.specs.Told.{Delivers};
    ghost use Rattle.orb_io.specs.Calls.{Calls};
    ghost use Rattle.response_rules.specs.Heads.{Case};
    ghost use Rattle.response_rules.specs.Facts.{AreFactsOf};
    ghost use Rattle.response_rules.specs.Reads.{HasRead as DeciderHasRead, IsVerdict};
    ghost use Rattle.body_filter.specs.Responses.{Response, response_of, output_so_far, whole_output, held_of};
    ghost use Rattle.body_filter.specs.Reads.{HasRead, CanFeed, IsSpent, IsMadeFor, AreMadeFor, limit_of, held_in, is_script_dead};
    ghost use Rattle.body_filter.specs.Calls.{Begins, Feeds};

    /// A filter that holds back at most `limit` bytes of a body, from 1,024 to 268,435,456. It reserves
    /// room for them and for a head of 65,536 bytes.
    pub fn open(alloc: Global, limit: u64) -> Result<Filter, NoMemory>
        requires low { 1024 ≤ limit }
        requires high { limit ≤ 268435456 }
        ensures limit { IfOk result (λ f. limit_of f ≡ limit) }
        ensures empty { IfOk result (λ f. held_in f ≡ 0) }
    {
        let limit = limit as usize;
        let framer = Framer::open(alloc)?;
        let (Ok(held), Ok(head)) = (
            Vec::with_capacity(alloc, limit),
            Vec::with_capacity(alloc, HEAD),
        ) else {
            return Err(NoMemory);
        };
        Ok(Filter {
            limit,
            phase: Phase::Idle,
            decider: Decider::idle(),
            framer,
            head,
            held,
        })
    }

    /// Begins a response: a new decider that was made of its head, with the limit of this filter; its
    /// head as it was read, at most 65,536 bytes; and whether its body came in chunks. What was held of
    /// another is dropped. Where the head alone allows the response, the head goes out.
    ///
    /// After a [`WriteFault`] the filter takes only `begin` or `begin_with`.
    pub fn begin<O: Sink>(
        &mut self,
        decider: Decider,
        head: &[u8],
        chunked: bool,
        sink: &mut O,
    ) -> Result<(), WriteFault>
        requires short { length head.now ≤ 65536 }
        requires made { IsMadeFor decider (limit_of self.old) }
        ensures calls { Calls O.Sink result sink.old sink.new (λ told told'.
            (h : Case) → DeciderHasRead decider h [] → Begins result self.new (response_of h head.now chunked) told told') }
        ensures spent { OnErr result (IsSpent self.new) }
        ensures limit { limit_of self.new ≡ limit_of self.old }
    {
        self.decider = decider;
        self.start(head, chunked, sink)
    }

    /// Begins a response as `begin` does, by what the rules ask of its head: the filter's own decider reads it, and
    /// nothing large is moved.
    pub fn begin_with<O: Sink>(
        &mut self,
        facts: Facts,
        head: &[u8],
        chunked: bool,
        sink: &mut O,
    ) -> Result<(), WriteFault>
        requires short { length head.now ≤ 65536 }
        requires made { AreMadeFor facts (limit_of self.old) }
        ensures calls { Calls O.Sink result sink.old sink.new (λ told told'.
            (h : Case) → AreFactsOf facts h → Begins result self.new (response_of h head.now chunked) told told') }
        ensures spent { OnErr result (IsSpent self.new) }
        ensures limit { limit_of self.new ≡ limit_of self.old }
    {
        self.decider.begin(facts);
        self.start(head, chunked, sink)
    }

    /// Reads the next piece of the body, after a `begin` that answered Ok. Where a rule that allows is known
    /// then, all that was held and the piece go out.
    pub fn feed<O: Sink>(&mut self, piece: &[u8], sink: &mut O) -> Result<(), WriteFault>
        requires { CanFeed self.old }
        ensures calls { Calls O.Sink result sink.old sink.new (Feeds result self.old self.new piece.now) }
        ensures spent { OnErr result (IsSpent self.new) }
        ensures limit { limit_of self.new ≡ limit_of self.old }
    {
        self.feed_by(piece, Pushes::Batches, sink)
    }

    /// Reads the next piece of the body as `feed` does, and pushes chunks in this way.
    pub fn feed_by<O: Sink>(
        &mut self,
        piece: &[u8],
        pushes: Pushes,
        sink: &mut O,
    ) -> Result<(), WriteFault>
        requires { CanFeed self.old }
        ensures calls { Calls O.Sink result sink.old sink.new (Feeds result self.old self.new piece.now) }
        ensures spent { OnErr result (IsSpent self.new) }
        ensures limit { limit_of self.new ≡ limit_of self.old }
    {
        match self.phase {
            Phase::Holding => self.feed_held(piece, pushes, sink),
            Phase::Passing => self.feed_sent(piece, pushes, sink),
            Phase::Dropping => {
                let _judgement = read_on(&mut self.decider, piece);
                Ok(())
            }
            Phase::Idle => unreachable!(),
        }
    }

    /// Ends the body, and tells the verdict. What is owed goes out: the rest of an allowed response, or the reply that
    /// stands in the place of a blocked one. The filter then takes only `begin`.
    pub fn end<O: Sink>(&mut self, sink: &mut O) -> Result<Verdict, WriteFault>
        requires { CanFeed self.old }
        ensures calls { Calls O.Sink result sink.old sink.new (λ told told'.
            (x : Response) (m : List ℕ) → HasRead self.old x m
            → Delivers result told told' (output_so_far x m) (whole_output x m) (λ v. IsVerdict x.judged m v)) }
        ensures spent { IsSpent self.new }
        ensures empty { OnOk result (held_in self.new ≡ 0) }
        ensures limit { limit_of self.new ≡ limit_of self.old }
    {
        let verdict = self.decider.finish();
        let put = self.put_end(&verdict, sink);
        self.phase = Phase::Idle;
        put?;
        Ok(verdict)
    }

    /// How many bytes of a body are held back at most.
    pub fn limit(&self) -> u64
        ensures { result ≡ limit_of self.now }
    {
        self.limit as u64
    }

    /// How many bytes of the body are held back. A further piece lets out at most the head, and twice what is held and the
    /// piece, and the end at most 128 bytes besides.
    pub fn held(&self) -> usize
        ensures value { result ≡ held_in self.now }
        ensures exact { (x : Response) (m : List ℕ) → HasRead self.now x m
            → result ≡ held_of x m (is_script_dead self.now) }
        ensures bounded { result ≤ limit_of self.now }
        ensures most { result ≤ 268435456 }
        ensures feeds { (x : Response) (m p : List ℕ) → HasRead self.now x m
            → length (output_so_far x (m ++ p)) ≤ length (output_so_far x m) + length x.bytes + 2 * (held_in self.now + length p) }
        ensures ends { (x : Response) (m : List ℕ) → HasRead self.now x m
            → length (whole_output x m) ≤ length (output_so_far x m) + length x.bytes + 2 * held_in self.now + 128 }
    {
        match self.phase {
            Phase::Holding => self.held.len(),
            Phase::Passing => self.framer.kept(),
            Phase::Dropping | Phase::Idle => 0,
        }
    }
}

impl Filter {
    ghost use Rattle.std.specs.Prelude.{◌≡◌, [], length, OnErr};
    ghost use Rattle.orb_io.specs.Calls.{Calls, Puts};
    ghost use Rattle.response_rules.specs.Heads.{Case};
    ghost use Rattle.response_rules.specs.Reads.{HasRead as DeciderHasRead};
    ghost use Rattle.body_filter.specs.Responses.{response_of};
    ghost use Rattle.body_filter.specs.Reads.{CanFeed, IsSpent, IsMadeFor, limit_of, ended_by};
    ghost use Rattle.body_filter.specs.Calls.{Begins, Feeds};

    /// Begins the response whose decider is new.
    fn start<O: Sink>(&mut self, head: &[u8], chunked: bool, sink: &mut O) -> Result<(), WriteFault>
        requires short { length head.now ≤ 65536 }
        requires made { IsMadeFor self.old.decider (limit_of self.old) }
        ensures calls { Calls O.Sink result sink.old sink.new (λ told told'.
            (h : Case) → DeciderHasRead self.old.decider h [] → Begins result self.new (response_of h head.now chunked) told told') }
        ensures spent { OnErr result (IsSpent self.new) }
        ensures limit { limit_of self.new ≡ limit_of self.old }
    {
        self.framer.start(chunked);
        match judge(&self.decider) {
            Judgement::Allowed => {
                self.phase = Phase::Passing;
                idle_at_fault(&mut self.phase, put_bytes(head, sink))
            }
            Judgement::Blocked => {
                self.phase = Phase::Dropping;
                Ok(())
            }
            Judgement::Open => {
                self.phase = Phase::Holding;
                self.held.clear();
                self.head.clear();
                append(&mut self.head, head);
                Ok(())
            }
        }
    }

    /// Reads a piece of a body that is held: keeps it, or lets all go, or drops all.
    fn feed_held<O: Sink>(
        &mut self,
        piece: &[u8],
        pushes: Pushes,
        sink: &mut O,
    ) -> Result<(), WriteFault>
        requires can { CanFeed self.old }
        requires holding { self.old.phase ≡ Phase.Holding }
        ensures calls { Calls O.Sink result sink.old sink.new (Feeds result self.old self.new piece.now) }
        ensures idle { OnErr result (self.new.phase ≡ Phase.Idle) }
        ensures limit { limit_of self.new ≡ limit_of self.old }
    {
        match read_on(&mut self.decider, piece) {
            Judgement::Allowed => {
                self.phase = Phase::Passing;
                let put = release(
                    &mut self.framer,
                    &self.head,
                    &self.held,
                    piece,
                    pushes,
                    sink,
                );
                idle_at_fault(&mut self.phase, put)
            }
            Judgement::Blocked => {
                self.phase = Phase::Dropping;
                Ok(())
            }
            Judgement::Open => {
                append(&mut self.held, piece);
                Ok(())
            }
        }
    }

    /// Reads a piece of a body that goes out.
    fn feed_sent<O: Sink>(
        &mut self,
        piece: &[u8],
        pushes: Pushes,
        sink: &mut O,
    ) -> Result<(), WriteFault>
        requires can { CanFeed self.old }
        requires sending { self.old.phase ≡ Phase.Passing }
        ensures calls { Calls O.Sink result sink.old sink.new (Feeds result self.old self.new piece.now) }
        ensures idle { OnErr result (self.new.phase ≡ Phase.Idle) }
        ensures limit { limit_of self.new ≡ limit_of self.old }
    {
        let _judgement = read_on(&mut self.decider, piece);
        let put = put_piece(&mut self.framer, piece, pushes, sink);
        idle_at_fault(&mut self.phase, put)
    }

    /// Puts what is owed at the end.
    fn put_end<O: Sink>(&mut self, verdict: &Verdict, sink: &mut O) -> Result<(), WriteFault>
        ensures puts { Puts O.Sink result sink.old sink.new (ended_by self.old.phase self.old verdict.now) }
        ensures limit { limit_of self.new ≡ limit_of self.old }
    {
        match self.phase {
            Phase::Passing => put_last(&mut self.framer, sink),
            Phase::Holding => {
                if verdict.allow {
                    put_whole(&mut self.framer, &self.head, &self.held, sink)
                } else {
                    put_reply(verdict.rule, sink)
                }
            }
            Phase::Dropping | Phase::Idle => put_reply(verdict.rule, sink),
        }
    }
}
