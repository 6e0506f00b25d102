//! A response judged while its body comes.
//!
//! The head is read once, when the decider is made. The first 1,024 bytes of the body, the window, are kept until the
//! rules are asked that they decide. Where none of those holds, the body is read as text, once, as it comes: it isn't kept.
ghost use Rattle.std.specs.Prelude.{◌≡◌, ◌≤◌, ◌+◌, ◌++◌, ℕ, List, length, take, not};
ghost use Rattle.response_rules.specs.Rules.{is_allowing};
ghost use Rattle.response_rules.specs.Settled.{is_some_rule};
ghost use Rattle.response_rules.specs.Reads.{progress_of};

use crate::facts::Facts;
use crate::rules::Rule;
use crate::tables::{rule_of_head, rule_of_window};
use crate::text::TextTest;
use crate::verdicts::{Policy, Progress, Verdict};
use arrayvec::ArrayVec;
use header_values::{Fields, Scratch};
use media_state::MediaState;

/// How many bytes of a body are looked at for its type.
const WINDOW: usize = 1024;

/// How much of a body a limit still lets in.
#[derive(Clone, Copy)]
struct Count {
    left: u64,
    // The body is longer than the limit.
    over: bool,
}

impl Count {
    ghost use Rattle.response_rules.specs.Reads.{HasCounted};

    fn new(limit: u64) -> Count
        ensures { HasCounted result limit 0 }
    {
        Count {
            left: limit,
            over: false,
        }
    }

    /// So many bytes more.
    fn and(self, size: usize) -> Count
        ensures { (limit n : ℕ) → HasCounted self limit n → HasCounted result limit (n + size) }
    {
        let size = size as u64;
        Count {
            left: self.left.saturating_sub(size),
            over: self.over | (self.left < size),
        }
    }
}

/// Judges one response, whose body comes in pieces. It has a fixed size.
#[derive(Drop)]
pub struct Decider {
    facts: Facts,
    // The rule that is known for good.
    settled: Option<Rule>,
    window: ArrayVec<u8, WINDOW>,
    count: Count,
    // Begun where the body is read as text, and not before.
    text: TextTest,
    finished: bool,
}

impl Decider {
    ghost use Rattle.std.specs.Prelude.{Bool, Option, Some, true, false, [], IsTrue};
    ghost use Rattle.header_values.specs.Fields.{AreOfHead, pairs_in};
    ghost use Rattle.response_rules.specs.Heads.{Case, HasEssence};
    ghost use Rattle.response_rules.specs.Tables.{rule_of};
    ghost use Rattle.response_rules.specs.Settled.{is_sent, is_in_text, is_hopeless};
    ghost use Rattle.response_rules.specs.Facts.{AreFactsOf};
    ghost use Rattle.response_rules.specs.Reads.{HasRead, CanFinish, IsVerdict, case_of, is_script_dead};

    /// A decider for a response: the rules that judge it, its status and fields, the state of the media resource that the
    /// request is for, whether the request is opaque, and how many bytes of a body are read for a script. The
    /// head is read here, once. The scratch needs room for the head.
    pub fn new(
        policy: Policy,
        state: MediaState,
        opaque: bool,
        status: u16,
        fields: &Fields,
        scratch: &mut Scratch,
        limit: u64,
    ) -> Decider
        requires fields { AreOfHead fields.now }
        requires room { length fields.now.head.now ≤ scratch.old }
        ensures reads { (essence : Option (List ℕ × List ℕ)) → HasEssence (pairs_in fields.now) essence
            → HasRead result (case_of policy state opaque status (pairs_in fields.now) limit essence) [] }
        ensures one { (essence : Option (List ℕ × List ℕ)) × HasEssence (pairs_in fields.now) essence }
        ensures kept { scratch.new ≡ scratch.old }
    {
        Decider::of(Facts::read(policy, state, opaque, status, fields, scratch, limit))
    }

    /// A decider for a response with these facts.
    pub fn of(facts: Facts) -> Decider
        ensures { (h : Case) → AreFactsOf facts h → HasRead result h [] }
    {
        let mut decider = Decider::idle();
        decider.begin(facts);
        decider
    }

    /// A decider for no response: it takes only `begin`.
    pub fn idle() -> Decider
        ensures { (h : Case) (m : List ℕ) → HasRead result h m → ⊥ }
    {
        Decider {
            settled: None,
            facts: Facts::idle(),
            window: ArrayVec::new(),
            count: Count::new(0),
            text: TextTest::new(),
            finished: true,
        }
    }

    /// Begins a response with these facts, in the place of any other. The decider isn't moved, and what only
    /// texts need isn't touched: so one decider may serve many responses, and each short one costs little.
    pub fn begin(&mut self, facts: Facts)
        ensures { (h : Case) → AreFactsOf facts h → HasRead self.new h [] }
    {
        self.settled = rule_of_head(&facts);
        self.window.clear();
        self.count = Count::new(facts.limit);
        self.finished = false;
        self.facts = facts;
    }

    /// Reads the next piece of the body, and tells how far the judgement is. Once nothing can allow the response, it stays
    /// so.
    pub fn feed(&mut self, piece: &[u8]) -> Progress
        ensures reads { (h : Case) (m : List ℕ) → HasRead self.old h m → HasRead self.new h (m ++ piece.now) }
        ensures gives { (h : Case) (m : List ℕ) → HasRead self.old h m → result ≡ progress_of (is_sent h (m ++ piece.now)) }
        ensures hopeless { (h : Case) (m : List ℕ) → HasRead self.old h m
            → is_hopeless h m (is_script_dead self.old) ≡ true
            → is_hopeless h (m ++ piece.now) (is_script_dead self.new) ≡ true }
    {
        let count = self.count.and(piece.len());
        if self.window.is_full() {
            self.read_on(piece, count.over);
        } else {
            self.fill(piece, count.over);
        }
        self.count = count;
        self.progress()
    }

    /// How far the judgement is: `Allowed` exactly where a rule that allows is known for good.
    pub fn progress(&self) -> Progress
        ensures { (h : Case) (m : List ℕ) → HasRead self.now h m → result ≡ progress_of (is_sent h m) }
    {
        progress_by(is_allowed(self.settled))
    }

    /// Whether the body is read as text: its window is full, and neither the head nor the window
    /// decides. The script test has read it then, unless it is longer than the limit.
    pub fn in_text(&self) -> bool
        ensures { (h : Case) (m : List ℕ) → HasRead self.now h m → result ≡ is_in_text h m }
    {
        self.window.is_full() && self.settled.is_none()
    }

    /// Whether nothing can allow the response any more, however its body goes on: a rule of the head or the window that
    /// blocks is known for good, or the body is read as text and is longer than the limit or the script test is dead.
    pub fn is_hopeless(&self) -> bool
        ensures exact { (h : Case) (m : List ℕ) → HasRead self.now h m
            → result ≡ is_hopeless h m (is_script_dead self.now) }
        ensures never { (h : Case) (m more : List ℕ) → HasRead self.now h m → IsTrue result
            → is_allowing (rule_of h (m ++ more)) ≡ false }
    {
        is_blocked(self.settled) | (self.in_text() & (self.count.over | self.text.is_dead()))
    }

    /// The verdict on the response, where its body ends here. It may be asked once.
    pub fn finish(&mut self) -> Verdict
        requires { CanFinish self.old }
        ensures verdict { (h : Case) (m : List ℕ) → HasRead self.old h m → IsVerdict h m result }
        ensures over { (h : Case) (m : List ℕ) → HasRead self.new h m → ⊥ }
    {
        let (before, complete) = (self.facts.state, self.facts.complete);
        let rule = self.rule();
        self.finished = true;
        Verdict {
            rule,
            allow: rule.allows(),
            state: rule.state_after(before, complete),
        }
    }
}

impl Decider {
    ghost use Rattle.std.specs.Prelude.{Bool, Some, None, true, false};
    ghost use Rattle.std.specs.Option.{option_or};
    ghost use Rattle.response_rules.specs.Heads.{Case};
    ghost use Rattle.response_rules.specs.Tables.{early_rule, rule_of};
    ghost use Rattle.response_rules.specs.Settled.{is_full, rule_in_window};
    ghost use Rattle.response_rules.specs.Facts.{facts_of};
    ghost use Rattle.response_rules.specs.Reads.{HasRead, Stands, TextStands, is_script_dead};

    /// Reads a piece of a body whose window is full. One that is over the limit isn't read as text any more.
    fn read_on(&mut self, piece: &[u8], over: bool)
        ensures stands { (h : Case) (m : List ℕ) → is_full m ≡ true → Stands self.old h m → Stands self.new h (m ++ piece.now) }
        ensures text { (h : Case) (m : List ℕ) → is_full m ≡ true → Stands self.old h m
            → TextStands self.old h m over → TextStands self.new h (m ++ piece.now) over }
        ensures dead { is_script_dead self.old ≡ true → is_script_dead self.new ≡ true }
    {
        if self.settled.is_none() && !over {
            self.text.feed(piece);
        }
    }

    /// Reads a piece of a body whose window isn't full yet.
    fn fill(&mut self, piece: &[u8], over: bool)
        ensures stands { (h : Case) (m : List ℕ) → is_full m ≡ false → Stands self.old h m → Stands self.new h (m ++ piece.now) }
        ensures text { (h : Case) (m : List ℕ) → is_full m ≡ false → Stands self.old h m
            → TextStands self.new h (m ++ piece.now) over }
    {
        let rest = fill(&mut self.window, piece);
        if self.window.is_full() {
            self.settled = self.judged();
            if self.settled.is_none() && !over {
                self.text = TextTest::new();
                self.text.feed(self.window.as_slice());
                self.text.feed(rest);
            }
        }
    }

    /// The rule, where the body ends here.
    fn rule(&mut self) -> Rule
        ensures { (h : Case) (m : List ℕ) → HasRead self.old h m → result ≡ rule_of h m }
    {
        match self.early() {
            Some(rule) => rule,
            None => self.late(),
        }
    }

    /// The rule of the head or the window that decides if the body ends here, if one does.
    fn early(&self) -> Option<Rule>
        ensures { (h : Case) (m : List ℕ) → HasRead self.now h m → result ≡ early_rule h m }
    {
        if self.window.is_full() {
            self.settled
        } else {
            self.judged()
        }
    }

    /// The rule of the end, where none of the head or the window decides.
    fn late(&mut self) -> Rule
        ensures { (h : Case) (m : List ℕ) → HasRead self.old h m → early_rule h m ≡ None → result ≡ rule_of h m }
    {
        if self.count.over {
            return Rule::BodyLimit;
        }
        if !self.window.is_full() {
            self.text = TextTest::new();
            self.text.feed(self.window.as_slice());
        }
        self.text.finish()
    }

    /// The rule that is known for good, and else the first of the window that holds, where no more bytes come. The
    /// window is looked at only where it is asked for.
    fn judged(&self) -> Option<Rule>
        ensures { (h : Case) → self.now.facts ≡ facts_of h
            → result ≡ option_or self.now.settled (rule_in_window h self.now.window.items) }
    {
        match self.settled {
            Some(rule) => Some(rule),
            None => rule_of_window(&self.facts, self.window.as_slice()),
        }
    }
}

/// Whether there is a rule, and it allows.
fn is_allowed(settled: Option<Rule>) -> bool
    ensures { result ≡ is_some_rule is_allowing settled }
{
    match settled {
        Some(rule) => rule.allows(),
        None => false,
    }
}

/// Whether there is a rule, and it blocks.
fn is_blocked(settled: Option<Rule>) -> bool
    ensures { result ≡ is_some_rule (λ rule. not (is_allowing rule)) settled }
{
    match settled {
        Some(rule) => !rule.allows(),
        None => false,
    }
}

fn progress_by(sent: bool) -> Progress
    ensures { result ≡ progress_of sent }
{
    if sent {
        Progress::Allowed
    } else {
        Progress::Open
    }
}

/// Appends as much of the piece as there is room for, and gives the rest.
fn fill<'p>(window: &mut ArrayVec<u8, WINDOW>, piece: &'p [u8]) -> &'p [u8]
    ensures window { window.new.items ≡ take WINDOW (window.old.items ++ piece.now) }
    ensures rest { window.old.items ++ piece.now ≡ window.new.items ++ result.now }
{
    let room = window.remaining_capacity();
    let (first, rest) = piece.split_at(room.min(piece.len()));
    match window.try_extend_from_slice(first) {
        Ok(()) => {}
        Err(_) => unreachable!(),
    }
    rest
}
