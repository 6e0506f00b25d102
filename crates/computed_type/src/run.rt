//! A whole run over a response.
ghost use Rattle.std.specs.Prelude.{◌≡◌, ◌≤◌, ◌<◌, ◌^◌, ℕ, List, [], length, vec_len, OnOk};
ghost use Rattle.orb_io.specs.Told.{Gives};
ghost use Rattle.computed_type.specs.Answers.{Ran, RunCauses};
ghost use Rattle.computed_type.specs.Reading.{Reads, HeadAnswers, BodyAnswers, ReadCauses};

use crate::computing::computed;
use crate::outcome::TypeOutcome;
use crate::writing::put_line;
use arrayvec::ArrayVec;
use header_values::Scratch;
use http_exchange::{HeadReader, HeadTaken, read_response};
use orb_bytes::{extend, first_bytes};
use orb_io::{MOST_OF_A_RUN, NoMemory, Sink, Source, pull_within};
use std::alloc::Global;

/// The most bytes of a head.
const HEAD: usize = 65_536;

/// The most bytes that one pull gives.
const PULL: usize = 8192;

/// How many bytes of a body are looked at for its type.
const WINDOW: usize = 1024;

/// Tells the computed type of responses, one at a time.
#[derive(Drop)]
pub struct TypeRun {
    head: HeadReader,
    scratch: Scratch,
    ghost room: { 65536 ≤ scratch },
}

impl TypeRun {
    /// Takes all memory that runs will use; [`NoMemory`] where that much can't be had.
    pub fn open(alloc: Global) -> Result<TypeRun, NoMemory> {
        let head = HeadReader::open(alloc)?;
        let scratch = Scratch::open(alloc, HEAD)?;
        Ok(TypeRun { head, scratch })
    }

    /// Reads a response head, which answers no request with the method HEAD, and then its body, as it is, to the end of the
    /// input. What is written is the computed type's essence in ASCII lowercase, and LF. It takes no memory.
    pub fn run<I: Source, O: Sink>(&mut self, input: &mut I, output: &mut O) -> TypeOutcome
        ensures ran { Gives (O.told output.old) (O.told output.new) [] (Ran result (I.left input.old) (I.left input.new)) }
        ensures causes { RunCauses result (I.faults input.old) (I.faults input.new)
            (O.faults output.old) (O.faults output.new) }
        ensures source { I.kept input.old input.new }
        ensures sink { O.kept output.old output.new }
    {
        let mut window = ArrayVec::new();
        let taken = match read_head(&mut self.head, &mut window, input) {
            Ok(taken) => taken,
            Err(outcome) => return outcome,
        };
        let mut spans = ArrayVec::new();
        let head = match read_response(self.head.as_slice(), false, &mut spans, &mut self.scratch) {
            Ok(head) => head,
            Err(kind) => return TypeOutcome::Bad { kind },
        };
        match read_body(&mut window, taken, input) {
            Ok(()) => {}
            Err(outcome) => return outcome,
        }
        let computed = computed(&mut self.scratch, &head.fields, window.as_slice());
        match put_line(&computed, output) {
            Ok(()) => TypeOutcome::Done,
            Err(_) => TypeOutcome::WriteFault,
        }
    }
}

/// Pulls until the head is whole. The window gets what comes after it, and the answer is how many bytes were taken.
fn read_head<I: Source>(
    head: &mut HeadReader,
    window: &mut ArrayVec<u8, WINDOW>,
    input: &mut I,
) -> Result<u64, TypeOutcome>
    requires { window.old.items ≡ [] }
    ensures reads { Reads (I.left input.old) (I.left input.new) (HeadAnswers result head.new window.new.items (I.left input.new)) }
    ensures cause { ReadCauses result (I.faults input.old) (I.faults input.new) }
    ensures keeps { I.kept input.old input.new }
{
    head.clear();
    let mut room = [0u8; PULL];
    let mut taken = 0;
    'pulls: loop {
        let count = match pull_within(input, &mut room, taken) {
            Ok(0) => return Err(TypeOutcome::Cut),
            Ok(count) => count,
            Err(_) => return Err(TypeOutcome::ReadFault),
        };
        taken += count as u64;
        let piece = room.split_at(count).0;
        match head.take(piece) {
            HeadTaken::Open => {}
            HeadTaken::Long => return Err(TypeOutcome::HeadLimit),
            HeadTaken::Whole { used } => {
                extend(window, first_bytes(piece.split_at(used).1, WINDOW));
                return Ok(taken);
            }
        }
    }
}

/// Pulls to the end of the input, after so many bytes. The window gets what it has room for.
fn read_body<I: Source>(
    window: &mut ArrayVec<u8, WINDOW>,
    taken: u64,
    input: &mut I,
) -> Result<(), TypeOutcome>
    requires { taken ≤ 2 ^ 62 }
    ensures reads { Reads (I.left input.old) (I.left input.new)
        (BodyAnswers result taken window.old.items window.new.items (I.left input.new)) }
    ensures cause { ReadCauses result (I.faults input.old) (I.faults input.new) }
    ensures keeps { I.kept input.old input.new }
{
    let mut room = [0u8; PULL];
    let mut taken = taken;
    'pulls: loop {
        let count = match pull_within(input, &mut room, taken) {
            Ok(0) => return Ok(()),
            Ok(count) => count,
            Err(_) => return Err(TypeOutcome::ReadFault),
        };
        if taken == MOST_OF_A_RUN {
            return Err(TypeOutcome::Endless);
        }
        taken += count as u64;
        let piece = room.split_at(count).0;
        extend(window, first_bytes(piece, window.remaining_capacity()));
    }
}
