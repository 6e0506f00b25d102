//! The machine: a state, and a mark for each array and object that is open.
ghost use Rattle.std.specs.Prelude.{◌≡◌, ◌≤◌, ◌∷◌, ◌++◌, [], ℕ, List, true, length, take};
ghost use Rattle.std.specs.List.{list_all};
ghost use Rattle.std.specs.Char.{is_ascii};
ghost use Rattle.json_recogniser.specs.Residuals.{is_json, may_end, is_dead_state, is_text_state};

use crate::runs::pass;
use crate::states::{Container, MOST_LEVELS, Move, Part, State};
use crate::steps::next;
use arrayvec::ArrayVec;

/// Reads characters, one after the other.
#[derive(Drop)]
pub struct Machine {
    state: State,
    /// What is open, the innermost last.
    marks: ArrayVec<Container, MOST_LEVELS>,
}

impl Machine {
    ghost use Rattle.json_recogniser.specs.Machines.{comes};

    /// A machine at the beginning of a text.
    pub fn new() -> Machine
        ensures { (text : List ℕ) → comes result text ≡ is_json text }
    {
        Machine {
            state: State::Value,
            marks: ArrayVec::new(),
        }
    }

    /// The same machine once more.
    pub fn copy(&self) -> Machine
        ensures { (text : List ℕ) → comes result text ≡ comes self.now text }
    {
        let mut marks = ArrayVec::new();
        let _ = marks.try_extend_from_slice(self.marks.as_slice());
        Machine {
            state: self.state,
            marks,
        }
    }

    /// Goes on by a character.
    pub fn take(&mut self, c: char)
        ensures { (text : List ℕ) → comes self.new text ≡ comes self.old (c ∷ text) }
    {
        let step = next(self.state, self.marks.as_slice().last().copied(), c);
        self.state = step.state;
        match step.marks {
            Move::Stay => {}
            Move::Open(container) => {
                if self.marks.is_full() {
                    self.state = State::Dead;
                } else {
                    self.marks.push(container);
                }
            }
            Move::Close => {
                if self.marks.pop().is_none() {
                    self.state = State::Dead;
                }
            }
        }
    }

    /// Goes on by the ASCII characters at the beginning of the piece, and says how many these are. It stops where no text can
    /// come any more.
    pub fn take_ascii(&mut self, piece: &[u8]) -> usize
        ensures within { result ≤ length piece.now }
        ensures ascii { list_all is_ascii (take result piece.now) ≡ true }
        ensures comes { (text : List ℕ) → comes self.new text ≡ comes self.old (take result piece.now ++ text) }
    {
        let mut count = 0;
        'bytes: while count < piece.len() && piece[count].is_ascii() && !self.is_dead() {
            self.take(piece[count] as char);
            count += 1;
            count += self.pass(piece.split_at(count).1);
        }
        count
    }

    /// Goes on by characters at the beginning of the piece that open and close nothing, and says how many these are.
    fn pass(&mut self, piece: &[u8]) -> usize
        ensures within { result ≤ length piece.now }
        ensures ascii { list_all is_ascii (take result piece.now) ≡ true }
        ensures comes { (text : List ℕ) → comes self.new text ≡ comes self.old (take result piece.now ++ text) }
    {
        let (state, count) = pass(self.state, piece);
        self.state = state;
        count
    }

    /// Whether no text can come any more.
    pub fn is_dead(&self) -> bool
        ensures { result ≡ is_dead_state self.now.state }
    {
        matches!(self.state, State::Dead)
    }

    /// Whether it stands in a string.
    pub fn is_in_text(&self) -> bool
        ensures { result ≡ is_text_state self.now.state }
    {
        matches!(self.state, State::Text(_))
    }

    /// Goes on by the characters.
    pub fn take_all(&mut self, text: &[char])
        ensures { (more : List ℕ) → comes self.new more ≡ comes self.old (text.now ++ more) }
    {
        'characters: for c in text {
            self.take(*c);
        }
    }

    /// Whether the text may end here.
    pub fn is_whole(&self) -> bool
        ensures { result ≡ comes self.now [] }
    {
        may_end(self.state) && self.marks.is_empty()
    }
}

/// Whether a text may end in the state, where nothing is open.
fn may_end(state: State) -> bool
    ensures { result ≡ may_end state }
{
    matches!(
        state,
        State::After | State::Number(Part::Zero | Part::Integer | Part::Fraction | Part::Exponent)
    )
}
