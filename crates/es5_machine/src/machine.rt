//! The machine: a control state and a stack of frames.
ghost use Rattle.std.specs.Prelude.{◌≡◌, ◌++◌, [], ◌∷◌, List, length, reverse, IsTrue, ◌↔◌, Bool, nat_lt, if◌then◌else◌};
ghost use Rattle.es5_lexer.specs.Suits.{Suits};
ghost use Rattle.es5_lexer.specs.declared.tokens.Goal.TheVariants.{Div};
ghost use Rattle.es5_lexer.specs.declared.tokens.Punct.TheVariants.{Slash};
ghost use Rattle.es5_lexer.specs.declared.tokens.Lexeme.{Lexeme};
ghost use Rattle.es5_trees.specs.Words.{lexeme, mark};
ghost use Rattle.es5_trees.specs.Programs.{IsProgram, IsViable};
ghost use Rattle.es5_machine.specs.Reading.{HasRead, IsDead};
ghost use Rattle.es5_machine.specs.Steps as steps;
ghost use Rattle.es5_machine.specs.declared.states.Frame.{Frame};

use crate::semicolons::{before, goal_of, leaves, may_end};
use crate::statements::consume;
use crate::states::{Answer, Control, Frame};
use arrayvec::ArrayVec;
use es5_lexer::{Goal, Token};
use std::marker::Model;

/// Reads tokens, and says whether they are a script.
#[derive(Drop)]
pub struct Machine {
    control: Control,
    frames: ArrayVec<Frame, 1024>,
}

impl Model for Machine {
    ghost use Rattle.std.specs.Prelude.{reverse};
    ghost use Rattle.es5_machine.specs.Steps.{Config};

    ghost Value = { Config };

    ghost view = { λ m. record { control = m.control; frames = reverse m.frames.items } };
}

impl Machine {
    /// A machine that has read nothing.
    pub fn new() -> Machine
        ensures { HasRead result [] }
    {
        Machine {
            control: Control::Between,
            frames: ArrayVec::new(),
        }
    }

    /// How a slash that comes next is read (section 7): as division exactly where one may come, with
    /// a line before it or without, and else as the start of a regular expression.
    pub fn goal(&self) -> Goal
        ensures suits { (m tokens : List Lexeme) → HasRead self.now m → IsProgram tokens → Suits m result tokens }
        ensures division { (m : List Lexeme) (newline : Bool) → HasRead self.now m → (result ≡ Div) ↔ IsViable (m ++ (mark Slash newline ∷ [])) }
    {
        goal_of(self.control())
    }

    /// Reads a token, with whether a line ends before it. Once dead, the machine stays so.
    pub fn step(&mut self, token: Token, newline: bool)
        ensures reads { (m : List Lexeme) → HasRead self.old m → HasRead self.new (m ++ (lexeme token newline ∷ [])) }
        ensures dead { IsDead self.old → IsDead self.new }
    {
        self.read(token, newline)
    }

    /// Whether nothing can save the list: no program of at most 1,024 open units at these tokens begins
    /// with them.
    pub fn is_dead(&self) -> bool
        ensures state { IsTrue result ↔ IsDead self.now }
        ensures exact { (m : List Lexeme) → HasRead self.now m → (IsTrue result ↔ (IsViable m → ⊥)) }
        ensures hopeless { IsTrue result → (m w : List Lexeme) → HasRead self.now m → IsProgram (m ++ w) → ⊥ }
    {
        is_dead(self.control())
    }

    /// Whether the machine would be alive after this token.
    pub fn would_live(&self, token: Token, newline: bool) -> bool
        ensures state { IsTrue result ↔ (IsDead (steps.step self.now (lexeme token newline)) → ⊥) }
        ensures exact { (m : List Lexeme) → HasRead self.now m → (IsTrue result ↔ IsViable (m ++ (lexeme token newline ∷ []))) }
    {
        !is_dead(self.control_after(token, newline))
    }

    /// Whether the tokens read are a program that nests at most 1,024 deep.
    pub fn finish(&self) -> bool
        ensures { (m : List Lexeme) → HasRead self.now m → (IsTrue result ↔ IsProgram m) }
    {
        self.accepts()
    }

    fn control(&self) -> Control
        ensures { result ≡ self.now.control }
    {
        self.control
    }

    /// Whether the list may end here.
    fn accepts(&self) -> bool
        ensures { result ≡ steps.accepts self.now }
    {
        may_end(self.control) && without_branches(self.frames.as_slice()).is_empty()
    }

    fn read(&mut self, token: Token, newline: bool)
        ensures { self.new ≡ steps.step self.old (lexeme token newline) }
    {
        let control = before(self.control, self.top(), token, newline);
        self.settle(control, token);
        let answer = consume(control, self.top(), token, newline);
        self.apply(answer);
    }

    /// Where a token leads.
    fn control_after(&self, token: Token, newline: bool) -> Control
        ensures { result ≡ (steps.step self.now (lexeme token newline)).control }
    {
        let control = before(self.control, self.top(), token, newline);
        let frames = settled(control, self.frames.as_slice(), token);
        let answer = consume(control, top_of(frames), token, newline);
        control_of(answer, frames.len())
    }

    /// The frame on top.
    fn top(&self) -> Option<Frame>
        ensures { result ≡ steps.top_of self.now.frames }
    {
        top_of(self.frames.as_slice())
    }

    /// Goes to the state, and takes off the branches that end before the token.
    fn settle(&mut self, control: Control, token: Token)
        ensures { self.new ≡ steps.at control (steps.settled control self.old.frames token) }
    {
        self.control = control;
        if leaves(control, token) {
            self.close_branches();
        }
    }

    fn close_branches(&mut self)
        ensures { self.new ≡ steps.at self.old.control (steps.without_branches self.old.frames) }
    {
        'branches: while let Some(Frame::Branch) = self.top() {
            self.pop(self.control);
        }
    }

    /// Does what the answer says.
    fn apply(&mut self, answer: Answer)
        ensures { self.new ≡ steps.moved answer self.old.frames }
    {
        match answer {
            Answer::Refuse => self.control = Control::Dead,
            Answer::Go(control) => self.control = control,
            Answer::Push(frame, control) => self.push(frame, control),
            Answer::Pop(control) => self.pop(control),
            Answer::Swap(frame, control) => self.swap(frame, control),
        }
    }

    fn push(&mut self, frame: Frame, control: Control)
        ensures { self.new ≡ steps.moved (Answer.Push frame control) self.old.frames }
    {
        if self.frames.is_full() {
            self.control = Control::Dead;
        } else {
            self.frames.push(frame);
            self.control = control;
        }
    }

    fn pop(&mut self, control: Control)
        ensures { self.new ≡ steps.moved (Answer.Pop control) self.old.frames }
    {
        self.frames.pop();
        self.control = control;
    }

    fn swap(&mut self, frame: Frame, control: Control)
        ensures { self.new ≡ steps.moved (Answer.Swap frame control) self.old.frames }
    {
        // Known here: the stack has no more than its room.
        let _frames = self.frames.as_slice();
        self.frames.pop();
        self.frames.push(frame);
        self.control = control;
    }
}

/// The last of the frames.
fn top_of(frames: &[Frame]) -> Option<Frame>
    ensures { result ≡ steps.top_of (reverse frames.now) }
{
    frames.last().copied()
}

/// The frames without the branches at their end.
fn without_branches(frames: &[Frame]) -> &[Frame]
    ensures { reverse result.now ≡ steps.without_branches (reverse frames.now) }
{
    let mut rest = frames;
    'branches: while let Some((Frame::Branch, others)) = rest.split_last() {
        rest = others;
    }
    rest
}

/// The frames without the branches that end before the token.
fn settled(control: Control, frames: &[Frame], token: Token) -> &[Frame]
    ensures { reverse result.now ≡ steps.settled control (reverse frames.now) token }
{
    if leaves(control, token) {
        without_branches(frames)
    } else {
        frames
    }
}

/// Where an answer leads over so many frames.
fn control_of(answer: Answer, depth: usize) -> Control
    ensures { (frames : List Frame) → length frames ≡ depth → (steps.moved answer frames).control ≡ result }
{
    match answer {
        Answer::Refuse => Control::Dead,
        Answer::Go(control) | Answer::Pop(control) | Answer::Swap(_, control) => control,
        Answer::Push(_, control) => pushed(control, depth),
    }
}

fn pushed(control: Control, depth: usize) -> Control
    ensures { result ≡ (if nat_lt depth 1024 then control else Control.Dead) }
{
    if depth < 1024 { control } else { Control::Dead }
}

fn is_dead(control: Control) -> bool
    ensures { IsTrue result ↔ (control ≡ Control.Dead) }
{
    matches!(control, Control::Dead)
}
