//! Which texts are scripts, character by character.
ghost use Rattle.std.specs.Prelude.{◌≡◌, ◌≤◌, ◌++◌, ◌∷◌, [], ℕ, List, true, IsTrue, ◌↔◌, length, take};
ghost use Rattle.std.specs.List.{list_all};
ghost use Rattle.std.specs.Char.{is_ascii};
ghost use Rattle.es5_lexer.specs.declared.tokens.Lexeme.{Lexeme};
ghost use Rattle.es5_machine.specs.Reading.{HasRead as MachineHasRead};

use crate::machine::Machine;
use arrayvec::ArrayVec;
use es5_lexer::{Goal, Lexeme, Lexer};

/// Reads a text a character at a time, and says whether it is a script.
///
/// The machine says before each character how a slash that comes next is read, and the lexer asks no more of it: so
/// the goals that it is offered are those under which a program has its tokens.
#[derive(Drop)]
pub(crate) struct ScriptReader {
    lexer: Lexer,
    machine: Machine,
    // How the machine has a slash read that comes next.
    goal: Goal,
    // Nothing can make a script of the text; it isn't read any more.
    dead: bool,
}

impl ScriptReader {
    ghost use Rattle.es5_machine.specs.Scripts.{IsScriptText};
    ghost use Rattle.es5_machine.specs.ScriptReading.{ReaderHasRead};

    /// Before the first character.
    pub(crate) fn new() -> ScriptReader
        ensures { ReaderHasRead result [] }
    {
        let machine = Machine::new();
        ScriptReader {
            lexer: Lexer::new(),
            goal: machine.goal(),
            machine,
            dead: false,
        }
    }

    /// Whether nothing can make a script of the text.
    pub(crate) fn is_dead(&self) -> bool
        ensures { result ≡ self.now.dead }
    {
        self.dead
    }

    /// Reads the ASCII characters at the beginning of the piece that neither end a token nor begin one, and says how many
    /// these are.
    #[inline]
    pub(crate) fn feed_run(&mut self, piece: &[u8]) -> usize
        ensures within { result ≤ length piece.now }
        ensures ascii { list_all is_ascii (take result piece.now) ≡ true }
        ensures reads { (u : List ℕ) → ReaderHasRead self.old u → ReaderHasRead self.new (u ++ take result piece.now) }
        ensures dead { self.new.dead ≡ self.old.dead }
    {
        self.lexer.feed_run(piece)
    }

    /// Reads one character more.
    pub(crate) fn feed_char(&mut self, c: char)
        ensures reads { (u : List ℕ) → ReaderHasRead self.old u → ReaderHasRead self.new (u ++ c ∷ []) }
        ensures dead { self.old.dead ≡ true → self.new.dead ≡ true }
    {
        if !self.dead {
            self.read(c);
            self.settle();
        }
    }

    /// Reads these characters.
    pub(crate) fn feed_all(&mut self, characters: &[char])
        ensures reads { (u : List ℕ) → ReaderHasRead self.old u → ReaderHasRead self.new (u ++ characters.now) }
        ensures dead { self.old.dead ≡ true → self.new.dead ≡ true }
    {
        for c in characters {
            self.feed_char(*c);
        }
    }

    /// Whether the text is a script.
    pub(crate) fn finish(&mut self) -> bool
        ensures { (u : List ℕ) → ReaderHasRead self.old u → (IsTrue result ↔ IsScriptText u) }
    {
        if self.dead {
            return false;
        }
        let mut tokens = ArrayVec::new();
        let whole = self.lexer.finish(self.goal, &mut tokens);
        step_all(&mut self.machine, tokens.as_slice());
        whole && self.machine.finish()
    }
}

impl ScriptReader {
    ghost use Rattle.es5_machine.specs.ScriptReading.{Offers, Reads, ReaderHasRead as HasReadText};

    /// Reads one character, with the goal of the machine, and gives the machine the token that has ended.
    fn read(&mut self, c: char)
        ensures { (u : List ℕ) → Reads self.old u → Reads self.new (u ++ c ∷ []) }
    {
        let mut tokens = ArrayVec::new();
        self.lexer.feed_char(self.goal, c, &mut tokens);
        self.take(tokens.as_slice());
    }

    /// Gives the machine these tokens.
    fn take(&mut self, tokens: &[Lexeme])
        ensures reads { (given : List Lexeme) → Offers self.old given → Offers self.new (given ++ tokens.now) }
        ensures lexer { self.new.lexer ≡ self.old.lexer }
    {
        if !tokens.is_empty() {
            step_all(&mut self.machine, tokens);
            self.goal = self.machine.goal();
        }
    }

    /// Sees whether nothing can make a script of what was read.
    fn settle(&mut self)
        ensures { (u : List ℕ) → Reads self.old u → HasReadText self.new u }
    {
        self.dead = self.lexer.is_dead() || self.machine.is_dead();
    }
}

/// Gives the machine these tokens.
fn step_all(machine: &mut Machine, tokens: &[Lexeme])
    ensures { (given : List Lexeme) → MachineHasRead machine.old given → MachineHasRead machine.new (given ++ tokens.now) }
{
    for x in tokens {
        machine.step(x.token, x.newline);
    }
}
