//! A body read as text while it comes: whether it is a script, and whether it is JSON.
ghost use Rattle.std.specs.Prelude.{◌≡◌, ◌++◌, [], ℕ, List, true, false, IsTrue};
ghost use Rattle.es5_machine.specs.ScriptTests.{is_dead};
ghost use Rattle.response_rules.specs.Texts.{is_script};
ghost use Rattle.response_rules.specs.Reads.{TextHasRead, text_rule};

use crate::rules::Rule;
use es5_machine::ScriptTest;
use json_recogniser::JsonTest;

/// The two tests of a text. That of JSON isn't fed once no script begins so: it can't change the rule then.
#[derive(Drop)]
pub(crate) struct TextTest {
    script: ScriptTest,
    json: JsonTest,
}

impl TextTest {
    /// Tests that have read nothing.
    pub(crate) fn new() -> TextTest
        ensures { TextHasRead result [] }
    {
        TextTest {
            script: ScriptTest::new(),
            json: JsonTest::new(),
        }
    }

    /// Reads the next piece.
    pub(crate) fn feed(&mut self, piece: &[u8])
        ensures reads { (m : List ℕ) → TextHasRead self.old m → TextHasRead self.new (m ++ piece.now) }
        ensures dead { is_dead self.old.script ≡ true → is_dead self.new.script ≡ true }
    {
        self.script.feed(piece);
        if !self.script.is_dead() {
            self.json.feed(piece);
        }
    }

    /// Whether no script begins so.
    pub(crate) fn is_dead(&self) -> bool
        ensures value { result ≡ is_dead self.now.script }
        ensures never { (m more : List ℕ) → TextHasRead self.now m → IsTrue result → is_script (m ++ more) ≡ false }
    {
        self.script.is_dead()
    }

    /// The rule of a body that is this text. What the tests have read then, nothing says.
    pub(crate) fn finish(&mut self) -> Rule
        ensures { (m : List ℕ) → TextHasRead self.old m → result ≡ text_rule m }
    {
        if !self.script.finish() {
            Rule::NotScript
        } else if self.json.finish() {
            Rule::Json
        } else {
            Rule::Script
        }
    }
}
