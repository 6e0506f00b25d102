//! Laws of the definitions.
ghost use Rattle.std.specs.Prelude.{Bool, List, [], ◌↔◌};
ghost use Rattle.es5_lexer.specs.declared.tokens.Lexeme.{Lexeme};
ghost use Rattle.es5_trees.specs.Endings.{Ending};
ghost use Rattle.es5_trees.specs.Programs.{IsProgram};
ghost use Rattle.es5_trees.specs.Chains.{SpellsLevels, SpellsChain};

/// A program may be empty.
pub fn empty_program()
    ensures { IsProgram [] }
{}

/// The levels of binary operators spell the same tokens as one flat chain of operands, with the
/// operator `in` and without it, and a tree ends as the chain does.
pub fn levels_are_chains()
    ensures { (with_in : Bool) (ending : Ending) (tokens rest : List Lexeme) → SpellsLevels with_in ending tokens rest ↔ SpellsChain with_in ending tokens rest }
{}
