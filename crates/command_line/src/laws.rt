//! What the definitions say of one another.
ghost use Rattle.std.specs.Prelude.{◌≡◌, List, ℕ};
ghost use Rattle.command_line.specs.Taken.{Asked, IsTaken, IsInRange};

/// Law: words ask for one thing at most.
pub fn one_reading()
    ensures { (words : List (List ℕ)) (a b : Asked) → IsTaken words a → IsTaken words b → a ≡ b }
{}

/// Law: each number that words ask for lies in its range.
pub fn ranges()
    ensures { (words : List (List ℕ)) (asked : Asked) → IsTaken words asked → IsInRange asked }
{}
