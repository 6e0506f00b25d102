//! What the definitions say of one another.
ghost use Rattle.std.specs.Prelude.{◌≡◌, ◌≤◌, ◌⊎◌, ℕ, Bool, false, List, length};
ghost use Rattle.orb_io.specs.declared.pulling.TheConstants.{MOST_OF_A_RUN};
ghost use Rattle.computed_type.specs.Computed.{HasType};
ghost use Rattle.computed_type.specs.Answers.{TypeAnswers, is_fault};
ghost use Rattle.computed_type.specs.declared.outcome.TypeOutcome.{TypeOutcome};
ghost use Rattle.computed_type.specs.declared.outcome.TypeOutcome.TheVariants.{Done, ReadFault, WriteFault};

/// Law: fields and a window have one computed type at most.
pub fn one_type()
    ensures { (fields : List (List ℕ × List ℕ)) (window a b : List ℕ) → HasType fields window a → HasType fields window b → a ≡ b }
{}

/// Law: of the same bytes that were read, one answer of [`crate::TypeRun::run`] holds at most, and says that one text was written;
/// of those that tell of a fault, a read fault holds where no other does, and a write fault where none but `Done` does.
pub fn one_answer()
    ensures settled { (read wrote other : List ℕ) (ended : Bool) (a b : TypeOutcome) → is_fault a ≡ false → is_fault b ≡ false
        → TypeAnswers a read ended wrote → TypeAnswers b read ended other → (a ≡ b) × (wrote ≡ other) }
    ensures read_fault { (read wrote other : List ℕ) (ended : Bool) (a : TypeOutcome) → length read ≤ MOST_OF_A_RUN
        → TypeAnswers ReadFault read ended wrote → TypeAnswers a read ended other → a ≡ ReadFault }
    ensures write_fault { (read wrote other : List ℕ) (ended : Bool) (a : TypeOutcome)
        → TypeAnswers WriteFault read ended wrote → TypeAnswers a read ended other → (a ≡ WriteFault) ⊎ (a ≡ Done) }
{}
