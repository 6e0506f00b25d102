//! Laws of the definitions of a recording, and of runs over whole ones.
ghost use Rattle.std.specs.Prelude.{◌≡◌, ◌≢◌, ◌↔◌, ℕ, Bool, true, false, List, [], ◌++◌, Option, Some};
ghost use Rattle.orb_io.specs.Told.{IsPrefix, Rose};
ghost use Rattle.response_rules.specs.declared.rules.Rule.{Rule};
ghost use Rattle.orb_engine.specs.declared.settings.Settings.{Settings};
ghost use Rattle.orb_engine.specs.declared.engine.Engine.{Engine};
ghost use Rattle.orb_engine.specs.declared.outcome.EngineOutcome.{EngineOutcome};
ghost use Rattle.orb_engine.specs.Recording.{Exchange, Recording, IsRecording, is_open};
ghost use Rattle.orb_engine.specs.Ends.{Open, stop_of};
ghost use Rattle.orb_engine.specs.Outputs.{output_of};
ghost use Rattle.orb_engine.specs.Counts.{rules_of};
ghost use Rattle.orb_engine.specs.Refusals.{IsAnsweredAs};
ghost use Rattle.orb_engine.specs.Runs.{Ran, RunCauses};
ghost use Rattle.orb_engine.specs.Complete.{IsWholeRecording, IsAll, IsComplete};

/// Law: bytes are one recording at most, in all that is answered of it: its whole exchanges, where it ends,
/// what is written of it, and the rules that decide its exchanges.
pub fn one_recording()
    ensures exchanges { (s : Settings) (m : List ℕ) (a b : Recording)
        → IsRecording s m a → IsRecording s m b → a.exchanges ≡ b.exchanges }
    ensures stop { (s : Settings) (m : List ℕ) (a b : Recording)
        → IsRecording s m a → IsRecording s m b
        → (ended : Bool) → stop_of a ended ≡ stop_of b ended }
    ensures output { (s : Settings) (m : List ℕ) (a b : Recording)
        → IsRecording s m a → IsRecording s m b
        → (ended : Bool) → output_of s a ended ≡ output_of s b ended }
    ensures rules { (s : Settings) (m : List ℕ) (a b : Recording)
        → IsRecording s m a → IsRecording s m b
        → (ended : Bool) → rules_of s a ended ≡ rules_of s b ended }
{}

/// Law: bytes that end in a refusal end in it whatever follows them, and what is written of them stays. Those
/// that end in none are open: they may go on to a further exchange.
pub fn refusal_stays()
    ensures opens { (a : Recording)
        → (stop_of a false ≡ Open) ↔ (is_open a.tail ≡ true) }
    ensures stands { (s : Settings) (m more : List ℕ) (a : Recording)
        → IsRecording s m a → stop_of a false ≢ Open
        → (b : Recording) × IsRecording s (m ++ more) b × IsAnsweredAs s a b }
    ensures alone { (s : Settings) (m more : List ℕ) (a b : Recording)
        → IsRecording s m a → stop_of a false ≢ Open
        → IsRecording s (m ++ more) b → IsAnsweredAs s a b }
{}

/// Law: what is written of bytes begins what is written of all longer ones, and of the same bytes where the
/// input has ended. The whole exchanges, and the rules that decide them, begin theirs.
pub fn output_grows()
    ensures longer { (s : Settings) (m more : List ℕ) (a b : Recording)
        → IsRecording s m a → IsRecording s (m ++ more) b
        → (ended : Bool) → IsPrefix (output_of s a false) (output_of s b ended) }
    ensures ends { (s : Settings) (a : Recording)
        → IsPrefix (output_of s a false) (output_of s a true) }
    ensures exchanges { (s : Settings) (m more : List ℕ) (a b : Recording)
        → IsRecording s m a → IsRecording s (m ++ more) b
        → (others : List Exchange) × (b.exchanges ≡ a.exchanges ++ others) }
    ensures rules { (s : Settings) (m more : List ℕ) (a b : Recording)
        → IsRecording s m a → IsRecording s (m ++ more) b
        → (ended : Bool) → (others : List Rule) × (rules_of s b ended ≡ rules_of s a false ++ others) }
{}

/// Law: where no count of faults rose, [`crate::Engine::run`] and [`crate::Engine::run_link`] answer `Done` for
/// a recording that ends after a whole exchange or is empty, if the source tells its bytes and one run takes so
/// many. All was read then, and all that is written of the recording was written.
///
/// After it stands that first bytes of such a recording are open until they are all of it.
pub fn completeness()
    ensures prefixes { (s : Settings) (read rest : List ℕ) (r first : Recording) (ended : Bool)
        → IsWholeRecording s (read ++ rest) r → IsRecording s read first
        → (ended ≡ true → rest ≡ []) → stop_of first ended ≢ Open
        → IsAll s r first ended rest }
    ensures runs { (o : EngineOutcome) (e : Engine) (s : Settings) (bytes : List ℕ) (r : Recording)
        (left' : Option (List ℕ)) (given : List ℕ) (source source' sink sink' : ℕ)
        → IsWholeRecording s bytes r
        → Ran o e s (Some bytes) left' given
        → RunCauses o source source' sink sink'
        → ¬ (Rose source source') → ¬ (Rose sink sink')
        → IsComplete o s r left' given }
{}
