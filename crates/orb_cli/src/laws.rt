//! The laws that make the answers of the top calls complete.
ghost use Rattle.std.specs.Prelude.{◌≡◌, ◌≤◌, ℕ, true, List, length, Option, Some, Ok};
ghost use Rattle.orb_io.specs.Told.{Told, Rose};
ghost use Rattle.orb_engine.specs.Recording.{Recording, IsRecording};
ghost use Rattle.orb_engine.specs.Ends as end;
ghost use Rattle.orb_engine.specs.Ends.{stop_of};
ghost use Rattle.orb_engine.specs.Complete.{IsWholeRecording};
ghost use Rattle.command_line.specs.declared.asked.Job.{Job};
ghost use Rattle.command_line.specs.declared.asked.Policy.{Policy};
ghost use Rattle.command_line.specs.Taken.{Text, IsTaken, Judge, Trial, Mime, Har, ComputedType, Serve};
ghost use Rattle.orb_cli.specs.declared.outcome.Outcome.{Outcome};
ghost use Rattle.orb_cli.specs.declared.outcome.ServeOutcome.{ServeOutcome};
ghost use Rattle.orb_cli.specs.Words.{settings_of};
ghost use Rattle.orb_cli.specs.Answer.{Answers, Ran, HasCauses};
ghost use Rattle.orb_cli.specs.Serving.{HasServeCauses, IsAllServed, status_in_log};
ghost use Rattle.orb_cli.specs.ServeWords.{IsServeAnswer};
ghost use Rattle.orb_cli.specs.Complete.{IsComplete, IsCompleteText, IsCompleteTrial, IsCompleteLog, IsCompleteType};
ghost use Rattle.computed_type.specs.Answers.{HasLine};
ghost use Rattle.orb_io.specs.declared.pulling.TheConstants.{MOST_OF_A_RUN};
ghost use Rattle.har_recording.specs.Recorded.{har_of};
ghost use Rattle.orb_cli.specs.Har.{log_settings};
ghost use Rattle.orb_cli.specs.declared.har_word.TheConstants.{MOST_OF_A_LOG};

/// Law: where no count of faults rose, [`crate::run`] answers `Done`, or `NoMemory` with nothing read and written.
///
/// With the words `filter` and `explain` this holds where the source tells its bytes, they are a recording that
/// ends after a whole exchange or is empty, and one run takes so many. `Done` then says that all was read, and
/// that all that is written of the recording was written. With `mime` and `trial` it says that the line was written.
/// With `har` it holds of a log that is no longer than [`crate::MOST_OF_A_LOG`] and whose recording ends so; `NoMemory` may then come
/// with the log read. With `type` it holds of a response whose head isn't refused, and whose bytes one run takes.
pub fn completeness()
    ensures recordings { (words : List (List ℕ)) (job : Job) (policy : Policy) (limit : ℕ) (bytes : List ℕ) (r : Recording)
        (left' : Option (List ℕ)) (wrote : List ℕ) (source source' sink sink' : ℕ) (answer : Outcome)
        → IsTaken words (Judge job policy limit) → IsWholeRecording (settings_of job policy limit) bytes r
        → Ran (Answers words) (Some bytes) left' answer wrote
        → HasCauses source source' sink sink' answer
        → ¬ (Rose source source') → ¬ (Rose sink sink')
        → IsComplete (settings_of job policy limit) bytes r left' wrote answer }
    ensures texts { (words : List (List ℕ)) (text : List ℕ) (left left' : Option (List ℕ)) (wrote : List ℕ)
        (source source' sink sink' : ℕ) (answer : Outcome)
        → IsTaken words (Mime text) → Ran (Answers words) left left' answer wrote
        → HasCauses source source' sink sink' answer
        → ¬ (Rose sink sink')
        → IsCompleteText text wrote answer }
    ensures trials { (words : List (List ℕ)) (seed count : ℕ) (left left' : Option (List ℕ)) (wrote : List ℕ)
        (source source' sink sink' : ℕ) (answer : Outcome)
        → IsTaken words (Trial seed count) → Ran (Answers words) left left' answer wrote
        → HasCauses source source' sink sink' answer
        → ¬ (Rose sink sink')
        → IsCompleteTrial seed count wrote answer }
    ensures logs { (words : List (List ℕ)) (bytes recording : List ℕ) (r : Recording)
        (left' : Option (List ℕ)) (wrote : List ℕ) (source source' sink sink' : ℕ) (answer : Outcome)
        → IsTaken words Har → length bytes ≤ MOST_OF_A_LOG → har_of bytes ≡ Ok recording
        → IsRecording log_settings recording r → stop_of r true ≡ end.Done
        → Ran (Answers words) (Some bytes) left' answer wrote
        → HasCauses source source' sink sink' answer
        → ¬ (Rose source source') → ¬ (Rose sink sink')
        → IsCompleteLog r left' wrote answer }
    ensures types { (words : List (List ℕ)) (bytes line : List ℕ)
        (left' : Option (List ℕ)) (wrote : List ℕ) (source source' sink sink' : ℕ) (answer : Outcome)
        → IsTaken words ComputedType → HasLine bytes (λ l. l ≡ line) → length bytes ≤ MOST_OF_A_RUN
        → Ran (Answers words) (Some bytes) left' answer wrote
        → HasCauses source source' sink sink' answer
        → ¬ (Rose source source') → ¬ (Rose sink sink')
        → IsCompleteType bytes line left' wrote answer }
{}

/// Law: where no count of faults rose, [`crate::serve`] answers words that ask for it with `Done` and all connections
/// served and logged, or with `NoMemory` and nothing done.
pub fn serving_completeness()
    ensures { (words : List Text) (address : Text) (count : ℕ)
        (handed handed' : Option ℕ) (put put' : Told)
        (bind bind' accept accept' log log' : ℕ) (answer : ServeOutcome)
        → IsTaken words (Serve address count)
        → IsServeAnswer Serve status_in_log words handed handed' put put' answer
        → HasServeCauses bind bind' accept accept' log log' answer
        → ¬ (Rose bind bind') → ¬ (Rose accept accept') → ¬ (Rose log log')
        → IsAllServed status_in_log count handed handed' put put' answer }
{}
