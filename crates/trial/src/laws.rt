//! What the definitions say of one another.
ghost use Rattle.std.specs.Prelude.{ℕ, ◌≤◌};
ghost use Rattle.orb_engine.specs.declared.settings.Settings.{Settings};
ghost use Rattle.trial.specs.Recorded.{IsRecorded};

/// Law: whatever the settings, the self-test is a whole recording with as many exchanges as were asked for: each
/// has good heads and a whole body, and no media state is refused. So an engine that runs over it where nothing fails
/// answers `Done` ([`orb_engine::completeness`]).
pub fn is_whole_recording()
    ensures { (s : Settings) (seed count : ℕ) → count ≤ 1000000 → IsRecorded s seed count }
{}
