//! What the definitions say of one another.
ghost use Rattle.std.specs.Prelude.{◌≡◌, List, ℕ, Ok};
ghost use Rattle.har_recording.specs.Recorded.{har_of};
ghost use Rattle.har_recording.specs.Whole.{AreSent};

/// Law: what a log stands for is whole exchanges, of which none has a media id.
pub fn recordings_are_whole()
    ensures { (text recording : List ℕ) → har_of text ≡ Ok recording → AreSent recording }
{}
