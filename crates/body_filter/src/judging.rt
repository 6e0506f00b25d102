//! How far a response is judged.
ghost use Rattle.std.specs.Prelude.{◌≡◌, ◌++◌, Bool, true, false, List, ℕ};
ghost use Rattle.response_rules.specs.Heads.{Case};
ghost use Rattle.response_rules.specs.Settled.{is_sent, is_hopeless};
ghost use Rattle.response_rules.specs.Reads.{HasRead as DeciderHasRead, progress_of, is_script_dead};
ghost use Rattle.body_filter.specs.Judged.{judged};

use response_rules::{Decider, Progress};

/// How far a response is judged.
#[derive(Clone, Copy)]
pub(crate) enum Judgement {
    /// It isn't known whether it may go out.
    Open,
    /// It may.
    Allowed,
    /// It may not.
    Blocked,
}

/// The judgement on a response so far.
pub(crate) fn judge(decider: &Decider) -> Judgement
    ensures { (h : Case) (m : List ℕ) → DeciderHasRead decider.now h m
        → result ≡ judged (is_sent h m) (is_hopeless h m (is_script_dead decider.now)) }
{
    judged_by(decider.progress(), decider.is_hopeless())
}

/// Reads the next piece of the body, and gives the judgement then.
pub(crate) fn read_on(decider: &mut Decider, piece: &[u8]) -> Judgement
    ensures reads { (h : Case) (m : List ℕ) → DeciderHasRead decider.old h m → DeciderHasRead decider.new h (m ++ piece.now) }
    ensures gives { (h : Case) (m : List ℕ) → DeciderHasRead decider.old h m
        → result ≡ judged (is_sent h (m ++ piece.now)) (is_hopeless h (m ++ piece.now) (is_script_dead decider.new)) }
    ensures hopeless { (h : Case) (m : List ℕ) → DeciderHasRead decider.old h m
        → is_hopeless h m (is_script_dead decider.old) ≡ true
        → is_hopeless h (m ++ piece.now) (is_script_dead decider.new) ≡ true }
{
    let progress = decider.feed(piece);
    judged_by(progress, decider.is_hopeless())
}

fn judged_by(progress: Progress, hopeless: bool) -> Judgement
    ensures { (sent : Bool) → progress ≡ progress_of sent → result ≡ judged sent hopeless }
{
    match progress {
        Progress::Allowed => Judgement::Allowed,
        Progress::Open => blocked_if(hopeless),
    }
}

fn blocked_if(blocked: bool) -> Judgement
    ensures { result ≡ judged false blocked }
{
    if blocked {
        Judgement::Blocked
    } else {
        Judgement::Open
    }
}
