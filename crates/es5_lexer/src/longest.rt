//! The longest token at the beginning of a text (ECMA-262 5.1, section 7).
ghost use Rattle.std.specs.Prelude.{◌≡◌, length};
ghost use Rattle.es5_lexer.specs.Reading.{longest_token, better};
ghost use Rattle.es5_lexer.specs.Places.{ended};

use crate::places::{Kind, Place};
use crate::tokens::Goal;

/// A token at the beginning of a text.
#[derive(Clone, Copy)]
pub(crate) struct Longest {
    /// What it is.
    pub(crate) kind: Kind,
    /// How many characters of the text stand after it.
    pub(crate) left: usize,
}

/// The longest token at the beginning of the text, a slash read by the goal.
#[tactic(auto, using(crate::proofs::LongestLemmas::dead_found))]
pub(crate) fn longest_token(goal: Goal, text: &[char]) -> Option<Longest>
    ensures { result ≡ longest_token goal text.now }
{
    let [c, others @ ..] = text else { return None };
    let mut place = Place::first(goal, *c);
    let mut rest = others;
    let mut best = better(place, rest, None);
    'token: while let [c, others @ ..] = rest
        && !place.is_dead()
    {
        place = place.next(*c);
        rest = others;
        best = better(place, rest, best);
    }
    best
}

/// The longest token so far, where the rest stands after the place.
fn better(place: Place, rest: &[char], best: Option<Longest>) -> Option<Longest>
    ensures { result ≡ better (ended place) rest.now best }
{
    match place.ended() {
        Some(kind) => Some(Longest {
            kind,
            left: rest.len(),
        }),
        None => best,
    }
}
