//! Where a semicolon is left out, where the first branch of an `if` ends, and how a slash is read
//! (ECMA-262 5.1, sections 7, 7.9.1 and 12.5).
ghost use Rattle.std.specs.Prelude.{◌≡◌};
ghost use Rattle.es5_machine.specs.Steps as steps;

use crate::classes::{is_else, is_finally, is_held, is_right_brace};
use crate::statements::consume;
use crate::states::{Answer, Control, Ended, Ends, Frame};
use es5_lexer::{Goal, Token};

/// What ended where the statement at hand is complete but for its semicolon.
pub(crate) fn ended(control: Control) -> Option<Ended>
    ensures { result ≡ steps.ended control }
{
    match control {
        Control::AfterLeft(_, Ends::BySemicolon | Ends::ByDeclaration) => Some(Ended::ByOperand),
        Control::AfterName => Some(Ended::ByOperand),
        Control::AfterUpdate(Ends::BySemicolon | Ends::ByDeclaration) => Some(Ended::ByUpdate),
        Control::Bound(Ends::ByDeclaration) => Some(Ended::ByName),
        Control::AtEnd | Control::AfterJump | Control::AfterReturn => Some(Ended::ByWord),
        _ => None,
    }
}

/// Whether a semicolon may be left out before the token.
fn omits(ended: Option<Ended>, token: Token, newline: bool) -> bool
    ensures { result ≡ steps.omits ended token newline }
{
    match ended {
        Some(ended) => is_right_brace(token) || (newline && !is_held(ended, token)),
        None => false,
    }
}

fn refuses(answer: Answer) -> bool
    ensures { result ≡ steps.refuses answer }
{
    matches!(answer, Answer::Refuse)
}

/// Asked for few tokens, so it stays out of the way of the others.
#[inline(never)]
fn is_refused(control: Control, top: Option<Frame>, token: Token, newline: bool) -> bool
    ensures { result ≡ steps.refuses (steps.consume control top token newline) }
{
    refuses(consume(control, top, token, newline))
}

/// Where the machine stands before the token: after the statement, where its semicolon is left out.
pub(crate) fn before(control: Control, top: Option<Frame>, token: Token, newline: bool) -> Control
    ensures { result ≡ steps.before control top token newline }
{
    if omits(ended(control), token, newline) && is_refused(control, top, token, newline) {
        Control::Between
    } else {
        control
    }
}

/// Whether the first branches of `if` statements on top end before the token: no `else` is theirs.
pub(crate) fn leaves(control: Control, token: Token) -> bool
    ensures { result ≡ steps.leaves control token }
{
    match control {
        Control::Between => !is_else(token),
        Control::AfterCatch => !(is_else(token) || is_finally(token)),
        _ => false,
    }
}

/// Whether the list may end here, but for branches that are open.
pub(crate) fn may_end(control: Control) -> bool
    ensures { result ≡ steps.may_end control }
{
    match control {
        Control::Between | Control::AfterCatch => true,
        _ => has_ended(ended(control)),
    }
}

fn has_ended(ended: Option<Ended>) -> bool
    ensures { result ≡ steps.has_ended ended }
{
    ended.is_some()
}

/// How a slash that comes next is read: as division where an operand has ended.
pub(crate) fn goal_of(control: Control) -> Goal
    ensures { result ≡ steps.goal_of control }
{
    match control {
        Control::AfterLeft(_, _) | Control::AfterName | Control::AfterUpdate(_) => Goal::Div,
        _ => Goal::RegExp,
    }
}
