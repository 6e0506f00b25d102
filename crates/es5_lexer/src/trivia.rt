//! White space, line terminators and comments (ECMA-262 5.1, sections 7.2, 7.3 and 7.4).
ghost use Rattle.std.specs.Prelude.{◌≡◌, ◌<◌, ◌≤◌, Some, None, MatchOption, IfSome, length, false};
ghost use Rattle.es5_lexer.specs.Reading.{leading_trivium, comment, past_line, block_comment, Passes};

use crate::characters::{is_line_end, is_space};

/// White space, a line terminator or a comment at the beginning of a text.
#[derive(Clone, Copy)]
pub(crate) struct Trivium {
    /// Whether it holds a line terminator.
    pub(crate) ends_line: bool,
    /// How many characters of the text stand after it.
    pub(crate) left: usize,
}

/// What stands at the beginning of the text, if it is no token.
pub(crate) fn leading_trivium(text: &[char]) -> Option<Trivium>
    ensures value { result ≡ leading_trivium text.now }
{
    let [c, rest @ ..] = text else { return None };
    if is_line_end(*c) {
        Some(Trivium {
            ends_line: true,
            left: rest.len(),
        })
    } else if is_space(*c) {
        Some(Trivium {
            ends_line: false,
            left: rest.len(),
        })
    } else if *c == '/' {
        comment(rest)
    } else {
        None
    }
}

/// A comment, after its first `/`.
fn comment(text: &[char]) -> Option<Trivium>
    ensures { result ≡ comment text.now }
{
    let [c, rest @ ..] = text else { return None };
    if *c == '/' {
        Some(Trivium {
            ends_line: false,
            left: past_line(rest).len(),
        })
    } else if *c == '*' {
        block_comment(rest)
    } else {
        None
    }
}

/// After the rest of a line.
fn past_line(text: &[char]) -> &[char]
    ensures { result.now ≡ past_line text.now }
{
    let mut rest = text;
    'line: while let [c, others @ ..] = rest
        && !is_line_end(*c)
    {
        rest = others;
    }
    rest
}

/// A comment of several lines, after its `/*`.
fn block_comment(text: &[char]) -> Option<Trivium>
    ensures { result ≡ block_comment false false text.now }
{
    let mut rest = text;
    let mut star = false;
    let mut ends_line = false;
    'comment: while let [c, others @ ..] = rest {
        if star && *c == '/' {
            return Some(Trivium {
                ends_line,
                left: others.len(),
            });
        }
        star = *c == '*';
        if is_line_end(*c) {
            ends_line = true;
        }
        rest = others;
    }
    None
}
