//! Parts of a text, after a place or counted from its end.
ghost use Rattle.std.specs.Prelude.{◌≡◌, ◌≤◌, drop, length};
ghost use Rattle.es5_lexer.specs.Reading.{last};

/// So many characters, the last ones of the text.
pub(crate) fn last(text: &[char], count: usize) -> &[char]
    requires { count ≤ length text.now }
    ensures { result.now ≡ last count text.now }
{
    &text[text.len() - count..]
}

/// The text from the place on.
pub(crate) fn after(text: &[char], place: usize) -> &[char]
    requires { place ≤ length text.now }
    ensures { result.now ≡ drop place text.now }
{
    &text[place..]
}
