//! The classes of characters (ECMA-262 5.1, sections 7.2, 7.3 and 7.6).
//!
//! Nearly all characters of scripts are ASCII, and these have a table before the general
//! category. It is proved to agree with the definition.
ghost use Rattle.std.specs.Prelude.{◌≡◌};
ghost use Rattle.text_stream.specs.Classes.{is_line_terminator, is_white_space_of};
ghost use Rattle.text_stream.specs.Classes.{is_name_start_of, is_further_part_of, is_letter};
ghost use Rattle.text_stream.specs.Classes.{is_mark_digit_or_connector, class_in, class_of};

use ucd_category::GeneralCategory;

/// What a character may be in a script.
#[derive(Clone, Copy, Debug, PartialEq, Eq)]
pub enum CharClass {
    /// A line terminator.
    LineEnd,
    /// White space that ends no line.
    Space,
    /// A character that may begin a name.
    NameStart,
    /// A character that may stand in a name after its first, and can't begin one.
    NamePart,
    /// Any other character.
    Other,
}

use CharClass::{LineEnd as L, NamePart as P, NameStart as N, Other as O, Space as S};

/// The classes of the ASCII characters, 32 in a row.
static ASCII_CLASSES: [CharClass; 128] = [
    O, O, O, O, O, O, O, O, O, S, L, S, S, L, O, O, O, O, O, O, O, O, O, O, O, O, O, O, O, O, O, O,
    S, O, O, O, N, O, O, O, O, O, O, O, O, O, O, O, P, P, P, P, P, P, P, P, P, P, O, O, O, O, O, O,
    O, N, N, N, N, N, N, N, N, N, N, N, N, N, N, N, N, N, N, N, N, N, N, N, N, N, N, O, O, O, O, N,
    O, N, N, N, N, N, N, N, N, N, N, N, N, N, N, N, N, N, N, N, N, N, N, N, N, N, N, O, O, O, O, O,
];

/// The class of the character.
pub fn class_of(c: char) -> CharClass
    ensures { result ≡ class_of c }
{
    if c.is_ascii() {
        ASCII_CLASSES[c as usize]
    } else {
        class_by_category(c)
    }
}

/// The class of the character, by its general category.
#[inline(never)]
#[tactic(auto, unfolding(crate::specs::Classes::class_of))]
fn class_by_category(c: char) -> CharClass
    ensures { result ≡ class_of c }
{
    class_in(GeneralCategory::for_char(c), c)
}

/// The class of a character of the category.
fn class_in(category: GeneralCategory, c: char) -> CharClass
    ensures { result ≡ class_in category c }
{
    if is_line_terminator(c) {
        CharClass::LineEnd
    } else if is_white_space(category, c) {
        CharClass::Space
    } else if is_name_start(category, c) {
        CharClass::NameStart
    } else if is_further_part(category, c) {
        CharClass::NamePart
    } else {
        CharClass::Other
    }
}

/// Section 7.3.
fn is_line_terminator(c: char) -> bool
    ensures { result ≡ is_line_terminator c }
{
    matches!(c, '\n' | '\r' | '\u{2028}' | '\u{2029}')
}

/// Section 7.2.
fn is_white_space(category: GeneralCategory, c: char) -> bool
    ensures { result ≡ is_white_space_of category c }
{
    matches!(c, '\t' | '\u{0B}' | '\u{0C}' | ' ' | '\u{A0}' | '\u{FEFF}')
        || matches!(category, GeneralCategory::SpaceSeparator)
}

/// IdentifierStart of section 7.6, without escapes.
fn is_name_start(category: GeneralCategory, c: char) -> bool
    ensures { result ≡ is_name_start_of category c }
{
    c <= '\u{FFFF}' && (is_letter(category) || matches!(c, '$' | '_'))
}

/// What IdentifierPart of section 7.6 has besides, without escapes.
fn is_further_part(category: GeneralCategory, c: char) -> bool
    ensures { result ≡ is_further_part_of category c }
{
    c <= '\u{FFFF}'
        && (is_mark_digit_or_connector(category) || matches!(c, '\u{200C}' | '\u{200D}'))
}

/// UnicodeLetter of section 7.6.
fn is_letter(category: GeneralCategory) -> bool
    ensures { result ≡ is_letter category }
{
    matches!(
        category,
        GeneralCategory::UppercaseLetter
            | GeneralCategory::LowercaseLetter
            | GeneralCategory::TitlecaseLetter
            | GeneralCategory::ModifierLetter
            | GeneralCategory::OtherLetter
            | GeneralCategory::LetterNumber
    )
}

/// UnicodeCombiningMark, UnicodeDigit and UnicodeConnectorPunctuation of section 7.6.
fn is_mark_digit_or_connector(category: GeneralCategory) -> bool
    ensures { result ≡ is_mark_digit_or_connector category }
{
    matches!(
        category,
        GeneralCategory::NonspacingMark
            | GeneralCategory::SpacingMark
            | GeneralCategory::DecimalNumber
            | GeneralCategory::ConnectorPunctuation
    )
}

#[cfg(test)]
mod tests {
    use super::*;

    const LINE_ENDS: &[char] = &['\n', '\r', '\u{2028}', '\u{2029}'];

    const SPACES: &[char] = &[
        '\t', '\u{0B}', '\u{0C}', ' ', '\u{A0}', '\u{FEFF}', '\u{1680}', '\u{2003}', '\u{202F}',
        '\u{3000}',
    ];

    /// One of each category: Lu, Ll, Lt, Lm, Lo, Nl.
    const NAME_STARTS: &[char] = &[
        '$', '_', 'A', 'z', '\u{C9}', '\u{E9}', '\u{1C5}', '\u{2B0}', '\u{5D0}', '\u{2160}',
    ];

    /// One of each category: Mn, Mc, Nd, Pc.
    const NAME_PARTS: &[char] = &[
        '0', '9', '\u{300}', '\u{903}', '\u{660}', '\u{203F}', '\u{200C}', '\u{200D}',
    ];

    /// Among them NEL, ZWSP, marks that enclose, numbers that are no digits, and a letter and a digit
    /// above U+FFFF.
    const OTHERS: &[char] = &[
        '\0',
        '\u{7F}',
        '\\',
        '#',
        '@',
        '`',
        '\u{85}',
        '\u{180E}',
        '\u{200B}',
        '\u{488}',
        '\u{B2}',
        '\u{2118}',
        '\u{E000}',
        '\u{FFFD}',
        '\u{FFFF}',
        '\u{10400}',
        '\u{1D7CE}',
        '\u{10FFFF}',
    ];

    const ROWS: [(&[char], CharClass); 5] = [
        (LINE_ENDS, CharClass::LineEnd),
        (SPACES, CharClass::Space),
        (NAME_STARTS, CharClass::NameStart),
        (NAME_PARTS, CharClass::NamePart),
        (OTHERS, CharClass::Other),
    ];

    #[test]
    fn characters_are_of_their_classes(rt: HostRuntime) {
        for (characters, class) in ROWS {
            for c in characters {
                assert_eq!(rt; class_of(*c), class, "{c:?}");
            }
        }
    }
}
