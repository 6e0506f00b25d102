//! The sets of characters that the lexical grammar names (ECMA-262 5.1, section 7).
ghost use Rattle.std.specs.Prelude.{◌≡◌, ◌<◌, IsTrue};
ghost use Rattle.std.specs.Char.{digit_value};
ghost use Rattle.es5_lexer.specs.Characters.{is_line_end, is_space, is_start, is_part};
ghost use Rattle.es5_lexer.specs.Characters.{is_digit, is_hex, is_octal, is_escape_of, escaped, code_of, char_of};
ghost use Rattle.es5_lexer.specs.Numbers.{is_nonzero};

use text_stream::{CharClass, class_of};

/// LineTerminator (section 7.3).
pub(crate) fn is_line_end(c: char) -> bool
    ensures { result ≡ is_line_end c }
{
    matches!(class_of(c), CharClass::LineEnd)
}

/// WhiteSpace (section 7.2).
pub(crate) fn is_space(c: char) -> bool
    ensures { result ≡ is_space c }
{
    matches!(class_of(c), CharClass::Space)
}

/// IdentifierStart (section 7.6), other than an escape.
pub(crate) fn is_start(c: char) -> bool
    ensures { result ≡ is_start c }
{
    matches!(class_of(c), CharClass::NameStart)
}

/// IdentifierPart (section 7.6), other than an escape.
pub(crate) fn is_part(c: char) -> bool
    ensures { result ≡ is_part c }
{
    matches!(class_of(c), CharClass::NameStart | CharClass::NamePart)
}

/// DecimalDigit (section 7.8.3).
pub(crate) fn is_digit(c: char) -> bool
    ensures { result ≡ is_digit c }
{
    c.is_ascii_digit()
}

/// NonZeroDigit (section 7.8.3).
pub(crate) fn is_nonzero(c: char) -> bool
    ensures { result ≡ is_nonzero c }
{
    matches!(c, '1'..='9')
}

/// HexDigit (section 7.8.3).
pub(crate) fn is_hex(c: char) -> bool
    ensures { result ≡ is_hex c }
{
    c.is_ascii_hexdigit()
}

/// OctalDigit (section B.1.1).
pub(crate) fn is_octal(c: char) -> bool
    ensures { result ≡ is_octal c }
{
    matches!(c, '0'..='7')
}

/// Whether the four are the digits of a character that may begin a name.
pub(crate) fn escaped_is_start(a: char, b: char, c: char, d: char) -> bool
    ensures { result ≡ is_escape_of is_start a b c d }
{
    match escaped(a, b, c, d) {
        Some(c) => is_start(c),
        None => false,
    }
}

/// Whether the four are the digits of a character that may stand in a name.
pub(crate) fn escaped_is_part(a: char, b: char, c: char, d: char) -> bool
    ensures { result ≡ is_escape_of is_part a b c d }
{
    match escaped(a, b, c, d) {
        Some(c) => is_part(c),
        None => false,
    }
}

/// The character whose four hexadecimal digits these are.
pub(crate) fn escaped(a: char, b: char, c: char, d: char) -> Option<char>
    ensures { result ≡ escaped a b c d }
{
    if is_hex(a) && is_hex(b) && is_hex(c) && is_hex(d) {
        char_of(code_of(a, b, c, d))
    } else {
        None
    }
}

/// The character of this number, if it is one.
fn char_of(code: u32) -> Option<char>
    requires { code < 0x1_0000 }
    ensures { result ≡ char_of code }
{
    if code < 0xD800 {
        char::from_u32(code)
    } else if code < 0xE000 {
        None
    } else {
        char::from_u32(code)
    }
}

/// The number that four hexadecimal digits write.
pub(crate) fn code_of(a: char, b: char, c: char, d: char) -> u32
    requires hex_a { IsTrue (is_hex a) }
    requires hex_b { IsTrue (is_hex b) }
    requires hex_c { IsTrue (is_hex c) }
    requires hex_d { IsTrue (is_hex d) }
    ensures value { result ≡ code_of a b c d }
    ensures few { result < 0x1_0000 }
{
    ((hex_value(a) * 16 + hex_value(b)) * 16 + hex_value(c)) * 16 + hex_value(d)
}

/// The number that a hexadecimal digit writes.
fn hex_value(c: char) -> u32
    requires { IsTrue (is_hex c) }
    ensures value { result ≡ digit_value c }
    ensures few { result < 16 }
{
    c.to_digit(16).unwrap_or(0)
}
