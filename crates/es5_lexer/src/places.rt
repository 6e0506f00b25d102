//! Where a reader stands in a token.
//!
//! A place is named for what was read last in the grammar of ECMA-262 5.1, section 7, and says what
//! may come next; [`Place::next`] goes on by one character, and [`Place::ended`] says what token ends
//! here. Each place keeps at most three characters: those of an escape whose class isn't known yet.
//! Which word a name is, is asked of its text once it has ended.
ghost use Rattle.std.specs.Prelude.{◌≡◌, ℕ, List, IsTrue};
ghost use Rattle.es5_lexer.specs.Tokens.{is_barred};
ghost use Rattle.es5_lexer.specs.Reading.{token_of};
ghost use Rattle.es5_lexer.specs.Characters.{is_hex, is_escape_of};
ghost use Rattle.es5_lexer.specs.Strings.{quote_of};
ghost use Rattle.es5_lexer.specs.Places.{set_of, is_dead, ended, before_escape, first, past_slash, after_mark, after};
ghost use Rattle.es5_lexer.specs.Places.{next, next_in_parts, next_in_escape, next_in_mark};
ghost use Rattle.es5_lexer.specs.Places.{next_in_number, next_in_whole, next_in_exponent};
ghost use Rattle.es5_lexer.specs.Places.{next_in_text, next_in_chars, after_text_escape, fewer};
ghost use Rattle.es5_lexer.specs.Places.{next_in_pattern, next_in_body, next_in_class};

use crate::characters::{
    escaped_is_part, escaped_is_start, is_digit, is_hex, is_line_end, is_nonzero, is_octal,
    is_part, is_start,
};
use crate::marks::{longer, mark};
use crate::tokens::{Goal, Punct};

/// What a token is, before names are told apart.
#[derive(Clone, Copy, Debug, PartialEq, Eq)]
pub(crate) enum Kind {
    Name,
    Punct(Punct),
    Number,
    Text,
    Pattern,
}

/// After the start of a token.
#[derive(Clone, Copy)]
pub(crate) enum Place {
    /// A whole name.
    Name,
    /// An escape in a name or in flags.
    Escape(Host, Seen),
    /// A whole punctuator.
    Mark(Punct),
    Number(NumberPlace),
    Text(Quote, TextPlace),
    Pattern(PatternPlace),
    /// No token begins so.
    Dead,
}

/// What an escape stands in.
#[derive(Clone, Copy)]
pub(crate) enum Host {
    /// The first character of a name.
    FirstChar,
    /// A later one.
    LaterChar,
    /// One of the flags of a regular expression.
    FlagChar,
}

/// What was read of an escape.
#[derive(Clone, Copy)]
pub(crate) enum Seen {
    /// `\`.
    EscapeMark,
    /// `\u`.
    EscapeLetter,
    OneDigit(u8),
    TwoDigits(u8, u8),
    ThreeDigits(u8, u8, u8),
}

/// What was read last of a number.
#[derive(Clone, Copy)]
pub(crate) enum NumberPlace {
    /// The first 0.
    Zero,
    /// A digit of a whole part that doesn't begin with 0.
    Digit,
    /// The point after a whole part, or a digit after the point.
    Point,
    /// `e` or `E`.
    Exponent,
    /// The sign after it.
    Sign,
    /// A digit of the exponent.
    ExponentDigit,
    /// `0x` or `0X`.
    HexMark,
    HexDigit,
    OctalDigit,
}

/// The quote that a string stands in.
#[derive(Clone, Copy)]
pub(crate) enum Quote {
    Double,
    Single,
}

/// What was read last of a string.
#[derive(Clone, Copy)]
pub(crate) enum TextPlace {
    /// The opening quote, or a whole character.
    Chars,
    /// `\`.
    TextEscape,
    /// `\` and CR.
    Cr,
    /// An escape, of which so many hexadecimal digits are missing.
    Hex(Left),
    /// The closing quote.
    End,
}

/// How many digits are missing.
#[derive(Clone, Copy)]
pub(crate) enum Left {
    One,
    Two,
    Three,
    Four,
}

/// What was read last of a regular expression.
#[derive(Clone, Copy)]
pub(crate) enum PatternPlace {
    /// The opening slash.
    BodyStart,
    /// A whole character or class of the body.
    Body,
    /// `\` in the body.
    BodyEscape,
    /// `[`, or a whole character of a class.
    Class,
    /// `\` in a class.
    ClassEscape,
    /// The closing slash, or a whole character of the flags.
    Flags,
}

impl Place {
    /// After the first character of a token, a slash read by the goal.
    pub(crate) fn first(goal: Goal, c: char) -> Place
        ensures { result ≡ first goal c }
    {
        if is_start(c) {
            Place::Name
        } else if c == '\\' {
            Place::Escape(Host::FirstChar, Seen::EscapeMark)
        } else if c == '0' {
            Place::Number(NumberPlace::Zero)
        } else if is_nonzero(c) {
            Place::Number(NumberPlace::Digit)
        } else if c == '"' {
            Place::Text(Quote::Double, TextPlace::Chars)
        } else if c == '\'' {
            Place::Text(Quote::Single, TextPlace::Chars)
        } else if c == '/' {
            Place::past_slash(goal)
        } else {
            Place::after_mark(mark(c))
        }
    }

    /// After a slash that begins a token.
    pub(crate) fn past_slash(goal: Goal) -> Place
        ensures { result ≡ past_slash goal }
    {
        if goal.is_div() {
            Place::Mark(Punct::Slash)
        } else {
            Place::Pattern(PatternPlace::BodyStart)
        }
    }

    /// After a punctuator, if it is one.
    fn after_mark(p: Option<Punct>) -> Place
        ensures { result ≡ after_mark p }
    {
        match p {
            Some(p) => Place::Mark(p),
            None => Place::Dead,
        }
    }

    /// After one character more.
    pub(crate) fn next(self, c: char) -> Place
        ensures { result ≡ next self c }
    {
        match self {
            Place::Name => next_in_parts(Host::LaterChar, c),
            Place::Escape(host, seen) => next_in_escape(host, seen, c),
            Place::Mark(p) => next_in_mark(p, c),
            Place::Number(place) => next_in_number(place, c),
            Place::Text(quote, place) => next_in_text(quote, place, c),
            Place::Pattern(place) => next_in_pattern(place, c),
            Place::Dead => Place::Dead,
        }
    }

    /// The token that ends here, if one does.
    pub(crate) fn ended(self) -> Option<Kind>
        ensures { result ≡ ended self }
    {
        match self {
            Place::Name => Some(Kind::Name),
            Place::Mark(p) => Some(Kind::Punct(p)),
            Place::Number(NumberPlace::Exponent | NumberPlace::Sign | NumberPlace::HexMark) => None,
            Place::Number(_) => Some(Kind::Number),
            Place::Text(_, TextPlace::End) => Some(Kind::Text),
            Place::Pattern(PatternPlace::Flags) => Some(Kind::Pattern),
            _ => None,
        }
    }

    /// The token before an escape that doesn't go on, if one stands there.
    pub(crate) fn before_escape(self) -> Option<Kind>
        ensures { result ≡ before_escape self }
    {
        match self {
            Place::Escape(Host::LaterChar, _) => Some(Kind::Name),
            Place::Escape(Host::FlagChar, _) => Some(Kind::Pattern),
            _ => None,
        }
    }

    /// Whether no token begins so.
    pub(crate) fn is_dead(self) -> bool
        ensures { result ≡ is_dead self }
    {
        matches!(self, Place::Dead)
    }
}

impl Kind {
    /// Whether the character may not stand after a token of the kind.
    #[tactic(auto, using(crate::proofs::TokenLemmas::name_unbarred))]
    pub(crate) fn bars(self, c: char) -> bool
        ensures { (u : List ℕ) → result ≡ is_barred (token_of self u) c }
    {
        match self {
            Kind::Name => false,
            Kind::Number => is_digit(c) || is_start(c) || c == '\\',
            Kind::Punct(Punct::Slash) => matches!(c, '/' | '*'),
            Kind::Punct(_) => false,
            Kind::Text => false,
            Kind::Pattern => false,
        }
    }
}

impl Host {
    /// After a whole character of it.
    fn after(self) -> Place
        ensures { result ≡ after self }
    {
        match self {
            Host::FirstChar | Host::LaterChar => Place::Name,
            Host::FlagChar => Place::Pattern(PatternPlace::Flags),
        }
    }

    /// Whether the four are the digits of a character that may stand here.
    fn takes_escape(self, a: u8, b: u8, c: u8, d: char) -> bool
        ensures { result ≡ is_escape_of (set_of self) a b c d }
    {
        let (a, b, c) = (char::from(a), char::from(b), char::from(c));
        match self {
            Host::FirstChar => escaped_is_start(a, b, c, d),
            Host::LaterChar | Host::FlagChar => escaped_is_part(a, b, c, d),
        }
    }
}

/// After name parts, and one character more.
fn next_in_parts(host: Host, c: char) -> Place
    ensures { result ≡ next_in_parts host c }
{
    if is_part(c) {
        host.after()
    } else if c == '\\' {
        Place::Escape(host, Seen::EscapeMark)
    } else {
        Place::Dead
    }
}

/// In an escape, and one character more.
fn next_in_escape(host: Host, seen: Seen, c: char) -> Place
    ensures { result ≡ next_in_escape host seen c }
{
    match seen {
        Seen::EscapeMark if c == 'u' => Place::Escape(host, Seen::EscapeLetter),
        Seen::EscapeLetter if is_hex(c) => Place::Escape(host, Seen::OneDigit(digit(c))),
        Seen::OneDigit(a) if is_hex(c) => Place::Escape(host, Seen::TwoDigits(a, digit(c))),
        Seen::TwoDigits(a, b) if is_hex(c) => Place::Escape(
            host,
            Seen::ThreeDigits(a, b, digit(c)),
        ),
        Seen::ThreeDigits(a, b, d) if host.takes_escape(a, b, d, c) => host.after(),
        _ => Place::Dead,
    }
}

/// A hexadecimal digit as a byte.
fn digit(c: char) -> u8
    requires { IsTrue (is_hex c) }
    ensures { result ≡ c }
{
    c as u8
}

/// After a punctuator, and one character more.
fn next_in_mark(p: Punct, c: char) -> Place
    ensures { result ≡ next_in_mark p c }
{
    match longer(p, c) {
        Some(longer) => Place::Mark(longer),
        None if matches!(p, Punct::Dot) && is_digit(c) => Place::Number(NumberPlace::Point),
        None => Place::Dead,
    }
}

/// In a number, and one character more.
fn next_in_number(place: NumberPlace, c: char) -> Place
    ensures { result ≡ next_in_number place c }
{
    match place {
        NumberPlace::Zero if is_octal(c) => Place::Number(NumberPlace::OctalDigit),
        NumberPlace::Zero if matches!(c, 'x' | 'X') => Place::Number(NumberPlace::HexMark),
        NumberPlace::Digit if is_digit(c) => Place::Number(NumberPlace::Digit),
        NumberPlace::Zero | NumberPlace::Digit => next_in_whole(c),
        NumberPlace::Point if is_digit(c) => Place::Number(NumberPlace::Point),
        NumberPlace::Point => next_in_exponent(c),
        NumberPlace::Exponent if matches!(c, '+' | '-') => Place::Number(NumberPlace::Sign),
        NumberPlace::Exponent | NumberPlace::Sign | NumberPlace::ExponentDigit if is_digit(c) => {
            Place::Number(NumberPlace::ExponentDigit)
        }
        NumberPlace::HexMark | NumberPlace::HexDigit if is_hex(c) => {
            Place::Number(NumberPlace::HexDigit)
        }
        NumberPlace::OctalDigit if is_octal(c) => Place::Number(NumberPlace::OctalDigit),
        _ => Place::Dead,
    }
}

/// After a whole part, and one character more that isn't of it.
fn next_in_whole(c: char) -> Place
    ensures { result ≡ next_in_whole c }
{
    if c == '.' {
        Place::Number(NumberPlace::Point)
    } else {
        next_in_exponent(c)
    }
}

/// After a whole part and a fraction, and one character more that isn't of them.
fn next_in_exponent(c: char) -> Place
    ensures { result ≡ next_in_exponent c }
{
    if matches!(c, 'e' | 'E') {
        Place::Number(NumberPlace::Exponent)
    } else {
        Place::Dead
    }
}

impl Quote {
    /// Its character.
    fn char(self) -> char
        ensures { result ≡ quote_of self }
    {
        match self {
            Quote::Double => '"',
            Quote::Single => '\'',
        }
    }
}

/// In a string, and one character more.
fn next_in_text(quote: Quote, place: TextPlace, c: char) -> Place
    ensures { result ≡ next_in_text quote place c }
{
    match place {
        TextPlace::Chars => next_in_chars(quote, c),
        TextPlace::TextEscape => after_text_escape(quote, c),
        TextPlace::Cr if c == '\n' => Place::Text(quote, TextPlace::Chars),
        TextPlace::Cr => next_in_chars(quote, c),
        TextPlace::Hex(left) if is_hex(c) => Place::Text(quote, left.fewer()),
        TextPlace::Hex(_) | TextPlace::End => Place::Dead,
    }
}

/// After a whole character of a string, and one more.
fn next_in_chars(quote: Quote, c: char) -> Place
    ensures { result ≡ next_in_chars quote c }
{
    if c == quote.char() {
        Place::Text(quote, TextPlace::End)
    } else if c == '\\' {
        Place::Text(quote, TextPlace::TextEscape)
    } else if is_line_end(c) {
        Place::Dead
    } else {
        Place::Text(quote, TextPlace::Chars)
    }
}

/// After a `\` in a string, and one character more.
fn after_text_escape(quote: Quote, c: char) -> Place
    ensures { result ≡ after_text_escape quote c }
{
    let place = match c {
        'x' => TextPlace::Hex(Left::Two),
        'u' => TextPlace::Hex(Left::Four),
        '\r' => TextPlace::Cr,
        _ => TextPlace::Chars,
    };
    Place::Text(quote, place)
}

impl Left {
    /// After one digit more.
    fn fewer(self) -> TextPlace
        ensures { result ≡ fewer self }
    {
        match self {
            Left::One => TextPlace::Chars,
            Left::Two => TextPlace::Hex(Left::One),
            Left::Three => TextPlace::Hex(Left::Two),
            Left::Four => TextPlace::Hex(Left::Three),
        }
    }
}

/// In a regular expression, and one character more.
fn next_in_pattern(place: PatternPlace, c: char) -> Place
    ensures { result ≡ next_in_pattern place c }
{
    match place {
        PatternPlace::BodyStart if matches!(c, '*' | '/') => Place::Dead,
        PatternPlace::Body if c == '/' => Place::Pattern(PatternPlace::Flags),
        PatternPlace::BodyStart | PatternPlace::Body => next_in_body(c),
        PatternPlace::BodyEscape if !is_line_end(c) => Place::Pattern(PatternPlace::Body),
        PatternPlace::Class => next_in_class(c),
        PatternPlace::ClassEscape if !is_line_end(c) => Place::Pattern(PatternPlace::Class),
        PatternPlace::Flags => next_in_parts(Host::FlagChar, c),
        PatternPlace::BodyEscape | PatternPlace::ClassEscape => Place::Dead,
    }
}

/// In the body of a regular expression, and one character more other than `/`.
fn next_in_body(c: char) -> Place
    ensures { result ≡ next_in_body c }
{
    if c == '\\' {
        Place::Pattern(PatternPlace::BodyEscape)
    } else if c == '[' {
        Place::Pattern(PatternPlace::Class)
    } else if is_line_end(c) {
        Place::Dead
    } else {
        Place::Pattern(PatternPlace::Body)
    }
}

/// In a class, and one character more.
fn next_in_class(c: char) -> Place
    ensures { result ≡ next_in_class c }
{
    if c == ']' {
        Place::Pattern(PatternPlace::Body)
    } else if c == '\\' {
        Place::Pattern(PatternPlace::ClassEscape)
    } else if is_line_end(c) {
        Place::Dead
    } else {
        Place::Pattern(PatternPlace::Class)
    }
}
