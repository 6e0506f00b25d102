//! The states of a JSON test: where in the grammar of RFC 8259 it stands.
//!
//! A state is named for what is expected next, and has what that needs. What the arrays and objects around it expect is kept
//! beside it, one mark for each that is open.

/// How many arrays and objects may stand inside one another.
pub const MOST_LEVELS: usize = 1024;

/// What holds values (RFC 8259 sections 4 and 5).
#[derive(Clone, Copy, Debug, Default)]
pub enum Container {
    #[default]
    Array,
    Object,
}

/// What is expected next.
#[derive(Clone, Copy, Debug)]
pub enum State {
    /// White space or a value: at the beginning, and after a colon.
    Value,
    /// After the bracket that opens: white space, an item, or the bracket that closes.
    First,
    /// After a comma: white space or an item, which is a value in an array and a name in an object.
    Item,
    /// After a name: white space or a colon.
    Colon,
    /// After a value: white space, a comma, the bracket that closes, or the end.
    After,
    /// In a string: a character, or the quotation mark that ends it.
    Text(Role),
    /// After a reverse solidus.
    Escape(Role),
    /// After `\u`: a hexadecimal digit, and so many more.
    Hex(Role, u8),
    /// In a number.
    Number(Part),
    /// In a literal name.
    Word(Letters),
    /// Nothing: no text that begins so is JSON.
    Dead,
}

/// What a string is.
#[derive(Clone, Copy, Debug)]
pub enum Role {
    /// The name of a member.
    Name,
    /// A value.
    Value,
}

/// After which part of a number one stands (RFC 8259 section 6).
#[derive(Clone, Copy, Debug)]
pub enum Part {
    /// The minus: a digit comes.
    Minus,
    /// A leading zero: no further digit comes.
    Zero,
    /// A digit of the integer.
    Integer,
    /// The decimal point: a digit comes.
    Point,
    /// A digit of the fraction.
    Fraction,
    /// `e`: a sign or a digit comes.
    E,
    /// The sign of the exponent: a digit comes.
    Sign,
    /// A digit of the exponent.
    Exponent,
}

/// The letters of a literal name that are still to come.
#[derive(Clone, Copy, Debug)]
pub enum Letters {
    /// Of `false`.
    Alse,
    Lse,
    Se,
    /// Of `false` and `true`.
    E,
    /// Of `true`.
    Rue,
    Ue,
    /// Of `null`.
    Ull,
    Ll,
    L,
}

/// What becomes of the marks of the arrays and objects that are open.
#[derive(Clone, Copy, Debug)]
pub enum Move {
    Stay,
    Open(Container),
    Close,
}

/// A state, and a move of the marks.
#[derive(Clone, Copy, Debug)]
pub struct Step {
    pub state: State,
    pub marks: Move,
}
