//! The tokens of scripts (ECMA-262 5.1, section 7), as the grammar tells them apart.
ghost use Rattle.std.specs.Prelude.{◌≡◌};
ghost use Rattle.es5_lexer.specs.Suits.{is_div};

/// How a slash that begins no comment is read: the goal symbol of the lexical grammar (section 7).
#[derive(Clone, Copy, Debug, PartialEq, Eq)]
pub enum Goal {
    /// As division: InputElementDiv.
    Div,
    /// As the start of a regular expression: InputElementRegExp.
    RegExp,
}

impl Goal {
    /// Whether a slash is a division under it.
    pub(crate) fn is_div(self) -> bool
        ensures { result ≡ is_div self }
    {
        matches!(self, Goal::Div)
    }
}

/// A reserved word (section 7.6.1): the keywords, the words kept for the future, and the literals.
#[derive(Clone, Copy, Debug, PartialEq, Eq)]
pub enum Word {
    Break,
    Case,
    Catch,
    Continue,
    Debugger,
    Default,
    Delete,
    Do,
    Else,
    Finally,
    For,
    Function,
    If,
    In,
    Instanceof,
    New,
    Return,
    Switch,
    This,
    Throw,
    Try,
    Typeof,
    Var,
    Void,
    While,
    With,
    Class,
    Const,
    Enum,
    Export,
    Extends,
    Import,
    Super,
    Null,
    True,
    False,
}

/// A punctuator (section 7.7), division among them.
#[derive(Clone, Copy, Debug, PartialEq, Eq)]
pub enum Punct {
    LeftBrace,
    RightBrace,
    LeftParen,
    RightParen,
    LeftBracket,
    RightBracket,
    Dot,
    Semicolon,
    Comma,
    Less,
    Greater,
    LessEqual,
    GreaterEqual,
    Equal,
    NotEqual,
    SameEqual,
    NotSame,
    Plus,
    Minus,
    Star,
    Percent,
    PlusPlus,
    MinusMinus,
    ShiftLeft,
    ShiftRight,
    ShiftRightZero,
    And,
    Or,
    Xor,
    Not,
    Tilde,
    AndAnd,
    OrOr,
    Question,
    Colon,
    Assign,
    PlusAssign,
    MinusAssign,
    StarAssign,
    PercentAssign,
    ShiftLeftAssign,
    ShiftRightAssign,
    ShiftRightZeroAssign,
    AndAssign,
    OrAssign,
    XorAssign,
    Slash,
    SlashAssign,
}

/// What a token is.
#[derive(Clone, Copy, Debug, Default, PartialEq, Eq)]
pub enum Token {
    /// An identifier (section 7.6) other than `get` and `set`.
    #[default]
    Ident,
    /// The identifier `get`, written without escapes.
    Get,
    /// The identifier `set`, written without escapes.
    Set,
    /// A reserved word, written without escapes.
    Word(Word),
    /// A reserved word that is written with an escape: a name, but neither the word nor an identifier.
    EscapedWord,
    /// A punctuator.
    Punct(Punct),
    /// A numeric literal (section 7.8.3, and B.1.1 for octal ones).
    Number,
    /// A string literal (section 7.8.4).
    Text,
    /// A regular expression literal (section 7.8.5).
    Pattern,
}

/// A token and what stands before it.
#[derive(Clone, Copy, Debug, Default, PartialEq, Eq)]
pub struct Lexeme {
    /// What the token is.
    pub token: Token,
    /// Whether a line terminator stands between the token and the one before, in a comment too.
    pub newline: bool,
}
