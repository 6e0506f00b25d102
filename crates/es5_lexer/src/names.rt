//! Which token a name is (ECMA-262 5.1, sections 7.6 and 7.6.1), by its letters.
ghost use Rattle.std.specs.Prelude.{◌≡◌, ◌∷◌, ℕ, List, map};
ghost use Rattle.es5_lexer.specs.Names.{word_of, word_in, ident_of};
ghost use Rattle.es5_lexer.specs.Letters.{token_of_letters};

use crate::tokens::{Token, Word};

/// The token of a name of these letters, written with an escape or without one.
pub(crate) fn name_token(escapes: bool, letters: &[u8]) -> Token
    ensures { result ≡ token_of_letters escapes letters.now }
{
    match reserved_word(letters) {
        Some(_) if escapes => Token::EscapedWord,
        Some(word) => Token::Word(word),
        None if escapes => Token::Ident,
        None => identifier(letters),
    }
}

/// The token of a name of these letters that is written without escapes and is no reserved word.
fn identifier(letters: &[u8]) -> Token
    ensures { result ≡ ident_of letters.now }
{
    if letters == b"get".as_slice() {
        Token::Get
    } else if letters == b"set".as_slice() {
        Token::Set
    } else {
        Token::Ident
    }
}

/// The reserved word of these letters.
#[tactic(auto, unfolding(crate::specs::Names::reserved_words))]
fn reserved_word(letters: &[u8]) -> Option<Word>
    ensures { result ≡ word_of letters.now }
{
    // Many names have one letter, and no word has.
    if letters.len() < 2 {
        return None;
    }
    word_in(words_of(letters[0]), letters)
}

/// The reserved words that begin with the letter.
#[tactic(auto, unfolding(crate::specs::Names::reserved_words))]
fn words_of(first: u8) -> &'static [(&'static [u8], Word)]
    ensures { (v : List ℕ) → word_in (map (λ w. (w.0.now, w.1)) result.now) (first ∷ v) ≡ word_of (first ∷ v) }
{
    match first {
        b'b' => &B_WORDS,
        b'c' => &C_WORDS,
        b'd' => &D_WORDS,
        b'e' => &E_WORDS,
        b'f' => &F_WORDS,
        b'i' => &I_WORDS,
        b'n' => &N_WORDS,
        b'r' => &R_WORDS,
        b's' => &S_WORDS,
        b't' => &T_WORDS,
        b'v' => &V_WORDS,
        b'w' => &W_WORDS,
        _ => &[],
    }
}

/// The first of the words that has these letters.
fn word_in(words: &[(&[u8], Word)], letters: &[u8]) -> Option<Word>
    ensures { result ≡ word_in (map (λ w. (w.0.now, w.1)) words.now) letters.now }
{
    for (spelling, word) in words {
        if *spelling == letters {
            return Some(*word);
        }
    }
    None
}

static B_WORDS: [(&[u8], Word); 1] = [(b"break", Word::Break)];

static C_WORDS: [(&[u8], Word); 5] = [
    (b"case", Word::Case),
    (b"catch", Word::Catch),
    (b"continue", Word::Continue),
    (b"class", Word::Class),
    (b"const", Word::Const),
];

static D_WORDS: [(&[u8], Word); 4] = [
    (b"debugger", Word::Debugger),
    (b"default", Word::Default),
    (b"delete", Word::Delete),
    (b"do", Word::Do),
];

static E_WORDS: [(&[u8], Word); 4] = [
    (b"else", Word::Else),
    (b"enum", Word::Enum),
    (b"export", Word::Export),
    (b"extends", Word::Extends),
];

static F_WORDS: [(&[u8], Word); 4] = [
    (b"finally", Word::Finally),
    (b"for", Word::For),
    (b"function", Word::Function),
    (b"false", Word::False),
];

static I_WORDS: [(&[u8], Word); 4] = [
    (b"if", Word::If),
    (b"in", Word::In),
    (b"instanceof", Word::Instanceof),
    (b"import", Word::Import),
];

static N_WORDS: [(&[u8], Word); 2] = [(b"new", Word::New), (b"null", Word::Null)];

static R_WORDS: [(&[u8], Word); 1] = [(b"return", Word::Return)];

static S_WORDS: [(&[u8], Word); 2] = [(b"switch", Word::Switch), (b"super", Word::Super)];

static T_WORDS: [(&[u8], Word); 5] = [
    (b"this", Word::This),
    (b"throw", Word::Throw),
    (b"try", Word::Try),
    (b"typeof", Word::Typeof),
    (b"true", Word::True),
];

static V_WORDS: [(&[u8], Word); 2] = [(b"var", Word::Var), (b"void", Word::Void)];

static W_WORDS: [(&[u8], Word); 2] = [(b"while", Word::While), (b"with", Word::With)];
