//! The kinds of exchanges, which follow one another in turn.
ghost use Rattle.std.specs.Prelude.{◌≡◌};
ghost use Rattle.trial.specs.Trials.{kind_of as the_kind};

/// What an exchange of the self-test is of. Eight exchanges in a row have each kind once.
#[derive(Clone, Copy, Debug, PartialEq, Eq)]
pub enum Kind {
    /// A script that says so: `text/javascript`.
    Javascript,
    /// `text/html`, with `nosniff`.
    Nosniff,
    /// An image in PNG, with no type.
    Png,
    /// A script of the type `application/octet-stream`.
    Script,
    /// JSON of the type `application/octet-stream`.
    Json,
    /// A text that is no script: `text/plain`.
    Text,
    /// An image in JPEG, in chunks.
    Jpeg,
    /// The first range of a media resource: `video/ogg`.
    Media,
}

/// The kind of the exchange of this number.
pub(crate) fn kind_of(number: u64) -> Kind
    ensures { result ≡ the_kind number }
{
    match number % 8 {
        0 => Kind::Javascript,
        1 => Kind::Nosniff,
        2 => Kind::Png,
        3 => Kind::Script,
        4 => Kind::Json,
        5 => Kind::Text,
        6 => Kind::Jpeg,
        _ => Kind::Media,
    }
}
