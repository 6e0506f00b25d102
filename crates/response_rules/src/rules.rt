//! The rules by name, in the order in which they are asked.
ghost use Rattle.std.specs.Prelude.{◌≡◌, ◌≤◌, true, false, length};
ghost use Rattle.response_rules.specs.Rules.{name_of, is_allowing, state_after_rule};

use media_state::{MediaState, after};

/// A rule of Opaque Response Blocking or of Cross-Origin Read Blocking, by what holds where it decides: none before it
/// does.
#[derive(Clone, Copy, Debug, PartialEq, Eq)]
pub enum Rule {
    /// The request isn't opaque.
    NotOpaque,
    /// The type is a script's, a style sheet's or SVG.
    Safelisted,
    /// The type is one whose bodies are never looked at.
    NeverSniffed,
    /// A part of a body whose type is HTML, JSON or XML.
    PartialBlocklisted,
    /// The type is HTML, JSON, XML or plain text, and isn't to be guessed.
    NosniffBlocklisted,
    /// A part of a media resource that states another complete length than a part that was let through before.
    RangeMismatch,
    /// A part of a media resource that was let through before.
    Subsequent,
    /// A part of a body that doesn't begin with the first byte.
    BadRange,
    /// The body has a content coding.
    Coded,
    /// Audio or video for a request that isn't the first of a media resource.
    MediaUnexpected,
    /// Audio or video with a status that is neither 200 nor 206.
    MediaStatus,
    /// Audio or video.
    Media,
    /// The request is for media, and this is none.
    MediaExpected,
    /// An image.
    Image,
    /// The type isn't to be guessed.
    Nosniff,
    /// The status isn't a success.
    NotOk,
    /// The fields state no type.
    Untyped,
    /// The type is audio, image or video, and the body is none of those known.
    TypedMedia,
    /// The body is longer than what is read for a script.
    BodyLimit,
    /// The body is no script.
    NotScript,
    /// The body is JSON.
    Json,
    /// The body is a script.
    Script,
    /// CORB: the type is a script's, a style sheet's or SVG.
    CorbSafelisted,
    /// CORB: the type is one whose bodies are never looked at.
    CorbNeverSniffed,
    /// CORB: a part of a body whose type is HTML, JSON, XML or plain text.
    CorbPartial,
    /// CORB: the type is HTML, JSON, XML or plain text, and isn't to be guessed.
    CorbNosniff,
    /// CORB: the type is HTML, JSON, XML or plain text, and the body has a content coding.
    CorbCoded,
    /// CORB: the body has no content coding, and begins with what breaks a parser of scripts.
    CorbBreaker,
    /// CORB: the type is HTML or plain text, and the body begins as HTML.
    CorbHtml,
    /// CORB: the type is XML or plain text, and the body begins as XML.
    CorbXml,
    /// CORB: the type is JSON or plain text, and the body begins as a JSON object.
    CorbJson,
    /// CORB: the type is neither HTML, JSON, XML nor plain text, or the fields state none.
    CorbUnprotected,
    /// CORB: the type is plain text.
    CorbText,
    /// CORB: the body doesn't begin as its type says.
    CorbUnconfirmed,
}

/// What the table says of a rule.
#[derive(Clone, Copy)]
struct Row {
    name: &'static [u8],
    allows: bool,
}

/// A rule of this name that allows.
fn allow(name: &'static [u8]) -> Row
    ensures name { result.name.now ≡ name.now }
    ensures allows { result.allows ≡ true }
{
    Row { name, allows: true }
}

/// A rule of this name that blocks.
fn block(name: &'static [u8]) -> Row
    ensures name { result.name.now ≡ name.now }
    ensures allows { result.allows ≡ false }
{
    Row {
        name,
        allows: false,
    }
}

impl Rule {
    /// Its name, as it is written in reports: at most 19 bytes.
    pub fn name(&self) -> &'static [u8]
        ensures value { result.now ≡ name_of self.now }
        ensures short { length result.now ≤ 19 }
    {
        self.row().name
    }

    /// Whether it allows the response.
    pub fn allows(&self) -> bool
        ensures { result ≡ is_allowing self.now }
    {
        self.row().allows
    }

    /// The state of the media resource after a response that it decides and that states this complete length.
    #[tactic(auto, unfolding(crate::specs::Rules::is_media_rule, crate::specs::Rules::is_subsequent_rule))]
    pub(crate) fn state_after(self, state: MediaState, complete: Option<u64>) -> MediaState
        ensures { result ≡ state_after_rule state self complete }
    {
        match self {
            Rule::Media => after(state, true, false, complete),
            Rule::Subsequent => after(state, false, true, complete),
            _ => state,
        }
    }

    /// Its row of the table.
    #[tactic(auto, unfolding(crate::specs::Rules::row_of))]
    fn row(&self) -> Row
        ensures name { result.name.now ≡ name_of self.now }
        ensures short { length result.name.now ≤ 19 }
        ensures allows { result.allows ≡ is_allowing self.now }
    {
        match self {
            Rule::NotOpaque => allow(b"not-opaque"),
            Rule::Safelisted => allow(b"safelisted"),
            Rule::NeverSniffed => block(b"never-sniffed"),
            Rule::PartialBlocklisted => block(b"partial-blocklisted"),
            Rule::NosniffBlocklisted => block(b"nosniff-blocklisted"),
            Rule::RangeMismatch => block(b"range-mismatch"),
            Rule::Subsequent => allow(b"subsequent"),
            Rule::BadRange => block(b"bad-range"),
            Rule::Coded => block(b"coded"),
            Rule::MediaUnexpected => block(b"media-unexpected"),
            Rule::MediaStatus => block(b"media-status"),
            Rule::Media => allow(b"media"),
            Rule::MediaExpected => block(b"media-expected"),
            Rule::Image => allow(b"image"),
            Rule::Nosniff => block(b"nosniff"),
            Rule::NotOk => block(b"not-ok"),
            Rule::Untyped => allow(b"untyped"),
            Rule::TypedMedia => block(b"typed-media"),
            Rule::BodyLimit => block(b"body-limit"),
            Rule::NotScript => block(b"not-script"),
            Rule::Json => block(b"json"),
            Rule::Script => allow(b"script"),
            Rule::CorbSafelisted => allow(b"corb-safelisted"),
            Rule::CorbNeverSniffed => block(b"corb-never-sniffed"),
            Rule::CorbPartial => block(b"corb-partial"),
            Rule::CorbNosniff => block(b"corb-nosniff"),
            Rule::CorbCoded => block(b"corb-coded"),
            Rule::CorbBreaker => block(b"corb-breaker"),
            Rule::CorbHtml => block(b"corb-html"),
            Rule::CorbXml => block(b"corb-xml"),
            Rule::CorbJson => block(b"corb-json"),
            Rule::CorbUnprotected => allow(b"corb-unprotected"),
            Rule::CorbText => allow(b"corb-text"),
            Rule::CorbUnconfirmed => allow(b"corb-unconfirmed"),
        }
    }
}
